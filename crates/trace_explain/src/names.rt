//! How sentences name what they speak of.

ghost use Rattle.std.specs.Prelude.{Some};
ghost use Rattle.trace_explain.specs.Text.{device_text, handle_text, kind_text, state_text, transfer_text};

use std::fmt;
use usb_model::{DeviceNo, EndpointState, Kind, Name};

/// A handle: `h` and its number.
#[derive(Clone, Copy)]
pub(crate) struct HandleName(pub Name);

impl fmt::Display for HandleName {
    ghost output = { λ x. Some (handle_text x.0) };

    #[tactic(auto, unfolding(crate::specs::Text::handle_text))]
    fn fmt<W: fmt::Write>(&self, f: &mut fmt::Formatter<W>) -> fmt::Result {
        let number = self.0.number();
        write!(f, "h{number}")
    }
}

/// A device, by its number.
#[derive(Clone, Copy)]
pub(crate) struct DeviceName(pub DeviceNo);

impl fmt::Display for DeviceName {
    ghost output = { λ x. Some (device_text x.0) };

    #[tactic(auto, unfolding(crate::specs::Text::device_text))]
    fn fmt<W: fmt::Write>(&self, f: &mut fmt::Formatter<W>) -> fmt::Result {
        let number = self.0.number();
        write!(f, "device {number}")
    }
}

/// A transfer, by its number.
#[derive(Clone, Copy)]
pub(crate) struct TransferName(pub u64);

impl fmt::Display for TransferName {
    ghost output = { λ x. Some (transfer_text x.0) };

    #[tactic(auto, unfolding(crate::specs::Text::transfer_text))]
    fn fmt<W: fmt::Write>(&self, f: &mut fmt::Formatter<W>) -> fmt::Result {
        let number = self.0;
        write!(f, "transfer {number}")
    }
}

/// A kind of endpoint.
#[derive(Clone, Copy)]
pub(crate) struct KindName(pub Kind);

impl fmt::Display for KindName {
    ghost output = { λ x. Some (kind_text x.0) };

    #[tactic(auto, unfolding(crate::specs::Text::kind_text))]
    fn fmt<W: fmt::Write>(&self, f: &mut fmt::Formatter<W>) -> fmt::Result {
        match self.0 {
            Kind::Control => f.write_str("control"),
            Kind::Isochronous => f.write_str("isochronous"),
            Kind::Bulk => f.write_str("bulk"),
            Kind::Interrupt => f.write_str("interrupt"),
        }
    }
}

/// How an endpoint stands.
#[derive(Clone, Copy)]
pub(crate) struct StateName(pub EndpointState);

impl fmt::Display for StateName {
    ghost output = { λ x. Some (state_text x.0) };

    #[tactic(auto, unfolding(crate::specs::Text::state_text))]
    fn fmt<W: fmt::Write>(&self, f: &mut fmt::Formatter<W>) -> fmt::Result {
        match self.0 {
            EndpointState::Running => f.write_str("running"),
            EndpointState::Stopped => f.write_str("stopped"),
            EndpointState::Halted => f.write_str("halted"),
        }
    }
}
