//! How an endpoint stands, and a transfer in its line, as it can be asked of the parts.

ghost use Rattle.std.specs.Prelude.{◌≡◌, option_map};
ghost use Rattle.usb_tables.specs.TransfersInFlight.{item_at};
ghost use Rattle.usb_core.specs.Standing.{device_halted_in, in_flight, state_in};

use crate::parts::Parts;
use std::marker::Model;
use usb_device::{Device, Scripted};
use usb_model::{Ask, DeviceNo, EndpointState, EpAddr, Request};

/// A transfer in the line of an endpoint.
#[derive(Drop)]
pub struct InLine<'a> {
    /// Its number, of its handle.
    pub n: u64,
    /// What was asked.
    pub request: &'a Request,
    /// Why it was asked to end; None where it wasn't.
    pub ask: Option<Ask>,
    /// The bytes that it read, in their order; none where it writes.
    pub read: &'a [u8],
}

impl<'a> Model for InLine<'a> {
    ghost use Rattle.usb_core.specs.Standing.{LineTransfer};

    ghost Value = { LineTransfer };

    ghost view = { λ x. record { n = x.n; request = x.request.now; ask = x.ask; read = x.read.now } };
}

impl<P, D: Device> Parts<P, D> {
    /// The state of an endpoint at the controller (xHCI 1.2, 4.8.3); one without a ring runs.
    pub fn state_at(&self, dev: DeviceNo, ep: EpAddr) -> EndpointState
        ensures { result ≡ state_in self.now.controller dev ep }
    {
        match self.context(dev, ep) {
            Some(context) => context.state(),
            None => EndpointState::Running,
        }
    }

    /// The transfer at a place of an endpoint's line; None at a blank, and behind the line.
    pub fn in_line(&self, dev: DeviceNo, ep: EpAddr, item: usize) -> Option<InLine<'_>>
        ensures { result ≡ option_map in_flight (item_at self.now.flights dev ep item) }
    {
        let transfer = self.flights.get(dev, ep, item)?;
        Some(InLine {
            n: transfer.n,
            request: &transfer.request,
            ask: transfer.ask,
            read: transfer.bytes.as_slice(),
        })
    }
}

impl<P, D: Scripted> Parts<P, D> {
    /// Whether an endpoint is halted at its device; false where there is no such device.
    pub fn is_halted_at_device(&self, dev: DeviceNo, ep: EpAddr) -> bool
        ensures { result ≡ device_halted_in self.now.controller dev ep }
    {
        match self.controller.slot(dev) {
            Some(slot) => slot.is_halted(ep),
            None => false,
        }
    }
}
