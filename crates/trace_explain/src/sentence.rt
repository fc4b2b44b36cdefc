//! Why an entry says what it says.

ghost use Rattle.std.specs.Prelude.{Some};
ghost use Rattle.trace_explain.specs.Text.{called_text, ending_text, idleness_text, reason_text, unready_text};

use crate::endpoints::EndpointList;
use crate::names::{DeviceName, HandleName, StateName};
use crate::refusal::{CallRefusal, UnplugRefusal};
use std::fmt;
use usb_model::{DeviceNo, EndpointState, EpAddr, Name, Status};

/// Why there was nothing to do.
#[derive(Clone, Copy, PartialEq, Eq, Debug)]
pub enum Idleness {
    /// There is no such device.
    NoDevice {
        dev: DeviceNo,
    },
    /// The device has no such endpoint, but these.
    NoEndpoint {
        dev: DeviceNo,
        ep: EpAddr,
        list: EndpointList,
    },
    /// No handle holds the endpoint.
    NoHolder {
        dev: DeviceNo,
        ep: EpAddr,
    },
    /// The endpoint is stopped or halted.
    Stands {
        ep: EpAddr,
        state: EndpointState,
    },
    /// No transfer waits at the endpoint.
    NoTransfer {
        ep: EpAddr,
    },
    /// No order waits.
    NoOrder,
    /// No event waits.
    NoEvent,
    /// No result waits.
    NoResult,
    /// The endpoint of the first order or event isn't the handle's any more.
    Lost {
        h: Name,
        ep: EpAddr,
    },
}

/// Why the device gave no packet.
#[derive(Clone, Copy, PartialEq, Eq, Debug)]
pub enum Unready {
    /// Its script says so.
    Nak { ep: EpAddr },
    /// Its script has no answer any more.
    ScriptEnd { ep: EpAddr },
    /// The device's endpoint is halted, amid a transfer.
    Halted { ep: EpAddr },
}

/// Why a transfer ended.
#[derive(Clone, Copy, PartialEq, Eq, Debug)]
pub enum TransferEnd {
    /// All its bytes moved.
    Whole { bytes: usize },
    /// A short packet ended the read.
    Short { moved: usize, bytes: usize },
    /// The device stalls now.
    Stall { ep: EpAddr },
    /// The device's endpoint is halted by a stall before.
    Halted { ep: EpAddr },
    /// The packet was broken in all its tries.
    Broken { ep: EpAddr },
    /// The packet has more bytes than there is room for.
    Babble { ep: EpAddr },
    /// The device was unplugged.
    Unplugged { dev: DeviceNo },
}

/// What a callback is told of how its transfer ended.
#[derive(Clone, Copy, PartialEq, Eq, Debug)]
pub struct CalledWith {
    /// Its status.
    pub status: Status,
    /// How many bytes moved.
    pub moved: usize,
    /// How many were to move.
    pub bytes: usize,
    /// Whether it is a read for which less is an error (libusb, `LIBUSB_TRANSFER_SHORT_NOT_OK`).
    pub short_not_ok: bool,
}

/// Why an entry says what it says. Most entries of steps that were done have none.
#[derive(Clone, Copy, PartialEq, Eq, Debug)]
pub enum Reason {
    /// Why a call is refused.
    Refused(CallRefusal),
    /// Why a device can't be unplugged.
    UnplugRefused(UnplugRefusal),
    /// Why there was nothing to do.
    Idle(Idleness),
    /// Why the device gave no packet.
    Nak(Unready),
    /// Why a transfer ended.
    Ended(TransferEnd),
    /// Why an order failed: the endpoint is in this state.
    Failed { ep: EpAddr, state: EndpointState },
    /// What a callback is told.
    Called(CalledWith),
}

impl fmt::Display for Idleness {
    ghost output = { λ x. Some (idleness_text x) };

    fn fmt<W: fmt::Write>(&self, f: &mut fmt::Formatter<W>) -> fmt::Result {
        match self {
            Idleness::NoDevice { dev } => {
                let dev = DeviceName(*dev);
                write!(f, "there is no {dev}")
            }
            Idleness::NoEndpoint { dev, ep, list } => {
                let dev = DeviceName(*dev);
                write!(f, "{dev} has no endpoint {ep}; it has {list}")
            }
            Idleness::NoHolder { dev, ep } => {
                let dev = DeviceName(*dev);
                write!(f, "no handle holds endpoint {ep} of {dev}")
            }
            Idleness::Stands { ep, state } => {
                let state = StateName(*state);
                write!(f, "{ep} is {state}")
            }
            Idleness::NoTransfer { ep } => write!(f, "nothing waits at {ep}"),
            Idleness::NoOrder => f.write_str("no order waits"),
            Idleness::NoEvent => f.write_str("no event waits"),
            Idleness::NoResult => f.write_str("no result waits"),
            Idleness::Lost { h, ep } => {
                let h = HandleName(*h);
                write!(f, "{h} doesn't hold endpoint {ep} any more")
            }
        }
    }
}

impl fmt::Display for Unready {
    ghost output = { λ x. Some (unready_text x) };

    fn fmt<W: fmt::Write>(&self, f: &mut fmt::Formatter<W>) -> fmt::Result {
        match self {
            Unready::Nak { ep } => write!(f, "the device isn't ready at {ep}"),
            Unready::ScriptEnd { ep } => write!(f, "the script of {ep} is at its end"),
            Unready::Halted { ep } => write!(f, "the device's endpoint {ep} is halted"),
        }
    }
}

impl fmt::Display for TransferEnd {
    ghost output = { λ x. Some (ending_text x) };

    fn fmt<W: fmt::Write>(&self, f: &mut fmt::Formatter<W>) -> fmt::Result {
        match self {
            TransferEnd::Whole { bytes } => write!(f, "all {bytes} bytes moved"),
            TransferEnd::Short { moved, bytes } => write!(
                f,
                "a short packet ends the read: {moved} of {bytes} bytes"
            ),
            TransferEnd::Stall { ep } => write!(f, "the device stalls at {ep}"),
            TransferEnd::Halted { ep } => write!(f, "the device's endpoint {ep} is halted"),
            TransferEnd::Broken { ep } => write!(f, "the packet at {ep} was broken"),
            TransferEnd::Babble { ep } => write!(
                f,
                "the packet at {ep} has more bytes than there is room for"
            ),
            TransferEnd::Unplugged { dev } => {
                let dev = DeviceName(*dev);
                write!(f, "{dev} was unplugged")
            }
        }
    }
}

impl fmt::Display for CalledWith {
    ghost output = { λ x. Some (called_text x x.status) };

    fn fmt<W: fmt::Write>(&self, f: &mut fmt::Formatter<W>) -> fmt::Result {
        let (moved, bytes) = (self.moved, self.bytes);
        match self.status {
            Status::Completed if moved < bytes => {
                write!(f, "a short packet ended it: {moved} of {bytes} bytes")
            }
            Status::Completed => f.write_str("it did what was asked"),
            Status::Error if self.short_not_ok && moved < bytes => write!(
                f,
                "it failed, or was read short where that is an error: {moved} of {bytes} bytes"
            ),
            Status::Error => f.write_str("it failed"),
            Status::TimedOut => f.write_str("it ended since its time was over"),
            Status::Cancelled => f.write_str("it ended since it was cancelled"),
            Status::Stall => f.write_str("the device stalled"),
            Status::NoDevice => f.write_str("its device was unplugged"),
            Status::Overflow => f.write_str("the device sent more than there was room for"),
        }
    }
}

/// The sentence of a reason.
impl fmt::Display for Reason {
    ghost output = { λ x. Some (reason_text x) };

    fn fmt<W: fmt::Write>(&self, f: &mut fmt::Formatter<W>) -> fmt::Result {
        match self {
            Reason::Refused(refusal) => write!(f, "{refusal}"),
            Reason::UnplugRefused(refusal) => write!(f, "{refusal}"),
            Reason::Idle(idleness) => write!(f, "{idleness}"),
            Reason::Nak(unready) => write!(f, "{unready}"),
            Reason::Ended(ending) => write!(f, "{ending}"),
            Reason::Failed { ep, state } => {
                let state = StateName(*state);
                write!(f, "{ep} is {state}")
            }
            Reason::Called(called) => write!(f, "{called}"),
        }
    }
}
