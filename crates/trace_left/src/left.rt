//! One thing that isn't finished, and its text.

ghost use Rattle.std.specs.Prelude.{◌≡◌, Some};
ghost use Rattle.trace_left.specs.LeftText.{left_text, thing_text};

use std::fmt;
use usb_model::{DeviceNo, EpAddr, Errand, Name, Status};

/// Something that isn't finished at an endpoint.
#[derive(Clone, Copy, PartialEq, Eq, Debug)]
pub enum Thing {
    /// The transfer of this number waits in the endpoint's line: the device may still use it.
    Waits { n: u64 },
    /// The transfer of this number has ended in the line, and its event isn't handled.
    HasEnded { n: u64 },
    /// The endpoint is halted, at its device or at the controller.
    IsHalted,
    /// The device has so many answers left for it.
    Unused { answers: usize },
    /// An order waits for the controller (xHCI 1.2, 4.6).
    Order { errand: Errand },
    /// The event of an ended transfer waits to be handled (xHCI 1.2, 4.11.3).
    Finished { n: u64 },
    /// That of a transfer that was stopped between its packets.
    Paused { n: u64 },
    /// That of an order that was carried out, or failed.
    Settled { errand: Errand, ok: bool },
    /// The result of the transfer of this number waits to be taken.
    Result { n: u64, status: Status },
    /// The callback of the transfer of this number hasn't returned.
    Callback { n: u64 },
}

/// Something that a handle left behind.
#[derive(Clone, Copy, PartialEq, Eq, Debug)]
pub enum Left {
    /// The handle has this device open (libusb 1.0, `libusb_open`).
    Open { h: Name, dev: DeviceNo },
    /// The handle holds this interface of its device (libusb 1.0, `libusb_claim_interface`).
    Held { h: Name, interface: u8 },
    /// This isn't finished at an endpoint of the handle's.
    At { h: Name, ep: EpAddr, thing: Thing },
}

impl fmt::Display for Thing {
    ghost output = { λ thing. Some (thing_text thing) };

    fn fmt<W: fmt::Write>(&self, f: &mut fmt::Formatter<W>) -> fmt::Result {
        match self {
            Thing::Waits { n } => write!(f, "transfer {n} waits"),
            Thing::HasEnded { n } => write!(f, "transfer {n} ended"),
            Thing::IsHalted => f.write_str("halted"),
            Thing::Unused { answers } => write!(f, "unused {answers}"),
            Thing::Order { errand } => write!(f, "order {errand}"),
            Thing::Finished { n } => write!(f, "event finished {n}"),
            Thing::Paused { n } => write!(f, "event paused {n}"),
            Thing::Settled { errand, ok } => {
                let outcome = if *ok { "ok" } else { "fail" };
                write!(f, "event settled {errand} {outcome}")
            }
            Thing::Result { n, status } => write!(f, "result {n} {status}"),
            Thing::Callback { n } => write!(f, "callback {n}"),
        }
    }
}

/// A printed line, without its line feed: the handle, as `h1`; its device, its interface, or an endpoint and what isn't
/// finished there.
impl fmt::Display for Left {
    ghost output = { λ left. Some (left_text left) };

    fn fmt<W: fmt::Write>(&self, f: &mut fmt::Formatter<W>) -> fmt::Result {
        match self {
            Left::Open { h, dev } => { write!(f, "h{} device {} open", h.number(), dev.number()) }
            Left::Held { h, interface } => {
                write!(f, "h{} interface {interface} held", h.number())
            }
            Left::At { h, ep, thing } => write!(f, "h{} ep {ep} {thing}", h.number()),
        }
    }
}
