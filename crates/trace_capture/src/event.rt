//! An event of a bus, as Linux's usbmon tells it.

ghost use Rattle.std.specs.Prelude.{◌≡◌};
ghost use Rattle.trace_capture.specs.Transfer.{flags_of};

use crate::control_setup::ControlSetup;
use crate::errno::Errno;
use crate::identity::UrbId;
use usb_model::{Bytes, DeviceNo, EpAddr, Kind, Request};

/// What happened to a transfer (Linux, Documentation/usb/usbmon.rst, "Event Type").
#[derive(Clone, Copy, PartialEq, Eq, Debug)]
pub enum EventType {
    /// It was submitted.
    Submission,
    /// It ended, and its callback was called.
    Callback,
}

/// What is asked for beside the bytes (Linux, include/linux/usb.h, `transfer_flags`); the direction is the endpoint's.
#[derive(Clone, Copy, PartialEq, Eq, Debug)]
pub struct UrbFlags {
    /// URB_SHORT_NOT_OK: a short read is an error.
    pub short_not_ok: bool,
    /// URB_ZERO_PACKET: whole packets are followed by an empty one.
    pub zero_packet: bool,
}

/// One event of a bus (Linux, Documentation/usb/usbmon.rst, "Raw binary format and API").
#[derive(Debug, Drop)]
pub struct CaptureEvent {
    /// Which transfer it is of.
    pub id: UrbId,
    /// What happened.
    pub event_type: EventType,
    /// The kind of the transfer's endpoint.
    pub kind: Kind,
    /// The endpoint; of a control transfer 0, or 0x80 where it reads.
    pub ep: EpAddr,
    /// The device; its address on the bus is one more.
    pub device: DeviceNo,
    /// The scenario's line from which it comes, from 1: its time in microseconds. Seconds are written with 32 bits at the
    /// first place, with 64 at the second.
    pub line: u64,
    /// How the transfer stands.
    pub errno: Errno,
    /// At a submission how many bytes it is to move, at a callback how many moved; at most 262,144 in a run, and written
    /// with 32 bits.
    pub length: usize,
    /// What a control transfer asks for; at its submission alone.
    pub setup: Option<ControlSetup>,
    /// What is asked for beside the bytes.
    pub flags: UrbFlags,
    /// The bytes that a submission writes, or that were read at a callback.
    pub bytes: Bytes,
}

impl UrbFlags {
    /// Nothing.
    pub const NONE: UrbFlags = UrbFlags {
        short_not_ok: false,
        zero_packet: false,
    };

    /// Those of a request.
    pub fn of(request: &Request) -> UrbFlags
        ensures { result ≡ flags_of request.now }
    {
        UrbFlags {
            short_not_ok: request.is_short_not_ok(),
            zero_packet: request.adds_zero_packet(),
        }
    }
}
