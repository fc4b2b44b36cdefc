//! Signs: the small shapes that tell what happened.

use usb_model::Status;

/// A sign.
#[derive(Clone, Copy)]
pub enum Sign {
    /// A transfer is submitted.
    Submission,
    /// It is in its endpoint's line.
    Arrival,
    /// A packet moved.
    Packet,
    /// The device wasn't ready.
    Nak,
    /// The transfer ended.
    Ended,
    /// Some other call is done.
    Call,
    /// A transfer is asked to end.
    Ask,
    /// A callback gave its verdict.
    Verdict,
    /// A call is refused.
    Refusal,
    /// There was nothing to do.
    Idle,
    /// An order is carried out, or told as such.
    Success,
    /// An order failed, or is told as such.
    Failure,
    /// The event of an ended transfer is handled.
    Finished,
    /// The event of a paused transfer is handled.
    Paused,
    /// A device is unplugged.
    Unplug,
    /// A callback is called with this status.
    Called(Status),
}

/// The name of the sign of a status in the document.
fn status_id(status: Status) -> &'static str {
    match status {
        Status::Completed => "completed",
        Status::Error => "error",
        Status::TimedOut => "timed-out",
        Status::Cancelled => "cancelled",
        Status::Stall => "stall",
        Status::NoDevice => "no-device",
        Status::Overflow => "overflow",
    }
}

impl Sign {
    /// Its name in the document.
    pub fn id(self) -> &'static str {
        match self {
            Sign::Submission => "submission",
            Sign::Arrival => "arrival",
            Sign::Packet => "packet",
            Sign::Nak => "nak",
            Sign::Ended => "ended",
            Sign::Call => "call",
            Sign::Ask => "ask",
            Sign::Verdict => "verdict",
            Sign::Refusal => "refusal",
            Sign::Idle => "idle",
            Sign::Success => "success",
            Sign::Failure => "failure",
            Sign::Finished => "finished",
            Sign::Paused => "paused",
            Sign::Unplug => "unplug",
            Sign::Called(status) => status_id(status),
        }
    }
}
