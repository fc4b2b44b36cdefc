//! What a step replied, in numbers.

ghost use Rattle.std.specs.Prelude.{◌≡◌};
ghost use Rattle.tirnouch_c.specs.Replies.{code_of, entry_numbers, nothing_done, reply_numbers, reply_of_kind, status_number};

use usb_model::{Entry, Reply, Status};

/// What a step replied: of `tirnouch_serve` the last packet's.
#[repr(C)]
#[derive(Clone, Copy, Drop)]
pub struct StepReply {
    /// What came of it: of `enum tirnouch_kind`.
    pub kind: u8,
    /// The handle whose step or transfer it is, 0 to 63; TIRNOUCH_NOBODY where it is nobody's.
    pub handle: u8,
    /// The endpoint of an order or of a callback; else 0.
    pub endpoint: u8,
    /// Of a packet that ended its transfer the completion code (xHCI 1.2, 6.4.5); of an order 1 where it had no fault, else 0; of a
    /// callback its status (libusb 1.0, `libusb_transfer_status`); else 0.
    pub code: u8,
    /// How many bytes the packet or the transfer moved; else 0.
    pub bytes: u32,
    /// How many packets `tirnouch_serve` served; of other calls 0.
    pub packets: u32,
    /// The transfer's number; else 0.
    pub number: u64,
}

/// libusb's number of a status (libusb 1.0, `libusb_transfer_status`).
#[tactic(auto, unfolding(crate::specs::Replies::status_number))]
pub fn status_number(status: Status) -> u8
    ensures { result ≡ status_number status }
{
    match status {
        Status::Completed => 0,
        Status::Error => 1,
        Status::TimedOut => 2,
        Status::Cancelled => 3,
        Status::Stall => 4,
        Status::NoDevice => 5,
        Status::Overflow => 6,
    }
}

/// The answer of a call: libusb's number of a refusal, else 0.
pub fn code_of(reply: &Reply) -> i32
    ensures { result ≡ code_of reply.now }
{
    match reply {
        Reply::Refused(refused) => refused.libusb_number(),
        _ => 0,
    }
}

impl StepReply {
    /// Nothing but whose it is, and its kind.
    fn of_kind(handle: u8, kind: u8) -> StepReply
        ensures { result ≡ reply_of_kind handle kind }
    {
        StepReply {
            kind,
            handle,
            endpoint: 0,
            code: 0,
            bytes: 0,
            packets: 0,
            number: 0,
        }
    }

    /// No step was made.
    pub fn nothing() -> StepReply
        ensures { result ≡ nothing_done }
    {
        StepReply::of_kind(255, 3)
    }

    /// A reply to this handle.
    #[tactic(auto, unfolding(crate::specs::Replies::reply_numbers))]
    fn of_reply(handle: u8, reply: &Reply) -> StepReply
        ensures { result ≡ reply_numbers handle reply.now }
    {
        match reply {
            Reply::Done => StepReply::of_kind(handle, 0),
            Reply::Number(n) => StepReply {
                number: *n,
                ..StepReply::of_kind(handle, 1)
            },
            Reply::Refused(_) => StepReply::of_kind(handle, 2),
            Reply::Idle => StepReply::of_kind(handle, 3),
            Reply::Nak { n } => StepReply {
                number: *n,
                ..StepReply::of_kind(handle, 4)
            },
            Reply::Moved { n, bytes } => StepReply {
                number: *n,
                bytes: *bytes,
                ..StepReply::of_kind(handle, 5)
            },
            Reply::Ended { n, code } => StepReply {
                number: *n,
                code: *code,
                ..StepReply::of_kind(handle, 6)
            },
            Reply::Ran { ep, ok, .. } => StepReply {
                endpoint: ep.address(),
                code: u8::from(*ok),
                ..StepReply::of_kind(handle, 7)
            },
            Reply::Finished { n } => StepReply {
                number: *n,
                ..StepReply::of_kind(handle, 8)
            },
            Reply::Paused { n } => StepReply {
                number: *n,
                ..StepReply::of_kind(handle, 9)
            },
            Reply::Settled { ep, ok, .. } => StepReply {
                endpoint: ep.address(),
                code: u8::from(*ok),
                ..StepReply::of_kind(handle, 10)
            },
            Reply::Called(returned) => StepReply {
                endpoint: returned.ep.address(),
                code: status_number(returned.status),
                bytes: returned.actual,
                number: returned.n,
                ..StepReply::of_kind(handle, 11)
            },
        }
    }

    /// An entry.
    pub fn of(entry: &Entry) -> StepReply
        ensures { result ≡ entry_numbers entry.now }
    {
        match entry.owner {
            None => StepReply::of_reply(255, &entry.reply),
            Some(h) => StepReply::of_reply(h.number(), &entry.reply),
        }
    }
}
