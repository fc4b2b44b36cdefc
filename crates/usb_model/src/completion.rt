//! Completion codes (xHCI 1.2, 6.4.5): how the controller tells that a transfer ended, or was stopped; and the status that
//! its callback is told by them.

ghost use Rattle.std.specs.Prelude.{◌≡◌};
ghost use Rattle.usb_model.specs.Endpoint.Status.{asked_status, is_good, halts, status_of, told_status};

use crate::item::Ask;
use crate::status::Status;

/// All went as it was asked for.
pub const SUCCESS: u8 = 1;

/// The device sent more than there was room for.
pub const BABBLE_DETECTED: u8 = 3;

/// A transaction failed all its retries.
pub const TRANSACTION_ERROR: u8 = 4;

/// The device's endpoint is halted.
pub const STALL_ERROR: u8 = 6;

/// Fewer bytes came than were asked for.
pub const SHORT_PACKET: u8 = 13;

/// The endpoint was stopped amid the transfer.
pub const STOPPED: u8 = 26;

/// Whether a transfer that ended with this code halted its endpoint (xHCI 1.2, 4.8.3).
pub fn halts(code: u8) -> bool
    ensures { result ≡ halts code }
{
    code == BABBLE_DETECTED || code == TRANSACTION_ERROR || code == STALL_ERROR
}

/// Whether the code is Success or Short Packet.
fn is_good(code: u8) -> bool
    ensures { result ≡ is_good code }
{
    code == SUCCESS || code == SHORT_PACKET
}

/// The status of a transfer that was withdrawn, by the ask that it end.
fn asked_status(ask: Option<Ask>) -> Status
    ensures { result ≡ asked_status ask }
{
    match ask {
        None => Status::Error,
        Some(Ask::Cancel) => Status::Cancelled,
        Some(Ask::Time) => Status::TimedOut,
    }
}

/// The status of a transfer of a device that is there.
#[tactic(auto, unfolding(crate::specs::Endpoint::Status::status_of))]
pub fn status_of(
    code: u8,
    ask: Option<Ask>,
    short_not_ok: bool,
    length: usize,
    actual: u32,
) -> Status
    ensures { result ≡ status_of code ask short_not_ok length actual }
{
    if is_good(code) {
        return if short_not_ok && (actual as usize) < length {
            Status::Error
        } else {
            Status::Completed
        };
    }
    match code {
        BABBLE_DETECTED => Status::Overflow,
        STALL_ERROR => Status::Stall,
        STOPPED => asked_status(ask),
        _ => Status::Error,
    }
}

/// The status of a transfer, where the device may be gone: a transaction error of a gone device says that there is none.
#[tactic(auto, unfolding(crate::specs::Endpoint::Status::told_status))]
pub fn told_status(
    gone: bool,
    code: u8,
    ask: Option<Ask>,
    short_not_ok: bool,
    length: usize,
    actual: u32,
) -> Status
    ensures { result ≡ told_status gone code ask short_not_ok length actual }
{
    if gone && code == TRANSACTION_ERROR {
        Status::NoDevice
    } else {
        status_of(code, ask, short_not_ok, length, actual)
    }
}
