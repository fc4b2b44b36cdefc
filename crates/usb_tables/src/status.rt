//! The status by a completion code.

ghost use Rattle.std.specs.Prelude.{◌≡◌, ◌↔◌};
ghost use Rattle.usb_model.specs.declared.status.Status.{Status};
ghost use Rattle.usb_model.specs.Endpoint.Status.{status_of};
ghost use Rattle.usb_tables.specs.Statuses.{IsToldAs, is_short_an_error};

use bitflags::Flags as _;
use usb_model::completion::status_of;
use usb_model::{Ask, Flags, Status};

/// The status of a transfer that ended with this completion code (xHCI 1.2, 6.4.5), by the ask that it end, its flags, its
/// length and how many of its bytes moved. A code that isn't used gives Error. That the device is gone isn't seen here.
pub fn result(code: u8, ask: Option<Ask>, flags: Flags, length: usize, moved: u32) -> Status
    ensures value { result ≡ status_of code ask (is_short_an_error flags) length moved }
    ensures exact { (status : Status) → (result ≡ status) ↔ IsToldAs status code ask (is_short_an_error flags) length moved }
{
    status_of(
        code,
        ask,
        flags.contains(Flags::SHORT_NOT_OK),
        length,
        moved,
    )
}
