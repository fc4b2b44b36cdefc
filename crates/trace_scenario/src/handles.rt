//! Words that spell handles, and the numbers of transfers and callbacks.

ghost use Rattle.std.specs.Prelude.{◌≡◌};
ghost use Rattle.std.specs.Result.{result_ok};
ghost use Rattle.trace_scenario.specs.Handle.{handle_of};
ghost use Rattle.usb_scripttext.specs.Number.{u64_of};

use usb_model::Name;
use usb_scripttext::Expected;
use usb_scripttext::number::{decimal_u8, decimal_u64};

/// The last name of a handle.
const LAST_HANDLE: u8 = 63;

/// The name of a handle.
pub fn handle(word: &str) -> Result<Name, Expected>
    ensures { result_ok result ≡ handle_of word.now }
{
    let number = decimal_u8(word, LAST_HANDLE).ok_or(Expected::Handle)?;
    Name::new(number).ok_or(Expected::Handle)
}

/// The number of a transfer or of a callback.
pub fn number(word: &str) -> Result<u64, Expected>
    ensures { result_ok result ≡ u64_of word.now }
{
    decimal_u64(word).ok_or(Expected::Number)
}
