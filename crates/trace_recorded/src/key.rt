//! Control requests by number.

ghost use Rattle.std.specs.Prelude.{◌≡◌};
ghost use Rattle.trace_recorded.specs.Keys.{key_of};

use trace_capture::ControlSetup;

/// A request's number in a table: its type, its number, its value and its index.
pub(crate) fn key_of(setup: ControlSetup) -> u64
    ensures { result ≡ key_of setup }
{
    let (kind, request) = (u64::from(setup.request_type), u64::from(setup.request));
    let (value, index) = (u64::from(setup.value), u64::from(setup.index));
    ((kind * 256 + request) * 65536 + value) * 65536 + index
}
