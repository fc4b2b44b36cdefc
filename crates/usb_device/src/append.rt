//! How many bytes a transaction leaves behind the others, for devices that compute their packets.

ghost use Rattle.std.specs.Prelude.{◌≡◌, ◌≤◌};
ghost use Rattle.usb_device.specs.Pipe.{count_within};

use crate::device::Act;

/// How many bytes stand behind the others after a transaction, where there was room for so many.
pub(crate) fn count_within(act: Act, room: usize) -> usize
    ensures count { result ≡ count_within act room }
    ensures most { result ≤ room }
{
    match act {
        Act::Data(count) if count as usize <= room => count as usize,
        _ => 0,
    }
}
