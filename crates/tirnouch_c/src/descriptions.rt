//! A device's descriptors.

ghost use Rattle.std.specs.Prelude.{◌≡◌};
ghost use Rattle.std.specs.Option.{option_copied};
ghost use Rattle.usb_devicetext.specs.Control.{shown_answer};
ghost use Rattle.tirnouch_c.specs.Descriptions.{Describes, bytes_in, description};

use crate::facts::NOT_FOUND;
use crate::results::{answer_of, fill};
use crate::session::Session;
use usb_devicetext::{ControlReply, DeskDevice};

/// The bytes of an answer, if it has any.
fn bytes_in<'a>(reply: ControlReply<'a>) -> Option<&'a [u8]>
    ensures { option_copied result ≡ bytes_in (shown_answer reply.entry) }
{
    match reply {
        ControlReply::Data(bytes) => Some(bytes),
        _ => None,
    }
}

/// A descriptor of a device by its type (USB 2.0, 9.4): 1 its device descriptor, 2 that of its configuration, 3 a string.
fn description(device: &DeskDevice, kind: u8, index: u8) -> Option<&[u8]>
    ensures { option_copied result ≡ description device.now kind index }
{
    match kind {
        1 => Some(&device.descriptor),
        2 => Some(device.configuration.as_slice()),
        3 => bytes_in(device.string(index)),
        _ => None,
    }
}

/// A descriptor of a device: how long it is, and its bytes, as far as there is room; NotFound where there is none.
pub fn describe(session: &Session, dev: u8, kind: u8, index: u8, buffer: &mut [u8]) -> i32
    ensures { Describes dev kind index result buffer.old buffer.new session.now }
{
    let Some(device) = session.device(dev) else {
        return NOT_FOUND;
    };
    match description(device, kind, index) {
        None => NOT_FOUND,
        Some(bytes) => {
            let _ = fill(buffer, bytes);
            answer_of(bytes.len())
        }
    }
}
