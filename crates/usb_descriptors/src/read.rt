//! The grammar of configuration descriptors (USB 2.0, 9.6.3).

ghost use Rattle.std.specs.Prelude.{◌≡◌};
ghost use Rattle.usb_descriptors.specs.Grammar.{reading};
ghost use Rattle.usb_descriptors.specs.Items.{opening};

use crate::config::Config;
use crate::descriptor::CONFIGURATION;
use crate::fault::DescFault;
use crate::piece::Pieces;
use crate::reader::Reader;

/// Reads a configuration descriptor and those behind it (USB 2.0, 9.6.3, 9.6.5 and 9.6.6). Takes no memory.
///
/// An interface is used where it has alternate setting 0 and a number that is new. An endpoint is kept where the
/// nearest interface in front of it is used, and its own number isn't 0. Descriptors of other types are passed over,
/// as are bytes from wTotalLength on, further bytes of a descriptor that is longer than its type's, and the counts
/// bNumInterfaces and bNumEndpoints.
///
/// Refuses, by the first rule that applies:
/// - fewer than 9 bytes: Truncated, at their end;
/// - another type than a configuration's in front: WrongType(0);
/// - bLength below 9, or wTotalLength below bLength: BadLength(0);
/// - fewer than wTotalLength bytes: Truncated, at their end;
/// - else by the earliest descriptor behind that has a fault, and at its offset. BadLength: only one byte is left, its
///   bLength is below 2, or it goes past wTotalLength. Of a configuration: WrongType. Of an interface: BadLength, if it
///   is below 9 bytes; TooMany, if it is used behind 32 others. Of an endpoint: BadLength, if it is below 7 bytes;
///   WrongType, if it stands before any interface; and if it is kept, SharedEndpoint where an earlier one has its
///   address, and BadPacketSize where it is bulk or interrupt with a size outside 1 to 1,024.
pub fn read_config(input: &[u8]) -> Result<Config, DescFault>
    ensures { result ≡ reading input.now }
{
    let mut reader = Reader::new();
    for piece in descriptors(input)? {
        reader.read(&piece?)?;
    }
    Ok(reader.into_config())
}

/// The descriptors behind the configuration's own, or its fault.
fn descriptors(input: &[u8]) -> Result<Pieces<'_>, DescFault>
    ensures { result ≡ opening input.now }
{
    let [length, kind, low, high, _, _, _, _, _, ..] = input else {
        return Err(DescFault::Truncated(input.len()));
    };
    if *kind != CONFIGURATION {
        return Err(DescFault::WrongType(0));
    }
    let length = usize::from(*length);
    let total = usize::from(u16::from_le_bytes([*low, *high]));
    if length < 9 || total < length {
        return Err(DescFault::BadLength(0));
    }
    let bytes = input.get(..total).ok_or(DescFault::Truncated(input.len()))?;
    Ok(Pieces::new(length, &bytes[length..]))
}
