//! Hubs, by their configuration.

ghost use Rattle.std.specs.Prelude.{◌≡◌, ℕ, take};
ghost use Rattle.usb_descriptors.specs.Pieces.{begins_with_piece, byte};
ghost use Rattle.trace_recorded.specs.Devices.{found_with, is_hub};

use crate::configuration::byte_or_zero;
use crate::packets::past;

/// The type of an interface descriptor (USB 2.0, table 9-5).
const INTERFACE: u8 = 4;

/// The class of hubs (USB 2.0, 11.23.1).
const HUB: u8 = 9;

/// Whether bytes begin with a descriptor.
fn begins_with_piece(bytes: &[u8]) -> bool
    ensures { result ≡ begins_with_piece bytes.now }
{
    let size = piece_size(bytes);
    bytes.len() >= 2 && size >= 2 && size <= bytes.len()
}

/// How many bytes it has.
fn piece_size(bytes: &[u8]) -> usize
    ensures { result ≡ byte 0 bytes.now }
{
    usize::from(byte_or_zero(bytes, 0))
}

/// The first bytes, as many as there are.
fn front(bytes: &[u8], count: usize) -> &[u8]
    ensures { result.now ≡ take count bytes.now }
{
    bytes.get(..count).unwrap_or(bytes)
}

/// Whether an interface was found, with one descriptor more; None where it is one of another class than hubs'.
fn found_with(found: bool, piece: &[u8]) -> Option<bool>
    ensures { (at : ℕ) → result ≡ found_with found (record { at = at; bytes = piece.now }) }
{
    if byte_or_zero(piece, 1) != INTERFACE {
        return Some(found);
    }
    if byte_or_zero(piece, 5) == HUB {
        Some(true)
    } else {
        None
    }
}

/// Whether a configuration is a hub's: it has an interface, and each has the class of hubs.
pub(crate) fn is_hub(descriptor: &[u8]) -> bool
    ensures { result ≡ is_hub descriptor.now }
{
    let mut rest = past(descriptor, piece_size(descriptor));
    let mut found = false;
    'pieces: while begins_with_piece(rest) {
        let size = piece_size(rest);
        let Some(more) = found_with(found, front(rest, size)) else {
            return false;
        };
        found = more;
        rest = past(rest, size);
    }
    found
}
