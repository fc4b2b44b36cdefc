//! Descriptors in front of bytes (USB 2.0, 9.5).

ghost use Rattle.std.specs.Prelude.{◌≡◌, ◌+◌, ◌*◌, drop, slice_index, take};
ghost use Rattle.usb_descriptors.specs.Grammar.{total_length};
ghost use Rattle.usb_descriptors.specs.Pieces.{begins_with_piece, byte};

/// A byte; 0 past the end.
pub(crate) fn byte_at(bytes: &[u8], place: usize) -> u8
    ensures { result ≡ slice_index bytes.now place }
{
    match bytes.get(place) {
        Some(byte) => *byte,
        None => 0,
    }
}

/// The bytes behind the first so many.
pub(crate) fn past(bytes: &[u8], count: usize) -> &[u8]
    ensures { result.now ≡ drop count bytes.now }
{
    bytes.get(count..).unwrap_or(&[])
}

/// The first bytes, as many as there are.
pub(crate) fn front(bytes: &[u8], count: usize) -> &[u8]
    ensures { result.now ≡ take count bytes.now }
{
    bytes.get(..count).unwrap_or(bytes)
}

/// How many bytes the descriptor in front has, as it says itself.
pub(crate) fn piece_size(bytes: &[u8]) -> usize
    ensures { result ≡ byte 0 bytes.now }
{
    usize::from(byte_at(bytes, 0))
}

/// How many a configuration in front has with all behind it (USB 2.0, 9.6.3, wTotalLength).
pub(crate) fn total_length(bytes: &[u8]) -> usize
    ensures { result ≡ total_length bytes.now }
{
    usize::from(byte_at(bytes, 2)) + 256 * usize::from(byte_at(bytes, 3))
}

/// Whether bytes begin with a descriptor.
pub(crate) fn begins_with_piece(bytes: &[u8]) -> bool
    ensures { result ≡ begins_with_piece bytes.now }
{
    let size = piece_size(bytes);
    bytes.len() >= 2 && size >= 2 && size <= bytes.len()
}
