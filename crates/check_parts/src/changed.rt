//! A TRB with one bit flipped.

/// Sixteen bytes with one bit flipped; bit 0 is the lowest of byte 0.
pub fn flipped(bytes: &[u8; 16], bit: usize) -> [u8; 16] {
    let mut flipped = *bytes;
    if let Some(byte) = flipped.get_mut(bit / 8) {
        *byte ^= 1 << (bit % 8);
    }
    flipped
}
