//! Numbers in a capture, in either byte order.

ghost use Rattle.std.specs.Prelude.{◌≡◌, ◌+◌, ◌≤◌, ◌<◌, length, slice_index};
ghost use Rattle.trace_recorded.specs.Packets.{number_at};

use byteorder::{BigEndian, ByteOrder, LittleEndian};

/// The order of a number's bytes: that of the machine that wrote the capture (pcap-savefile(5)).
#[derive(Clone, Copy, PartialEq, Eq, Debug)]
pub enum Endianness {
    /// The lowest first.
    Little,
    /// The highest first.
    Big,
}

impl Endianness {
    /// The number in two bytes from this place on.
    pub(crate) fn u16_at(self, bytes: &[u8], place: usize) -> u16
        requires { place + 2 ≤ length bytes.now }
        ensures { result ≡ number_at self place 2 bytes.now }
    {
        match self {
            Endianness::Little => LittleEndian::read_u16(&bytes[place..]),
            Endianness::Big => BigEndian::read_u16(&bytes[place..]),
        }
    }

    /// The number in four bytes from this place on.
    pub(crate) fn u32_at(self, bytes: &[u8], place: usize) -> u32
        requires { place + 4 ≤ length bytes.now }
        ensures { result ≡ number_at self place 4 bytes.now }
    {
        match self {
            Endianness::Little => LittleEndian::read_u32(&bytes[place..]),
            Endianness::Big => BigEndian::read_u32(&bytes[place..]),
        }
    }

    /// The number in eight bytes from this place on.
    pub(crate) fn u64_at(self, bytes: &[u8], place: usize) -> u64
        requires { place + 8 ≤ length bytes.now }
        ensures { result ≡ number_at self place 8 bytes.now }
    {
        match self {
            Endianness::Little => LittleEndian::read_u64(&bytes[place..]),
            Endianness::Big => BigEndian::read_u64(&bytes[place..]),
        }
    }
}

/// The byte at a place.
pub(crate) fn byte_at(bytes: &[u8], place: usize) -> u8
    requires { place < length bytes.now }
    ensures { result ≡ slice_index bytes.now place }
{
    bytes[place]
}
