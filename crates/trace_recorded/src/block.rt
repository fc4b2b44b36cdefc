//! The blocks of a pcapng file (IETF draft "PCAP Now Generic (pcapng) Capture File Format", General Block Structure).

ghost use Rattle.std.specs.Prelude.{◌≡◌, ◌≤◌, length};
ghost use Rattle.trace_recorded.specs.Blocks.{IsWithin};
ghost use Rattle.trace_recorded.specs.Files.{block_order, fields_size, front_of, is_whole, past_front};

use crate::number::Endianness;

/// The type of a section header, the same in either order.
pub(crate) const SECTION_HEADER: u32 = 0x0a0d_0d0a;

/// That of an interface's description.
pub(crate) const INTERFACE_DESCRIPTION: u32 = 1;

/// That of a packet as older programs wrote it.
pub(crate) const OLD_PACKET: u32 = 2;

/// That of a packet of the first interface, with nothing but its length and its bytes.
pub(crate) const SIMPLE_PACKET: u32 = 3;

/// That of a packet.
pub(crate) const ENHANCED_PACKET: u32 = 6;

/// What stands in front of a file's rest.
#[derive(Clone, Copy, PartialEq, Eq, Debug)]
pub(crate) enum Front {
    /// A whole block, with numbers in this order, and so many bytes.
    Block { order: Endianness, size: usize },
    /// No whole block.
    Amid,
    /// A section header that says no byte order.
    Unknown,
}

/// How many bytes the fields of a block have in front of what varies in length.
fn fields_size(kind: u32) -> usize
    ensures value { result ≡ fields_size kind }
    ensures small { result ≤ 20 }
{
    match kind {
        INTERFACE_DESCRIPTION => 8,
        OLD_PACKET | ENHANCED_PACKET => 20,
        SIMPLE_PACKET => 4,
        _ => 0,
    }
}

/// The order of a block's numbers; None of a section header that says none.
fn block_order(order: Endianness, bytes: &[u8]) -> Option<Endianness>
    requires { 12 ≤ length bytes.now }
    ensures { result ≡ block_order order bytes.now }
{
    if Endianness::Little.u32_at(bytes, 0) != SECTION_HEADER {
        return Some(order);
    }
    match Endianness::Little.u32_at(bytes, 8) {
        0x1a2b_3c4d => Some(Endianness::Little),
        0x4d3c_2b1a => Some(Endianness::Big),
        _ => None,
    }
}

/// Whether a whole block of this type and size stands in front of bytes.
fn is_whole(kind: u32, size: usize, bytes: &[u8]) -> bool
    ensures { result ≡ is_whole kind size bytes.now }
{
    12 + fields_size(kind) <= size && size % 4 == 0 && size <= bytes.len()
}

impl Front {
    /// What stands in front of bytes, in a section with this order.
    #[tactic(auto, unfolding(crate::specs::Files::front_of))]
    pub(crate) fn of(order: Endianness, bytes: &[u8]) -> Front
        ensures value { result ≡ front_of order bytes.now }
        ensures within { IsWithin result bytes.now }
    {
        if bytes.len() < 12 {
            return Front::Amid;
        }
        let Some(order) = block_order(order, bytes) else {
            return Front::Unknown;
        };
        let size = order.u32_at(bytes, 4) as usize;
        if is_whole(order.u32_at(bytes, 0), size, bytes) {
            Front::Block { order, size }
        } else {
            Front::Amid
        }
    }

    /// What is left to read behind it.
    pub(crate) fn past(self, bytes: &[u8]) -> &[u8]
        requires { IsWithin self bytes.now }
        ensures { result.now ≡ past_front self bytes.now }
    {
        match self {
            Front::Block { order: _, size } => &bytes[size..],
            Front::Amid | Front::Unknown => &[],
        }
    }
}
