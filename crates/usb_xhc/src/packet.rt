//! What a packet did.

/// What a packet did to the transfer where an endpoint stands.
#[derive(Clone, Copy, PartialEq, Eq, Debug)]
pub enum PacketResult {
    /// The device wasn't ready.
    Nak,
    /// So many bytes moved, and the transfer goes on.
    Moved(u32),
    /// The transfer ended, with this completion code (xHCI 1.2, 6.4.5).
    Ended(u8),
}
