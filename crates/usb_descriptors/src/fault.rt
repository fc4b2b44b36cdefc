//! What is wrong with a configuration descriptor.

use thiserror::Error;
use usb_model::EpAddr;

/// The first fault of a configuration descriptor (USB 2.0, 9.6). Offsets count from its first byte.
#[derive(Clone, Copy, PartialEq, Eq, Debug, Error)]
pub enum DescFault {
    /// The input ends at this offset, before the configuration does.
    #[error("the input ends at byte {0}, before the configuration does")]
    Truncated(usize),
    /// The descriptor at this offset is shorter than one of its type, or goes past the end of the configuration.
    #[error("the descriptor at byte {0} has an impossible length")]
    BadLength(usize),
    /// The descriptor at this offset isn't a configuration's where the input begins, is one behind that, or is an
    /// endpoint's before any interface's.
    #[error("the descriptor at byte {0} has a type that can't stand there")]
    WrongType(usize),
    /// Two endpoints have this address.
    #[error("two endpoints have the address {address:02x}", address = .0.address())]
    SharedEndpoint(EpAddr),
    /// The bulk or interrupt endpoint of this address has a packet size outside 1 to 1,024.
    #[error("endpoint {address:02x} has a packet size outside 1 to 1,024", address = .0.address())]
    BadPacketSize(EpAddr),
    /// There are more than 32 interfaces.
    #[error("there are more than 32 interfaces")]
    TooMany,
}
