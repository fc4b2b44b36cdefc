//! What waits in the event ring.

use crate::errand::Errand;
use crate::name::EpAddr;

/// What happened at an endpoint.
#[derive(Clone, Copy, PartialEq, Eq, Debug)]
pub enum Event {
    /// The transfer ended with this completion code.
    Finished { n: u64, code: u8 },
    /// The transfer was stopped between its packets.
    Paused { n: u64 },
    /// The errand was carried out, or failed.
    Settled { errand: Errand, ok: bool },
}

/// An event and its endpoint.
#[derive(Clone, Copy, PartialEq, Eq, Debug)]
pub struct News {
    /// The endpoint.
    pub ep: EpAddr,
    /// What happened there.
    pub event: Event,
}
