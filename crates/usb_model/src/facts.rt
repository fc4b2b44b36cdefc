//! The facts of a machine that the tests of a call look at (specs/Refusals).

use crate::name::{DeviceNo, EpAddr};
use crate::request::Kind;

/// Whoever calls.
#[derive(Clone, Copy, PartialEq, Eq, Debug)]
pub struct CallerFacts {
    /// The device that it has open.
    pub device: Option<DeviceNo>,
    /// Whether that was unplugged.
    pub gone: bool,
}

/// An endpoint of the caller's own, and what keeps its places.
#[derive(Clone, Copy, PartialEq, Eq, Debug)]
pub struct EndpointFacts {
    /// Its address.
    pub ep: EpAddr,
    /// Its kind.
    pub kind: Kind,
    /// The places of its line.
    pub line: usize,
    /// The first transfer in progress.
    pub first: Option<u64>,
    /// How many are in progress.
    pub waiting: usize,
    /// Whether an order is under way.
    pub errand: bool,
    /// Its results that aren't taken.
    pub untaken: usize,
}

/// What a request asks for, but for the bytes themselves.
#[derive(Clone, Copy, PartialEq, Eq, Debug)]
pub struct RequestFacts {
    /// The kind of endpoint that it is for.
    pub kind: Kind,
    /// Whether bytes go to the host.
    pub reads: bool,
    /// How many.
    pub bytes: usize,
}
