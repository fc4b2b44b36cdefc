//! What waits in the command ring.

use crate::errand::Errand;
use crate::name::EpAddr;

/// An errand that is ordered at an endpoint.
#[derive(Clone, Copy, PartialEq, Eq, Debug)]
pub struct Order {
    /// The endpoint.
    pub ep: EpAddr,
    /// What is to be done there.
    pub errand: Errand,
}
