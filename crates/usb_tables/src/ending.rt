//! What came of a transfer.

use crate::Transfer;
use usb_model::Status;

/// What came of a transfer.
#[derive(Clone, Copy, PartialEq, Eq, Debug)]
pub struct Ending {
    /// How it ended.
    pub status: Status,
    /// How many bytes it moved.
    pub actual: u32,
}

/// A transfer that ended, with what came of it.
#[derive(Drop)]
pub struct EndedTransfer<P> {
    /// The transfer.
    pub transfer: Transfer<P>,
    /// What came of it.
    pub ending: Ending,
}

/// A transfer that ended and waits to be taken.
#[derive(Clone, Copy, Debug)]
pub(crate) struct Waiting {
    /// Its key in the store.
    pub(crate) key: usize,
    /// What came of it.
    pub(crate) ending: Ending,
}
