//! An answer of a recorded device, and what was written for it.

use usb_model::{Bytes, Response};

/// What a host wrote and a device took: a packet, or the data of a request.
#[derive(Debug, Drop)]
pub(crate) struct WrittenBytes {
    /// The bytes, as far as they were recorded.
    pub(crate) bytes: Bytes,
    /// Whether they were recorded to their end.
    pub(crate) is_whole: bool,
}

/// An answer of a recorded device.
#[derive(Debug, Drop)]
pub(crate) enum RecordedAnswer {
    /// This, whatever was written.
    Given(Response),
    /// These bytes were taken.
    Taken(WrittenBytes),
}
