//! How a callback ended.

use usb_model::Refused;

/// How the callback of a transfer ended.
#[derive(Clone, Copy, PartialEq, Eq, Debug)]
pub enum End {
    /// As its verdict says.
    ByVerdict,
    /// Its verdict was to submit the transfer once more, and that was refused for this.
    Refused(Refused),
    /// Its verdict was to submit the transfer once more, and there was no memory for it.
    NoMemory,
}
