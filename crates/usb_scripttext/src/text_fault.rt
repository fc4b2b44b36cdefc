//! Why a text isn't read.

ghost use Rattle.std.specs.Prelude.{◌≡◌};
ghost use Rattle.usb_scripttext.specs.Results.{fault_at};

use crate::fault::LineFault;
use thiserror::Error;

/// Why a text isn't read.
#[derive(Clone, Copy, PartialEq, Eq, Debug, Error)]
pub enum TextFault {
    /// The line of this number, from 1, is none that may stand there.
    #[error("line {0} refused")]
    Line(u64),
    /// No memory was to be had.
    #[error("out of memory")]
    Memory,
}

impl TextFault {
    /// The fault of a text whose line of this number isn't taken.
    pub fn at(line: u64, fault: LineFault) -> TextFault
        ensures { result ≡ fault_at line fault }
    {
        match fault {
            LineFault::Bad(_) => TextFault::Line(line),
            LineFault::Memory => TextFault::Memory,
        }
    }
}
