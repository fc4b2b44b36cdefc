//! Why a file describes no device.

ghost use Rattle.std.specs.Prelude.{◌≡◌, Some};
ghost use Rattle.trace_recorded.specs.DescribedFiles.{described_fault_text, fault_of_hex};
ghost use Rattle.trace_recorded.specs.declared.described_fault.DescribedFault.TheVariants as DescribedFault;

use hex::FromHexError;
use std::alloc::AllocError;
use std::fmt;
use thiserror::Error;

/// Why a file describes no device. Its text goes on behind the file's name.
#[derive(Clone, Copy, PartialEq, Eq, Debug, Error)]
pub enum DescribedFault {
    /// Its bytes don't begin with a device descriptor and a configuration.
    NoDescriptors,
    /// No paragraph of it is of a USB device with its descriptors.
    NoDevice,
    /// Something else stands behind so many hexadecimal digits.
    NotHex(usize),
    /// Its text has an odd number of digits.
    OddDigits,
    /// No memory was to be had.
    Memory,
}

/// The fault in words. They are written here, and not by the derive, whose text no contract knows.
impl fmt::Display for DescribedFault {
    ghost output = { λ fault. Some (described_fault_text fault) };

    fn fmt<W: fmt::Write>(&self, f: &mut fmt::Formatter<W>) -> fmt::Result {
        match self {
            DescribedFault::NoDescriptors => f.write_str(
                "has no descriptors of a device: its 18 bytes, and a configuration's behind them (USB 2.0, 9.6)",
            ),
            DescribedFault::NoDevice => f.write_str(
                "has no USB device: `umockdev-record /dev/bus/usb/BUS/DEVICE > FILE` writes one",
            ),
            DescribedFault::NotHex(place) => write!(
                f,
                "has something else behind {place} digits of its descriptors: give two hexadecimal digits for each byte"
            ),
            DescribedFault::OddDigits => f.write_str(
                "has an odd number of digits for its descriptors: give two for each byte",
            ),
            DescribedFault::Memory => f.write_str("is too large: out of memory"),
        }
    }
}

impl From<AllocError> for DescribedFault {
    ghost from_gives = { λ _ fault. fault ≡ DescribedFault.Memory };

    fn from(_error: AllocError) -> DescribedFault {
        DescribedFault::Memory
    }
}

impl From<FromHexError> for DescribedFault {
    ghost from_gives = { λ error fault. fault ≡ fault_of_hex error };

    fn from(error: FromHexError) -> DescribedFault {
        match error {
            FromHexError::InvalidHexCharacter { c: _, index } => DescribedFault::NotHex(index),
            FromHexError::OddLength | FromHexError::InvalidStringLength =>
                DescribedFault::OddDigits,
            FromHexError::OutOfMemory => DescribedFault::Memory,
        }
    }
}
