//! Why no device is made of an input.

ghost use Rattle.std.specs.Prelude.{◌≡◌, Some};
ghost use Rattle.trace_faults.specs.DescriptorFaults.{configuration_fault_text, descriptor_fault_text, fault_of_hex};
ghost use Rattle.trace_faults.specs.declared.descriptor_fault.DescriptorFault.TheVariants as DescriptorFault;

use hex::FromHexError;
use std::alloc::AllocError;
use std::fmt;
use thiserror::Error;
use usb_descriptors::DescFault;

/// Why no device is made of an input.
#[derive(Clone, Copy, PartialEq, Eq, Debug, Error)]
pub enum DescriptorFault {
    /// Neither a device descriptor nor a configuration begins the input.
    NotADescriptor,
    /// What begins as a device descriptor hasn't the 18 bytes of one (USB 2.0, 9.6.1).
    NotADevice,
    /// Nothing stands behind the device descriptor.
    NoConfiguration,
    /// A text has something else behind so many hexadecimal digits.
    NotHex(usize),
    /// A text has an odd number of digits.
    OddDigits,
    /// The first configuration is refused, for this reason. Offsets count from its first byte.
    Descriptor(DescFault),
    /// No memory was to be had.
    Memory,
}

/// What is wrong with a configuration, in words.
#[derive(Drop)]
struct InWords(DescFault);

impl fmt::Display for InWords {
    ghost output = { λ fault. Some (configuration_fault_text fault.0) };

    fn fmt<W: fmt::Write>(&self, f: &mut fmt::Formatter<W>) -> fmt::Result {
        match self.0 {
            DescFault::Truncated(at) => write!(
                f,
                "the configuration is cut off at its byte {at}: give the whole file"
            ),
            DescFault::BadLength(at) => write!(
                f,
                "the descriptor at byte {at} of the configuration has an impossible length: `usbtrace describe` shows it"
            ),
            DescFault::WrongType(at) => write!(
                f,
                "the descriptor at byte {at} of the configuration can't stand there: `usbtrace describe` shows it"
            ),
            DescFault::SharedEndpoint(ep) => write!(
                f,
                "two endpoints have the address {ep}: no scenario has such a device"
            ),
            DescFault::BadPacketSize(ep) => write!(
                f,
                "endpoint {ep} has a packet size outside 1 to 1,024: no scenario has such a device"
            ),
            DescFault::TooMany => f.write_str(
                "there are more than 32 interfaces: no scenario has such a device",
            ),
        }
    }
}

/// The fault in words. They are written here, and not by the derive, whose text no contract knows.
impl fmt::Display for DescriptorFault {
    ghost output = { λ fault. Some (descriptor_fault_text fault) };

    fn fmt<W: fmt::Write>(&self, f: &mut fmt::Formatter<W>) -> fmt::Result {
        match self {
            DescriptorFault::NotADescriptor => f.write_str(
                "no descriptor begins the input: give it a device's file `descriptors`, or the same bytes in hexadecimal",
            ),
            DescriptorFault::NotADevice => f.write_str(
                "the device descriptor in front isn't one of 18 bytes: give the whole file",
            ),
            DescriptorFault::NoConfiguration => f.write_str(
                "no configuration stands behind the device descriptor: give the whole file",
            ),
            DescriptorFault::NotHex(place) => write!(
                f,
                "behind {place} digits the text has something else: give two hexadecimal digits for each byte"
            ),
            DescriptorFault::OddDigits => f.write_str(
                "the text has an odd number of digits: give two for each byte",
            ),
            DescriptorFault::Descriptor(fault) => {
                let words = InWords(*fault);
                write!(f, "{words}")
            }
            DescriptorFault::Memory => f.write_str("out of memory"),
        }
    }
}

impl From<AllocError> for DescriptorFault {
    ghost from_gives = { λ _ fault. fault ≡ DescriptorFault.Memory };

    fn from(_error: AllocError) -> DescriptorFault {
        DescriptorFault::Memory
    }
}

impl From<FromHexError> for DescriptorFault {
    ghost from_gives = { λ error fault. fault ≡ fault_of_hex error };

    fn from(error: FromHexError) -> DescriptorFault {
        match error {
            FromHexError::InvalidHexCharacter { c: _, index } => DescriptorFault::NotHex(index),
            FromHexError::OddLength | FromHexError::InvalidStringLength =>
                DescriptorFault::OddDigits,
            FromHexError::OutOfMemory => DescriptorFault::Memory,
        }
    }
}

impl From<DescFault> for DescriptorFault {
    ghost from_gives = { λ error fault. fault ≡ DescriptorFault.Descriptor error };

    fn from(fault: DescFault) -> DescriptorFault {
        DescriptorFault::Descriptor(fault)
    }
}
