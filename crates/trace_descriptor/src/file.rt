//! What the bytes of a file of descriptors are.

ghost use Rattle.std.specs.Prelude.{◌≡◌};
ghost use Rattle.trace_descriptor.specs.File.{behind_device, parts, parts_of, taken_length};

use crate::piece::{byte_at, front, past, total_length};
use std::marker::Model;
use trace_faults::DescriptorFault;

/// The type of a device descriptor (USB 2.0, table 9-5).
const DEVICE: u8 = 1;

/// That of a configuration.
const CONFIGURATION: u8 = 2;

/// How many bytes a device descriptor has (USB 2.0, 9.6.1).
const DEVICE_SIZE: u8 = 18;

/// The bytes of a file of descriptors.
#[derive(Drop)]
pub(crate) struct DescriptorFile<'a> {
    /// Its device descriptor, or nothing.
    pub(crate) device: &'a [u8],
    /// Its first configuration, as long as it says itself.
    pub(crate) configuration: &'a [u8],
    /// What stands behind that.
    pub(crate) others: &'a [u8],
}

impl<'a> Model for DescriptorFile<'a> {
    ghost use Rattle.trace_descriptor.specs.File.{FileParts};

    ghost Value = { FileParts };

    ghost view = { λ f. record { device = f.device.now; configuration = f.configuration.now; others = f.others.now } };
}

/// How many bytes are a configuration's: wTotalLength, and 9 at least.
fn taken_length(rest: &[u8]) -> usize
    ensures { result ≡ taken_length rest.now }
{
    let length = total_length(rest);
    if length < 9 { 9 } else { length }
}

impl<'a> DescriptorFile<'a> {
    /// A file of a device descriptor, or none, and of what stands behind it.
    fn new(device: &'a [u8], rest: &'a [u8]) -> DescriptorFile<'a>
        ensures { result ≡ parts device.now rest.now }
    {
        let size = taken_length(rest);
        DescriptorFile {
            device,
            configuration: front(rest, size),
            others: past(rest, size),
        }
    }

    /// The same, where something stands behind.
    fn behind_device(
        device: &'a [u8],
        rest: &'a [u8],
    ) -> Result<DescriptorFile<'a>, DescriptorFault>
        ensures { result ≡ behind_device device.now rest.now }
    {
        if rest.is_empty() {
            return Err(DescriptorFault::NoConfiguration);
        }
        Ok(DescriptorFile::new(device, rest))
    }

    /// The file of these bytes. Refuses a device descriptor that hasn't 18 bytes or has nothing behind it, and bytes that begin
    /// neither with one nor with a configuration.
    pub(crate) fn read(bytes: &'a [u8]) -> Result<DescriptorFile<'a>, DescriptorFault>
        ensures { result ≡ parts_of bytes.now }
    {
        match byte_at(bytes, 1) {
            DEVICE => {
                if byte_at(bytes, 0) != DEVICE_SIZE || bytes.len() < 18 {
                    return Err(DescriptorFault::NotADevice);
                }
                DescriptorFile::behind_device(front(bytes, 18), past(bytes, 18))
            }
            CONFIGURATION => Ok(DescriptorFile::new(&[], bytes)),
            _ => Err(DescriptorFault::NotADescriptor),
        }
    }
}
