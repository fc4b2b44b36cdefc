//! Who a recorded device says that it is (USB 2.0, 9.6.1 and 9.6.7).

ghost use Rattle.std.specs.Prelude.{◌≡◌, IfOk, slice_index};
ghost use Rattle.trace_recorded.specs.Identity.{has_string, is_device_descriptor, is_string_descriptor, no_identity, reads_descriptor, reads_string, units_of, with_descriptor, with_identity, with_string};

use crate::configuration::{byte_or_zero, front};
use crate::packets::past;
use crate::submission::copied;
use std::alloc::{AllocError, Global};
use trace_capture::ControlSetup;
use usb_model::{Bytes, Sequence};

/// The type of a device descriptor (USB 2.0, table 9-5).
const DEVICE: u8 = 1;

/// And of a string.
const STRING: u8 = 3;

/// How many bytes a device descriptor has.
const DEVICE_SIZE: usize = 18;

/// A string of a device.
#[derive(Drop)]
pub(crate) struct RecordedString {
    /// Its index, from 1 on.
    pub(crate) index: u8,
    /// Its units of UTF-16, each with the lower byte first.
    pub(crate) units: Bytes,
}

/// Who a device says that it is.
#[derive(Drop)]
pub(crate) struct DeviceIdentity {
    /// Its device descriptor, 18 bytes.
    pub(crate) descriptor: Option<Bytes>,
    /// Its strings, one of each index, in the order in which they were read first.
    pub(crate) strings: Sequence<RecordedString>,
}

/// Whether a request reads a descriptor of this type.
pub(crate) fn reads_descriptor(kind: u8, setup: ControlSetup) -> bool
    ensures { result ≡ reads_descriptor kind setup }
{
    setup.request_type == 0x80 && setup.request == 6 && setup.value / 256 == u16::from(kind)
}

/// Whether it reads a string.
fn reads_string(setup: ControlSetup) -> bool
    ensures { result ≡ reads_string setup }
{
    reads_descriptor(STRING, setup) && setup.value % 256 != 0
}

/// Whether bytes begin with a whole device descriptor.
pub(crate) fn is_device_descriptor(bytes: &[u8]) -> bool
    ensures { result ≡ is_device_descriptor bytes.now }
{
    bytes.len() >= DEVICE_SIZE && byte_or_zero(bytes, 0) == 18 && byte_or_zero(bytes, 1) == DEVICE
}

/// Whether they begin with a whole string descriptor.
fn is_string_descriptor(bytes: &[u8]) -> bool
    ensures { result ≡ is_string_descriptor bytes.now }
{
    let size = byte_or_zero(bytes, 0);
    size >= 2
        && size % 2 == 0
        && byte_or_zero(bytes, 1) == STRING
        && usize::from(size) <= bytes.len()
}

/// The units of a string descriptor.
fn units_of(alloc: Global, bytes: &[u8]) -> Result<Bytes, AllocError>
    ensures { IfOk result (λ units. units ≡ units_of bytes.now) }
{
    let size = usize::from(byte_or_zero(bytes, 0));
    let whole = bytes.get(..size).unwrap_or(bytes);
    copied(alloc, past(whole, 2))
}

impl DeviceIdentity {
    /// Nothing is said yet.
    pub(crate) fn new(alloc: Global) -> DeviceIdentity
        ensures { result ≡ no_identity }
    {
        DeviceIdentity {
            descriptor: None,
            strings: Sequence::new(alloc),
        }
    }

    /// Whether the string of an index was read.
    pub(crate) fn has_string(&self, index: u8) -> bool
        ensures { result ≡ has_string index self.now }
    {
        self.strings
            .as_slice()
            .iter()
            .any(|string| string.index == index)
    }

    /// The string of an index was read: the first one counts.
    fn read_string(&mut self, alloc: Global, index: u8, bytes: &[u8]) -> Result<(), AllocError>
        ensures { IfOk result (λ _. self.new ≡ with_string index bytes.now self.old) }
    {
        if self.has_string(index) {
            return Ok(());
        }
        let units = units_of(alloc, bytes)?;
        self.strings.push(RecordedString { index, units })
    }

    /// The device descriptor was read: the first one counts.
    fn read_descriptor(&mut self, alloc: Global, bytes: &[u8]) -> Result<(), AllocError>
        ensures { IfOk result (λ _. self.new ≡ with_descriptor bytes.now self.old) }
    {
        if self.descriptor.is_none() {
            self.descriptor = Some(front(alloc, bytes, DEVICE_SIZE)?);
        }
        Ok(())
    }

    /// A request succeeded, with these bytes.
    pub(crate) fn answer(
        &mut self,
        alloc: Global,
        setup: ControlSetup,
        bytes: &[u8],
    ) -> Result<(), AllocError>
        ensures { IfOk result (λ _. self.new ≡ with_identity setup bytes.now self.old) }
    {
        if reads_descriptor(DEVICE, setup) && is_device_descriptor(bytes) {
            self.read_descriptor(alloc, bytes)
        } else if reads_string(setup) && is_string_descriptor(bytes) {
            self.read_string(alloc, (setup.value % 256) as u8, bytes)
        } else {
            Ok(())
        }
    }
}
