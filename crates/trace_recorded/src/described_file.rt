//! A device as Linux's file of its descriptors has it, in bytes or as hexadecimal text, and texts beside that.

ghost use Rattle.std.specs.Prelude.{◌≡◌, ◌++◌, IfErr, IfOk, Ok};
ghost use Rattle.std.specs.List.{flat_map};
ghost use Rattle.hex.specs.Hex.{is_hex_digit};
ghost use Rattle.trace_recorded.specs.DescribedFiles.{Describes, IsDescribedBy, IsDescribedFault, begins_with_configuration, bytes_of, bytes_of_text, configurations_in, descriptor_bytes, digits_at, has_other, is_of_text, is_other, is_text, is_white, speed_of, with_descriptors};

use crate::configuration::{byte_or_zero, front, is_complete, total_length};
use crate::described::{DescribedDevice, DevicePlace, DeviceSpeed};
use crate::described_fault::DescribedFault;
use crate::identity::{RecordedString, is_device_descriptor};
use crate::packets::past;
use std::alloc::{AllocError, Global};
use usb_model::{Bytes, Sequence};

/// The type of a configuration (USB 2.0, table 9-5).
const CONFIGURATION: u8 = 2;

/// How many bytes a device descriptor has (USB 2.0, 9.6.1).
const DEVICE_SIZE: usize = 18;

/// The places of the indexes of strings in it: of the manufacturer, the product and the serial number.
const MANUFACTURER: usize = 14;

const PRODUCT: usize = 15;

const SERIAL: usize = 16;

/// How many bytes the units of a string may have (USB 2.0, 9.6.7).
const LONGEST: usize = 252;

/// What Linux tells of a device in texts; empty where it doesn't.
#[derive(Clone, Copy, Debug)]
pub struct DeviceTexts<'a> {
    /// Who made it.
    pub manufacturer: &'a [u8],
    /// What it is.
    pub product: &'a [u8],
    /// Which one it is.
    pub serial: &'a [u8],
    /// Its speed, in Mb/s.
    pub speed: &'a [u8],
}

/// Whether a byte is white space.
fn is_white(byte: u8) -> bool
    ensures { result ≡ is_white byte }
{
    byte == 32 || byte == 9 || byte == 10 || byte == 11 || byte == 12 || byte == 13
}

/// Whether it is a hexadecimal digit.
fn is_hex_digit(byte: u8) -> bool
    ensures { result ≡ is_hex_digit byte }
{
    (65 <= byte && byte <= 70) || (97 <= byte && byte <= 102) || (48 <= byte && byte <= 57)
}

/// Whether it may stand in a text.
fn is_of_text(byte: u8) -> bool
    ensures { result ≡ is_of_text byte }
{
    is_hex_digit(byte) || is_white(byte)
}

/// Whether it may stand in none.
fn is_other(byte: u8) -> bool
    ensures { result ≡ is_other byte }
{
    !is_of_text(byte)
}

/// Whether a file has a byte that may stand in no text.
fn has_other(file: &[u8]) -> bool
    ensures { result ≡ has_other file.now }
{
    file.iter().any(|byte| is_other(*byte))
}

/// Whether a file is text.
fn is_text(file: &[u8]) -> bool
    ensures { result ≡ is_text file.now }
{
    !has_other(file)
}

/// Puts a byte behind the others, where it is a digit.
fn push_digit(found: &mut Vec<u8>, byte: u8) -> Result<(), AllocError>
    ensures { IfOk result (λ _. found.new.items ≡ found.old.items ++ digits_at byte) }
{
    if is_white(byte) {
        return Ok(());
    }
    Ok(found.push(byte)?)
}

/// The digits of a text.
fn digits(alloc: Global, text: &[u8]) -> Result<Vec<u8>, AllocError>
    ensures { IfOk result (λ found. found.items ≡ flat_map digits_at text.now) }
{
    let mut found = Vec::new(alloc);
    let mut rest = text;
    'bytes: while !rest.is_empty() {
        push_digit(&mut found, byte_or_zero(rest, 0))?;
        rest = past(rest, 1);
    }
    Ok(found)
}

/// The bytes of a text.
#[tactic(auto, unfolding(crate::specs::DescribedFiles::bytes_of_text))]
pub(crate) fn bytes_of_text(alloc: Global, text: &[u8]) -> Result<Vec<u8>, DescribedFault>
    ensures bytes { IfOk result (λ bytes. bytes_of_text text.now ≡ Ok bytes.items) }
    ensures fault { IfErr result (λ fault. IsDescribedFault fault (bytes_of_text text.now)) }
{
    let digits = digits(alloc, text)?;
    Ok(hex::decode(alloc, digits.as_slice())?)
}

/// The bytes of a file.
fn bytes_of(alloc: Global, file: &[u8]) -> Result<Vec<u8>, DescribedFault>
    ensures bytes { IfOk result (λ bytes. bytes_of file.now ≡ Ok bytes.items) }
    ensures fault { IfErr result (λ fault. IsDescribedFault fault (bytes_of file.now)) }
{
    if is_text(file) {
        return bytes_of_text(alloc, file);
    }
    Ok(Vec::from_slice(alloc, file)?)
}

/// Whether bytes begin with a whole configuration.
fn begins_with_configuration(bytes: &[u8]) -> bool
    ensures { result ≡ begins_with_configuration bytes.now }
{
    byte_or_zero(bytes, 1) == CONFIGURATION && is_complete(bytes)
}

/// The configurations with which bytes begin.
fn configurations_in(alloc: Global, bytes: &[u8]) -> Result<Sequence<Bytes>, AllocError>
    ensures { IfOk result (λ found. found ≡ configurations_in bytes.now) }
{
    let mut found = Sequence::new(alloc);
    let mut rest = bytes;
    'configurations: while begins_with_configuration(rest) {
        let size = total_length(rest);
        found.push(front(alloc, rest, size)?)?;
        rest = past(rest, size);
    }
    Ok(found)
}

/// The speed of this text.
fn speed_of(text: &[u8]) -> Option<DeviceSpeed>
    ensures { result ≡ speed_of text.now }
{
    match text {
        b"1.5" => Some(DeviceSpeed::Low),
        b"12" => Some(DeviceSpeed::Full),
        b"480" => Some(DeviceSpeed::High),
        _ => None,
    }
}

/// The units of UTF-16 of a text, the lower byte of each first.
fn units_of_text(alloc: Global, text: &[u8]) -> Result<Bytes, AllocError> {
    let text = String::from_utf8_lossy(alloc, text)?;
    let mut units = Vec::new(alloc);
    for unit in text.as_str().encode_utf16() {
        units.extend_from_slice(&unit.to_le_bytes())?;
    }
    Ok(Sequence::from_vec(units))
}

/// Puts the string of an index behind others, where it has one and room.
fn push_string(
    alloc: Global,
    strings: &mut Sequence<RecordedString>,
    index: u8,
    text: &[u8],
) -> Result<(), AllocError> {
    let units = units_of_text(alloc, text)?;
    if index == 0 || units.is_empty() || units.len() > LONGEST {
        return Ok(());
    }
    strings.push(RecordedString { index, units })
}

/// The strings of a device with this descriptor.
fn strings_of(
    alloc: Global,
    descriptor: &[u8],
    texts: DeviceTexts<'_>,
) -> Result<Sequence<RecordedString>, AllocError> {
    let mut strings = Sequence::new(alloc);
    for (place, text) in [
        (MANUFACTURER, texts.manufacturer),
        (PRODUCT, texts.product),
        (SERIAL, texts.serial),
    ] {
        push_string(alloc, &mut strings, byte_or_zero(descriptor, place), text)?;
    }
    Ok(strings)
}

/// The device of the bytes of its descriptors, told by the name of its file.
pub(crate) fn described(
    alloc: Global,
    file: &str,
    bytes: &[u8],
    texts: DeviceTexts<'_>,
    place: Option<DevicePlace>,
) -> Result<DescribedDevice, DescribedFault>
    ensures device { IfOk result (λ d. IsDescribedBy bytes.now texts.entry.speed.now place d) }
    ensures said { IfOk result (λ _. with_descriptors (Ok bytes.now) ≡ Ok bytes.now) }
    ensures fault { IfErr result (λ fault. IsDescribedFault fault (with_descriptors (Ok bytes.now))) }
{
    if !is_device_descriptor(bytes) {
        return Err(DescribedFault::NoDescriptors);
    }
    let configurations = configurations_in(alloc, past(bytes, DEVICE_SIZE))?;
    if configurations.is_empty() {
        return Err(DescribedFault::NoDescriptors);
    }
    Ok(DescribedDevice {
        file: String::from_str(alloc, file)?,
        descriptor: front(alloc, bytes, DEVICE_SIZE)?,
        configurations,
        strings: strings_of(alloc, bytes, texts)?,
        speed: speed_of(texts.speed),
        place,
    })
}

/// The device of Linux's file of its descriptors (/sys/bus/usb/devices/../descriptors) or of a copy of it, in bytes or as hexadecimal text
/// with white space, with the texts beside it. The name is that of the file in comments, and has no line ends.
///
/// Refuses text with an odd number of digits, and bytes that don't begin with a device descriptor and a configuration.
pub fn described_by_descriptors(
    alloc: Global,
    name: &str,
    file: &[u8],
    texts: DeviceTexts<'_>,
) -> Result<DescribedDevice, DescribedFault>
    ensures device { IfOk result (λ d. Describes file.now texts.entry.speed.now d) }
    ensures fault { IfErr result (λ fault. IsDescribedFault fault (descriptor_bytes file.now)) }
{
    let bytes = bytes_of(alloc, file)?;
    described(alloc, name, bytes.as_slice(), texts, None)
}
