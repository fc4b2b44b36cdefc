//! A device as a file of umockdev-record has it (umockdev-record(1)).

use crate::described::{DescribedDevice, DevicePlace};
use crate::described_fault::DescribedFault;
use crate::described_file::{DeviceTexts, bytes_of_text, described};
use std::alloc::Global;
use std::str;

/// What a paragraph of a file says.
#[derive(Clone, Copy)]
struct Paragraph<'a> {
    /// Whether it is of a USB device.
    is_device: bool,
    /// The digits of its descriptors.
    descriptors: Option<&'a [u8]>,
    /// Its texts.
    texts: DeviceTexts<'a>,
    /// The number of its bus.
    bus: Option<u16>,
    /// Its address there.
    device: Option<u8>,
}

/// The value of a name in a line, without the end `\n` that a file has for the end of a text.
fn value<'a>(line: &'a [u8], name: &[u8]) -> Option<&'a [u8]> {
    let value = line.strip_prefix(name)?;
    Some(value.strip_suffix(b"\\n").unwrap_or(value))
}

/// A decimal number.
fn number(text: &[u8]) -> Option<u16> {
    str::from_utf8(text).ok()?.parse().ok()
}

impl<'a> Paragraph<'a> {
    /// Nothing is said.
    fn new() -> Paragraph<'a> {
        Paragraph {
            is_device: false,
            descriptors: None,
            texts: DeviceTexts {
                manufacturer: &[],
                product: &[],
                serial: &[],
                speed: &[],
            },
            bus: None,
            device: None,
        }
    }

    /// Whether it is of a device with its descriptors.
    fn is_whole(&self) -> bool {
        self.is_device && self.descriptors.is_some()
    }

    /// A text more.
    fn put_text(&mut self, line: &'a [u8]) {
        if let Some(text) = value(line, b"A: manufacturer=") {
            self.texts.manufacturer = text;
        } else if let Some(text) = value(line, b"A: product=") {
            self.texts.product = text;
        } else if let Some(text) = value(line, b"A: serial=") {
            self.texts.serial = text;
        } else if let Some(text) = value(line, b"A: speed=") {
            self.texts.speed = text;
        }
    }

    /// A line more.
    fn put(&mut self, line: &'a [u8]) {
        if line == b"E: DEVTYPE=usb_device".as_slice() {
            self.is_device = true;
        } else if let Some(digits) = value(line, b"H: descriptors=") {
            self.descriptors = Some(digits);
        } else if let Some(bus) = value(line, b"E: BUSNUM=") {
            self.bus = number(bus);
        } else if let Some(device) = value(line, b"E: DEVNUM=") {
            self.device = number(device).and_then(|number| u8::try_from(number).ok());
        } else {
            self.put_text(line);
        }
    }

    /// Where the device stood.
    fn place(&self) -> Option<DevicePlace> {
        let (bus, device) = (self.bus?, self.device?);
        Some(DevicePlace { bus, device })
    }
}

/// The first paragraph of a device with its descriptors; or the last one.
fn first_device<'a>(file: &'a [u8]) -> Paragraph<'a> {
    let mut paragraph = Paragraph::new();
    for line in file.split(|byte| *byte == b'\n') {
        if !line.is_empty() {
            paragraph.put(line);
        } else if paragraph.is_whole() {
            break;
        } else {
            paragraph = Paragraph::new();
        }
    }
    paragraph
}

/// The device of a file of umockdev-record: the first USB device. The name is that of the file in comments, and has no line ends.
///
/// Refuses a file without one, and descriptors that aren't whole.
pub fn described_by_umockdev(
    alloc: Global,
    name: &str,
    file: &[u8],
) -> Result<DescribedDevice, DescribedFault> {
    let paragraph = first_device(file);
    let Some(digits) = paragraph.descriptors else {
        return Err(DescribedFault::NoDevice);
    };
    if !paragraph.is_device {
        return Err(DescribedFault::NoDevice);
    }
    let bytes = bytes_of_text(alloc, digits)?;
    described(
        alloc,
        name,
        bytes.as_slice(),
        paragraph.texts,
        paragraph.place(),
    )
}
