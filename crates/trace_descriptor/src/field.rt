//! Fields of descriptors, and how the number of each is printed.

use crate::class_names::{class_of_lsusb, protocol_of_lsusb, subclass_of_lsusb};
use crate::flags::{FlagSet, put_flag_lines, put_flag_words};
use crate::names::{
    country, hid_type, packets_of_microframe, synch_type, transfer_type, usage_type,
};
use crate::piece::byte_at;
use crate::text::DescriptorText;
use std::alloc::{AllocError, Global};

/// How the number of a field is printed.
#[derive(Clone, Copy)]
pub(crate) enum Form {
    /// So many bytes, the lower first, decimal, in so many columns at least.
    Decimal(usize, usize),
    /// So many bytes, the lower first, hexadecimal behind `0x`.
    Bits(usize),
    /// Four bytes, the lower first, as eight hexadecimal digits.
    Mask,
    /// Two bytes, of which each is two decimal digits, in five columns.
    Version,
    /// The same, in as few columns as it has.
    ShortVersion,
    /// A byte that counts units of current, in milliamperes.
    Power,
    /// The exponent of a bulk endpoint's streams; left out where it is 0.
    Streams,
    /// An isochronous endpoint's Mult; left out where it is 0.
    Mult,
    /// A byte in two hexadecimal digits, or that it says what was sent.
    Echo,
    /// Columns and lines, a byte each, or none.
    Screen,
}

/// What is printed behind a number, or below it.
#[derive(Clone, Copy)]
pub(crate) enum Note {
    /// Nothing.
    Nothing,
    /// A text.
    Text(&'static str),
    /// The name of a class.
    Class,
    /// That of a subclass, of the class one byte before it.
    Subclass,
    /// That of a protocol, of the class and the subclass before it.
    Protocol,
    /// A country, as HID numbers them.
    Country,
    /// The type of a descriptor that a HID descriptor counts.
    HidType,
    /// The number and direction of an endpoint.
    EndpointAddress,
    /// What the attributes of an endpoint say, in lines of their own.
    EndpointAttributes,
    /// How many packets a microframe may have, and of how many bytes.
    PacketSize,
    /// That the version is another than 1.00, by which the fields are named.
    OnlyFirst,
    /// What the bits say, in the same line.
    Words(FlagSet),
    /// What they say, in lines of their own.
    Lines(FlagSet),
}

/// A field: its name with the blanks behind it, its place in its descriptor, and what is printed of it.
#[derive(Clone, Copy)]
pub(crate) struct DescriptorField(
    pub(crate) &'static str,
    pub(crate) usize,
    pub(crate) Form,
    pub(crate) Note,
);

/// A line of a table that is being written: the margin of its descriptor, and the unit of MaxPower in milliamperes.
#[derive(Clone, Copy)]
pub(crate) struct Margin {
    /// The blanks in front.
    pub(crate) blanks: &'static str,
    /// How many milliamperes one of MaxPower is.
    pub(crate) unit: u64,
}

/// A number of so many bytes at a place, the lower first.
pub(crate) fn number_at(bytes: &[u8], place: usize, size: usize) -> u64 {
    let mut number = 0u64;
    for back in 1..=size {
        let at = place.saturating_add(size - back);
        number = number
            .saturating_mul(256)
            .saturating_add(u64::from(byte_at(bytes, at)));
    }
    number
}

impl Form {
    /// How many bytes a number of this form has.
    pub(crate) fn size(self) -> usize {
        match self {
            Form::Decimal(size, _) | Form::Bits(size) => size,
            Form::Mask => 4,
            Form::Version | Form::ShortVersion | Form::Screen => 2,
            Form::Power | Form::Streams | Form::Mult | Form::Echo => 1,
        }
    }

    /// In how many columns it is printed at least.
    fn columns(self) -> usize {
        match self {
            Form::Decimal(_, columns) => columns,
            Form::Version | Form::Power | Form::Streams | Form::Mult => 5,
            Form::Echo => 4,
            Form::Bits(_) | Form::Mask | Form::ShortVersion | Form::Screen => 0,
        }
    }

    /// A number of this form, of which the first byte is this one. None where it is left out.
    fn text(
        self,
        alloc: Global,
        number: u64,
        first: u8,
        unit: u64,
    ) -> Result<Option<String>, AllocError> {
        let text = match self {
            Form::Decimal(..) => format!(in alloc; "{number}")?,
            Form::Bits(1) => format!(in alloc; "0x{number:02x}")?,
            Form::Bits(2) => format!(in alloc; "0x{number:04x}")?,
            Form::Bits(_) => format!(in alloc; "0x{number:08x}")?,
            Form::Mask => format!(in alloc; "{number:08X}")?,
            Form::Version | Form::ShortVersion => {
                let (major, minor) = (number / 256, number % 256);
                format!(in alloc; "{major:x}.{minor:02x}")?
            }
            Form::Power => {
                let milliamperes = number.saturating_mul(unit);
                format!(in alloc; "{milliamperes}")?
            }
            Form::Streams => return streams(alloc, first),
            Form::Mult => return mult(alloc, first),
            Form::Echo if first == 0xff => format!(in alloc; "echo")?,
            Form::Echo => format!(in alloc; "{first:02X}")?,
            Form::Screen if number == 0 => format!(in alloc; "none")?,
            Form::Screen => {
                let lines = number / 256;
                format!(in alloc; "{first} cols {lines} lines")?
            }
        };
        Ok(Some(text))
    }
}

/// How many streams a bulk endpoint has, by bits 4..0 of its companion's bmAttributes (USB 3.2, 9.6.7).
fn streams(alloc: Global, attributes: u8) -> Result<Option<String>, AllocError> {
    let exponent = attributes % 32;
    if exponent == 0 {
        return Ok(None);
    }
    let streams = 1u64 << exponent;
    Ok(Some(format!(in alloc; "{streams}")?))
}

/// An isochronous endpoint's Mult, by bits 1..0 of the same.
fn mult(alloc: Global, attributes: u8) -> Result<Option<String>, AllocError> {
    let mult = attributes % 4;
    if mult == 0 {
        return Ok(None);
    }
    Ok(Some(format!(in alloc; "{mult}")?))
}

/// Puts a name behind a text, behind a space; nothing where there is no name.
fn put_name(text: &mut DescriptorText, name: &str) -> Result<(), AllocError> {
    if name.is_empty() {
        return Ok(());
    }
    text.put(" ")?;
    text.put(name)
}

/// Puts blanks behind a text, as many as a number of so many digits lacks.
fn put_blanks(text: &mut DescriptorText, digits: usize, columns: usize) -> Result<(), AllocError> {
    for _ in digits..columns {
        text.put(" ")?;
    }
    Ok(())
}

/// Puts the number and the direction of an endpoint behind a text.
fn put_address(text: &mut DescriptorText, alloc: Global, address: u8) -> Result<(), AllocError> {
    let (number, direction) = (address % 16, if address >= 128 { "IN" } else { "OUT" });
    let note = format!(in alloc; "  EP {number} {direction}")?;
    text.put(note.as_str())
}

/// Puts what the attributes of an endpoint say behind a text, in lines of their own.
fn put_attributes(
    text: &mut DescriptorText,
    alloc: Global,
    attributes: u8,
) -> Result<(), AllocError> {
    let (transfer, synch, usage) = (
        transfer_type(attributes),
        synch_type(attributes),
        usage_type(attributes),
    );
    let lines = format!(in alloc;
        "\n          Transfer Type            {transfer}\n          Synch Type               {synch}\n          Usage Type               {usage}"
    )?;
    text.put(lines.as_str())
}

/// Puts the packets of an endpoint behind a text.
fn put_packets(text: &mut DescriptorText, alloc: Global, size: u64) -> Result<(), AllocError> {
    let (packets, bytes) = (packets_of_microframe(size), size % 2048);
    let note = format!(in alloc; "  {packets} {bytes} bytes")?;
    text.put(note.as_str())
}

impl DescriptorField {
    /// Where the field ends in its descriptor.
    pub(crate) fn end(&self) -> usize {
        self.1.saturating_add(self.2.size())
    }

    /// Puts what stands behind the number, or below it.
    fn put_note(
        &self,
        text: &mut DescriptorText,
        alloc: Global,
        margin: Margin,
        bytes: &[u8],
        number: u64,
    ) -> Result<(), AllocError> {
        let before = |back: usize| byte_at(bytes, self.1.saturating_sub(back));
        match self.3 {
            Note::Nothing => Ok(()),
            Note::Text(note) => text.put(note),
            Note::Class => put_name(text, class_of_lsusb(before(0))),
            Note::Subclass => put_name(text, subclass_of_lsusb(before(1), before(0))),
            Note::Protocol => { put_name(text, protocol_of_lsusb(before(2), before(1), before(0))) }
            Note::Country => put_name(text, country(before(0))),
            Note::HidType => put_name(text, hid_type(before(0))),
            Note::EndpointAddress => put_address(text, alloc, before(0)),
            Note::EndpointAttributes => put_attributes(text, alloc, before(0)),
            Note::PacketSize => put_packets(text, alloc, number),
            Note::OnlyFirst if number == 0x0100 => Ok(()),
            Note::OnlyFirst => text.put("  (Warning: Only accurate for version 1.0)"),
            Note::Words(flags) => put_flag_words(text, flags, number),
            Note::Lines(flags) => put_flag_lines(text, margin.blanks, flags, number),
        }
    }

    /// Puts the field of a descriptor behind a text: its name, its number and what that stands for.
    pub(crate) fn put(
        &self,
        text: &mut DescriptorText,
        alloc: Global,
        margin: Margin,
        bytes: &[u8],
    ) -> Result<(), AllocError> {
        let number = number_at(bytes, self.1, self.2.size());
        let first = byte_at(bytes, self.1);
        let Some(value) = self.2.text(alloc, number, first, margin.unit)? else {
            return Ok(());
        };
        text.put(margin.blanks)?;
        text.put(self.0)?;
        put_blanks(text, value.len(), self.2.columns())?;
        text.put(value.as_str())?;
        self.put_note(text, alloc, margin, bytes, number)?;
        text.put("\n")
    }
}
