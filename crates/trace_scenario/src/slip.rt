//! What editors and other notations leave in a line, told in place of what reading the line met. No contract says that a
//! sentence fits its line.

use usb_descriptors::DescFault;
use usb_model::limits::LONGEST_SCRIPT;
use usb_scripttext::{Expected, Problem};

/// A slip that makes a line bad.
#[derive(Clone, Copy, PartialEq, Eq, Debug)]
pub enum Slip {
    /// The line ends with a carriage return.
    CarriageReturn,
    /// A tab stands in it.
    Tab,
    /// A number has `0x` in front.
    Prefix,
    /// A device descriptor stands in front of the configuration.
    DeviceDescriptor,
    /// Behind the star of an answer stands a number that isn't from 1 to 65,536.
    Times,
}

impl Slip {
    /// The slip of a line that has this problem, if there is one.
    pub(crate) fn of(line: &[u8], problem: &Problem) -> Option<Slip> {
        if matches!(line, [.., b'\r']) {
            return Some(Slip::CarriageReturn);
        }
        if line.iter().any(|byte| *byte == b'\t') {
            return Some(Slip::Tab);
        }
        match problem {
            Problem::Word(_) if has_prefix(line) => Some(Slip::Prefix),
            Problem::Descriptor(DescFault::WrongType(0)) if has_device(line) => {
                Some(Slip::DeviceDescriptor)
            }
            Problem::Word(Expected::InAnswer | Expected::OutAnswer)
            | Problem::Word(Expected::Bytes | Expected::PacketBytes)
                if line.split(|byte| *byte == b' ').any(has_wrong_times) => { Some(Slip::Times) }
            _ => None,
        }
    }

    /// What the slip is, in a sentence.
    pub fn sentence(self) -> &'static str {
        match self {
            Slip::CarriageReturn => {
                "the line ends with a carriage return; lines end with a line feed alone"
            }
            Slip::Tab => "a tab stands in the line; words stand between single spaces",
            Slip::Prefix => "a number has 0x in front; hexadecimal digits stand alone",
            Slip::DeviceDescriptor => {
                "a device descriptor stands in front of the configuration; leave out its 18 bytes"
            }
            Slip::Times => {
                "how often an answer is given, behind `*`, isn't a decimal number from 1 to 65536"
            }
        }
    }
}

/// Whether a word begins with `0x`.
pub(crate) fn has_zero_x(word: &[u8]) -> bool {
    matches!(word, [b'0', b'x', ..])
}

/// Whether behind the first star of a word stand digits that are no decimal number from 1 to 65,536.
pub(crate) fn has_wrong_times(word: &[u8]) -> bool {
    let Some(star) = word.iter().position(|byte| *byte == b'*') else {
        return false;
    };
    let times = word.get(star.saturating_add(1)..).unwrap_or(&[]);
    !times.is_empty()
        && times.iter().all(u8::is_ascii_digit)
        && (times.len() > 5 || times.starts_with(b"0") || number(times) > LONGEST_SCRIPT)
}

/// The number of some decimal digits.
fn number(digits: &[u8]) -> usize {
    let mut number: usize = 0;
    for digit in digits {
        number = number
            .saturating_mul(10)
            .saturating_add(usize::from(digit.saturating_sub(b'0')));
    }
    number
}

/// Whether one of a line's words begins with `0x`.
fn has_prefix(line: &[u8]) -> bool {
    line.split(|byte| *byte == b' ').any(has_zero_x)
}

/// Whether a word begins as a device descriptor does (USB 2.0, 9.6.1).
fn has_device(line: &[u8]) -> bool {
    line.split(|byte| *byte == b' ')
        .any(|word| matches!(word, [b'1', b'2', b'0', b'1', ..]))
}
