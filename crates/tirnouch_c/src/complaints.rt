//! What is wrong with a text of devices.

ghost use Rattle.std.specs.Prelude.{◌≡◌, Some};
ghost use Rattle.usb_devicetext.specs.Reason.{Complains, reason_text};
ghost use Rattle.tirnouch_c.specs.Complaints.{TellsComplaint, TellsWrong, complaint_numbers, line_numbers, word_number};

use crate::results::{answer_of, fill};
use std::alloc::Global;
use usb_devicetext::Complaint;

/// Where a text of devices isn't taken.
#[repr(C)]
#[derive(Clone, Copy, Drop)]
pub struct TextComplaint {
    /// The number of the first line that isn't taken, from 1 on.
    pub line: u64,
    /// The word of it that is meant, from 0 on, where `has_word` is 1; else 0.
    pub word: u32,
    /// 1 where a word is meant; 0 where the whole line is. `tirnouch_create` doesn't say which word is.
    pub has_word: u8,
}

/// The word that a reason is about, from 0 on; 0 for the whole line.
fn word_number(place: Option<usize>) -> u32
    ensures { result ≡ word_number place }
{
    match place {
        None => 0,
        Some(at) => u32::try_from(at).unwrap_or(u32::MAX),
    }
}

impl TextComplaint {
    /// A line of this number isn't taken.
    pub fn at_line(line: u64) -> TextComplaint
        ensures { result ≡ line_numbers line }
    {
        TextComplaint {
            line,
            word: 0,
            has_word: 0,
        }
    }

    /// The line, and the word in it.
    fn of(complaint: &Complaint) -> TextComplaint
        ensures { result ≡ complaint_numbers complaint.now }
    {
        let place = complaint.reason.place();
        TextComplaint {
            line: complaint.line,
            word: word_number(place),
            has_word: u8::from(place.is_some()),
        }
    }
}

/// Want of memory (libusb 1.0, `LIBUSB_ERROR_NO_MEM`).
const NO_MEM: i32 = -11;

/// Tells what is wrong with a text, in numbers and in a sentence.
pub fn complain(alloc: Global, text: &[u8], buffer: &mut [u8], found: &mut TextComplaint) -> i32
    ensures { TellsWrong text.now result found.old found.new buffer.old buffer.new }
{
    match usb_devicetext::complain(alloc, text) {
        Err(_) => NO_MEM,
        Ok(None) => 0,
        Ok(Some(complaint)) => tell(alloc, &complaint, text, buffer, found),
    }
}

/// Tells this.
fn tell(
    alloc: Global,
    complaint: &Complaint,
    text: &[u8],
    buffer: &mut [u8],
    found: &mut TextComplaint,
) -> i32
    requires { Complains text.now (Some complaint.now) }
    ensures { TellsWrong text.now result found.old found.new buffer.old buffer.new }
{
    let reason = complaint.reason;
    let Ok(sentence) = format!(in alloc; "{reason}") else {
        return NO_MEM;
    };
    put(sentence.as_str(), complaint, buffer, found)
}

/// Tells it in this sentence.
fn put(sentence: &str, complaint: &Complaint, buffer: &mut [u8], found: &mut TextComplaint) -> i32
    requires { sentence.now ≡ reason_text complaint.now.reason }
    ensures { TellsComplaint (Some complaint.now) result found.old found.new buffer.old buffer.new }
{
    fill(buffer, sentence.as_bytes());
    *found = TextComplaint::of(complaint);
    answer_of(sentence.len())
}
