//! Why a line of a text isn't taken, in a sentence that a person can act on.

ghost use Rattle.std.specs.Prelude.{◌≡◌, ◌-◌, ◌==◌, IfOk, IfSome, Some, length, slice_get, true};
ghost use Rattle.std.specs.List.{list_any};
ghost use Rattle.usb_scripttext.specs.Words.{words_in, words_of};
ghost use Rattle.usb_devicetext.specs.Form.{word_at};
ghost use Rattle.usb_devicetext.specs.Reason.{Fits, is_repeat, reason_place, reason_text, saying_in, saying_of};

use crate::form_fault::FormFault;
use crate::line::DeskLine;
use crate::place_fault::PlaceFault;
use crate::sense::{Saying, Subject};
use std::alloc::{AllocError, Global};
use std::fmt;
use usb_device::ScriptedDevice;
use usb_scripttext::LineFault;
use usb_scripttext::words::ascii;

/// Why a line of a text isn't taken.
#[derive(Clone, Copy, PartialEq, Eq, Debug)]
pub enum LineReason {
    /// A byte is above 127.
    Ascii,
    /// It ends with a carriage return.
    CarriageReturn,
    /// A tab stands in it.
    Tab,
    /// Its words are wrong by themselves.
    Form(FormFault),
    /// They are wrong beside the devices of the text.
    Place(PlaceFault),
    /// The line of this number, from 1, says the same.
    Repeated(u64),
    /// It isn't taken.
    Refused,
}

/// The reason, in a sentence.
impl fmt::Display for LineReason {
    ghost output = { λ x. Some (reason_text x) };

    fn fmt<W: fmt::Write>(&self, f: &mut fmt::Formatter<W>) -> fmt::Result {
        match self {
            LineReason::Ascii => f.write_str("a byte isn't ASCII, as only a comment may have"),
            LineReason::CarriageReturn => {
                f.write_str("the line ends in CR LF, and lines end in LF alone")
            }
            LineReason::Tab => {
                f.write_str("a tab stands in the line, and words stand between single spaces")
            }
            LineReason::Form(why) => write!(f, "{why}"),
            LineReason::Place(why) => write!(f, "{why}"),
            LineReason::Repeated(at) => write!(f, "line {at} says that of the device already"),
            LineReason::Refused => f.write_str("the line can't stand here"),
        }
    }
}

impl LineReason {
    /// The word that it is about, from 0 on; None where it is about the whole line.
    pub fn place(&self) -> Option<usize>
        ensures { result ≡ reason_place self.now }
    {
        match self {
            LineReason::Form(why) => why.place(),
            LineReason::Place(why) => Some(why.place()),
            LineReason::Ascii
            | LineReason::CarriageReturn
            | LineReason::Tab
            | LineReason::Repeated(_)
            | LineReason::Refused => None,
        }
    }

    /// Why a line isn't taken behind these and beside these devices. An error where memory is refused.
    pub(crate) fn of(
        alloc: Global,
        line: &[u8],
        earlier: &[&[u8]],
        devices: &[ScriptedDevice],
    ) -> Result<LineReason, AllocError>
        ensures { IfOk result (λ why. Fits why line.now (words_of earlier.now) devices.now) }
    {
        let Some(text) = ascii(line) else {
            return Ok(LineReason::Ascii);
        };
        if ends_with_return(line) {
            return Ok(LineReason::CarriageReturn);
        }
        if has_tab(line) && !line.starts_with(b"string ") {
            return Ok(LineReason::Tab);
        }
        of_text(alloc, text, earlier, devices)
    }
}

/// Whether a line ends with a carriage return.
fn ends_with_return(line: &[u8]) -> bool
    ensures { result ≡ true → slice_get line.now (length line.now - 1) ≡ Some 13 }
{
    match line.last() {
        Some(byte) => *byte == b'\r',
        None => false,
    }
}

/// Whether a tab stands in a line.
fn has_tab(line: &[u8]) -> bool
    ensures { result ≡ list_any (λ b. b == 9) line.now }
{
    line.iter().any(|byte| *byte == b'\t')
}

/// Why a line of ASCII isn't taken.
fn of_text(
    alloc: Global,
    text: &str,
    earlier: &[&[u8]],
    devices: &[ScriptedDevice],
) -> Result<LineReason, AllocError>
    ensures { IfOk result (λ why. Fits why text.now (words_of earlier.now) devices.now) }
{
    let words: Vec<&str> = text.split(' ').collect(alloc)?;
    of_words(alloc, text, words.as_slice(), earlier, devices)
}

/// Why a line of these words isn't taken.
fn of_words(
    alloc: Global,
    text: &str,
    words: &[&str],
    earlier: &[&[u8]],
    devices: &[ScriptedDevice],
) -> Result<LineReason, AllocError>
    requires { words_of words.now ≡ words_in text.now }
    ensures { IfOk result (λ why. Fits why text.now (words_of earlier.now) devices.now) }
{
    if let Some(why) = FormFault::of(alloc, words)? {
        return Ok(LineReason::Form(why));
    }
    if let Some(why) = PlaceFault::of(devices, words) {
        return Ok(LineReason::Place(why));
    }
    match repeated(alloc, text.as_bytes(), earlier)? {
        Some(at) => Ok(LineReason::Repeated(at)),
        None => Ok(LineReason::Refused),
    }
}

/// The line of an index; an empty one past the last.
pub(crate) fn line_at<'a>(lines: &[&'a [u8]], at: usize) -> &'a [u8]
    ensures { result.now ≡ word_at (words_of lines.now) at }
{
    match lines.get(at) {
        Some(line) => line,
        None => &[],
    }
}

/// What a line says that may be said once.
fn saying_of(line: &DeskLine) -> Option<Saying>
    ensures { result ≡ saying_of line.now }
{
    match line {
        DeskLine::Says { dev, what } => match Subject::of(what) {
            Some(subject) => Some(Saying { dev: *dev, subject }),
            None => None,
        },
        DeskLine::Device { .. } | DeskLine::Script(_) => None,
    }
}

/// What the line of a text says that may be said once.
fn saying_in(alloc: Global, text: &[u8]) -> Result<Option<Saying>, AllocError>
    ensures { IfOk result (λ said. said ≡ saying_in text.now) }
{
    match DeskLine::from_text(alloc, text) {
        Ok(line) => Ok(saying_of(&line)),
        Err(LineFault::Bad(_)) => Ok(None),
        Err(LineFault::Memory) => Err(AllocError),
    }
}

/// Whether two lines say the same.
fn is_repeat(one: Option<Saying>, other: Option<Saying>) -> bool
    ensures { result ≡ is_repeat one other }
{
    match (one, other) {
        (Some(one), Some(other)) => one.dev == other.dev && one.subject.is_same(other.subject),
        _ => false,
    }
}

/// The number of the first line that says the same, from 1.
fn repeated(alloc: Global, text: &[u8], earlier: &[&[u8]]) -> Result<Option<u64>, AllocError>
    ensures { IfOk result (λ at. IfSome at (λ at. is_repeat (saying_in (word_at (words_of earlier.now) (at - 1))) (saying_in text.now) ≡ true)) }
{
    let said = saying_in(alloc, text)?;
    for at in 0..earlier.len() {
        if is_repeat(saying_in(alloc, line_at(earlier, at))?, said) {
            return Ok(Some(at as u64 + 1));
        }
    }
    Ok(None)
}
