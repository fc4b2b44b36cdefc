//! What is wrong with a text that isn't taken: the number of a line, and why.

ghost use Rattle.std.specs.Prelude.{◌≡◌, IfOk, take};
ghost use Rattle.usb_scripttext.specs.Words.{words_of};
ghost use Rattle.usb_devicetext.specs.DeviceText.{spelled_of};
ghost use Rattle.usb_devicetext.specs.Form.{word_at};
ghost use Rattle.usb_devicetext.specs.Lines.{lines_in};
ghost use Rattle.usb_devicetext.specs.Reason.{Complains, Fits, IsWhy, devices_before, seen};

use crate::desk::{read_desk, read_spelled};
use crate::draft::Draft;
use crate::reason::{LineReason, line_at};
use std::alloc::{AllocError, Global};
use usb_device::ScriptedDevice;
use usb_model::Sequence;
use usb_scripttext::{LineFault, TextFault};

/// What is wrong with a text that isn't taken.
#[derive(Clone, Copy, Debug)]
pub struct Complaint {
    /// The number of its first line that isn't taken, from 1.
    pub line: u64,
    /// Why that isn't.
    pub reason: LineReason,
}

/// What is wrong with a text of devices; None where it is taken. An error where memory is refused.
pub fn complain(alloc: Global, text: &[u8]) -> Result<Option<Complaint>, AllocError>
    ensures { IfOk result (λ complaint. Complains text.now complaint) }
{
    match read_desk(alloc, text) {
        Ok(_) => Ok(None),
        Err(TextFault::Memory) => Err(AllocError),
        Err(TextFault::Line(line)) => {
            let reason = reason_at(alloc, text, line)?;
            Ok(Some(Complaint { line, reason }))
        }
    }
}

/// Why the line of this number isn't taken.
fn reason_at(alloc: Global, text: &[u8], line: u64) -> Result<LineReason, AllocError>
    ensures { IfOk result (λ why. IsWhy text.now line why) }
{
    let lines: Vec<&[u8]> = text.split(|byte| *byte == b'\n').collect(alloc)?;
    reason_in(
        alloc,
        text,
        lines.as_slice(),
        line.saturating_sub(1) as usize,
    )
}

/// Why the line of this index isn't taken.
fn reason_in(
    alloc: Global,
    text: &[u8],
    lines: &[&[u8]],
    at: usize,
) -> Result<LineReason, AllocError>
    requires { words_of lines.now ≡ lines_in text.now }
    ensures { IfOk result (λ why. Fits why (word_at (lines_in text.now) at) (take at (lines_in text.now)) (seen (spelled_of text.now) (take at (lines_in text.now)))) }
{
    let earlier = front(lines, at);
    let devices = seen(alloc, text, earlier)?;
    LineReason::of(alloc, line_at(lines, at), earlier, devices.as_slice())
}

/// The lines before an index.
#[tactic(auto, using(crate::proofs::Lists::front_taken))]
fn front<'a, 'b>(lines: &'a [&'b [u8]], at: usize) -> &'a [&'b [u8]]
    ensures { words_of result.now ≡ take at (words_of lines.now) }
{
    if at < lines.len() {
        &lines[..at]
    } else {
        lines
    }
}

/// The devices of some lines; none where these aren't taken.
fn devices_before(alloc: Global, lines: &[&[u8]]) -> Result<Sequence<ScriptedDevice>, AllocError>
    ensures { IfOk result (λ devices. devices ≡ devices_before (words_of lines.now)) }
{
    let mut draft = Draft::new(alloc);
    for line in lines {
        match draft.read(alloc, line) {
            Ok(()) => {}
            Err(LineFault::Bad(_)) => return Ok(Sequence::new(alloc)),
            Err(LineFault::Memory) => return Err(AllocError),
        }
    }
    Ok(draft.into_desk().scripted)
}

/// The devices beside which a line is judged: those of the text, where each of its lines is taken behind those before it; else those
/// of the lines before.
fn seen(
    alloc: Global,
    text: &[u8],
    earlier: &[&[u8]],
) -> Result<Sequence<ScriptedDevice>, AllocError>
    ensures { IfOk result (λ devices. devices ≡ seen (spelled_of text.now) (words_of earlier.now)) }
{
    match read_spelled(alloc, text) {
        Ok(desk) => Ok(desk.scripted),
        Err(TextFault::Line(_)) => devices_before(alloc, earlier),
        Err(TextFault::Memory) => Err(AllocError),
    }
}
