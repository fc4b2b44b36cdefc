//! What is wrong with a line by itself, wherever it stands.

ghost use Rattle.std.specs.Prelude.{◌≡◌, IfOk, false};
ghost use Rattle.std.specs.Option.{option_map_or};
ghost use Rattle.usb_scripttext.specs.Words.{words_of};
ghost use Rattle.usb_devicetext.specs.Alone.{ComplainsOfLine, FitsAlone, begins_saying, is_saying};
ghost use Rattle.usb_devicetext.specs.FormFault.{topic_in};
ghost use Rattle.usb_devicetext.specs.Topic.{topic_of};

use crate::line::DeskLine;
use crate::reason::{LineReason, line_at};
use crate::topic::Topic;
use std::alloc::{AllocError, Global};
use usb_scripttext::LineFault;
use usb_scripttext::words::ascii;

/// Whether a line of this first word says something of a device, beside its configuration and the scripts of its endpoints.
fn is_saying(topic: Topic) -> bool
    ensures { result ≡ is_saying topic }
{
    match topic {
        Topic::Device | Topic::Script => false,
        Topic::Ids
        | Topic::Class
        | Topic::Descriptor
        | Topic::Text
        | Topic::Speed
        | Topic::Control
        | Topic::After
        | Topic::Leaves
        | Topic::Hidden
        | Topic::Anew
        | Topic::Lasts
        | Topic::Driver => true,
    }
}

/// The topic of a word.
#[tactic(auto, using(crate::proofs::FirstWords::no_topic))]
fn topic_of(word: &[u8]) -> Option<Topic>
    ensures { result ≡ topic_of word.now }
{
    match ascii(word) {
        Some(word) => Topic::read(word),
        None => None,
    }
}

/// Whether a line of these words begins as one that says something of a device.
fn is_said_by(words: &[&[u8]]) -> bool
    ensures { result ≡ option_map_or is_saying (topic_in (words_of words.now)) false }
{
    match topic_of(line_at(words, 0)) {
        Some(topic) => is_saying(topic),
        None => false,
    }
}

/// Whether a line begins as one that says something of a device.
fn begins_saying(alloc: Global, text: &[u8]) -> Result<bool, AllocError>
    ensures { IfOk result (λ begins. begins ≡ begins_saying text.now) }
{
    let words: Vec<&[u8]> = text.split(|byte| *byte == b' ').collect(alloc)?;
    Ok(is_said_by(words.as_slice()))
}

/// Why a line isn't taken, wherever it stands.
fn reason_of(alloc: Global, text: &[u8]) -> Result<LineReason, AllocError>
    ensures { IfOk result (λ why. FitsAlone why text.now) }
{
    let why = LineReason::of(alloc, text, &[], &[])?;
    match why {
        LineReason::Ascii
        | LineReason::CarriageReturn
        | LineReason::Tab
        | LineReason::Form(_)
        | LineReason::Refused => Ok(why),
        LineReason::Place(_) | LineReason::Repeated(_) => Ok(LineReason::Refused),
    }
}

/// What is wrong with a line by itself. None where it isn't one that says something of a device, beside its configuration and the scripts of
/// its endpoints; and where it is taken. An error where memory is refused.
pub fn line_complaint(alloc: Global, text: &[u8]) -> Result<Option<LineReason>, AllocError>
    ensures { IfOk result (λ complaint. ComplainsOfLine text.now complaint) }
{
    if !begins_saying(alloc, text)? {
        return Ok(None);
    }
    match DeskLine::from_text(alloc, text) {
        Ok(_) => Ok(None),
        Err(LineFault::Bad(_)) => Ok(Some(reason_of(alloc, text)?)),
        Err(LineFault::Memory) => Err(AllocError),
    }
}
