//! String descriptors (USB 2.0, 9.6.7).

ghost use Rattle.std.specs.Prelude.{◌≡◌, ◌++◌, ◌∷◌, IfOk};
ghost use Rattle.usb_scripttext.specs.Results.{ReadsAs};
ghost use Rattle.usb_scripttext.specs.Words.{words_of};
ghost use Rattle.usb_devicetext.specs.Text.{spaced, string_of, text_of, units_of, wide};

use std::alloc::{AllocError, Global};
use usb_model::Bytes;
use usb_scripttext::number::bytes;
use usb_scripttext::{Expected, LineFault, Problem, behind};

/// The type of a string descriptor (USB 2.0, 9.4).
const STRING: u8 = 3;

/// Puts each byte of a text behind others, as a unit of UTF-16.
fn push_wide(bytes: &mut Vec<u8>, text: &str) -> Result<(), AllocError>
    ensures { IfOk result (λ _. bytes.new.items ≡ bytes.old.items ++ wide text.now) }
{
    for byte in text.as_bytes() {
        bytes.push(*byte)?;
        bytes.push(0)?;
    }
    Ok(())
}

/// Some words as units of UTF-16, each behind a space.
fn spaced(alloc: Global, words: &[&str]) -> Result<Vec<u8>, AllocError>
    ensures { IfOk result (λ bytes. bytes.items ≡ spaced (words_of words.now)) }
{
    let mut bytes = Vec::new(alloc);
    for word in words {
        push_wide(&mut bytes, " ")?;
        push_wide(&mut bytes, word)?;
    }
    Ok(bytes)
}

/// A string descriptor of this length, with these units.
fn with_header(alloc: Global, length: u8, units: &[u8]) -> Result<Bytes, AllocError>
    ensures { IfOk result (λ bytes. bytes ≡ length ∷ 3 ∷ units.now) }
{
    let mut bytes = Vec::new(alloc);
    bytes.push(length)?;
    bytes.push(STRING)?;
    bytes.extend_from_slice(units)?;
    Ok(Bytes::from_vec(bytes))
}

/// The string descriptor of a text in ASCII, of which these are the words: 1 to 126 units.
#[tactic(auto, unfolding(crate::specs::Text::string_of))]
fn string(alloc: Global, words: &[&str]) -> Result<Bytes, LineFault>
    ensures { ReadsAs result (string_of (words_of words.now)) }
{
    let bytes = spaced(alloc, words)?;
    let Ok(length) = u8::try_from(bytes.len()) else {
        return Err(LineFault::Bad(Problem::Packet));
    };
    if length < 2 {
        return Err(LineFault::Bad(Problem::Packet));
    }
    Ok(with_header(alloc, length, &bytes[2..])?)
}

/// The string descriptor of these units, as bytes in hexadecimal.
#[tactic(auto, unfolding(crate::specs::Text::units_of))]
fn units(alloc: Global, digits: &str) -> Result<Bytes, LineFault>
    ensures { ReadsAs result (units_of digits.now) }
{
    let units = bytes(alloc, digits)?.ok_or(Expected::Bytes)?;
    if units.len() > 252 || units.len() % 2 != 0 {
        return Err(LineFault::Bad(Problem::Packet));
    }
    let Ok(length) = u8::try_from(2 + units.len()) else {
        return Err(LineFault::Bad(Problem::Packet));
    };
    Ok(with_header(alloc, length, units.as_slice())?)
}

/// The string descriptor of a text: its words in ASCII, or `u:` and the units of UTF-16, each with its lower byte first.
#[tactic(auto, unfolding(crate::specs::Text::text_of))]
pub(crate) fn string_descriptor(alloc: Global, words: &[&str]) -> Result<Bytes, LineFault>
    ensures { ReadsAs result (text_of (words_of words.now)) }
{
    let [first, ..] = words else {
        return Err(LineFault::Bad(Problem::FirstWord));
    };
    match behind("u:", first) {
        Some(digits) => units(alloc, digits),
        None => string(alloc, words),
    }
}
