//! Lines, and the words that they are made of.

ghost use Rattle.std.specs.Prelude.{◌≡◌, IfOk, None, Some, if◌then◌else◌};
ghost use Rattle.std.specs.Option.{option_copied, option_map};
ghost use Rattle.usb_scripttext.specs.Words.{is_ascii, ascii_of, says_nothing, words_in, words_of};

use std::alloc::AllocError;
use std::str;

/// Whether a line is empty or a comment.
pub fn says_nothing(text: &[u8]) -> bool
    ensures { result ≡ says_nothing text.now }
{
    matches!(text, [] | [b'#', ..])
}

/// Cuts a text into its words, where it is all ASCII: whether it is. They are kept where those of the text before stood, so
/// that many lines share that memory.
pub fn cut<'a>(text: &'a [u8], words: &mut Vec<&'a str>) -> Result<bool, AllocError>
    ensures { IfOk result (λ cut. option_map words_in (ascii_of text.now) ≡ (if cut then Some (words_of words.new.items) else None)) }
{
    if !is_ascii(text) {
        return Ok(false);
    }
    words.clear();
    for word in text.split(|byte| *byte == b' ') {
        // A part of what is all ASCII is a text; to ask `from_utf8` would be one more look at each byte.
        words.push(unsafe { str::from_utf8_unchecked(word) })?;
    }
    Ok(true)
}

/// Whether bytes are all ASCII.
fn is_ascii(bytes: &[u8]) -> bool
    ensures { result ≡ is_ascii bytes.now }
{
    bytes.is_ascii()
}

/// The text of bytes that are all ASCII.
pub fn ascii(bytes: &[u8]) -> Option<&str>
    ensures { option_copied result ≡ ascii_of bytes.now }
{
    if is_ascii(bytes) {
        str::from_utf8(bytes).ok()
    } else {
        None
    }
}
