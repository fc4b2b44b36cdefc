//! Texts from outside, as they may stand in SVG and HTML.

use std::alloc::{AllocError, Global};

/// How many bytes of a text are shown.
const LONGEST: usize = 200;

/// A text, printable and without the characters that SVG and HTML reserve. Of a long one the beginning, and three dots.
pub fn escaped(alloc: Global, text: &[u8]) -> Result<String, AllocError> {
    let mut shown = String::new(alloc);
    for byte in text.iter().take(LONGEST) {
        push(&mut shown, *byte)?;
    }
    if text.len() > LONGEST {
        shown.push_str(" ...")?;
    }
    Ok(shown)
}

/// Adds a byte: what is reserved by its name, and what isn't printable ASCII as a question mark.
fn push(shown: &mut String, byte: u8) -> Result<(), AllocError> {
    match byte {
        b'&' => shown.push_str("&amp;"),
        b'<' => shown.push_str("&lt;"),
        b'>' => shown.push_str("&gt;"),
        b'"' => shown.push_str("&quot;"),
        b'\'' => shown.push_str("&#39;"),
        b' '..=b'~' => shown.push(char::from(byte)),
        _ => shown.push('?'),
    }
}
