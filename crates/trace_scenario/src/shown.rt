//! A word of a bad line, as a sentence shows it.

use std::fmt;

/// How many characters of a word are shown at most.
const MOST_SHOWN: usize = 24;

/// A word as it stands, cut to 24 characters with `..` behind where it is longer, and with `?` for each byte that isn't printable ASCII.
#[derive(Clone, Copy)]
pub struct ShownWord<'a>(pub &'a str);

impl fmt::Display for ShownWord<'_> {
    fn fmt<W: fmt::Write>(&self, f: &mut fmt::Formatter<W>) -> fmt::Result {
        let word = self.0;
        for byte in word.bytes().take(MOST_SHOWN) {
            f.write_char(shown(byte))?;
        }
        f.write_str(if word.len() > MOST_SHOWN { ".." } else { "" })
    }
}

/// What is shown of a byte.
fn shown(byte: u8) -> char {
    if matches!(byte, b' '..=b'~') {
        char::from(byte)
    } else {
        '?'
    }
}
