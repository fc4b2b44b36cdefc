//! A worked row, as it stands in the text of all of them.

use bstr::ByteSlice;

/// What stands before each row's name.
pub const MARK: &[u8] = b"=== ";

/// What the program is given.
#[derive(Clone, Copy)]
pub struct Row<'a> {
    /// Its name.
    pub name: &'a str,
    /// The program's words, between single spaces, its name first.
    pub words: &'a str,
    /// What stands on standard input. Not all of it need be text.
    pub input: &'a [u8],
}

/// The text before a line feed, and what follows it.
fn first_line(text: &[u8]) -> Option<(&str, &[u8])> {
    let (line, rest) = text.split_once_str(b"\n")?;
    Some((line.to_str().ok()?, rest))
}

/// The row of a text that begins with its name. None where the text isn't a row's.
pub fn read_row(text: &[u8]) -> Option<Row<'_>> {
    let (name, rest) = first_line(text)?;
    let (words, input) = first_line(rest)?;
    Some(Row { name, words, input })
}
