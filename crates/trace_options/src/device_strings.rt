//! The strings of a device, which Linux has in files beside that of its descriptors.

use crate::beside::read_beside;
use crate::statuses::{FAILED, tell_failure};
use std::alloc::{AllocError, Global};
use std::io::Write;
use std::rt::Files;

/// How many bytes the units of a string may have (USB 2.0, 9.6.7).
const LONGEST: usize = 252;

/// The index of a string, by its place in the device descriptor in front (USB 2.0, 9.6.1); 0 where there is none.
fn index_at(bytes: &[u8], place: usize) -> u8 {
    if bytes.len() < 18 || !bytes.starts_with(&[18, 1]) {
        return 0;
    }
    bytes.get(place).copied().unwrap_or(0)
}

/// Whether a text can stand in a line as it is: printable ASCII, which isn't read as units.
fn is_plain(text: &str) -> bool {
    !text.starts_with("u:")
        && text
            .as_bytes()
            .iter()
            .all(|byte| *byte == b' ' || byte.is_ascii_graphic())
}

/// The units of UTF-16 of a text, the lower byte of each first.
fn units_of(alloc: Global, text: &str) -> Result<Vec<u8>, AllocError> {
    let mut units = Vec::new(alloc);
    for unit in text.encode_utf16() {
        units.extend_from_slice(&unit.to_le_bytes())?;
    }
    Ok(units)
}

/// The line of a string; None where it has no index, or no text, or one that is too long.
fn string_line(alloc: Global, index: u8, text: &str) -> Result<Option<String>, AllocError> {
    let units = units_of(alloc, text)?;
    if index == 0 || units.is_empty() || units.len() > LONGEST {
        return Ok(None);
    }
    if is_plain(text) {
        return Ok(Some(format!(in alloc; "string 0 {index} {text}\n")?));
    }
    let digits = hex::encode(alloc, units.as_slice())?;
    Ok(Some(format!(in alloc; "string 0 {index} u:{digits}\n")?))
}

/// Puts the lines of a device's strings behind others, each index once.
pub fn put_strings<R: Files>(
    rt: &R,
    alloc: Global,
    file: &str,
    bytes: &[u8],
    lines: &mut Vec<u8>,
) -> Result<(), AllocError> {
    let mut told = Vec::new(alloc);
    for (place, name) in [(14, "manufacturer"), (15, "product"), (16, "serial")] {
        let index = index_at(bytes, place);
        if told.contains(&index) {
            continue;
        }
        told.push(index)?;
        let text = read_beside(rt, alloc, file, name)?;
        let text = String::from_utf8_lossy(alloc, text.as_slice())?;
        if let Some(line) = string_line(alloc, index, text.as_str())? {
            lines.extend_from_slice(line.as_bytes())?;
        }
    }
    Ok(())
}

/// Writes lines, and answers the status.
pub fn write_lines<W: Write, E: Write>(lines: &[u8], status: u8, out: &mut W, err: &mut E) -> u8 {
    let written = match out.write_all(lines) {
        Ok(()) => out.flush(),
        Err(error) => Err(error),
    };
    match written {
        Ok(()) => status,
        Err(error) => {
            tell_failure(&error, err);
            FAILED
        }
    }
}
