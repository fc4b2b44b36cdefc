//! Whole files, and what stands beside Linux's file of a device's descriptors.

use std::alloc::{AllocError, Global};
use std::fs;
use std::rt::Files;
use trace_io::{Fault, read_whole};

/// The name of Linux's file of a device's descriptors: beside one of this name its texts stand too.
const DESCRIPTORS: &str = "descriptors";

/// All bytes of a file.
pub fn read_file<R: Files>(rt: &R, alloc: Global, file: &str) -> Result<Vec<u8>, Fault> {
    let mut input = fs::open(rt, file)?;
    read_whole(alloc, &mut input)
}

/// Bytes without line feeds at their ends.
fn without_ends(text: &[u8]) -> &[u8] {
    let mut rest = text;
    for _ in 0..text.len() {
        match rest {
            [b'\n', behind @ ..] => rest = behind,
            [front @ .., b'\n'] => rest = front,
            _ => return rest,
        }
    }
    rest
}

/// What a file beside that of the descriptors says; nothing where it isn't there.
pub fn read_beside<R: Files>(
    rt: &R,
    alloc: Global,
    file: &str,
    name: &str,
) -> Result<Vec<u8>, AllocError> {
    let Some(folder) = file.strip_suffix(DESCRIPTORS) else {
        return Ok(Vec::new(alloc));
    };
    if !folder.is_empty() && !folder.ends_with('/') {
        return Ok(Vec::new(alloc));
    }
    let beside = format!(in alloc; "{folder}{name}")?;
    match read_file(rt, alloc, beside.as_str()) {
        Ok(text) => Ok(Vec::from_slice(alloc, without_ends(text.as_slice()))?),
        Err(_) => Ok(Vec::new(alloc)),
    }
}
