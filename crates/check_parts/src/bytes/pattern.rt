//! Texts that leave something open.

use std::alloc::{AllocError, Global};

/// A text in which `#` stands for a number.
pub fn numbered(alloc: Global, text: &str, number: &str) -> Result<String, AllocError> {
    let parts: Vec<&str> = text.split('#').collect(alloc)?;
    parts.as_slice().join(alloc, number)
}

/// Whether a text is what a pattern says, in which `*` at its end stands for any that are left.
pub fn fits(text: &[u8], pattern: &[u8]) -> bool {
    match pattern {
        [begin @ .., b'*'] => text.starts_with(begin),
        _ => text == pattern,
    }
}
