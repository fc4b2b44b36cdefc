//! Whether a test expects anything.

use std::alloc::{AllocError, Global};
use trace_test::{Expanded, unroll};
use usb_scripttext::words::says_nothing;

/// Whether a line says which packets a device expects.
fn expects_packets(line: &[u8]) -> bool {
    (line.starts_with(b"script ") || line.starts_with(b"feed "))
        && line
            .split(|byte| *byte == b' ')
            .any(|word| word.starts_with(b"a:"))
}

/// Whether a line of a test without macros and arrows expects something.
fn expects(line: &[u8]) -> bool {
    line.starts_with(b"expect ") || expects_packets(line)
}

/// Whether an argument of a macro may make a line one that expects something: it stands in the line's first word, or in a word of a device's
/// answers.
fn is_filled(line: &[u8]) -> bool {
    let mut words = line.split(|byte| *byte == b' ');
    match words.next() {
        Some(first) if first.contains(&b'$') => true,
        Some(b"script" | b"feed") => line.contains(&b'$'),
        _ => false,
    }
}

/// Whether a line may stand for one that expects something: it does so itself, it has an arrow, or a macro may make it one.
fn may_expect(line: &[u8]) -> bool {
    let has_arrow = line.windows(4).any(|part| part == b" -> ".as_slice());
    expects(line) || is_filled(line) || (has_arrow && !says_nothing(line))
}

/// Whether no line of a test expects something: what a step prints, what is left, or which packets are written. A macro's body counts where it is
/// called; so what a test stands for is looked at only where one of its lines may expect something.
pub fn expects_nothing(alloc: Global, text: &[u8]) -> Result<bool, AllocError> {
    if !text
        .split(|byte| *byte == b'\n')
        .any(|line| may_expect(line))
    {
        return Ok(true);
    }
    let unrolled: Expanded = unroll(alloc, text)?;
    let mut lines = unrolled.text.as_slice().split(|byte| *byte == b'\n');
    Ok(!lines.any(|line| expects(line)))
}
