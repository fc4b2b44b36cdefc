//! What the lines of a test would have to expect, for it to pass.

use crate::difference::Difference;
use crate::expanded::Expanded;
use crate::expected::{expected, expected_left};
use crate::macros::unroll;
use crate::parts::parts_around;
use crate::ran::{Ran, run};
use crate::unmet::Unmet;
use std::alloc::{AllocError, Global};
use trace_io::Fault;
use usb_model::Bytes;
use usb_scripttext::words::says_nothing;

/// A line that expects something else than there is, and what there is.
#[derive(Drop)]
pub struct Correction {
    /// Its number, from 1.
    pub line: u64,
    /// What it expects.
    pub wanted: Bytes,
    /// What there is; `NOTHING` where there is nothing.
    pub got: Bytes,
    /// Whether it stands in the body of a macro, which the line of this number calls.
    pub is_within: bool,
}

/// The lines of a text.
fn lines_of(alloc: Global, text: &[u8]) -> Result<Vec<&[u8]>, AllocError> {
    text.split(|byte| *byte == b'\n').collect(alloc)
}

/// The line that expects what there is, in the place of one that differs.
fn right_line(alloc: Global, line: &[u8], difference: &Difference) -> Result<Vec<u8>, AllocError> {
    let front = match expected_left(line) {
        Some(_) => b"expect left ".as_slice(),
        None => b"expect ".as_slice(),
    };
    let mut right = front.to_vec(alloc)?;
    right.extend_from_slice(difference.got.as_slice())?;
    Ok(right)
}

/// Compares a line, and goes on as if it had expected what there is: how it differs, if it does.
fn compare_and_right<'a>(
    alloc: Global,
    unmet: &mut Unmet<'a>,
    at: u64,
    line: &[u8],
) -> Result<Option<Difference>, AllocError> {
    let before = unmet.again();
    let Some(difference) = unmet.compare(alloc, at, line)? else {
        return Ok(None);
    };
    *unmet = before;
    let right = right_line(alloc, line, &difference)?;
    let _ = unmet.compare(alloc, at, right.as_slice())?;
    Ok(Some(difference))
}

/// Adds a difference to others, if there is one.
fn add(differences: &mut Vec<Difference>, found: Option<Difference>) -> Result<(), AllocError> {
    if let Some(difference) = found {
        differences.push(difference)?;
    }
    Ok(())
}

/// The lines of a text that differ, each compared as if those before it had expected what there is.
fn differences(
    alloc: Global,
    text: &[u8],
    unmet: &mut Unmet<'_>,
) -> Result<Vec<Difference>, AllocError> {
    let mut differences = Vec::new(alloc);
    let mut at: u64 = 0;
    for line in text.split(|byte| *byte == b'\n') {
        at = at.saturating_add(1);
        let found = compare_and_right(alloc, unmet, at, line)?;
        add(&mut differences, found)?;
    }
    Ok(differences)
}

/// The lines of a test without macros that differ.
fn plain_differences(alloc: Global, text: &[u8]) -> Result<Vec<Difference>, Fault> {
    let Ran { printed, left } = run(alloc, text)?;
    let (printed, left) = (
        lines_of(alloc, printed.as_slice())?,
        lines_of(alloc, left.as_slice())?,
    );
    let mut unmet = Unmet::new(printed.as_slice(), left.as_slice());
    Ok(differences(alloc, text, &mut unmet)?)
}

/// The text of a line of this number, from 1; no text where there is none.
fn line_at<'a>(lines: &[&'a [u8]], number: u64) -> &'a [u8] {
    lines
        .get(number.saturating_sub(1) as usize)
        .copied()
        .unwrap_or(b"")
}

/// Whether a line has an arrow.
fn has_arrow(line: &[u8]) -> bool {
    !says_nothing(line) && expected(line).is_none() && parts_around(b" -> ", line).is_some()
}

/// Whether a line of what a test stands for comes from the body of a macro: no line of the test says it, and none with an arrow has it as its
/// last.
fn is_within(unrolled: &Expanded, plain: &[&[u8]], lines: &[&[u8]], number: u64) -> bool {
    let origin = unrolled.origin(number);
    let own = line_at(lines, origin);
    let is_last = unrolled.origin(number.saturating_add(1)) != origin;
    !is_last || (line_at(plain, number) != own && !has_arrow(own))
}

/// The corrections of differences, by the lines of the test.
fn by_origin(
    alloc: Global,
    text: &[u8],
    unrolled: &Expanded,
    differences: Vec<Difference>,
) -> Result<Vec<Correction>, AllocError> {
    let plain = lines_of(alloc, unrolled.text.as_slice())?;
    let lines = lines_of(alloc, text)?;
    let mut corrections = Vec::new(alloc);
    for difference in differences {
        let Difference { line, wanted, got } = difference;
        corrections.push(Correction {
            line: unrolled.origin(line),
            wanted,
            got,
            is_within: is_within(unrolled, plain.as_slice(), lines.as_slice(), line),
        })?;
    }
    Ok(corrections)
}

/// A fault of a test, where a bad line is told by the line that it comes from.
fn fault_of_test(unrolled: &Expanded, fault: Fault) -> Fault {
    match fault {
        Fault::Line(line) => Fault::Line(unrolled.origin(line)),
        _ => fault,
    }
}

/// The lines of a test that expect something else than there is, each compared as if those before it had expected what there is. A fault where a
/// line is bad, by its number in the test, or memory is refused.
pub fn corrections(alloc: Global, text: &[u8]) -> Result<Vec<Correction>, Fault> {
    let unrolled = unroll(alloc, text)?;
    match plain_differences(alloc, unrolled.text.as_slice()) {
        Ok(differences) => Ok(by_origin(alloc, text, &unrolled, differences)?),
        Err(fault) => Err(fault_of_test(&unrolled, fault)),
    }
}
