//! Why a line of a test is bad.

use std::alloc::{AllocError, Global};
use trace_scenario::{Finding, check};
use trace_test::{Expanded, scenario_text};

/// How many bytes of a line are shown at most.
const MOST_SHOWN: usize = 120;

/// A bad line of a test.
#[derive(Drop)]
pub struct BadLine {
    /// Its number, from 1.
    pub line: u64,
    /// Why it is bad, in a sentence.
    pub why: String,
}

/// The line of a text of this number, from 1; no text where there is none.
fn line_at(text: &[u8], number: u64) -> &[u8] {
    let mut at: u64 = 0;
    for line in text.split(|byte| *byte == b'\n') {
        at = at.saturating_add(1);
        if at == number {
            return line;
        }
    }
    b""
}

/// Whether a line of a scenario is what a line of a test says, in front of its arrow and its star.
fn is_said(own: &[u8], line: &[u8]) -> bool {
    match own.strip_prefix(line) {
        Some(rest) => rest.is_empty() || rest.starts_with(b" -> ") || rest.starts_with(b" *"),
        None => false,
    }
}

/// What is shown of a byte.
fn shown(byte: u8) -> char {
    if matches!(byte, b' '..=b'~') {
        char::from(byte)
    } else {
        '?'
    }
}

/// A line as a sentence shows it: cut where it is long, with `?` for each byte that isn't printable ASCII.
fn shown_line(alloc: Global, line: &[u8]) -> Result<String, AllocError> {
    let mut text = String::new(alloc);
    for byte in line.iter().take(MOST_SHOWN) {
        text.push(shown(*byte))?;
    }
    if line.len() > MOST_SHOWN {
        text.push_str("..")?;
    }
    Ok(text)
}

/// The sentence of a bad line of the scenario that a test stands for, which comes from this line of the test.
fn sentence(alloc: Global, own: &[u8], finding: &Finding<'_>) -> Result<String, AllocError> {
    if is_said(own, finding.text) {
        return format!(in alloc; "{finding}");
    }
    let line = shown_line(alloc, finding.text)?;
    format!(in alloc; "in its macro, `{line}`: {finding}")
}

/// The first bad line of a test, and why it is bad: the sentence that `check` has for it, behind the line itself where a macro stands for it. None
/// where no line is bad.
pub fn first_bad_line(alloc: Global, text: &[u8]) -> Result<Option<BadLine>, AllocError> {
    let expanded: Expanded = scenario_text(alloc, text)?;
    let findings = check(alloc, expanded.text.as_slice())?;
    let Some(finding) = findings.bad.first() else {
        return Ok(None);
    };
    let line = expanded.origin(finding.line);
    let why = sentence(alloc, line_at(text, line), finding)?;
    Ok(Some(BadLine { line, why }))
}
