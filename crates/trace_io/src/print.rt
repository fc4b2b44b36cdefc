//! Printed lines.

ghost use Rattle.std.specs.Prelude.{◌≡◌, ◌-◌, ℕ, List, length, map, take, string_bytes, IfErr, IfOk, OnErr, OnOk};
ghost use Rattle.std.specs.Io.KnownBytes.{Appends};
ghost use Rattle.usb_model.specs.Text.{lines_text};
ghost use Rattle.trace_io.specs.Faults.{IsOfRun};
ghost use Rattle.trace_io.specs.Output.{finding_text, last_lines, most_findings, AppendsFindings, AppendsReport, AppendsSome, AppendsSomeFindings, AppendsSomeReport};

use crate::fault::Fault;
use crate::lines::Lines;
use crate::write::write_bytes;
use std::alloc::{AllocError, Global};
use std::io::Write;
use trace_scenario::{Counts, Finding, Findings, ShownWord};
use usb_devicetext::{LineReason, line_complaint};
use usb_model::Entry;
use usb_scripttext::words::ascii;

/// Of how many bad lines a line is printed at most.
const MOST_FINDINGS: usize = 1_000;

/// Prints the entries, one line each and many lines a write. Where that fails, a beginning of their text is printed.
pub fn print<W: Write>(alloc: Global, out: &mut W, entries: &[Entry]) -> Result<(), Fault>
    ensures lines { OnOk result (Appends (W.contents out.old) (W.contents out.new) (lines_text entries.now)) }
    ensures begun { AppendsSome (lines_text entries.now) (W.contents out.old) (W.contents out.new) }
    ensures fault { IfErr result (λ fault. IsOfRun fault) }
{
    let mut lines = Lines::new(alloc);
    for entry in entries {
        lines.put(out, entry)?;
    }
    lines.end(out)
}

/// Prints what a check found: a line for each bad line, of the first 1,000; how many more there are, if so; and then the counts. Where
/// that fails, a beginning of it is printed.
pub fn print_findings<W: Write>(
    alloc: Global,
    out: &mut W,
    findings: &Findings<'_>,
) -> Result<(), Fault>
    ensures report { OnOk result (AppendsReport (map (λ finding. finding.line) findings.now.bad.items) findings.now.counts
        (W.contents out.old) (W.contents out.new)) }
    ensures begun { AppendsSomeReport (map (λ finding. finding.line) findings.now.bad.items) findings.now.counts (W.contents out.old) (W.contents out.new) }
    ensures fault { IfErr result (λ fault. IsOfRun fault) }
{
    let bad = findings.bad.as_slice();
    print_bad(alloc, out, told_of(bad))?;
    print_last(alloc, out, untold_of(bad), &findings.counts)?;
    out.flush()?;
    Ok(())
}

/// The bad lines that are told.
fn told_of<'a, 'b>(bad: &'a [Finding<'b>]) -> &'a [Finding<'b>]
    ensures { map (λ finding. finding.line) result.now ≡ take most_findings (map (λ finding. finding.line) bad.now) }
{
    &bad[..MOST_FINDINGS.min(bad.len())]
}

/// How many bad lines aren't told.
fn untold_of(bad: &[Finding<'_>]) -> usize
    ensures { result ≡ length (map (λ finding. finding.line) bad.now) - most_findings }
{
    bad.len().saturating_sub(MOST_FINDINGS)
}

/// Prints the bad lines, one line each.
fn print_bad<W: Write>(alloc: Global, out: &mut W, bad: &[Finding<'_>]) -> Result<(), Fault>
    ensures lines { OnOk result (AppendsFindings (map (λ finding. finding.line) bad.now) (W.contents out.old) (W.contents out.new)) }
    ensures begun { OnErr result (AppendsSomeFindings (map (λ finding. finding.line) bad.now) (W.contents out.old) (W.contents out.new)) }
    ensures fault { IfErr result (λ fault. IsOfRun fault) }
{
    for finding in bad {
        print_finding(alloc, out, finding)?;
    }
    Ok(())
}

/// The word of a line that a reason is about, if it is about one.
fn word_of(line: &[u8], reason: LineReason) -> Option<&str> {
    ascii(line)?.split(' ').nth(reason.place()?)
}

/// Why a line isn't taken that says something of a device, behind the word that this is about.
fn device_sentence(alloc: Global, line: &[u8], reason: LineReason) -> Result<String, AllocError> {
    let Some(word) = word_of(line, reason) else {
        return format!(in alloc; "{reason}");
    };
    let word = ShownWord(word);
    format!(in alloc; "`{word}`: {reason}")
}

/// What is wrong with a bad line: of one that says something of a device as texts of devices have it.
fn sentence_of(alloc: Global, finding: &Finding<'_>) -> Result<String, AllocError> {
    match line_complaint(alloc, finding.text) {
        Ok(Some(reason)) => device_sentence(alloc, finding.text, reason),
        Ok(None) => finding.to_string(alloc),
        Err(error) => Err(error),
    }
}

/// Prints a bad line's number and what is wrong with it.
fn print_finding<W: Write>(alloc: Global, out: &mut W, finding: &Finding<'_>) -> Result<(), Fault>
    ensures line { OnOk result ((sentence : List ℕ) × Appends (W.contents out.old) (W.contents out.new) (finding_text (finding.now.line, sentence))) }
    ensures begun { OnErr result ((sentence : List ℕ) × AppendsSome (finding_text (finding.now.line, sentence)) (W.contents out.old) (W.contents out.new)) }
    ensures fault { IfErr result (λ fault. IsOfRun fault) }
{
    let told = sentence_of(alloc, finding)?;
    let (number, sentence) = (finding.line, told.as_str());
    let line = format!(in alloc; "line {number}: {sentence}\n")?;
    write_bytes(out, line.as_bytes())
}

/// How many more bad lines there are, if there are any, and the counts. An error where memory is refused.
fn last_lines(alloc: Global, more: usize, counts: &Counts) -> Result<String, AllocError>
    ensures { IfOk result (λ lines. string_bytes lines ≡ last_lines more counts.now) }
{
    if more == 0 {
        return format!(in alloc; "{counts}\n");
    }
    format!(in alloc; "more bad lines: {more}\n{counts}\n")
}

/// Prints how many more bad lines there are, if there are any, and the counts.
fn print_last<W: Write>(
    alloc: Global,
    out: &mut W,
    more: usize,
    counts: &Counts,
) -> Result<(), Fault>
    ensures lines { OnOk result (Appends (W.contents out.old) (W.contents out.new) (last_lines more counts.now)) }
    ensures begun { OnErr result (AppendsSome (last_lines more counts.now) (W.contents out.old) (W.contents out.new)) }
    ensures fault { IfErr result (λ fault. IsOfRun fault) }
{
    let lines = last_lines(alloc, more, counts)?;
    write_bytes(out, lines.as_bytes())
}
