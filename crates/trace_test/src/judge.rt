//! A test, and what came of it.

ghost use Rattle.std.specs.Prelude.{◌≡◌, ◌++◌, [], IfErr, IfOk, Ok, length, map};
ghost use Rattle.std.specs.List.{flat_map};
ghost use Rattle.std.specs.Option.{option_map};
ghost use Rattle.trace_test.specs.declared.difference.TestOutcome.TheVariants.{Differs};
ghost use Rattle.trace_io.specs.Faults.{IsOfRun};
ghost use Rattle.trace_scenario.specs.StepLines.{numbered};
ghost use Rattle.trace_scenario.specs.Scenario.{scenario_of};
ghost use Rattle.trace_scenario.specs.declared.scenario.Scenario.{Scenario};
ghost use Rattle.trace_judged.specs.Text.{unexpected_by};
ghost use Rattle.trace_test.specs.Comparison.{all_of, difference_from, texts_of};
ghost use Rattle.trace_test.specs.Expanded.{lines_in, origin_of};
ghost use Rattle.trace_test.specs.Tests.{IsOfPlainTest, IsOfTest, IsOutcome, IsPlainOutcome, by_origin, fault_by_origin, hides, outcome_by, outcome_text, packet_by_origin, seen, visible};

use crate::difference::{Difference, TestOutcome};
use crate::expanded::{Expanded, expand};
use crate::macros::unroll;
use crate::ran::{left_for, printed};
use crate::unmet::Unmet;
use std::alloc::{AllocError, Global};
use trace_io::Fault;
use trace_judged::{Unexpected, expectations, unexpected_in};
use trace_scenario::{Lined, NumberedLine, read_lined, read_scenario};
use usb_scripttext::TextFault;

/// For each step's line of the scenario, the number of the line of the test that it comes from, and no text.
pub(crate) fn origin_lines<'a>(
    alloc: Global,
    expanded: &Expanded,
    lines: &[NumberedLine<'_>],
) -> Result<Vec<NumberedLine<'a>>, AllocError>
    ensures { IfOk result (λ origins. map numbered origins.items ≡ map (λ line. (origin_of expanded.now line.0, [])) (map numbered lines.now)) }
{
    let mut origins = Vec::new(alloc);
    for line in lines {
        origins.push(NumberedLine {
            number: expanded.origin(line.number),
            text: b"",
        })?;
    }
    Ok(origins)
}

/// The lines of a text.
pub(crate) fn lines_in(alloc: Global, text: &[u8]) -> Result<Vec<&[u8]>, AllocError>
    ensures { IfOk result (λ lines. texts_of lines.items ≡ lines_in text.now) }
{
    text.split(|byte| *byte == b'\n').collect(alloc)
}

/// The first line of a text that differs.
fn difference(
    alloc: Global,
    text: &[u8],
    unmet: &mut Unmet<'_>,
) -> Result<Option<Difference>, AllocError>
    ensures { IfOk result (λ d. d ≡ difference_from 1 (lines_in text.now) unmet.old) }
{
    let mut at: u64 = 0;
    for line in text.split(|byte| *byte == b'\n') {
        at = at.saturating_add(1);
        if let Some(difference) = unmet.compare(alloc, at, line)? {
            return Ok(Some(difference));
        }
    }
    Ok(None)
}

/// What came of a test whose run printed and left this, and of which this is told.
fn outcome(
    alloc: Global,
    text: &[u8],
    printed: &[u8],
    left: &[u8],
    unexpected: Option<Unexpected>,
) -> Result<TestOutcome, AllocError>
    ensures { IfOk result (λ o. o ≡ outcome_by (difference_from 1 (lines_in text.now) (all_of printed.now left.now)) unexpected) }
{
    let (printed, left) = (lines_in(alloc, printed)?, lines_in(alloc, left)?);
    let mut unmet = Unmet::new(printed.as_slice(), left.as_slice());
    match (difference(alloc, text, &mut unmet)?, unexpected) {
        (Some(difference), _) => Ok(TestOutcome::Differs(difference)),
        (None, None) => Ok(TestOutcome::Passed),
        (None, Some(unexpected)) => Ok(TestOutcome::Unexpected(unexpected)),
    }
}

/// The first packet that differs, if one does, told by the line that its line comes from.
fn packet_by_origin(
    unrolled: &Expanded,
    first: Option<trace_judged::Difference>,
) -> Option<trace_judged::Difference>
    ensures { result ≡ option_map (packet_by_origin unrolled.now) first }
{
    match first {
        Some(first) => Some(trace_judged::Difference {
            line: unrolled.origin(first.line),
            ..first
        }),
        None => None,
    }
}

/// What came of a test, where a difference is told by the line that its line comes from.
fn by_origin(unrolled: &Expanded, outcome: TestOutcome) -> TestOutcome
    ensures { result ≡ by_origin unrolled.now outcome }
{
    match outcome {
        TestOutcome::Passed => TestOutcome::Passed,
        TestOutcome::Differs(difference) => TestOutcome::Differs(Difference {
            line: unrolled.origin(difference.line),
            ..difference
        }),
        TestOutcome::Unexpected(unexpected) => TestOutcome::Unexpected(Unexpected {
            first: packet_by_origin(unrolled, unexpected.first),
            missing: unexpected.missing,
            total: unexpected.total,
        }),
    }
}

/// A fault of a test, where a bad line is told by the line that it comes from.
fn fault_by_origin(unrolled: &Expanded, fault: Fault) -> Fault
    ensures { result ≡ fault_by_origin unrolled.now fault }
{
    match fault {
        Fault::Line(line) => Fault::Line(unrolled.origin(line)),
        _ => fault,
    }
}

/// What is told of what the run of a test's scenario wrote: it is made for that only where its scripts expect something. The numbers are
/// those of its steps' lines. A fault where memory is refused.
fn written(
    alloc: Global,
    expanded: &Expanded,
    origins: &[NumberedLine<'_>],
) -> Result<Option<Unexpected>, AllocError>
    requires each { (s : Scenario) → scenario_of expanded.now.text ≡ Ok s → length origins.now ≡ length s.plan }
    ensures { IfOk result (λ u. (s : Scenario) → scenario_of expanded.now.text ≡ Ok s → u ≡ unexpected_by expanded.now.text s (map numbered origins.now)) }
{
    let Some(expected) = expectations(alloc, expanded.text.as_slice())? else {
        return Ok(None);
    };
    let Ok(scenario) = read_scenario(alloc, expanded.text.as_slice()) else {
        return Err(AllocError);
    };
    unexpected_in(alloc, expected.as_slice(), scenario, origins)
}

/// What came of a test without macros. Its scenario is run once, and once more for what is left or was written only where its lines expect
/// something of that. A fault where a line is bad, by its number, or memory is refused.
fn judge(alloc: Global, text: &[u8]) -> Result<TestOutcome, Fault>
    ensures outcome { IfOk result (IsPlainOutcome text.now) }
    ensures fault { IfErr result (IsOfPlainTest text.now) }
{
    let expanded = expand(alloc, text)?;
    let Lined {
        scenario,
        lines,
        ..
    } = match read_lined(alloc, expanded.text.as_slice()) {
        Ok(read) => read,
        Err(TextFault::Line(line)) => return Err(Fault::Line(expanded.origin(line))),
        Err(TextFault::Memory) => return Err(Fault::Memory),
    };
    let origins = origin_lines(alloc, &expanded, lines.as_slice())?;
    let printed = printed(alloc, scenario, origins.as_slice())?;
    let left = left_for(alloc, text, &expanded)?;
    let unexpected = written(alloc, &expanded, origins.as_slice())?;
    let (printed, left) = (printed.as_slice(), left.as_slice());
    Ok(outcome(alloc, text, printed, left, unexpected)?)
}

/// Runs a test: what came of it. A fault where a line is bad, by its number in the test, or memory is refused. What a call of a macro
/// stands for is told by the number of the call's line.
#[tactic(auto, using(crate::proofs::Judged::outcome_told, crate::proofs::Judged::fault_told))]
pub fn test(alloc: Global, text: &[u8]) -> Result<TestOutcome, Fault>
    ensures outcome { IfOk result (IsOutcome text.now) }
    ensures fault { IfErr result (IsOfTest text.now) }
{
    let unrolled = unroll(alloc, text)?;
    match judge(alloc, unrolled.text.as_slice()) {
        Ok(outcome) => Ok(by_origin(&unrolled, outcome)),
        Err(fault) => Err(fault_by_origin(&unrolled, fault)),
    }
}

/// The text of what came of a test. An error where memory is refused.
pub fn report(alloc: Global, outcome: &TestOutcome) -> Result<Vec<u8>, AllocError>
    ensures { IfOk result (λ text. text.items ≡ outcome_text outcome.now) }
{
    let mut text = Vec::new(alloc);
    match outcome {
        TestOutcome::Passed => text.extend_from_slice(b"passed\n")?,
        TestOutcome::Differs(d) => put_difference(alloc, &mut text, d)?,
        TestOutcome::Unexpected(unexpected) => text = unexpected.lines(alloc)?,
    }
    Ok(text)
}

/// Whether a reader would miss something of a text: a carriage return, or a space at its end.
fn hides(text: &[u8]) -> bool
    ensures { result ≡ hides text.now }
{
    text.contains(&b'\r') || text.ends_with(b" ")
}

/// Puts a byte that is seen behind a text.
fn put_seen(text: &mut Vec<u8>, byte: u8) -> Result<(), AllocError>
    ensures { IfOk result (λ _. text.new.items ≡ text.old.items ++ seen byte) }
{
    if byte == b'\r' {
        text.extend_from_slice(b"\\r")?;
    } else {
        text.push(byte)?;
    }
    Ok(())
}

/// Puts the bytes of one text, each seen, behind another.
fn put_bytes(text: &mut Vec<u8>, bytes: &[u8]) -> Result<(), AllocError>
    ensures { IfOk result (λ _. text.new.items ≡ text.old.items ++ flat_map seen bytes.now) }
{
    for byte in bytes {
        put_seen(text, *byte)?;
    }
    Ok(())
}

/// Puts a text that is seen as it is behind another: between double quotes, where a reader would miss something of it.
fn put_visible(text: &mut Vec<u8>, told: &[u8]) -> Result<(), AllocError>
    ensures { IfOk result (λ _. text.new.items ≡ text.old.items ++ visible told.now) }
{
    if !hides(told) {
        text.extend_from_slice(told)?;
        return Ok(());
    }
    text.push(b'"')?;
    put_bytes(text, told)?;
    text.push(b'"')?;
    Ok(())
}

/// Puts the text of a difference behind another.
fn put_difference(
    alloc: Global,
    text: &mut Vec<u8>,
    difference: &Difference,
) -> Result<(), AllocError>
    ensures { IfOk result (λ _. text.new.items ≡ text.old.items ++ outcome_text (Differs difference.now)) }
{
    let front = format!(in alloc; "line {} differs\n  wanted ", difference.line)?;
    text.extend_from_slice(front.as_bytes())?;
    put_visible(text, difference.wanted.as_slice())?;
    text.extend_from_slice(b"\n  got    ")?;
    put_visible(text, difference.got.as_slice())?;
    text.push(b'\n')?;
    Ok(())
}
