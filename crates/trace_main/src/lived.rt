//! The scenario of a text that is run in threads.

ghost use Rattle.std.specs.Prelude.{◌≡◌, ◌==◌, IfOk, IfSome, Some};
ghost use Rattle.std.specs.List.{list_any, slice_split};
ghost use Rattle.trace_scenario.specs.Line.{line_of_text};
ghost use Rattle.usb_scripttext.specs.Results.{AnswersAs};
ghost use Rattle.trace_scenario.specs.Runnable.{IsRunnable};
ghost use Rattle.trace_main.specs.Lived.{first_unlived, is_unlived, is_unlived_piece, lived_in, lived_of};
ghost use Rattle.trace_main.specs.Source.{IsReadAs, IsReadFirst};

use crate::source::{Source, scenario_of};
use std::alloc::{AllocError, Global};
use trace_scenario::{Line, Lined, Scenario};
use usb_model::{Plan, Step};
use usb_scripttext::{LineFault, TextFault};

/// Whether a piece of a plan is what no handle's thread does: the end of a transfer's time, or of a device.
fn is_unlived_piece(piece: &Plan) -> bool
    ensures { result ≡ is_unlived_piece piece.now }
{
    matches!(piece, Plan::Do(Step::Expire { .. } | Step::Unplug { .. }))
}

/// Whether what a line says is such a piece.
fn is_unlived(line: &Line) -> bool
    ensures { result ≡ is_unlived (Some line.now) }
{
    match line {
        Line::Piece(piece) => is_unlived_piece(piece),
        _ => false,
    }
}

/// Whether a plan has such a piece.
fn has_unlived(plan: &[Plan]) -> bool
    ensures { result ≡ list_any is_unlived_piece plan.now }
{
    plan.iter().any(|piece| is_unlived_piece(piece))
}

/// The same of a line's text. An error where memory is refused.
fn says_unlived(alloc: Global, text: &[u8]) -> Result<bool, AllocError>
    ensures { IfOk result (λ says. says ≡ is_unlived (line_of_text text.now)) }
{
    match Line::from_text(alloc, text) {
        Ok(line) => Ok(is_unlived(&line)),
        Err(LineFault::Bad(_)) => Ok(false),
        Err(LineFault::Memory) => Err(AllocError),
    }
}

/// The number of the first such line, from 1 on.
fn first_unlived(alloc: Global, text: &[u8]) -> Result<Option<u64>, AllocError>
    ensures { IfOk result (λ found. found ≡ first_unlived 1 (slice_split (λ b. b == 10) text.now)) }
{
    let mut at: u64 = 0;
    for line in text.split(|byte| *byte == b'\n') {
        at = at.saturating_add(1);
        if says_unlived(alloc, line)? {
            return Ok(Some(at));
        }
    }
    Ok(None)
}

/// The same. Where the scenario was read first and its plan has no such piece, no line is looked at.
fn first_unlived_behind(
    alloc: Global,
    text: &[u8],
    first: &Option<Lined<'_>>,
) -> Result<Option<u64>, AllocError>
    requires { IfSome first.now (IsReadAs text.now) }
    ensures { IfOk result (λ found. found ≡ first_unlived 1 (slice_split (λ b. b == 10) text.now)) }
{
    match first {
        Some(read) if !has_unlived(read.scenario.plan.as_slice()) => Ok(None),
        _ => first_unlived(alloc, text),
    }
}

/// The scenario of a text, or the number of its first line that isn't taken, or asks for what no handle's thread does.
/// What it gives can be run.
fn read_lived(alloc: Global, text: &[u8], first: Option<Lined<'_>>) -> Result<Scenario, TextFault>
    requires { IfSome first (IsReadAs text.now) }
    ensures scenario { AnswersAs result (lived_of text.now) }
    ensures runnable { IfOk result (λ s. IsRunnable s) }
{
    let Ok(unlived) = first_unlived_behind(alloc, text, &first) else {
        return Err(TextFault::Memory);
    };
    match (unlived, scenario_of(alloc, text, first)) {
        (None, read) => read,
        (Some(at), Ok(_)) => Err(TextFault::Line(at)),
        (Some(at), Err(TextFault::Line(line))) => Err(TextFault::Line(line.min(at))),
        (Some(_), Err(TextFault::Memory)) => Err(TextFault::Memory),
    }
}

/// The same of what a text stands for; a bad line is told as the text has it.
#[tactic(auto, using(crate::proofs::Sources::told_good, crate::proofs::Sources::told_bad))]
pub(crate) fn lived(
    alloc: Global,
    source: &Source<'_>,
    first: Option<Lined<'_>>,
) -> Result<Scenario, TextFault>
    requires { IsReadFirst source.now first }
    ensures scenario { AnswersAs result (lived_in source.now) }
    ensures runnable { IfOk result (λ s. IsRunnable s) }
{
    match read_lived(alloc, source.text(), first) {
        Ok(scenario) => Ok(scenario),
        Err(TextFault::Line(line)) => Err(TextFault::Line(source.number(line))),
        Err(TextFault::Memory) => Err(TextFault::Memory),
    }
}
