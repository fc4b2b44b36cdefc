//! The entries of a run, each printed behind the line of its step.

ghost use Rattle.std.specs.Prelude.{◌≡◌, ◌≢◌, ◌++◌, true, false, length, map, is_some, IfErr, IfOk, OnErr};
ghost use Rattle.std.specs.List.{AllByRecursion, count_by};
ghost use Rattle.std.specs.Vec.Iter.{into_iter_items};
ghost use Rattle.usb_model.specs.declared.verdict.Rule.TheVariants.{Free};
ghost use Rattle.usb_model.specs.World.Plans.{is_submission};
ghost use Rattle.usb_core.specs.Public.{setup_of};
ghost use Rattle.usb_plans.specs.PlanRuns.{entries_of, is_verdict};
ghost use Rattle.trace_io.specs.Faults.{IsOfRun};
ghost use Rattle.trace_io.specs.Output.{AppendsSome};
ghost use Rattle.trace_scenario.specs.StepLines.{numbered};
ghost use Rattle.trace_run.specs.Printed.{BeginsPiece, CanStart, PrintsPiece, PrintsText, Puts};
ghost use Rattle.trace_run.specs.Stepwise.{piece_text, stepwise_text, BeginsSteps, PrintsSteps};

use crate::lines::{Parts, Reach, write_rest};
use std::alloc::{AllocError, Global};
use std::io::Write;
use std::vec::IntoIter;
use trace_io::{Fault, Lines, add_behind};
use trace_scenario::NumberedLine;
use usb_core::Callback;
use usb_device::Device;
use usb_model::{Plan, Sequence};
use usb_plans::{Performed, PlanRun, next_callback};

/// The entries of a piece, each behind the piece's line.
#[tactic(auto, unfolding(crate::specs::Stepwise::piece_text))]
fn text_of<C>(
    alloc: Global,
    number: u64,
    line: &[u8],
    performed: &Performed<C>,
) -> Result<Vec<u8>, AllocError>
    ensures { IfOk result (λ text. text.items ≡ piece_text (number, line.now) (entries_of performed.now)) }
{
    let mut text = Vec::new(alloc);
    add_behind(alloc, &mut text, number, line, &performed.entry)?;
    if let Some(stop) = &performed.stop {
        add_behind(alloc, &mut text, number, line, stop)?;
    }
    Ok(text)
}

/// Puts the entries of a piece behind the others, each behind the piece's line. Nothing is put where memory is refused.
fn put_behind<C, W: Write>(
    alloc: Global,
    number: u64,
    line: &[u8],
    performed: &Performed<C>,
    lines: &mut Lines,
    out: &mut W,
) -> Result<Reach, Fault>
    ensures put { IfOk result (λ reach. Puts reach (piece_text (number, line.now) (entries_of performed.now)) lines.old lines.new (W.contents out.old) (W.contents out.new)) }
    ensures begun { OnErr result (AppendsSome (lines.old ++ piece_text (number, line.now) (entries_of performed.now)) (W.contents out.old) (W.contents out.new)) }
    ensures fault { IfErr result (λ fault. IsOfRun fault) }
{
    let Ok(text) = text_of(alloc, number, line, performed) else {
        return Ok(Reach::NoMemory);
    };
    lines.put_text(out, text.as_slice())?;
    Ok(Reach::End)
}

/// Performs a piece of a plan, and puts its entries behind the others, each behind the piece's line. Nothing is put
/// where memory is refused.
fn print_behind<C: Callback, D: Device, W: Write>(
    alloc: Global,
    run: &mut PlanRun<C, D>,
    piece: Plan,
    callback: Option<C>,
    number: u64,
    line: &[u8],
    lines: &mut Lines,
    out: &mut W,
) -> Result<Reach, Fault>
    requires submits { is_submission piece ≡ true → is_some callback ≡ true }
    requires no_verdict { is_verdict piece ≡ false }
    ensures printed { IfOk result (λ reach. PrintsPiece C.rule (piece_text (number, line.now)) reach run.old piece callback run.new lines.old lines.new (W.contents out.old) (W.contents out.new)) }
    ensures begun { OnErr result (BeginsPiece C.rule (piece_text (number, line.now)) run.old piece callback run.new lines.old (W.contents out.old) (W.contents out.new)) }
    ensures fault { IfErr result (λ fault. IsOfRun fault) }
{
    let Ok(performed) = run.perform(piece, callback) else {
        return Ok(Reach::NoMemory);
    };
    let reach = put_behind(alloc, number, line, &performed, lines, out)?;
    Ok(reach)
}

/// Performs the pieces of a plan that stands at its beginning, and prints their entries as far as the run comes, each behind
/// its piece's line. The run is lent, since each way out of its owner drops the core, which is dear to prove.
fn print_steps<C: Callback, D: Device, W: Write>(
    alloc: Global,
    run: &mut PlanRun<C, D>,
    left: &mut IntoIter<C>,
    plan: Sequence<Plan>,
    step_lines: &[NumberedLine<'_>],
    out: &mut W,
) -> Result<Reach, Fault>
    requires each { length step_lines.now ≡ length plan }
    requires start { CanStart C.rule plan run.old (into_iter_items left.old) }
    ensures lines { IfOk result (λ reach. PrintsSteps C.rule reach plan (map numbered step_lines.now) run.old (into_iter_items left.old) (W.contents out.old) (W.contents out.new)) }
    ensures begun { BeginsSteps C.rule plan (map numbered step_lines.now) run.old (into_iter_items left.old) (W.contents out.old) (W.contents out.new) }
    ensures fault { IfErr result (λ fault. IsOfRun fault) }
{
    let mut lines = Lines::new(alloc);
    for (piece, line) in plan.into_vec().into_iter().zip(step_lines) {
        let NumberedLine { number, text } = *line;
        let callback = next_callback(&piece, left);
        match print_behind(alloc, run, piece, callback, number, text, &mut lines, out)? {
            Reach::End => {}
            Reach::NoMemory => return write_rest(lines, out, Reach::NoMemory),
        }
    }
    write_rest(lines, out, Reach::End)
}

/// Prints the entries of a plan as far as its run over the core comes, each behind its piece's line: there is a line
/// for each piece, in order.
pub fn print_stepwise<C: Callback, D: Device, W: Write>(
    alloc: Global,
    parts: Parts<C, D>,
    plan: Sequence<Plan>,
    step_lines: &[NumberedLine<'_>],
    out: &mut W,
) -> Result<Reach, Fault>
    requires each { length step_lines.now ≡ length plan }
    requires callbacks { length parts.callbacks.items ≡ count_by is_submission plan }
    requires not_free { AllByRecursion (λ rule. rule ≢ Free) (map C.rule parts.callbacks.items) }
    requires no_verdict { AllByRecursion (λ piece. is_verdict piece ≡ false) plan }
    ensures lines { IfOk result (λ reach. PrintsText reach (stepwise_text (setup_of parts.setup) plan (map C.rule parts.callbacks.items) (map numbered step_lines.now)) (W.contents out.old) (W.contents out.new)) }
    ensures begun { AppendsSome (stepwise_text (setup_of parts.setup) plan (map C.rule parts.callbacks.items) (map numbered step_lines.now)) (W.contents out.old) (W.contents out.new) }
    ensures fault { IfErr result (λ fault. IsOfRun fault) }
{
    let Parts { setup, callbacks } = parts;
    let mut run = PlanRun::new(alloc, setup)?;
    let mut left = callbacks.into_iter();
    print_steps(alloc, &mut run, &mut left, plan, step_lines, out)
}
