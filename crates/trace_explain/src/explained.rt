//! The text of a run with what there is to say of its entries.

ghost use Rattle.std.specs.Prelude.{◌≡◌, ◌++◌, List, IfOk, length, map};
ghost use Rattle.std.specs.List.{flat_map};
ghost use Rattle.usb_model.specs.declared.verdict.Rule.{Rule};
ghost use Rattle.usb_model.specs.World.Journal.{run_from};
ghost use Rattle.usb_model.specs.World.Plans.{rules_after, stage_after, steps_of};
ghost use Rattle.reference.specs.PlanRuns.{stage_of};
ghost use Rattle.trace_explain.specs.Packets.{packet_lines};
ghost use Rattle.trace_scenario.specs.StepLines.{numbered};
ghost use Rattle.trace_explain.specs.Explained.{IsAsked, explained_entries, explained_from, explained_text, first_reason, first_step, note_text, reason_line, told_entry, told_piece};

use crate::packets::packet_lines;
use crate::telling::Telling;
use crate::{Reason, reason};
use reference::PlanRun;
use std::alloc::{AllocError, Global};
use trace_io::{add_behind, add_line};
use trace_scenario::NumberedLine;
use usb_model::{Entry, Plan, Rule, Sequence, Setup, Step};

/// The line of a reason, if there is one.
fn reason_line(alloc: Global, reason: &Option<Reason>) -> Result<Vec<u8>, AllocError>
    ensures { IfOk result (λ line. line.items ≡ reason_line reason.now) }
{
    let mut text = Vec::new(alloc);
    if let Some(reason) = reason {
        let line = format!(in alloc; "    {reason}\n")?;
        text.extend_from_slice(line.as_bytes())?;
    }
    Ok(text)
}

/// Puts an entry behind a text: behind its line, or alone.
fn put_entry(
    alloc: Global,
    telling: Telling,
    text: &mut Vec<u8>,
    line: &NumberedLine<'_>,
    entry: &Entry,
) -> Result<(), AllocError>
    ensures { IfOk result (λ _. text.new.items ≡ text.old.items ++ told_entry telling (numbered line.now) entry.now) }
{
    if telling == Telling::Packets {
        return add_line(alloc, text, entry);
    }
    add_behind(alloc, text, line.number, line.text, entry)
}

/// Puts entries behind a text.
fn put_entries(
    alloc: Global,
    telling: Telling,
    text: &mut Vec<u8>,
    line: &NumberedLine<'_>,
    entries: &[Entry],
) -> Result<(), AllocError>
    ensures { IfOk result (λ _. text.new.items ≡ text.old.items ++ flat_map (told_entry telling (numbered line.now)) entries.now) }
{
    for entry in entries {
        put_entry(alloc, telling, text, line, entry)?;
    }
    Ok(())
}

/// Puts the entries of a piece behind a text, and the note below the first.
fn put_explained(
    alloc: Global,
    telling: Telling,
    text: &mut Vec<u8>,
    line: &NumberedLine<'_>,
    note: &[u8],
    entries: &[Entry],
) -> Result<(), AllocError>
    ensures { IfOk result (λ _. text.new.items ≡ text.old.items ++ explained_entries telling (numbered line.now) note.now entries.now) }
{
    let [first, rest @ ..] = entries else {
        return Ok(());
    };
    put_entry(alloc, telling, text, line, first)?;
    text.extend_from_slice(note)?;
    put_entries(alloc, telling, text, line, rest)
}

/// The reason of the first step that a piece stands for, if there is one.
fn reason_for(setup: &Setup, run: &PlanRun, piece: &Plan) -> Option<Reason>
    ensures { (rules : List Rule) → result ≡ first_reason setup.now (stage_of setup.now run.now rules) piece.now }
{
    match piece {
        Plan::Do(step) => reason(setup, &run.system, step),
        Plan::Return { h, n } => {
            let (h, n, verdict) = (*h, *n, run.verdict_of(*h, *n));
            reason(setup, &run.system, &Step::Answer { h, n, verdict })
        }
    }
}

/// The same, where what is told of a run has to do with reasons; else none, so that none is looked for.
fn reason_asked(telling: Telling, setup: &Setup, run: &PlanRun, piece: &Plan) -> Option<Reason>
    ensures { (rules : List Rule) → IsAsked telling result (first_reason setup.now (stage_of setup.now run.now rules) piece.now) }
{
    match telling {
        Telling::Reasons | Telling::Refusals => reason_for(setup, run, piece),
        Telling::Packets | Telling::StepPackets => None,
    }
}

/// The lines of the packets that the first step of a piece moves. What a callback answers moves none.
fn packets_for(
    alloc: Global,
    setup: &Setup,
    run: &PlanRun,
    piece: &Plan,
) -> Result<Vec<u8>, AllocError>
    ensures { (rules : List Rule) → let s = stage_of setup.now run.now rules in IfOk result (λ lines. lines.items ≡ packet_lines setup.now s.world (first_step s piece.now)) }
{
    match piece {
        Plan::Do(step) => packet_lines(alloc, setup, &run.system, step),
        Plan::Return { .. } => Ok(Vec::new(alloc)),
    }
}

/// What stands below the first entry of a piece whose first step has this reason, where it is asked for.
fn note(
    alloc: Global,
    telling: Telling,
    setup: &Setup,
    run: &PlanRun,
    piece: &Plan,
    reason: &Option<Reason>,
) -> Result<Vec<u8>, AllocError>
    ensures { (rules : List Rule) → let s = stage_of setup.now run.now rules in IsAsked telling reason.now (first_reason setup.now s piece.now)
        → IfOk result (λ note. note.items ≡ note_text telling setup.now s piece.now) }
{
    match telling {
        Telling::Reasons | Telling::Refusals => reason_line(alloc, reason),
        Telling::Packets | Telling::StepPackets => packets_for(alloc, setup, run, piece),
    }
}

/// Performs a piece, and puts its entries behind a text, where it is told.
#[tactic(auto, using(crate::proofs::Explains::told_by_asked))]
fn explain_piece(
    alloc: Global,
    telling: Telling,
    setup: &Setup,
    run: &mut PlanRun,
    piece: &Plan,
    rules: &[Rule],
    line: &NumberedLine<'_>,
    text: &mut Vec<u8>,
) -> Result<(), AllocError>
    ensures text { IfOk result (λ _. let s = stage_of setup.now run.old rules.now in text.new.items ≡ text.old.items ++ told_piece telling setup.now s piece.now (numbered line.now)) }
    ensures stage { IfOk result (λ _. let s = stage_of setup.now run.old rules.now in stage_of setup.now run.new (rules_after piece.now rules.now) ≡ stage_after setup.now s piece.now (steps_of setup.now s piece.now)) }
{
    let reason = reason_asked(telling, setup, run, piece);
    let note = note(alloc, telling, setup, run, piece, &reason)?;
    let mut entries = Sequence::new(alloc);
    run.perform(alloc, setup, piece, rules, &mut entries)?;
    if telling.tells(&reason) {
        let note = note.as_slice();
        put_explained(alloc, telling, text, line, note, entries.as_slice())?;
    }
    Ok(())
}

/// Performs the pieces of a plan, and puts their entries behind a text. The run is lent, since each way out of
/// its owner drops it, which is dear to prove.
fn explain_all(
    alloc: Global,
    telling: Telling,
    setup: &Setup,
    run: &mut PlanRun,
    plan: &[Plan],
    rules: &[Rule],
    lines: &[NumberedLine<'_>],
    text: &mut Vec<u8>,
) -> Result<(), AllocError>
    requires each { length lines.now ≡ length plan.now }
    ensures text { IfOk result (λ _. text.new.items ≡ text.old.items ++ explained_from telling setup.now (stage_of setup.now run.old rules.now) plan.now (map numbered lines.now)) }
{
    let mut left = rules;
    let mut at = 0;
    for piece in plan {
        explain_piece(alloc, telling, setup, run, piece, left, &lines[at], text)?;
        left = piece.rules_after(left);
        at += 1;
    }
    Ok(())
}

/// What is told of a plan's run under these rules: there is a line for each piece, in order. An error where memory is refused.
pub fn explained_run(
    alloc: Global,
    telling: Telling,
    setup: &Setup,
    plan: &[Plan],
    rules: &[Rule],
    lines: &[NumberedLine<'_>],
) -> Result<Vec<u8>, AllocError>
    requires each { length lines.now ≡ length plan.now }
    ensures text { IfOk result (λ text. text.items ≡ explained_text telling setup.now plan.now rules.now (map numbered lines.now)) }
{
    let mut text = Vec::new(alloc);
    let mut run = PlanRun::new(alloc, setup, None)?;
    explain_all(
        alloc, telling, setup, &mut run, plan, rules, lines, &mut text,
    )?;
    Ok(text)
}
