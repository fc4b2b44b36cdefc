//! A run, and what it wrote that isn't as expected.

ghost use Rattle.std.specs.Prelude.{◌≡◌, ◌++◌, List, IfOk, length, map};
ghost use Rattle.std.specs.Option.{option_and_then, option_to_list};
ghost use Rattle.usb_model.specs.Setup.{Setup};
ghost use Rattle.usb_model.specs.World.{new_world, world_from};
ghost use Rattle.usb_model.specs.declared.plan.Plan.TheVariants.{Do};
ghost use Rattle.usb_model.specs.declared.step.Step.TheVariants.{Serve};
ghost use Rattle.usb_model.specs.World.Plans.{expand, expand_from, rules_after, stage_after, steps_of};
ghost use Rattle.reference.specs.PlanRuns.{stage_of};
ghost use Rattle.reference.specs.System.{world_of};
ghost use Rattle.trace_scenario.specs.StepLines.{numbered};
ghost use Rattle.trace_judged.specs.Differences.{difference_by, differences, differences_from, piece_difference, received_at, step_difference};
ghost use Rattle.trace_judged.specs.Missing.{all_missing};

use crate::difference::{Difference, difference_of, next_index, received_at};
use crate::expected::packet_at;
use crate::missing::{MissingPackets, all_missing};
use reference::{PlanRun, System};
use std::alloc::{AllocError, Global};
use trace_scenario::{ExpectedPackets, NumberedLine};
use usb_model::{DeviceNo, EpAddr, Plan, Rule, Sequence, Setup, Step};

/// What came of a run.
#[derive(Debug, Drop)]
pub struct Judged {
    /// The packets that a device took and that aren't as expected, in their order.
    pub differences: Vec<Difference>,
    /// What never came, since the scripts began last: of each endpoint, in the order of the devices' configurations.
    pub missing: Vec<MissingPackets>,
}

/// The packet of this index that an endpoint took, where it took one and it isn't as expected.
fn difference_at(
    alloc: Global,
    expected: &[ExpectedPackets],
    system: &System,
    line: u64,
    dev: DeviceNo,
    ep: EpAddr,
    index: usize,
) -> Result<Option<Difference>, AllocError>
    ensures { (setup : Setup) → IfOk result (λ d. d ≡ option_and_then (difference_by expected.now line dev ep index) (received_at (world_of setup system.now) dev ep index)) }
{
    let Some(came) = received_at(system, dev, ep, index) else {
        return Ok(None);
    };
    match packet_at(expected, dev, ep, index) {
        Some(packet) => difference_of(alloc, line, dev, ep, index, packet, came.as_slice()),
        None => Ok(None),
    }
}

/// Performs a piece that lets a device answer at an endpoint: the packet that this took, where it isn't as expected.
#[tactic(auto, unfolding(usb_model::specs::World::world_from, usb_model::specs::World::Plans::stage_after))]
fn judge_serve(
    alloc: Global,
    expected: &[ExpectedPackets],
    setup: &Setup,
    run: &mut PlanRun,
    piece: &Plan,
    rules: &[Rule],
    line: u64,
    dev: DeviceNo,
    ep: EpAddr,
) -> Result<Option<Difference>, AllocError>
    requires { piece.now ≡ Do (Serve dev ep) }
    ensures found { IfOk result (λ d. d ≡ step_difference expected.now setup.now (world_of setup.now run.old.system) line (Serve dev ep)) }
    ensures stage { IfOk result (λ _. let s = stage_of setup.now run.old rules.now in stage_of setup.now run.new (rules_after piece.now rules.now) ≡ stage_after setup.now s piece.now (steps_of setup.now s piece.now)) }
{
    let index = next_index(&run.system, dev, ep);
    let mut entries = Sequence::new(alloc);
    run.perform(alloc, setup, piece, rules, &mut entries)?;
    difference_at(alloc, expected, &run.system, line, dev, ep, index)
}

/// Performs a piece: the packet that its step took, where it isn't as expected.
fn judge_piece(
    alloc: Global,
    expected: &[ExpectedPackets],
    setup: &Setup,
    run: &mut PlanRun,
    piece: &Plan,
    rules: &[Rule],
    line: u64,
) -> Result<Option<Difference>, AllocError>
    ensures found { IfOk result (λ d. d ≡ piece_difference expected.now setup.now (world_of setup.now run.old.system) line piece.now) }
    ensures stage { IfOk result (λ _. let s = stage_of setup.now run.old rules.now in stage_of setup.now run.new (rules_after piece.now rules.now) ≡ stage_after setup.now s piece.now (steps_of setup.now s piece.now)) }
{
    if let Plan::Do(Step::Serve { dev, ep }) = piece {
        return judge_serve(alloc, expected, setup, run, piece, rules, line, *dev, *ep);
    }
    let mut entries = Sequence::new(alloc);
    run.perform(alloc, setup, piece, rules, &mut entries)?;
    Ok(None)
}

/// Puts a difference behind others, if there is one.
fn put(differences: &mut Vec<Difference>, found: Option<Difference>) -> Result<(), AllocError>
    ensures { IfOk result (λ _. differences.new.items ≡ differences.old.items ++ option_to_list found) }
{
    if let Some(difference) = found {
        differences.push(difference)?;
    }
    Ok(())
}

/// Performs the pieces of a plan, and puts the packets that aren't as expected behind others. The run is lent, since each
/// way out of its owner drops it, which is dear to prove.
fn judge_all(
    alloc: Global,
    expected: &[ExpectedPackets],
    setup: &Setup,
    run: &mut PlanRun,
    plan: &[Plan],
    rules: &[Rule],
    lines: &[NumberedLine<'_>],
    differences: &mut Vec<Difference>,
) -> Result<(), AllocError>
    requires each { length lines.now ≡ length plan.now }
    ensures found { IfOk result (λ _. differences.new.items ≡ differences.old.items ++ differences_from expected.now setup.now (stage_of setup.now run.old rules.now) plan.now (map numbered lines.now)) }
    ensures world { IfOk result (λ _. world_of setup.now run.new.system ≡ world_from setup.now (world_of setup.now run.old.system) (expand_from setup.now (stage_of setup.now run.old rules.now) plan.now)) }
{
    let mut left = rules;
    let mut at = 0;
    for piece in plan {
        let line = lines[at].number;
        let found = judge_piece(alloc, expected, setup, run, piece, left, line)?;
        put(differences, found)?;
        left = piece.rules_after(left);
        at += 1;
    }
    Ok(())
}

/// The run of a plan under these rules, judged by what is expected: there is a line for each piece, in order. Each packet
/// that a device takes is looked for among all of `expected`, which is short where its lines are joined by endpoint. An
/// error where memory is refused.
pub fn judge(
    alloc: Global,
    expected: &[ExpectedPackets],
    setup: &Setup,
    plan: &[Plan],
    rules: &[Rule],
    lines: &[NumberedLine<'_>],
) -> Result<Judged, AllocError>
    requires each { length lines.now ≡ length plan.now }
    ensures differences { IfOk result (λ judged. judged.differences.items ≡ differences expected.now setup.now plan.now rules.now (map numbered lines.now)) }
    ensures missing { IfOk result (λ judged. judged.missing.items ≡ all_missing expected.now setup.now (world_from setup.now (new_world setup.now) (expand setup.now plan.now rules.now))) }
{
    let mut differences = Vec::new(alloc);
    let mut run = PlanRun::new(alloc, setup, None)?;
    judge_all(
        alloc,
        expected,
        setup,
        &mut run,
        plan,
        rules,
        lines,
        &mut differences,
    )?;
    let missing = all_missing(alloc, expected, setup, &run.system)?;
    Ok(Judged {
        differences,
        missing,
    })
}
