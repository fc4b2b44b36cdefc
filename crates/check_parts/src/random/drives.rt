//! A random plan, whose callbacks are called: of all handles, and then of one beside the others and alone. Each is run again,
//! from its beginning, where memory is refused.

ghost use Rattle.std.specs.Prelude.{◌≡◌, ◌≢◌, false, length, map};
ghost use Rattle.std.proofs.Props.{props};
ghost use Rattle.std.specs.List.{AllByRecursion, count_by};
ghost use Rattle.usb_model.specs.declared.verdict.Rule.TheVariants.{Free};
ghost use Rattle.usb_model.specs.World.Plans.{is_submission};
ghost use Rattle.usb_plans.specs.PlanRuns.{is_verdict};

use super::dice::Dice;
use super::steps::busy;
use super::{REFUSED, TRIES, scene};
use anyhow::{Result, anyhow};
use bitflags::Flags as _;
use std::alloc::{AllocError, Global};
use std::result;
use trace_io::print;
use usb_core::{Callback, Ruled};
use usb_device::TableDevice;
use usb_model::{Entry, Name, Plan, Reply, Rule, Sequence, StatusSet, Step};
use usb_plans::{Comparison, PlanRun, StoppedDrive, drive, drive_alone};

/// How many pieces the plan has.
const PIECES: u64 = 200;

/// A plan without verdicts, and a callback for each of its submissions.
#[derive(Drop)]
struct Called {
    plan: Vec<Plan>,
    callbacks: Vec<Ruled>,
    ghost counted: { length callbacks.items ≡ count_by is_submission plan.items },
    ghost ruled: { AllByRecursion (λ rule. rule ≢ Free) (map (⟦<Ruled as Callback>⟧.rule) callbacks.items) } by { Prim.hlevel props },
    ghost no_verdict: { AllByRecursion (λ piece. is_verdict piece ≡ false) plan.items } by { Prim.hlevel props },
}

/// The piece of a plan that stands for a step: of a verdict, that its callback returns.
fn piece(step: Step) -> Plan
    ensures { is_verdict result ≡ false }
{
    match step {
        Step::Answer { h, n, .. } => Plan::Return { h, n },
        _ => Plan::Do(step),
    }
}

/// Whether a piece submits a transfer.
fn is_submission(piece: &Plan) -> bool
    ensures { result ≡ is_submission piece.now }
{
    match piece {
        Plan::Do(step) => step.is_submit(),
        Plan::Return { .. } => false,
    }
}

/// A random callback.
fn callback(dice: &mut Dice) -> Ruled
    ensures { ⟦<Ruled as Callback>⟧.rule result ≢ Free }
{
    Ruled::new(Rule::Again {
        on: StatusSet::from_bits_retain(dice.up_to(127)),
        rounds: u64::from(dice.up_to(3)),
    })
}

impl Called {
    /// No pieces.
    fn new(alloc: Global) -> Called {
        Called {
            plan: Vec::new(alloc),
            callbacks: Vec::new(alloc),
        }
    }

    /// With a piece more, and its callback where it submits a transfer.
    fn with(self, piece: Plan, dice: &mut Dice) -> result::Result<Called, AllocError>
        requires { is_verdict piece ≡ false }
    {
        let Called {
            mut plan,
            mut callbacks,
        } = self;
        if is_submission(&piece) {
            callbacks.push(callback(dice))?;
        }
        plan.push(piece)?;
        Ok(Called { plan, callbacks })
    }
}

/// The plan of a seed.
fn plan_of(alloc: Global, seed: u64) -> Result<Called> {
    let mut dice = Dice::new(seed);
    let mut plan = Called::new(alloc);
    for step in busy(alloc, seed, PIECES)?.into_vec() {
        plan = plan.with(piece(step), &mut dice)?;
    }
    Ok(plan)
}

/// A plan that stopped.
type Stopped = StoppedDrive<Ruled, TableDevice>;

/// Runs a seed's plan. An error within where that stopped.
fn driven(alloc: Global, seed: u64) -> Result<result::Result<Sequence<Entry>, Stopped>> {
    let Called { plan, callbacks } = plan_of(alloc, seed)?;
    let setup = scene::real(alloc, seed, scene::FEW_ANSWERS)?;
    Ok(drive(alloc, setup, plan, callbacks))
}

/// Runs a seed's plan for a handle, beside the others and alone.
fn compared(alloc: Global, seed: u64, h: Name) -> Result<Comparison> {
    let Called { plan, callbacks } = plan_of(alloc, seed)?;
    let others = Vec::from_slice(alloc, callbacks.as_slice())?;
    let setup = scene::real(alloc, seed, scene::FEW_ANSWERS)?;
    Ok(drive_alone(alloc, setup, plan.as_slice(), callbacks, others, h)?)
}

/// The lines of entries, written again where memory is refused.
fn lines(alloc: Global, entries: &[Entry]) -> Result<Vec<u8>> {
    for _ in 0..TRIES {
        let mut lines = Vec::new(alloc);
        if print::print(alloc, &mut lines, entries).is_ok() {
            return Ok(lines);
        }
    }
    Err(anyhow!(REFUSED))
}

/// An error unless what was told before a plan stopped is the beginning of what is told of the whole.
fn begins(alloc: Global, told: &[Entry], whole: &[Entry]) -> Result<()> {
    let (told, whole) = (lines(alloc, told)?, lines(alloc, whole)?);
    if whole.starts_with(told.as_slice()) {
        Ok(())
    } else {
        Err(anyhow!("a plan that stopped told other things than the whole"))
    }
}

/// How many numbers these entries give to transfers of a handle.
fn numbers_given(entries: &[Entry], h: Name) -> u64 {
    let mut count: u64 = 0;
    for entry in entries {
        if entry.owner == Some(h) && matches!(&entry.reply, Reply::Number(_)) {
            count = count.saturating_add(1);
        }
    }
    count
}

/// Whether a run stands behind just these entries: the next number of each handle follows those that they give.
fn stands_behind(run: &PlanRun<Ruled, TableDevice>, entries: &[Entry]) -> bool {
    for number in 0..64_u8 {
        let Some(h) = Name::new(number) else {
            return false;
        };
        if run.core().next_number(h) != numbers_given(entries, h) {
            return false;
        }
    }
    true
}

/// What a plan told that stopped. An error unless its run stands behind just that.
fn told_before(stopped: Stopped) -> Result<Sequence<Entry>> {
    let StoppedDrive { entries, run } = stopped;
    let fits = match &run {
        Some(run) => stands_behind(run, entries.as_slice()),
        None => entries.as_slice().is_empty(),
    };
    if fits {
        Ok(entries)
    } else {
        Err(anyhow!("a plan that stopped stands elsewhere than it told"))
    }
}

/// What is told of a seed's plan, which is run again where memory is refused.
fn whole(alloc: Global, seed: u64) -> Result<Sequence<Entry>> {
    let mut told = Sequence::new(alloc);
    for _ in 0..TRIES {
        match driven(alloc, seed) {
            Ok(Ok(entries)) => {
                begins(alloc, told.as_slice(), entries.as_slice())?;
                return Ok(entries);
            }
            Ok(Err(stopped)) => told = told_before(stopped)?,
            Err(_) => {}
        }
    }
    Err(anyhow!(REFUSED))
}

/// The same of a handle, beside the others and alone.
fn comparison(alloc: Global, seed: u64, h: Name) -> Result<Comparison> {
    for _ in 0..TRIES {
        if let Ok(comparison) = compared(alloc, seed, h) {
            return Ok(comparison);
        }
    }
    Err(anyhow!(REFUSED))
}

/// Prints entries, a line each.
pub fn print_entries<R: Print>(rt: &R, entries: &[Entry]) -> Result<()> {
    for entry in entries {
        println!(rt; "{entry}")?;
    }
    Ok(())
}

/// Runs the plan of a seed, and prints what is told of it, and of handle 1 beside the others and alone.
pub fn play<R: Print>(rt: &R, alloc: Global, seed: u64) -> Result<()> {
    let Some(h) = Name::new(1) else {
        return Err(anyhow!("no name"));
    };
    print_entries(rt, whole(alloc, seed)?.as_slice())?;
    let comparison = comparison(alloc, seed, h)?;
    println!(rt; "handle 1, beside the others:")?;
    print_entries(rt, comparison.shared.as_slice())?;
    println!(rt; "alone:")?;
    print_entries(rt, comparison.alone.as_slice())
}
