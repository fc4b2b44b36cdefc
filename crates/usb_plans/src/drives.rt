//! Whole plans over the core, whose callbacks are called.

ghost use Rattle.std.specs.Prelude.{◌≡◌, ◌≤◌, ◌<◌, ◌+◌, ◌++◌, ◌∷◌, [], true, false, length, map, IfErr, IfOk, OnErr, is_some, vec_capacity, vec_len};
ghost use Rattle.std.specs.List.{AllByRecursion, count_by};
ghost use Rattle.std.specs.Vec.Iter.{into_iter_items};
ghost use Rattle.usb_model.specs.World.Plans.{is_submission};
ghost use Rattle.usb_core.specs.Public.{setup_of};
ghost use Rattle.usb_plans.specs.Drives.{Advances, IsDriven, IsStopped, StaysAt, TakesNext};
ghost use Rattle.usb_plans.specs.PlanRuns.{entries_of, is_verdict};

use crate::plan_run::{Performed, PlanRun};
use std::alloc::{AllocError, Global};
use std::error::Error;
use std::fmt;
use std::vec::IntoIter;
use usb_core::{Callback, Setup};
use usb_device::Device;
use usb_model::{Entry, Plan, Sequence, Step};

/// Whether a piece of a plan submits a transfer.
fn is_submission(piece: &Plan) -> bool
    ensures { result ≡ is_submission piece.now }
{
    match piece {
        Plan::Do(step) => step.is_submit(),
        Plan::Return { .. } => false,
    }
}

/// The callback that a piece takes: the next one, where it submits.
pub fn next_callback<C>(piece: &Plan, left: &mut IntoIter<C>) -> Option<C>
    ensures { TakesNext (is_submission piece.now) (into_iter_items left.old) (into_iter_items left.new) result }
{
    if is_submission(piece) {
        left.next()
    } else {
        None
    }
}

/// Puts an entry behind the others, where there is room for it. Takes no memory.
fn put(entries: &mut Vec<Entry>, entry: Entry)
    requires { vec_len entries.old < vec_capacity entries.old }
    ensures items { entries.new.items ≡ entries.old.items ++ entry ∷ [] }
    ensures len { vec_len entries.new ≡ vec_len entries.old + 1 }
    ensures room { vec_capacity entries.old ≤ vec_capacity entries.new }
{
    // There is room, so that this can't fail.
    let _ = entries.push(entry);
}

/// Puts the entries of a piece behind the others, where there is room for both. Takes no memory.
fn tell<C: Drop>(entries: &mut Vec<Entry>, performed: Performed<C>)
    requires { vec_len entries.old + 2 ≤ vec_capacity entries.old }
    ensures { entries.new.items ≡ entries.old.items ++ entries_of performed }
{
    let Performed { entry, stop, .. } = performed;
    put(entries, entry);
    let Some(stop) = stop else {
        return;
    };
    put(entries, stop);
}

/// A plan that found no memory: what it gave until then.
#[derive(Drop)]
pub struct StoppedDrive<C: Callback, D: Device> {
    /// The entries of the pieces before the one that found no memory.
    pub entries: Sequence<Entry>,
    /// The run, which shows the stage behind these pieces; but where a return found no memory, its callback may have been
    /// called. None where no run was begun: there was no memory for it, and there are no entries.
    pub run: Option<PlanRun<C, D>>,
}

/// Shows no callback, which may have no form that can be shown.
impl<C: Callback, D: Device> fmt::Debug for StoppedDrive<C, D> {
    fn fmt<W: fmt::Write>(&self, f: &mut fmt::Formatter<W>) -> fmt::Result {
        f.write_str("StoppedDrive")
    }
}

impl<C: Callback, D: Device> fmt::Display for StoppedDrive<C, D> {
    fn fmt<W: fmt::Write>(&self, f: &mut fmt::Formatter<W>) -> fmt::Result {
        f.write_str("there is no memory")
    }
}

impl<C: Callback, D: Device> Error for StoppedDrive<C, D> {}

/// Performs one piece more: its entries stand behind the others. Where memory is refused the entries are as before, and so is
/// the stage that is shown, but for a callback that was called.
fn advance<C: Callback, D: Device>(
    run: &mut PlanRun<C, D>,
    piece: Plan,
    callback: Option<C>,
    entries: &mut Vec<Entry>,
) -> Result<(), AllocError>
    requires submits { is_submission piece ≡ true → is_some callback ≡ true }
    requires no_verdict { is_verdict piece ≡ false }
    ensures advanced { IfOk result (λ _. Advances C.rule run.old piece callback run.new entries.old.items entries.new.items) }
    ensures kept { OnErr result (entries.new.items ≡ entries.old.items) }
    ensures stays { OnErr result (StaysAt C.rule run.old piece run.new) }
{
    entries.reserve(2)?;
    let performed = run.perform(piece, callback)?;
    tell(entries, performed);
    Ok(())
}

/// The entries of a plan over the core, from one in which no name has a device open. The callbacks are those of the plan's
/// submissions, in order: the very callback of a transfer is called where it returns, and its verdict is made. What a
/// refused submission was given is dropped. Where no memory is found, those of all pieces before the one that found none,
/// with the run behind these pieces.
pub fn drive<C: Callback, D: Device>(
    alloc: Global,
    setup: Setup<D>,
    plan: Vec<Plan>,
    callbacks: Vec<C>,
) -> Result<Sequence<Entry>, StoppedDrive<C, D>>
    requires callbacks { length callbacks.items ≡ count_by is_submission plan.items }
    requires no_verdict { AllByRecursion (λ piece. is_verdict piece ≡ false) plan.items }
    ensures entries { IfOk result (λ entries. IsDriven (setup_of setup) plan.items (map C.rule callbacks.items) entries) }
    ensures stopped { IfErr result (λ stopped. IsStopped C.rule (setup_of setup) plan.items (map C.rule callbacks.items) stopped.entries stopped.run) }
{
    let mut entries = Vec::new(alloc);
    let Ok(mut run) = PlanRun::new(alloc, setup) else {
        return Err(StoppedDrive {
            entries: Sequence::from_vec(entries),
            run: None,
        });
    };
    let mut left = callbacks.into_iter();
    for piece in plan {
        let callback = next_callback(&piece, &mut left);
        let Ok(()) = advance(&mut run, piece, callback, &mut entries) else {
            return Err(StoppedDrive {
                entries: Sequence::from_vec(entries),
                run: Some(run),
            });
        };
    }
    Ok(Sequence::from_vec(entries))
}
