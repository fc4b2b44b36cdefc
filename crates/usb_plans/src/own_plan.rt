//! A plan amid all handles, and a handle's own pieces of it by themselves.

ghost use Rattle.std.specs.Prelude.{◌≡◌, ◌≢◌, ◌++◌, true, false, IfOk, is_some, length, map};
ghost use Rattle.std.specs.List.{AllByRecursion, count_by};
ghost use Rattle.std.specs.Vec.Iter.{into_iter_items};
ghost use Rattle.usb_model.specs.declared.verdict.Rule.TheVariants.{Free};
ghost use Rattle.usb_model.specs.World.Journal.{world_run};
ghost use Rattle.usb_model.specs.World.Plans.{expand, is_submission};
ghost use Rattle.usb_core.specs.Public.{setup_of};
ghost use Rattle.usb_plans.specs.Alone.{DrivesPicked, IsPlanPart, PerformsOwn, SharesPiece, TellsPlan, TellsPlanPart, picked, picked_rules};
ghost use Rattle.usb_plans.specs.PlanRuns.{entries_of, is_verdict};

use crate::comparison::{Comparison, Part, is_next_own};
use crate::drives::next_callback;
use crate::plan_run::{Performed, PlanRun, copy_of};
use crate::twins::is_own;
use std::alloc::{AllocError, Global};
use std::vec::IntoIter;
use usb_core::{Callback, Setup};
use usb_device::Device;
use usb_model::{Entry, Name, Plan, Sequence};

/// Puts the entries of a piece behind the others.
fn put<C: Drop>(entries: &mut Sequence<Entry>, performed: Performed<C>) -> Result<(), AllocError>
    ensures { IfOk result (λ _. entries.new ≡ entries.old ++ entries_of performed) }
{
    let Performed { entry, stop, .. } = performed;
    entries.push(entry)?;
    match stop {
        None => Ok(()),
        Some(stop) => entries.push(stop),
    }
}

/// Performs one piece more amid the others. Whether it is the handle's own stands behind the rest, and so does what is
/// told of it, if it is.
fn share<C: Callback, D: Device>(
    run: &mut PlanRun<C, D>,
    h: Name,
    piece: &Plan,
    callback: Option<C>,
    part: &mut Part,
) -> Result<(), AllocError>
    requires submits { is_submission piece.now ≡ true → is_some callback ≡ true }
    requires no_verdict { is_verdict piece.now ≡ false }
    ensures { IfOk result (λ _. SharesPiece C.rule h piece.now callback run.old run.new part.old part.new) }
{
    let performed = run.perform(copy_of(piece)?, callback)?;
    let own = is_own(h, piece, &performed.entry);
    part.own.push(own)?;
    if !own {
        return Ok(());
    }
    put(&mut part.entries, performed)?;
    Ok(())
}

/// Performs all pieces by a run that stands at a plan's beginning. It is lent, since each way out of its owner drops the
/// core, which is dear to prove.
fn share_all<C: Callback, D: Device>(
    alloc: Global,
    run: &mut PlanRun<C, D>,
    left: &mut IntoIter<C>,
    plan: &[Plan],
    h: Name,
) -> Result<Part, AllocError>
    requires callbacks { length (into_iter_items left.old) ≡ count_by is_submission plan.now }
    requires no_verdict { AllByRecursion (λ piece. is_verdict piece ≡ false) plan.now }
    ensures { IfOk result (λ part. TellsPlanPart C.rule plan.now h (into_iter_items left.old) run.old run.new part) }
{
    let mut part = Part {
        entries: Sequence::new(alloc),
        own: Sequence::new(alloc),
    };
    for piece in plan {
        let callback = next_callback(piece, left);
        share(run, h, piece, callback, &mut part)?;
    }
    Ok(part)
}

/// The same by a run of its own, which then hands its devices back.
fn amid<C: Callback, D: Device>(
    alloc: Global,
    setup: Setup<D>,
    plan: &[Plan],
    callbacks: Vec<C>,
    h: Name,
) -> Result<(Part, Setup<D>), AllocError>
    requires callbacks { length callbacks.items ≡ count_by is_submission plan.now }
    requires not_free { AllByRecursion (λ rule. rule ≢ Free) (map C.rule callbacks.items) }
    requires no_verdict { AllByRecursion (λ piece. is_verdict piece ≡ false) plan.now }
    ensures part { IfOk result (λ x. IsPlanPart (setup_of setup) plan.now (map C.rule callbacks.items) h x.0) }
    ensures back { IfOk result (λ x. setup_of x.1 ≡ setup_of setup) }
{
    let mut run = PlanRun::new(alloc, setup)?;
    let mut left = callbacks.into_iter();
    let part = share_all(alloc, &mut run, &mut left, plan, h)?;
    Ok((part, run.into_setup()))
}

/// Performs a piece, if it is the handle's own; what is told of it then stands behind the others. A callback that it
/// doesn't take is dropped.
fn perform_own<C: Callback, D: Device>(
    run: &mut PlanRun<C, D>,
    own: bool,
    piece: &Plan,
    callback: Option<C>,
    entries: &mut Sequence<Entry>,
) -> Result<(), AllocError>
    requires submits { is_submission piece.now ≡ true → is_some callback ≡ true }
    requires no_verdict { is_verdict piece.now ≡ false }
    ensures { IfOk result (λ _. PerformsOwn C.rule own piece.now callback run.old run.new entries.old entries.new) }
{
    if !own {
        return Ok(());
    }
    let performed = run.perform(copy_of(piece)?, callback)?;
    put(entries, performed)?;
    Ok(())
}

/// Performs the handle's own pieces by a run that is lent and stands at their beginning. Each submission of the plan
/// takes the next callback, whosever it is.
fn perform_all_own<C: Callback, D: Device>(
    alloc: Global,
    run: &mut PlanRun<C, D>,
    left: &mut IntoIter<C>,
    plan: &[Plan],
    own: Sequence<bool>,
) -> Result<Sequence<Entry>, AllocError>
    requires callbacks { length (into_iter_items left.old) ≡ count_by is_submission plan.now }
    requires no_verdict { AllByRecursion (λ piece. is_verdict piece ≡ false) plan.now }
    ensures { IfOk result (λ entries. DrivesPicked C.rule plan.now own (into_iter_items left.old) run.old entries) }
{
    let mut marks = own.into_vec().into_iter();
    let mut entries = Sequence::new(alloc);
    for piece in plan {
        let mine = is_next_own(&mut marks);
        let callback = next_callback(piece, left);
        perform_own(run, mine, piece, callback, &mut entries)?;
    }
    Ok(entries)
}

/// The same by a run of its own.
fn apart<C: Callback, D: Device>(
    alloc: Global,
    setup: Setup<D>,
    plan: &[Plan],
    callbacks: Vec<C>,
    own: Sequence<bool>,
) -> Result<Sequence<Entry>, AllocError>
    requires callbacks { length callbacks.items ≡ count_by is_submission plan.now }
    requires not_free { AllByRecursion (λ rule. rule ≢ Free) (map C.rule callbacks.items) }
    requires no_verdict { AllByRecursion (λ piece. is_verdict piece ≡ false) plan.now }
    ensures { IfOk result (λ entries. entries ≡ world_run (setup_of setup) (expand (setup_of setup) (picked own plan.now) (picked_rules own plan.now (map C.rule callbacks.items)))) }
{
    let mut run = PlanRun::new(alloc, setup)?;
    let mut left = callbacks.into_iter();
    perform_all_own(alloc, &mut run, &mut left, plan, own)
}

/// A handle's entries of a plan amid the others, and alone over its own pieces of the plan, by two runs over the same
/// devices: one of the whole plan, and then, when the devices are handed back, one of its own pieces by themselves. Each
/// has callbacks of its own: two lists of the same rules, of which none is Free; each has one for each submission of the
/// whole plan, in order. A step is the handle's own where its entry is the handle's and doesn't say that another held an
/// interface; an Unplug is each handle's own, and so is each return that names it. What the other submissions' callbacks
/// of the second list are is of no account: they are dropped. Both lists of entries are the same, and those of the
/// definitions' machine of this one handle. Where memory is refused nothing is told, and all that was given is dropped.
pub fn drive_alone<C: Callback, D: Device>(
    alloc: Global,
    setup: Setup<D>,
    plan: &[Plan],
    callbacks: Vec<C>,
    other_callbacks: Vec<C>,
    h: Name,
) -> Result<Comparison, AllocError>
    requires callbacks { length callbacks.items ≡ count_by is_submission plan.now }
    requires same_rules { map C.rule other_callbacks.items ≡ map C.rule callbacks.items }
    requires not_free { AllByRecursion (λ rule. rule ≢ Free) (map C.rule callbacks.items) }
    requires no_verdict { AllByRecursion (λ piece. is_verdict piece ≡ false) plan.now }
    ensures { IfOk result (λ told. TellsPlan (setup_of setup) plan.now (map C.rule callbacks.items) h told) }
{
    let (part, back) = amid(alloc, setup, plan, callbacks, h)?;
    let Part { entries, own } = part;
    let alone = apart(alloc, back, plan, other_callbacks, own)?;
    Ok(Comparison {
        shared: entries,
        alone,
    })
}
