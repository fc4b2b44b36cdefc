//! A plan, run to its end.

ghost use Rattle.std.specs.Prelude.{◌≡◌, ◌≢◌, false, is_some, length, true, map, IfOk, List};
ghost use Rattle.std.specs.List.{AllByRecursion, count_by};
ghost use Rattle.std.specs.Vec.Iter.{into_iter_items};
ghost use Rattle.usb_model.specs.declared.entry.Entry.{Entry};
ghost use Rattle.usb_model.specs.declared.verdict.Rule.TheVariants.{Free};
ghost use Rattle.usb_model.specs.World.{new_world, world_from};
ghost use Rattle.usb_model.specs.World.Plans.{expand, is_submission};
ghost use Rattle.usb_core.specs.Public.{ShowsWorld, setup_of};
ghost use Rattle.usb_plans.specs.PlanRuns.{Performs, is_verdict};
ghost use Rattle.trace_run.specs.Printed.{CanStart, EndsFrom};

use crate::lines::Parts;
use std::alloc::{AllocError, Global};
use std::vec::IntoIter;
use usb_core::{Callback, Core};
use usb_device::Device;
use usb_model::{Plan, Sequence};
use usb_plans::{PlanRun, next_callback};

/// Performs a piece of a plan. An error where memory is refused.
pub fn perform_piece<C: Callback, D: Device>(
    run: &mut PlanRun<C, D>,
    piece: Plan,
    callback: Option<C>,
) -> Result<(), AllocError>
    requires submits { is_submission piece ≡ true → is_some callback ≡ true }
    requires no_verdict { is_verdict piece ≡ false }
    ensures { IfOk result (λ _. (entries : List Entry) × Performs C.rule run.old piece callback entries run.new) }
{
    let _ = run.perform(piece, callback)?;
    Ok(())
}

/// Performs the pieces of a plan that stands at its beginning. An error where memory is refused.
fn perform_all<C: Callback, D: Device>(
    run: &mut PlanRun<C, D>,
    left: &mut IntoIter<C>,
    plan: Sequence<Plan>,
) -> Result<(), AllocError>
    requires { CanStart C.rule plan run.old (into_iter_items left.old) }
    ensures { IfOk result (λ _. EndsFrom C.rule plan run.old (into_iter_items left.old) run.new) }
{
    for piece in plan.into_vec() {
        let callback = next_callback(&piece, left);
        perform_piece(run, piece, callback)?;
    }
    Ok(())
}

/// The core where the run of a plan ends. An error where memory is refused.
pub fn run_to_end<C: Callback, D: Device>(
    alloc: Global,
    parts: Parts<C, D>,
    plan: Sequence<Plan>,
) -> Result<Core<C, D>, AllocError>
    requires callbacks { length parts.callbacks.items ≡ count_by is_submission plan }
    requires not_free { AllByRecursion (λ rule. rule ≢ Free) (map C.rule parts.callbacks.items) }
    requires no_verdict { AllByRecursion (λ piece. is_verdict piece ≡ false) plan }
    ensures { IfOk result (λ core. let setup = setup_of parts.setup in ShowsWorld setup core (world_from setup (new_world setup) (expand setup plan (map C.rule parts.callbacks.items)))) }
{
    let Parts { setup, callbacks } = parts;
    let mut run = PlanRun::new(alloc, setup)?;
    let mut left = callbacks.into_iter();
    perform_all(&mut run, &mut left, plan)?;
    Ok(run.into_core())
}
