//! Runs of the core.

ghost use Rattle.std.specs.Prelude.{◌≡◌, ◌<◌, ◌⊎◌, [], IfErr, IfOk, OnErr, length, take};
ghost use Rattle.usb_model.specs.World.Journal.{IsBeginning, world_run};
ghost use Rattle.refine_core.specs.Made.{setup_of};
ghost use Rattle.usb_core.specs.Runs.{IsLawfulRun, ObeysLaws};
ghost use Rattle.usb_core.specs.Steps.{Advances};

use crate::Setup;
use crate::calls::Core;
use std::alloc::{AllocError, Global};
use thiserror::Error;
use usb_device::Device;
use usb_model::{Entry, Sequence, Step};

/// A run that found no memory: the entries before the step that found none.
#[derive(Debug, Drop, Error)]
#[error("there is no memory")]
pub struct Stopped {
    /// The entries so far.
    pub entries: Sequence<Entry>,
}

/// One step more: its entry stands behind the others.
fn advance<D: Device>(
    core: &mut Core<(), D>,
    step: &Step,
    entries: &mut Sequence<Entry>,
) -> Result<(), AllocError>
    ensures advanced { IfOk result (λ _. Advances core.old step.now core.new entries.old entries.new) }
    ensures kept { OnErr result (entries.new ≡ entries.old) }
{
    let payload = if step.takes_payload() { Some(()) } else { None };
    match core.step(step.clone()?, payload) {
        Ok(stepped) => entries.push(stepped.entry),
        Err(_) => Err(AllocError),
    }
}

/// The entries of these steps, from a core in which no name has a device open: those of the definitions' run, one for
/// each step. A step that is refused has its refusal as entry, with its caller as owner. Where no memory is found, those
/// of the first so many steps, as many as there are entries, and a step is left; or none was begun.
pub fn run<D: Device>(
    alloc: Global,
    setup: Setup<D>,
    steps: &[Step],
) -> Result<Sequence<Entry>, Stopped>
    ensures entries { IfOk result (λ entries. entries ≡ world_run (setup_of setup) steps.now) }
    ensures stopped { IfErr result (λ stopped. stopped.entries ≡ world_run (setup_of setup) (take (length stopped.entries) steps.now)) }
    ensures left { IfErr result (λ stopped. (stopped.entries ≡ []) ⊎ (length stopped.entries < length steps.now)) }
    ensures laws { ObeysLaws (setup_of setup) steps.now }
    ensures lawful { IfOk result (λ _. IsLawfulRun (setup_of setup) steps.now) }
    ensures lawful_so_far { IfErr result (λ stopped. (stopped.entries ≡ []) ⊎ IsLawfulRun (setup_of setup) (take (length stopped.entries) steps.now)) }
{
    let mut entries = Sequence::new(alloc);
    let Ok(mut core) = Core::new(alloc, setup) else {
        return Err(Stopped { entries });
    };
    for step in steps {
        let Ok(()) = advance(&mut core, step, &mut entries) else {
            return Err(Stopped { entries });
        };
    }
    Ok(entries)
}
