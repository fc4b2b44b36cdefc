//! Runs of the plain program.

ghost use Rattle.std.specs.Prelude.{◌≡◌, ◌<◌, ◌⊎◌, ◌++◌, ◌∷◌, [], length, take, IfErr, IfOk, OnErr};
ghost use Rattle.usb_model.specs.World.Journal.{world_run, IsBeginning};
ghost use Rattle.usb_model.specs.World.{turn};
ghost use Rattle.reference.specs.System.{Turns, world_of};

use crate::System;
use std::alloc::{AllocError, Global};
use usb_model::{Entry, Sequence, Setup, Step};

/// A run that found no memory: the entries before the step that found none. They are those of the first so many steps,
/// as many as there are entries, and a step is left; or none was begun, since there was no memory for the system. It
/// isn't handed out: a step that finds no memory leaves it midway.
#[derive(Debug, Drop)]
pub struct Stopped {
    /// The entries so far.
    pub entries: Sequence<Entry>,
}

/// One step more: its entry stands behind the others.
pub(crate) fn advance(
    alloc: Global,
    setup: &Setup,
    system: &mut System,
    step: &Step,
    entries: &mut Sequence<Entry>,
) -> Result<(), AllocError>
    ensures advanced { IfOk result (λ _. let t = turn setup.now (world_of setup.now system.old) step.now in (entries.new ≡ entries.old ++ t.entry ∷ []) × (world_of setup.now system.new ≡ t.world)) }
    ensures kept { OnErr result (entries.new ≡ entries.old) }
{
    let entry = system.turn(alloc, setup, step)?;
    entries.push(entry)
}

/// The entries of these steps, from a system in which no name is open. Where no memory is found, those of the first so
/// many steps.
pub fn run(alloc: Global, setup: &Setup, steps: &[Step]) -> Result<Sequence<Entry>, Stopped>
    ensures entries { IfOk result (λ entries. entries ≡ world_run setup.now steps.now) }
    ensures stopped { IfErr result (λ stopped. IsBeginning stopped.entries (world_run setup.now steps.now)) }
    ensures reached { IfErr result (λ stopped. stopped.entries ≡ world_run setup.now (take (length stopped.entries) steps.now)) }
    ensures left { IfErr result (λ stopped. (stopped.entries ≡ []) ⊎ (length stopped.entries < length steps.now)) }
{
    let mut entries = Sequence::new(alloc);
    let Ok(mut system) = System::new(alloc, setup) else {
        return Err(Stopped { entries });
    };
    for step in steps {
        let Ok(()) = advance(alloc, setup, &mut system, step, &mut entries) else {
            return Err(Stopped { entries });
        };
    }
    Ok(entries)
}
