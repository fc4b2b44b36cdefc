//! What a handle sees amid the others, and what it sees alone.

ghost use Rattle.std.specs.Prelude.{◌≡◌, ◌++◌, ◌∷◌, [], IfOk};
ghost use Rattle.reference.specs.Part.{own_entries, own_steps};
ghost use Rattle.usb_model.specs.World.Journal.{entries, is_held_elsewhere, is_own, is_unplug, own, world_run};
ghost use Rattle.usb_model.specs.Machine.Turns.{alone};
ghost use Rattle.usb_model.specs.World.{is_its};

use crate::journal::run;
use std::alloc::{AllocError, Global};
use usb_model::{Entry, Name, Refused, Reply, Sequence, Setup, Step};

/// A handle's entries amid the others, and alone over its own steps.
#[derive(Debug, Drop)]
pub struct Comparison {
    /// Its entries in the system that it shares with the others.
    pub shared: Sequence<Entry>,
    /// The entries of its own steps in a system of its own.
    pub alone: Sequence<Entry>,
}

/// A handle's own steps of a run, and their entries.
#[derive(Debug, Drop)]
struct Part {
    steps: Sequence<Step>,
    entries: Sequence<Entry>,
}

impl Part {
    /// One step more, kept where it is the handle's own.
    fn take(&mut self, h: Name, step: &Step, entry: Entry) -> Result<(), AllocError>
        ensures steps { IfOk result (λ _. self.new.steps ≡ self.old.steps ++ own_steps h (step.now ∷ []) (entry ∷ [])) }
        ensures entries { IfOk result (λ _. self.new.entries ≡ self.old.entries ++ own_entries h (step.now ∷ []) (entry ∷ [])) }
    {
        if entry.is_own(h, step) {
            self.steps.push(step.clone()?)?;
            self.entries.push(entry)?;
        }
        Ok(())
    }

    /// The handle's own of these steps and entries.
    fn of(alloc: Global, h: Name, steps: &[Step], all: Sequence<Entry>) -> Result<Part, AllocError>
        ensures steps { IfOk result (λ part. part.steps ≡ own_steps h steps.now all) }
        ensures entries { IfOk result (λ part. part.entries ≡ own_entries h steps.now all) }
    {
        let mut part = Part {
            steps: Sequence::new(alloc),
            entries: Sequence::new(alloc),
        };
        let mut left = steps;
        for entry in all.into_vec() {
            match left.split_first() {
                Some((step, rest)) => {
                    part.take(h, step, entry)?;
                    left = rest;
                }
                None => drop(entry),
            }
        }
        Ok(part)
    }
}

/// The entries of these steps, from a system in which no name is open.
fn run_to_end(alloc: Global, setup: &Setup, steps: &[Step]) -> Result<Sequence<Entry>, AllocError>
    ensures { IfOk result (λ entries. entries ≡ world_run setup.now steps.now) }
{
    match run(alloc, setup, steps) {
        Ok(entries) => Ok(entries),
        Err(_) => Err(AllocError),
    }
}

/// From a run's steps and its entries: the handle's own entries, and those of its own steps in a system of their own.
pub(crate) fn compare(
    alloc: Global,
    setup: &Setup,
    steps: &[Step],
    all: Sequence<Entry>,
    h: Name,
) -> Result<Comparison, AllocError>
    requires { all ≡ world_run setup.now steps.now }
    ensures shared { IfOk result (λ b. b.shared ≡ entries setup.now steps.now h) }
    ensures alone { IfOk result (λ b. b.alone ≡ alone setup.now (own setup.now steps.now h) h) }
    ensures runs { IfOk result (λ b. b.alone ≡ world_run setup.now (own setup.now steps.now h)) }
    ensures same { IfOk result (λ b. b.shared ≡ b.alone) }
{
    let part = Part::of(alloc, h, steps, all)?;
    let alone = run_to_end(alloc, setup, part.steps.as_slice())?;
    Ok(Comparison {
        shared: part.entries,
        alone,
    })
}

/// A handle's entries amid the others, and alone over its own steps, in a system of their own. They are the same.
pub fn alone(
    alloc: Global,
    setup: &Setup,
    steps: &[Step],
    h: Name,
) -> Result<Comparison, AllocError>
    ensures shared { IfOk result (λ b. b.shared ≡ entries setup.now steps.now h) }
    ensures alone { IfOk result (λ b. b.alone ≡ alone setup.now (own setup.now steps.now h) h) }
    ensures runs { IfOk result (λ b. b.alone ≡ world_run setup.now (own setup.now steps.now h)) }
    ensures same { IfOk result (λ b. b.shared ≡ b.alone) }
{
    let all = run_to_end(alloc, setup, steps)?;
    compare(alloc, setup, steps, all, h)
}
