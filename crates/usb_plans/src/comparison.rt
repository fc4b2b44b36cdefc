//! What a handle sees amid the others over one core, and what it sees alone over another.

ghost use Rattle.std.specs.Prelude.{◌≡◌, IfOk};
ghost use Rattle.std.specs.Vec.Iter.{into_iter_items};
ghost use Rattle.usb_model.specs.Machine.Turns.{alone};
ghost use Rattle.usb_model.specs.World.Journal.{entries, own, world_run};
ghost use Rattle.usb_core.specs.Public.{TurnsWorld, setup_of};
ghost use Rattle.usb_plans.specs.Alone.{AreCalledInOrder, AreCalledOnce, IsNext, IsPart, MakesOwn, RunsPicked, Shares, TellsPart, picked};

use std::alloc::{AllocError, Global};
use std::vec::IntoIter;
use usb_core::{Core, Setup};
use usb_device::Device;
use usb_model::{Entry, Name, Sequence, Step};

/// A handle's entries amid the others, and alone over its own steps.
#[derive(Debug, Drop)]
pub struct Comparison {
    /// Its entries in the system that it shares with the others.
    pub shared: Sequence<Entry>,
    /// The entries of its own steps in a system of its own.
    pub alone: Sequence<Entry>,
}

/// A handle's part of a run amid the others.
#[derive(Drop)]
pub(crate) struct Part {
    /// Its entries.
    pub(crate) entries: Sequence<Entry>,
    /// Of each step, or piece of a plan, whether it is the handle's own.
    pub(crate) own: Sequence<bool>,
}

/// Whether the next step, or piece, is the handle's own.
pub(crate) fn is_next_own(own: &mut IntoIter<bool>) -> bool
    ensures { IsNext (into_iter_items own.old) (into_iter_items own.new) result }
{
    match own.next() {
        Some(next) => next,
        None => false,
    }
}

/// Makes a step, and gives its entry.
fn turn<D: Device>(core: &mut Core<(), D>, step: &Step) -> Result<Entry, AllocError>
    ensures { IfOk result (λ entry. TurnsWorld core.old step.now entry core.new) }
{
    let payload = if step.takes_payload() { Some(()) } else { None };
    match core.step(step.clone()?, payload) {
        Ok(stepped) => Ok(stepped.entry),
        Err(_) => Err(AllocError),
    }
}

/// One step more amid the others. Whether it is the handle's own stands behind the rest, and so does its entry, if it is.
fn share<D: Device>(
    core: &mut Core<(), D>,
    h: Name,
    step: &Step,
    part: &mut Part,
) -> Result<(), AllocError>
    ensures { IfOk result (λ _. Shares h step.now core.old core.new part.old part.new) }
{
    let entry = turn(core, step)?;
    let own = entry.is_own(h, step);
    part.own.push(own)?;
    if !own {
        return Ok(());
    }
    part.entries.push(entry)?;
    Ok(())
}

/// Makes all steps by a core in which no name has a device open. The core is lent, since each way out of its owner drops
/// it, which is dear to prove.
fn share_all<D: Device>(
    alloc: Global,
    core: &mut Core<(), D>,
    steps: &[Step],
    h: Name,
) -> Result<Part, AllocError>
    ensures { IfOk result (λ part. TellsPart steps.now h core.old core.new part) }
{
    let mut part = Part {
        entries: Sequence::new(alloc),
        own: Sequence::new(alloc),
    };
    for step in steps {
        share(core, h, step, &mut part)?;
    }
    Ok(part)
}

/// The same by a core of its own, which then hands its devices back.
fn amid<D: Device>(
    alloc: Global,
    setup: Setup<D>,
    steps: &[Step],
    h: Name,
) -> Result<(Part, Setup<D>), AllocError>
    ensures part { IfOk result (λ x. IsPart (setup_of setup) steps.now h x.0) }
    ensures back { IfOk result (λ x. setup_of x.1 ≡ setup_of setup) }
{
    let mut core = Core::new(alloc, setup)?;
    let part = share_all(alloc, &mut core, steps, h)?;
    Ok((part, core.into_setup()))
}

/// Makes a step, if it is the handle's own; its entry then stands behind the others.
fn make_own<D: Device>(
    core: &mut Core<(), D>,
    own: bool,
    step: &Step,
    entries: &mut Sequence<Entry>,
) -> Result<(), AllocError>
    ensures { IfOk result (λ _. MakesOwn own step.now core.old core.new entries.old entries.new) }
{
    if !own {
        return Ok(());
    }
    let entry = turn(core, step)?;
    entries.push(entry)?;
    Ok(())
}

/// Makes the handle's own steps by a core that is lent and in which no name has a device open.
fn make_all_own<D: Device>(
    alloc: Global,
    core: &mut Core<(), D>,
    steps: &[Step],
    own: Sequence<bool>,
) -> Result<Sequence<Entry>, AllocError>
    ensures { IfOk result (λ entries. RunsPicked steps.now own core.old entries) }
{
    let mut left = own.into_vec().into_iter();
    let mut entries = Sequence::new(alloc);
    for step in steps {
        let mine = is_next_own(&mut left);
        make_own(core, mine, step, &mut entries)?;
    }
    Ok(entries)
}

/// The same by a core of its own.
fn apart<D: Device>(
    alloc: Global,
    setup: Setup<D>,
    steps: &[Step],
    own: Sequence<bool>,
) -> Result<Sequence<Entry>, AllocError>
    ensures { IfOk result (λ entries. entries ≡ world_run (setup_of setup) (picked own steps.now)) }
{
    let mut core = Core::new(alloc, setup)?;
    make_all_own(alloc, &mut core, steps, own)
}

/// A handle's entries amid the others, and alone over its own steps, by two runs over the same devices: one of all steps,
/// and then, when the devices are handed back, one of its own by themselves. A step is the handle's own where its entry
/// is the handle's and doesn't say that another held an interface; an Unplug is each handle's own. Both lists are the
/// same, and those of the definitions' machine of this one handle.
pub fn alone<D: Device>(
    alloc: Global,
    setup: Setup<D>,
    steps: &[Step],
    h: Name,
) -> Result<Comparison, AllocError>
    ensures shared { IfOk result (λ c. c.shared ≡ entries (setup_of setup) steps.now h) }
    ensures alone { IfOk result (λ c. c.alone ≡ alone (setup_of setup) (own (setup_of setup) steps.now h) h) }
    ensures runs { IfOk result (λ c. c.alone ≡ world_run (setup_of setup) (own (setup_of setup) steps.now h)) }
    ensures same { IfOk result (λ c. c.shared ≡ c.alone) }
    ensures once { IfOk result (λ c. AreCalledOnce c.shared) }
    ensures order { IfOk result (λ c. AreCalledInOrder c.shared) }
{
    let (part, back) = amid(alloc, setup, steps, h)?;
    let Part { entries, own } = part;
    let alone = apart(alloc, back, steps, own)?;
    Ok(Comparison {
        shared: entries,
        alone,
    })
}
