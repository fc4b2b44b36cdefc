//! A library from its opening to its end.

ghost use Rattle.std.specs.Prelude.{◌≡◌, ◌==◌, ◌-◌, ◌^◌, ◌∷◌, false, true, IfOk, map};
ghost use Rattle.std.specs.List.{list_all};
ghost use Rattle.usb_core.specs.Public.{setup_of};
ghost use Rattle.usb_workers.specs.Rounds.{MayAnswer};
ghost use Rattle.usb_workers.specs.Life.{AreAll, KeepsRun, LivedBy, TellsRest};

use crate::driver::Driver;
use crate::gates::Gates;
use crate::seat::{caller_of, seated};
use crate::threads::{Back, Post, run_all};
use crate::{Gate, Open};
use std::alloc::{AllocError, Global};
use std::marker::Brand;
use std::sync::Wait;
use std::thread::Threads;
use usb_core::{Callback, Core, Setup};
use usb_device::Device;
use usb_journal::{Naming, Recorder, WholeJournal};
use usb_library::{Caller, Library, Opening, Payload};

/// What a library that lived leaves, and its drivers.
#[derive(Drop)]
pub struct Lived<C, D: Device, J, X> {
    /// The journal, for contracts alone: it has no bytes.
    pub journal: WholeJournal,
    /// What was kept of the journal.
    pub kept: J,
    /// How many places the journal has.
    pub places: u64,
    /// The core, with its devices.
    pub core: Core<C, D>,
    /// What each driver left, in the order of the drivers.
    pub left: Vec<X>,
    /// Whether nothing was left to be done, and no transfer was in its callback. It is so unless a worker gave up for want of memory.
    pub at_rest: bool,
    /// Whether memory was refused to one of the callers, a worker's or a driver's. A worker tried again; but a callback may have ended early
    /// for it, or a transfer be in flight still.
    pub lacked_memory: bool,
    /// How many callbacks ended early: their verdict was to submit the transfer once more, and that was refused, or there was no memory.
    pub cuts: u64,
}

/// A library over these devices lives as long as its drivers do, and until nothing that they left in progress can go on: packets,
/// orders, events and callbacks. A transfer that its device doesn't end stays in flight, and the core that comes back has it. Each
/// driver has a thread of its own, and so have the two workers. An error where memory is refused to what isn't a worker, or a thread
/// can't be made; what workers met is told in `Lived`.
pub fn live<
    C: Callback + Payload + Send,
    D: Device + Send,
    J: Recorder + Send,
    T: Driver<C> + Drop + Send,
    R: Threads + Wait + Sync,
>(
    rt: &R,
    alloc: Global,
    setup: Setup<D>,
    drivers: Vec<T>,
) -> Result<Lived<C, D, J, T::Left>, AllocError>
where
    J::Draft: Send,
    C::Whom: Send,
    T::Left: Drop + Send,
    ensures run { IfOk result (λ l. KeepsRun J.stands (setup_of setup) l.journal l.kept l.places l.core) }
    ensures rest { IfOk result (λ l. TellsRest (setup_of setup) l.journal l.at_rest) }
    ensures by { IfOk result (λ l. LivedBy (MayAnswer (2 ^ 64 - 1) C.Whom.suits C.may_answer C.rule) T.makes (setup_of setup) l.journal drivers.items l.left.items l.lacked_memory) }
{
    live_gated::<C, D, J, Open, T, R>(rt, alloc, setup, Gates::open(), u64::MAX, drivers)
}

/// The same with gates, which the workers pass before each of their acts; and where only so many callbacks may answer as they like: each that
/// is called behind those is at its end, whatever it answers.
pub fn live_gated<
    C: Callback + Payload + Send,
    D: Device + Send,
    J: Recorder + Send,
    G: Gate + Drop + Send,
    T: Driver<C> + Drop + Send,
    R: Threads + Wait + Sync,
>(
    rt: &R,
    alloc: Global,
    setup: Setup<D>,
    gates: Gates<G>,
    rounds: u64,
    drivers: Vec<T>,
) -> Result<Lived<C, D, J, T::Left>, AllocError>
where
    J::Draft: Send,
    C::Whom: Send,
    T::Left: Drop + Send,
    ensures run { IfOk result (λ l. KeepsRun J.stands (setup_of setup) l.journal l.kept l.places l.core) }
    ensures rest { IfOk result (λ l. TellsRest (setup_of setup) l.journal l.at_rest) }
    ensures by { IfOk result (λ l. LivedBy (MayAnswer rounds C.Whom.suits C.may_answer C.rule) T.makes (setup_of setup) l.journal drivers.items l.left.items l.lacked_memory) }
{
    let Ok(opening) = Opening::new(alloc, setup) else {
        return Err(AllocError);
    };
    named::<Brand, C, D, J, G, T, R>(rt, alloc, opening, gates, rounds, drivers)
}

/// The same over what a library is made of, under its name.
fn named<
    L: Naming + Send + Sync,
    C: Callback + Payload + Send,
    D: Device + Send,
    J: Recorder + Send,
    G: Gate + Drop + Send,
    T: Driver<C> + Drop + Send,
    R: Threads + Wait + Sync,
>(
    rt: &R,
    alloc: Global,
    opening: Opening<D>,
    gates: Gates<G>,
    rounds: u64,
    drivers: Vec<T>,
) -> Result<Lived<C, D, J, T::Left>, AllocError>
where
    J::Draft: Send,
    C::Whom: Send,
    T::Left: Drop + Send,
    requires name { opening.name ≡ L.name }
    requires parts { (L.parts ≡ 1025) × (opening.parts ≡ L.parts) }
    requires table { opening.table ≡ L.table }
    requires setup { opening.setup ≡ L.setup }
    ensures run { IfOk result (λ l. KeepsRun J.stands L.setup l.journal l.kept l.places l.core) }
    ensures rest { IfOk result (λ l. TellsRest L.setup l.journal l.at_rest) }
    ensures by { IfOk result (λ l. LivedBy (MayAnswer rounds C.Whom.suits C.may_answer C.rule) T.makes L.setup l.journal drivers.items l.left.items l.lacked_memory) }
{
    let library = Library::<L, C, D, J>::new(alloc, opening)?;
    let controller = Post {
        caller: caller_of(rt, &library)?,
        gate: gates.controller,
    };
    let events = Post {
        caller: caller_of(rt, &library)?,
        gate: gates.events,
    };
    let seats = seated(rt, alloc, &library, drivers)?;
    let back = run_all(rt, alloc, &library, controller, events, rounds, seats)?;
    ended(alloc, library, back)
}

/// The library's end, once all its callers are back: its journal's places are theirs, and they know it.
fn ended<L: Naming, C: Payload, D: Device, J: Recorder, X: Drop>(
    alloc: Global,
    library: Library<L, C, D, J>,
    back: Back<L, X>,
) -> Result<Lived<C, D, J, X>, AllocError>
    requires { L.parts ≡ 1025 }
    ensures run { IfOk result (λ l. KeepsRun J.stands L.setup l.journal l.kept l.places l.core) }
    ensures rest { IfOk result (λ l. TellsRest L.setup l.journal l.at_rest) }
    ensures callers { IfOk result (λ l. AreAll l.journal (back.controller ∷ back.events ∷ map (λ h. h.caller) back.homes.items)) }
    ensures left { IfOk result (λ l. l.left.items ≡ map (λ h. h.left) back.homes.items) }
    ensures lacks { IfOk result (λ l. l.lacked_memory ≡ false → list_all (λ c. c.missed == 0) (back.controller ∷ back.events ∷ map (λ h. h.caller) back.homes.items) ≡ true) }
{
    let (callers, left) = apart(alloc, back)?;
    let have_all = have_all(&callers);
    let Ok(ended) = library.finish(callers, Vec::new(alloc)) else {
        return Err(AllocError);
    };
    let at_rest = ended.is_at_rest();
    Ok(Lived {
        journal: ended.journal,
        kept: ended.recorder,
        places: ended.places,
        core: ended.core,
        left,
        at_rest,
        lacked_memory: ended.lacked_memory || !have_all,
        cuts: ended.cuts,
    })
}

/// Whether memory was refused to no call of a caller.
fn has_all<L: Naming>(caller: &Caller<L>) -> bool
    ensures { result ≡ (caller.now.missed == 0) }
{
    caller.missed() == 0
}

/// Whether it was refused to none of these.
fn have_all<L: Naming>(callers: &[Caller<L>]) -> bool
    ensures { result ≡ list_all (λ c. c.missed == 0) callers.now }
{
    callers.iter().all(|caller| has_all(caller))
}

/// All callers, and what the drivers left.
fn apart<L: Naming, X: Drop>(
    alloc: Global,
    back: Back<L, X>,
) -> Result<(Vec<Caller<L>>, Vec<X>), AllocError>
    ensures callers { IfOk result (λ x. x.0.items ≡ back.controller ∷ back.events ∷ map (λ h. h.caller) back.homes.items) }
    ensures left { IfOk result (λ x. x.1.items ≡ map (λ h. h.left) back.homes.items) }
{
    let Back {
        controller,
        events,
        homes,
    } = back;
    let mut callers = Vec::new(alloc);
    let mut left = Vec::with_capacity(alloc, homes.len())?;
    callers.push(controller)?;
    callers.push(events)?;
    for home in homes {
        callers.push(home.caller)?;
        left.push(home.left)?;
    }
    Ok((callers, left))
}
