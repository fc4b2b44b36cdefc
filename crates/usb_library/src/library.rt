//! The library as threads share it.

ghost use Rattle.std.specs.Prelude.{◌≡◌, [], IfErr, IfOk, OnErr, false};
ghost use Rattle.usb_model.specs.declared.refused.Refused.TheVariants.{Busy};
ghost use Rattle.usb_model.specs.Numbers.{takes_payload};
ghost use Rattle.usb_library.specs.Calls.{Makes, misses};
ghost use Rattle.usb_library.specs.Wakes.{WakesSince, if_changed};

use crate::answered::Answered;
use crate::caller::Caller;
use crate::callers::Callers;
use crate::look::Look;
use crate::met::Met;
use crate::opening::Opening;
use crate::payload::{Payload, Suiting};
use crate::wakes::{Watchers, Work};
use crossbeam_utils::Backoff;
use std::alloc::{AllocError, Global};
use std::marker::{Model, PhantomData};
use std::sync::{Mutex, MutexGuard, Wait};
use usb_device::Device;
use usb_journal::{JournaledCore, Naming, Receipt, Recorder};
use usb_model::{Refused, Step};

/// How often a call that found the lock taken looks whether it is free, before it sleeps: by pauses that double up to 64, for some five
/// microseconds, and then by yields. Whoever holds it mostly lets go sooner, and to be woken from sleep takes longer.
const LOOKS: u32 = 32;

/// What the lock guards.
#[derive(Drop)]
pub struct Guarded<L: Naming, P, D: Device, J: Recorder, S: Suiting<P>> {
    /// The core with its journal.
    pub(crate) book: JournaledCore<L, P, D, J>,
    /// How many callers were made.
    pub(crate) callers: Callers<L>,
    /// Where the next packet is looked for.
    pub(crate) look: Look,
    /// Whom payloads suit. It is a type beside theirs: those may be closures, of which the view of a type can't ask for a trait.
    pub(crate) whom: PhantomData<S>,
}

/// Contracts see the book, and how many callers were made. What is kept with each transfer in flight suits its name.
impl<L: Naming, P, D: Device, J: Recorder, S: Suiting<P>> Model for Guarded<L, P, D, J, S> {
    ghost use Rattle.usb_library.specs.Suits.{AllSuit, Guarding};

    ghost Value = { Guarding P };

    ghost view = { λ g. record { book = g.book; callers = g.callers } };

    ghost invariant = { λ g. AllSuit S.suits g.book.core };
}

/// A core under a lock, with what callers keep with their transfers (`P`), devices (`D`), and a recorder that keeps the
/// journal, or nothing of it (`J`).
///
/// # The one lock
///
/// Each call takes the lock of what is guarded, makes one step at most, and lets go of it before it comes back. Whoever holds
/// it takes no other lock, calls no callback and waits for nothing: a callback is handed out by `take`, and whoever took it
/// calls it with no lock held. So a callback may call the library itself. After that lock is free the watchers' own is
/// taken, to unpark them; the two are never held together. What must not change: the step and its place of the journal are
/// made under one hold of the lock, else the journal's order isn't that of the core.
#[derive(Drop)]
pub struct Library<L: Naming, P: Payload, D: Device, J: Recorder> {
    pub(crate) guarded: Mutex<Guarded<L, P, D, J, P::Whom>>,
    pub(crate) watchers: Watchers,
    pub(crate) met: Met,
}

impl<L: Naming, P: Payload, D: Device, J: Recorder> Library<L, P, D, J> {
    /// A library with these devices, and no caller. An error where memory is refused.
    pub fn new(alloc: Global, opening: Opening<D>) -> Result<Library<L, P, D, J>, AllocError>
        requires name { opening.name ≡ L.name }
        requires parts { (L.parts ≡ 1025) × (opening.parts ≡ L.parts) }
        requires table { opening.table ≡ L.table }
        requires setup { opening.setup ≡ L.setup }
    {
        let Opening {
            log,
            keeper,
            blank,
            setup,
        } = opening;
        let (total, spare) = blank.open::<L>();
        let book = JournaledCore::new(alloc, setup, log, keeper, total)?;
        Ok(Library {
            guarded: Mutex::new(Guarded {
                book,
                callers: Callers::new(spare),
                look: Look::new(),
                whom: PhantomData,
            }),
            watchers: Watchers::new(alloc),
            met: Met::new(),
        })
    }

    /// One more caller. It has no places yet, and memory was refused to none of its calls. Busy where there are 1,024: a library has no more, since each is counted at its
    /// end.
    pub fn caller<R: Wait>(&self, rt: &R) -> Result<Caller<L>, Refused>
        ensures made { IfOk result (λ c. (c.own ≡ []) × (c.missed ≡ 0)) }
        ensures refused { IfErr result (λ why. why ≡ Busy) }
    {
        let mut guarded = self.lock(rt);
        let Some(share) = guarded.callers.one_more() else {
            return Err(Refused::Busy);
        };
        let Some(position) = guarded.book.position(share) else {
            return Err(Refused::Busy);
        };
        Ok(Caller {
            position,
            missed: 0,
            looks_again: false,
        })
    }

    /// Takes the lock. Inlined, so that a lock that is free is taken without a call.
    #[inline(always)]
    pub(crate) fn lock<R: Wait>(&self, rt: &R) -> MutexGuard<'_, Guarded<L, P, D, J, P::Whom>> {
        if let Some(guard) = self.guarded.try_lock() {
            return guard;
        }
        self.lock_later(rt)
    }

    /// The same where it was found taken: it is looked for a while before the thread sleeps.
    #[inline(never)]
    fn lock_later<R: Wait>(&self, rt: &R) -> MutexGuard<'_, Guarded<L, P, D, J, P::Whom>> {
        let backoff = Backoff::new();
        for _ in 0..LOOKS {
            backoff.snooze();
            if let Some(guard) = self.guarded.try_lock() {
                return guard;
            }
        }
        self.guarded.lock(rt)
    }

    /// Makes a step that submits nothing and takes nothing out. An error where memory is refused: then nothing changed.
    pub(crate) fn call<R: Wait>(
        &self,
        rt: &R,
        caller: &mut Caller<L>,
        step: Step,
    ) -> Result<Answered<L>, AllocError>
        requires { takes_payload step ≡ false }
        ensures made { IfOk result (λ x. Makes L.setup step caller.old caller.new x.receipt) }
        ensures entry { IfOk result (λ x. x.entry ≡ x.receipt.entry.entry) }
        ensures refused { OnErr result (caller.new ≡ misses caller.old) }
    {
        let recorded = self.lock(rt).book.record(step, &mut caller.position, None);
        let Ok((receipt, stepped)) = caller.counted(recorded) else {
            return Err(AllocError);
        };
        let answered = Answered {
            receipt,
            entry: stepped.entry,
        };
        let changed = answered.has_changed();
        self.wake_if(rt, caller, &answered.receipt, changed, Work::Any);
        Ok(answered)
    }

    /// Where something changed those are woken who wait for that. `work` names each worker that has work since the caller's
    /// step at this receipt's place and had none before; where nothing changed there is none.
    #[inline(always)]
    pub(crate) fn wake_if<R: Wait>(
        &self,
        rt: &R,
        caller: &Caller<L>,
        receipt: &Receipt<L>,
        changed: bool,
        work: Work,
    )
        requires { WakesSince L.setup caller.now.seen receipt.now.place (if_changed changed work) }
    {
        if changed {
            self.watchers.wake(rt, work, caller.looks_again);
        }
    }
}
