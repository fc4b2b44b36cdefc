//! The book, from its first place to its end.

ghost use Rattle.std.specs.Prelude.{◌≡◌, IfOk, IfSome, [], length, slice_get};
ghost use Rattle.std.specs.Option.{option_map_or};
ghost use Rattle.usb_model.specs.declared.step.Step.TheVariants.{Command, Deliver, Take};
ghost use Rattle.usb_core.specs.Public.{Carries, IsPending, Kept, does_something, setup_of};
ghost use Rattle.usb_receipts.specs.Tokens.{new_keeper};
ghost use Rattle.usb_journal.specs.Booked.{HasEvents, IsRun, Looks, world_where};
ghost use Rattle.usb_receipts.specs.Rule.{BeginsWith};

use crate::closed::Closing;
use crate::events::Events;
use crate::log::Log;
use crate::naming::Naming;
use crate::position::{Past, Position};
use crate::receipt::Receipt;
use crate::timer::Timer;
use std::alloc::{AllocError, Global};
use std::marker::Model;
use std::sync::ledger::{self, Share};
use usb_core::{Core, Pending, Setup};
use usb_device::Device;
use usb_model::{DeviceNo, EpAddr};
use usb_receipts::Keeper;
use usb_recorder::{PlaceImage, Recorder};

/// The core, the moment, and the journal of the core's steps. The journal stands in the proofs; at run time there is
/// what the recorder keeps of it.
#[derive(Drop)]
pub struct JournaledCore<L: Naming, P, D: Device, J: Recorder> {
    pub(crate) core: Core<P, D>,
    pub(crate) moment: u64,
    pub(crate) log: Log<L, J>,
    pub(crate) timers: Vec<Timer>,
    pub(crate) alloc: Global,
}

/// Contracts see the devices, the journal, the moment in milliseconds, and what the core keeps. The entries of the journal
/// are those of the run of its steps, and the core shows the world where that ends.
impl<L: Naming, P, D: Device, J: Recorder> Model for JournaledCore<L, P, D, J> {
    ghost use Rattle.std.specs.Prelude.{◌≡◌};
    ghost use Rattle.usb_journal.specs.Booked.{Booked, Replays};
    ghost use Rattle.usb_journal.specs.Timers.{timers_of};

    ghost Value = { Booked P };

    ghost view = { λ b. record { setup = L.setup; journal = b.log.journal; moment = b.moment; core = b.core } };

    ghost invariant = { λ b. Replays L.setup b.log.journal b.core × (b.timers.items ≡ timers_of b.log.journal) };
}

impl<L: Naming, P, D: Device, J: Recorder> JournaledCore<L, P, D, J> {
    /// No step was made, at moment 0. Log and ledger are the library's, with nothing in them. An error where memory is wanting.
    pub fn new(
        alloc: Global,
        setup: Setup<D>,
        log: usb_receipts::Log<PlaceImage>,
        keeper: Keeper<PlaceImage>,
        total: ledger::Book<L>,
    ) -> Result<JournaledCore<L, P, D, J>, AllocError>
        requires setup { setup_of setup ≡ L.setup }
        requires log { log ≡ L.table }
        requires keeper { keeper ≡ new_keeper log }
        requires total { total.total ≡ 0 }
        ensures setup { IfOk result (λ b. b.setup ≡ L.setup) }
        ensures empty { IfOk result (λ b. b.journal ≡ []) }
        ensures moment { IfOk result (λ b. b.moment ≡ 0) }
        ensures carries { IfOk result (λ b. (kept : Kept P) → Carries kept b.core) }
    {
        let core = Core::new(alloc, setup)?;
        let log = Log::new(alloc, log, keeper, total);
        let timers = Vec::new(alloc);
        Ok(JournaledCore {
            core,
            moment: 0,
            log,
            timers,
            alloc,
        })
    }

    /// How many places the journal has.
    pub fn len(&self) -> u64
        ensures { result ≡ length self.now.journal }
    {
        self.log.len()
    }

    /// The moment, in milliseconds.
    pub fn moment(&self) -> u64
        ensures { result ≡ self.now.moment }
    {
        self.moment
    }

    /// How many bytes the next result has that is taken; 0 where none waits.
    pub fn next_len(&self) -> usize
        ensures { result ≡ option_map_or (λ t. length t.piece.bytes) (slice_get (world_where self.now.setup self.now.journal).results 0) 0 }
    {
        self.core.next_len()
    }

    /// What is to be done next, looked for from behind this endpoint on. Takes no memory.
    pub fn pending(&self, after: Option<(DeviceNo, EpAddr)>) -> Pending
        ensures pending { IsPending self.now.setup (world_where self.now.setup self.now.journal) after result }
        ensures run { IsRun self.now.setup self.now.journal }
        ensures setup { self.now.setup ≡ L.setup }
    {
        self.core.pending(after)
    }

    /// Whether an order waits for the controller. Takes no memory.
    pub fn has_order(&self) -> bool
        ensures { result ≡ does_something self.now.setup (world_where self.now.setup self.now.journal) Command }
    {
        self.core.has_order()
    }

    /// A position at the end of the journal, with a share that counts nothing; its bearer has no places yet, and a number of its own.
    /// None where no number is left.
    pub fn position(&mut self, share: Share<L>) -> Option<Position<L>>
        requires { (share.parts ≡ 1) × (share.amount ≡ 0) }
        ensures position { IfSome result (λ p. (p.seen ≡ self.old.journal) × (p.own ≡ [])) }
        ensures same { self.new ≡ self.old }
    {
        self.log.position(share)
    }

    /// What was seen for a position.
    pub fn remember(&self, position: &mut Position<L>) -> Past<L>
        ensures same { position.new ≡ position.old }
        ensures past { result ≡ position.old.seen }
    {
        self.log.remember(position)
    }

    /// A position is moved to the end of the journal, and what is to be done next is looked for, from behind this endpoint on: in the
    /// world where the run of all that it has seen ends. Takes no memory.
    pub fn look(
        &mut self,
        position: &mut Position<L>,
        past: &mut Past<L>,
        after: Option<(DeviceNo, EpAddr)>,
    ) -> Pending
        ensures pending { IsPending L.setup (world_where L.setup position.new.seen) after result }
        ensures looks { Looks L.setup position.old position.new }
        ensures behind { BeginsWith past.old position.new.seen }
        ensures past { past.new ≡ position.new.seen }
        ensures same { self.new ≡ self.old }
    {
        self.log.look_behind(position, past);
        self.core.pending(after)
    }

    /// The same, and whether an event waits to be handled, and whether a result waits to go out, there.
    pub fn look_for_events(&mut self, position: &mut Position<L>, past: &mut Past<L>) -> Events
        ensures events { HasEvents L.setup position.new.seen result }
        ensures looks { Looks L.setup position.old position.new }
        ensures behind { BeginsWith past.old position.new.seen }
        ensures past { past.new ≡ position.new.seen }
        ensures same { self.new ≡ self.old }
    {
        self.log.look_behind(position, past);
        Events {
            deliver: self.core.has_event(),
            take: self.core.has_result(),
        }
    }

    /// No step is made any more.
    pub fn close(self) -> Closing<L, P, D, J>
        ensures { result ≡ record { setup = L.setup; journal = self.journal; core = self.core; back = [] } }
    {
        let JournaledCore { core, log, .. } = self;
        let Log {
            recorder,
            places,
            log,
            keeper,
            total,
            ..
        } = log;
        Closing {
            recorder,
            places,
            log,
            keeper,
            total,
            core,
        }
    }
}
