//! The journal, as a book has it.

ghost use Rattle.std.specs.Prelude.{◌≡◌, ◌++◌, ◌+◌, ◌-◌, ◌^◌, ◌<◌, ◌≤◌, ◌∷◌, ℕ, [], IfOk, IfSome, OnOk, length};
ghost use Rattle.usb_receipts.specs.Tokens.{new_keeper};
ghost use Rattle.usb_journal.specs.Booked.{IsMoved, Sees};
ghost use Rattle.usb_recorder.specs.Records.{bytes_in, sent_by};
ghost use Rattle.usb_receipts.specs.Rule.{BeginsWith};
ghost use Rattle.usb_journal.specs.Seen.{claims_of, positioned};

use crate::naming::Naming;
use crate::position::{Past, Position};
use crate::receipt::Receipt;
use std::alloc::{AllocError, Global};
use std::marker::{Model, PhantomData};
use std::sync::ledger::{self, Share};
use usb_model::{Entry, Step};
use usb_receipts::{Image, Keeper};
use usb_recorder::{PlaceImage, Recorder, sent_by};

/// What is kept of the places, how many there are, how many positions were given, the log with its keeper, on which they all stand,
/// and the ledger that counts the places by those who made them.
#[derive(Drop)]
pub(crate) struct Log<L: Naming, J: Recorder> {
    pub(crate) recorder: J,
    pub(crate) places: u64,
    bearers: u32,
    pub(crate) log: usb_receipts::Log<PlaceImage>,
    pub(crate) keeper: Keeper<PlaceImage>,
    pub(crate) total: ledger::Book<L>,
}

/// Contracts see the places, and the recorder for the room that it has.
impl<L: Naming, J: Recorder> Model for Log<L, J> {
    ghost use Rattle.std.specs.Prelude.{◌≡◌, [], length};
    ghost use Rattle.usb_journal.specs.Seen.{Logged};

    ghost Value = { Logged J };

    ghost view = { λ l. record { journal = l.keeper.entries; recorder = l.recorder } };

    ghost invariant = { λ l. (l.log ≡ L.table) × (l.keeper.log ≡ L.table) × (l.keeper.taken ≡ []) × (l.keeper.back ≡ []) × (l.keeper.next ≡ l.bearers) × (l.places ≡ length l.keeper.entries) × (l.total.total ≡ length l.keeper.entries) × J.stands l.recorder l.keeper.entries };
}

impl<L: Naming, J: Recorder> Log<L, J> {
    /// No place.
    pub(crate) fn new(
        alloc: Global,
        log: usb_receipts::Log<PlaceImage>,
        keeper: Keeper<PlaceImage>,
        total: ledger::Book<L>,
    ) -> Log<L, J>
        requires log { log ≡ L.table }
        requires keeper { keeper ≡ new_keeper log }
        requires total { total.total ≡ 0 }
        ensures { result.journal ≡ [] }
    {
        Log {
            recorder: J::new(alloc),
            places: 0,
            bearers: 0,
            log,
            keeper,
            total,
        }
    }

    /// How many places there are.
    pub(crate) fn len(&self) -> u64
        ensures { result ≡ length self.now.journal }
    {
        self.places
    }

    /// A position at the end, with a share that counts nothing; its bearer has no places yet, and a number of its own. None where no
    /// number is left.
    pub(crate) fn position(&mut self, share: Share<L>) -> Option<Position<L>>
        requires { (share.parts ≡ 1) × (share.amount ≡ 0) }
        ensures position { IfSome result (λ p. (p.seen ≡ self.old.journal) × (p.own ≡ [])) }
        ensures same { self.new ≡ self.old }
    {
        let number = self.bearers;
        self.bearers = number.checked_add(1)?;
        Some(Position {
            number,
            position: self.log.position(&mut self.keeper),
            share,
        })
    }

    /// Moves a position to the end of the journal, which began with what was seen there, and has no place of its bearer's since.
    pub(crate) fn look(&mut self, position: &mut Position<L>)
        ensures position { position.new ≡ positioned position.old.number self.old.journal }
        ensures own { position.new.own ≡ position.old.own }
        ensures began { BeginsWith position.old.seen self.old.journal }
        ensures above { position.old.position ≤ length self.old.journal }
        ensures same { self.new ≡ self.old }
    {
        self.log.look(&mut self.keeper, &mut position.position);
    }

    /// What was seen for a position, which is left as it was.
    pub(crate) fn remember(&self, position: &mut Position<L>) -> Past<L>
        ensures same { position.new ≡ position.old }
        ensures past { result ≡ position.old.seen }
    {
        Past {
            past: self.log.remember(&mut position.position),
            library: PhantomData,
        }
    }

    /// The same as `look`; and the journal began with what anybody saw once.
    pub(crate) fn look_behind(&mut self, position: &mut Position<L>, past: &mut Past<L>)
        ensures position { position.new ≡ positioned position.old.number self.old.journal }
        ensures own { position.new.own ≡ position.old.own }
        ensures began { BeginsWith position.old.seen self.old.journal }
        ensures behind { BeginsWith past.old self.old.journal }
        ensures past { past.new ≡ self.old.journal }
        ensures above { position.old.position ≤ length self.old.journal }
        ensures same { self.new ≡ self.old }
    {
        self.log
            .look_behind(&mut self.keeper, &mut position.position, &mut past.past);
    }

    /// Makes room for so many more places, with so many bytes in all. The last number of a place is 2^64 - 2.
    #[inline(always)]
    pub(crate) fn reserve(&mut self, places: usize, bytes: usize) -> Result<(), AllocError>
        ensures room { OnOk result ((length self.old.journal + places < 2 ^ 64) × J.has_room self.new.recorder places bytes) }
        ensures same { self.new.journal ≡ self.old.journal }
    {
        if u64::MAX - self.places < places as u64 {
            return Err(AllocError);
        }
        self.recorder.reserve(places, bytes)
    }

    /// Asks for all that a place of this step takes, whose reply has no bytes, and has it drafted.
    #[inline(always)]
    pub(crate) fn prepare(&mut self, step: &Step) -> Result<J::Draft, AllocError>
        ensures draft { IfOk result (λ draft. J.is_draft self.new.recorder draft step.now) }
        ensures room { OnOk result ((length self.old.journal + 1 < 2 ^ 64) × J.has_room self.new.recorder 1 0) }
        ensures same { self.new.journal ≡ self.old.journal }
    {
        self.reserve(1, sent_by(step).len())?;
        Ok(self.recorder.draft(step))
    }

    /// One place more, of the step that was drafted last, for the bearer of the position. Takes no memory.
    #[inline(always)]
    pub(crate) fn enter_drafted(
        &mut self,
        position: &mut Position<L>,
        draft: J::Draft,
        told: PlaceImage,
        entry: &Entry,
    ) -> Receipt<L>
        requires count { length self.old.journal + 1 < 2 ^ 64 }
        requires room { (places : ℕ) × (bytes : ℕ) × J.has_room self.old.recorder places bytes × (1 ≤ places) × (bytes_in entry.now.reply ≤ bytes) }
        requires told { told.entry ≡ entry.now }
        requires bearer { told.caller ≡ position.old.number }
        requires draft { J.is_draft self.old.recorder draft told.step }
        ensures receipt { result ≡ record { place = length self.old.journal; entry = told } }
        ensures journal { self.new.journal ≡ self.old.journal ++ result.entry ∷ [] }
        ensures position { IsMoved position.old result position.new }
        ensures saw { Sees position.old self.old.journal position.new self.new.journal }
        ensures room { (places bytes : ℕ) → J.has_room self.old.recorder places bytes → J.has_room self.new.recorder (places - 1) (bytes - bytes_in entry.now.reply) }
    {
        let place = self.places;
        let (caller, moment) = (told.caller(), told.moment());
        let claim = self
            .log
            .enter(&mut self.keeper, &mut position.position, told);
        self.total.add(&mut position.share, 1);
        self.recorder.keep(draft, caller, entry, moment);
        self.places = place + 1;
        Receipt {
            place,
            claim,
            library: PhantomData,
        }
    }

    /// One place more, of a step without bytes. Takes no memory.
    #[inline(always)]
    pub(crate) fn enter(
        &mut self,
        position: &mut Position<L>,
        step: Step,
        caller: u32,
        entry: &Entry,
        moment: u64,
    ) -> Receipt<L>
        requires count { length self.old.journal + 1 < 2 ^ 64 }
        requires step { length (sent_by step) ≡ 0 }
        requires bearer { caller ≡ position.old.number }
        requires room { (places : ℕ) × (bytes : ℕ) × J.has_room self.old.recorder places bytes × (1 ≤ places) × (bytes_in entry.now.reply ≤ bytes) }
        ensures receipt { result ≡ record { place = length self.old.journal; entry = record { step = step; caller = caller; entry = entry.now; moment = moment } } }
        ensures journal { self.new.journal ≡ self.old.journal ++ result.entry ∷ [] }
        ensures position { IsMoved position.old result position.new }
        ensures saw { Sees position.old self.old.journal position.new self.new.journal }
        ensures room { (places : ℕ) → J.has_room self.old.recorder places 0 → J.has_room self.new.recorder (places - 1) 0 }
    {
        let draft = self.recorder.draft(&step);
        let told = PlaceImage::new(Image::of(&step), caller, entry, moment);
        self.enter_drafted(position, draft, told, entry)
    }
}

/// The keeper takes in the receipts' claims.
pub(crate) fn take_all<L: Naming>(
    log: &usb_receipts::Log<PlaceImage>,
    keeper: &mut Keeper<PlaceImage>,
    receipts: Vec<Receipt<L>>,
)
    requires here { (keeper.old.log ≡ log.now) × (log.now ≡ L.table) }
    requires none { keeper.old.taken ≡ [] }
    ensures same { (keeper.new.log ≡ keeper.old.log) × (keeper.new.entries ≡ keeper.old.entries) × (keeper.new.next ≡ keeper.old.next) × (keeper.new.back ≡ keeper.old.back) }
    ensures taken { keeper.new.taken ≡ claims_of receipts.items }
{
    for receipt in receipts {
        log.take_in(keeper, receipt.claim);
    }
}
