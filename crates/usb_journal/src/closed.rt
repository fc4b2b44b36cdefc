//! What a book leaves.

ghost use Rattle.std.specs.Prelude.{◌≡◌, ◌==◌, ◌++◌, ◌∷◌, ℕ, ◌≤◌, All, Some, [], count_by, length, slice_get};
ghost use Rattle.usb_core.specs.Public.{ShowsWorld};
ghost use Rattle.usb_receipts.specs.Rule.{Stood, claimed};
ghost use Rattle.usb_journal.specs.Booked.{IsRun, world_where};
ghost use Rattle.usb_journal.specs.Seen.{caller_of, places_of};

use crate::log::take_all;
use crate::naming::Naming;
use crate::position::Position;
use crate::receipt::Receipt;
use std::marker::Model;
use std::sync::ledger::{self, Share};
use usb_core::Core;
use usb_device::Device;
use usb_receipts::Keeper;
use usb_recorder::{PlaceImage, Recorder};

/// A book that is closed: no step is made any more, and positions come back.
#[derive(Drop)]
pub struct Closing<L: Naming, P, D: Device, J: Recorder> {
    pub(crate) recorder: J,
    pub(crate) places: u64,
    pub(crate) log: usb_receipts::Log<PlaceImage>,
    pub(crate) keeper: Keeper<PlaceImage>,
    pub(crate) total: ledger::Book<L>,
    pub(crate) core: Core<P, D>,
}

/// Contracts see the devices, the journal, the core, and the positions that came back: the number of each, and what it had seen. The
/// entries of the journal are those of the run of its steps, and the core shows the world where that ends.
impl<L: Naming, P, D: Device, J: Recorder> Model for Closing<L, P, D, J> {
    ghost use Rattle.std.specs.Prelude.{◌≡◌, [], length};
    ghost use Rattle.usb_journal.specs.Booked.{Closes, Replays};

    ghost Value = { Closes P };

    ghost view = { λ c. record { setup = L.setup; journal = c.keeper.entries; core = c.core; back = c.keeper.back } };

    ghost invariant = { λ c. (c.log ≡ L.table) × (c.keeper.log ≡ L.table) × (c.keeper.taken ≡ []) × (c.places ≡ length c.keeper.entries) × (c.total.total ≡ length c.keeper.entries) × J.stands c.recorder c.keeper.entries × Replays L.setup c.keeper.entries c.core };
}

impl<L: Naming, P, D: Device, J: Recorder> Closing<L, P, D, J> {
    /// A position comes back; its share of the ledger is left.
    pub fn take_back(&mut self, position: Position<L>) -> Share<L>
        ensures back { self.new ≡ record self.old { back = self.old.back ++ (position.number, position.seen) ∷ [] } }
        ensures share { (result.parts ≡ 1) × (result.amount ≡ length position.own) }
        ensures own { position.own ≡ places_of position.number position.seen }
    {
        let Position {
            position,
            share,
            ..
        } = position;
        self.log.take_back(&mut self.keeper, position);
        share
    }

    /// The journal's end, compared with receipts, and with the positions that came back: each had seen a beginning of the journal, and
    /// all places of its bearer; and no two have one number.
    pub fn finish(self, receipts: Vec<Receipt<L>>) -> Closed<L, P, D, J>
        ensures journal { result.journal ≡ self.journal }
        ensures kept { J.stands result.recorder self.journal }
        ensures counted { result.places ≡ length self.journal }
        ensures total { result.total.total ≡ length self.journal }
        ensures setup { self.setup ≡ L.setup }
        ensures run { IsRun L.setup self.journal }
        ensures core { result.core ≡ self.core }
        ensures shows { ShowsWorld L.setup result.core (world_where L.setup self.journal) }
        ensures found { All (λ r. slice_get self.journal r.place ≡ Some r.entry) receipts.items }
        ensures apart { (p : ℕ) → count_by (λ r. r.place == p) receipts.items ≤ 1 }
        ensures seen { (next : ℕ) × Stood caller_of self.journal next self.back }
        ensures numbers { (n : ℕ) → claimed n self.back ≤ 1 }
    {
        let Closing {
            recorder,
            places,
            log,
            mut keeper,
            total,
            core,
        } = self;
        take_all(&log, &mut keeper, receipts);
        log.check(&mut keeper);
        Closed {
            journal: WholeJournal { keeper },
            recorder,
            places,
            total,
            core,
        }
    }
}

/// A journal that has ended. It has no bytes; contracts see its places.
#[derive(Drop)]
pub struct WholeJournal {
    pub(crate) keeper: Keeper<PlaceImage>,
}

impl Model for WholeJournal {
    ghost use Rattle.std.specs.Prelude.{List};
    ghost use Rattle.usb_recorder.specs.declared.place.Place.{Place};

    ghost Value = { List Place };

    ghost view = { λ w. w.keeper.entries };
}

/// What is left where a book has ended.
#[derive(Drop)]
pub struct Closed<L: Naming, P, D: Device, J> {
    /// The journal, for contracts alone.
    pub journal: WholeJournal,
    /// What was kept of it.
    pub recorder: J,
    /// How many places it has.
    pub places: u64,
    /// The ledger that counts them. It has no bytes.
    pub total: ledger::Book<L>,
    /// The core, with its devices.
    pub core: Core<P, D>,
}
