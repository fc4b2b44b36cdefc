//! The end of a library: the journal, once all callers are back.

ghost use Rattle.std.specs.Prelude.{◌≡◌, ◌↔◌, true, ◌==◌, ℕ, ◌+◌, ◌<◌, ◌≤◌, ◌++◌, All, IfErr, IfOk, Some, count_by, length, map, slice_get, vec_len};
ghost use Rattle.std.specs.List.{sum_by};
ghost use Rattle.usb_model.specs.Setup.{Setup as ModelSetup, interface_of};
ghost use Rattle.usb_model.specs.World.{World};
ghost use Rattle.usb_core.specs.Public.{ShowsWorld, setup_of};
ghost use Rattle.usb_core.specs.Reads.{IsLeft};
ghost use Rattle.usb_receipts.specs.Rule.{BeginsWith};
ghost use Rattle.usb_journal.specs.Booked.{IsRun, world_where};
ghost use Rattle.usb_journal.specs.Seen.{places_of};
ghost use Rattle.usb_library.specs.Calls.{IsAtRest, Knows, position_of};

use crate::caller::Caller;
use crate::library::{Guarded, Library};
use crate::met::Met;
use crate::payload::Payload;
use crate::wakes::{Watchers, is_nothing};
use std::alloc::{AllocError, Global};
use std::sync::Mutex;
use std::sync::ledger::Share;
use usb_core::{Core, Setup};
use usb_device::Device;
use usb_journal::{Closed, Closing, Journal, Naming, Place, Receipt, Recorder, WholeJournal};

/// What a library leaves.
#[derive(Drop)]
pub struct Ended<L: Naming, P, D: Device, J> {
    /// The journal, for contracts alone: it has no bytes.
    pub journal: WholeJournal,
    /// What was kept of it.
    pub recorder: J,
    /// How many places it has.
    pub places: u64,
    /// The core, with its devices.
    pub core: Core<P, D>,
    /// Whether a worker was refused memory.
    pub lacked_memory: bool,
    /// How many callbacks ended early, since they couldn't be submitted once more.
    pub cuts: u64,
    /// How many callers were made.
    pub made: u32,
    /// All parts of the ledger: no caller is left anywhere. It has no bytes.
    pub all: Share<L>,
}

/// Callers are missing. The library, and all that was brought, is handed back (`into_library`).
#[derive(Drop)]
pub struct MissingCallers<L: Naming, P: Payload, D: Device, J: Recorder> {
    guarded: Guarded<L, P, D, J, P::Whom>,
    watchers: Watchers,
    met: Met,
    /// How many callers were made.
    pub made: u32,
    /// Those that were brought.
    pub callers: Vec<Caller<L>>,
    /// The receipts that were brought.
    pub receipts: Vec<Receipt<L>>,
}

impl<L: Naming, P: Payload, D: Device, J: Recorder> Library<L, P, D, J> {
    /// Ends the library, once all its callers are back: the journal is the definitions' run of its steps, and at each receipt's
    /// place it has what the receipt says; no two receipts have one place; it has as many places as the callers made steps, and each
    /// caller's are those of its number, which no other has; it began with what each caller had seen. The core shows the world where it
    /// ends. `MissingCallers` where fewer callers come than were made. It waits for nothing.
    pub fn finish(
        self,
        callers: Vec<Caller<L>>,
        receipts: Vec<Receipt<L>>,
    ) -> Result<Ended<L, P, D, J>, MissingCallers<L, P, D, J>>
        requires parts { L.parts ≡ 1025 }
        ensures found { IfOk result (λ e. All (λ r. slice_get e.journal r.place ≡ Some r.entry) receipts.items) }
        ensures apart { IfOk result (λ _. (p : ℕ) → count_by (λ r. r.place == p) receipts.items ≤ 1) }
        ensures counted { IfOk result (λ e. (length e.journal ≡ sum_by (λ c. length c.own) callers.items) × (e.places ≡ length e.journal)) }
        ensures run { IfOk result (λ e. IsRun L.setup e.journal) }
        ensures core { IfOk result (λ e. ShowsWorld L.setup e.core (world_where L.setup e.journal)) }
        ensures kept { IfOk result (λ e. J.stands e.recorder e.journal) }
        ensures all { IfOk result (λ e. (vec_len callers ≡ e.made) × (e.all.parts ≡ L.parts)) }
        ensures own { IfOk result (λ e. All (Knows e.journal) callers.items) }
        ensures numbers { IfOk result (λ _. (n : ℕ) → count_by (λ c. c.number == n) callers.items ≤ 1) }
        ensures missing { IfErr result (λ m. (vec_len callers < m.made) × (m.guarded.callers ≡ m.made)) }
        ensures back { IfErr result (λ m. (m.callers.items ≡ callers.items) × (m.receipts.items ≡ receipts.items)) }
    {
        let Library {
            guarded,
            watchers,
            met,
        } = self;
        let guarded = guarded.into_inner();
        let made = guarded.callers.made();
        if callers.len() < made as usize {
            return Err(MissingCallers {
                guarded,
                watchers,
                met,
                made,
                callers,
                receipts,
            });
        }
        let Guarded {
            book,
            callers: made_callers,
            ..
        } = guarded;
        let mut closing = book.close();
        let mut spare = made_callers.into_spare();
        bring(&mut closing, &mut spare, callers);
        let Closed {
            journal,
            recorder,
            places,
            mut total,
            core,
        } = closing.finish(receipts);
        total.audit(&mut spare);
        Ok(Ended {
            journal,
            recorder,
            places,
            core,
            lacked_memory: met.has_lacked_memory(),
            cuts: met.cuts(),
            made,
            all: spare,
        })
    }
}

impl<L: Naming, P: Drop, D: Device, J: Drop> Ended<L, P, D, J> {
    /// Whether nothing was left to be done, and no transfer was in its callback. A transfer that its device doesn't end may be in line.
    pub fn is_at_rest(&self) -> bool
        ensures { (setup : ModelSetup) (w : World) → ShowsWorld setup self.now.core w → (result ≡ true) ↔ IsAtRest setup w }
    {
        is_nothing(&self.core.pending(None))
    }

    /// The devices as the calls left them, with their configurations and scripts: what they took can be read, and a library
    /// that is made of them begins anew. What callers keep with transfers is dropped. Takes no memory.
    pub fn into_setup(self) -> Setup<D>
        ensures setup { (setup : ModelSetup) (w : World) → ShowsWorld setup self.core w → setup_of result ≡ setup }
        ensures devices { (setup : ModelSetup) (w : World) (d e k : ℕ) → ShowsWorld setup self.core w → interface_of setup d e ≡ Some k → IsLeft result.controller d e (w.endpoints d e) }
    {
        let Ended { core, .. } = self;
        core.into_setup()
    }
}

impl<L: Naming, P, D: Device> Ended<L, P, D, Journal> {
    /// Copies of all places of the journal, in order. An error where memory is refused.
    pub fn to_places(&self, alloc: Global) -> Result<Vec<Place>, AllocError>
        ensures { IfOk result (λ places. places.items ≡ self.now.recorder.places) }
    {
        self.recorder.places(alloc)
    }
}

impl<L: Naming, P: Payload, D: Device, J: Recorder> MissingCallers<L, P, D, J> {
    /// The library, which goes on, with the callers and the receipts that were brought.
    pub fn into_library(self) -> (Library<L, P, D, J>, Vec<Caller<L>>, Vec<Receipt<L>>)
        ensures { (result.1 ≡ self.callers) × (result.2 ≡ self.receipts) }
    {
        let MissingCallers {
            guarded,
            watchers,
            met,
            callers,
            receipts,
            ..
        } = self;
        let library = Library {
            guarded: Mutex::new(guarded),
            watchers,
            met,
        };
        (library, callers, receipts)
    }
}

/// The callers' positions come back, and all parts of the ledger that they have come together.
fn bring<L: Naming, P: Drop, D: Device, J: Recorder>(
    closing: &mut Closing<L, P, D, J>,
    spare: &mut Share<L>,
    callers: Vec<Caller<L>>,
)
    requires { spare.old.parts ≤ L.parts }
    ensures parts { (spare.new.parts ≡ spare.old.parts + vec_len callers) × (spare.new.parts ≤ L.parts) }
    ensures amount { spare.new.amount ≡ spare.old.amount + sum_by (λ c. length c.own) callers.items }
    ensures back { closing.new ≡ record closing.old { back = closing.old.back ++ map position_of callers.items } }
    ensures own { All (λ c. c.own ≡ places_of c.number c.seen) callers.items }
{
    for caller in callers {
        let Caller { position, .. } = caller;
        spare.merge(closing.take_back(position));
    }
}
