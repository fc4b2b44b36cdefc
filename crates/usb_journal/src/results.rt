//! A result goes out to its callback.

ghost use Rattle.std.specs.Prelude.{◌≡◌, ℕ, ◌+◌, ◌^◌, ◌<◌, ◌≤◌, ◌++◌, ◌∷◌, [], IfOk, OnErr, length, option_map};
ghost use Rattle.usb_model.specs.declared.step.Step.TheVariants.{Take};
ghost use Rattle.usb_core.specs.Steps.{first_payload};
ghost use Rattle.usb_core.specs.Public.{Carries, CarriesOut, Kept, called_entry};
ghost use Rattle.usb_recorder.specs.Records.{bytes_in};
ghost use Rattle.usb_journal.specs.Booked.{IsMoved, IsSame, Sees, next_entry, next_receipt};

use crate::book::JournaledCore;
use crate::log::Log;
use crate::naming::Naming;
use crate::position::Position;
use crate::receipt::Receipt;
use std::alloc::AllocError;
use usb_core::Taken;
use usb_device::Device;
use usb_model::{Entry, Reply, Step};
use usb_recorder::Recorder;

impl<L: Naming, P, D: Device, J: Recorder> JournaledCore<L, P, D, J> {
    /// The oldest result goes out to its callback (libusb 1.0, `libusb_transfer_cb_fn`), with the payload of its
    /// transfer; None where none waits. A place is made in any case. Where memory is wanting nothing changed. Inlined, as `enter`
    /// is: else the result is copied twice.
    #[inline(always)]
    pub fn take(
        &mut self,
        position: &mut Position<L>,
    ) -> Result<(Receipt<L>, Option<Taken<P>>), AllocError>
        ensures receipt { IfOk result (λ r. r.0 ≡ next_receipt self.old Take position.old.number (called_entry (option_map (λ t. t.returned) r.1))) }
        ensures journal { IfOk result (λ r. self.new.journal ≡ self.old.journal ++ r.0.entry ∷ []) }
        ensures entry { IfOk result (λ r. called_entry (option_map (λ t. t.returned) r.1) ≡ next_entry self.old.setup self.old.journal Take) }
        ensures position { IfOk result (λ r. IsMoved position.old r.0 position.new) }
        ensures saw { IfOk result (λ r. Sees position.old self.old.journal position.new self.new.journal) }
        ensures library { self.old.setup ≡ L.setup }
        ensures rest { (self.new.setup ≡ self.old.setup) × (self.new.moment ≡ self.old.moment) }
        ensures payload { IfOk result (λ r. option_map (λ t. t.payload) r.1 ≡ first_payload self.old.core) }
        ensures carries { IfOk result (λ r. (kept : Kept P) → Carries kept self.old.core → CarriesOut kept r.1 × Carries kept self.new.core) }
        ensures err { OnErr result (IsSame self.old self.new × (position.new ≡ position.old)) }
    {
        let caller = position.number();
        let JournaledCore {
            core,
            moment,
            log,
            ..
        } = self;
        log.reserve(1, core.next_len())?;
        let Ok(taken) = core.take() else {
            return Err(AllocError);
        };
        Ok(enter(log, position, caller, *moment, taken))
    }
}

/// One place more, of a result that goes out, or of none.
#[inline(always)]
fn enter<L: Naming, P, J: Recorder>(
    log: &mut Log<L, J>,
    position: &mut Position<L>,
    caller: u32,
    moment: u64,
    taken: Option<Taken<P>>,
) -> (Receipt<L>, Option<Taken<P>>)
    requires bearer { caller ≡ position.old.number }
    requires count { length log.old.journal + 1 < 2 ^ 64 }
    requires room { (places : ℕ) × (bytes : ℕ) × J.has_room log.old.recorder places bytes × (1 ≤ places) × (bytes_in (called_entry (option_map (λ t. t.returned) taken)).reply ≤ bytes) }
    ensures receipt { result.0 ≡ record { place = length log.old.journal; entry = record { step = Take; caller = caller; entry = called_entry (option_map (λ t. t.returned) taken); moment = moment } } }
    ensures taken { result.1 ≡ taken }
    ensures journal { log.new.journal ≡ log.old.journal ++ result.0.entry ∷ [] }
    ensures position { IsMoved position.old result.0 position.new }
    ensures saw { Sees position.old log.old.journal position.new log.new.journal }
{
    let Some(taken) = taken else {
        let entry = Entry {
            owner: None,
            reply: Reply::Idle,
        };
        return (
            log.enter(position, Step::Take, caller, &entry, moment),
            None,
        );
    };
    let receipt = log.enter(position, Step::Take, caller, taken.returned.entry(), moment);
    (receipt, Some(taken))
}
