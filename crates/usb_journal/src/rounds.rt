//! The calls of every transfer that take no memory but the journal's, each by the core's own call.

ghost use Rattle.std.specs.Prelude.{◌≡◌, ◌++◌, ◌∷◌, [], IfOk, OnErr, Some};
ghost use Rattle.usb_model.specs.declared.step.Step.TheVariants.{Answer, Deliver, Serve};
ghost use Rattle.usb_model.specs.declared.verdict.Verdict.TheVariants.{Stop};
ghost use Rattle.usb_core.specs.Public.{StillCarries};
ghost use Rattle.usb_journal.specs.Booked.{IsMoved, IsSame, Sees, next_entry, next_receipt};

use crate::book::JournaledCore;
use crate::naming::Naming;
use crate::position::Position;
use crate::receipt::Receipt;
use crate::timer::stop_if;
use std::alloc::AllocError;
use usb_device::Device;
use usb_model::{DeviceNo, Entry, EpAddr, Name, Step, Verdict};
use usb_recorder::Recorder;

impl<L: Naming, P, D: Device, J: Recorder> JournaledCore<L, P, D, J> {
    /// A device answers one packet (USB 2.0, 8.5), at the next place of the journal. Where memory is wanting nothing
    /// changed.
    pub fn serve(
        &mut self,
        dev: DeviceNo,
        ep: EpAddr,
        position: &mut Position<L>,
    ) -> Result<(Receipt<L>, Entry), AllocError>
        ensures receipt { IfOk result (λ r. r.0 ≡ next_receipt self.old (Serve dev ep) position.old.number r.1) }
        ensures journal { IfOk result (λ r. self.new.journal ≡ self.old.journal ++ r.0.entry ∷ []) }
        ensures entry { IfOk result (λ r. r.1 ≡ next_entry self.old.setup self.old.journal (Serve dev ep)) }
        ensures position { IfOk result (λ r. IsMoved position.old r.0 position.new) }
        ensures saw { IfOk result (λ r. Sees position.old self.old.journal position.new self.new.journal) }
        ensures library { self.old.setup ≡ L.setup }
        ensures rest { (self.new.setup ≡ self.old.setup) × (self.new.moment ≡ self.old.moment) }
        ensures carries { StillCarries self.old.core self.new.core }
        ensures err { OnErr result (IsSame self.old self.new × (position.new ≡ position.old)) }
    {
        let caller = position.number();
        let JournaledCore {
            core,
            moment,
            log,
            ..
        } = self;
        log.reserve(1, 0)?;
        let entry = core.serve(dev, ep);
        let receipt = log.enter(position, Step::Serve { dev, ep }, caller, &entry, *moment);
        Ok((receipt, entry))
    }

    /// The oldest event is handled (xHCI 1.2, 4.11.3), at the next place of the journal. Where memory is wanting nothing
    /// changed.
    pub fn deliver(&mut self, position: &mut Position<L>) -> Result<(Receipt<L>, Entry), AllocError>
        ensures receipt { IfOk result (λ r. r.0 ≡ next_receipt self.old Deliver position.old.number r.1) }
        ensures journal { IfOk result (λ r. self.new.journal ≡ self.old.journal ++ r.0.entry ∷ []) }
        ensures entry { IfOk result (λ r. r.1 ≡ next_entry self.old.setup self.old.journal Deliver) }
        ensures position { IfOk result (λ r. IsMoved position.old r.0 position.new) }
        ensures saw { IfOk result (λ r. Sees position.old self.old.journal position.new self.new.journal) }
        ensures library { self.old.setup ≡ L.setup }
        ensures rest { (self.new.setup ≡ self.old.setup) × (self.new.moment ≡ self.old.moment) }
        ensures carries { StillCarries self.old.core self.new.core }
        ensures err { OnErr result (IsSame self.old self.new × (position.new ≡ position.old)) }
    {
        let caller = position.number();
        let JournaledCore {
            core,
            moment,
            log,
            ..
        } = self;
        log.reserve(1, 0)?;
        let entry = core.deliver();
        let receipt = log.enter(position, Step::Deliver, caller, &entry, *moment);
        Ok((receipt, entry))
    }

    /// Ends the callback of a transfer (libusb 1.0, `libusb_transfer_cb_fn`), at the next place of the journal. Where
    /// memory is wanting nothing changed.
    pub fn stop(
        &mut self,
        h: Name,
        n: u64,
        position: &mut Position<L>,
    ) -> Result<(Receipt<L>, Entry), AllocError>
        ensures receipt { IfOk result (λ r. r.0 ≡ next_receipt self.old (Answer h n Stop) position.old.number r.1) }
        ensures journal { IfOk result (λ r. self.new.journal ≡ self.old.journal ++ r.0.entry ∷ []) }
        ensures entry { IfOk result (λ r. r.1 ≡ next_entry self.old.setup self.old.journal (Answer h n Stop)) }
        ensures position { IfOk result (λ r. IsMoved position.old r.0 position.new) }
        ensures saw { IfOk result (λ r. Sees position.old self.old.journal position.new self.new.journal) }
        ensures library { self.old.setup ≡ L.setup }
        ensures rest { (self.new.setup ≡ self.old.setup) × (self.new.moment ≡ self.old.moment) }
        ensures carries { StillCarries self.old.core self.new.core }
        ensures err { OnErr result (IsSame self.old self.new × (position.new ≡ position.old)) }
    {
        let caller = position.number();
        let JournaledCore {
            core,
            moment,
            log,
            timers,
            ..
        } = self;
        log.reserve(1, 0)?;
        let entry = Entry {
            owner: Some(h),
            reply: core.stop(h, n),
        };
        stop_if(timers, Some((h, n)), &entry);
        let verdict = Verdict::Stop;
        let step = Step::Answer { h, n, verdict };
        let receipt = log.enter(position, step, caller, &entry, *moment);
        Ok((receipt, entry))
    }
}
