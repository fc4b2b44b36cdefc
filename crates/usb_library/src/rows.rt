//! Calls that make steps in a row, under one hold of the lock.
//!
//! Each makes what single calls would make one behind another with nobody between, and wakes whom those would wake, once. How
//! many steps it makes at most is its caller's to say: so long others wait for the lock. An error is want of memory: then
//! nothing changed, and nothing is left of the call.

ghost use Rattle.std.specs.Prelude.{◌≡◌, ◌<◌, ◌≤◌, [], false, true, IfOk, OnErr, OnOk, Some, All, map, max, replicate};
ghost use Rattle.usb_model.specs.declared.step.Step.TheVariants.{Deliver, Serve, Take};
ghost use Rattle.usb_core.specs.Public.{called_entry, does_something};
ghost use Rattle.usb_journal.specs.Booked.{world_where};
ghost use Rattle.usb_journal.specs.Rows.{GoOn, MayStopBehind};
ghost use Rattle.usb_receipts.specs.Rule.{BeginsWith};
ghost use Rattle.usb_library.specs.Calls.{MakesRow, misses, row_entries};
ghost use Rattle.usb_library.specs.Wakes.{WakesSince};

use crate::caller::Caller;
use crate::library::Library;
use crate::payload::Payload;
use crate::wakes::{Work, WorkerPart};
use std::alloc::AllocError;
use std::sync::Wait;
use usb_core::Taken;
use usb_device::Device;
use usb_journal::{Naming, Outgoing, Past, Recorder, Row};
use usb_model::{DeviceNo, EpAddr};

impl<L: Naming, P: Payload, D: Device, J: Recorder> Library<L, P, D, J> {
    /// A device answers packets in a row at an endpoint (USB 2.0, 8.5): at most so many, and at least one. They end behind the first
    /// that moved no bytes; one that ended a transfer is the last only where no other packet does anything there.
    pub fn serve_all<R: Wait>(
        &self,
        rt: &R,
        caller: &mut Caller<L>,
        dev: DeviceNo,
        ep: EpAddr,
        most: u32,
    ) -> Result<Row, AllocError>
        ensures made { IfOk result (λ row. MakesRow L.setup (replicate row.count (Serve dev ep)) caller.old row caller.new) }
        ensures some { IfOk result (λ row. (0 < row.count) × (row.count ≤ max 1 most)) }
        ensures on { IfOk result (λ row. GoOn (row_entries row caller.new)) }
        ensures ends { IfOk result (λ row. row.count < most → MayStopBehind L.setup (world_where L.setup caller.new.seen) dev ep (row_entries row caller.new)) }
        ensures refused { OnErr result (caller.new ≡ misses caller.old) }
    {
        let mut guarded = self.lock(rt);
        guarded.look.serve(dev, ep);
        let made = guarded.book.serve_all(dev, ep, most, &mut caller.position);
        drop(guarded);
        let served = caller.counted(made)?;
        let work = if served.ended {
            Work::Of(WorkerPart::Events)
        } else {
            Work::None
        };
        self.wake_row(rt, caller, served.row, work);
        Ok(served.row)
    }

    /// The oldest events are handled (xHCI 1.2, 4.11.3; libusb 1.0, `libusb_handle_events`), as many as there are and at most so
    /// many. The journal begins with `past`, which then has all that the caller has seen: so "there are none" isn't an old answer.
    pub fn deliver_all<R: Wait>(
        &self,
        rt: &R,
        caller: &mut Caller<L>,
        past: &mut Past<L>,
        most: u32,
    ) -> Result<Row, AllocError>
        ensures made { IfOk result (λ row. MakesRow L.setup (replicate row.count Deliver) caller.old row caller.new) }
        ensures few { IfOk result (λ row. row.count ≤ most) }
        ensures ends { IfOk result (λ row. row.count < most → does_something L.setup (world_where L.setup caller.new.seen) Deliver ≡ false) }
        ensures behind { OnOk result (BeginsWith past.old caller.new.seen) }
        ensures past { OnOk result (past.new ≡ caller.new.seen) }
        ensures refused { OnErr result (caller.new ≡ misses caller.old) }
        ensures kept { OnErr result (past.new ≡ past.old) }
    {
        let made = self
            .lock(rt)
            .book
            .deliver_all(most, &mut caller.position, past);
        let delivered = caller.counted(made)?;
        let work = if delivered.quiet {
            Work::None
        } else {
            Work::Of(WorkerPart::Controller)
        };
        self.wake_row(rt, caller, delivered.row, work);
        Ok(delivered.row)
    }

    /// The oldest results go out to their callbacks, at most so many, and stand in `taken`, in order, each with what was kept
    /// with its transfer (libusb 1.0, `libusb_transfer_cb_fn`): whoever takes them calls these, with no lock held, and tells
    /// the verdict of each. They are fewer only where no more wait, or memory is refused to one: then they are those before it. It is
    /// an error only where that is the first. `past` is as with `deliver_all`.
    pub fn take_all<R: Wait>(
        &self,
        rt: &R,
        caller: &mut Caller<L>,
        past: &mut Past<L>,
        most: u32,
        taken: &mut Vec<Taken<P>>,
    ) -> Result<Outgoing, AllocError>
        requires empty { taken.old.items ≡ [] }
        ensures made { IfOk result (λ x. MakesRow L.setup (replicate x.row.count Take) caller.old x.row caller.new) }
        ensures entries { IfOk result (λ x. row_entries x.row caller.new ≡ map (λ t. called_entry (Some t.returned)) taken.new.items) }
        ensures suits { All (λ t. P.Whom.suits t.payload t.returned.h) taken.new.items }
        ensures few { IfOk result (λ x. x.row.count ≤ most) }
        ensures ends { IfOk result (λ x. x.lacked ≡ false → x.row.count < most → does_something L.setup (world_where L.setup caller.new.seen) Take ≡ false) }
        ensures lacks { IfOk result (λ x. x.lacked ≡ true → (0 < x.row.count) × (x.row.count < most) × (does_something L.setup (world_where L.setup caller.new.seen) Take ≡ true)) }
        ensures behind { OnOk result (BeginsWith past.old caller.new.seen) }
        ensures past { OnOk result (past.new ≡ caller.new.seen) }
        ensures refused { OnErr result ((caller.new ≡ misses caller.old) × (taken.new.items ≡ [])) }
        ensures kept { OnErr result (past.new ≡ past.old) }
    {
        let made = self
            .lock(rt)
            .book
            .take_all(most, taken, &mut caller.position, past);
        let outgoing = caller.counted(made)?;
        self.wake_row(rt, caller, outgoing.row, Work::None);
        Ok(outgoing)
    }

    /// Those are woken who wait for a change. `work` names each worker that has work since the caller's steps of this row, which
    /// are its last, and had none before.
    fn wake_row<R: Wait>(&self, rt: &R, caller: &Caller<L>, row: Row, work: Work)
        requires { WakesSince L.setup caller.now.seen row.first work }
    {
        if row.count > 0 {
            self.watchers.wake(rt, work, caller.looks_again);
        }
    }
}
