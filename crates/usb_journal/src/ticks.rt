//! Time passes: transfers whose time is over are asked to end.

ghost use Rattle.std.specs.Prelude.{◌≡◌, ◌==◌, ◌++◌, ◌+◌, ◌^◌, ◌<◌, ◌≤◌, ◌∷◌, [], if◌then◌else◌, IfOk, OnErr, OnOk, drop, length, map, max, take, vec_capacity, vec_len};
ghost use Rattle.std.specs.List.{filter};
ghost use Rattle.usb_model.specs.Setup.{Setup as IsSetup};
ghost use Rattle.usb_model.specs.World.{World};
ghost use Rattle.usb_model.specs.World.Due.{due};
ghost use Rattle.usb_core.specs.Public.{ShowsWorld, StillCarries};
ghost use Rattle.usb_journal.specs.Booked.{IsSame, Replays, Sees, asked, asks, dated};
ghost use Rattle.usb_journal.specs.Seen.{receipts_from};
ghost use Rattle.usb_receipts.specs.Rule.{BeginsWith};
ghost use Rattle.usb_journal.specs.Timers.{by_name, expires, is_over, timers_of};

use crate::book::JournaledCore;
use crate::log::Log;
use crate::naming::Naming;
use crate::position::{Past, Position};
use crate::receipt::Receipt;
use crate::timer::Timer;
use std::alloc::{AllocError, Global};
use usb_core::Core;
use usb_device::Device;
use usb_model::{Entry, Step};
use usb_recorder::Recorder;

impl<L: Naming, P, D: Device, J: Recorder> JournaledCore<L, P, D, J> {
    /// Moves the moment on to `now`, in milliseconds, or leaves it where it is later. Then makes one Expire for each
    /// transfer that is due (libusb 1.0, `libusb_transfer`, `timeout`), by rising name and number, at consecutive
    /// places. The journal began with `past`, which then has all that the position has seen. Where memory is wanting
    /// nothing changed.
    pub fn tick(
        &mut self,
        position: &mut Position<L>,
        past: &mut Past<L>,
        now: u64,
    ) -> Result<Vec<Receipt<L>>, AllocError>
        ensures receipts { IfOk result (λ rs. rs.items ≡ receipts_from (length self.old.journal) (drop (length self.old.journal) self.new.journal)) }
        ensures begins { take (length self.old.journal) self.new.journal ≡ self.old.journal }
        ensures moment { OnOk result (self.new.moment ≡ max self.old.moment now) }
        ensures steps { OnOk result (map asked (drop (length self.old.journal) self.new.journal) ≡ asks position.old.number (max self.old.moment now) (due self.old.setup (dated self.old.journal) (max self.old.moment now))) }
        ensures own { OnOk result (position.new.own ≡ position.old.own ++ drop (length self.old.journal) self.new.journal) }
        ensures number { OnOk result (position.new.number ≡ position.old.number) }
        ensures saw { OnOk result (Sees position.old self.old.journal position.new self.new.journal) }
        ensures behind { OnOk result (BeginsWith past.old self.old.journal) }
        ensures past { OnOk result (past.new ≡ position.new.seen) }
        ensures setup { self.new.setup ≡ self.old.setup }
        ensures library { self.old.setup ≡ L.setup }
        ensures carries { StillCarries self.old.core self.new.core }
        ensures err { OnErr result (IsSame self.old self.new × (position.new ≡ position.old)) }
        ensures kept { OnErr result (past.new ≡ past.old) }
    {
        let caller = position.number();
        let later = self.moment.max(now);
        let due = due_now(self.alloc, &self.core, &self.timers, later)?;
        let mut receipts = Vec::with_capacity(self.alloc, due.len())?;
        self.log.reserve(due.len(), 0)?;
        self.log.look_behind(position, past);
        self.moment = later;
        let JournaledCore { core, log, .. } = self;
        expire_all(core, log, position, caller, later, &due, &mut receipts);
        *past = log.remember(position);
        Ok(receipts)
    }
}

/// Of the timers those whose time is over, by rising name and number.
fn due_now<P, D: Device>(
    alloc: Global,
    core: &Core<P, D>,
    timers: &[Timer],
    moment: u64,
) -> Result<Vec<Timer>, AllocError>
    ensures { IfOk result (λ due. (setup : IsSetup) (w : World) → ShowsWorld setup core.now w → due.items ≡ by_name (filter (is_over setup w moment) timers.now)) }
{
    let over = over_now(alloc, core, timers, moment)?;
    sorted(alloc, &over)
}

/// Of the timers those whose time is over.
fn over_now<P, D: Device>(
    alloc: Global,
    core: &Core<P, D>,
    timers: &[Timer],
    moment: u64,
) -> Result<Vec<Timer>, AllocError>
    ensures { IfOk result (λ over. (setup : IsSetup) (w : World) → ShowsWorld setup core.now w → over.items ≡ filter (is_over setup w moment) timers.now) }
{
    let mut over = Vec::new(alloc);
    for timer in timers {
        let test = is_over(core, timer, moment);
        let Ok(()) = push_if(&mut over, timer, test) else {
            return Err(AllocError);
        };
    }
    Ok(over)
}

/// Whether the time of a timer's transfer is over.
fn is_over<P, D: Device>(core: &Core<P, D>, timer: &Timer, moment: u64) -> bool
    ensures { (setup : IsSetup) (w : World) → ShowsWorld setup core.now w → result ≡ is_over setup w moment timer.now }
{
    if moment < timer.deadline() {
        return false;
    }
    core.expires(timer.h, timer.n)
}

/// A timer goes behind these, if it passes the test.
fn push_if(timers: &mut Vec<Timer>, timer: &Timer, test: bool) -> Result<(), AllocError>
    ensures { OnOk result (timers.new.items ≡ timers.old.items ++ (if test then timer.now ∷ [] else [])) }
{
    if test {
        timers.reserve(1)?;
        timers.push_reserved(*timer);
    }
    Ok(())
}

/// The same timers by rising name; those of one name in the same order.
fn sorted(alloc: Global, timers: &[Timer]) -> Result<Vec<Timer>, AllocError>
    ensures { IfOk result (λ sorted. sorted.items ≡ by_name timers.now) }
{
    let mut sorted = Vec::with_capacity(alloc, timers.len())?;
    for number in 0..64_u8 {
        let Ok(()) = push_named(number, timers, &mut sorted) else {
            return Err(AllocError);
        };
    }
    Ok(sorted)
}

/// The timers of one name go behind these.
fn push_named(number: u8, timers: &[Timer], sorted: &mut Vec<Timer>) -> Result<(), AllocError>
    ensures { OnOk result (sorted.new.items ≡ sorted.old.items ++ filter (λ t. t.h == number) timers.now) }
{
    for timer in timers {
        let test = timer.h.number() == number;
        let Ok(()) = push_if(sorted, timer, test) else {
            return Err(AllocError);
        };
    }
    Ok(())
}

/// One Expire for each, where there is room.
fn expire_all<L: Naming, P, D: Device, J: Recorder>(
    core: &mut Core<P, D>,
    log: &mut Log<L, J>,
    position: &mut Position<L>,
    caller: u32,
    moment: u64,
    due: &[Timer],
    receipts: &mut Vec<Receipt<L>>,
)
    requires bearer { caller ≡ position.old.number }
    requires seen { position.old.seen ≡ log.old.journal }
    requires room { (length log.old.journal + length due.now < 2 ^ 64) × J.has_room log.old.recorder (length due.now) 0 }
    requires run { Replays L.setup log.old.journal core.old }
    requires receipts { (receipts.old.items ≡ []) × (vec_len receipts.old ≡ 0) × (length due.now ≤ vec_capacity receipts.old) }
    ensures run { Replays L.setup log.new.journal core.new }
    ensures timers { timers_of log.new.journal ≡ timers_of log.old.journal }
    ensures begins { take (length log.old.journal) log.new.journal ≡ log.old.journal }
    ensures steps { map asked (drop (length log.old.journal) log.new.journal) ≡ asks caller moment (expires due.now) }
    ensures own { position.new.own ≡ position.old.own ++ drop (length log.old.journal) log.new.journal }
    ensures number { position.new.number ≡ position.old.number }
    ensures seen { position.new.seen ≡ log.new.journal }
    ensures receipts { receipts.new.items ≡ receipts_from (length log.old.journal) (drop (length log.old.journal) log.new.journal) }
    ensures carries { StillCarries core.old core.new }
{
    for timer in due {
        let (h, n) = (timer.h, timer.n);
        let reply = core.expire(h, n);
        let entry = Entry {
            owner: Some(h),
            reply,
        };
        let receipt = log.enter(position, Step::Expire { h, n }, caller, &entry, moment);
        receipts.push_reserved(receipt);
    }
}
