//! Steps in a row, each at a place of its own, in one call.

ghost use Rattle.std.specs.Prelude.{◌≡◌, ℕ, ◌+◌, ◌-◌, ◌++◌, ◌∷◌, ◌&&◌, ◌||◌, ◌^◌, ◌<◌, ◌≤◌, List, [], false, not, true, IfOk, OnErr, OnOk, length, map, max, replicate, Some};
ghost use Rattle.usb_model.specs.declared.step.Step.TheVariants.{Command, Deliver, Serve, Take};
ghost use Rattle.usb_model.specs.Setup.{Setup};
ghost use Rattle.usb_model.specs.World.{World};
ghost use Rattle.usb_model.specs.World.Journal.{run_from};
ghost use Rattle.usb_core.specs.Public.{Carries, Kept, ShowsWorld, StillCarries, burst_entries, called_entry, does_something, whole_entries};
ghost use Rattle.usb_receipts.specs.Rule.{BeginsWith};
ghost use Rattle.usb_journal.specs.Booked.{IsSame, Replays, entries_of, world_where};
ghost use Rattle.usb_journal.specs.Entered.{DoesRow, IsRow, StandsIn, TakesRow};
ghost use Rattle.usb_recorder.specs.Records.{bytes_in};
ghost use Rattle.usb_journal.specs.Rows.{AreKept, EntersRow, GoOn, MayStop, MayStopBehind, are_quiet, ends_any, is_end, is_progress, is_quiet, is_settled, new_places};

use crate::book::JournaledCore;
use crate::log::Log;
use crate::naming::Naming;
use crate::position::{Past, Position};
use std::alloc::AllocError;
use usb_core::{Burst, Core, Taken};
use usb_device::Device;
use usb_model::{DeviceNo, EpAddr, Reply, Step};
use usb_recorder::Recorder;

/// Places in a row of a journal.
#[derive(Clone, Copy, PartialEq, Eq, Debug)]
pub struct Row {
    /// The number of the first; where there are none, of the next place that there will be.
    pub first: u64,
    /// How many they are.
    pub count: u64,
}

/// What came of packets in a row.
#[derive(Clone, Copy, PartialEq, Eq, Debug)]
pub struct Served {
    /// Their places.
    pub row: Row,
    /// Whether one of them ended a transfer.
    pub ended: bool,
}

/// What came of events in a row.
#[derive(Clone, Copy, PartialEq, Eq, Debug)]
pub struct Delivered {
    /// Their places.
    pub row: Row,
    /// Whether they left nothing for the controller: by none of them an errand ended, and behind none an order waited.
    pub quiet: bool,
}

/// What came of results in a row.
#[derive(Clone, Copy, PartialEq, Eq, Debug)]
pub struct Outgoing {
    /// Their places.
    pub row: Row,
    /// Whether memory was refused to one behind these.
    pub lacked: bool,
}

impl<L: Naming, P, D: Device, J: Recorder> JournaledCore<L, P, D, J> {
    /// A device answers packets in a row at an endpoint (USB 2.0, 8.5), at the next places of the journal: at most so many,
    /// and at least one. They end behind the first that moved no bytes; one that ended a transfer is the last only where no other
    /// packet does anything there. Where memory is wanting nothing changed.
    pub fn serve_all(
        &mut self,
        dev: DeviceNo,
        ep: EpAddr,
        most: u32,
        position: &mut Position<L>,
    ) -> Result<Served, AllocError>
        ensures made { IfOk result (λ x. EntersRow (replicate x.row.count (Serve dev ep)) self.old position.old x.row self.new position.new) }
        ensures some { IfOk result (λ x. (0 < x.row.count) × (x.row.count ≤ max 1 most)) }
        ensures on { IfOk result (λ x. GoOn (entries_of (new_places self.old self.new))) }
        ensures ends { IfOk result (λ x. x.row.count < most → MayStopBehind self.old.setup (world_where self.old.setup self.new.journal) dev ep (entries_of (new_places self.old self.new))) }
        ensures ended { IfOk result (λ x. x.ended ≡ ends_any (entries_of (new_places self.old self.new))) }
        ensures library { self.old.setup ≡ L.setup }
        ensures carries { StillCarries self.old.core self.new.core }
        ensures err { OnErr result (IsSame self.old self.new × (position.new ≡ position.old)) }
    {
        let most = most.max(1);
        self.log.reserve(most as usize, 0)?;
        self.log.look(position);
        let first = self.log.len();
        let JournaledCore {
            core,
            moment,
            log,
            ..
        } = self;
        let (count, ended) = serve_each(core, log, position, *moment, dev, ep, most);
        log.look(position);
        Ok(Served {
            row: Row {
                first,
                count: u64::from(count),
            },
            ended,
        })
    }

    /// The oldest events are handled (xHCI 1.2, 4.11.3), as many as there are and at most so many, at the next places of the
    /// journal, which begins with `past`. That then has all that the position has seen. Where memory is wanting nothing changed.
    pub fn deliver_all(
        &mut self,
        most: u32,
        position: &mut Position<L>,
        past: &mut Past<L>,
    ) -> Result<Delivered, AllocError>
        ensures made { IfOk result (λ x. EntersRow (replicate x.row.count Deliver) self.old position.old x.row self.new position.new) }
        ensures few { IfOk result (λ x. x.row.count ≤ most) }
        ensures ends { IfOk result (λ x. x.row.count < most → does_something self.old.setup (world_where self.old.setup self.new.journal) Deliver ≡ false) }
        ensures behind { OnOk result (BeginsWith past.old self.new.journal) }
        ensures past { OnOk result (past.new ≡ position.new.seen) }
        ensures quiet { IfOk result (λ x. x.quiet ≡ are_quiet self.old.setup (world_where self.old.setup self.old.journal) x.row.count) }
        ensures library { self.old.setup ≡ L.setup }
        ensures carries { StillCarries self.old.core self.new.core }
        ensures err { OnErr result (IsSame self.old self.new × (position.new ≡ position.old)) }
        ensures kept { OnErr result (past.new ≡ past.old) }
    {
        self.log.reserve(most as usize, 0)?;
        self.log.look(position);
        let first = self.log.len();
        let JournaledCore {
            core,
            moment,
            log,
            ..
        } = self;
        let (count, quiet) = deliver_each(core, log, position, *moment, most);
        log.look_behind(position, past);
        Ok(Delivered {
            row: Row {
                first,
                count: u64::from(count),
            },
            quiet,
        })
    }

    /// The oldest results go out to their callbacks (libusb 1.0, `libusb_transfer_cb_fn`), at most so many, at the next places
    /// of the journal, and stand in `taken`, in order, each with the payload of its transfer. They are fewer only where no more
    /// wait, or memory is refused to one: then they are those before it. The journal begins with `past`, which then has all that
    /// the position has seen. Where memory is refused to the first, nothing changed.
    pub fn take_all(
        &mut self,
        most: u32,
        taken: &mut Vec<Taken<P>>,
        position: &mut Position<L>,
        past: &mut Past<L>,
    ) -> Result<Outgoing, AllocError>
        requires empty { taken.old.items ≡ [] }
        ensures made { IfOk result (λ x. EntersRow (replicate x.row.count Take) self.old position.old x.row self.new position.new) }
        ensures entries { OnOk result (entries_of (new_places self.old self.new) ≡ map (λ t. called_entry (Some t.returned)) taken.new.items) }
        ensures few { IfOk result (λ x. x.row.count ≤ most) }
        ensures ends { IfOk result (λ x. x.lacked ≡ false → x.row.count < most → does_something self.old.setup (world_where self.old.setup self.new.journal) Take ≡ false) }
        ensures lacks { IfOk result (λ x. x.lacked ≡ true → (0 < x.row.count) × (x.row.count < most) × (does_something self.old.setup (world_where self.old.setup self.new.journal) Take ≡ true)) }
        ensures behind { OnOk result (BeginsWith past.old self.new.journal) }
        ensures past { OnOk result (past.new ≡ position.new.seen) }
        ensures library { self.old.setup ≡ L.setup }
        ensures carries { (kept : Kept P) → Carries kept self.old.core → AreKept kept taken.new.items × Carries kept self.new.core }
        ensures err { OnErr result (IsSame self.old self.new × (position.new ≡ position.old) × (taken.new.items ≡ [])) }
        ensures kept { OnErr result (past.new ≡ past.old) }
    {
        let first = self.log.len();
        if most == 0 || !self.has_result() {
            self.log.look_behind(position, past);
            let row = Row { first, count: 0 };
            return Ok(Outgoing { row, lacked: false });
        }
        self.take_next(taken, position)?;
        let (more, lacked) = self.take_more(most - 1, taken, position);
        self.log.look_behind(position, past);
        let count = u64::from(more) + 1;
        let row = Row { first, count };
        Ok(Outgoing { row, lacked })
    }

    /// Whether a result waits to go out.
    fn has_result(&self) -> bool
        ensures { result ≡ does_something self.now.setup (world_where self.now.setup self.now.journal) Take }
    {
        self.core.has_result()
    }

    /// The oldest result goes out, which stands behind these; there is one. Where memory is wanting nothing changed.
    fn take_next(
        &mut self,
        taken: &mut Vec<Taken<P>>,
        position: &mut Position<L>,
    ) -> Result<(), AllocError>
        requires { does_something self.old.setup (world_where self.old.setup self.old.journal) Take ≡ true }
        ensures ok { OnOk result ((t : Taken P) × (taken.new.items ≡ taken.old.items ++ t ∷ []) × TakesRow (t ∷ []) self.old position.old self.new position.new) }
        ensures on { OnOk result (StandsIn position.old self.old.journal) }
        ensures err { OnErr result (IsSame self.old self.new × (position.new ≡ position.old) × (taken.new.items ≡ taken.old.items)) }
    {
        taken.reserve(1)?;
        let (_receipt, next) = self.take(position)?;
        let Some(next) = next else {
            unreachable!();
        };
        taken.push_reserved(next);
        Ok(())
    }

    /// The oldest results go out, as many as there are and at most so many, and stand behind these; where memory is refused to
    /// one, those before it. How many they were, and whether it was.
    fn take_more(
        &mut self,
        most: u32,
        taken: &mut Vec<Taken<P>>,
        position: &mut Position<L>,
    ) -> (u32, bool)
        requires { position.old.seen ≡ self.old.journal }
        ensures taken { (more : List (Taken P)) × (taken.new.items ≡ taken.old.items ++ more) × (length more ≡ result.0) × TakesRow more self.old position.old self.new position.new }
        ensures few { result.0 ≤ most }
        ensures ends { result.1 ≡ false → result.0 < most → does_something self.new.setup (world_where self.new.setup self.new.journal) Take ≡ false }
        ensures lacks { result.1 ≡ true → (result.0 < most) × (does_something self.new.setup (world_where self.new.setup self.new.journal) Take ≡ true) }
    {
        for done in 0..most {
            if !self.has_result() {
                return (done, false);
            }
            let Ok(()) = self.take_next(taken, position) else {
                return (done, true);
            };
        }
        (most, false)
    }
}

/// Packets at an endpoint, where there is room for so many places: how many, and whether one ended a transfer.
fn serve_each<L: Naming, P, D: Device, J: Recorder>(
    core: &mut Core<P, D>,
    log: &mut Log<L, J>,
    position: &mut Position<L>,
    moment: u64,
    dev: DeviceNo,
    ep: EpAddr,
    most: u32,
) -> (u32, bool)
    requires some { 0 < most }
    requires seen { position.old.seen ≡ log.old.journal }
    requires room { (length log.old.journal + most < 2 ^ 64) × J.has_room log.old.recorder most 0 }
    requires run { Replays L.setup log.old.journal core.old }
    ensures row { DoesRow L.setup moment (replicate result.0 (Serve dev ep)) core.old log.old.journal position.old core.new log.new.journal position.new }
    ensures some { (0 < result.0) × (result.0 ≤ most) }
    ensures on { GoOn (run_from L.setup (world_where L.setup log.old.journal) (replicate result.0 (Serve dev ep))) }
    ensures ends { result.0 < most → MayStopBehind L.setup (world_where L.setup log.new.journal) dev ep (run_from L.setup (world_where L.setup log.old.journal) (replicate result.0 (Serve dev ep))) }
    ensures ended { result.1 ≡ ends_any (run_from L.setup (world_where L.setup log.old.journal) (replicate result.0 (Serve dev ep))) }
{
    let mut count = 0;
    let mut ended = false;
    while count < most {
        let burst = serve_row(core, log, position, moment, dev, ep, most - count);
        count += burst.full + 1;
        ended = or_ends(ended, &burst.last.reply);
        if may_stop(core, dev, ep, &burst.last.reply) {
            return (count, ended);
        }
    }
    (count, ended)
}

/// Packets at an endpoint in one burst, each at a place.
fn serve_row<L: Naming, P, D: Device, J: Recorder>(
    core: &mut Core<P, D>,
    log: &mut Log<L, J>,
    position: &mut Position<L>,
    moment: u64,
    dev: DeviceNo,
    ep: EpAddr,
    most: u32,
) -> Burst
    requires some { 0 < most }
    requires seen { position.old.seen ≡ log.old.journal }
    requires room { (length log.old.journal + most < 2 ^ 64) × J.has_room log.old.recorder most 0 }
    requires run { Replays L.setup log.old.journal core.old }
    ensures row { DoesRow L.setup moment (replicate (result.full + 1) (Serve dev ep)) core.old log.old.journal position.old core.new log.new.journal position.new }
    ensures entries { burst_entries result ≡ run_from L.setup (world_where L.setup log.old.journal) (replicate (result.full + 1) (Serve dev ep)) }
    ensures few { result.full + 1 ≤ most }
    ensures room { J.has_room log.new.recorder (most - (result.full + 1)) 0 }
{
    let burst = core.serve_burst(dev, ep, most);
    enter_burst(log, position, moment, dev, ep, &burst);
    burst
}

/// The places of a burst.
fn enter_burst<L: Naming, J: Recorder>(
    log: &mut Log<L, J>,
    position: &mut Position<L>,
    moment: u64,
    dev: DeviceNo,
    ep: EpAddr,
    burst: &Burst,
)
    requires seen { position.old.seen ≡ log.old.journal }
    requires room { (places : ℕ) × (length (burst_entries burst.now) ≤ places) × (length log.old.journal + places < 2 ^ 64) × J.has_room log.old.recorder places 0 }
    requires bytes { bytes_in burst.now.last.reply ≡ 0 }
    ensures row { IsRow position.old.number moment (replicate (length (burst_entries burst.now)) (Serve dev ep)) (burst_entries burst.now) log.old.journal position.old log.new.journal position.new }
    ensures room { (places : ℕ) → J.has_room log.old.recorder places 0 → J.has_room log.new.recorder (places - length (burst_entries burst.now)) 0 }
{
    enter_wholes(log, position, moment, dev, ep, burst);
    let step = Step::Serve { dev, ep };
    let caller = position.number();
    let _ = log.enter(position, step, caller, &burst.last, moment);
}

/// The places of all its packets but the last.
fn enter_wholes<L: Naming, J: Recorder>(
    log: &mut Log<L, J>,
    position: &mut Position<L>,
    moment: u64,
    dev: DeviceNo,
    ep: EpAddr,
    burst: &Burst,
)
    requires seen { position.old.seen ≡ log.old.journal }
    requires room { (places : ℕ) × (length (whole_entries burst.now.each burst.now.full) ≤ places) × (length log.old.journal + places < 2 ^ 64) × J.has_room log.old.recorder places 0 }
    ensures row { IsRow position.old.number moment (replicate (length (whole_entries burst.now.each burst.now.full)) (Serve dev ep)) (whole_entries burst.now.each burst.now.full) log.old.journal position.old log.new.journal position.new }
    ensures room { (places : ℕ) → J.has_room log.old.recorder places 0 → J.has_room log.new.recorder (places - length (whole_entries burst.now.each burst.now.full)) 0 }
{
    let Some(each) = &burst.each else {
        return;
    };
    let entry = each.entry();
    let caller = position.number();
    for _ in 0..burst.full {
        let step = Step::Serve { dev, ep };
        let _ = log.enter(position, step, caller, &entry, moment);
    }
}

/// Whether one ended a transfer before, or does by this reply.
fn or_ends(ended: bool, reply: &Reply) -> bool
    ensures { result ≡ (ended || is_end reply.now) }
{
    ended || matches!(reply, Reply::Ended { .. })
}

/// Whether packets may stop behind one with this reply.
fn may_stop<P, D: Device>(core: &Core<P, D>, dev: DeviceNo, ep: EpAddr, reply: &Reply) -> bool
    ensures stops { (setup : Setup) (w : World) → ShowsWorld setup core.now w → result ≡ true → MayStop setup w dev ep reply.now }
    ensures on { result ≡ false → is_progress reply.now ≡ true }
{
    match reply {
        Reply::Moved { .. } => false,
        Reply::Ended { .. } => !core.has_packet(dev, ep),
        _ => true,
    }
}

/// Events, where there is room for so many places: how many, and whether they left nothing for the controller.
fn deliver_each<L: Naming, P, D: Device, J: Recorder>(
    core: &mut Core<P, D>,
    log: &mut Log<L, J>,
    position: &mut Position<L>,
    moment: u64,
    most: u32,
) -> (u32, bool)
    requires seen { position.old.seen ≡ log.old.journal }
    requires room { (length log.old.journal + most < 2 ^ 64) × J.has_room log.old.recorder most 0 }
    requires run { Replays L.setup log.old.journal core.old }
    ensures row { DoesRow L.setup moment (replicate result.0 Deliver) core.old log.old.journal position.old core.new log.new.journal position.new }
    ensures few { result.0 ≤ most }
    ensures ends { result.0 < most → does_something L.setup (world_where L.setup log.new.journal) Deliver ≡ false }
    ensures quiet { result.1 ≡ are_quiet L.setup (world_where L.setup log.old.journal) result.0 }
{
    let mut quiet = true;
    for done in 0..most {
        if !core.has_event() {
            return (done, quiet);
        }
        quiet = deliver_next(core, log, position, moment, quiet);
    }
    (most, quiet)
}

/// The oldest event, at a place: whether it left nothing for the controller, nor those before it.
fn deliver_next<L: Naming, P, D: Device, J: Recorder>(
    core: &mut Core<P, D>,
    log: &mut Log<L, J>,
    position: &mut Position<L>,
    moment: u64,
    quiet: bool,
) -> bool
    requires seen { position.old.seen ≡ log.old.journal }
    requires room { (places : ℕ) × (1 ≤ places) × (length log.old.journal + places < 2 ^ 64) × J.has_room log.old.recorder places 0 }
    requires run { Replays L.setup log.old.journal core.old }
    ensures row { DoesRow L.setup moment (Deliver ∷ []) core.old log.old.journal position.old core.new log.new.journal position.new }
    ensures quiet { result ≡ (quiet && is_quiet L.setup (world_where L.setup log.old.journal)) }
    ensures room { (places : ℕ) → J.has_room log.old.recorder places 0 → J.has_room log.new.recorder (places - 1) 0 }
{
    let entry = core.deliver();
    let caller = position.number();
    let _ = log.enter(position, Step::Deliver, caller, &entry, moment);
    leaves_nothing(core, &entry.reply, quiet)
}

/// Whether an event with this reply left nothing for the controller, nor those before it: by it no errand ended, and no
/// order waits.
fn leaves_nothing<P, D: Device>(core: &Core<P, D>, reply: &Reply, quiet: bool) -> bool
    ensures { (setup : Setup) (w : World) → ShowsWorld setup core.now w → result ≡ (quiet && (not (is_settled reply.now) && not (does_something setup w Command))) }
{
    quiet && !is_settled(reply) && !core.has_order()
}

/// Whether an errand ended.
fn is_settled(reply: &Reply) -> bool
    ensures { result ≡ is_settled reply.now }
{
    matches!(reply, Reply::Settled { .. })
}
