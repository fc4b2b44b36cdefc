//! Who is woken when something changed, and when all is at rest.

ghost use Rattle.std.specs.Prelude.{◌≡◌, IfNone, IfSome};
ghost use Rattle.usb_library.specs.Calls.{LacksEvents, LacksWork, LooksOn, ShowsEvents, ShowsPending, has_work, is_nothing};
ghost use Rattle.usb_receipts.specs.Rule.{BeginsWith};
ghost use Rattle.usb_library.specs.Wakes.{of_event as event_work, of_packet as packet_work};

use crate::caller::Caller;
use crate::library::Library;
use crate::payload::Payload;
use crossbeam_utils::sync::Unparker;
use std::alloc::{AllocError, Global};
use std::sync::atomic::{AtomicBool, AtomicU64, Ordering};
use std::sync::{Mutex, Wait};
use usb_core::Pending;
use usb_device::Device;
use usb_journal::{Events, Naming, Past, Recorder};
use usb_model::Reply;

/// A worker, by its part of the work.
#[derive(Clone, Copy, PartialEq, Eq, Debug)]
pub enum WorkerPart {
    /// Packets and orders.
    Controller,
    /// Events, results and their callbacks.
    Events,
}

/// For whom a step may have made work that wasn't there before it. That nobody else has new work is a law (`laws::wakes`).
#[derive(Clone, Copy, PartialEq, Eq, Debug)]
pub(crate) enum Work {
    /// For nobody: a packet that ends no transfer, a result that goes out, a callback that ends.
    None,
    /// For one of the workers: a submission for the controller's, a transfer that ended for that of events.
    Of(WorkerPart),
    /// For either: whatever isn't part of each transfer.
    Any,
}

/// For whom a packet made work, by what came of it: a transfer that ended has its event.
pub(crate) fn of_packet(reply: &Reply) -> Work
    ensures { result ≡ packet_work reply.now }
{
    match reply {
        Reply::Ended { .. } => Work::Of(WorkerPart::Events),
        _ => Work::None,
    }
}

/// For whom an event made work that was handled: there is an order, or an errand ended and its endpoint runs again.
pub(crate) fn of_event(reply: &Reply, has_order: bool) -> Work
    ensures { result ≡ event_work reply.now has_order }
{
    match reply {
        Reply::Settled { .. } => Work::Of(WorkerPart::Controller),
        _ if has_order => Work::Of(WorkerPart::Controller),
        _ => Work::None,
    }
}

/// Threads that wait for the same. Their lock is their own: whoever holds it takes no other.
///
/// As long as nobody waits it isn't taken. Whether somebody does is read after a call's step was made, and is said before
/// `watch` comes back: so where a call finds nobody, whoever comes to wait looks later than its step, and finds that.
#[derive(Drop)]
struct Waiting {
    any: AtomicBool,
    unparkers: Mutex<Vec<Unparker>>,
    /// How often they were woken, over and over again from 0 on. It goes up behind the unparking: who sees it go up has its token.
    wakes: AtomicU64,
}

impl Waiting {
    /// Nobody waits.
    fn new(alloc: Global) -> Waiting {
        Waiting {
            any: AtomicBool::new(false),
            unparkers: Mutex::new(Vec::new(alloc)),
            wakes: AtomicU64::new(0),
        }
    }

    /// One more.
    fn add<R: Wait>(&self, rt: &R, unparker: Unparker) -> Result<(), AllocError> {
        self.unparkers.lock(rt).push(unparker)?;
        self.any.store(true, Ordering::SeqCst);
        Ok(())
    }

    /// All are woken, where there are any.
    #[inline(always)]
    fn wake<R: Wait>(&self, rt: &R) {
        if self.any.load(Ordering::SeqCst) {
            self.wake_all(rt);
        }
    }

    /// All are woken.
    #[inline(never)]
    fn wake_all<R: Wait>(&self, rt: &R) {
        let unparkers = self.unparkers.lock(rt);
        for unparker in unparkers.iter() {
            unparker.unpark();
        }
        self.wakes.fetch_add(1, Ordering::SeqCst);
    }
}

/// Those who wait: for any change, or for work of their part.
///
/// A worker parks where one look showed nothing of its part. From then on its part has work only by a step for which it is
/// named (`laws::wakes`, and what `Library::wake_if` requires), and who made that step unparks it afterwards: so it
/// doesn't wait while there is work for it. It waits for the end too, which any step may bring: once the workers were
/// asked to stop, each change wakes both, but one that a worker made. That worker looks again behind it; and where it sees the
/// end it leaves, which wakes the other (`Library::leave`).
#[derive(Drop)]
pub(crate) struct Watchers {
    /// Whether anybody waits, for whatever it may be.
    any: AtomicBool,
    stopping: AtomicBool,
    ending: AtomicBool,
    all: Waiting,
    controllers: Waiting,
    events: Waiting,
}

impl Watchers {
    /// Nobody waits, and no worker is asked to stop.
    pub(crate) fn new(alloc: Global) -> Watchers {
        Watchers {
            any: AtomicBool::new(false),
            stopping: AtomicBool::new(false),
            ending: AtomicBool::new(false),
            all: Waiting::new(alloc),
            controllers: Waiting::new(alloc),
            events: Waiting::new(alloc),
        }
    }

    /// Those of one part.
    fn of(&self, part: WorkerPart) -> &Waiting {
        match part {
            WorkerPart::Controller => &self.controllers,
            WorkerPart::Events => &self.events,
        }
    }

    /// One more, of these.
    fn add<R: Wait>(
        &self,
        rt: &R,
        waiting: &Waiting,
        unparker: Unparker,
    ) -> Result<(), AllocError> {
        waiting.add(rt, unparker)?;
        self.any.store(true, Ordering::SeqCst);
        Ok(())
    }

    /// Those are woken who wait for what a step did, and for the end, if whoever made the step doesn't look for that. Where nobody
    /// waits for anything, that is all that is asked.
    #[inline(always)]
    pub(crate) fn wake<R: Wait>(&self, rt: &R, work: Work, looks_again: bool) {
        if self.any.load(Ordering::SeqCst) {
            self.wake_any(rt, work, looks_again);
        }
    }

    /// The same, where somebody waits.
    #[inline(never)]
    fn wake_any<R: Wait>(&self, rt: &R, work: Work, looks_again: bool) {
        self.all.wake(rt);
        if !looks_again && self.stopping.load(Ordering::SeqCst) {
            self.wake_workers(rt);
            return;
        }
        match work {
            Work::None => {}
            Work::Of(part) => self.of(part).wake(rt),
            Work::Any => self.wake_workers(rt),
        }
    }

    /// The workers are woken.
    fn wake_workers<R: Wait>(&self, rt: &R) {
        self.controllers.wake(rt);
        self.events.wake(rt);
    }
}

/// Whether there is work of the controller's part: a packet or an order.
fn has_work(pending: &Pending) -> bool
    ensures { result ≡ has_work pending.now }
{
    pending.serve.is_some() || pending.command
}

/// Whether nothing is to be done, and no transfer is in its callback.
pub(crate) fn is_nothing(pending: &Pending) -> bool
    ensures { result ≡ is_nothing pending.now }
{
    let Pending {
        deliver,
        take,
        out,
        ..
    } = pending;
    !(has_work(pending) || *deliver || *take || *out)
}

impl<L: Naming, P: Payload, D: Device, J: Recorder> Library<L, P, D, J> {
    /// From now on this is unparked after each call that changed something, and when the workers are asked to stop. A
    /// thread that looks, finds nothing to do, and parks then misses no change: what comes between is a token that lets
    /// it pass. An error where memory is refused.
    pub fn watch<R: Wait>(&self, rt: &R, unparker: Unparker) -> Result<(), AllocError> {
        self.watchers.add(rt, &self.watchers.all, unparker)
    }

    /// The same for a worker, who is unparked only after a call that may have made work of its part, and, since the workers were
    /// asked to stop, after each change that no worker made, and when another leaves.
    pub fn watch_part<R: Wait>(
        &self,
        rt: &R,
        part: WorkerPart,
        unparker: Unparker,
    ) -> Result<(), AllocError> {
        self.watchers.add(rt, self.watchers.of(part), unparker)
    }

    /// How often the workers of a part were woken: where it isn't what it was, they have a token. No lock is taken.
    pub fn wakes(&self, part: WorkerPart) -> u64 {
        self.watchers.of(part).wakes.load(Ordering::SeqCst)
    }

    /// Asks the workers to end as soon as there is nothing to do.
    pub fn stop_workers<R: Wait>(&self, rt: &R) {
        self.watchers.stopping.store(true, Ordering::SeqCst);
        self.watchers.wake(rt, Work::Any, false);
    }

    /// From now on the caller is a worker's, who looks again behind each call, and leaves at last: so no call of its own wakes others
    /// because it may have been the last.
    pub fn enter(&self, caller: &mut Caller<L>)
        ensures same { caller.new ≡ caller.old }
    {
        caller.looks_again = true;
    }

    /// The caller is no worker's any more. The others are woken: what that worker saw last may be the end that they wait for.
    pub fn leave<R: Wait>(&self, rt: &R, caller: &mut Caller<L>)
        ensures same { caller.new ≡ caller.old }
    {
        caller.looks_again = false;
        self.watchers.wake(rt, Work::Any, false);
    }

    /// Whether the workers were asked to end, as soon as there is nothing to do, or nothing of their own part.
    pub fn is_stopping(&self) -> bool {
        self.watchers.stopping.load(Ordering::SeqCst)
    }

    /// Asks each worker to end as soon as there is nothing of its own part to do, whatever there is of the other's: one of them can't do
    /// its part.
    pub fn end_workers<R: Wait>(&self, rt: &R) {
        self.watchers.ending.store(true, Ordering::SeqCst);
        self.stop_workers(rt);
    }

    /// What a caller has seen of the journal, as a value that goes to others and says so for good.
    pub fn past<R: Wait>(&self, rt: &R, caller: &mut Caller<L>) -> Past<L>
        ensures same { caller.new ≡ caller.old }
        ensures past { result ≡ caller.old.seen }
    {
        self.lock(rt).book.remember(&mut caller.position)
    }

    /// What there is to do, as a caller sees it, who sees the whole journal so far by it. That begins with `past`, which then has all
    /// that the caller has seen: so an old look isn't shown again. Endpoints are looked at in a circle, from behind the one that was
    /// served last; from that one on where the last look found no packet.
    pub fn pending<R: Wait>(&self, rt: &R, caller: &mut Caller<L>, past: &mut Past<L>) -> Pending
        ensures pending { ShowsPending L.setup caller.new.seen result }
        ensures looks { LooksOn caller.old caller.new }
        ensures behind { BeginsWith past.old caller.new.seen }
        ensures past { past.new ≡ caller.new.seen }
    {
        let mut guarded = self.lock(rt);
        let after = guarded.look.after();
        let pending = guarded.book.look(&mut caller.position, past, after);
        guarded.look.keep(&pending);
        pending
    }

    /// What there is to do, as a caller sees it. None where the workers were asked to stop and there is nothing, or where one of them gave
    /// up and there is no packet and no order. Whether they were asked is read first: so a submission before that is seen.
    pub fn work<R: Wait>(
        &self,
        rt: &R,
        caller: &mut Caller<L>,
        past: &mut Past<L>,
    ) -> Option<Pending>
        ensures pending { IfSome result (ShowsPending L.setup caller.new.seen) }
        ensures none { IfNone result (LacksWork L.setup caller.new.seen) }
        ensures looks { LooksOn caller.old caller.new }
        ensures behind { BeginsWith past.old caller.new.seen }
        ensures past { past.new ≡ caller.new.seen }
    {
        let (ending, stopping) = (self.is_ending(), self.is_stopping());
        let pending = self.pending(rt, caller, past);
        if has_work(&pending) || !(ending || stopping && is_nothing(&pending)) {
            return Some(pending);
        }
        None
    }

    /// What there is to do with events, as a caller sees it, which is known without a look at the endpoints.
    fn look_for_events<R: Wait>(&self, rt: &R, caller: &mut Caller<L>, past: &mut Past<L>) -> Events
        ensures events { ShowsEvents L.setup caller.new.seen result }
        ensures looks { LooksOn caller.old caller.new }
        ensures behind { BeginsWith past.old caller.new.seen }
        ensures past { past.new ≡ caller.new.seen }
    {
        self.lock(rt)
            .book
            .look_for_events(&mut caller.position, past)
    }

    /// The same. None where the workers were asked to stop and there is nothing to do at all, or where one of them gave up and there is no
    /// event and no result.
    pub fn events<R: Wait>(
        &self,
        rt: &R,
        caller: &mut Caller<L>,
        past: &mut Past<L>,
    ) -> Option<Events>
        ensures events { IfSome result (ShowsEvents L.setup caller.new.seen) }
        ensures none { IfNone result (LacksEvents L.setup caller.new.seen) }
        ensures looks { LooksOn caller.old caller.new }
        ensures behind { BeginsWith past.old caller.new.seen }
        ensures past { past.new ≡ caller.new.seen }
    {
        let events = self.look_for_events(rt, caller, past);
        if !events.is_none() {
            return Some(events);
        }
        if self.is_ending() {
            return None;
        }
        if !self.is_stopping() {
            return Some(events);
        }
        let pending = self.pending(rt, caller, past);
        if is_nothing(&pending) {
            return None;
        }
        Some(Events {
            deliver: pending.deliver,
            take: pending.take,
        })
    }

    /// Whether a worker gave up.
    fn is_ending(&self) -> bool {
        self.watchers.ending.load(Ordering::SeqCst)
    }
}
