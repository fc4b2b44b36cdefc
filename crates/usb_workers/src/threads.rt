//! The threads of a library that lives.

ghost use Rattle.std.specs.Prelude.{◌≡◌, ◌++◌, [], IfOk, IfSome, map};
ghost use denote.Param.Send.{IsSend, IsSync};
ghost use Rattle.usb_workers.specs.Rounds.{MayAnswer};
ghost use Rattle.usb_workers.specs.Life.{ControlsAll, Each, HandlesAll};

use crate::driver::Driver;
use crate::promises::{Controlling, Driving, Handling};
use crate::seat::{Home, Seat, drive};
use crate::{Gate, controller_loop, event_loop};
use std::alloc::{AllocError, Global};
use std::sync::Wait;
use std::thread;
use std::thread::{PromisedHandle, Scope, Threads};
use usb_core::Callback;
use usb_device::Device;
use usb_journal::{Naming, Recorder};
use usb_library::{Caller, Library, Payload};

/// A worker's caller, and its gate.
#[derive(Drop)]
pub(crate) struct Post<L: Naming, G> {
    pub(crate) caller: Caller<L>,
    pub(crate) gate: G,
}

/// The callers of the workers, and what came back of the drivers.
#[derive(Drop)]
pub(crate) struct Back<L: Naming, X> {
    pub(crate) controller: Caller<L>,
    pub(crate) events: Caller<L>,
    pub(crate) homes: Vec<Home<L, X>>,
}

/// The controller's part, in its thread.
fn control<L: Naming, C: Callback + Payload, D: Device, J: Recorder, G: Gate + Drop, R: Wait>(
    rt: &R,
    alloc: Global,
    library: &Library<L, C, D, J>,
    post: Post<L, G>,
) -> Caller<L>
    ensures { ControlsAll L.setup post.caller result }
{
    let Post { caller, mut gate } = post;
    controller_loop(rt, alloc, library, &mut gate, caller)
}

/// Events and callbacks, in theirs.
fn handle<L: Naming, C: Callback + Payload, D: Device, J: Recorder, G: Gate + Drop, R: Wait>(
    rt: &R,
    alloc: Global,
    library: &Library<L, C, D, J>,
    post: Post<L, G>,
    rounds: u64,
) -> Caller<L>
    ensures { HandlesAll L.setup (MayAnswer rounds C.Whom.suits C.may_answer C.rule) post.caller result }
{
    let Post { caller, mut gate } = post;
    event_loop(rt, alloc, library, &mut gate, caller, rounds)
}

/// The thread of the controller's part; None where none can be made.
fn start_controller<
    's,
    E: 's,
    L: Naming + Send + Sync + 's,
    C: Callback + Payload + Send + 's,
    D: Device + Send + 's,
    J: Recorder + Send + 's,
    G: Gate + Drop + Send + 's,
    R: Wait + Sync + 's,
>(
    scope: &Scope<'s, E>,
    rt: &'s R,
    alloc: Global,
    library: &'s Library<L, C, D, J>,
    post: Post<L, G>,
) -> Option<PromisedHandle<Caller<L>, Controlling<L>>>
where
    J::Draft: Send,
    C::Whom: Send,
    ensures { IfSome result (λ thread. thread.promise.caller.value ≡ post.caller) }
{
    let promise = Controlling::of(&post.caller);
    scope
        .spawn_with(promise, move || control(rt, alloc, library, post))
        .ok()
}

/// The thread of events and callbacks.
fn start_events<
    's,
    E: 's,
    L: Naming + Send + Sync + 's,
    C: Callback + Payload + Send + 's,
    D: Device + Send + 's,
    J: Recorder + Send + 's,
    G: Gate + Drop + Send + 's,
    R: Wait + Sync + 's,
>(
    scope: &Scope<'s, E>,
    rt: &'s R,
    alloc: Global,
    library: &'s Library<L, C, D, J>,
    post: Post<L, G>,
    rounds: u64,
) -> Option<PromisedHandle<Caller<L>, Handling<L, C>>>
where
    J::Draft: Send,
    C::Whom: Send,
    ensures { IfSome result (λ thread. (thread.promise.caller.value ≡ post.caller) × (thread.promise.rounds ≡ rounds)) }
{
    let promise = Handling::of(&post.caller, rounds);
    scope
        .spawn_with(promise, move || handle(rt, alloc, library, post, rounds))
        .ok()
}

/// The thread of a driver.
fn start_driver<
    's,
    E: 's,
    L: Naming + Send + Sync + 's,
    C: Callback + Payload + Send + 's,
    D: Device + Send + 's,
    J: Recorder + Send + 's,
    T: Driver<C> + Drop + Send + 's,
    R: Wait + Sync + 's,
>(
    scope: &Scope<'s, E>,
    rt: &'s R,
    library: &'s Library<L, C, D, J>,
    seat: Seat<L, T>,
) -> Option<PromisedHandle<Home<L, T::Left>, Driving<L, C, T>>>
where
    J::Draft: Send,
    C::Whom: Send,
    T::Left: Drop + Send + 's,
    ensures { IfSome result (λ thread. thread.promise.seat.value ≡ seat) }
{
    let promise = Driving::of(&seat);
    scope
        .spawn_with(promise, move || drive(rt, library, seat))
        .ok()
}

/// The threads of all drivers, behind those that are there. An error where one can't be made; those before it are there then.
fn start_drivers<
    's,
    E: 's,
    L: Naming + Send + Sync + 's,
    C: Callback + Payload + Send + 's,
    D: Device + Send + 's,
    J: Recorder + Send + 's,
    T: Driver<C> + Drop + Send + 's,
    R: Wait + Sync + 's,
>(
    scope: &Scope<'s, E>,
    rt: &'s R,
    library: &'s Library<L, C, D, J>,
    seats: Vec<Seat<L, T>>,
    threads: &mut Vec<PromisedHandle<Home<L, T::Left>, Driving<L, C, T>>>,
) -> Result<(), AllocError>
where
    J::Draft: Send,
    C::Whom: Send,
    T::Left: Drop + Send + 's,
    ensures { IfOk result (λ _. map (λ t. t.promise.seat.value) threads.new.items ≡ map (λ t. t.promise.seat.value) threads.old.items ++ seats.items) }
{
    for seat in seats {
        let Some(thread) = start_driver(scope, rt, library, seat) else {
            return Err(AllocError);
        };
        threads.push(thread)?;
    }
    Ok(())
}

/// What all threads leave, once the last has ended.
fn joined<L: Naming, C: Payload, T: Driver<C>, R: Threads>(
    rt: &R,
    threads: Vec<PromisedHandle<Home<L, T::Left>, Driving<L, C, T>>>,
    mut homes: Vec<Home<L, T::Left>>,
) -> Result<Vec<Home<L, T::Left>>, AllocError>
    requires { homes.items ≡ [] }
    ensures { IfOk result (λ homes. Each (λ s h. T.makes s.driver L.setup s.caller h.caller h.left) (map (λ t. t.promise.seat.value) threads.items) homes.items) }
{
    for thread in threads {
        homes.push(thread.join(rt))?;
    }
    Ok(homes)
}

/// Room for what the drivers' threads are, and for what they leave. Nothing is in it yet.
#[derive(Drop)]
struct Room<L: Naming, C: Payload, T: Driver<C>> {
    threads: Vec<PromisedHandle<Home<L, T::Left>, Driving<L, C, T>>>,
    homes: Vec<Home<L, T::Left>>,
    ghost fresh: { (threads.items ≡ []) × (homes.items ≡ []) },
}

/// Both workers and all drivers, each in a thread of this scope.
fn run_scoped<
    's,
    E: 's,
    L: Naming + Send + Sync + 's,
    C: Callback + Payload + Send + 's,
    D: Device + Send + 's,
    J: Recorder + Send + 's,
    G: Gate + Drop + Send + 's,
    T: Driver<C> + Drop + Send + 's,
    R: Threads + Wait + Sync + 's,
>(
    scope: &Scope<'s, E>,
    rt: &'s R,
    alloc: Global,
    library: &'s Library<L, C, D, J>,
    controller: Post<L, G>,
    events: Post<L, G>,
    rounds: u64,
    seats: Vec<Seat<L, T>>,
    room: Room<L, C, T>,
) -> Result<Back<L, T::Left>, AllocError>
where
    J::Draft: Send,
    C::Whom: Send,
    T::Left: Drop + Send + 's,
    ensures controls { IfOk result (λ back. ControlsAll L.setup controller.caller back.controller) }
    ensures handles { IfOk result (λ back. HandlesAll L.setup (MayAnswer rounds C.Whom.suits C.may_answer C.rule) events.caller back.events) }
    ensures drives { IfOk result (λ back. Each (λ s h. T.makes s.driver L.setup s.caller h.caller h.left) seats.items back.homes.items) }
{
    let Room { mut threads, homes } = room;
    let Some(controller) = start_controller(scope, rt, alloc, library, controller) else {
        return Err(AllocError);
    };
    let Some(events) = start_events(scope, rt, alloc, library, events, rounds) else {
        library.stop_workers(rt);
        return Err(AllocError);
    };
    let started = start_drivers(scope, rt, library, seats, &mut threads);
    let homes = joined(rt, threads, homes);
    library.stop_workers(rt);
    let (controller, events) = (controller.join(rt), events.join(rt));
    started?;
    Ok(Back {
        controller,
        events,
        homes: homes?,
    })
}

/// Both workers and all drivers, each in a thread. Once the drivers have ended the workers are asked to stop, and all are
/// joined. An error where memory is refused, or a thread can't be made: then too all that were made have ended.
pub(crate) fn run_all<
    L: Naming + Send + Sync,
    C: Callback + Payload + Send,
    D: Device + Send,
    J: Recorder + Send,
    G: Gate + Drop + Send,
    T: Driver<C> + Drop + Send,
    R: Threads + Wait + Sync,
>(
    rt: &R,
    alloc: Global,
    library: &Library<L, C, D, J>,
    controller: Post<L, G>,
    events: Post<L, G>,
    rounds: u64,
    seats: Vec<Seat<L, T>>,
) -> Result<Back<L, T::Left>, AllocError>
where
    J::Draft: Send,
    C::Whom: Send,
    T::Left: Drop + Send,
    ensures controls { IfOk result (λ back. ControlsAll L.setup controller.caller back.controller) }
    ensures handles { IfOk result (λ back. HandlesAll L.setup (MayAnswer rounds C.Whom.suits C.may_answer C.rule) events.caller back.events) }
    ensures drives { IfOk result (λ back. Each (λ s h. T.makes s.driver L.setup s.caller h.caller h.left) seats.items back.homes.items) }
{
    let room = Room {
        threads: Vec::with_capacity(alloc, seats.len())?,
        homes: Vec::with_capacity(alloc, seats.len())?,
    };
    thread::scope(
        thread::scope_env(),
        rt,
        move |scope| -> Result<Back<L, T::Left>, AllocError>
            requires { IsSync R.row × IsSend L.row × IsSync L.row × IsSend C.row × IsSend D.row × IsSend J.row × IsSend J.Draft.row × IsSend C.Whom.row × IsSend G.row × IsSend T.row × IsSend T.Left.row }
        {
            run_scoped(
                scope, rt, alloc, library, controller, events, rounds, seats, room,
            )
        },
    )
}
