//! The worker that handles events and calls callbacks.

ghost use Rattle.std.specs.Prelude.{◌≡◌, ◌<◌, ◌≤◌, ◌+◌, [], All, length, map};
ghost use Rattle.usb_model.specs.declared.verdict.Verdict.{Verdict};
ghost use Rattle.usb_library.specs.Calls.{LacksEvents, ShowsEvents};
ghost use Rattle.usb_workers.specs.Rounds.{AreCounted, CallsBackIf, DeliversIf, Handles, HasEnded, MayAnswer, Rounds, Takes, Tells, TellsAll, called_in};

use crate::answers::answer;
use crate::gate::{Gate, WorkerStep};
use crate::limit::Limit;
use crate::park::Parking;
use crate::tries::Tries;
use std::alloc::Global;
use std::sync::Wait;
use usb_core::{Callback, Taken};
use usb_device::Device;
use usb_journal::{Events, Naming, Past, Recorder};
use usb_library::{Caller, Library, Payload, WorkerPart};

/// Events are handled in a row, if the look showed one, as many as wait and as the gate lets by. Where memory is refused, the next look
/// shows them again.
fn deliver<L: Naming, C: Callback + Payload, D: Device, J: Recorder, G: Gate, R: Wait>(
    rt: &R,
    library: &Library<L, C, D, J>,
    gate: &mut G,
    caller: &mut Caller<L>,
    past: &mut Past<L>,
    tries: &mut Tries,
    events: &Events,
)
    ensures made { DeliversIf L.setup events.now.deliver caller.old caller.new }
    ensures called { called_in caller.old.own ≤ called_in caller.new.own }
    ensures counted { AreCounted tries.old.refused caller.old → AreCounted tries.new.refused caller.new }
{
    if events.deliver {
        gate.pass(rt, WorkerStep::Deliver);
        match library.deliver_all(rt, caller, past, gate.burst().max(1)) {
            Ok(_) => tries.done(),
            Err(_) => tries.refused(rt, library),
        }
    }
}

/// The oldest results go out, as many as wait and at most so many.
fn take<L: Naming, C: Callback + Payload, D: Device, J: Recorder, R: Wait>(
    rt: &R,
    library: &Library<L, C, D, J>,
    caller: &mut Caller<L>,
    past: &mut Past<L>,
    tries: &mut Tries,
    most: u32,
    taken: &mut Vec<Taken<C>>,
)
    requires some { 0 < most }
    requires empty { taken.old.items ≡ [] }
    ensures made { Takes L.setup (map (λ t. t.returned) taken.new.items) caller.old caller.new }
    ensures suits { All (λ t. C.Whom.suits t.payload t.returned.h) taken.new.items }
    ensures called { called_in caller.old.own + length taken.new.items ≤ called_in caller.new.own }
    ensures counted { AreCounted tries.old.refused caller.old → AreCounted tries.new.refused caller.new }
{
    match library.take_all(rt, caller, past, most, taken) {
        Ok(_) => tries.done(),
        Err(_) => tries.refused(rt, library),
    }
}

/// Calls a callback, with no lock held, and tells its verdict; or Stop, where more were called before it than may answer as they like.
fn call_back<L: Naming, C: Callback + Payload, D: Device, J: Recorder, G: Gate, R: Wait>(
    rt: &R,
    library: &Library<L, C, D, J>,
    gate: &mut G,
    caller: &mut Caller<L>,
    tries: &mut Tries,
    limit: &mut Limit,
    taken: Taken<C>,
)
    requires counted { AreCounted tries.old.refused caller.old }
    requires suits { C.Whom.suits taken.payload taken.returned.h }
    requires called { limit.old.called < called_in caller.old.own }
    ensures told { (v : Verdict) × MayAnswer limit.old.rounds C.Whom.suits C.may_answer C.rule caller.old taken.returned v × Tells L.setup taken.returned.h taken.returned.n v caller.old caller.new }
    ensures called { (limit.new.called ≤ limit.old.called + 1) × (called_in caller.old.own ≤ called_in caller.new.own) }
    ensures rounds { limit.new.rounds ≡ limit.old.rounds }
    ensures counted { AreCounted tries.new.refused caller.new }
{
    let Taken {
        returned,
        payload: callback,
    } = taken;
    let (h, n) = (returned.h, returned.n);
    gate.pass(rt, WorkerStep::Call);
    let (answered, callback) = callback.call(returned);
    let verdict = limit.verdict(answered);
    gate.pass(rt, WorkerStep::Answer);
    answer(rt, library, caller, tries, h, n, verdict, callback);
}

/// Calls these callbacks one by one, each with no lock held, and tells the verdict of each before the next is called.
fn call_all<L: Naming, C: Callback + Payload, D: Device, J: Recorder, G: Gate, R: Wait>(
    rt: &R,
    library: &Library<L, C, D, J>,
    gate: &mut G,
    caller: &mut Caller<L>,
    tries: &mut Tries,
    limit: &mut Limit,
    taken: &mut Vec<Taken<C>>,
)
    requires counted { AreCounted tries.old.refused caller.old }
    requires suits { All (λ t. C.Whom.suits t.payload t.returned.h) taken.old.items }
    requires called { limit.old.called + length taken.old.items ≤ called_in caller.old.own }
    ensures told { TellsAll L.setup (MayAnswer limit.old.rounds C.Whom.suits C.may_answer C.rule) (map (λ t. t.returned) taken.old.items) caller.old caller.new }
    ensures called { limit.new.called ≤ called_in caller.new.own }
    ensures rounds { limit.new.rounds ≡ limit.old.rounds }
    ensures counted { AreCounted tries.new.refused caller.new }
    ensures empty { taken.new.items ≡ [] }
{
    for each in taken.drain(..) {
        call_back(rt, library, gate, caller, tries, limit, each);
    }
}

/// Results go out in a row, if the look showed one, and their callbacks are called.
fn take_and_call<L: Naming, C: Callback + Payload, D: Device, J: Recorder, G: Gate, R: Wait>(
    rt: &R,
    library: &Library<L, C, D, J>,
    gate: &mut G,
    caller: &mut Caller<L>,
    past: &mut Past<L>,
    tries: &mut Tries,
    limit: &mut Limit,
    events: &Events,
    taken: &mut Vec<Taken<C>>,
)
    requires counted { AreCounted tries.old.refused caller.old }
    requires called { limit.old.called ≤ called_in caller.old.own }
    requires empty { taken.old.items ≡ [] }
    ensures made { CallsBackIf L.setup (MayAnswer limit.old.rounds C.Whom.suits C.may_answer C.rule) events.now.take caller.old caller.new }
    ensures called { limit.new.called ≤ called_in caller.new.own }
    ensures rounds { limit.new.rounds ≡ limit.old.rounds }
    ensures counted { AreCounted tries.new.refused caller.new }
    ensures empty { taken.new.items ≡ [] }
{
    if !events.take {
        return;
    }
    gate.pass(rt, WorkerStep::Take);
    let most = gate.burst().max(1);
    take(rt, library, caller, past, tries, most, taken);
    call_all(rt, library, gate, caller, tries, limit, taken);
}

/// What one look showed; it waits where that was nothing of its part.
fn turn<L: Naming, C: Callback + Payload, D: Device, J: Recorder, G: Gate, R: Wait>(
    rt: &R,
    library: &Library<L, C, D, J>,
    gate: &mut G,
    caller: &mut Caller<L>,
    past: &mut Past<L>,
    tries: &mut Tries,
    parking: &mut Parking,
    limit: &mut Limit,
    events: &Events,
    taken: &mut Vec<Taken<C>>,
)
    requires counted { AreCounted tries.old.refused caller.old }
    requires called { limit.old.called ≤ called_in caller.old.own }
    requires empty { taken.old.items ≡ [] }
    ensures made { Handles L.setup (MayAnswer limit.old.rounds C.Whom.suits C.may_answer C.rule) events.now caller.old caller.new }
    ensures called { limit.new.called ≤ called_in caller.new.own }
    ensures rounds { limit.new.rounds ≡ limit.old.rounds }
    ensures counted { AreCounted tries.new.refused caller.new }
    ensures empty { taken.new.items ≡ [] }
{
    deliver(rt, library, gate, caller, past, tries, events);
    take_and_call(rt, library, gate, caller, past, tries, limit, events, taken);
    if events.is_none() {
        parking.park(rt, library);
    }
}

/// Turn by turn, until the worker leaves.
fn work<L: Naming, C: Callback + Payload, D: Device, J: Recorder, G: Gate, R: Wait>(
    rt: &R,
    alloc: Global,
    library: &Library<L, C, D, J>,
    gate: &mut G,
    caller: Caller<L>,
    rounds: u64,
) -> Caller<L>
    ensures rounds { Rounds (ShowsEvents L.setup) (Handles L.setup (MayAnswer rounds C.Whom.suits C.may_answer C.rule)) caller result }
    ensures ended { HasEnded (LacksEvents L.setup) result }
{
    let mut caller = caller;
    let mut tries = Tries::new();
    let mut parking = Parking::new(rt, alloc, library, WorkerPart::Events);
    let mut past = library.past(rt, &mut caller);
    let mut limit = Limit::new(rounds);
    let mut taken = Vec::new(alloc);
    for _ in rt.forever() {
        let Some(events) = library.events(rt, &mut caller, &mut past) else {
            return caller;
        };
        turn(
            rt,
            library,
            gate,
            &mut caller,
            &mut past,
            &mut tries,
            &mut parking,
            &mut limit,
            &events,
            &mut taken,
        );
        if tries.are_over(library) {
            library.end_workers(rt);
            return caller;
        }
    }
    unreachable!()
}

/// Handles events (libusb 1.0, `libusb_handle_events`), takes results out, calls their callbacks with no lock held and tells their
/// verdicts, until the library is rested: a row of Delivers or of Takes only where a look showed one, each behind the gate.
/// With nothing to do it parks. A callback that can't be submitted once more has ended, and is told so (`Callback::ended`). Where memory
/// is refused it says so (`has_lacked_memory`) and tries again; but once it was asked to stop, and a hundred tries in a row were refused,
/// it gives up, and asks the other worker to end too. The caller comes back, and only where what it saw last has neither an event nor a
/// result, or memory was refused to it a hundred times. Look by look it made what was there to be seen: events in a row;
/// then results in a row, whose callbacks are called one by one, and behind the row, in its order, for each the verdict told that a callback
/// may give which suits its name, by its Answer, or by Stop where the transfer isn't submitted once more. Once `rounds` callbacks were
/// called, each that is called then is at its end, whatever it answers. What memory was refused to the caller has counted, and nothing else was made.
pub fn event_loop<L: Naming, C: Callback + Payload, D: Device, J: Recorder, G: Gate, R: Wait>(
    rt: &R,
    alloc: Global,
    library: &Library<L, C, D, J>,
    gate: &mut G,
    caller: Caller<L>,
    rounds: u64,
) -> Caller<L>
    ensures rounds { Rounds (ShowsEvents L.setup) (Handles L.setup (MayAnswer rounds C.Whom.suits C.may_answer C.rule)) caller result }
    ensures ended { HasEnded (LacksEvents L.setup) result }
{
    let mut caller = caller;
    library.enter(&mut caller);
    let mut caller = work(rt, alloc, library, gate, caller, rounds);
    library.leave(rt, &mut caller);
    caller
}
