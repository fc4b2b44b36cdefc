//! The worker that does the controller's part.

ghost use Rattle.std.specs.Prelude.{◌≡◌};
ghost use Rattle.usb_model.specs.declared.step.Step.TheVariants.{Command};
ghost use Rattle.usb_library.specs.Calls.{LacksWork, ShowsPending};
ghost use Rattle.usb_workers.specs.Rounds.{AreCounted, Controls, DoesIf, HasEnded, Rounds, Serves};

use crate::gate::{Gate, WorkerStep};
use crate::park::Parking;
use crate::tries::Tries;
use std::alloc::Global;
use std::sync::Wait;
use usb_core::Pending;
use usb_device::Device;
use usb_journal::{Naming, Recorder};
use usb_library::{Caller, Library, Payload, WorkerPart};

/// A device answers packets at the endpoint that the look showed, in a row, as many as the gate lets by. Where memory is refused, the
/// next look shows them again.
fn serve<L: Naming, P: Payload, D: Device, J: Recorder, G: Gate, R: Wait>(
    rt: &R,
    library: &Library<L, P, D, J>,
    gate: &mut G,
    caller: &mut Caller<L>,
    tries: &mut Tries,
    pending: &Pending,
)
    ensures made { Serves L.setup pending.now.serve caller.old caller.new }
    ensures counted { AreCounted tries.old.refused caller.old → AreCounted tries.new.refused caller.new }
{
    if let Some((dev, ep)) = pending.serve {
        gate.pass(rt, WorkerStep::Serve);
        match library.serve_all(rt, caller, dev, ep, gate.burst()) {
            Ok(_) => tries.done(),
            Err(_) => tries.refused(rt, library),
        }
    }
}

/// An order is carried out, if the look showed one.
fn command<L: Naming, P: Payload, D: Device, J: Recorder, G: Gate, R: Wait>(
    rt: &R,
    library: &Library<L, P, D, J>,
    gate: &mut G,
    caller: &mut Caller<L>,
    tries: &mut Tries,
    pending: &Pending,
)
    ensures made { DoesIf L.setup pending.now.command Command caller.old caller.new }
    ensures counted { AreCounted tries.old.refused caller.old → AreCounted tries.new.refused caller.new }
{
    if pending.command {
        gate.pass(rt, WorkerStep::Command);
        match library.command(rt, caller) {
            Ok(_) => tries.done(),
            Err(_) => tries.refused(rt, library),
        }
    }
}

/// What one look showed; it waits where that was nothing of its part.
fn turn<L: Naming, P: Payload, D: Device, J: Recorder, G: Gate, R: Wait>(
    rt: &R,
    library: &Library<L, P, D, J>,
    gate: &mut G,
    caller: &mut Caller<L>,
    tries: &mut Tries,
    parking: &mut Parking,
    pending: &Pending,
)
    ensures made { Controls L.setup pending.now caller.old caller.new }
    ensures counted { AreCounted tries.old.refused caller.old → AreCounted tries.new.refused caller.new }
{
    serve(rt, library, gate, caller, tries, pending);
    command(rt, library, gate, caller, tries, pending);
    if pending.serve.is_none() && !pending.command {
        parking.park(rt, library);
    }
}

/// Turn by turn, until the worker leaves.
fn work<L: Naming, P: Payload, D: Device, J: Recorder, G: Gate, R: Wait>(
    rt: &R,
    alloc: Global,
    library: &Library<L, P, D, J>,
    gate: &mut G,
    caller: Caller<L>,
) -> Caller<L>
    ensures rounds { Rounds (ShowsPending L.setup) (Controls L.setup) caller result }
    ensures ended { HasEnded (LacksWork L.setup) result }
{
    let mut caller = caller;
    let mut tries = Tries::new();
    let mut parking = Parking::new(rt, alloc, library, WorkerPart::Controller);
    let mut past = library.past(rt, &mut caller);
    for _ in rt.forever() {
        let Some(pending) = library.work(rt, &mut caller, &mut past) else {
            return caller;
        };
        turn(
            rt,
            library,
            gate,
            &mut caller,
            &mut tries,
            &mut parking,
            &pending,
        );
        if tries.are_over(library) {
            library.end_workers(rt);
            return caller;
        }
    }
    unreachable!()
}

/// Does the controller's part (xHCI 1.2, 4.6 and 4.10) until the library is rested: a packet or an order only where
/// `pending` showed one, each behind the gate; behind one pass packets go in a row. With nothing to do it parks. Where memory is refused it says so (`has_lacked_memory`) and
/// tries again; but once it was asked to stop, and a hundred tries in a row were refused, it gives up, and asks the other worker to
/// end too. The caller comes back, and only where what it saw last has neither a packet nor an order, or memory was refused to it a hundred
/// times. Look by look it made what was there to be seen: packets in a row, then the order. What memory was refused to
/// the caller has counted, and nothing else was made.
pub fn controller_loop<L: Naming, P: Payload, D: Device, J: Recorder, G: Gate, R: Wait>(
    rt: &R,
    alloc: Global,
    library: &Library<L, P, D, J>,
    gate: &mut G,
    caller: Caller<L>,
) -> Caller<L>
    ensures rounds { Rounds (ShowsPending L.setup) (Controls L.setup) caller result }
    ensures ended { HasEnded (LacksWork L.setup) result }
{
    let mut caller = caller;
    library.enter(&mut caller);
    let mut caller = work(rt, alloc, library, gate, caller);
    library.leave(rt, &mut caller);
    caller
}
