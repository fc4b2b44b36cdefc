//! The core of the library, in which every step of every handle is made, over the memory of real rings; the parts in which it keeps
//! its state; and the callbacks that it stores (libusb 1.0; USB 2.0, 8; xHCI 1.2, 4).
//!
//! The one promise: each step is the turn of the world that the core shows, so no transfer is lost, none is doubled, and
//! none is told what its device didn't do.
//!
//! # Files
//!
//! Stored callbacks: boxed closures, each beside the rule that its verdicts fit:
//!
//! - `callback.rt`: `Callback`: the law of what is stored with a transfer; what runs callbacks is generic in it
//! - `end.rt`: `End`: how a callback ended, which it is told
//! - `stored.rt`: `StoredCallback`, `Repeat`, `Once`: boxed closures beside their rule
//! - `ruled.rt`: `Ruled`: a callback without code, which answers by its rule
//! - specs/Callbacks: numbers in their types' range; a verdict that fits the rule
//! - specs/Props: a verdict fits a rule in one way at most
//!
//! The parts, and each step on them:
//!
//! - parts, setup, made: the parts: claims, controller, transfers in flight, callers, errands; devices, and the
//!   parts made of them; scripted: a setup of devices that answer by scripts
//! - packets, step_bursts, orders: a packet; packets in a row; the oldest order
//! - events, reports, ends, settlement, sender: the oldest event; what it tells of a transfer; a transfer's
//!   end; the end of an errand; whose order an event is of
//! - submission, results, verdicts: a transfer joins its line; the oldest result goes out to its callback; a callback
//!   ends, or its transfer is submitted once more
//! - ask: a transfer is looked for, and asked to end
//! - handles, halts, quiet: opens, closes, releases; a halt is cleared; whether anything is under way
//! - claim, reset, renewal: an interface is claimed; a device is reset; endpoints are made new
//! - errands: an errand is ordered
//! - call: a step that takes no memory, whichever it is
//! - drain: events and orders in a row
//! - step_reads, pending: how long the next result is; whether a transfer can expire; what is to be done next
//! - step_inventory, step_feeds: who holds what, and what isn't finished at an endpoint or waits in a ring
//! - step_standing: how an endpoint stands, and a transfer in its line
//!
//! The core, whose invariant is that its parts show some world:
//!
//! - `calls.rt`: `Core`: its parts, of which the invariant is that they show some world; a function a step
//! - `bursts.rt`: steps in a row, in one call
//! - `step.rt`: any step, with its payload
//! - `runs.rt`: a list of steps, from a core in which nothing is open; of its run the laws hold with nothing asked
//!   of the devices
//! - `feeds.rt`: a device is fed, and the packet that it is to answer next
//! - `inventory.rt`: what handles haven't finished, part by part
//! - `standing.rt`: how an endpoint stands, and a transfer in its line
//! - `reads.rt`: what can be asked without a step; the controller, with its rings; the devices handed back
//!   (`into_setup`)
//! - specs/ Steps, Bursts, Runs, Reads, Inventory, Standing: what comes of a step and its payload; of steps in a row; the laws
//!   of a run, together; what can be asked of a world; what handles haven't finished in it; how an endpoint stands
//!
//! # Contracts
//!
//! - `StoredCallback::repeat`, `once`: a callback has the rule that it was given; one that is called once has the
//!   rule of such (Again of no status and no round, so that its verdict is Stop). The closure may be called on
//!   whatever has its numbers in range, and under `repeat` its verdict then fits the rule: whoever stores it proves
//!   both
//! - `Callback::call`, of every `Callback`, so of `StoredCallback`: the verdict fits the rule at the status and round
//!   of what came; it is one that the callback's code may give when it is told just this; a repeating callback comes
//!   back, and is the same; another doesn't
//! - `repeat`, `once`, clause `code`: what the code may give is what the closure's own contract says that it may: a
//!   call that left the closure out would have to show an answer of it
//! - `Ruled::new`: a callback without code, which answers what its rule says, and may be called again
//!
//! That a `StoredCallback` may cross threads is said by its type. That a call of a closure changes what the closure
//! has captured (an atomic, say) is only tested.
//!
//! The parts, within the crate: each function that makes a step has `DoesCoreStep`: for every core of lists that the old parts keep, and that
//! shows a world, the entry is that of this core's step, and the new parts keep the core behind it. The only premise is that the
//! parts show some world, which each of them keeps. The core's call of the same name makes `TurnsWorld` of it.
//!
//! - `Setup::add`: a device joins the setup, with the scripts that it has, wherever it stands in them; refused, it
//!   comes back as it is, with its configuration: InvalidParam just where there are four already, and NoMem else.
//!   Premise: the device takes packets as long as its configuration says, which `TableDevice::new` ensures
//! - `scripted_setup`: a setup of these devices, four at most, each of which can be made (`CanBeMade`): the same. Want of memory leaves
//!   it open
//! - `Setup::taken`: the packet of a number that a device took at an endpoint since it was made new
//!
//! The core: `ShowsWorld setup s w` is said of what it keeps. Its invariant: it shows some world. `TurnsWorld old step
//! entry new`: for each world that the core shows before the call, the entry is that of the world's turn, and the
//! core then shows the world after it. `P` is what callers keep with their transfers: no code of these crates can
//! drop or copy a value of it, so none is lost or doubled.
//!
//! - `Core::new`: the core shows the new world of its devices, wherever they stood in their scripts, and whether or
//!   not they were gone
//! - `Core::into_setup`: the devices are handed back: of each setup and world that the core shows, the setup is that
//!   one again, and each endpoint that a device has, held or not, stands as the world has it: in its script, at its
//!   halt, and by the packets that it took
//! - `Core::call`: a step that takes no memory (Open, Close, Claim and so on) is its turn; the entry is the world's,
//!   refusals and all
//! - `Core::expire`, `serve`, `deliver`: each is its turn; `deliver_at` tells of which endpoint the event was, too
//! - `Core::stop`: is the turn of an Answer with Stop
//! - `Core::again`, `again_with`: accepted with a number, or refused, each is the turn of an Answer with Again, or
//!   with AgainWith and the bytes; NoMem leaves each world that was shown shown; whatever is refused gives the
//!   payload back, and `again_with` the bytes, and the callback goes on
//! - `Core::submit`, `submit_into`: accepted with a number, or refused, it is a turn; NoMem leaves each world that was
//!   shown shown; whatever is refused gives request and payload back. That memory is used again isn't in the contract: a test
//!   counts it
//! - `Core::take`: the oldest result goes out as Take says, with the payload of its transfer; want of memory leaves
//!   each world that was shown shown
//! - `Core::serve_burst`: is so many turns of Serve in a row, whose entries are told by a count: all but the last moved as
//!   many bytes of one transfer, which goes on. It ends with the first that does something else, or with `most`
//! - `Core::drain`: is the turns of Deliver and Command that are to be done until a result waits, an event before an
//!   order, at most so many (`drained_steps`)
//! - `Core::take_done`: is the turns of a Take and of an Answer with Stop, which is done; the payload comes with it. Where
//!   no result waits nothing changes. It takes no memory
//! - `Core::step`: any step: its entry is the world's turn's. A payload that was given and not taken comes back; with
//!   a Take the payload comes out that stands with the first result. Only Submit, Take and an Answer with Again or
//!   AgainWith can find no memory; then the payload comes back, and each world that was shown is shown. Premise: a
//!   payload is given where the step takes one
//! - clause `carries` of each call: what callers keep with their transfers (`Carries kept`: each transfer in flight
//!   has with it what is kept under its name and number) stays with them; an accepted submission keeps its payload
//!   under its name and number, and a Take hands out what is kept under the name and the number that its callback is
//!   given
//! - `Core::next_len`, `expires`, `taken`: how many bytes the first result of the world has; whether Expire would be
//!   done; the packets that a device took at one of its endpoints, held or not
//! - `Core::controller`: the controller that the core keeps, to be looked at
//! - `Core::pending`: what is to be done next, by the world: the first endpoint, by device and address in a circle
//!   from behind one, where a packet does something; whether Command, Deliver and Take do; whether a transfer is in
//!   its callback
//! - `Core::has_packet`, `has_order`, `has_event`, `has_result`: the same of one endpoint's packet, of Command, of Deliver
//!   and of Take alone, without a look at all endpoints
//! - `Core::feed`: one more answer behind a device's script, as if it had stood there from the beginning: of each world
//!   that the core shows, it then shows that of the longer scripts where it stands (`FeedsWorld`); no step is made
//! - `Core::offer`: the packet that a device is to answer next, by the world: whose transfer it is of, its bytes or how
//!   many it may have, and whether the device is asked (`IsNext`); None just where a Serve would be idle
//! - `Core::device_of`, `owner`, `holder`, `config`, `next_number`, `callback_at`, `result_at`, `orders_waiting`,
//!   `events_waiting`: who has and holds what in the world, a transfer in its callback, a result that waits, and how
//!   many orders and events wait
//! - `Core::line_len`, `number_at`: of an endpoint that is held: its line, and the number at each place of it
//! - `Core::is_halted`, `answers_left`, of devices that tell how far they are (`Scripted`): of an endpoint that is held:
//!   whether it is halted, at its device or at the controller; how many answers its device has left
//! - `Core::state_at`, `errand_at`, `in_line`, `is_halted_at_device`: of an endpoint that is held: its state at the controller, the errand
//!   that is under way, the transfer at each place of its line with the bytes that it read, and whether its device has it halted
//! - `Core::callback`, `is_gone`: a handle's transfer that is in its callback; whether a device was unplugged
//! - `run`: at Ok the entries are `world_run` of the setup and the steps; at Err those of `Stopped` are the entries
//!   of the first so many steps, as many as there are entries, and a step is left, or no entry is there. Every run
//!   obeys `runs::cut`, `places` and `asked_ends` of `proof_laws`. At Ok, and at Err for the steps so far where there is an entry,
//!   the cut is there at each endpoint with no premise: devices keep their law, and an endpoint without a packet size
//!   takes no transfer. Each handle's transfers are called back at most once, and at each endpoint in order unless
//!   cancelled or timed out
#![tactic(auto)]

mod ask;
mod bursts;
mod call;
mod callback;
mod calls;
mod claim;
mod drain;
mod due;
mod end;
mod ends;
mod errands;
mod events;
mod feeds;
mod halts;
mod handles;
mod inventory;
mod made;
mod offers;
mod orders;
mod packets;
mod parts;
mod pending;
mod quiet;
mod reads;
mod renewal;
mod reports;
mod reset;
mod results;
mod ruled;
mod runs;
mod scripted;
mod sender;
mod settlement;
mod setup;
mod standing;
mod step;
mod step_bursts;
mod step_feeds;
mod step_inventory;
mod step_reads;
mod step_standing;
mod stored;
mod submission;
mod verdicts;

pub use callback::Callback;
pub use calls::Core;
pub use due::Due;
pub use end::End;
pub use events::Delivered;
pub use inventory::WaitingResult;
pub use offers::Offer;
pub use pending::Pending;
pub use results::Taken;
pub use ruled::Ruled;
pub use runs::{Stopped, run};
pub use scripted::scripted_setup;
pub use setup::{AddError, Setup};
pub use step::{NoMemory, Stepped};
pub use step_bursts::{Burst, Whole};
pub use step_standing::InLine;
pub use stored::{Once, Repeat, StoredCallback, Told};
pub use submission::SubmitError;
