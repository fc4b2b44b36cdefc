//! The library that threads call: a core under one lock, and a receipt for each call.
//!
//! The one promise: when all callers are back, the journal is the definitions' run of its steps, and at each receipt's
//! place it has what that call was asked to make, with its entry.
//!
//! # Files
//!
//! - `opening.rt`: what a library is made of, before a type names it
//! - `payload.rt`, specs/Suits: what is kept with a transfer, and whom it suits
//! - `library.rt`, `calls.rt`, `transfers.rt`: the library; its calls, those of handles and of the controller, those
//!   of transfers and of time
//! - `rows.rt`: calls that make steps in a row, under one hold of the lock
//! - `caller.rt`, `answered.rt`: a caller; what a call gave
//! - `callers.rt`, `look.rt`: how many callers were made, and the parts of the ledger for those to come; where the next packet
//!   is looked for
//! - `wakes.rt`: what there is to do; for which worker a step made work; who is unparked after a change; when all is
//!   at rest
//! - `laws.rt`: that whoever has new work by a step is named by the rule
//! - `met.rt`: want of memory that a worker met, and callbacks that ended early
//! - `finish.rt`: the end: the journal, or which callers are missing
//! - specs/Calls: what a call makes (`Makes`, `MakesRow`), what a tick does (`Ticks`), and what a caller sees who looks (`LooksOn`)
//! - specs/Wakes: what work each worker has (`HasWork`), for whom a step makes some (`work_of`), and that this names all who
//!   have more than before (`Wakes`)
//!
//! # Contracts
//!
//! - `Library::finish`: where all callers come back: at each receipt's place the journal has what the receipt says
//!   (`found`); no two receipts have one place (`apart`); the journal has as many places as the callers' own lists
//!   together (`counted`); its entries are the definitions' run of its steps, from the devices that the library was
//!   made of (`run`), and the core that is handed back shows the world where that ends (`core`); what was kept is that
//!   journal (`kept`); each caller's places are those of its number, which no other has, and the journal began with all
//!   that the caller had seen (`own`, `numbers`). `MissingCallers` exactly where fewer callers come than were made, with the library
//!   and all that was brought
//! - `open` to `unplug`, `submit`, `take`, `stop`, `again`, `again_with`: the call makes a step (`Makes`): its
//!   receipt's place is above the caller's earlier ones; it has the step that was asked for and this caller's number,
//!   as the last of the caller's own; what is answered is the entry there, which is that of the definitions' turn where
//!   the run of the journal before it ends. A refused step has its place too. An error is want of memory: the caller is
//!   as it was, but that it counts it (`Caller::missed`), and what was given comes back
//! - `serve_all`, `deliver_all`, `take_all`: the call makes steps in a row (`MakesRow`), at most as many as are wanted: its
//!   places are consecutive, above the caller's earlier ones and the last of its own, each of this caller, with the step
//!   that it names and the entry of the definitions' run from where the journal before them ends. `serve_all` makes at
//!   least one packet, and stops behind one that moved no bytes, or that ended a transfer behind which no packet does
//!   anything; `deliver_all` stops where no event waits; `take_all` gives the results with what was kept, and stops where
//!   none waits, or where one waits and memory was refused to it, which it tells (`Outgoing`). They have no receipts: the
//!   caller's own places and what it has seen say the same. An error is want of memory before the first of them
//! - `submit`, `again`, `again_with` take a `Payload` that suits the name (`suits` of its `Payload::Whom`), and `take`, `take_all` give
//!   with each result one that suits its name. The lock keeps it so (`AllSuit`): with each transfer in flight goes what was kept under its
//!   name and number, and whatever was kept suits its name. That it is the very one which was submitted under this number is a clause
//!   below the lock
//! - `tick`: `Ticks`: one Expire for each transfer that is due at the moment, which is `now` or later, in the
//!   definitions' order, at consecutive places behind the journal so far, which began with all that the caller had seen,
//!   and no other step
//! - `Library::work`, `events`: what is to be done where the run of the journal so far ends, which the caller then has
//!   seen (`ShowsPending`, `ShowsEvents`): so it is at or behind its last call, and `finish` says that it was the journal's.
//!   None only where what it saw has nothing of that worker's part (`LacksWork`, `LacksEvents`). That the workers were asked to end then is
//!   no clause
//! - `Library::pending`: the same of all parts
//! - `Library::past`: a `Past` of what a caller has seen: the journal began so, and will for good. `work`, `events`, `pending`, `tick`,
//!   `deliver_all` and `take_all` are lent one, of whichever caller it is: what they tell is of a journal that begins with it. It has no
//!   bytes by which they could tell how much that is, so what they tell isn't older than what anybody has seen
//! - `Library::caller`, `Caller::number`, `missed`, `Opening::new`, `Answered::granted`: a caller has no places yet, and what
//!   is refused is refused as Busy (that there are 1,024 then is a clause behind the lock, and a scene); its number;
//!   the devices are those given; the receipt exactly where the step wasn't refused
//! - `laws::wakes`: behind any run and any step, a worker that has work had some before that step, or is named by the rule
//!   `work_of`, by which the library wakes. The controller's worker has work where a packet or an order does something, that
//!   of events where an event or a result does. The rule names the worker of events for a transfer that ended; the
//!   controller's for a submission, also from within a callback, for an errand that settled, and for an event behind which an order waits;
//!   nobody for a packet that ended no transfer, any other event, a result that goes out, a callback that ends, and what
//!   is refused or idle; both for whatever else changed something. Each call that comes to wake has to name all who have
//!   work since its step and had none before (`wake_if` requires it): one that leaves such a worker out isn't proved. `tick`
//!   names both
//! - `Ended::is_at_rest`: whether the world where the journal ends has nothing to be done (`IsAtRest`)
//! - `Ended::to_places`, `Ended::into_setup`: copies of the very places that the recorder has; the devices, as
//!   `Core::into_setup` hands them back
//!
//! What `watch`, `watch_part`, `stop_workers` and `end_workers` do, whom `enter` and `leave` wake or let sleep, and what
//! `has_lacked_memory` and `cuts` tell, has no contract: what a lock keeps is known by its type alone, so nothing can be said of it behind the call. Nor is it a clause that a call comes to wake at
//! all, and that this unparks whom the call names: scenes show it.
//!
//! A book under one lock (`Guarded`), called by many threads, each with a `Caller` of its own. Callbacks are handed out
//! by `take`, and called by whoever took them, with no lock held. The comment at `Library` says what the lock is for,
//! and what must not change.
#![tactic(auto)]

mod answered;
mod caller;
mod callers;
mod calls;
mod finish;
pub mod laws;
mod library;
mod look;
mod met;
mod opening;
mod payload;
mod rows;
mod transfers;
mod wakes;

pub use answered::{Answered, Submitted};
pub use caller::Caller;
pub use callers::CALLERS;
pub use finish::{Ended, MissingCallers};
pub use library::Library;
pub use opening::Opening;
pub use payload::{Anyone, Payload, Suiting};
pub use wakes::WorkerPart;
