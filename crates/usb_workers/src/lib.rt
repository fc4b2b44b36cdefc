//! The two workers of a library, one for the controller's part and one for events and callbacks; and a library that lives: both of
//! them and some drivers beside them, each in a thread of its own.
//!
//! The one promise: each worker makes of every look just what it showed, and tells the verdict of each callback that it takes out,
//! in order; what is kept of the journal is that of the definitions' run of its steps, and each of its places is that of a worker, by what
//! its look showed, or of a driver, by what it may make.
//!
//! # Files
//!
//! The workers:
//!
//! - `controller.rt`, `event.rt`: the two loops
//! - `answers.rt`: what a callback answered is told
//! - `gate.rt`, `park.rt`, `tries.rt`, `limit.rt`: what a worker passes before each act; how it waits; how often it tries again; how many
//!   callbacks may answer as they like
//! - `moments.rt`: a clock's milliseconds, for those who want to tick by one; nothing is promised of time
//! - specs/Rounds: what is made of a look; how a verdict is told
//!
//! A library from its opening to its end:
//!
//! - `driver.rt`, `gates.rt`: what a driver is; the gates of both workers
//! - `life.rt`: the library from its opening to its end
//! - `threads.rt`, `seat.rt`: the threads; a driver with its caller, on its way into one and back
//! - `promises.rt`: what is promised of each thread: what comes back, by what went in
//! - `calls.rt`: a handle's step, by the call that it is
//! - specs/Life, Steps: what is left, and who made it; which steps a handle makes by a call of its own
//! - proofs/Homes: what comes back of one thread more
//!
//! # Contracts
//!
//! - `controller_loop`: the caller that comes back is the one that was given, moved on look by look (`Rounds`): each showed
//!   what was to be done where the journal so far ended, and where it showed a packet a row of at least one was made at that
//!   endpoint, and then the order (`Controls`), or memory was refused to it, which the caller counted; and nothing else
//! - `event_loop`: likewise (`Handles`): where a look showed an event a row of them was handled; then a row of results went
//!   out, and right behind it, in the same order, for each of these transfers a verdict was told (`TellsAll`) that a callback
//!   which suits the transfer's name may give where it is told that, and that fits its rule (`MayAnswer`); or Stop, where more
//!   than `rounds` callbacks were told something: by its Answer, behind which stands Stop just where that
//!   was a resubmission that wasn't accepted; or, where memory was refused to that, by Stop, again and again until there was
//!   memory, or the worker gave up. A row has no place only where nothing of its kind waited. What was refused is counted by
//!   the caller, one by one: so where it counted none, each verdict was told as it was given. Which callbacks suit a name is their
//!   type's to say (`Suiting`); that it is the very one which was submitted with the transfer is no clause
//! - `Moments::at`: how many whole milliseconds an instant is behind the one from which they count: 0 for an earlier
//!   one, 2^64 - 1 for one that is later than that. `start` and `now` read a clock, of which no contract speaks
//!
//! A loop looks what there is to do, passes its gate before each act, and parks where there is nothing of its part. Packets,
//! events and results are made in rows, each under one hold of the library's lock, and each no longer than the gate says
//! (`BURST`, where it is open); callbacks are called one by one, with no lock held.
//! The library unparks it after a step that may have made work for that part, and no other: a submission is the
//! controller's, a transfer that ended that of events, and an event is the controller's where it orders something or
//! sets an endpoint going again. It ends where the workers were asked to stop and nothing is left, and wakes the other as it
//! leaves. Where memory is refused it says so and tries again, until it gives up once it was asked to stop; a callback that can't be submitted once more has
//! ended, and is told how.
//!
//! - `live`, `live_gated`: the entries of the journal that is handed out are the definitions' run of
//! its steps over the devices that were given; what is kept is of it, it has as many places as are told, and the core
//!   shows the world where it ends (`KeepsRun`). Its places are those of the two workers and the drivers, and of nobody else
//!   (`LivedBy`): look by look the workers made what was there to be seen (`Rounds`), and each ended only where its last look
//!   showed nothing of its part, or memory was refused to it a hundred times; each
//!   driver made what it may make (`Driver::makes`) with what it left; no two callers have one
//!   number, and each caller's places are those of its number. Whether nothing was left to be done where the run ends is told (`TellsRest`);
//!   and where no want of memory is told (`lacked_memory`), memory was refused to none of them. `live_gated` is given after how many
//!   callbacks each is at its end, whatever it answers; with `live` there is no such end
//! - `make`, `handle_of`: where something is answered, the step was made and its receipt has it
//!   (`Makes`), else nothing changed; whose its entry is, in any world, where a handle is named; and that there is
//!   none just for steps that submit, and for those of workers, clocks and callbacks
//!
//! `live` is a library from its opening to its end: it makes it, runs both workers and each driver in a thread of its
//! own, asks the workers to stop once the drivers have ended, joins all, and finishes. A driver is what one thread
//! does; it has a caller, and leaves a value. With gates the workers pass them before each act. Where a thread can't
//! be made all that were made come to their end first.
#![tactic(auto)]

mod answers;
mod calls;
mod controller;
mod driver;
mod event;
mod gate;
mod gates;
mod life;
mod limit;
mod moments;
mod park;
mod promises;
mod seat;
mod threads;
mod tries;

pub use calls::{handle_of, make};
pub use controller::controller_loop;
pub use driver::Driver;
pub use event::event_loop;
pub use gate::{BURST, Gate, Open, WorkerStep};
pub use gates::Gates;
pub use life::{Lived, live, live_gated};
pub use moments::Moments;
