//! The book of a library: the core, the moment, and the journal of the core's steps, under one roof.
//!
//! The one promise: the entries of the journal are those of the definitions' run of its steps, and the core shows the
//! world where that run ends; a receipt goes on saying what stands at its place.
//!
//! # Files
//!
//! - `book.rt`, `events.rt`, specs/Booked: the book, what contracts see of it, and what one place more is; what there
//!   is to do with events
//! - `submissions.rt`, `results.rt`: the calls that give back what was given: `submit`, `again`, `again_with`; `take`
//! - `rounds.rt`: the other calls of every transfer: `serve`, `deliver`, `stop`
//! - `rows.rt`, specs/Rows, Entered: steps of one kind in a row, in one call: `serve_all`, `deliver_all`, `take_all`; what
//!   a caller is told of their places, and how places in a row are entered
//! - `record.rt`: any step, with its payload
//! - `ticks.rt`: time passes: an Expire for each transfer that is due
//! - `timer.rt`, specs/Timers: when each transfer was submitted whose callback hasn't ended
//! - `log.rt`, `receipt.rt`, `position.rt`, specs/Seen: the journal on its log; a receipt, a caller's position. What is kept of it at
//!   run time stands in `usb_recorder`
//! - `naming.rt`, `closed.rt`: which library a value is of; a book that is closed, and what it leaves
//! - proofs/Runs, Replies, Answers: one step more of a journal; how many bytes a reply has; what a submission is
//!   answered
//! - proofs/InRows, Bursts, Takings: a row of steps behind another; packets that the core serves in one burst; results
//!   that go out in a row
//! - proofs/Known, Owns, Tracks, Steps, Journals, Due: the timers of a handle go with its transfers over any step,
//!   and so what is due is what they say
//!
//! # Contracts
//!
//! Every clause is of the journal in the proofs, whatever the recorder keeps of it at run time.
//!
//! - `JournaledCore`'s invariant: the journal's entries are those of the definitions' run of its steps (`world_run`), and the
//!   core shows the world where that run ends (`ShowsWorld`)
//! - `record`, `submit`, `again`, `again_with`, `take`: just one place behind the others: the step, the caller, the
//!   moment, and the entry that the definitions have for the step in that world; the receipt has its number and all
//!   that stands there, and the caller's position moves behind it, from where all of the journal so far is seen (`Sees`).
//!   What payload goes out, comes back or stays with its
//!   transfer, as of the core. After want of memory the journal, the moment and what the core shows are as before,
//!   and what was given comes back
//! - `serve_all`, `deliver_all`, `take_all`: as many steps of one kind as there is something to do, at most so many, at
//!   consecutive places behind the others, with the entries that the definitions' run has for them; the position goes
//!   behind them, and the row is told by its first number and its count, without receipts (`EntersRow`). Packets end
//!   early only behind one that moved no bytes of a transfer that goes on, and behind one that ended a transfer only
//!   where no other packet does anything at the endpoint (`MayStop`); events only where none waits; results only where
//!   none waits, or where one waits and memory was refused to it, which is told (`lacked`). Each result that goes out has
//!   the payload that was kept with its transfer. Of packets it is told whether one of them ended a transfer
//!   (`ends_any`), of events whether they left nothing for the controller (`are_quiet`). After want of memory nothing changed
//! - `tick`: the moment becomes the later of it and `now`; behind the others stand, at consecutive places, just the
//!   steps that the definitions say are due at that moment (`due` of the journal with its moments), in their order,
//!   as asked for by the caller; a receipt for each; and the position goes behind them. After want of memory nothing changed
//! - `next_len`, `pending`, `has_order`: what the world where the journal's run ends says
//! - `look`, `look_for_events`: the same, for a caller whose position then has seen all of the journal so far (`Looks`), which begins
//!   with what anybody saw once (`Past`); so with `tick`, `deliver_all`, `take_all`
//! - `position`: each has a number of its own, from 0 on, and no places yet
//! - `close`, `Closing::take_back`, `Closing::finish`: at each receipt's place stands what the receipt says, and no two have
//!   one place; the journal is a run from the devices that `new` was given; each position that came back had seen a
//!   beginning of it and all places of its number, which no other has; the recorder can be what was told just these places
//!   (`Journal`: it has them), and their number. The core comes back, and shows the world where the run ends
//!
//! A body that gives up at once with want of memory is right by contract.
#![tactic(auto)]

mod book;
mod closed;
mod events;
mod log;
mod naming;
mod position;
mod receipt;
mod record;
mod results;
mod rounds;
mod rows;
mod submissions;
mod ticks;
mod timer;

pub use book::JournaledCore;
pub use closed::{Closed, Closing, WholeJournal};
pub use events::Events;
pub use naming::Naming;
pub use position::{Past, Position};
pub use receipt::Receipt;
pub use record::RecordError;
pub use rows::{Delivered, Outgoing, Row, Served};
pub use usb_core::{Pending, Setup, Stepped, SubmitError, Taken};
pub use usb_recorder::{Draft, Journal, Place, PlaceImage, Recorder, Unrecorded};
