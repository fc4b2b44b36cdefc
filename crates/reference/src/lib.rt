//! The plain program: runs and plans over a whole system by value, slow and simple (USB 2.0, 8.5; xHCI 1.2, 4.6 and 4.10). Every
//! other body is compared with it.
//!
//! The one promise: its entries are those of the definitions, step by step, or a beginning of them where it found no memory.
//!
//! # Files
//!
//! One endpoint's part:
//!
//! - `share.rt`, `packet.rt`, `outcome.rt`: the answers that a transfer took; an OUT transfer's bytes in packets;
//!   what the share did
//! - `result.rt`: what a callback is given
//! - `line.rt`: which transfer of the line is meant, and what is left behind it
//! - `progress.rt`, specs/Progress: how far a transfer comes by an answer that leaves it open, by what its answers have in common
//! - `device.rt`: `serve`: a device answers one packet
//! - `moved.rt`, specs/Moved: the packets that move then
//! - `laws.rt`, specs/Laws: what these are to the device
//! - `endpoint_controller.rt`: `command`: an order is carried out
//! - `events.rt`: `deliver`: a piece of news is handled
//! - `calls.rt`: `submit`, `set_ask`, `unhalt`: what a handle asks of the endpoint
//!
//! All handles over one system, by value:
//!
//! - `table.rt`, `handles.rt`, `system.rt`: a value for each device and byte; what is kept of each name; all of it
//!   together, and how it is looked up
//! - `call.rt`: what a call reads before anything is done: setup, system and name in one value
//! - `claims.rt`, `quiet.rt`, `renewal.rt`: open, close, claim, release, reset; whether nothing is under way;
//!   endpoints made new
//! - `submission.rt`, `ask.rt`, `verdict.rt`, `callback.rt`: submit; cancel and expire; answers of callbacks;
//!   transfers in their callbacks
//! - `controller.rt`, `effect.rt`, `change.rt`, `turn.rt`: the steps of device, controller and event loop; a step's
//!   effect; its change; one step of the whole system
//!
//! Runs and plans:
//!
//! - `journal.rt`: runs
//! - `rule_book.rt`, `plan_run.rt`: the rule of each number; plans
//! - `comparison.rt`: a handle's two lists
//!
//! # Contracts
//!
//! - `serve`, `command`, `deliver`, `submit`, `set_ask`, `unhalt`: where memory is found, the
//!   effect at the endpoint is that of the definition of the same subject, for every endpoint, packet size and news
//! - `moved::packets_moved`: the packets of the definition: those of the outcome behind the answer that aren't of the one before
//! - `progress::stays_open`: true only where the outcome with the next answer is open
//! - `laws::moved`: of a transfer that writes, the device receives the packets that move, and no other
//!
//! - `System::new`, `System::turn`: where memory is found, a system is the new world, and a step
//!   gives the entry of the world's turn, and is the world after it. What a step that finds no memory leaves of the
//!   system isn't said
//!
//! - `run`: at Ok the entries are `world_run` of setup and steps; at Err, those of `Stopped` are a
//!   beginning of them: just the entries of the first so many steps, as many as there are entries. A step is left
//!   then, or no entry is there
//! - `drive`: the same of the steps that a plan and its rules stand for (`expand`; a rule that is Free
//!   counts as one that stops)
//! - `alone`, `drive_alone`: at Ok `shared` is the handle's entries amid the others, `alone` what the
//!   definitions say of it alone over its own steps, and what a world of its own gives over these; and the two lists
//!   are the same
//!
//! - `PlanRun`: the same piece by piece, for whoever looks at the system between them
//!
//! No public call has a precondition.
//!
//! The specs/ are the program's own words: docs/MODEL.md, "The plain program".
#![tactic(auto)]

mod ask;
mod call;
pub mod callback;
pub mod calls;
mod change;
mod claims;
mod comparison;
mod controller;
pub mod device;
mod effect;
pub mod endpoint_controller;
pub mod events;
mod handles;
mod journal;
pub mod laws;
mod line;
pub mod moved;
mod outcome;
mod packet;
mod plan_run;
pub mod progress;
mod quiet;
mod renewal;
mod result;
mod rule_book;
mod share;
mod submission;
mod system;
mod table;
mod turn;
mod verdict;

pub use call::Call;
pub use comparison::{Comparison, alone};
pub use handles::Handles;
pub use journal::{Stopped, run};
pub use plan_run::{PlanRun, drive, drive_alone};
pub use system::System;
pub use table::Table;
