//! What the handles of a run haven't finished where it ends, read off the core on rings, as printed lines.
//!
//! The one promise: what is told to be left is what the core's world has, all of it, in order.
//!
//! # Files
//!
//! - `left.rt`: one thing that isn't finished, and its text
//! - `left_lines.rt`: printed lines
//! - `inventory.rt`: what is read of each handle without a step: its device, interfaces, lines, halts, answers and
//!   callbacks
//! - `gather.rt`: what waits, whosever it is: results are read; orders and events come out of Commands and Delivers
//! - `behind.rt`: `left_behind`: both, put together handle by handle
//! - specs/Left, LeftText: what is left in a world, by each handle's machine, and its text
//! - specs/Gathered: what is gathered of the core, part by part
//! - proofs/: one file a subject: lists (Lists), what is read (ReadParts), what the first order and the first event tell
//!   (Turns), what was gathered so far (Gathers), which transfers have ended (Events), and all of it together (Joined)
//!
//! # Contracts
//!
//! - `left_behind`: of each setup and world that the core shows, what is told is `all_left`: for each handle, by rising
//!   name, the device that it has open, each interface of it that it holds, and at each endpoint that it holds each
//!   transfer in line, waiting or ended, a halt, and how many answers are unused; then its orders, events and results,
//!   and its callbacks by rising number. All of it, in order, and nothing else. The core is used up: its orders are
//!   carried out and its events handled, since their entries tell them. No premise
//! - `lines_of`, the text of `Left`: a line each, byte for byte
#![tactic(auto)]

mod behind;
mod gather;
mod inventory;
mod left;
mod left_lines;

pub use behind::left_behind;
pub use left::{Left, Thing};
pub use left_lines::lines_of;
