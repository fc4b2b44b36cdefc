//! A scenario's run by the core on rings, printed as it arises, drawn, or written as a capture.
//!
//! The one promise: what is printed is the text of the entries of the plan's run, or of a handle's alone, or of what its handles haven't
//! finished where it ends, or the capture of its events, or a beginning of it where memory ran out.
//!
//! # Files
//!
//! - `devices.rt`: a scenario's devices and callbacks as the core has them
//! - `lines.rt`, specs/Printed: the entries of a plan, all or one handle's alone, printed as the core comes to
//!   them
//! - `stepwise.rt`, specs/Stepwise, proofs/Lined: the same, each entry behind its step's line
//! - `capture.rt`, specs/Capture, proofs/Captured: the same as a capture of usbmon, by the definitions of `trace_capture`
//! - `drawing.rt`: a plan run by the core, and drawn
//! - `ending.rt`: a piece of a plan performed by the core, and a plan run to its end, for what is left there
//! - `tasks.rt`, specs/Tasks: what `usbtrace` does with a scenario that no thread runs
//! - proofs/Printed: how far a run is, and what of its lines is written
//!
//! # Contracts
//!
//! - `run`, `run_alone`, `print_steps`, `print_left`, `capture_run`: what is written is the text of the run, or where memory ran out a
//!   beginning of it
//! - `perform_piece`: a piece of a plan is performed on a run, and the run shows what comes of it (`Performs`)
#![tactic(auto)]

mod capture;
mod devices;
mod drawing;
mod ending;
mod lines;
mod stepwise;
mod tasks;

pub use devices::parts_of;
pub use ending::{perform_piece, run_to_end};
pub use lines::{Parts, write_rest};
pub use tasks::{TaskEnd, capture_run, draw_run, print_left, print_steps, run, run_alone};
