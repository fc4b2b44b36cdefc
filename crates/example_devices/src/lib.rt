//! A stand of scripted devices, for scenes and examples. Each has one interface with a bulk endpoint 81 for packets to
//! the host and 02 for packets from it, and one with the interrupt endpoint 83.
//!
//! The one promise: it gives as many devices as were asked for, or an error.
//!
//! # Files
//!
//! - `scripted.rt`, `packets.rt`: the devices; what they answer
//! - `reader.rt`: a handle, with the endpoint that it reads from
//! - `calls.rt`: open and claim; submit
//!
//! # Contracts
//!
//! - `devices` of `example_devices`: as many devices as were asked for. Nothing is said of their scripts
//!
//! Scripted devices for scenes and examples: a bulk endpoint for each direction and an interrupt endpoint, whose
//! packets have numbered bytes. And the calls with which a driver begins, which give a value or a refusal.
//!
//! Why the calls have no contract: a caller's proof has all that its calls promise before it, and what many calls in
//! a row promise makes each goal behind them dear. A scene or an example needs nothing of it but safety.
#![tactic(auto)]

mod calls;
mod packets;
mod reader;
mod scripted;

pub use calls::{no_memory, open_and_claim, submit};
pub use reader::Reader;
pub use scripted::{device, devices};
