//! Devices that compute their answers: a memory, a card, a chip behind a bridge. Such a device is asked for the packet that is next
//! at an endpoint, and its answer stands behind its script before that packet is served, as if it had been known from the start.
//!
//! The one promise: what a device is asked is the packet that is next in the world, and what it answers is what that packet does.
//!
//! # Files
//!
//! - `living.rt`: `Living`: a device that is asked
//! - `asking.rt`: `ask`: one packet of a core, in one thread
//! - `laws.rt`, specs/Offered, Rows: what holds of devices that are asked, whatever they compute
//! - specs/Asks: what became of a packet and of the device
//!
//! # Contracts
//!
//! - `ask`: one of four things (`Asks`). Nothing is next, or the device isn't asked, since its script has an answer, it is halted
//!   there, or it is gone: the device is as it was, and the entry is that of a Serve. It is asked for the packet that is next in the
//!   world (`IsNext`), and answers: the answer is fed, and the entry is that of a Serve over the longer script. It isn't ready: the
//!   core is as it was, and the entry says so. It may answer only what `Living::may_answer` says of it, once for each call
//! - the same, where an answer is refused: the core is as it was; InvalidParam where the endpoint can't have it, else NoMem
//! - `laws::offered`: what a device is told to be next it has behind its Ack, as one packet; and a packet of its own is too long just
//!   where it has more bytes than the room that it is told
//! - `laws::rows`: of calls in a row, some of which put answers behind scripts, and each of whose packets had an answer: the core shows
//!   the world where their steps lead over the scripts as they are at the end, and what was told is what is told over these
//! - clause `carries`: what callers keep with their transfers stays with them
//!
//! That a step at an endpoint whose device isn't ready isn't made is on purpose: a Serve that finds no answer is one of a shorter
//! script, which the answers behind it would make another (laws of `refine_world`).
#![tactic(auto)]

mod asking;
pub mod laws;
mod living;

pub use asking::ask;
pub use living::Living;
