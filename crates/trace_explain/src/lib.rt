//! A scenario's run with what there is to say of its entries: why each came, in a sentence, or which packets moved.
//!
//! The one promise: what is told of a run are its entries, all or those of refused lines, and below the first of a line the reason of its
//! step in the world before it, where there is one, or the packets that this step moves; and in every world a reason is of the reply's
//! sort.
//!
//! # Files
//!
//! Reasons:
//!
//! - `refusal.rt`, `sentence.rt`, `names.rt`, `endpoints.rt`: reasons and their sentences; how these name handles, devices,
//!   transfers and the endpoints of a device
//! - `caller.rt`, `calls.rt`, `quiet.rt`: what a call reads; open, close, claim, release, reset and Unplug; what is under
//!   way at an endpoint
//! - `submissions.rt`, `tests_of_calls.rt`, `asks.rt`: the end of a halt, submit and the verdicts of callbacks; their tests, over the
//!   facts that they look at; cancel and expire
//! - `turns.rt`, `ends.rt`, `answers.rt`: the steps of device, controller and event loop; how a transfer ends, read off
//!   its answers without a copy of their bytes
//! - `step.rt`, `laws.rt`: the reason of a step; what it has to do with the reply
//!
//! The text of a run:
//!
//! - `telling.rt`: what is told: reasons, of all lines or of those that are refused, or packets
//! - `packets.rt`, specs/Packets: the packets that a step moves, as lines
//! - `explained.rt`, specs/Explained: the text of a run
//!
//! # Contracts
//!
//! - `reason`: the definition's reason of a step in the world that a system is, asked before the step is made
//! - `Display` of `Reason`, `CallRefusal` and their parts: the text of its definition, byte for byte
//! - `sorts`, `refusals`, `others`: a refused step has a reason, of a test that refuses with what the reply says; an idle
//!   step, a packet that wasn't ready, an end, an order that failed and a callback have one of their sorts; no other has
//! - `truths`: what is told is true of the world in which the step is made, in the world's own words (specs/Truth), and is the step's own
//!   (specs/Own). Of a refused call: a transfer that is said to be in a line is in progress there, and what is said to keep the places of an
//!   endpoint are the counts of its line and of its results, which are at least 16 together; the device, interface, endpoint or number
//!   that is named is the step's, or of the device that the caller has open. Of a step with nothing to do, a device that wasn't ready, an
//!   order that failed, a callback and an Unplug: what is said of the endpoint, the lists and the result. Of how a transfer ended: how many
//!   of how many bytes moved, this packet's among them, and the answer that ended it
//! - `explained_run`: the text is that of the definition (`explained_text`): entries of the plan's run, and reasons (`reason_of`) or packets (`packets_moved` of `reference`) of the very steps that the plan stands for. The plain program makes
//!   the run, since between two of its steps all that handles have can be looked at
#![tactic(auto)]

mod answers;
mod asks;
mod caller;
mod calls;
mod endpoints;
mod ends;
mod explained;
mod laws;
mod names;
mod packets;
mod quiet;
mod refusal;
mod sentence;
mod step;
mod submissions;
mod telling;
mod tests_of_calls;
mod turns;

pub use endpoints::EndpointList;
pub use explained::explained_run;
pub use laws::{others, refusals, sorts};
pub use refusal::{CallRefusal, UnplugRefusal};
pub use sentence::{CalledWith, Idleness, Reason, TransferEnd, Unready};
pub use step::reason;
pub use telling::Telling;
