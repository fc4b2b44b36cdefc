//! The core behind a C interface: numbers, structs of numbers and buffers, over a slot that holds a session; and memory that C lends.
//!
//! The one promise: each call of a slot is a turn of the world that its core shows, or several of them in a fixed order; what C
//! is answered is that, in libusb's numbers; and of memory that is lent nothing is copied and nothing is lost.
//!
//! # Files
//!
//! Memory that C lends: a pointer, its room and what of it stands written, as a `Vec` that never grows and frees nothing:
//!
//! - `lent_memory.rt`: `LentMemory`: into_vec, from_vec; both stand on a walk, `from_vec` by `emptied`
//! - proofs/ LentCalls: the kit's `lodge` and `dislodge` at a call, for bytes
//! - proofs/ LentValues: the machine value of a `LentMemory`
//!
//! The session:
//!
//! - `exports.rt`: what C calls; `questions.rt`: what it asks without a step. c/include/tirnouch_core.h has the same, and
//!   tools/c_header.py asks whether it is so
//! - `session.rt`: a core with the devices of a text; `held.rt`, `loose.rt`: the slot that C holds, a pointer whose type it
//!   doesn't see (five functions are proved by hand)
//! - `turn.rt`: a packet, what it brings about, and a result, in one call; `replies.rt`: replies in numbers. Each other answer in numbers stands
//!   where it is made
//! - `lent.rt`: memory that C lends, on its way into a transfer and back
//! - `calls.rt`, `submission.rt`, `packets.rt`, `settling.rt`, `results.rt`, `reads.rt`: steps that carry nothing; submissions;
//!   packets; what is to be done until nothing is; results and their bytes; what can be asked without a step
//! - `requests.rt`, `descriptions.rt`, `facts.rt`, `endpoints.rt`: requests on the default control endpoint; a device's descriptors; what
//!   else the text says of it; its interfaces and endpoints, as the core reads its configuration
//! - `feeds.rt`: a device is fed while the run goes on, and the packet that it is to answer next
//! - `complaints.rt`: what is wrong with a text that isn't taken
//! - `laws.rt`, specs/Living: what any calls in a row leave of a session whose devices are fed
//! - specs/ by the same names: what each call says of a session before and behind. proofs/ Rows, Progress, Quiet: packets in a
//!   row, and row after row; that where nothing is to be done each transfer that was asked to end has ended
//!
//! # Contracts
//!
//! - `LentMemory::into_vec`: the items are the bytes; length, capacity and pointer are those that were lent
//! - `LentMemory::from_vec`: the same the other way round
//!
//! Of memory it doesn't say: that C lends what it says it lends, and leaves it alone until it is given back. A `LentMemory` that is
//! dropped, or a `Vec` of it, is memory that C never gets back.
//!
//! - each export: of an empty slot -99 and nothing else; of a number out of range -2, with the session as it was
//! - `tirnouch_create`: a session that shows the new world of the text's devices (`IsMade`), or the number of the line that isn't
//!   taken; `tirnouch_destroy`: the slot is empty, and its session is freed
//! - `tirnouch_call`: the world's turn: libusb's number of its reply, its entry in numbers, the next world shown (`Makes`)
//! - `tirnouch_submit`: the same of a submission, whose payload is kept under its handle and number (`CarriesMore`); NoMem where
//!   memory is refused, and nothing changed (`Stays`). `tirnouch_submit_in`: the same over memory that C lends: the library has it
//!   from then on; where the transfer is refused, C has it as it was (`Lends`)
//! - `tirnouch_serve`: as many packets as its reply says, in turn; not behind one that ended a transfer (`Serves`)
//! - `tirnouch_settle`: as many steps as it says, each the one that was to be made; fewer than wanted only where nothing is left,
//!   and then no transfer that was asked to end is in progress (`Settles`)
//! - `tirnouch_pending`: what is to be done next (`IsPending`)
//! - `tirnouch_take`: the oldest result, with what was kept under its handle and number; its callback ends (`GoesOut`). Memory that C
//!   lent goes back, and has its bytes; else they are still to be fetched (`BytesGo`). `tirnouch_fetch`: its bytes, just once
//! - `tirnouch_turn`: packets, what is to be done, and the oldest result, one behind the other (`Works`)
//! - `tirnouch_taken`: a packet that a device took, or -1: past the last, and where there is no such endpoint (`TellsTaken`)
//! - `tirnouch_feed`: one more answer behind a device's script, as if it had stood there from the beginning: the session shows the
//!   world of the longer script where it stood, and no step is made (`Feeds`); refused, nothing changed. `tirnouch_offer`: the packet
//!   that a device is to answer next, by the world, its bytes, and whether the device is asked (`TellsNext`)
//! - `laws::fed_sessions`: of a session of a text, by any calls in a row each of whose packets had an answer, in the text or fed: the
//!   session shows the world where their steps lead over the scripts as they are at the end, and what was told is what is told over these
//! - `tirnouch_request`: what `usb_devicetext` says that the device answers; `tirnouch_needs`: what a host has to hold for that; `tirnouch_describe`, `tirnouch_device`, `tirnouch_driver`,
//!   `tirnouch_gate`, `tirnouch_departure`: what it has of the text. `tirnouch_interface`, `tirnouch_endpoint`: what the core has read of the
//!   configuration: of each world that the session shows the interfaces and the endpoints of its devices (`HasEndpoint`)
//! - `tirnouch_complain`: of a text that isn't taken the number of the line, and a sentence whose reason fits that (`TellsWrong`)
//!
//! It doesn't say: what C does with a slot between two calls, nor that two calls don't overlap; nor at which address the memory stands
//! that goes back, which c/usb asks at each result.
#![tactic(auto)]

mod calls;
mod complaints;
mod descriptions;
mod endpoints;
mod exports;
mod facts;
mod feeds;
mod held;
pub mod laws;
mod lent;
mod lent_memory;
mod loose;
mod packets;
mod questions;
mod reads;
mod replies;
mod requests;
mod results;
mod session;
mod settling;
mod submission;
mod turn;

pub use complaints::TextComplaint;
pub use endpoints::EndpointNumbers;
pub use facts::{AnswerGate, DeviceDeparture, DeviceFacts};
pub use feeds::PacketOffer;
pub use held::{Held, Slot};
pub use lent_memory::LentMemory;
pub use reads::{EndpointView, NextWork};
pub use replies::StepReply;
pub use requests::{ControlResponse, Needed};
pub use results::TakenResult;
pub use session::Session;
pub use settling::SettleProgress;
