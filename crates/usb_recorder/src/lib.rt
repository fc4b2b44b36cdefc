//! What a book keeps of its places when it runs: nothing, or each step with its entry, in few bytes. It knows no core, so it is proved
//! beside it.
//!
//! The one promise: a journal in memory has just the places that it was told, in order.
//!
//! # Files
//!
//! - `place.rt`: a place of a journal, and as a log is told of it
//! - `recorder.rt`, specs/Records: who is told each place: a draft of the step before it is made, and then its entry
//! - `journal.rt`, `short.rt`, `kept.rt`, `reader.rt`, specs/Kept: the journal in memory; a place that each transfer has,
//!   in few bytes; any place as it is kept; a place read back
//! - proofs/KeptPlaces: what a kept place stands for stays, whatever bytes come behind its own
//!
//! # Contracts
//!
//! - `Recorder`: by `reserve` there is room for so many places and bytes more, and what it was told stays; `draft` and `keep` take no
//!   memory, and behind `keep` it can be what was told one place more, that of the step that was drafted last (`stands`)
//! - `Journal`: it is what was told just its places, and `places` gives copies of them, in order
//! - `sent_by`: the bytes of a step are those of the definition
//!
//! A body that gives up at once with want of memory is right by contract.
#![tactic(auto)]

mod journal;
mod kept;
mod place;
mod reader;
mod recorder;
mod short;

pub use journal::{Draft, Journal};
pub use kept::sent_by;
pub use place::{Place, PlaceImage};
pub use recorder::{Recorder, Unrecorded};
