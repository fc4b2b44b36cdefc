//! What a run writes to devices, compared with what its scenario expects: the first packet that differs, how many do,
//! and which expected packets never came, told in sentences.
//!
//! The one promise: what is told is the text of the definition, read off the worlds of the run; nothing is told where
//! each packet that is taken is as expected, and each that is expected comes.
//!
//! # Files
//!
//! - `expected.rt`, specs/Expected: what is expected of the packets of an endpoint, and where one differs
//! - `gathered.rt`, specs/Gathered: the lines joined by endpoint, of which a run is judged
//! - `difference.rt`, specs/Differences: the packet that a step's device takes, and those of a run that differ
//! - `missing.rt`, specs/Missing: what never came at an endpoint
//! - `judged.rt`: a run, and what came of it
//! - `unexpected.rt`, `sentence.rt`, `told.rt`, specs/Report: what is told of it, and how
//! - `text.rt`, specs/Text: of the scenario that a text is
//!
//! # Contracts
//!
//! - `judge`: the packets that differ are those of the definition (`differences`), in the run's order, each with its
//!   line, endpoint, index, bytes, what was expected, and the first byte that differs or the end of the shorter; and
//!   what never came is what the last world says (`all_missing`). The plain program makes the run, since between two of
//!   its steps all that devices took can be looked at
//! - `Judged::into_unexpected`, `unexpected_in`: what is told of it (`unexpected_of`); nothing where nothing differs and nothing is missing
//! - `expectations`: entries of which the same is told as of a text's lines, or none, where nothing is told of any run
//!   (`AreExpected`): a run of which nothing is expected needn't be made
//! - `told_text`: the lines of what is told
#![tactic(auto)]

mod difference;
mod expected;
mod gathered;
mod judged;
mod missing;
mod sentence;
mod text;
mod told;
mod unexpected;

pub use difference::Difference;
pub use judged::{Judged, judge};
pub use missing::MissingPackets;
pub use text::{expectations, told_text, unexpected_in};
pub use unexpected::Unexpected;
