//! Scenarios as tests: lines that say what a step prints, and what is left at the end, compared with the run of the others.
//!
//! The one promise: a test is passed where each line that expects something finds it, in the run of the scenario that the other
//! lines stand for, and the run wrote what its scripts expect; else the first that doesn't is told, with what was wanted and what was got,
//! or what was written.
//!
//! # Files
//!
//! - `expected.rt`, specs/Expected: lines that expect something, and what they find
//! - `parts.rt`, specs/Parts: the parts of a line around an arrow or a star
//! - `table.rt`, specs/Table: the macros that are closed, by name
//! - `macros.rt`, specs/Macros: macros of a test's own and arrows, and what it stands for without them
//! - `expanded.rt`, specs/Expanded: the scenario that a test's other lines stand for
//! - `settling.rt`, specs/Settling: the steps of `settle` lines, on one run that stays open
//! - `scenario.rt`: that scenario, by the lines of the test
//! - `unmet.rt`, specs/Comparison: what a run printed and left, as far as nothing was compared with it
//! - `difference.rt`, specs/Tests: where a test differs, and what is told of it
//! - `judge.rt`, specs/Tests: a test, and what came of it
//! - `ran.rt`, `correction.rt`: the run of a test without macros; all lines that differ, each compared as if those before it
//!   had expected what there is
//!
//! # Contracts
//!
//! - `unroll`: what a test stands for without macros and arrows (`unrolled`), each line with the number of the line that it comes from. What is
//!   wrong of a macro stands for itself, and is refused where the scenario is read
//! - `expand`: by cases of which the first that applies counts (`StandsFor`): a line that expects something stands for nothing; `settle` for
//!   some command, deliver and take lines; a line with ` *N` behind it for its front so many times; each other line for itself. Each line of
//!   the scenario knows the line of the test that it comes from
//! - `scenario_text`: the scenario that a test stands for, by both (`StandsAs`)
//! - `test`: what came of a test (`IsOutcome`): the scenario's run is the core's on rings, whose entries are those of the definitions. Where a line
//!   is bad, it is the first of the scenario, by its number in the test. What a call of a macro stands for has the number of the call's line
//! - `report`: the text of what came of it, byte for byte
//! - `corrections`: no contract says which lines these are; that a test passes behind them is only tested
//!
//! On the run that stays open each step that settles is the next (an order before an event, and that before a result), until there is none or
//! they are 65,536 (`SettlesFrom`). That this run is at each line the scenario's is only tested.
#![tactic(auto)]

mod correction;
mod difference;
mod expanded;
mod expected;
mod judge;
mod macros;
mod parts;
mod ran;
mod scenario;
mod settling;
mod table;
mod unmet;

pub use correction::{Correction, corrections};
pub use difference::{Difference, TestOutcome};
pub use expanded::{Expanded, expand};
pub use judge::{report, test};
pub use macros::unroll;
pub use scenario::scenario_text;
