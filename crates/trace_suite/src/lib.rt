//! Tests of files: those that a command line names, and those in folders; what came of them as lines, as XML of JUnit's form, and as pages;
//! and files that are rewritten so that they expect what there is.
//!
//! The one promise: each path has its tests, one path behind the other, and the status is that of their tally.
//!
//! # Files
//!
//! - `asked.rt`: the tests that a command line asks for
//! - `testing.rt`, specs/Tests: tests of files, and of the files in folders (`folders.rt`); how they are counted
//! - `junit.rt`: what came of them as XML
//! - `page.rt`, `testing/paging.rt`: a test that failed as a page, and where it is written. Who calls hands in what shows its run (`Showing`)
//! - `corrected.rt`, `testing/updating.rt`: a test whose lines expect what there is, and files that are rewritten so
//! - `bad_line.rt`, `expecting.rt`: why a line of a test is bad; whether a test expects anything
//! - proofs/Counting: one path more, and one file more
//!
//! # Contracts
//!
//! - `test_line`: each path has its tests, one path behind the other (`CountsPaths`, specs/Tests): a file one, counted by what came of it, or as
//!   failed where the file isn't read (`CountsFile`), and a folder one at least, or it counts as failed (`CountsFolder`); the status is that of
//!   the tally, or 1 (`IsStatusOf`); or it is 2, where an option that says where reports go is bad (`HasBadOption`). Of files that are
//!   rewritten nothing is said
//!
//! That a file's test has the file's own bytes, or that a folder's has all its files, no contract says, since contracts know no file's bytes and
//! no folder's files: tools/scenarios.py tries both.
#![tactic(auto)]

mod asked;
mod bad_line;
mod corrected;
mod expecting;
mod folders;
mod junit;
mod page;
mod testing;

pub use asked::test_line;
pub use bad_line::{BadLine, first_bad_line};
pub use expecting::expects_nothing;
pub use page::{Showing, ShownRun};
