//! What the words of `usbtrace` ask for, over standard input and files: the program without its process. The streams, the runtime, who performs
//! plans in threads, and whether the output is a terminal are given; `usbtrace` hands on those of its process.
//!
//! # Files
//!
//! - `program.rt`: what the words ask for, over standard input or files
//! - `scenarios.rt`, `tasks.rt`: tasks over a scenario with the bytes of the files that it names, and over any input
//! - `device.rt`: a device as its file of descriptors has it, with its strings
//! - `input_test.rt`: a test that isn't in a file by name, and what is told behind it
//! - `shown_run.rt`: the run of a test that failed, for its page
//! - specs/Layer: what is promised of lines that have words alone, and of a test
//! - proofs/Traced: what `trace` promises, of an input whose bytes are known
//!
//! # Contracts
//!
//! - `perform`: words without files and options (`IsPlain`, `trace_options`) come to what is promised of `trace` of `trace_main`, clause by
//!   clause (`Traces`, specs/Layer), where the input's bytes are known, it names no file, and more is told of no task (`is_half`). Any input that
//!   they don't ask a task for isn't read (`LeavesInput`): help and bad words ask for none
//! - within `trace_command`, `test_input`: a test that isn't in a file ends as `trace` says of it, by its status (`EndsTest`)
//!
//! Of a line with options, or with files, no contract says what is printed: tools/scenarios.py tries it.
#![tactic(auto)]

mod device;
mod input_test;
mod program;
mod scenarios;
mod shown_run;
mod tasks;

pub use program::perform;
pub use trace_options::{BAD_WORDS, CommandLine, command_line};
