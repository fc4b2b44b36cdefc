//! The program `usbtrace` as a library: the scenario of an input is run by the core on rings, and its entries are
//! printed as they arise, or with their reasons, or drawn, or written as a capture; or it is run in threads, and what its
//! callbacks were told is printed; or it is checked and its bad lines are printed, or tested. Or the input is a capture, and what
//! its devices said is printed as a scenario, or a file of descriptors. The texts are those of docs/FORMATS.md.
//!
//! The one promise: what is printed is the text of the entries of the scenario that the input spells, or their capture, or
//! the scenario of the capture that the input is, or a beginning of it where the status isn't 0.
//!
//! # Files
//!
//! - `program.rt`, specs/Program: `trace`, over any reader and writers
//! - `source.rt`, specs/Source: the scenario that a text stands for, itself or as a test, and the numbers of its lines
//! - `live.rt`, `lived.rt`, specs/Lived: a scenario run in threads, and which lines it can't have; who performs it is handed in (`Performer` of
//!   `trace_threads`)
//! - `checked.rt`, `told.rt`, `tested.rt`, `picture.rt`: what is wrong with a scenario, and what its run refuses; its run with
//!   its reasons or its packets, as a test, and as a picture or a page
//! - `judged.rt`: a run, and behind it what it wrote that isn't as expected
//! - `recorded.rt`, `descriptor.rt`: the scenario of a capture; a device's lines and table
//! - `described.rt`, specs/Described: one device of a capture, and what a file says of it
//!
//! # Contracts
//!
//! A text that is a scenario's stands for itself, and any other for what its lines stand for in a test (`Stands`); a line is told by its
//! number in the text. Below, a text's scenario is the one that it stands for.
//!
//! - `trace`, status 0: the words asked for a task, the input is a scenario's text of at most 67,108,864 bytes, and
//!   what was written is, byte for byte, the lines of its run, these with the number and the text of its step's line
//!   before each (`run --steps`) or the packets that their steps moved below each (`run --packets`), those of one handle alone, what callbacks were told in a run of the definitions over
//!   its devices, all of it, by handle and number (`live`: in that run stand the calls of the scenario's lines, each
//!   handle's in their order, and no others, until nothing is left to be done, and each callback answers what the rule of one of its
//!   handle's submissions says, or has ended, since its resubmission was refused), what is left behind (`left`), or, of a check, the counts, and the lines that the run refuses, with
//!   the reasons; of `draw` no
//!   contract says what is written; of `capture` it is the file of its run's events, those of the text's `device` lines
//!   in front, each entry from its step's line (`capture_bytes`). Of `devices` the input is a capture of at most so
//!   many bytes, and what was written is the text of its scenario (`recorded_scenario` of `trace_recorded`), in which a
//!   device is kept. Of `explain` what was written are the lines of `run --steps` with the reasons of their steps (`explained_text` of
//!   `trace_explain`). Of `test` the input is a test, what came of it is that it is passed (`IsOutcome` of `trace_test`), and that was
//!   written; of `device` it is a file of descriptors, and the lines of its device were written (`device_text` of
//!   `trace_descriptor`); of `describe` and of a page, as of a picture, no contract says what is written. Or the words asked for help, and the input wasn't read. Nothing is on standard error
//! - `trace`, status 1: a check wrote a line with the number of each bad line, in order, of 1,000 at most, then how
//!   many more there are, if so, and then the counts, and nothing is on standard error; or under `devices` no device is
//!   kept, the text of the capture's scenario was written, and nothing is on standard error; or under `test` a line
//!   differs, that was written, and nothing is on standard error; or what is on standard error
//!   is a beginning of the message of a fault that fits: of a line, only where the words ask for no check and for no
//!   capture's devices, and it is the text's first bad line, of a test by its number there (under `live` an `expire` or `unplug` line is bad too); of an
//!   input that is too long, only where it is; of more callbacks than `live` may call, only where some run over the devices
//!   has more; of a picture with too many steps, only under `draw`; of a capture that is refused, only under `devices`, and
//!   only the fault that the definition has; of a descriptor, only under `device` and `describe`, and under `device` only that of the
//!   definition. Want of memory and a failed stream fit always
//! - `trace`, status 2: the words are bad; nothing is written on standard output, and the input isn't read
//! - `trace`, status 3: the words asked for `run`, `run --steps` or `left`, what that prints was written, and behind it, which isn't empty, what
//!   the run wrote that isn't as its scenario expects (`judged_text` of `trace_judged`). At status 0 such a run has none of that
//! - `trace`, any status: at a bad line, all but `check`, and those that read something else than a scenario (`test`, `devices`,
//!   `device`, `describe`), write nothing on standard output (help, where it is asked for, is written), and `check` doesn't answer 0. Where the words ask for
//!   no task the input isn't read. The status is 0 to 3. However a task ends, what it wrote is a beginning of its
//!   text: of the lines of the run, of those of the handle, of what callbacks were told in such a run, of what is left,
//!   of the check's report, of the run's capture, of the run with its reasons, of what came of a test, of a capture's
//!   scenario, or of a device's lines; and nothing where a capture or a device is refused
//! - `described_devices`, status 0: the input is a capture, and what was written is the text of the one device that is meant, with what a
//!   file says of it where the capture says nothing (`described_scenario` of `trace_recorded`), and nothing is on standard error; status 1:
//!   that device is left out, or the message of the fault that ended it is begun. A capture that is refused is never printed of
//! - `run_test`, `status_of`: what `trace` does with a test, and how it tells what ended a task and answers the status, for who tells more behind it
//! - within `trace_main`: `run`, `run --steps`, `alone` and `capture` print each line or record as the core comes to
//! it,   and keep no entry. A run that finds no memory prints the lines of a beginning of its entries (`PrintsTo`), or
//! the   file of a beginning of its events (`PrintsFile`), unless printing fails too. The fault that ended a task is
//! the   one whose message is begun, byte for byte (`status_of`)
//!
//! That a message isn't cut short can't be said of `trace`: of a `Write` that fails nobody but itself knows, and the
//! status is the same. For that reason too, want of memory told in place of another fault fits the clause of `trace`;
//! within, it doesn't fit that of `status_of`.
//!
//! What the words mean is said by clap's documented rules (specs/CommandLine). The clauses on bytes speak of readers
//! and writers whose bytes std's contracts know, as slices and `Vec`; of the process's own streams they know none.
//! `usbtrace` hands its words and streams to `trace`.
#![tactic(auto)]

mod checked;
mod described;
mod descriptor;
mod judged;
mod live;
mod lived;
mod picture;
mod program;
mod recorded;
mod source;
mod tested;
mod told;

pub use described::described_devices;
pub use program::{status_of, trace};
pub use tested::run_test;
