//! What a command line of `usbtrace` may have beside the words of a task: files, and options of what is done with them and of the form in
//! which it is printed. And what is known of an input before a task is done over it: the bytes of files that it names, and what it lacks.
//!
//! The one promise: words without files and options (`IsPlain`) ask for lines as they are, and a text that names no file stays as it is.
//!
//! # Files
//!
//! - `files.rt`, specs/CommandLine: the words of a command line, and the files that it names; lines that have words alone
//! - `device_options.rt`: the options of `devices` by which one device is meant, and a file that describes it
//! - `printed.rt`: what is printed, with colours (`colours.rt`) or as JSON (`json.rt`, `json_lines.rt`, `json_entry.rt`), where that is asked
//!   for; `printed_line.rt` reads the lines
//! - `beside.rt`, `device_strings.rt`: what stands beside Linux's file of descriptors, and the lines of a device's strings that are from there
//! - `insertion.rt`, `halves.rt`, specs/Inputs: bytes of files that a text names; what is missing where only a part of an input can be printed
//! - `statuses.rt`, `refusals.rt`, specs/Status: the statuses; why a command line is refused; the version
//!
//! # Contracts
//!
//! - `are_words_alone`, `form_of`, `task_of`: a line that has words alone is known as such, and printed in lines as they are; the task is the
//!   one that the words ask for
//! - `inserted`: a text that names no file (`may_name_files`) has no other bytes in its place
//! - `may_lack`: whether more is told of a task than `trace` tells (`is_half`)
//! - the statuses, each by its definition: of a run that ended well over an input that ends early (`half_status`), of a run whose packets aren't
//!   as expected (`lenient_status`), of tests (`tests_status`). `tell_fault`: a fault's message is begun
//!
//! No contract says what is printed as JSON or with colours, or which bytes a file has: tools/scenarios.py tries both.
#![tactic(auto)]

mod beside;
mod colours;
mod device_options;
mod device_strings;
mod files;
mod halves;
mod insertion;
mod json;
mod json_entry;
mod json_lines;
mod printed;
mod printed_line;
mod refusals;
mod statuses;

pub use colours::ColourOption;
pub use device_options::DeviceOptions;
pub use device_strings::{put_strings, write_lines};
pub use files::{
    CommandLine, OutputOption, are_words_alone, command_line, form_of, is_version, task_of,
};
pub use halves::{
    Missing, may_lack, missing_steps, print_devices, stop_of, tell_missing, tell_stop,
};
pub use insertion::{FileFault, InsertedFault, folder_of, inserted};
pub use printed::{Printed, PrintedForm};
pub use printed_line::PrintedBy;
pub use refusals::{
    print_version, refuse_colours, refuse_file, refuse_files, refuse_html, refuse_junit,
    refuse_update,
};
pub use statuses::{
    BAD_WORDS, FAILED, half_status, print_all, status_of, tell_failure, tell_fault, tests_status,
};
