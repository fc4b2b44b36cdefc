//! What goes in and out of `usbtrace`: its words, as clap reads them, with their help; the whole input; the entries of a
//! run, the findings of a check, and why it ends early.
//!
//! The one promise: `read_words` gives the task that the words ask for, or the fault that clap finds in them; and what is
//! appended to the output is the text of what was to be printed, or a beginning of it where that fails.
//!
//! # Files
//!
//! - `words.rt`, `help.rt`: the words of the command line: `run`, `run --steps`, `run --packets`, `alone H`, `live`, `left`, `check`,
//!   `draw`, `capture`, `devices`, `explain`, `test`, `device`, `describe`; what help says
//! - `laws.rt`: what the definition of the command line makes of words
//! - `read.rt`, `write.rt`, `fault.rt`: the whole input; bytes that are written whole, or as far as it goes; why a
//!   run ends early, and its message
//! - `entry_line.rt`: the line of an entry
//! - `behind.rt`: an entry behind the line that it comes from
//! - `lines.rt`, `print.rt`: lines of entries as they come, or texts of them, gathered and written many at a time
//!   (`Lines`); a whole list of entries, and what a check found
//!
//! # Contracts
//!
//! - `trace_io::laws::words`: computed from the definition of the command line, whatever the program's name: which
//!   words ask for `run`, for `run --steps`, for `run --packets`, for `live`, for `left`, for `check`, for `draw`, for `capture`, for `devices`,
//!   for `alone H` with each of the 64 handles (`+5` and `007` too), and for help; some that are bad
//! - `trace_io`: `write_bytes`, `print`, `print_findings`, `Fault::tell`: where they succeed, all of the text is
//!   appended; always, a beginning of it, also where a write fails amid a line. `tell` takes no memory
#![tactic(auto)]

mod behind;
mod entry_line;
mod fault;
mod help;
pub mod laws;
mod lines;
pub mod print;
mod read;
mod words;
mod write;

pub use behind::add_behind;
pub use entry_line::{add_byte, add_data, add_decimal, add_line};
pub use fault::Fault;
pub use lines::Lines;
pub use read::read_whole;
pub use words::{Task, read_words};
pub use write::write_bytes;
