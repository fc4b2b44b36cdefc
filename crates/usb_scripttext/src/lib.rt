//! Devices with scripts, as text: words that spell numbers, addresses and bytes, what an endpoint of a device answers, and
//! the devices that lines describe. `usb_devicetext` reads the lines `device` and `script` by them, `trace_scenario` those of
//! its scenarios.
//!
//! The one promise: what a word or a line says is what the definitions make of it, and want of memory leaves it open.
//!
//! # Files
//!
//! - `words.rt`: a line as its words; lines that say nothing
//! - `number.rt`, `prefix.rt`: numbers, addresses and bytes; beginnings of words
//! - `expected_packet.rt`, `script.rt`: what is expected of a packet that an endpoint takes; the answers of an endpoint
//! - `repeats.rt`: words that stand for many, `d:00*4096`, and `..` behind the last
//! - `devices.rt`, `endpoint_set.rt`: a device of a configuration, and one more of its scripts; which endpoints it has
//! - `expected.rt`, `problem.rt`, `fault.rt`, `text_fault.rt`: what a word had to be; what is wrong with a line; why it isn't
//!   taken, and why a text isn't
//! - specs/ by the same names; Results has what reading may answer
//! - proofs/ Fits, Made: an endpoint's answers are those that it may give; devices that lines describe can be made. WrittenOut:
//!   words that stand for many, one after another
//!
//! # Contracts
//!
//! - `words::cut`, `ascii`: the words between single spaces of a line that is all ASCII
//! - decimal numbers, addresses, bytes: taken exactly where they are what specs/Number says; a decimal has no sign and no leading
//!   zero
//! - `endpoint_answers`: a device, an endpoint and 1 to 65,536 answers of its direction, as specs/Script says
//! - `copies`, `written_out`: some words, each as often as it stands (`replicate`, specs/Repeats), and with the last of them up to 65,536
//!   where `..` is behind it; None where they are more than 65,536, before memory is taken for the word that is too much. What a line
//!   answers and expects is said of its words written out
//! - `devices::configuration`: what a configuration descriptor says (specs/Grammar of `usb_descriptors`)
//! - `devices::new_device`: a device of this configuration with an empty script for each endpoint id. `devices::add_script`: with
//!   the script of a bulk or interrupt endpoint that has none so far, or that there is none such; refused, nothing changed
//!
//! It doesn't say: which problem is told of a line that isn't taken.
#![tactic(auto)]

pub mod devices;
mod endpoint_set;
mod expected;
mod expected_packet;
mod fault;
pub mod number;
mod prefix;
mod problem;
mod repeats;
mod script;
mod text_fault;
pub mod words;

pub use endpoint_set::EndpointSet;
pub use expected::Expected;
pub use expected_packet::{ExpectedPacket, read_expected_packet};
pub use fault::LineFault;
pub use prefix::behind;
pub use problem::{Misplaced, Problem};
pub use repeats::{copies, with_times, written_out};
pub use script::{EndpointAnswers, endpoint_answers};
pub use text_fault::TextFault;
