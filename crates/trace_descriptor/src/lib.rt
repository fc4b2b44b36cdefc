//! A device of a scenario, made of the descriptors that a real one has (USB 2.0, 9.6), as Linux's file `descriptors` gives them, in
//! bytes or as hexadecimal text; and the same descriptors as a table.
//!
//! The one promise: the text that `device_lines` gives is that of the definition, and but for its `ids` and `class` lines it begins a
//! scenario of one device, with the configuration that the bytes say.
//!
//! # Files
//!
//! - `input.rt`, specs/Input: the bytes of an input, which may be text
//! - `file.rt`, `piece.rt`, specs/File: the device descriptor and the configurations of these bytes; descriptors in front of bytes
//! - `interface.rt`, specs/Interfaces: interface descriptors
//! - `text.rt`, `class.rt`, specs/Lines: comments, and the line of the device
//! - `identity.rt`, specs/Identity: its vendor, product, release and class
//! - `device.rt`, specs/Device: the whole, or why there is none
//! - `describe.rt`, `stop.rt`: the table of a file, and why it ends early
//! - `table.rt`, `kinds.rt`, `layouts.rt`: its printer, which table a descriptor has, and all tables
//! - `field.rt`, `flags.rt`, `names.rt`, `class_names.rt`: how a field is printed, and what its number stands for
//! - `laws.rt`, specs/Laws, proofs/Quiet, DeviceLine, PassedOver: what the text is to a scenario
//!
//! # Contracts
//!
//! - `device_lines`: the text of an input is that of the definition (`device_text`, in specs/Device); an error is that of the
//!   definition, or want of memory. Nothing is required
#![tactic(auto)]

mod class;
mod class_names;
mod describe;
mod device;
mod field;
mod file;
mod flags;
mod identity;
mod input;
mod interface;
mod kinds;
pub mod laws;
mod layouts;
mod names;
mod piece;
mod stop;
mod table;
mod text;

pub use describe::{description, description_stop};
pub use device::device_lines;
pub use stop::{StopReason, TableStop};
