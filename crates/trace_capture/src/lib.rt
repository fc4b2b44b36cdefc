//! A run as Wireshark reads it: a capture of Linux's usbmon in a pcap file of link type 220 (pcap-savefile(5); Linux,
//! Documentation/usb/usbmon.rst).
//!
//! The one promise: the records of a run are those of its events, in order, by the definitions; each byte is said there.
//!
//! # Files
//!
//! - `event.rt`, `identity.rt`, `errno.rt`, `control_setup.rt`: an event; which transfer it is of, how that stands, what a
//!   control transfer asks for
//! - `field.rt`, `record.rt`, specs/Event: the bytes of an event, and those in front of all
//! - `control.rt`, specs/Control: the events of control transfers, and of a scenario's device line
//! - `transfer.rt`, specs/Transfer: those of a handle's transfer: its submission and its callback
//! - `tables.rt`, `recorder.rt`, specs/Events: what is kept from entry to entry, and the events of each and of a run
//! - `laws.rt`, specs/Laws, specs/Vectors, proofs/Records, proofs/Answered: what holds of every record, id and run; the
//!   bytes of two worked runs
//!
//! # Contracts
//!
//! - `file_header`: the 24 bytes in front of the records
//! - `CaptureEvent::append_to`, `append_all`: the records of events are put behind what is there; without memory nothing changes
//! - `CaptureRecorder::device`, `CaptureRecorder::entry`: the events of a device's line, and of an entry with its step and line, are
//!   those of the definitions, and so is what is kept for the next. Without memory nothing changes. Of a transfer its request
//!   is kept, from its submission until its callback has returned
//! - `laws::records`: a record has 80 bytes and those of its data, and each is a byte
//! - `laws::ids`: different transfers of a run have different ids
//! - `laws::callbacks`: in each run a callback has its submission in front of it, at the same endpoint of the same device
//! - `laws::verdicts`, proofs/Verdicts for crates above: of a callback that returned either verdict that brings no bytes
//!   may be told
//! - `laws::vectors`: the captures of two worked runs, computed from their steps
//!
//! To write a run's capture: `file_header`; then what `CaptureRecorder::device` gives of each device's line, and what
//! `CaptureRecorder::entry` gives of each entry as it comes, by `append_all`.
#![tactic(auto)]

mod control;
mod control_setup;
mod errno;
mod event;
mod field;
mod identity;
pub mod laws;
mod record;
mod recorder;
mod tables;
mod transfer;

pub use control_setup::ControlSetup;
pub use errno::Errno;
pub use event::{CaptureEvent, EventType, UrbFlags};
pub use identity::UrbId;
pub use record::{append_all, file_header};
pub use recorder::CaptureRecorder;
