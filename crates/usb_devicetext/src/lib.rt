//! Devices as a text describes them, beside what they answer to transfers: what a host reads of a device, and its answers on
//! the default control endpoint (USB 2.0, 9.3 to 9.6).
//!
//! The one promise: what `read_desk` gives is what the definition `desk_of` makes of the text, and what a device answers to a
//! request is what `reply_of` says, by how often the same answers were asked before.
//!
//! # Files
//!
//! - `topic.rt`, `word.rt`: first words of lines; numbers, wildcards, speeds
//! - `answer.rt`, `text.rt`, `statement.rt`: answers to requests; string descriptors; what a line says of a device, by each first
//!   word
//! - `line.rt`, `draft.rt`, `desk.rt`: one line; the devices that the lines so far describe; a text, whole
//! - `sense.rt`: whether what a line says applies to its device, and is said once
//! - `device.rt`: a device behind one more line
//! - `wanted.rt`, `form.rt`: what a word has to be; the words of a line by its first one
//! - `form_fault.rt`, `place_fault.rt`, `reason.rt`, `complaint.rt`: what is wrong with the words of a line by themselves, and beside
//!   the devices; why a line isn't taken, in a sentence; which line that is
//! - `alone.rt`: what is wrong with a line by itself
//! - `packet.rt`, `control.rt`: setup packets, and what a host has to hold for one; what a device answers to it
//! - specs/ by the same names; DeviceText has the whole text
//!
//! # Contracts
//!
//! - `read_desk`: the devices of the text, or the number of the first line that isn't taken behind those before it. What `device` and
//!   `script` lines say is said by `usb_scripttext`, as in a scenario; each device can be made (`CanBeMade`). A text of good lines is
//!   then asked for the first that can't mean anything (`applies`, `is_said`). Want of memory leaves it open
//! - `complain`: of a text that isn't taken the number of that line, and a reason that fits it (`Fits`): not that it is the only one,
//!   nor that it is more than "the line can't stand here"
//! - `line_complaint`: of a line that says something of a device, as `ids`, and isn't taken, a reason that fits it by itself (`FitsAlone`);
//!   None of any other
//! - `DeskDevice::reply`: of the first answers that a request fits the one of its turn, the last for ever; else what the
//!   descriptors say of a standard request; any other stalls
//! - `DeskDevice::count`: the answers that a request fits were asked once more, and nothing else changed
//! - `SetupPacket::read`, `needs`: the fields of 8 bytes; the interface or the endpoint that a host has to hold
//!
//! It doesn't say: when answers that wait (`DeviceGate`) go on, and when a device is pulled out (`Departure`): both are read, and are
//! whoever serves packets to do.
#![tactic(auto)]

mod alone;
mod answer;
mod complaint;
mod control;
mod desk;
mod device;
mod draft;
mod form;
mod form_fault;
mod line;
mod packet;
mod place_fault;
mod reason;
mod sense;
mod statement;
mod text;
mod topic;
mod wanted;
mod word;

pub use alone::line_complaint;
pub use answer::{ControlAnswer, MOST_DATA};
pub use complaint::{Complaint, complain};
pub use control::ControlReply;
pub use desk::{DeviceText, read_desk};
pub use device::DeskDevice;
pub use form_fault::FormFault;
pub use line::DeskLine;
pub use packet::{Needs, SetupPacket};
pub use place_fault::PlaceFault;
pub use reason::LineReason;
pub use sense::{Saying, Subject};
pub use statement::{
    Awaited, Class, Control, Departure, DeviceGate, Ids, Pattern, Statement, Text,
};
pub use topic::Topic;
pub use wanted::Wanted;
pub use word::Speed;
