//! What recorded devices answered, read off a capture of Linux's usbmon (Linux, Documentation/usb/usbmon.rst) or of Windows' USBPcap, as the
//! lines of a text of devices.
//!
//! The one promise: the answers that a recorded completion stands for end a request of the same length, and its callback is told the
//! recorded bytes and the recorded status; and the text of a capture is that of the definition, or the fault is.
//!
//! # Files
//!
//! - `number.rt`, `event.rt`, `windows.rt`, specs/Packets, Events, Windows: an event of a bus, and how it is read from a packet's bytes, by who
//!   recorded it
//! - `recording.rt`, `pcap.rt`, `block.rt`, `pcapng.rt`, specs/Files, Blocks: the events of a file, by its form
//! - `table.rt`, specs/Tables, Folds: values by number; what a list leads to
//! - `controls.rt`, specs/Controls: control transfers, each submission with its callback
//! - `configuration.rt`, specs/Configurations: the configuration that a device was used in
//! - `identity.rt`, specs/Identity: its device descriptor and its strings
//! - `request.rt`, `control_lines.rt`, specs/Requests: its driver's control requests with their answers, and these by request
//! - `transfer.rt`: a recorded transfer, and how it ended
//! - `packets.rt`, `answers.rt`, specs/Answers: its answers, one a packet
//! - `answer.rt`, specs/Written: the same, each with what was written for it
//! - `submission.rt`, `halt.rt`, `endpoint.rt`, specs/Endpoints: what is kept of a submission; requests that end a halt; what an
//!   endpoint answered, and what of that is noted
//! - `waits.rt`, specs/Waits, WaitLaws: which answers of an endpoint wait for what
//! - `session.rt`, specs/Sessions: all endpoints of a device, over its events in order
//! - `hub.rt`, `device.rt`, `left_out.rt`, specs/Devices: the devices of a recording, and which are left out
//! - `note.rt`, `text.rt`, `answer_text.rt`, specs/Lines: notes and scripts
//! - `control_text.rt`, `wait_text.rt`, `device_text.rt`, specs/DeviceText: the lines of a device, for who reads them
//! - `scenario.rt`, specs/Scenario: the whole, or why there is none
//! - `described.rt`, `described_file.rt`, `umockdev.rt`, `described_fault.rt`, specs/DescribedFiles: a device as a file describes it
//! - `choice.rt`, specs/Choices: which device of a capture is meant
//! - `completed.rt`, specs/Described: what a file says of a device and its events don't, as events in front of these
//! - `described_text.rt`, `one_device.rt`, specs/DescribedText: the lines of one device, with what is from the file
//! - `laws.rt`, specs/Laws, DescribedLaws, proofs/: what is written is read back; what the answers come to, by the definitions of the model
//!
//! # Contracts
//!
//! - `recorded_scenario`: the text of a capture's devices, and whether there is one, are those of the definition
//!   (`recorded_scenario`, in specs/Scenario); an error is that of the definition, or want of memory. Nothing is required
//! - `described_scenario`: the text of the one device that is meant, and of what a file says of it where the capture says nothing, is that of
//!   the definition (`described_scenario`, in specs/DescribedText); an error is that of the definition, or want of memory
//! - `described_by_descriptors`: a file's device descriptor, its configurations and the speed are those of the definition (`Describes`, in
//!   specs/DescribedFiles), and so is an error. Of strings, and of a file of umockdev-record, no contract says what is read
//! - `laws::unsaid`, `laws::events_stay`: nothing is put in front of a device's events that they say themselves, and these stay as they are
//! - `event_of`: the event of a packet's bytes is that of the definition, in either byte order and behind each header
//! - `RecordedEnd::of`: how a transfer ended, by the number of its status
//! - `answers_of`: the answers of a recorded transfer are those of the definition
//! - `laws::events`: what `trace_capture` writes of an event is read back
//! - `laws::files`: of a file that it writes of events each is read, and nothing else
//! - `laws::reads`, `laws::writes`: the answers of a transfer end a request of its length with the last of them, and the
//!   callback is told the recorded bytes and the recorded status: 0, -121, -32, -71 or -75 of a read, 0, -32 or -71 of a write
//! - `laws::answers`, `laws::packets`: the answers that are told with what was written are these; and of a write that was
//!   recorded to its end the packets are the first of those that a request for the same bytes sends
//! - `laws::requests`: the line of a control request has the answers to such requests, in the order of their ends
//! - `laws::waits`: an answer may come where what had been taken when it came is taken, and what those before it wait for, and no sooner: so it
//!   is with the answers of each endpoint, over all events of its device
//!
//! Where a transfer was withdrawn, or its device was gone, its answers are those of the whole packets that moved, and end nothing.
//! A transfer of more bytes than a request may have is left out, and so is one that ended behind a stall. Of an endpoint's answers
//! as many stand in its script as a script may have; the others are counted.
//!
//! The work grows with the capture's bytes, 30 times for a device with 30 endpoints, and with the logarithm of how many devices
//! and transfers in flight there are.
#![tactic(auto)]

mod answer;
mod answer_text;
mod answers;
mod block;
mod choice;
mod completed;
mod configuration;
mod control_lines;
mod control_text;
mod controls;
mod described;
mod described_fault;
mod described_file;
mod described_text;
mod device;
mod device_text;
mod endpoint;
mod event;
mod halt;
mod hub;
mod identity;
mod key;
pub mod laws;
mod left_out;
mod note;
mod number;
mod one_device;
mod packets;
mod pcap;
mod pcapng;
mod recording;
mod request;
mod scenario;
mod session;
mod submission;
mod table;
mod text;
mod transfer;
mod umockdev;
mod wait_text;
mod waits;
mod windows;

pub use answers::answers_of;
pub use choice::DeviceChoice;
pub use described::{DescribedDevice, DevicePlace, DeviceSpeed};
pub use described_fault::DescribedFault;
pub use described_file::{DeviceTexts, described_by_descriptors};
pub use event::{EventHeader, RecordedEvent, RecordedType, event_of};
pub use number::Endianness;
pub use one_device::described_scenario;
pub use scenario::{RecordedScenario, recorded_scenario};
pub use transfer::{RecordedEnd, RecordedTransfer};
pub use umockdev::described_by_umockdev;
