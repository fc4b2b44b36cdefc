//! Devices as the controller meets them: each endpoint answers one transaction at a time (USB 2.0, 8.4.5).
//!
//! The one promise: a call at an endpoint answers by the next of its script, and changes that endpoint alone.
//!
//! # Files
//!
//! - `device.rt`: `Device`, the trait, and `Act`. `answer`: one transaction, whose packet for the host is put into a
//!   buffer; `answer_in` appends it, by `answer` where a device doesn't say how; `ready`, `taken`, `rewind`,
//!   `clear_halt`
//! - `scripted.rt`: `Scripted`: a device that tells how far it is in its scripts; `feed.rt`: `Feed`: a device whose scripts go on
//!   while it runs
//! - `table.rt`, `pipe.rt`: `TableDevice`: a place in each script, so that nothing is copied
//! - `scripted_device.rt`: `ScriptedDevice`: a configuration and scripts, of which one is made
//! - `taken.rt`, `scripts.rt`: packets that were taken, in one buffer an endpoint; scripts that a configuration may
//!   have
//! - `boxed.rt`: `BoxedDevice`: a device of any type, in a box that may cross threads
//! - specs/ Pipe, Scripts, Feeds, Taken: one endpoint as its device keeps it; scripts beside a configuration, and as they go on;
//!   packets in one buffer
//!
//! # Contracts
//!
//! - `Device::answer`, `answer_in`: of every device: it answers by the next answer of the endpoint's script, Stall
//!   while it is halted, Nak behind the script's end; the endpoint goes one answer on, is halted by a Stall, and
//!   keeps the packet that was sent where it answers Ack; no other endpoint changes. A packet for the host stands at
//!   the buffer's front, or behind the bytes; one that doesn't fit is left out, and not cut
//! - `Device::ready`, `taken`, `rewind`, `clear_halt`: whether an answer is left or it is halted; packet i of those
//!   taken; the script from its beginning, without halt and packets; the halt goes and the script goes on. A device
//!   has 32 endpoints, and no answer of the wrong direction (clause `lawful`)
//! - `Scripted::answers_left`, `is_halted`: of a device that tells it: how many answers an endpoint's script has left,
//!   and whether it is halted; `TableDevice` does
//! - `Feed::feed`: the endpoint, as if its script had ended with this answer from the beginning; InvalidParam just where the endpoint
//!   can't have it, or its script is full; else NoMem; refused, nothing changed. `TableDevice` does
//! - `TableDevice::new`: the endpoints of the configuration with the scripts, at their beginning; InvalidParam just
//!   where a script isn't fit, else NoMem; refused, the scripts come back as they were
//! - `ScriptedDevice::into_setup`, `into_setups`: devices as the model has them: the same; `CanBeMade` (specs/Scripts) says of which a
//!   `TableDevice` can be made
//! - `BoxedDevice::new`: a box answers as the device in it
//!
//! It doesn't say: which transfer a transaction is of, when one is tried again, how long anything takes. A device's
//! answers are settled when it is made, or fed.
#![tactic(auto)]

mod append;
mod boxed;
mod device;
mod feed;
mod pipe;
mod scripted;
mod scripted_device;
mod scripts;
mod table;
mod taken;

pub use boxed::BoxedDevice;
pub use device::{Act, Device};
pub use feed::Feed;
pub use scripted::Scripted;
pub use scripted_device::{ScriptedDevice, into_setups};
pub use scripts::info_by;
pub use table::{MakeDeviceError, TableDevice};
