//! Tirnouch: USB transfers that many threads submit, cancel and time out through many handles, none of which disturbs another
//! (libusb 1.0, "Asynchronous device I/O").
//!
//! What a driver's author needs, under one roof; it has nothing of its own.
//!
//! # A small driver
//!
//! A meter is read once: 8 bytes from its interrupt endpoint 83. The caller of `read_once` has the devices, two threads in which
//! `controller_loop` and `event_loop` run, and one for this:
//!
//! ```text
//! use anyhow::{Result, anyhow};
//! use bitflags::Flags as _;
//! use std::sync::Wait;
//!
//! pub fn read_once<L: Naming, D: Device, J: Recorder, R: Wait>(
//!     rt: &R,
//!     library: &Library<L, StoredCallback, D, J>,
//!     caller: &mut Caller<L>,
//!     meter: Name,
//!     callback: StoredCallback,
//! ) -> Result<()> {
//!     let Some(dev) = DeviceNo::new(0) else {
//!         return Err(anyhow!("no device 0"));
//!     };
//!     let opened = library.open(rt, caller, meter, dev)?;
//!     if let Err(why) = opened.granted() {
//!         return Err(anyhow!("open: {why}"));
//!     }
//!     let claimed = library.claim(rt, caller, meter, 1)?;
//!     if let Err(why) = claimed.granted() {
//!         return Err(anyhow!("claim: {why}"));
//!     }
//!     let request = Request {
//!         ep: EpAddr::new(0x83),
//!         kind: Kind::Interrupt,
//!         flags: Flags::from_bits_retain(0),
//!         timeout: 100,
//!         body: Body::In(8),
//!     };
//!     let Ok(submitted) = library.submit(rt, caller, meter, request, callback) else {
//!         return Err(anyhow!("no memory"));
//!     };
//!     match submitted.number {
//!         Ok(_number) => Ok(()),
//!         Err(refused) => Err(anyhow!("submit: {}", refused.why)),
//!     }
//! }
//! ```
//!
//! # Which name is what
//!
//! - **Devices**: `read_config` reads a configuration descriptor; `TableDevice` answers by a script; `Device` is the trait of what
//!   answers packets; `Setup` has up to four of them.
//! - **Handles and transfers**: `Name` is a handle's, 0 to 63; `Request` is a transfer as it is submitted; `Returned` is what its
//!   callback is told; `Refused` says why a call was refused, each with a sentence and libusb's number.
//! - **The library**: `Opening`, then `Library::new` in a function that is generic in a `Naming`; a `Caller` for each thread;
//!   `Journal` keeps every step, `Unrecorded` none.
//! - **Callbacks**: `StoredCallback::once` and `StoredCallback::repeat`; a `Verdict` ends the transfer or submits it once more. A
//!   `Callback` of one's own is told a `Due`, which reads as a `Returned` and is moved into the call. It is a `Payload` too: `impl Payload
//!   for MyCallback { type Whom = Anyone; }`. A `Suiting` of one's own in the place of `Anyone` says for whose transfers a callback may be
//!   kept; it is then told no other's results.
//! - **The workers**: `controller_loop` and `event_loop`, with `Open` as their gate, go by rows of at most `BURST` steps; `Moments`
//!   reads a clock for `Library::tick`. Who works without them calls `serve_all`, `deliver_all` and `take_all`, each of which tells
//!   its places as a `Row`, the last with whether memory was refused to one behind them (`Outgoing`). What tells what there is to do
//!   (`work`, `events`, `pending`, `tick` and these rows) takes a `Past`, which `Library::past` gives: it isn't an old answer.
//! - **All of it in one call**: `live` makes the library, runs both workers and each `Driver` in a thread, joins them, and ends it.
#![tactic(auto)]

pub use usb_core::{
    AddError, Callback, Core, Due, Once, Pending, Repeat, Setup, StoredCallback, SubmitError, Taken,
};
pub use usb_descriptors::{Config, read_config};
pub use usb_device::{BoxedDevice, Device, TableDevice};
pub use usb_journal::{
    Journal, Naming, Outgoing, Past, Place, Receipt, RecordError, Recorder, Row, Unrecorded,
};
pub use usb_library::{
    Answered, Anyone, CALLERS, Caller, Ended, Library, MissingCallers, Opening, Payload, Submitted,
    Suiting,
};
pub use usb_model::{
    Body, Bytes, DeviceNo, Entry, EpAddr, Flags, Kind, Name, Refused, Reply, Request, Response,
    Returned, Rule, Script, Sequence, Status, StatusSet, Step, Verdict,
};
pub use usb_workers::{
    BURST, Driver, Gate, Gates, Lived, Moments, Open, WorkerStep, controller_loop, event_loop,
    live, live_gated,
};
