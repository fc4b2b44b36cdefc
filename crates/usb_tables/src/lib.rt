//! The tables of the core, and what is decided by one look at them: who holds which interface, the transfers in flight and the TRBs
//! that they are sent as, the errand of each endpoint, and what an event tells of a transfer.
//!
//! The one promise: each look-up answers what was put there last, in constant time; each call changes its table by one equation, or is
//! refused and changes nothing; and each transfer in flight stands at exactly one place.
//!
//! # Files
//!
//! The errands of an endpoint: when the controller is asked to stop, reset or move it, and which transfers are withdrawn:
//!
//! - `order.rt`: `ask`, `next_order`: what is ordered, by the errand that is outstanding
//! - `ended.rt`: `settle`: how many blanks leave the line, whether asked transfers are withdrawn, and what is
//!   ordered, or that the doorbell is rung; it reads a `Mark` of each transfer
//! - specs/ Orders, Settlements: the endpoint after an order, and after a settlement
//!
//! What an event tells of a transfer:
//!
//! - `target.rt`: `Target`, `Reading`: the transfer and the TRB at which an event points, and what the event tells of
//!   it. The core reads each event by it
//! - `status.rt`: `result`: the status by a code
//! - specs/ Events, Statuses: what an event tells; which ends have which status, read from the status
//!
//! Who has which device open, and who holds which interface:
//!
//! - `claims.rt`: `Claims`: new, into_configs; config, is_device, device_of, owner, holder, held_at, holds,
//!   others_hold; open, close, claim, release
//! - `held.rt`: `HeldEndpoint`: device, address and name, what `held_at` gives
//! - `endpoint_table.rt`: the interface of each endpoint, by device and endpoint id, made from the configurations
//! - `open_table.rt`, `owner_table.rt`: the device that each name has open; the name that holds each interface
//! - specs/ Holders, Tables: what contracts see, and when each call is refused; how the tables are read
//!
//! A transfer from its request on: its check, its TRBs, and the store of those in flight:
//!
//! - `refusal.rt`: `check`, `check_at`: the first refusal of a request, or its TDs
//! - `tds.rt`, `trbs.rt`: `Tds`: of, length, count, span, trbs; `Trbs`: at most five TRBs in the value itself
//! - `transfer.rt`: `Transfer`, with room for what it reads; `MakeTransferError`, what it was to be made of
//! - `store.rt`: `Store`: insert, get, get_mut, remove, len
//! - `transfer_laws.rt`, specs/Vectors: the TRBs' lengths are those of `usb_model`; three requests worked out
//! - specs/ Refusal, Tds, Trbs, Store, LendsTransfer: the refusals in their order; length, empty packet and direction; the
//!   TRBs of a TD; the store, and what it is after a write through `get_mut`
//!
//! What the core keeps by handle, and by endpoint:
//!
//! - `callers.rt`, `caller.rt`, specs/HandleStates, HandleState: by handle, the number of its next transfer and its transfers that
//!   are in their callbacks; by its endpoints, how many results wait and how many transfers are in callbacks
//! - `by_endpoint.rt`, specs/ByEndpoint: a value for each endpoint of each device
//! - `outstanding.rt`, specs/Outstanding: by endpoint, the errand that is outstanding
//! - `flights.rt`, specs/TransfersInFlight: the transfers in flight, in the line of their endpoint, and those that ended and wait
//!   to be taken (libusb 1.0, `libusb_submit_transfer`)
//! - `lanes.rt`, `line.rt`, specs/Places: by endpoint, the keys of its transfers; each key has one place
//! - `ending.rt`: what came of a transfer
//!
//! # Contracts
//!
//! - `ask`, `next_order`: over every kept endpoint with this errand outstanding: what `usb_model` does at an ask,
//!   and at the event of a transfer's end, is to order this and no more; where an errand is outstanding nothing is
//!   ordered (clause `one`)
//! - `settle`: over every kept endpoint whose line has these marks: what `usb_model` does at the end of the errand
//!   is this settlement. No more leave than the line has; asked transfers are withdrawn but after a Stop that failed
//!
//! Of errands it doesn't say: where an order stands in the command ring, nor what a withdrawn transfer's result is; both are in
//! `usb_model`'s endpoint, and the core's to do.
//!
//! - `Target::read`: what an event tells of the transfer at whose TRB it points, by one equation: the bytes of its
//!   TRBs before that one, and of that one without the residual; the status by code, ask, flags and length, or that
//!   there is no device; a pause by the code Stopped; stray where the residual is over its TRB's length.
//!   `Parts::deliver` reads by it
//! - `result`: the status is that of the definitions; and, read the other way, each status is given for just the ends
//!   that it stands for (clause `exact`)
//! - `Claims::open`, `close`, `claim`, `release`, clause `answer`: each answers Err(why) exactly where the first test
//!   of its list that holds says why, and else Ok
//! - the same, `devices`, `owners`, `configs`: after Ok devices and owners are those of the definitions'
//!   `claims_after` (Frees, Gains, Drops) at every device, interface and name; nothing else changes
//! - the same, `refused`: after Err nothing changed at all
//! - `Claims::holder`: for every setup of these configurations: the definitions' `holder`, at every device and every
//!   one of 256 addresses
//! - `Claims::held_at`: for all slots and ids: an endpoint that a name holds is found at its device + 1 and its id;
//!   what is found is such an endpoint, with its holder
//! - `Claims::holds`, `others_hold`, `owner`, `device_of`: whether i of h's device is h's; whether another holds an
//!   interface of a device; who holds an interface; what a name has open
//! - `Claims::new`, `into_configs`, `config`, `is_device`: at first nothing is open and nobody holds anything; the
//!   configurations come back as they came; a device is there exactly where the setup has it
//!
//! Of claims it doesn't say: whether endpoints are quiet, whether a device is gone (both are asked before the call), that an
//! owner has the device open, what a claim does to endpoints.
//!
//! - `check`, `check_at`: one equation each: the first refusal in its order, else the TDs of the request by the
//!   endpoint's packet size. `check` finds the endpoint, `check_at` is told kind and size
//! - `Tds::trbs`: the TRBs are those of the definition, each address, length, ISP, CH and IOC; their lengths are
//!   those that `usb_model` counts by; there is one at least, and as many as `count`
//! - `Tds::count`, `length`: how many TRBs, 1 to 5; how many bytes, at most 262,144
//! - `Tds::of`: the TDs of a request of at most 262,144 bytes, by one equation
//! - `Tds::span`: which bytes a TRB moves: how many stand before it, and its own length; no more than the transfer
//!   has
//! - `Transfer::new`: every field; no bytes, and room for just those of IN, in the caller's memory where that has just this room; it
//!   can't be refused where no room is needed; refused, request, payload and memory come back
//! - `Store::insert`, `remove`: the next key had nothing and has the transfer now; what stood at a key, where nothing
//!   stands then; each other key what it had. Refused, the transfer comes back and nothing changed
//! - `Store::get`, `get_mut`: what stands at the key; a write through `get_mut` changes that key alone
//! - `transfer_laws::lengths_are_kept`, `vectors`: the lengths are those of `usb_model`; the TRBs of three requests, computed
//!
//! Of transfers it doesn't say: that the line has a place, the device is there or a number is left, which the core tests before
//! and after; nor that buffers of two keys don't overlap, since nothing is found by an address.
//!
//! - `count_up`, `result_made`, `result_taken`, `put_callback`, `remove_callback`: the one look-up that changes, and
//!   that all others answer as before, for every handle, number and endpoint
//! - `reserve_callback`: there is room for one more callback, and no look-up changes, with memory or without
//! - `Outstanding::get`, `set`: the errand that is outstanding at an endpoint is the one that was set last
//! - `TransfersInFlight`: contracts see the lines of transfers and blanks, the keys of both, and those that ended. `push`, `end`,
//!   `leave`, `ask`, `pause`, `take`: the lines with their keys and the list of the ended, whole, behind the call
//! - `TransfersInFlight::ended_at`, `first_ended`: one of those that ended, by its place, and the first
//! - `TransfersInFlight::get_mut`: the item is what was last written through the loan, and nothing else changes
//! - invariant of `TransfersInFlight`: each key of the store stands at exactly one place, and no other does; there is room for
//!   each transfer to end
//!
//! Of lines it doesn't say: which there may be, nor when a transfer ends. there may be, nor when a transfer ends.
#![tactic(auto)]

mod by_endpoint;
mod caller;
mod callers;
mod claims;
mod ended;
mod ending;
mod endpoint_table;
mod flights;
mod held;
mod lanes;
mod line;
mod open_table;
mod order;
mod outstanding;
mod owner_table;
mod refusal;
mod status;
mod store;
mod target;
mod tds;
mod transfer;
pub mod transfer_laws;
mod trbs;

pub use callers::HandleStates;
pub use claims::Claims;
pub use ended::{Mark, Settlement, settle};
pub use ending::{EndedTransfer, Ending};
pub use flights::TransfersInFlight;
pub use held::HeldEndpoint;
pub use order::{ask, next_order};
pub use outstanding::{Outstanding, Sent};
pub use refusal::{check, check_at};
pub use status::result;
pub use store::Store;
pub use target::{Reading, Target};
pub use tds::{Span, Tds};
pub use transfer::{MakeTransferError, Transfer};
pub use trbs::Trbs;
