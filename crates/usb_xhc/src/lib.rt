//! The controller (xHCI 1.2, 4): it reads TRBs from transfer rings and the command ring, asks devices for packets, and
//! posts events. An endpoint of it has a state, a transfer ring, and how far the transfer at dequeue has come (4.6 to
//! 4.10).
//!
//! The one promise: each call is one equation over rings and devices: what a packet, an order or a doorbell does at its
//! endpoint, by the TRBs from dequeue on, while all others stay as they are.
//!
//! # Files
//!
//! - `controller.rt`: `Controller`: new, add, slot, into_slots; serve_in, serve_out, skim_in, skim_out; order,
//!   run_command, take_event; feed; ring_doorbell, renew, renew_all, push, blank, drop_front, clear_halt, unplug;
//!   orders_waiting, events_waiting, command_ring, event_ring
//! - `slot.rt`: `DeviceSlot`: a device, whether it is gone, and its endpoints by their ids; the calls above at one
//!   device, and context, ready, taken, answers_left, is_halted
//! - `renewal.rt`: a device, its contexts and all slots are made new, piece by piece
//! - `rings.rt`: a ring for each bulk or interrupt endpoint of a configuration
//! - `context.rt`: `EndpointContext`: state, ring, and how far the transfer at dequeue has come. What is ahead of
//!   dequeue: the transfer's first TRB, how far its bytes reach, where it stands some bytes on, how many whole packets
//!   its TRB has left. The host's: push, blank, drop_front, renew, ring_doorbell
//! - `transaction.rt`, `outcome.rt`, `packet.rt`: a packet: the bytes that it may have, what the device's act did, the
//!   event where the transfer ended; `PacketResult`, what is told
//! - `commands.rt`: Stop Endpoint with its pause, Reset Endpoint, Set TR Dequeue Pointer, and their codes
//! - `trb_at.rt`: a Normal TRB and its address
//! - specs/ Controller, Slots, Made: the whole; a device's slot; how it is made
//! - specs/ Ahead, Context, Transaction, Commands, Host: the TRBs of the transfer at dequeue; the endpoint; a
//!   packet; an order; what the host does
//! - specs/ NormalTrbs, Posts: a TRB as it is read from a ring; TRBs that are posted one behind another
//! - specs/ Skims: whole packets in a row, inside one TRB; proofs/ Skims, SlotSkims, ControllerSkims: at an endpoint, at
//!   its device's slot, and at the controller
//!
//! # Contracts
//!
//! - `Controller::serve_in`, `serve_out`, clause `packet`: None just where the device or the endpoint isn't there,
//!   the endpoint isn't running, or no transfer is ahead of dequeue; else what the device's answer did: not ready, so
//!   many bytes moved, or the end with its code, by the bytes that the TRBs from dequeue to IOC have left, and by an
//!   empty packet behind them
//! - the same, `controller`: one equation of the whole: the endpoint goes on by the bytes that moved (over TRBs,
//!   where they end amid a packet), halts where it stands, or goes past the transfer and the No Ops behind it; where
//!   the transfer ended, one event more: the address of the TRB where it stands, what of that TRB didn't move, the
//!   code, slot and id; the device has given one answer, and has the packet that was sent where it took it. Of a gone
//!   device: USB Transaction Error, halted, and the device as it was. All other endpoints, devices and orders stay
//! - `serve_in`, clause `bytes`; `serve_out`: the packet's bytes behind those that were read, where it fits; what is
//!   sent are the transfer's bytes from the TRB's place in its buffer on
//! - `skim_in`, `skim_out`: what so many packets in a row leave, each as `serve_in` or `serve_out` leaves one: the same
//!   slot, controller and bytes. Each moves a whole packet, and none ends its transfer: no event is posted. They are at
//!   most as many as asked for; none is always right
//! - `run_command`: None just where no order waits, and then nothing changed. Else the oldest order leaves, its
//!   endpoint is as the order says, and the completion is posted with the order's address, behind the event of a
//!   pause; the result is the order and that code. The endpoint's other fields, and all other endpoints, stay
//! - `order`, `take_event`: a TRB more in the command ring, with its index; the first event, None just where none
//!   waits
//! - `ring_doorbell`, `renew`, `push`, `blank`, `drop_front`, `clear_halt`, `unplug`: each is one equation at one
//!   endpoint, or one device, and nothing where there is none
//! - `Controller::renew_all`: each device is there, at the beginning of all its scripts, each endpoint is as it was
//!   configured, and the command and event rings are as they were made
//! - `Controller::new`, `add`: empty rings at their addresses; one slot more, with a ring for each bulk or interrupt
//!   endpoint; the device comes back, and nothing changed, where there are four or memory is refused
//! - `orders_waiting`, `events_waiting`: how many TRBs wait in the two rings
//! - `feed`: one more answer behind a device's script, and nothing else; refused, nothing changed
//! - `DeviceSlot::packet_room`, `next_packet`: how many bytes the packet may have that is next, and its bytes, before the
//!   device is asked; None just where there is nothing to serve
//! - `slot`, `into_slots`; `DeviceSlot`: `context`, `ready`, `taken`, `is_gone`, `into_device`; `EndpointContext`:
//!   `ring`, `state`, `slot`, `id`: what stands there
//!
//! Conditions: room for the events that a call may post (one, or two in `run_command`); items that `blank` and
//! `drop_front` name are there, and what is pushed fits. Where a transfer is served: the read's buffer has room for a
//! packet, the write's bytes reach as far as its TRBs say, and the endpoint's packets are no larger than the device
//! takes. That a core keeps all of these is what `refine_core` proves.
//!
//! It doesn't say: that the items of the ring are those of the core's transfers, or that a packet leaves what
//! `usb_model` says (`refine_rings` does); that there is always room for an event (each call that posts asks for
//! it), that an order names an endpoint that is there (another is answered with an error), when anything is served.
#![tactic(auto)]

mod commands;
mod context;
mod controller;
mod outcome;
mod packet;
mod renewal;
mod rings;
mod slot;
mod transaction;
mod trb_at;

pub use commands::{CONTEXT_STATE_ERROR, ENDPOINT_NOT_ENABLED_ERROR, TRB_ERROR};
pub use context::EndpointContext;
pub use controller::Controller;
pub use outcome::Reach;
pub use packet::PacketResult;
pub use slot::DeviceSlot;
pub use transaction::post;
pub use trb_at::TrbAt;
