//! When the controller holds what the core keeps: an endpoint with its device's and its ring (`endpoint_laws`), and all
//! slots with the orders and events that wait (`laws`).
//!
//! The one promise: each packet, order and piece of the host's work leaves it so.
//!
//! # Files
//!
//! - specs/ Line: a transfer's TRBs, or as many No Ops; a ring that holds a line, up to the enqueue place, with its
//!   dequeue pointer at a place
//! - specs/ Endpoint: a context that is a kept endpoint's; a device's endpoint that is
//! - specs/ Reports: an event of the event ring for what `usb_model` tells; a reply for what the controller tells of a
//!   packet
//! - specs/ EndpointLaws: the statements of the nine laws of `endpoint_laws.rt`
//! - specs/ Holds: an endpoint of a slot, with a ring or without; a slot; an order and an event as their TRBs; the
//!   whole
//! - specs/ Made: a controller that was made of the devices of a setup, whatever was done with it; a device as it was
//!   read
//! - specs/ Laws: the statements of the eleven laws of `laws.rt`
//!
//! # Contracts
//!
//! Premise of each but `made`: the context, its ring and the device's endpoint are a kept endpoint (docs/MODEL.md,
//! The controller's endpoint and the kept one).
//!
//! - `serves`: nothing is served just where `usb_model` serves nothing. Else the TRB at dequeue is that of the
//!   transfer where the kept endpoint stands; what is told is its reply, the event its telling, and context and
//!   device are again the kept endpoint's; the bytes that come are those that it reads, and for each packet there is
//!   room in the request's length, behind what moved, and in the transfer's buffer. Premise: while it runs it stands
//!   at a transfer in progress, or at the line's end
//! - `carries`: Stop Endpoint, Reset Endpoint and Set TR Dequeue Pointer: the code is that of the kept endpoint's
//!   success or failure, the events with the completion are its tellings, and the context is its context. Premise:
//!   the same; the order is the errand's, its pointer the place behind the line's blanks
//! - `pushes`: the TRBs of a request behind the others are the transfer that joined. Premise: they fit; at most
//!   262,144 bytes
//! - `blanks`, `drops`: an item of No Ops is the transfer withdrawn; without its first items the ring has the line
//!   without these
//! - `rings`, `made`: a doorbell; an endpoint as it is configured is a new one, and so is a rewound device. Premise:
//!   not halted
//! - `keeps`: what changes no TRB of the line changes nothing here
//! - `finds`: a place's address is that of the item that has the place, and of its TRB there; an item's address; the
//!   places in use; as many items as transfers
//!
//! Premises of each: the controller holds what the core keeps (docs/MODEL.md, The whole controller and the core); but
//! for `posts`, `takes` and `unplugs`, the endpoint is one of a configuration, and addresses have bits 6 to 4 clear.
//!
//! - `serves`: what is told of a packet is the kept endpoint's reply; the controller then holds the core with that
//!   endpoint and with its events behind the others; the bytes that come are those that it reads. Premise: while it
//!   runs it stands at a transfer in progress, or at the line's end
//! - `runs`: the oldest order that runs is the core's, with the code of its success or failure; the controller holds
//!   the core behind it, with its events, its completion the last. Premise: the same; its errand is under way at the
//!   endpoint; the orders that wait are the last posted, fewer than 255
//! - `posts`: an order that is posted is the core's last, and its index is the number of those posted before, modulo
//!   255. Premise: it is the errand's TRB
//! - `takes`: without its oldest event the controller holds the core without it
//! - `hosts`: a push, a withdrawal, items that leave, a doorbell, an endpoint made new, the end of a halt, and what
//!   changes no TRB: the controller holds the core with that endpoint. Premise: as at one endpoint; for a withdrawal,
//!   items that leave and an endpoint made new: no order to go on elsewhere waits for it
//! - `unplugs`: a device is gone for both, and no other
//! - `adds`: the slot of a device as it is added is one of its configuration: the device's scripts, and a ring for
//!   each endpoint where transfers can go. Premise: its addresses are numbered and differ; the device takes packets
//!   of its endpoints' sizes
//! - `is_of`: the slots of a controller that holds a core are those of the core's setup, with its scripts
//! - `made`: a controller whose slots are those of a setup, whatever was done there, holds a new core once it is made
//!   new. Premise: the devices keep `Device`'s law
//! - `fine`, `lawful`: of devices whose configurations were read and that keep `Device`'s law, the setup meets the
//!   premises of `refine_world` and of these
//!
//! It doesn't say: what the core keeps in tables, or of its transfers; that there is room (`refine_world` does); nor
//! anything of worlds.
#![tactic(auto)]

pub mod endpoint_laws;
pub mod laws;
