//! When the parts in which the core keeps its state show a world, and what each piece of work on them makes of it.
//!
//! The one promise: the parts stand for one core of lists, item by item, and each piece of work leaves them so.
//!
//! # Files
//!
//! - specs/ State: the parts; when they keep a core (`Keeps`), and when they show a world; that each TRB has the
//!   buffer of its own transfer (`NameBuffers`)
//! - specs/ Works: pieces of work, each by what it makes of every core that the parts keep
//! - specs/ Steps: a step, and steps in a row, by what they make of every core that the parts keep and that shows a
//!   world; what steps are made of
//! - specs/ Calls, Submissions, Handles, Deliveries: the same for results and callbacks, submissions, the calls of
//!   handles, and events
//! - specs/ Made: devices that are set up, and parts that are unused
//! - specs/ Feeds, Offers: a device is fed; the packet that is next at an endpoint
//! - specs/ Payloads: what callers keep with the transfers in flight
//! - specs/ Laws: the statements of the laws of `laws.rt`
//!
//! # Contracts
//!
//! Premises of each: the parts keep the core, and a name holds the endpoint; laws hold for every payload. What is
//! kept says too (`NameBuffers`): item by item, the TRBs of a transfer that isn't withdrawn have the buffer of the
//! key under which that very transfer is stored; and an order of Set TR Dequeue Pointer has the cycle of its place
//! (refine_rings, `IsPosted`). So a core whose TRBs all named one buffer would be refused, though nothing is read
//! or written by these addresses.
//!
//! - `posts`, `resumes`: an errand that is ordered is the core's; one that ended with a doorbell too. Premise: the
//!   endpoint has a ring; not halted
//! - `leaves`, `finishes`, `withdraws`: items leave, a transfer ends with its result, one is withdrawn: in the parts
//!   as in the core. Premise: no order to go on elsewhere waits for it
//! - `pauses`, `asks`, `starts`: a pause is told, an ask is kept, a transfer joins its line: in the parts as in the
//!   core. Premise: for `starts` there is room in the ring
//! - `can_serve`: of the item where the controller works one packet can be served: room for it, or its bytes, are
//!   there. Premise: the core shows a world
//! - `moves`: a packet is the core's: its reply, its event, and the core behind it. Premise: the same
//! - `can_skim`, `skims`: whole packets in a row of that item: room for the rest of it, or the bytes of its TRB, are
//!   there; each is the core's packet, with its reply, and the parts behind the last keep the core behind it. Premise
//!   of `skims`: each is told as moved with the same bytes
//! - `turns`: a step that does what the core of lists does is the world's turn: its entry is the world's, and the
//!   parts then show the next world
//! - `joins`, `runs`: steps in a row and steps behind them are one row; a row of the core's steps are the world's turns,
//!   one behind another
//!
//! - `feeds`, `feeds_feedable`, `feeds_only_feedable`: parts that are fed show the world of the longer scripts where it
//!   stands; which answers an endpoint may have. Premise: the parts show a world
//! - `offers`: what the controller makes next of the transfer where it works is the packet that is next in the world
//!   (`IsNext`): of the first transfer that waits, the bytes behind those that moved, at most a packet's. Premise: the
//!   same
//!
//! Lemmas of its proofs/ are cited by `usb_core`: a step in code is the core's, case by case.
#![tactic(auto)]

pub mod laws;
