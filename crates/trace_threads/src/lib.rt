//! A plan in threads, as a promise: what its callbacks may be told, what is left unfinished, and who performs it (`Performer`).
//!
//! The one promise: what a performance gives is what the callbacks were told in a run in which each handle's lines stand, in their order, all of it,
//! by handle and number; and what wasn't finished where that run ends. In that run each callback answers by its handle's rules.
//!
//! # Files
//!
//! - `performance.rt`: what came of a plan, and the trait of who performs plans; who performs none
//! - specs/Callbacks, Unfinished, AtRest: what callbacks were told, sorted; what never completed; that nothing is left to be done
//! - specs/Calls: which calls a run has
//! - specs/Verdicts: the submissions of a plan with their rules, and why a verdict may be told
//!
//! # Contracts
//!
//! - `perform` of `Performer`, where it is `ready`: what it gives is what callbacks were told in a run of the definitions over the devices,
//!   all of it and nothing else, by handle and number (`AreCallbacks`); in that run stand the plan's calls, each handle's in order and no
//!   others, and beside them only what workers do (`HasCalls`); each verdict in it is told behind what its callback was told, and is what the
//!   rule of one of the handle's submissions answers to that; or it is Stop, where more than `rounds` callbacks were told something, or where
//!   the resubmission that a verdict asked for was refused (`AreToldSo`); and, of the world where it ends, all that handles hadn't finished
//!   of their transfers (`unfinished_in`), where nothing is left to be done (`IsAtRest`): no packet, order, event, result or callback
#![tactic(auto)]

mod performance;

pub use performance::{Nobody, Performance, Performer};
