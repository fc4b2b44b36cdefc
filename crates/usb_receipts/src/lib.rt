//! A log: a list that only grows and exists in the proofs alone, on which the receipts of a journal stand (our own).
//!
//! The one promise: each place is appended once; a claim to a place goes on saying what stands there, and no two claims
//! have one place; a position goes on saying what the list began with, and whatever was entered for its bearer.
//!
//! # Files
//!
//! - `log.rt`: `Log<E>`: open, position, enter, look, remember, look_behind, take_in, take_back, check
//! - `borne.rt`: `Borne`: an entry names its bearer
//! - `tokens.rt`: `Keeper`, `Claim`, `Position`, `Past`, which have no bytes
//! - `rule.rt`, specs/Rule: what tokens know of the list, and what always holds of all of them
//! - `seats.rt`: the steps of tokens, in terms of what each knows
//! - `image.rt`: `Image<T>`: a value that clauses alone read, which crosses threads whatever it is
//! - specs/Tokens: what contracts see of the four tokens
//! - proofs/ Moves: each step keeps the rule
//!
//! # Contracts
//!
//! - `Log::open`: the keeper is of this log, its list is empty, and no claim is taken in
//! - `Log::position`: a position at the list's end, under the next number, for which nothing was entered
//! - `Log::enter`: the entry, which names the position's number, stands behind the list, which is otherwise as it was; the
//!   claim is to that place, with that entry; the position stands behind it. The list had begun with what was seen there
//!   before, and nothing was entered for that number since
//! - `Log::look`: the position stands at the list's end, and the same is told of what it knew
//! - `Log::remember`: a `Past` of what was seen for a position, which is left as it was. Any number of them may be made
//! - `Log::look_behind`: as `look`, and the list begins with what was seen once, whoever saw it: with all of it, however much that is
//! - `Log::take_in`, `take_back`: the keeper has the claim, or the position, and everything else as it was; it is given up
//! - `Log::check`: the list has at the place of each claim that was taken in what the claim says, and no two of them have
//!   one place; each position that was taken in knew a beginning of the list and all that was entered for its number, and
//!   no two have one number
//!
//! A log is told an entry by a reference and keeps none: no value holds the list. The list, the claims and the positions
//! are what contracts see of tokens that have no bytes.
#![tactic(auto)]

mod borne;
mod image;
mod log;
mod rule;
mod seats;
mod tokens;

pub use borne::Borne;
pub use image::Image;
pub use log::Log;
pub use tokens::{Claim, Keeper, Past, Position};
