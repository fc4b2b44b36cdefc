//! A plan that lives: the lines of each handle are made by a thread of its own, beside the two workers.
//!
//! The one promise: what it gives is what the callbacks were told in a run in which each handle's lines stand, in their order, all of it,
//! by handle and number; and what wasn't finished where that run ends. In that run each callback answers by its handle's rules.
//!
//! # Files
//!
//! - `performance.rt`: a plan from its devices to what its callbacks were told
//! - `handles.rt`, `queue.rt`, `line.rt`: each handle with its channel, and its thread; the channel; a line
//! - `planned.rt`: callbacks that answer by the rules of their handles' submissions
//! - `callbacks.rt`, `unfinished.rt`: what callbacks were told, out of a journal, and sorted; what never completed, out of the core
//! - specs/Lines: what lines say, and how they are dealt to their handles
//! - proofs/: Named, of the words of `trace_threads`; Queues, Driving, Dealing and Submissions, of one line more; Workers, of what workers make; Parts, Shares and CallsMade: the
//!   journal taken apart by its callers, of whom one at most makes a handle's calls; Telling and Verdicts: what the worker tells that handles
//!   events, place by place, and so in the journal
//!
//! # Contracts
//!
//! - `Live`, which performs plans in threads of a runtime: what it gives is what `Performer` of `trace_threads` promises (`IsPerformed`)
//!
//! The lines of each handle stand in a channel that is filled before its thread starts: one under a rule, whose only pass goes with it
//! into the thread and knows what is in it. What the workers do is passed over. The submissions of the plan are a name of a type
//! (`Planned`), which is made for each performance: so the type of a callback says that its rule is one of its handle's.
#![tactic(auto)]

mod callbacks;
mod handles;
mod line;
mod performance;
mod planned;
mod queue;
mod unfinished;

pub use performance::Live;
