//! What holds of the definitions of `usb_model`: of one step, and of every run.
//!
//! The one promise: what the definitions say of a step stands here once; and over any steps no transfer is lost or doubled, and what
//! is told of it is read off its share.
//!
//! # Files
//!
//! Of one step, or of one more answer:
//!
//! - Lists: counts, lists of which some are left out, one name's pieces of a shared list
//! - Handles: what a change does to each name's interfaces and endpoints; a turn of the world is a turn of its
//!   owner's machine, and nothing to others
//! - Shares: what an open share is, and what one more answer makes of it
//! - Cells: a table of 4 devices times 256 cells, read and written
//! - Work: what each kind of work does to a line, replies and moves; errands and what waits for them
//!
//! Of every run: the cut, the places, the bound, the callbacks:
//!
//! - Machines: what a step of a machine may do, once its refusals are passed
//! - Coherence: each kind of work keeps an endpoint and what waits for it fitting each other
//! - Places, Bound, Cut: the three laws, each led over every step, and then over every run
//! - Callbacks: each transfer is called back at most once, and in order
#![tactic(auto)]
