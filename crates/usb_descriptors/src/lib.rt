//! Configuration descriptors (USB 2.0, 9.6): what a device says of its interfaces and endpoints, read from
//! bytes that nobody vouches for.
//!
//! The one promise: `read_config` gives the configuration that the bytes describe, or the first fault in them.
//!
//! # Files
//!
//! - `piece.rt`, `descriptor.rt`: the cut of the bytes into descriptors; what one says by itself
//! - `reader.rt`, `read.rt`: what they say together; the whole
//! - `config.rt`, `fault.rt`: the tables of a configuration; what is wrong with one
//! - `laws.rt`: the cut is one, and the only one
//!
//! # Contracts
//!
//! - `read_config`: for every input, exactly the configuration that the bytes describe, or the first fault in them
//!   (`reading`, in specs/Grammar.antt, read off the whole list of descriptors, without a cursor). It is given no
//!   allocator
//! - `laws::pieces_are_the_cut`: that list is the cut of the bytes: joined, with what is left, they are the bytes;
//!   each is as long as it says and 2 bytes at least; each stands where those before it end; what is left begins no
//!   further one; and there is no other such cut
//! - `Config`'s invariant, told by `endpoints`: whatever it was read from: the addresses of its endpoints differ,
//!   have bits 6 to 4 as 0 and a number other than 0; a bulk or interrupt endpoint has a packet size of 1 to 1,024
//! - `interfaces`, `endpoints`, `interface_of`, `endpoint`: its lists, of at most 32 and 30; the interface, the kind
//!   and the packet size of the endpoint with just this address, None where there is none
//!
//! That an endpoint's interface is among the numbers of interfaces is no clause of its own.
#![tactic(auto)]

mod config;
mod descriptor;
mod fault;
pub mod laws;
mod piece;
mod read;
mod reader;

pub use config::Config;
pub use fault::DescFault;
pub use read::read_config;
