//! The rings of a controller in memory that it shares with the host (xHCI 1.2, 4.9): segments of TRBs, and on them the transfer ring,
//! the command ring and the event ring.
//!
//! The one promise: a ring is the list of what waits in it, each call changes that list by one equation, and what the controller
//! reads from the bytes are the TRBs of that list.
//!
//! # Files
//!
//! One segment of a ring's memory: the cells of its TRBs, and behind them a Link or none:
//!
//! - `segment.rt`: `Segment<N>`: the cells of N TRBs, 1 to 4,096, and a Link behind them or none; put, read,
//!   read_normal, cycle_at, is_no_op, bytes_at, address, clear
//! - `place.rt`: places over two turns: the place so many behind or before, its index, its cycle
//! - specs/ Places, Memory: the same in words; cells, what is written at a place, cells as they are made
//! - specs/ Written: for crates above: which TRBs still stand (`IsWritten`), which cycles stand ahead of enqueue
//!   (`IsTurned`), what the Link has (`IsLinked`), both with the cells in `IsMemory`
//! - proofs/ Places: what is said of places over any width; all else stands on it
//! - proofs/ Cells, Puts, Over: what a write leaves: one; those at enqueue; those over TRBs in use
//! - proofs/ Lists, Fresh, Types: lists of what stands at places; a segment as it is made; what is read of a cell
//!
//! The command ring and the event ring:
//!
//! - `event_ring.rt`: `Ring<N>`: len, room, post, take, bytes_at, address
//! - `made.rt`: `CommandRing`, `EventRing`: where they lie, how they are made
//! - `event_laws.rt`, specs/Chain: the Link of a ring to which nothing with CH was posted has none
//! - specs/Ring: the record that contracts see, and what is read of its bytes (`IsRing`)
//! - proofs/ Between, Rings, Chain: how many places stand between two; posts and takes; the law
//!
//! Transfer rings: the line of an endpoint's transfers:
//!
//! - `transfer_ring.rt`: `TransferRing`: push, fits, len; front, ahead, advance, pass; pointer_to, set_dequeue; blank,
//!   drop_front; item_at, place_at; renew; bytes_at, enqueue
//! - `transfer_laws.rt`: the pointer to an item leads to its first TRB
//! - `counts.rt`: how many TRBs each item has, which item a TRB belongs to
//! - `window.rt`: TRBs behind one another: written, made No Ops, passed where they are No Ops
//! - `address.rt`, `size.rt`: which place an address names; 127 places, of which 126 are used at most
//! - specs/ Line, View: the line and its changes; the line that stands in memory, and what is read of it (`IsRing`)
//! - proofs/ Totals, ItemsTrbs: sums of counts; items' TRBs behind one another
//! - proofs/ Views, Changes: what the fields say of the line; push and advance, and drop, move, blank
//! - proofs/ Holders, Readable, MadeRing, Writes: which item has an address; what the controller reads; a new ring; the
//!   loops that write
//!
//! # Contracts
//!
//! - `Segment`: `put`, `read`, `read_normal`, `cycle_at`, `is_no_op`, `bytes_at`, `clear`, for any number of places
//!   from 1 to 4,096: a write changes the cell of its place, and behind the last place the Link (same cycle, CH where
//!   the TRB has it), and nothing else; what stands at a place is read back
//!
//! - `Ring`: `post`, `take`, `room`, `address`: a list: `post` puts behind and gives the index, `take` gives the
//!   first with its index, None just where nothing waits, and then nothing has changed; 254 commands or 4,095 events
//!   fit
//! - `Ring::len`: how many TRBs wait
//! - `bytes_at` of these: as of a transfer ring; the event ring has no Link
//! - `Ring::renew`: the ring is as it was made: nothing waits, nothing was posted, and the bytes are those of no turn
//! - `event_laws::a_link_behind_commands_has_no_chain_bit`: the Link of a ring to which nothing with CH was
//!   posted has none
//!
//! - `TransferRing`: `push`, `blank`, `drop_front`, `advance`, `pass`, `renew`: each is one equation of the line of
//!   items, and one of the bytes. `push` takes Normal TRBs alone, by its type, and asks that they fit
//! - `front`, `ahead`, `fits`, `len`, `enqueue`: what the line says: the TRB at dequeue, and what the TRB so many
//!   behind it says if it is a Normal one, each with its address; whether so many more fit beside 126; the number of
//!   items; index and cycle of the next place
//! - `item_at`: the item that has a TRB at this address, None just where none has; two items share no address, nor do
//!   two TRBs of one
//! - `place_at`: the same, and which of its TRBs stands there
//! - `set_dequeue`: dequeue goes to the TRB of an item at this address, or to enqueue; false just where the address
//!   is neither, and then nothing has changed; the bytes stay
//! - `pointer_to`, `transfer_laws::a_pointer_to_an_item_leads_there`: address and cycle of an item's first TRB, or of enqueue;
//!   `set_dequeue` by that address goes to that item
//! - `bytes_at` of a transfer ring: memory's bytes; and from dequeue on they are the TRBs of the line, each with its
//!   place's cycle, the cell of enqueue has the other cycle, and the Link has base, Toggle Cycle, that other cycle,
//!   and CH where the TRB before it has
//!
//! Only what makes a ring takes memory, by the types: the other calls answer no want of it. That `take` goes by the
//! cycle bit, and the figures of docs/BENCH.md, are no matter of a contract.
#![tactic(auto)]

mod address;
mod counts;
pub mod event_laws;
mod event_ring;
mod made;
mod place;
mod segment;
mod size;
pub mod transfer_laws;
mod transfer_ring;
mod window;

pub use event_ring::Ring;
pub use made::{COMMAND_BASE, CommandRing, EVENT_BASE, EventRing};
pub use place::{cycle, index, place_after, place_before};
pub use segment::Segment;
pub use size::CAPACITY;
pub use transfer_ring::TransferRing;
