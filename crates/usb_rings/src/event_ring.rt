//! A ring that one side posts to and the other takes from.

use crate::{Segment, cycle, index, place_after};
use std::marker::Model;
use usb_trb::{Pointer, TrbKind};

/// A ring of `N` places. Contracts see how many TRBs were posted, the list of those that wait, and the bytes.
///
/// # Places
///
/// TRBs are put at one place after another. A place is counted over two turns, 0 to `2 * N - 1`: its index in memory is its
/// rest by `N`, its cycle is true in the first turn and false in the second (xHCI 1.2, 4.9.2).
///
/// # Links
///
/// The command ring's last TRB is a Link to its first, with Toggle Cycle (xHCI 1.2, 4.9.3). It gets the cycle of each TRB at
/// the index before it, and that one's CH; a command has no CH, so neither has the Link. The event ring has none: a consumer
/// goes from its last index to its first by itself, and turns its cycle state there (xHCI 1.2, 4.9.4).
///
/// # Cycle
///
/// The cell at enqueue has the cycle of the turn before. So has each cell behind it, as far as dequeue.
///
/// # Dequeue
///
/// `take` reads the cell at dequeue. Its TRB is new where its cycle bit is the consumer's cycle state, which is the cycle of
/// that place; nothing else tells whether something waits, and nothing is kept of a TRB but its bytes.
///
/// # Room
///
/// One place stays free, so `N - 1` TRBs fit at once: 254 commands, 4,095 events. So a producer that sees only the consumer's
/// index can tell a full ring from an empty one (xHCI 1.2, 4.9.2 and 4.9.4).
///
/// ```text
///   index    0   1   2   3   4   5   6   Link    9 TRBs were posted, and 5 taken:
///   TRB      7   8   2   3   4   5   6           7 and 8 stand over 0 and 1
///   cycle    0   0   1   1   1   1   1   1
///                    ^           ^
///           enqueue: place 9    dequeue: place 5, where the cycle state is 1
/// ```
#[derive(Drop)]
pub struct Ring<const N: usize> {
    segment: Segment<N>,
    /// Where the next TRB is put.
    enqueue: usize,
    /// Where the next TRB is taken.
    dequeue: usize,
}

impl<const N: usize> Model for Ring<N> {
    ghost use Rattle.usb_rings.specs.Ring.{Ring as Line, ring_in, IsSound};

    ghost Value = { Line };

    ghost view = { λ r. ring_in N r.segment r.enqueue r.dequeue };

    ghost invariant = { λ r. IsSound N r.segment r.enqueue r.dequeue };
}

ghost use Rattle.std.specs.Prelude.{◌≡◌, ◌+◌, ◌-◌, ◌*◌, ◌<◌, ◌≤◌, ◌↔◌, length, [], ◌∷◌, ◌++◌, IsNone, IfSome, IfNone, slice_get};
ghost use Rattle.usb_rings.specs.Places.{after, index_of, IsWidth};
ghost use Rattle.usb_rings.specs.Memory.{put, cleared};
ghost use Rattle.usb_rings.specs.Written.{IsMemory};
ghost use Rattle.usb_rings.specs.Ring.{empty, unused, capacity, between, dequeue_of, IsRing};

/// How many places from dequeue to enqueue.
fn waiting<const N: usize>(dequeue: usize, enqueue: usize) -> usize
    requires width { IsWidth N }
    requires dequeue { dequeue < N + N }
    requires enqueue { enqueue < N + N }
    ensures { result ≡ between N dequeue enqueue }
{
    if dequeue <= enqueue {
        enqueue - dequeue
    } else {
        enqueue + (N + N) - dequeue
    }
}

impl<const N: usize> Ring<N> {
    /// A ring over a segment that was just made.
    pub(crate) fn over(segment: Segment<N>) -> Ring<N>
        requires width { IsWidth N }
        requires made { IsMemory N segment 0 }
        ensures { result ≡ unused segment.entry }
    {
        Ring {
            segment,
            enqueue: 0,
            dequeue: 0,
        }
    }

    /// How many TRBs wait, 0 to `N - 1`.
    pub fn len(&self) -> usize
        ensures value { result ≡ length self.now.waits }
        ensures most { result ≤ capacity N }
    {
        waiting::<N>(self.dequeue, self.enqueue)
    }

    /// How many TRBs more fit, 0 to `N - 1`.
    pub fn room(&self) -> usize
        ensures { result ≡ capacity N - length self.now.waits }
    {
        let waiting = waiting::<N>(self.dequeue, self.enqueue);
        N - 1 - waiting
    }

    /// Puts a TRB behind all that wait, and gives the index of its place. Commands are posted to the command ring, events
    /// to the event ring.
    pub fn post(&mut self, kind: TrbKind) -> usize
        requires { length self.old.waits < capacity N }
        ensures index { result ≡ index_of N self.old.posted }
        ensures list { (self.new.posted ≡ after N self.old.posted 1) × (self.new.waits ≡ self.old.waits ++ kind ∷ []) }
        ensures memory { self.new.memory ≡ put N self.old.memory self.old.posted kind }
    {
        let at = self.enqueue;
        let next = place_after::<N>(at, 1);
        self.segment.put(at, kind);
        self.enqueue = next;
        index::<N>(at)
    }

    /// Takes the first TRB that waits, with the index of its place; None where none waits. Inlined, so that a TRB is built where
    /// its fields are used.
    #[inline(always)]
    pub fn take(&mut self) -> Option<(usize, TrbKind)>
        ensures empty { IsNone result ↔ (self.old.waits ≡ []) }
        ensures first { IfSome result (λ r. (self.old.waits ≡ r.1 ∷ self.new.waits) × (r.0 ≡ index_of N (dequeue_of N self.old))) }
        ensures same { ((self.new.posted ≡ self.old.posted) × (self.new.memory ≡ self.old.memory)) × IfNone result (self.new ≡ self.old) }
    {
        let at = self.dequeue;
        if self.segment.cycle_at(at) != cycle::<N>(at) {
            return None;
        }
        match self.segment.read(at) {
            Ok(trb) => {
                let next = place_after::<N>(at, 1);
                self.dequeue = next;
                Some((index::<N>(at), trb.kind))
            }
            Err(_) => None,
        }
    }

    /// All is as when it was made: nothing waits, and nothing was posted. Takes no memory.
    pub fn renew(&mut self)
        ensures { self.new ≡ empty N (length self.old.memory.cells) self.old.memory.base }
    {
        self.segment.clear();
        self.enqueue = 0;
        self.dequeue = 0;
    }

    /// The sixteen bytes at an index of memory; None past the last.
    pub fn bytes_at(&self, index: usize) -> Option<[u8; 16]>
        ensures bytes { result ≡ slice_get self.now.memory.cells index }
        ensures ring { IsRing N self.now }
    {
        self.segment.bytes_at(index)
    }

    /// The address of the TRB at an index, by which an order is named.
    pub fn address(&self, index: usize) -> Pointer
        requires { index < N }
        ensures { result ≡ self.now.memory.base + 16 * index }
    {
        self.segment.address(index)
    }
}
