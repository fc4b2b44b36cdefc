//! A transfer ring.

use crate::address::{behind, index_at};
use crate::counts::Counts;
use crate::size::{CAPACITY, PLACES};
use crate::window::{past_no_ops, write, write_no_ops};
use crate::{Segment, cycle, index, place_after, place_before};
use std::alloc::{AllocError, Global};
use std::marker::Model;
use usb_trb::{Normal, Pointer, Trb};

/// A ring of 128 TRBs, the last a Link to the first, and the line of the items whose TRBs stand in it (xHCI 1.2, 4.9.2).
/// Contracts see the line and the bytes.
///
/// # Places
///
/// TRBs are put at one place after another: index 0 to 126, and then 0 again. An item is a transfer's TRBs, which stand
/// behind one another. At most 126 places are in use: one stays free, since enqueue at dequeue means an empty ring.
///
/// # Links
///
/// Behind index 126 stands a Link to index 0, at which the cycle turns. It has the cycle bit of the TRB before it, and CH
/// where that TRB has CH, since the transfer goes on behind the Link then (xHCI 1.2, 4.11.5.1).
///
/// # Cycle
///
/// The cycle bit of a TRB is set in the first turn of the ring, clear in the second, and so on in turns. Each cell where a
/// TRB isn't put yet has the other cycle, so that the controller takes none of the turn before for new.
///
/// # Dequeue
///
/// The controller takes the TRB at dequeue, and passes it and the No Ops behind it. A TRB that it has passed goes on
/// belonging to its item until the item leaves the line. A TRB whose item left the line before goes on standing before the
/// controller, until dequeue has passed it or was moved.
///
/// # Blanks
///
/// The TRBs of an item that was withdrawn become No Ops where they stand. The item stays in the line until it is dropped
/// from its front, so no other item moves; a Link within it loses its CH.
///
/// ```text
///   index     0   1   2   3  ..  123 124 125 126 Link
///   TRB       b3  c   .   .   .   .   a   b1  b2         items: a; b, of three TRBs; c, the last
///   cycle     0   0   1   1   1   1   1   1   1   1
///   CH        0   0                   0   1   1   1      b goes on behind b1, b2 and the Link
///                     |               |   |
///                     enqueue         |   dequeue        a was passed; b stands before the controller
///                                     first item
/// ```
#[derive(Drop)]
pub struct TransferRing {
    /// How many places from dequeue to enqueue.
    left: usize,
    segment: Segment<PLACES>,
    /// Where the next TRB is put.
    enqueue: usize,
    counts: Counts,
    /// How many places from the first item to there.
    held: usize,
}

impl Model for TransferRing {
    ghost use Rattle.usb_rings.specs.View.{Ring, line_in, IsSound};

    ghost Value = { Ring };

    ghost view = { λ r. record { line = line_in r.segment r.enqueue r.left r.held r.counts; memory = r.segment } };

    ghost invariant = { λ r. IsSound r.segment r.enqueue r.left r.held r.counts };
}

ghost use Rattle.std.specs.Prelude.{◌≡◌, ◌*◌, ◌+◌, ◌-◌, ◌≤◌, ◌<◌, ◌^◌, ◌%◌, ℕ, true, false, IfOk, IfSome, nat_le, length, replicate, get_or, slice_get, take, []};
ghost use Rattle.usb_trb.specs.declared.kind.TrbKind.TheVariants.{NoOp};
ghost use Rattle.usb_rings.specs.Places.{after, index_of, cycle_of, address_of};
ghost use Rattle.usb_rings.specs.Memory.{puts};
ghost use Rattle.usb_rings.specs.Written.{kinds, AllKinds, IsWritten};
ghost use Rattle.usb_rings.specs.Line.{places, capacity, empty, used, contents, all_of, enqueue_of, place_behind, place_of, pushed, blanked, dropped, moved, advanced, moved_behind, front_of, ahead_of, normal_at, normals, no_ops, IsAt};
ghost use Rattle.usb_rings.specs.View.{made, back, total, IsRing, Holds};

impl TransferRing {
    /// An empty ring, whose first TRB has this address; its 2,048 bytes lie within 64 bits. No other call takes memory.
    pub fn new(alloc: Global, base: Pointer) -> Result<TransferRing, AllocError>
        requires { base + 2048 ≤ 2 ^ 64 }
        ensures line { IfOk result (λ r. r.line ≡ empty base) }
        ensures memory { IfOk result (λ r. r.memory ≡ made base) }
    {
        Ok(TransferRing {
            segment: Segment::with_link(alloc, base)?,
            enqueue: 0,
            left: 0,
            held: 0,
            counts: Counts::new(alloc)?,
        })
    }

    /// How many places are in use.
    fn used(&self) -> usize
        ensures value { result ≡ used self.now.line }
        ensures below { result ≤ capacity }
    {
        if self.left < self.held {
            self.held
        } else {
            self.left
        }
    }

    /// Whether so many TRBs more fit.
    pub fn fits(&self, count: usize) -> bool
        ensures { result ≡ nat_le (used self.now.line + count) capacity }
    {
        count <= CAPACITY - self.used()
    }

    /// How many items there are.
    pub fn len(&self) -> usize
        ensures { result ≡ length self.now.line.items }
    {
        self.counts.len()
    }

    /// Puts a transfer's TRBs behind all others, as one item. Each gets the cycle of its place.
    pub fn push(&mut self, trbs: &[Normal])
        requires some { 0 < length trbs.now }
        requires room { used self.old.line + length trbs.now ≤ capacity }
        ensures line { self.new.line ≡ pushed self.old.line (normals trbs.now) }
        ensures memory { self.new.memory ≡ puts places self.old.memory (enqueue_of self.old.line) (normals trbs.now) }
    {
        let count = trbs.len();
        self.enqueue = write(&mut self.segment, self.enqueue, trbs);
        self.left += count;
        self.held += count;
        self.counts.push(count as u8);
    }

    /// The TRB at dequeue, with its address; None where none is left.
    pub fn front(&self) -> Option<(Pointer, Trb)>
        ensures value { result ≡ front_of self.now.line }
        ensures left { IfSome result (λ _. 0 < length (contents self.now.line)) }
    {
        if self.left == 0 {
            return None;
        }
        let place = place_before::<PLACES>(self.enqueue, self.left);
        match self.segment.read(place) {
            Ok(trb) => Some((self.segment.address(index::<PLACES>(place)), trb)),
            Err(_) => None,
        }
    }

    /// What the TRB so many behind dequeue says, with its address, where it is a Normal one; None where another stands there, or
    /// there are no more. Inlined, and read without a `Trb`: it is read twice for each packet.
    #[inline(always)]
    pub fn ahead(&self, count: usize) -> Option<(Pointer, Normal)>
        ensures value { result ≡ normal_at (ahead_of self.now.line count) }
        ensures left { IfSome result (λ _. count < length (contents self.now.line)) }
        ensures below { IfSome result (λ _. count < capacity) }
    {
        if self.left <= count {
            return None;
        }
        let place = place_before::<PLACES>(self.enqueue, self.left - count);
        match self.segment.read_normal(place) {
            Some(trb) => Some((self.segment.address(index::<PLACES>(place)), trb)),
            None => None,
        }
    }

    /// Dequeue goes past its TRB, and past the No Ops behind it (xHCI 1.2, 4.9.2).
    pub fn advance(&mut self)
        requires { 0 < length (contents self.old.line) }
        ensures line { self.new.line ≡ advanced self.old.line }
        ensures memory { self.new.memory ≡ self.old.memory }
    {
        self.left = past_no_ops(&self.segment, self.enqueue, self.left - 1);
    }

    /// Dequeue goes past so many TRBs, at most those before the controller. A No Op behind them isn't passed.
    pub fn pass(&mut self, count: usize)
        requires { count ≤ length (contents self.old.line) }
        ensures line { self.new.line ≡ moved self.old.line count }
        ensures memory { self.new.memory ≡ self.old.memory }
    {
        self.left -= count;
    }

    /// The first items leave the line. What the controller hasn't passed of them goes on standing before it.
    pub fn drop_front(&mut self, count: usize)
        requires { count ≤ length self.old.line.items }
        ensures line { self.new.line ≡ dropped self.old.line count }
        ensures memory { self.new.memory ≡ self.old.memory }
    {
        self.held -= self.counts.before(count);
        self.counts.drop_front(count);
    }

    /// What a Set TR Dequeue Pointer command is given to go to the first TRB of an item, or to enqueue behind the last: the
    /// address, and the cycle there (xHCI 1.2, 4.6.10 and 6.4.3.9).
    pub fn pointer_to(&self, item: usize) -> (Pointer, bool)
        requires { item ≤ length self.now.line.items }
        ensures { result ≡ (address_of places self.now.line.base (place_of self.now.line item), cycle_of places (place_of self.now.line item)) }
    {
        let left = self.held - self.counts.before(item);
        let place = place_before::<PLACES>(self.enqueue, left);
        (
            self.segment.address(index::<PLACES>(place)),
            cycle::<PLACES>(place),
        )
    }

    /// Dequeue goes to the TRB of an item at this address, or to enqueue (Set TR Dequeue Pointer; xHCI 1.2, 4.6.10). False,
    /// and nothing changes, where the address is neither, as that of a TRB that belongs to no item, or of the Link.
    pub fn set_dequeue(&mut self, pointer: Pointer) -> bool
        ensures found { (n : ℕ) → n ≤ length (all_of self.old.line.items) → pointer ≡ address_of places self.old.line.base (place_behind self.old.line n) → (result ≡ true) × (self.new.line ≡ moved_behind self.old.line n) }
        ensures known { result ≡ true → (n : ℕ) × (n ≤ length (all_of self.old.line.items)) × (pointer ≡ address_of places self.old.line.base (place_behind self.old.line n)) }
        ensures absent { result ≡ false → self.new ≡ self.old }
        ensures memory { self.new.memory ≡ self.old.memory }
    {
        let Some(ahead) = self.behind_first(pointer.address()) else {
            return false;
        };
        if self.held < ahead {
            return false;
        }
        self.left = self.held - ahead;
        true
    }

    /// Each TRB of an item becomes a No Op, with the cycle that it has.
    pub fn blank(&mut self, item: usize)
        requires { item < length self.old.line.items }
        ensures line { self.new.line ≡ blanked self.old.line item }
        ensures memory { self.new.memory ≡ puts places self.old.memory (place_of self.old.line item) (replicate (length (get_or self.old.line.items item [])) NoOp) }
    {
        let first = place_before::<PLACES>(self.enqueue, self.held);
        let place = place_after::<PLACES>(first, self.counts.before(item));
        let count = usize::from(self.counts.get(item));
        write_no_ops(&mut self.segment, place, count);
    }

    /// The item that has a TRB at this address; None where no item has one there, as at the Link.
    pub fn item_at(&self, pointer: u64) -> Option<usize>
        ensures found { (i j : ℕ) → IsAt self.now.line pointer i j → result ≡ Some i }
        ensures known { IfSome result (λ i. (j : ℕ) × IsAt self.now.line pointer i j) }
        // Two items share no address, nor do two TRBs of an item.
        ensures apart { (i j k l : ℕ) → IsAt self.now.line pointer i j → IsAt self.now.line pointer k l → (i ≡ k) × (j ≡ l) }
    {
        let (item, _) = self.place_at(pointer)?;
        Some(item)
    }

    /// The item that has a TRB at this address, and which of its TRBs that is, from 0 on; None where no item has one there,
    /// as at the Link.
    pub fn place_at(&self, pointer: u64) -> Option<(usize, usize)>
        ensures found { (i j : ℕ) → IsAt self.now.line pointer i j → result ≡ Some (i, j) }
        ensures known { IfSome result (λ x. IsAt self.now.line pointer x.0 x.1) }
        ensures below { IfSome result (λ x. x.0 < length self.now.line.items) }
    {
        let counts = &self.counts;
        let ahead = self.behind_first(pointer)?;
        counts.holder(ahead)
    }

    /// How many places behind the first item's first TRB the place of this address stands, 0 to 126; None where no place has
    /// it, as at the Link.
    fn behind_first(&self, pointer: u64) -> Option<usize>
        ensures found { (n : ℕ) → n < 127 → pointer ≡ address_of places self.now.line.base (place_behind self.now.line n) → result ≡ Some n }
        ensures known { IfSome result (λ n. (n < 127) × (pointer ≡ address_of places self.now.line.base (place_behind self.now.line n))) }
    {
        let first = index::<PLACES>(place_before::<PLACES>(self.enqueue, self.held));
        let at = index_at(self.segment.base(), pointer)?;
        Some(behind(first, at))
    }

    /// All is as after `new`.
    pub fn renew(&mut self)
        ensures line { self.new.line ≡ empty self.old.line.base }
        ensures memory { self.new.memory ≡ made self.old.line.base }
    {
        self.segment.clear();
        self.counts.clear();
        self.enqueue = 0;
        self.left = 0;
        self.held = 0;
    }

    /// The sixteen bytes at an index of memory, of which 127 is the Link; None past the last.
    pub fn bytes_at(&self, index: usize) -> Option<[u8; 16]>
        ensures bytes { result ≡ slice_get self.now.memory.cells index }
        ensures ring { IsRing self.now }
    {
        self.segment.bytes_at(index)
    }

    /// Where the next TRB is put: its index, 0 to 126, and its cycle.
    pub fn enqueue(&self) -> (usize, bool)
        ensures { result ≡ (index_of places (enqueue_of self.now.line), cycle_of places (enqueue_of self.now.line)) }
    {
        (index::<PLACES>(self.enqueue), cycle::<PLACES>(self.enqueue))
    }
}
