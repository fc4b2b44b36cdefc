//! The memory of a segment.

ghost use Rattle.std.specs.Prelude.{◌≡◌, ◌==◌, ◌+◌, ◌*◌, ◌≤◌, ◌<◌, ◌^◌, suc, IfOk, IfSome, Ok, Some, slice_get, length};
ghost use Rattle.usb_trb.specs.Words.{trb_bytes, IsTrb, IsKind};
ghost use Rattle.usb_trb.specs.Read.{as_normal, cycle_in, type_in, is_no_op};
ghost use Rattle.usb_trb.specs.declared.trb.Trb.{Trb};
ghost use Rattle.usb_rings.specs.Places.{IsWidth};

use crate::place::{cycle, index};
use std::alloc::{AllocError, Global};
use std::marker::Model;
use usb_trb::{Normal, Pointer, Trb, TrbKind, Unknown, decode, decode_normal, encode};

/// The cells of `N` TRBs of 16 bytes, 1 to 4,096, and behind them that of a Link to the first, or none. Contracts see the
/// base address and the bytes of the cells.
///
/// # Places
///
/// TRBs are put at one place after another. A place is counted over two turns, 0 to `2 * N - 1`: its index in memory is its
/// rest by `N`, its cycle is true in the first turn and false in the second (xHCI 1.2, 4.9.2).
///
/// # Links
///
/// With a Link, each TRB at the last index is followed by it: Toggle Cycle, the cycle of that TRB, and CH where the TRB has
/// it, since then the transfer goes on behind the Link (xHCI 1.2, 4.11.5.1). Without one a consumer goes back to the first
/// cell by itself, as it does in an event ring (xHCI 1.2, 4.9.4).
///
/// # Cycle
///
/// A cell that is to be written next has the cycle of the turn before, so a consumer doesn't take it for new.
///
/// ```text
///   index    0   1   2   3   4   Link    5 places and a Link, once 7 TRBs were put:
///   TRB      5   6   2   3   4           5 and 6 stand over 0 and 1
///   cycle    0   0   1   1   1   1
///                    ^ enqueue: place 7, where the next TRB gets cycle 0
/// ```
#[derive(Drop)]
pub struct Segment<const N: usize> {
    base: Pointer,
    cells: Vec<[u8; 16]>,
}

impl<const N: usize> Model for Segment<N> {
    ghost use Rattle.std.specs.Prelude.{length};
    ghost use Rattle.usb_rings.specs.Memory.{Memory, IsSegment};

    ghost Value = { Memory };

    ghost view = { λ s. record { base = s.base; cells = s.cells.items } };

    ghost invariant = { λ s. IsSegment N s.base (length s.cells.items) };
}

ghost use Rattle.usb_rings.specs.Memory.{cell, chain_of, link_at, cleared, put, IsSegment};

/// Whether the transfer goes on behind such a TRB.
fn is_chained(kind: &TrbKind) -> bool
    ensures { result ≡ chain_of kind.now }
{
    match kind {
        TrbKind::Normal(normal) => normal.chain,
        _ => false,
    }
}

/// The Link behind the last place.
fn link(base: Pointer, chain: bool, cycle: bool) -> [u8; 16]
    ensures { result ≡ trb_bytes (link_at base chain cycle) }
{
    encode(&Trb {
        kind: TrbKind::Link {
            segment: base,
            toggle: true,
            chain,
        },
        cycle,
    })
}

impl<const N: usize> Segment<N> {
    /// Zeros, and a Link behind them. Its cycle is that of a turn before the first.
    pub fn with_link(alloc: Global, base: Pointer) -> Result<Segment<N>, AllocError>
        requires width { IsWidth N }
        requires room { base + 16 * suc N ≤ 2 ^ 64 }
        ensures { IfOk result (λ s. s ≡ cleared N (suc N) base) }
    {
        let mut cells = vec![in alloc; [0; 16]; N + 1]?;
        cells[N] = link(base, false, false);
        Ok(Segment { base, cells })
    }

    /// Zeros, and no Link.
    pub fn without_link(alloc: Global, base: Pointer) -> Result<Segment<N>, AllocError>
        requires width { IsWidth N }
        requires room { base + 16 * N ≤ 2 ^ 64 }
        ensures { IfOk result (λ s. s ≡ cleared N N base) }
    {
        let cells = vec![in alloc; [0; 16]; N]?;
        Ok(Segment { base, cells })
    }

    /// The address of its first byte.
    pub fn base(&self) -> Pointer
        ensures { result ≡ self.now.base }
    {
        self.base
    }

    /// The address of the cell of an index.
    pub fn address(&self, index: usize) -> Pointer
        requires { index < N }
        ensures { result ≡ self.now.base + 16 * index }
    {
        Pointer::before(self.base.address() + 16 * index as u64)
    }

    /// All is as when it was made.
    pub fn clear(&mut self)
        ensures { self.new ≡ cleared N (length self.old.cells) self.old.base }
    {
        self.cells.fill([0; 16]);
        if N < self.cells.len() {
            self.cells[N] = link(self.base, false, false);
        }
    }

    /// Writes a TRB at a place, and behind the last place the Link.
    pub fn put(&mut self, place: usize, kind: TrbKind)
        requires { place < N + N }
        ensures put { self.new ≡ put N self.old place kind }
        ensures ranges { IsKind kind }
    {
        let at = index::<N>(place);
        let turn = cycle::<N>(place);
        self.cells[at] = encode(&Trb { kind, cycle: turn });
        if at + 1 == N && N < self.cells.len() {
            self.cells[N] = link(self.base, is_chained(&kind), turn);
        }
    }

    /// The TRB at a place; Unknown where none was written. Inlined, so that a TRB is built where its fields are used.
    #[inline(always)]
    pub fn read(&self, place: usize) -> Result<Trb, Unknown>
        requires { place < N + N }
        ensures known { IfOk result (λ t. IsTrb t × (trb_bytes t ≡ cell N self.now place)) }
        ensures found { (t : Trb) → IsTrb t → trb_bytes t ≡ cell N self.now place → result ≡ Ok t }
    {
        decode(&self.cells[index::<N>(place)])
    }

    /// What the Normal TRB at a place says; None where another TRB stands there, or none was written. Inlined, as `read` is.
    #[inline(always)]
    pub fn read_normal(&self, place: usize) -> Option<Normal>
        requires { place < N + N }
        ensures known { IfSome result (λ n. (t : Trb) × IsTrb t × (trb_bytes t ≡ cell N self.now place) × (as_normal t.kind ≡ Some n)) }
        ensures found { (t : Trb) → IsTrb t → trb_bytes t ≡ cell N self.now place → result ≡ as_normal t.kind }
    {
        decode_normal(&self.cells[index::<N>(place)])
    }

    /// The cycle bit of the TRB at a place.
    pub fn cycle_at(&self, place: usize) -> bool
        requires { place < N + N }
        ensures { result ≡ cycle_in (cell N self.now place) }
    {
        self.cells[index::<N>(place)][12] % 2 == 1
    }

    /// Whether a No Op stands at a place. Its type alone is read.
    pub fn is_no_op(&self, place: usize) -> bool
        requires { place < N + N }
        ensures read { result ≡ (type_in (cell N self.now place) == 8) }
        ensures told { (t : Trb) → IsTrb t → trb_bytes t ≡ cell N self.now place → result ≡ is_no_op t.kind }
    {
        usb_trb::is_no_op(&self.cells[index::<N>(place)])
    }

    /// The sixteen bytes at an index; None past the last.
    pub fn bytes_at(&self, index: usize) -> Option<[u8; 16]>
        ensures { result ≡ slice_get self.now.cells index }
    {
        self.cells.get(index).copied()
    }
}
