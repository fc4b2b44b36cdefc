//! The TRBs of a transfer.

ghost use Rattle.std.specs.Prelude.{◌≡◌, ◌≤◌, ◌+◌, ◌<◌, ◌^◌, [], ◌∷◌, ◌++◌, length, not, true, false};
ghost use Rattle.usb_tables.specs.Tds.{lengths};
ghost use Rattle.usb_tables.specs.Trbs.{buffer_of, normals_at, normals_of, lengths_in, normal_at, td_at};
ghost use Rattle.usb_model.specs.Stands.{lengths_of};

use crate::tds::{PIECE, Tds};
use std::marker::Model;
use usb_trb::{Length, Normal};

/// How many TRBs a transfer has at most: four of 65,536 bytes, and one for an empty packet.
const MOST: usize = 5;

/// The TRBs of a transfer, 1 to 5, in the order of the ring. They lie in the value itself.
#[derive(Debug, Drop)]
pub struct Trbs {
    cells: [Normal; MOST],
    count: usize,
}

impl Model for Trbs {
    ghost use Rattle.std.specs.Prelude.{List, take, ◌≤◌, length};
    ghost use Rattle.usb_trb.specs.declared.kind.Normal.{Normal as NormalTrb};

    ghost Value = { List NormalTrb };

    ghost view = { λ t. take t.count t.cells };

    ghost invariant = { λ t. t.count ≤ 5 };
}

impl Tds {
    /// The TRBs, where the transfer has this key of the store. Each moves at most 65,536 bytes, from where those before
    /// end. IN tells a short packet at each (ISP); each but the last of its TD goes on in the next (CH); the end is told at
    /// the last of all alone (IOC; xHCI 1.2, 4.10.1, 4.11.3).
    pub fn trbs(self, key: usize) -> Trbs
        ensures value { result ≡ normals_of key self }
        ensures lengths { lengths_in result ≡ lengths self }
        ensures count { length result ≡ length (lengths self) }
        ensures some { 0 < length result }
    {
        let address = buffer_of(key);
        let length = self.length;
        if length <= PIECE && !self.extra {
            return Trbs::one(self.last(address, length, true));
        }
        self.several(address)
    }

    /// The TRBs, where there may be more than one.
    fn several(self, address: u64) -> Trbs
        requires { address + self.length < 2 ^ 64 }
        ensures { result ≡ normals_at address self }
    {
        let mut trbs = self.pieces(address);
        if self.extra {
            let end = address + u64::from(self.length);
            trbs.push(self.last(end, 0, true));
        }
        trbs
    }

    /// The TRBs of the bytes.
    fn pieces(self, address: u64) -> Trbs
        requires { address + self.length < 2 ^ 64 }
        ensures value { result ≡ td_at self.inward (not self.extra) address (lengths_of false self.length) }
        ensures most { length result ≤ 4 }
    {
        let mut left = self.length;
        let mut at = address;
        let mut trbs = Trbs::none(self.piece(address));
        while left > PIECE {
            trbs.push(self.piece(at));
            at += u64::from(PIECE);
            left -= PIECE;
        }
        trbs.push(self.last(at, left, !self.extra));
        trbs
    }

    /// A TRB of 65,536 bytes, behind which its TD goes on.
    fn piece(self, address: u64) -> Normal
        ensures { result ≡ normal_at self.inward true false address 65536 }
    {
        self.normal(address, PIECE, true, false)
    }

    /// The last TRB of a TD; whether the transfer ends with it.
    fn last(self, address: u64, bytes: u32, ends: bool) -> Normal
        requires { bytes ≤ 65536 }
        ensures { result ≡ normal_at self.inward false ends address bytes }
    {
        self.normal(address, bytes, false, ends)
    }

    /// A TRB of so many bytes at this address, with CH and IOC.
    fn normal(self, address: u64, bytes: u32, chain: bool, done: bool) -> Normal
        requires { bytes ≤ 65536 }
        ensures { result ≡ normal_at self.inward chain done address bytes }
    {
        Normal {
            buffer: address,
            length: length_of(bytes),
            short: self.inward,
            chain,
            done,
        }
    }
}

/// Where the transfer with this key has its buffer.
fn buffer_of(key: usize) -> u64
    ensures value { result ≡ buffer_of key }
    ensures below { result < 2 ^ 51 }
{
    0x1_0000_0000 + (key as u64 % 0x1_0000_0000) * 0x4_0000
}

/// A TRB's length.
fn length_of(bytes: u32) -> Length
    requires { bytes ≤ 65536 }
    ensures { result ≡ bytes }
{
    match Length::new(bytes) {
        Some(length) => length,
        None => unreachable!(),
    }
}

impl Trbs {
    /// No TRB; this one in the cells that aren't used.
    fn none(blank: Normal) -> Trbs
        ensures { result ≡ [] }
    {
        Trbs {
            cells: [blank; MOST],
            count: 0,
        }
    }

    /// One TRB.
    fn one(trb: Normal) -> Trbs
        ensures { result ≡ trb ∷ [] }
    {
        Trbs {
            cells: [trb; MOST],
            count: 1,
        }
    }

    /// Puts a TRB behind the others.
    fn push(&mut self, trb: Normal)
        requires { length self.old < 5 }
        ensures { self.new ≡ self.old ++ trb ∷ [] }
    {
        self.cells[self.count] = trb;
        self.count += 1;
    }

    /// The TRBs.
    pub fn as_slice(&self) -> &[Normal]
        ensures value { result.now ≡ self.now }
        ensures most { length result.now ≤ 5 }
    {
        &self.cells[..self.count]
    }
}
