//! Transfers of one TRB put on a ring, read, passed and dropped.

use super::codes::weight;
use std::alloc::{AllocError, Global};
use usb_rings::TransferRing;
use usb_trb::{Length, Normal, Pointer};

/// The address of the ring's first TRB.
const BASE: u64 = 0x1002_3000;

/// The TRB of a turn's transfer.
fn normal(turn: u64, length: Length) -> Normal {
    Normal {
        buffer: turn,
        length,
        short: turn % 2 == 0,
        chain: false,
        done: true,
    }
}

/// A transfer ring.
#[derive(Drop)]
pub struct Transfers {
    ring: TransferRing,
}

impl Transfers {
    pub fn new(alloc: Global) -> Result<Transfers, AllocError> {
        Ok(Transfers {
            ring: TransferRing::new(alloc, Pointer::before(BASE))?,
        })
    }

    pub fn turn(&mut self, turns: u64) -> u64 {
        let mut sum: u64 = 0;
        for turn in 0..turns {
            self.push(turn);
            sum = sum.wrapping_add(self.pass());
            self.leave();
        }
        sum
    }

    /// Puts a turn's transfer on the ring.
    fn push(&mut self, turn: u64) {
        if let Some(length) = Length::new((turn % 65_536) as u32) {
            if self.ring.fits(1) {
                self.ring.push(&[normal(turn, length)]);
            }
        }
    }

    /// Reads the TRB at dequeue, and goes past it.
    fn pass(&mut self) -> u64 {
        let Some((address, trb)) = self.ring.front() else {
            return 0;
        };
        self.ring.advance();
        weight(&trb) ^ address.address()
    }

    /// Drops the first transfer.
    fn leave(&mut self) {
        if self.ring.len() > 0 {
            self.ring.drop_front(1);
        }
    }
}
