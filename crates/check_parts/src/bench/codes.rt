//! TRBs encoded and decoded.

use std::alloc::{AllocError, Global};
use usb_trb::{Length, Normal, Trb, TrbKind, decode, encode};

/// So many cells are written and read in turn.
const CELLS: u64 = 128;

/// The length of a turn's transfer.
fn length(turn: u64) -> u32 {
    (turn % 65_536) as u32
}

/// A turn's Normal TRB.
fn normal(turn: u64) -> Trb {
    let kind = match Length::new(length(turn)) {
        Some(length) => TrbKind::Normal(Normal {
            buffer: turn,
            length,
            short: turn % 2 == 0,
            chain: turn % 3 == 0,
            done: turn % 5 == 0,
        }),
        None => TrbKind::NoOp,
    };
    Trb {
        kind,
        cycle: turn % 7 == 0,
    }
}

/// A number that depends on a TRB.
pub fn weight(trb: &Trb) -> u64 {
    match trb.kind {
        TrbKind::Normal(normal) => normal.buffer.wrapping_add(u64::from(normal.length.bytes())),
        TrbKind::TransferEvent {
            pointer,
            residual,
            code,
            ..
        } => pointer.address() ^ u64::from(residual.bytes()) ^ u64::from(code),
        _ => 1,
    }
}

/// The cell that a turn writes, and the one that it reads.
fn cells_of(turn: u64) -> (usize, usize) {
    (
        (turn % CELLS) as usize,
        (turn.wrapping_mul(7) % CELLS) as usize,
    )
}

/// Cells of a TRB each.
#[derive(Drop)]
pub struct Coding {
    cells: Vec<[u8; 16]>,
}

impl Coding {
    pub fn new(alloc: Global) -> Result<Coding, AllocError> {
        Ok(Coding {
            cells: vec![in alloc; [0; 16]; 128]?,
        })
    }

    pub fn turn(&mut self, turns: u64) -> u64 {
        let mut sum: u64 = 0;
        for turn in 0..turns {
            let (put, get) = cells_of(turn);
            if let Some(cell) = self.cells.get_mut(put) {
                *cell = encode(&normal(turn));
            }
            if let Some(cell) = self.cells.get(get) {
                if let Ok(trb) = decode(cell) {
                    sum = sum.wrapping_add(weight(&trb));
                }
            }
        }
        sum
    }
}
