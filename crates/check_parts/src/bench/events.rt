//! Events posted and taken.

use super::codes::weight;
use std::alloc::{AllocError, Global};
use usb_rings::{EventRing, Ring};
use usb_trb::{EndpointId, Pointer, Residual, Slot, Trb, TrbKind};

/// A turn's event; a No Op where slot and endpoint are none.
fn event(turn: u64) -> TrbKind {
    match (Slot::new(1), EndpointId::new(3)) {
        (Some(slot), Some(id)) => TrbKind::TransferEvent {
            pointer: Pointer::before(turn),
            residual: Residual::low((turn % 256) as u32),
            code: (turn % 16) as u8,
            slot,
            id,
        },
        _ => TrbKind::NoOp,
    }
}

/// An event ring.
#[derive(Drop)]
pub struct Events {
    ring: EventRing,
}

impl Events {
    pub fn new(alloc: Global) -> Result<Events, AllocError> {
        Ok(Events {
            ring: Ring::event(alloc)?,
        })
    }

    pub fn turn(&mut self, turns: u64) -> u64 {
        let mut sum: u64 = 0;
        for turn in 0..turns {
            sum = sum.wrapping_add(self.post(turn) ^ self.take().wrapping_mul(3));
        }
        sum
    }

    /// Posts a turn's event, where there is room.
    fn post(&mut self, turn: u64) -> u64 {
        if self.ring.room() > 0 {
            self.ring.post(event(turn)) as u64
        } else {
            0
        }
    }

    /// Takes the first event.
    fn take(&mut self) -> u64 {
        match self.ring.take() {
            Some((at, kind)) => weight(&Trb { kind, cycle: true }) ^ at as u64,
            None => 0,
        }
    }
}
