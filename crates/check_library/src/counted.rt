//! A device that counts how often workers look at it.

use std::sync::Arc;
use std::sync::atomic::{AtomicU64, Ordering};
use usb_device::{Act, Device, TableDevice};
use usb_model::EpAddr;

/// A device of scripts, with the count of those who asked whether it is ready.
#[derive(Drop)]
pub struct Counted {
    /// The device.
    pub device: TableDevice,
    /// How often it was asked.
    pub looks: Arc<AtomicU64>,
}

impl Device for Counted {
    ghost pipes = { λ d. d.device };

    fn answer(&mut self, ep: EpAddr, out: Option<&[u8]>, buf: &mut [u8]) -> Act {
        self.device.answer(ep, out, buf)
    }

    fn ready(&self, ep: EpAddr) -> bool {
        self.looks.fetch_add(1, Ordering::SeqCst);
        self.device.ready(ep)
    }

    fn taken(&self, ep: EpAddr, i: usize) -> Option<&[u8]> {
        self.device.taken(ep, i)
    }

    fn rewind(&mut self, ep: EpAddr) {
        self.device.rewind(ep);
    }

    fn clear_halt(&mut self, ep: EpAddr) {
        self.device.clear_halt(ep);
    }
}
