//! The core's calls, kept out of line so that a profile tells them apart.

use std::alloc::{AllocError, Global};
use usb_core::{Core, Setup};
use usb_device::TableDevice;
use usb_model::{DeviceNo, EpAddr, Name, Request, Returned, Step};

/// A number that depends on what a callback is given.
fn weight(returned: &Returned, payload: u64) -> u64 {
    let bytes = returned.bytes.as_slice();
    let last = match bytes.last() {
        Some(last) => u64::from(*last),
        None => 0,
    };
    let ending = u64::from(returned.actual) << 8 | returned.status as u64;
    payload
        ^ ending
        ^ last << 40
        ^ (bytes.len() as u64).wrapping_mul(3)
        ^ returned.n.wrapping_mul(5)
        ^ returned.round
        ^ u64::from(returned.ep.address())
        ^ u64::from(returned.h.number())
}

/// A core whose callbacks keep a number.
#[derive(Drop)]
pub struct Calls {
    core: Core<u64, TableDevice>,
}

impl Calls {
    pub fn new(alloc: Global, setup: Setup<TableDevice>) -> Result<Calls, AllocError> {
        Ok(Calls {
            core: Core::new(alloc, setup)?,
        })
    }

    /// A name opens a device.
    pub fn open(&mut self, h: Name, dev: DeviceNo) {
        let _ = self.core.call(Step::Open { h, dev });
    }

    /// A name claims interface 0.
    pub fn claim(&mut self, h: Name) {
        let _ = self.core.call(Step::Claim { h, i: 0 });
    }

    /// Submits a transfer, and gives its number.
    #[inline(never)]
    pub fn submit(&mut self, h: Name, request: Request, payload: u64) -> Option<u64> {
        match self.core.submit(h, request, payload) {
            Ok(n) => Some(n),
            Err(_) => None,
        }
    }

    /// The device answers one packet.
    #[inline(never)]
    pub fn serve(&mut self, dev: DeviceNo, ep: EpAddr) {
        let _ = self.core.serve(dev, ep);
    }

    /// The device answers so many packets in a row.
    #[inline(never)]
    pub fn serve_row(&mut self, dev: DeviceNo, ep: EpAddr, packets: u32) {
        let mut left = packets;
        for _ in 0..packets {
            if left == 0 {
                return;
            }
            let burst = self.core.serve_burst(dev, ep, left);
            left = left.saturating_sub(burst.full.saturating_add(1));
        }
    }

    /// The oldest event is handled.
    #[inline(never)]
    pub fn deliver(&mut self) {
        let _ = self.core.deliver();
    }

    /// The oldest result goes out; the number depends on all of it.
    #[inline(never)]
    pub fn take(&mut self) -> u64 {
        match self.core.take() {
            Ok(Some(taken)) => weight(&taken.returned, taken.payload),
            _ => 0,
        }
    }

    /// The callback of a transfer ends.
    #[inline(never)]
    pub fn stop(&mut self, h: Name, n: u64) {
        let _ = self.core.stop(h, n);
    }

    /// The name's device is reset.
    #[inline(never)]
    pub fn reset(&mut self, h: Name) {
        let _ = self.core.call(Step::Reset { h });
    }
}
