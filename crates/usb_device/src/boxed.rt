//! A device in a box.

ghost use Rattle.std.specs.Prelude.{◌≡◌};

use crate::device::{Act, Device};
use usb_model::{Buffer, EpAddr};

/// A device of any type, in a box. It may cross threads.
#[derive(Drop)]
pub struct BoxedDevice {
    device: Box<dyn Device + Send>,
}

impl BoxedDevice {
    /// The device in this box.
    pub fn new(device: Box<dyn Device + Send>) -> BoxedDevice
        ensures { ⟦<BoxedDevice as Device>⟧.pipes result ≡ (Device-box device).pipes device.value }
    {
        BoxedDevice { device }
    }
}

impl Device for BoxedDevice {
    ghost pipes = { λ b. (Device-box b.device).pipes b.device.value };

    fn answer(&mut self, ep: EpAddr, out: Option<&[u8]>, buf: &mut [u8]) -> Act {
        self.device.answer(ep, out, buf)
    }

    fn answer_in(&mut self, ep: EpAddr, room: usize, bytes: &mut Buffer) -> Act {
        self.device.answer_in(ep, room, bytes)
    }

    fn skim_in(&mut self, ep: EpAddr, size: usize, most: usize, bytes: &mut Buffer) -> usize {
        self.device.skim_in(ep, size, most, bytes)
    }

    fn skim_out(&mut self, ep: EpAddr, size: usize, most: usize, bytes: &[u8]) -> usize {
        self.device.skim_out(ep, size, most, bytes)
    }

    fn ready(&self, ep: EpAddr) -> bool {
        self.device.ready(ep)
    }

    fn taken(&self, ep: EpAddr, i: usize) -> Option<&[u8]> {
        self.device.taken(ep, i)
    }

    fn rewind(&mut self, ep: EpAddr) {
        self.device.rewind(ep);
    }

    fn clear_halt(&mut self, ep: EpAddr) {
        self.device.clear_halt(ep);
    }
}
