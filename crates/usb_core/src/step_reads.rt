//! What can be asked of the parts without a step.

ghost use Rattle.std.specs.Prelude.{◌≡◌, ℕ, length, slice_get};
ghost use Rattle.std.specs.Option.{option_copied, option_map_or};
ghost use Rattle.usb_model.specs.Setup.{Setup};
ghost use Rattle.refine_world.specs.Shows.{Core};
ghost use Rattle.refine_core.specs.State.{Keeps};
ghost use Rattle.usb_core.specs.Homes.{expires_now};
ghost use Rattle.usb_core.specs.Packets.{taken_in};

use crate::parts::Parts;
use usb_device::Device;
use usb_model::{DeviceNo, EpAddr, Name};
use usb_xhc::Controller;

impl<P, D: Device> Parts<P, D> {
    /// How many bytes the next result has that is taken; 0 where none waits.
    pub fn next_len(&self) -> usize
        ensures { (setup : Setup) (c : Core) → Keeps setup self.now c → result ≡ option_map_or (λ t. length t.piece.bytes) (slice_get c.results 0) 0 }
    {
        match self.flights.first_ended() {
            Some((transfer, _)) => transfer.bytes.len(),
            None => 0,
        }
    }

    /// Whether a transfer can expire: it is in progress, wasn't asked to end, and has a timeout.
    pub fn expires(&self, h: Name, n: u64) -> bool
        ensures { (setup : Setup) (c : Core) → Keeps setup self.now c → result ≡ expires_now setup c h n }
    {
        match self.home(h, n) {
            Some(home) => self.is_askable(home.dev, home.ep, home.item, true),
            None => false,
        }
    }

    /// The packet of index `i`, from 0 on, of those that an endpoint took since it was made new; None past the last, and
    /// where there is no such device.
    pub fn taken(&self, dev: DeviceNo, ep: EpAddr, i: usize) -> Option<&[u8]>
        ensures { option_copied result ≡ taken_in self.now.controller dev ep i }
    {
        taken_of(&self.controller, dev, ep, i)
    }

    /// The controller, with its rings and contexts.
    pub fn controller(&self) -> &Controller<D>
        ensures { result.now ≡ self.now.controller }
    {
        &self.controller
    }
}

/// The packet of index `i` of those that an endpoint of a controller's device took.
pub(crate) fn taken_of<D: Device>(
    controller: &Controller<D>,
    dev: DeviceNo,
    ep: EpAddr,
    i: usize,
) -> Option<&[u8]>
    ensures { option_copied result ≡ taken_in controller.now dev ep i }
{
    match controller.slot(dev) {
        Some(slot) => slot.taken(ep, i),
        None => None,
    }
}
