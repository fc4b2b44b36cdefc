//! Steps in a row, in one call.
//!
//! Each call makes turns of the world one behind another, as the calls of one step would: it only spends less on them.

ghost use Rattle.std.specs.Prelude.{◌≡◌, ◌+◌, ◌≤◌, ◌<◌, None, length, max, option_map, replicate, slice_get};
ghost use Rattle.usb_model.specs.declared.step.Step.TheVariants.{Serve};
ghost use Rattle.usb_model.specs.Setup.{Setup as ModelSetup};
ghost use Rattle.usb_model.specs.World.{World, world_from};
ghost use Rattle.refine_core.specs.Payloads.{Carries, Kept, StillCarries};
ghost use Rattle.refine_core.specs.State.{ShowsWorld};
ghost use Rattle.refine_core.specs.Steps.{TurnsInRow};
ghost use Rattle.usb_core.specs.StepBursts.{Differs, burst_entries};
ghost use Rattle.usb_core.specs.Drains.{drained_steps};
ghost use Rattle.usb_core.specs.Results.{CarriesOut};
ghost use Rattle.usb_core.specs.Bursts.{TakesAndStops};

use crate::calls::Core;
use crate::{Burst, Taken};
use usb_device::Device;
use usb_model::{DeviceNo, EpAddr};

impl<P, D: Device> Core<P, D> {
    /// A device answers packets in a row at an endpoint (USB 2.0, 8.5), each as one of `serve`: at most so many, and at
    /// least one. They end with the first that doesn't do what the one before it did: move as many bytes of the same
    /// transfer, which goes on.
    pub fn serve_burst(&mut self, dev: DeviceNo, ep: EpAddr, most: u32) -> Burst
        ensures turned { TurnsInRow self.old (replicate (result.full + 1) (Serve dev ep)) (burst_entries result) self.new }
        ensures few { result.full + 1 ≤ max 1 most }
        ensures ends { result.full + 1 < most → Differs result.each result.last }
        ensures none { result.full ≡ 0 → result.each ≡ None }
        ensures carries { StillCarries self.old self.new }
    {
        self.parts.serve_burst(dev, ep, most)
    }

    /// Events are handled and orders carried out (xHCI 1.2, 4.6 and 4.11.3; libusb 1.0, `libusb_handle_events`), at most
    /// so many, until a result waits or neither is left: an event comes before an order. How many they were. Takes no
    /// memory.
    pub fn drain(&mut self, most: u32) -> u32
        ensures count { (setup : ModelSetup) (w : World) → ShowsWorld setup self.old w → result ≡ length (drained_steps most setup w) }
        ensures turned { (setup : ModelSetup) (w : World) → ShowsWorld setup self.old w → ShowsWorld setup self.new (world_from setup w (drained_steps most setup w)) }
        ensures carries { StillCarries self.old self.new }
    {
        self.parts.drain(most)
    }

    /// The oldest result goes out to its callback (libusb 1.0, `libusb_transfer_cb_fn`), with the payload of its
    /// transfer, and the callback ends at once, as `stop` ends it. None where none waits: nothing changes then. Takes no
    /// memory, as `take` may.
    pub fn take_done(&mut self) -> Option<Taken<P>>
        ensures taken { TakesAndStops self.old result self.new }
        ensures payload { option_map (λ t. t.payload) result ≡ option_map (λ y. y.transfer.payload) (slice_get self.old.flights.ended 0) }
        ensures carries { (kept : Kept P) → Carries kept self.old → CarriesOut kept result × Carries kept self.new }
    {
        self.parts.take_done()
    }
}
