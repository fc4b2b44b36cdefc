//! How an endpoint stands, and a transfer in its line.

ghost use Rattle.std.specs.Prelude.{◌≡◌, ℕ, Some, true, option_map, slice_get};
ghost use Rattle.std.specs.Option.{option_copied};
ghost use Rattle.usb_model.specs.Machine.Calls.{callback_of};
ghost use Rattle.usb_model.specs.Setup.{Setup as ModelSetup, is_device, packet_size_of};
ghost use Rattle.usb_model.specs.World.{World, holder};
ghost use Rattle.refine_core.specs.State.{ShowsWorld};
ghost use Rattle.usb_core.specs.Standing.{in_line};

use crate::InLine;
use crate::calls::Core;
use usb_device::{Device, Scripted};
use usb_model::{DeviceNo, EndpointState, EpAddr, Errand, InCallback, Name};

impl<P, D: Device> Core<P, D> {
    /// Whether a device was unplugged.
    pub fn is_gone(&self, dev: DeviceNo) -> bool
        ensures { (setup : ModelSetup) (w : World) → ShowsWorld setup self.now w → is_device setup dev ≡ true → result ≡ w.gone dev }
    {
        self.parts.is_gone(dev)
    }

    /// The state of a held endpoint at the controller (xHCI 1.2, 4.8.3).
    pub fn state_at(&self, dev: DeviceNo, ep: EpAddr) -> EndpointState
        ensures { (setup : ModelSetup) (w : World) (h : ℕ) → ShowsWorld setup self.now w → holder setup w.claims dev ep ≡ Some h → result ≡ (w.endpoints dev ep).state }
    {
        self.parts.state_at(dev, ep)
    }

    /// The errand that is under way at a held endpoint; None where none is.
    pub fn errand_at(&self, dev: DeviceNo, ep: EpAddr) -> Option<Errand>
        ensures { (setup : ModelSetup) (w : World) (h : ℕ) → ShowsWorld setup self.now w → holder setup w.claims dev ep ≡ Some h → result ≡ (w.endpoints dev ep).errand }
    {
        self.parts.errand(dev, ep)
    }

    /// The transfer at a place, from 0 on, of a held endpoint's line, with the bytes that it read so far; None at a place that a
    /// withdrawn one left, and past the end.
    pub fn in_line(&self, dev: DeviceNo, ep: EpAddr, item: usize) -> Option<InLine<'_>>
        ensures { (setup : ModelSetup) (w : World) (h : ℕ) → ShowsWorld setup self.now w → holder setup w.claims dev ep ≡ Some h → result ≡ in_line (packet_size_of setup dev ep) (slice_get (w.endpoints dev ep).line item) }
    {
        self.parts.in_line(dev, ep, item)
    }

    /// A handle's transfer of this number, where it is in its callback.
    pub fn callback(&self, h: Name, n: u64) -> Option<&InCallback>
        ensures { (setup : ModelSetup) (w : World) → ShowsWorld setup self.now w → option_copied result ≡ callback_of n (w.names h).in_callbacks }
    {
        self.parts.callback(h, n)
    }
}

impl<P, D: Scripted> Core<P, D> {
    /// Whether a held endpoint is halted at its device (USB 2.0, 9.4.5).
    pub fn is_halted_at_device(&self, dev: DeviceNo, ep: EpAddr) -> bool
        ensures { (setup : ModelSetup) (w : World) (h : ℕ) → ShowsWorld setup self.now w → holder setup w.claims dev ep ≡ Some h → result ≡ (w.endpoints dev ep).device_halted }
    {
        self.parts.is_halted_at_device(dev, ep)
    }
}
