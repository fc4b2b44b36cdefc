//! The halt of a device's endpoint is cleared.

ghost use Rattle.std.specs.Prelude.{◌≡◌, Some};
ghost use Rattle.usb_model.specs.declared.step.Step.TheVariants.{ClearHalt};
ghost use Rattle.refine_core.specs.Payloads.{StillCarries};
ghost use Rattle.refine_core.specs.State.{IsState};
ghost use Rattle.refine_core.specs.Steps.{DoesCoreStep};

use crate::parts::Parts;
use usb_device::Device;
use usb_model::{EpAddr, Name, Refused, Reply};

impl<P, D: Device> Parts<P, D> {
    /// Clears the halt of one of the name's endpoints (libusb 1.0, `libusb_clear_halt`; USB 2.0, 9.4.5). NotFound where
    /// the endpoint isn't the name's, NoDevice where the device is gone, Busy where a transfer is in the endpoint's
    /// line.
    pub fn clear_halt(&mut self, h: Name, ep: EpAddr) -> Reply
        requires { IsState self.old }
        ensures done { DoesCoreStep self.old (ClearHalt h ep) (record { owner = Some h; reply = result }) self.new }
        ensures carries { StillCarries self.old self.new }
    {
        let Some(dev) = self.claims.device_of(h) else {
            return Reply::Refused(Refused::NotFound);
        };
        if !h.is_its(self.claims.holder(dev, ep)) {
            return Reply::Refused(Refused::NotFound);
        }
        if self.is_gone(dev) {
            return Reply::Refused(Refused::NoDevice);
        }
        if self.flights.len(dev, ep) > 0 {
            return Reply::Refused(Refused::Busy);
        }
        self.controller.clear_halt(dev, ep);
        Reply::Done
    }
}
