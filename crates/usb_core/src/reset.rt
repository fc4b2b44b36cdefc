//! A device is reset (libusb 1.0, `libusb_reset_device`).

ghost use Rattle.std.specs.Prelude.{◌≡◌, Some};
ghost use Rattle.usb_model.specs.declared.step.Step.TheVariants.{Reset};
ghost use Rattle.refine_core.specs.Payloads.{StillCarries};
ghost use Rattle.refine_core.specs.State.{IsState};
ghost use Rattle.refine_core.specs.Steps.{DoesCoreStep};

use crate::parts::Parts;
use crate::renewal::renew_held;
use usb_device::Device;
use usb_model::{Name, Refused, Reply};

impl<P, D: Device> Parts<P, D> {
    /// Resets the name's device: the endpoints that it holds are made new. NotFound where it has no device open,
    /// NoDevice where the device is gone, Busy where something is under way at an endpoint of it, HeldElsewhere where
    /// another name holds an interface of the device.
    pub fn reset(&mut self, h: Name) -> Reply
        requires { IsState self.old }
        ensures done { DoesCoreStep self.old (Reset h) (record { owner = Some h; reply = result }) self.new }
        ensures carries { StillCarries self.old self.new }
    {
        let Some(dev) = self.claims.device_of(h) else {
            return Reply::Refused(Refused::NotFound);
        };
        if self.is_gone(dev) {
            return Reply::Refused(Refused::NoDevice);
        }
        if !self.are_quiet(h, dev, None) {
            return Reply::Refused(Refused::Busy);
        }
        if self.claims.others_hold(h, dev) {
            return Reply::Refused(Refused::HeldElsewhere);
        }
        renew_held(&mut self.controller, &self.claims, h, dev);
        Reply::Done
    }
}
