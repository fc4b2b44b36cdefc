//! Interfaces are claimed (libusb 1.0, `libusb_claim_interface`).

ghost use Rattle.std.specs.Prelude.{◌≡◌, Some};
ghost use Rattle.usb_model.specs.declared.step.Step.TheVariants.{Claim};
ghost use Rattle.refine_core.specs.Payloads.{StillCarries};
ghost use Rattle.refine_core.specs.State.{IsState};
ghost use Rattle.refine_core.specs.Steps.{DoesCoreStep};

use crate::parts::Parts;
use crate::renewal::renew_interface;
use usb_device::Device;
use usb_model::{Name, Refused, Reply};

impl<P, D: Device> Parts<P, D> {
    /// Claims an interface of the name's device: where it was nobody's its endpoints are made new. NotFound where the
    /// name has no device open or this has no such interface, NoDevice where the device is gone, HeldElsewhere where
    /// another name holds the interface.
    pub fn claim(&mut self, h: Name, i: u8) -> Reply
        requires { IsState self.old }
        ensures done { DoesCoreStep self.old (Claim h i) (record { owner = Some h; reply = result }) self.new }
        ensures carries { StillCarries self.old self.new }
    {
        let Some(dev) = self.claims.device_of(h) else {
            return Reply::Refused(Refused::NotFound);
        };
        if self.is_gone(dev) {
            return Reply::Refused(Refused::NoDevice);
        }
        let had = h.is_its(self.claims.owner(dev, i));
        if let Err(why) = self.claims.claim(h, i) {
            return Reply::Refused(why);
        }
        if had {
            return Reply::Done;
        }
        renew_interface(&mut self.controller, &self.claims, dev, i);
        Reply::Done
    }
}
