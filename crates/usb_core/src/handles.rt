//! Devices are opened, closed and unplugged, and interfaces released.

ghost use Rattle.std.specs.Prelude.{◌≡◌, Some, None};
ghost use Rattle.usb_model.specs.declared.step.Step.TheVariants.{Close, Open, Release, Unplug};
ghost use Rattle.refine_core.specs.Payloads.{StillCarries};
ghost use Rattle.refine_core.specs.Handles.{gone_in, reply_to};
ghost use Rattle.refine_core.specs.State.{IsState};
ghost use Rattle.refine_core.specs.Steps.{DoesCoreStep};

use crate::parts::Parts;
use usb_device::Device;
use usb_model::{DeviceNo, Name, Refused, Reply};

impl<P, D: Device> Parts<P, D> {
    /// A device is gone. NotFound where there is no such device, NoDevice where it is gone.
    pub fn unplug(&mut self, dev: DeviceNo) -> Reply
        requires { IsState self.old }
        ensures done { DoesCoreStep self.old (Unplug dev) (record { owner = None; reply = result }) self.new }
        ensures carries { StillCarries self.old self.new }
    {
        if !self.claims.is_device(dev) {
            return Reply::Refused(Refused::NotFound);
        }
        if self.is_gone(dev) {
            return Reply::Refused(Refused::NoDevice);
        }
        self.controller.unplug(dev);
        Reply::Done
    }

    /// Opens a device (libusb 1.0, `libusb_open`): the name has it open, and holds no interface. NotFound where there
    /// is no such device, NoDevice where it is gone, Busy where the name has one open.
    pub fn open(&mut self, h: Name, dev: DeviceNo) -> Reply
        requires { IsState self.old }
        ensures done { DoesCoreStep self.old (Open h dev) (record { owner = Some h; reply = result }) self.new }
        ensures carries { StillCarries self.old self.new }
    {
        if self.is_gone(dev) {
            return Reply::Refused(Refused::NoDevice);
        }
        reply_to(self.claims.open(h, dev))
    }

    /// Closes the name's device (libusb 1.0, `libusb_close`): the name has none open, and holds no interface. NotFound
    /// where it has none open, Busy where something is under way at an endpoint of it.
    pub fn close(&mut self, h: Name) -> Reply
        requires { IsState self.old }
        ensures done { DoesCoreStep self.old (Close h) (record { owner = Some h; reply = result }) self.new }
        ensures carries { StillCarries self.old self.new }
    {
        let Some(dev) = self.claims.device_of(h) else {
            return Reply::Refused(Refused::NotFound);
        };
        if !self.are_quiet(h, dev, None) {
            return Reply::Refused(Refused::Busy);
        }
        reply_to(self.claims.close(h))
    }

    /// Releases an interface of the name's device (libusb 1.0, `libusb_release_interface`). NotFound where the name
    /// doesn't hold it, Busy where something is under way at an endpoint of it.
    pub fn release(&mut self, h: Name, i: u8) -> Reply
        requires { IsState self.old }
        ensures done { DoesCoreStep self.old (Release h i) (record { owner = Some h; reply = result }) self.new }
        ensures carries { StillCarries self.old self.new }
    {
        let Some(dev) = self.claims.device_of(h) else {
            return Reply::Refused(Refused::NotFound);
        };
        if !h.is_its(self.claims.owner(dev, i)) {
            return Reply::Refused(Refused::NotFound);
        }
        if !self.are_quiet(h, dev, Some(i)) {
            return Reply::Refused(Refused::Busy);
        }
        reply_to(self.claims.release(h, i))
    }

    /// Whether a device is gone.
    pub(crate) fn is_gone(&self, dev: DeviceNo) -> bool
        ensures { result ≡ gone_in self.now.controller dev }
    {
        match self.controller.slot(dev) {
            Some(slot) => slot.is_gone(),
            None => false,
        }
    }
}

/// What a call is replied with, by its answer.
pub(crate) fn reply_to(answer: Result<(), Refused>) -> Reply
    ensures { result ≡ reply_to answer }
{
    match answer {
        Ok(()) => Reply::Done,
        Err(why) => Reply::Refused(why),
    }
}
