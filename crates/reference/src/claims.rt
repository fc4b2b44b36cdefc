//! What a handle asks for about devices and interfaces: the refusals in their order, and what is done.

ghost use Rattle.std.specs.Prelude.{◌≡◌, ℕ, IfOk};
ghost use Rattle.usb_model.specs.Machine.Calls.{open_effect, close_effect, claim_effect, release_effect, reset_effect};
ghost use Rattle.reference.specs.Call.{SetsNone, machine_in};

use crate::call::Call;
use std::alloc::Global;
use usb_model::{Change, DeviceNo, Effect, Handle, Refused};

impl<'a> Call<'a> {
    /// Opens a device (`libusb_open`).
    #[tactic(auto, unfolding(usb_model::specs::Machine::Calls::open_effect, usb_model::specs::Machine::refused_if))]
    pub fn open_effect(&self, alloc: Global, handle: Handle, dev: DeviceNo) -> Effect
        ensures effect { result ≡ open_effect self.now.setup.now (machine_in self.now handle) dev }
        ensures sets_none { SetsNone self.now result }
    {
        if !self.setup.is_device(dev) {
            return Effect::refuses(alloc, handle, Refused::NotFound);
        }
        if self.system.is_gone(dev) {
            return Effect::refuses(alloc, handle, Refused::NoDevice);
        }
        if handle.device.is_some() {
            return Effect::refuses(alloc, handle, Refused::Busy);
        }
        let open = Handle {
            device: Some(dev),
            next_number: handle.next_number,
            in_callbacks: handle.in_callbacks,
        };
        Effect::does(alloc, open, Change::Frees)
    }

    /// Closes the device (`libusb_close`).
    #[tactic(auto, unfolding(usb_model::specs::Machine::Calls::close_effect, usb_model::specs::Machine::refused_if))]
    pub fn close_effect(&self, alloc: Global, handle: Handle) -> Effect
        ensures effect { result ≡ close_effect self.now.setup.now (machine_in self.now handle) }
        ensures sets_none { SetsNone self.now result }
    {
        let Some(dev) = handle.device else {
            return Effect::refuses(alloc, handle, Refused::NotFound);
        };
        if !self.are_quiet(&handle, dev, None) {
            return Effect::refuses(alloc, handle, Refused::Busy);
        }
        let closed = Handle {
            device: None,
            next_number: handle.next_number,
            in_callbacks: handle.in_callbacks,
        };
        Effect::does(alloc, closed, Change::Frees)
    }

    /// Claims an interface (`libusb_claim_interface`). That another handle holds it is found by the turn.
    #[tactic(auto, unfolding(usb_model::specs::Machine::Calls::claim_effect, usb_model::specs::Machine::refused_if))]
    pub fn claim_effect(&self, alloc: Global, handle: Handle, i: u8) -> Effect
        ensures effect { result ≡ claim_effect self.now.setup.now (machine_in self.now handle) i }
        ensures sets_none { SetsNone self.now result }
    {
        let Some(dev) = handle.device else {
            return Effect::refuses(alloc, handle, Refused::NotFound);
        };
        if self.system.is_gone(dev) {
            return Effect::refuses(alloc, handle, Refused::NoDevice);
        }
        if !self.setup.has_interface(dev, i) {
            return Effect::refuses(alloc, handle, Refused::NotFound);
        }
        let change = if self.system.is_claimed(self.name, dev, i) {
            Change::Keeps
        } else {
            Change::Gains { dev, i }
        };
        Effect::does(alloc, handle, change)
    }

    /// Releases an interface (`libusb_release_interface`).
    #[tactic(auto, unfolding(usb_model::specs::Machine::Calls::release_effect, usb_model::specs::Machine::refused_if))]
    pub fn release_effect(&self, alloc: Global, handle: Handle, i: u8) -> Effect
        ensures effect { result ≡ release_effect self.now.setup.now (machine_in self.now handle) i }
        ensures sets_none { SetsNone self.now result }
    {
        let Some(dev) = handle.device else {
            return Effect::refuses(alloc, handle, Refused::NotFound);
        };
        if !self.system.is_claimed(self.name, dev, i) {
            return Effect::refuses(alloc, handle, Refused::NotFound);
        }
        if !self.are_quiet(&handle, dev, Some(i)) {
            return Effect::refuses(alloc, handle, Refused::Busy);
        }
        Effect::does(alloc, handle, Change::Drops { dev, i })
    }

    /// Makes the endpoints of the handle's interfaces new (`libusb_reset_device`). That another handle holds an interface is found by the turn.
    #[tactic(auto, unfolding(usb_model::specs::Machine::Calls::reset_effect, usb_model::specs::Machine::refused_if))]
    pub fn reset_effect(&self, alloc: Global, handle: Handle) -> Effect
        ensures effect { result ≡ reset_effect self.now.setup.now (machine_in self.now handle) }
        ensures sets_none { SetsNone self.now result }
    {
        let Some(dev) = handle.device else {
            return Effect::refuses(alloc, handle, Refused::NotFound);
        };
        if self.system.is_gone(dev) {
            return Effect::refuses(alloc, handle, Refused::NoDevice);
        }
        if !self.are_quiet(&handle, dev, None) {
            return Effect::refuses(alloc, handle, Refused::Busy);
        }
        Effect::does(alloc, handle, Change::Renews { dev })
    }
}
