//! A transfer is asked to end.

ghost use Rattle.std.specs.Prelude.{◌≡◌, ℕ, ◌==◌, ◌||◌, ◌&&◌, is_some, not, true, None, Some, IfOk, IfSome};
ghost use Rattle.std.specs.List.{find};
ghost use Rattle.std.specs.Option.{option_copied, option_map};
ghost use Rattle.usb_model.specs.declared.refused.Refused.TheVariants.{NotFound};
ghost use Rattle.usb_model.specs.declared.reply.Reply.TheVariants.{Refused as Refuses};
ghost use Rattle.usb_model.specs.declared.item.Ask.{Ask};
ghost use Rattle.usb_model.specs.Setup.{endpoints_of};
ghost use Rattle.usb_model.specs.Machine.Calls.{ask_effect};
ghost use Rattle.usb_model.specs.Machine.{says};
ghost use Rattle.usb_model.specs.Endpoint.{has_in_progress};
ghost use Rattle.reference.specs.Asked.{Asks};
ghost use Rattle.usb_model.specs.World.{machine_with, own_endpoint};
ghost use Rattle.reference.specs.Call.{machine_in, world_in};
ghost use Rattle.reference.specs.System.{with_endpoint_out, world_of};

use crate::call::Call;
use crate::calls::{in_progress, set_ask};
use crate::system::System;
use std::alloc::{AllocError, Global};
use usb_model::{Ask, DeviceNo, Effect, EpAddr, Handle, Item, Name, Refused, Setup};

impl<'a> Call<'a> {
    /// Whether a transfer of this number is in progress at a name's endpoint.
    fn has_in_progress(&self, dev: DeviceNo, ep: EpAddr, n: u64) -> bool
        ensures { result ≡ has_in_progress n (own_endpoint self.now.setup.now self.now.name (world_in self.now) dev ep) }
    {
        match self.system.endpoint_of(self.setup, self.name, dev, ep) {
            None => false,
            Some(endpoint) => in_progress(endpoint, n).is_some(),
        }
    }

    /// Where a transfer of this number is in progress, among a name's endpoints of a device.
    fn home(&self, dev: DeviceNo, n: u64) -> Option<EpAddr>
        ensures { result ≡ option_map (λ x. x.address) (find (λ x. has_in_progress n (own_endpoint self.now.setup.now self.now.name (world_in self.now) dev x.address)) (endpoints_of self.now.setup.now dev)) }
    {
        let mut infos = self.setup.endpoints_of(dev).iter();
        match infos.find(|info| self.has_in_progress(dev, info.address, n)) {
            None => None,
            Some(info) => Some(info.address),
        }
    }

    /// At which endpoint a transfer of this number may be asked to end.
    fn askable(&self, handle: &Handle, dev: DeviceNo, n: u64, timed: bool) -> Option<EpAddr>
        requires { handle.now.device ≡ Some dev }
        ensures asked { let m = machine_in self.now handle.now in IfSome result (λ ep. (ask : Ask) → Asks self.now.setup.now m dev n ask timed ep) }
        ensures there { IfSome result (λ ep. is_some (own_endpoint self.now.setup.now self.now.name (world_in self.now) dev ep) ≡ true) }
        ensures refused { let m = machine_in self.now handle.now in result ≡ None → (ask : Ask) → ask_effect self.now.setup.now m n ask timed ≡ says m (Refuses NotFound) }
    {
        let Some(ep) = self.home(dev, n) else {
            return None;
        };
        let Some(endpoint) = self.system.endpoint_of(self.setup, self.name, dev, ep) else {
            return None;
        };
        let Some(item) = in_progress(endpoint, n) else {
            return None;
        };
        if item.may_be_asked(timed) {
            Some(ep)
        } else {
            None
        }
    }
}

impl System {
    /// The ask is kept, and Stop is ordered where no errand is under way (`libusb_cancel_transfer`). `timed`: its time is over.
    pub fn ask_effect(
        &mut self,
        alloc: Global,
        setup: &Setup,
        h: Name,
        handle: Handle,
        n: u64,
        ask: Ask,
        timed: bool,
    ) -> Result<Effect, AllocError>
        ensures effect { IfOk result (λ x. x ≡ ask_effect setup.now (machine_with setup.now h handle (world_of setup.now self.old)) n ask timed) }
        ensures left { IfOk result (λ x. world_of setup.now self.new ≡ with_endpoint_out setup.now h (world_of setup.now self.old) x.change) }
    {
        let Some(dev) = handle.device else {
            return Ok(Effect::refuses(alloc, handle, Refused::NotFound));
        };
        let call = Call {
            setup,
            system: self,
            name: h,
        };
        let Some(ep) = call.askable(&handle, dev, n, timed) else {
            return Ok(Effect::refuses(alloc, handle, Refused::NotFound));
        };
        let endpoint = self.take_found(alloc, setup, h, dev, ep);
        let done = set_ask(alloc, endpoint, n, ask)?;
        Ok(Effect::at_endpoint(alloc, handle, dev, ep, done)?)
    }
}
