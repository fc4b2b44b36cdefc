//! Why a handle is refused what it asks for about devices and interfaces.

ghost use Rattle.std.specs.Prelude.{◌≡◌, ℕ, Some};
ghost use Rattle.trace_explain.specs.Caller.{machine_of, setup_in, world_in};
ghost use Rattle.trace_explain.specs.Reasons.{unplug_reason};
ghost use Rattle.trace_explain.specs.Refusals.{claim_refusal, close_refusal, first_elsewhere, held_elsewhere, open_refusal, release_refusal, reset_refusal};
ghost use Rattle.reference.specs.System.{world_of};
ghost use Rattle.usb_model.specs.Refusals.{first_reason};
ghost use Rattle.usb_model.specs.Setup.{is_device};
ghost use Rattle.std.specs.List.{find};
ghost use Rattle.std.specs.Option.{option_copied};
ghost use Rattle.usb_model.specs.Setup.{interfaces_of};
ghost use Rattle.usb_model.specs.World.{is_others};

use crate::caller::Caller;
use crate::refusal::UnplugRefusal;
use crate::sentence::Reason;
use reference::System;
use usb_model::{DeviceNo, Missing, Name, Obstacle, Refusal, Setup};

/// Why a device can't be unplugged.
pub(crate) fn unplug_reason(setup: &Setup, system: &System, dev: DeviceNo) -> Option<Reason>
    ensures { result ≡ unplug_reason (is_device setup.now dev) ((world_of setup.now system.now).gone dev) dev }
{
    if !setup.is_device(dev) {
        Some(Reason::UnplugRefused(UnplugRefusal::NoSuchDevice { dev }))
    } else if system.is_gone(dev) {
        Some(Reason::UnplugRefused(UnplugRefusal::Unplugged { dev }))
    } else {
        None
    }
}

/// Whoever holds an interface, if it is another.
fn elsewhere(h: Name, i: u8, holder: Option<Name>) -> Option<Refusal>
    ensures { result ≡ first_reason (held_elsewhere h i holder) }
{
    let holder = holder?;
    if holder != h {
        Some(Refusal::HeldElsewhere { holder, i })
    } else {
        None
    }
}

impl<'a> Caller<'a> {
    /// Why it can't open a device.
    #[tactic(auto, unfolding(crate::specs::Refusals::open_refusal))]
    pub fn open_refusal(&self, dev: DeviceNo) -> Option<Refusal>
        ensures { result ≡ open_refusal (setup_in self.now) (machine_of self.now) dev }
    {
        if !self.setup.is_device(dev) {
            return Some(Refusal::NotFound(Missing::Device { dev }));
        }
        if self.system.is_gone(dev) {
            return Some(Refusal::NoDevice { dev });
        }
        let dev = self.handle.device?;
        Some(Refusal::Busy(Obstacle::Open { dev }))
    }

    /// Why it can't close its device.
    #[tactic(auto, unfolding(crate::specs::Refusals::close_refusal))]
    pub fn close_refusal(&self) -> Option<Refusal>
        ensures { result ≡ close_refusal (setup_in self.now) (machine_of self.now) }
    {
        let Some(dev) = self.handle.device else {
            return Some(Refusal::NotFound(Missing::Open));
        };
        Some(Refusal::Busy(self.unquiet(dev, None)?))
    }

    /// Why it can't claim an interface.
    #[tactic(auto, unfolding(crate::specs::Refusals::claim_refusal))]
    pub fn claim_refusal(&self, i: u8) -> Option<Refusal>
        ensures { result ≡ claim_refusal (setup_in self.now) self.now.name (machine_of self.now) (world_in self.now).claims i }
    {
        let Some(dev) = self.handle.device else {
            return Some(Refusal::NotFound(Missing::Open));
        };
        if self.system.is_gone(dev) {
            return Some(Refusal::NoDevice { dev });
        }
        if !self.setup.has_interface(dev, i) {
            return Some(Refusal::NotFound(Missing::Interface { dev, i }));
        }
        elsewhere(self.name, i, self.system.claimant(dev, i))
    }

    /// Why it can't release an interface.
    #[tactic(auto, unfolding(crate::specs::Refusals::release_refusal))]
    pub fn release_refusal(&self, i: u8) -> Option<Refusal>
        ensures { result ≡ release_refusal (setup_in self.now) (machine_of self.now) i }
    {
        let Some(dev) = self.handle.device else {
            return Some(Refusal::NotFound(Missing::Open));
        };
        if !self.system.is_claimed(self.name, dev, i) {
            return Some(Refusal::NotFound(if self.setup.has_interface(dev, i) {
                Missing::Claim { i }
            } else {
                Missing::Interface { dev, i }
            }));
        }
        Some(Refusal::Busy(self.unquiet(dev, Some(i))?))
    }

    /// The first interface of a device that another holds.
    fn first_of_others(&self, dev: DeviceNo) -> Option<&u8>
        ensures { let w = world_in self.now in option_copied result ≡ find (λ i. is_others self.now.name (w.claims dev i)) (interfaces_of (setup_in self.now) dev) }
    {
        let h = self.name;
        let system = self.system;
        let mut interfaces = self.setup.interfaces_of(dev).iter();
        interfaces.find(|i| h.is_others(system.claimant(dev, **i)))
    }

    /// Whoever else holds the first interface of a device that another holds.
    fn first_elsewhere(&self, dev: DeviceNo) -> Option<Refusal>
        ensures { let w = world_in self.now in result ≡ first_reason (first_elsewhere self.now.name (λ i. w.claims dev i) (interfaces_of (setup_in self.now) dev)) }
    {
        match self.first_of_others(dev) {
            None => None,
            Some(i) => elsewhere(self.name, *i, self.system.claimant(dev, *i)),
        }
    }

    /// Why it can't reset its device.
    #[tactic(auto, unfolding(crate::specs::Refusals::reset_refusal))]
    pub fn reset_refusal(&self) -> Option<Refusal>
        ensures { result ≡ reset_refusal (setup_in self.now) self.now.name (machine_of self.now) (world_in self.now).claims }
    {
        let Some(dev) = self.handle.device else {
            return Some(Refusal::NotFound(Missing::Open));
        };
        if self.system.is_gone(dev) {
            return Some(Refusal::NoDevice { dev });
        }
        match self.unquiet(dev, None) {
            Some(obstacle) => Some(Refusal::Busy(obstacle)),
            None => self.first_elsewhere(dev),
        }
    }
}
