//! Devices that are to be run together.

ghost use Rattle.std.specs.Prelude.{◌≡◌, ◌==◌, ◌++◌, ◌<◌, ◌∷◌, [], if◌then◌else◌, IfErr, IfOk, OnErr, OnOk, length, map};
ghost use Rattle.std.specs.Option.{option_copied};
ghost use Rattle.usb_model.specs.declared.refused.Refused.TheVariants.{InvalidParam, NoMem};
ghost use Rattle.usb_device.specs.Scripts.{Takes};
ghost use Rattle.refine_core.specs.Made.{setup_of};
ghost use Rattle.usb_core.specs.Packets.{taken_in};

use crate::step_reads::taken_of;
use arrayvec::ArrayVec;
use std::alloc::{AllocError, Global};
use std::fmt;
use std::marker::Model;
use thiserror::Error;
use usb_descriptors::Config;
use usb_device::Device;
use usb_model::{DeviceNo, EpAddr, Refused};
use usb_xhc::{Controller, DeviceSlot};

/// At most 4 devices, each with its configuration, at the slots of a controller. Contracts see a record of the
/// configurations and the controller; `setup_of` is what the definitions read of them: a device's scripts, wherever it
/// stands in them. Parts that are made of it begin anew.
#[derive(Drop)]
pub struct Setup<D: Device> {
    pub(crate) configs: ArrayVec<Config, 4>,
    pub(crate) controller: Controller<D>,
}

impl<D: Device> Model for Setup<D> {
    ghost use Rattle.refine_core.specs.Made.{AreReady, Devices};

    ghost Value = { Devices };

    ghost view = { λ s. record { configs = s.configs.items; controller = s.controller } };

    ghost invariant = { λ s. AreReady (record { configs = s.configs.items; controller = s.controller }) };
}

/// A device that wasn't added, and why: InvalidParam where there are four, NoMem where memory was refused.
#[derive(Drop, Error)]
#[error("{why}")]
pub struct AddError<D: Device> {
    /// Why.
    pub why: Refused,
    /// Its configuration.
    pub config: Config,
    /// The device.
    pub device: D,
}

/// Shows why: what comes back may have no form that can be shown.
impl<D: Device> fmt::Debug for AddError<D> {
    fn fmt<W: fmt::Write>(&self, f: &mut fmt::Formatter<W>) -> fmt::Result {
        write!(f, "AddError({:?})", self.why)
    }
}

impl<D: Device> Setup<D> {
    /// No device.
    pub fn new(alloc: Global) -> Result<Setup<D>, AllocError>
        ensures { IfOk result (λ s. setup_of s ≡ []) }
    {
        Ok(Setup {
            configs: ArrayVec::new(),
            controller: Controller::new(alloc)?,
        })
    }

    /// A device of this configuration. It takes packets as long as the configuration says. Where it isn't added it comes
    /// back: InvalidParam where there are four, NoMem where memory was refused.
    pub fn add(&mut self, alloc: Global, config: Config, device: D) -> Result<(), AddError<D>>
        requires { Takes config (D.pipes device) }
        ensures added { OnOk result (setup_of self.new ≡ setup_of self.old ++ record { config = config; scripts = map (λ p. p.script) (D.pipes device) } ∷ []) }
        ensures room { OnOk result (length self.old.configs < 4) }
        ensures why { IfErr result (λ x. x.why ≡ (if length self.old.configs == 4 then InvalidParam else NoMem)) }
        ensures back { IfErr result (λ x. x.config ≡ config) }
        ensures device { IfErr result (λ x. x.device ≡ device) }
        ensures kept { OnErr result (self.new ≡ self.old) }
    {
        if self.configs.is_full() {
            return Err(AddError {
                why: Refused::InvalidParam,
                config,
                device,
            });
        }
        prove!(config.endpoints().len() <= 30);
        match self.controller.add(alloc, &config, device) {
            Ok(()) => {
                self.configs.push(config);
                Ok(())
            }
            Err(device) => Err(AddError {
                why: Refused::NoMem,
                config,
                device,
            }),
        }
    }

    /// The packet of index `i`, from 0 on, of those that a device took at an endpoint since it was made new; None past the
    /// last, and where there is no such device.
    pub fn taken(&self, dev: DeviceNo, ep: EpAddr, i: usize) -> Option<&[u8]>
        ensures { option_copied result ≡ taken_in self.now.controller dev ep i }
    {
        taken_of(&self.controller, dev, ep, i)
    }

    /// The slots of the devices, in order: each device is as it stands (`DeviceSlot::into_device`), with what it took and
    /// its place in its scripts. Takes no memory.
    pub fn into_slots(self) -> Vec<DeviceSlot<D>>
        ensures { result.items ≡ self.controller.slots }
    {
        self.controller.into_slots()
    }
}
