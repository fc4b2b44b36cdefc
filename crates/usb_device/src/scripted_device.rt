//! A device that is to answer by scripts.

ghost use Rattle.std.specs.Prelude.{◌≡◌, IfOk};

use std::alloc::{AllocError, Global};
use std::marker::Model;
use usb_descriptors::Config;
use usb_model::{Configuration, DeviceSetup, Script, Sequence};

/// A device that is to answer by scripts: what a `TableDevice` is made of. Contracts see its configuration and its scripts.
#[derive(Drop)]
pub struct ScriptedDevice {
    /// Its configuration.
    pub config: Config,
    /// What it answers: a script for each id of an endpoint (xHCI 1.2, 4.5.1), empty where there is none.
    pub scripts: Sequence<Script>,
}

impl Model for ScriptedDevice {
    ghost use Rattle.usb_model.specs.declared.setup.DeviceSetup.{DeviceSetup};

    ghost Value = { DeviceSetup };

    ghost view = { λ d. record { config = d.config; scripts = d.scripts } };
}

impl ScriptedDevice {
    /// The device as the model's definitions have it. An error where memory is refused.
    pub fn into_setup(self, alloc: Global) -> Result<DeviceSetup, AllocError>
        ensures { IfOk result (λ setup. setup ≡ self) }
    {
        let ScriptedDevice { config, scripts } = self;
        let interfaces = Sequence::from_vec(Vec::from_slice(alloc, config.interfaces())?);
        let endpoints = Sequence::from_vec(Vec::from_slice(alloc, config.endpoints())?);
        Ok(DeviceSetup {
            config: Configuration {
                interfaces,
                endpoints,
            },
            scripts,
        })
    }
}

/// The devices as the model's definitions have them. An error where memory is refused.
pub fn into_setups(
    alloc: Global,
    devices: Sequence<ScriptedDevice>,
) -> Result<usb_model::Setup, AllocError>
    ensures { IfOk result (λ setup. setup ≡ devices) }
{
    let mut setups = Vec::new(alloc);
    for device in devices.into_vec() {
        setups.push(device.into_setup(alloc)?)?;
    }
    Ok(usb_model::Setup::from_vec(setups))
}
