//! Devices that answer by scripts, ready to be run.

ghost use Rattle.std.specs.Prelude.{◌≡◌, ◌≤◌, ◌++◌, ◌∷◌, [], IfOk, OnOk, length};
ghost use Rattle.std.specs.List.{AllByRecursion};
ghost use Rattle.usb_device.specs.Scripts.{CanBeMade};
ghost use Rattle.refine_core.specs.Made.{setup_of};

use crate::setup::Setup;
use std::alloc::{AllocError, Global};
use usb_device::{ScriptedDevice, TableDevice};
use usb_model::Sequence;

/// Adds a device, which answers by its scripts. An error where memory is refused.
fn add(
    alloc: Global,
    setup: &mut Setup<TableDevice>,
    device: ScriptedDevice,
) -> Result<(), AllocError>
    requires { CanBeMade device }
    ensures { OnOk result (setup_of setup.new ≡ setup_of setup.old ++ device ∷ []) }
{
    let ScriptedDevice { config, scripts } = device;
    let Ok(made) = TableDevice::new(alloc, &config, scripts) else {
        return Err(AllocError);
    };
    let Ok(()) = setup.add(alloc, config, made) else {
        return Err(AllocError);
    };
    Ok(())
}

/// At most four devices that can be made, each of which answers by its scripts. An error where memory is refused.
pub fn scripted_setup(
    alloc: Global,
    devices: Sequence<ScriptedDevice>,
) -> Result<Setup<TableDevice>, AllocError>
    requires few { length devices ≤ 4 }
    requires each { AllByRecursion CanBeMade devices }
    ensures { IfOk result (λ setup. setup_of setup ≡ devices) }
{
    let mut setup = Setup::new(alloc)?;
    for device in devices.into_vec() {
        add(alloc, &mut setup, device)?;
    }
    Ok(setup)
}
