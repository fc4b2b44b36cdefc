//! A scenario's devices and callbacks, as the core has them.

ghost use Rattle.std.specs.Prelude.{◌≡◌, ◌≤◌, IfOk, length, map};
ghost use Rattle.std.specs.List.{AllByRecursion};
ghost use Rattle.usb_core.specs.Public.{setup_of};
ghost use Rattle.usb_device.specs.Scripts.{CanBeMade};

use crate::lines::Parts;
use std::alloc::{AllocError, Global};
use usb_core::{Callback, Ruled, scripted_setup};
use usb_device::{ScriptedDevice, TableDevice};
use usb_model::{Rule, Sequence};

/// A callback for each rule, which is that rule.
pub fn callbacks_of(alloc: Global, rules: &[Rule]) -> Result<Vec<Ruled>, AllocError>
    ensures { IfOk result (λ callbacks. map (⟦<Ruled as Callback>⟧.rule) callbacks.items ≡ rules.now) }
{
    let mut callbacks = Vec::with_capacity(alloc, rules.len())?;
    for rule in rules {
        callbacks.push(Ruled::new(*rule))?;
    }
    Ok(callbacks)
}

/// What a scenario's run is made of. An error where memory is refused.
pub fn parts_of(
    alloc: Global,
    devices: Sequence<ScriptedDevice>,
    rules: &[Rule],
) -> Result<Parts<Ruled, TableDevice>, AllocError>
    requires few { length devices ≤ 4 }
    requires each { AllByRecursion CanBeMade devices }
    ensures devices { IfOk result (λ parts. setup_of parts.setup ≡ devices) }
    ensures rules { IfOk result (λ parts. map (⟦<Ruled as Callback>⟧.rule) parts.callbacks.items ≡ rules.now) }
{
    Ok(Parts {
        setup: scripted_setup(alloc, devices)?,
        callbacks: callbacks_of(alloc, rules)?,
    })
}
