//! What is read of a handle before orders are carried out and events handled.

ghost use Rattle.std.specs.Prelude.{◌≡◌, ◌<◌, ◌++◌, ◌∷◌, [], ℕ, IfOk, Some, option_map, slice_get};
ghost use Rattle.std.specs.List.{flat_map};
ghost use Rattle.usb_model.specs.Setup.{Setup as ModelSetup};
ghost use Rattle.usb_model.specs.World.{World, holder, own_endpoint};
ghost use Rattle.usb_core.specs.Public.{ShowsWorld};
ghost use Rattle.trace_left.specs.Left.{answers_left, callbacks_below, halt_left};
ghost use Rattle.trace_left.specs.Gathered.{called_at, configured_read, device_read, end_read, handle_read, handles_read, held_read, line_read, waits_left};

use crate::left::{Left, Thing};
use std::alloc::{AllocError, Global};
use usb_core::Core;
use usb_descriptors::Config;
use usb_device::{Device, Scripted};
use usb_model::{DeviceNo, EndpointInfo, EpAddr, Name, Sequence};

/// What is read of a handle: a transfer in line as one that waits, also where it has ended.
#[derive(Drop)]
pub(crate) struct Inventory {
    /// The handle.
    pub(crate) h: Name,
    /// What is left at its device.
    pub(crate) at_device: Sequence<Left>,
    /// Its transfers in callbacks.
    pub(crate) callbacks: Sequence<Left>,
}

/// Adds an interface with this holder, where that is the handle.
fn add_held(
    h: Name,
    interface: u8,
    holder: Option<Name>,
    left: &mut Vec<Left>,
) -> Result<(), AllocError>
    ensures { IfOk result (λ _. left.new.items ≡ left.old.items ++ held_read h interface holder) }
{
    if h.is_its(holder) {
        left.push(Left::Held { h, interface })?;
    }
    Ok(())
}

/// Adds the interfaces of a device that the handle holds, in the order of the configuration.
fn add_interfaces<P, D: Device>(
    core: &Core<P, D>,
    h: Name,
    dev: DeviceNo,
    interfaces: &[u8],
    left: &mut Vec<Left>,
) -> Result<(), AllocError>
    ensures { (setup : ModelSetup) (w : World) → ShowsWorld setup core.now w → IfOk result (λ _. left.new.items ≡ left.old.items ++ flat_map (λ i. held_read h i (w.claims dev i)) interfaces.now) }
{
    for interface in interfaces {
        add_held(h, *interface, core.owner(dev, *interface), left)?;
    }
    Ok(())
}

/// Adds a transfer of this number, where there is one, as one that waits.
fn add_waiting(
    h: Name,
    ep: EpAddr,
    number: Option<u64>,
    left: &mut Vec<Left>,
) -> Result<(), AllocError>
    ensures { IfOk result (λ _. left.new.items ≡ left.old.items ++ waits_left h ep number) }
{
    if let Some(n) = number {
        let thing = Thing::Waits { n };
        left.push(Left::At { h, ep, thing })?;
    }
    Ok(())
}

/// Adds the transfers of the line of a handle's endpoint.
fn add_line<P, D: Device>(
    core: &Core<P, D>,
    h: Name,
    dev: DeviceNo,
    ep: EpAddr,
    left: &mut Vec<Left>,
) -> Result<(), AllocError>
    ensures { (setup : ModelSetup) (w : World) → ShowsWorld setup core.now w → holder setup w.claims dev ep ≡ Some h → IfOk result (λ _. left.new.items ≡ left.old.items ++ line_read h ep (w.endpoints dev ep).line) }
{
    let count = core.line_len(dev, ep);
    for item in 0..count {
        add_waiting(h, ep, core.number_at(dev, ep, item), left)?;
    }
    Ok(())
}

/// Adds that an endpoint is halted, where it is.
fn add_halt(h: Name, ep: EpAddr, halted: bool, left: &mut Vec<Left>) -> Result<(), AllocError>
    ensures { IfOk result (λ _. left.new.items ≡ left.old.items ++ halt_left h ep halted) }
{
    if halted {
        let thing = Thing::IsHalted;
        left.push(Left::At { h, ep, thing })?;
    }
    Ok(())
}

/// Adds how many answers a device has left for an endpoint, where it has any.
fn add_answers(h: Name, ep: EpAddr, answers: usize, left: &mut Vec<Left>) -> Result<(), AllocError>
    ensures { IfOk result (λ _. left.new.items ≡ left.old.items ++ answers_left h ep answers) }
{
    if answers != 0 {
        let thing = Thing::Unused { answers };
        left.push(Left::At { h, ep, thing })?;
    }
    Ok(())
}

/// Adds what is left at an endpoint that the handle holds.
fn add_own_endpoint<P, D: Scripted>(
    core: &Core<P, D>,
    h: Name,
    dev: DeviceNo,
    ep: EpAddr,
    left: &mut Vec<Left>,
) -> Result<(), AllocError>
    ensures { (setup : ModelSetup) (w : World) → ShowsWorld setup core.now w → holder setup w.claims dev ep ≡ Some h → IfOk result (λ _. left.new.items ≡ left.old.items ++ end_read h ep (Some (w.endpoints dev ep))) }
{
    add_line(core, h, dev, ep, left)?;
    add_halt(h, ep, core.is_halted(dev, ep), left)?;
    add_answers(h, ep, core.answers_left(dev, ep), left)
}

/// Adds what is left at an endpoint, if it is the handle's.
fn add_endpoint<P, D: Scripted>(
    core: &Core<P, D>,
    h: Name,
    dev: DeviceNo,
    ep: EpAddr,
    left: &mut Vec<Left>,
) -> Result<(), AllocError>
    ensures { (setup : ModelSetup) (w : World) → ShowsWorld setup core.now w → IfOk result (λ _. left.new.items ≡ left.old.items ++ end_read h ep (own_endpoint setup h w dev ep)) }
{
    if h.is_its(core.holder(dev, ep)) {
        add_own_endpoint(core, h, dev, ep, left)
    } else {
        Ok(())
    }
}

/// Adds what is left at those of a device's endpoints that are the handle's, in the order of the configuration.
fn add_endpoints<P, D: Scripted>(
    core: &Core<P, D>,
    h: Name,
    dev: DeviceNo,
    endpoints: &[EndpointInfo],
    left: &mut Vec<Left>,
) -> Result<(), AllocError>
    ensures { (setup : ModelSetup) (w : World) → ShowsWorld setup core.now w → IfOk result (λ _. left.new.items ≡ left.old.items ++ flat_map (λ x. end_read h x.address (own_endpoint setup h w dev x.address)) endpoints.now) }
{
    for info in endpoints {
        add_endpoint(core, h, dev, info.address, left)?;
    }
    Ok(())
}

/// Adds what the handle has of a device with this configuration.
fn add_configured<P, D: Scripted>(
    core: &Core<P, D>,
    h: Name,
    dev: DeviceNo,
    config: &Config,
    left: &mut Vec<Left>,
) -> Result<(), AllocError>
    ensures { (setup : ModelSetup) (w : World) → ShowsWorld setup core.now w → IfOk result (λ _. left.new.items ≡ left.old.items ++ configured_read setup w h dev (Some config.now)) }
{
    add_interfaces(core, h, dev, config.interfaces(), left)?;
    add_endpoints(core, h, dev, config.endpoints(), left)
}

/// Adds what the handle has of a device.
fn add_device<P, D: Scripted>(
    core: &Core<P, D>,
    h: Name,
    dev: DeviceNo,
    left: &mut Vec<Left>,
) -> Result<(), AllocError>
    ensures { (setup : ModelSetup) (w : World) → ShowsWorld setup core.now w → IfOk result (λ _. left.new.items ≡ left.old.items ++ configured_read setup w h dev (option_map (λ x. x.config) (slice_get setup dev))) }
{
    match core.config(dev) {
        None => Ok(()),
        Some(config) => add_configured(core, h, dev, config, left),
    }
}

/// What is left at the device that a handle has open.
fn at_open_device<P, D: Scripted>(
    alloc: Global,
    core: &Core<P, D>,
    h: Name,
    dev: DeviceNo,
) -> Result<Sequence<Left>, AllocError>
    ensures { (setup : ModelSetup) (w : World) → ShowsWorld setup core.now w → IfOk result (λ left. left ≡ device_read setup w h (Some dev)) }
{
    let mut left = Vec::new(alloc);
    left.push(Left::Open { h, dev })?;
    add_device(core, h, dev, &mut left)?;
    Ok(Sequence::from_vec(left))
}

/// What is left at the device that a handle has open, if it has one.
fn at_device<P, D: Scripted>(
    alloc: Global,
    core: &Core<P, D>,
    h: Name,
) -> Result<Sequence<Left>, AllocError>
    ensures { (setup : ModelSetup) (w : World) → ShowsWorld setup core.now w → IfOk result (λ left. left ≡ device_read setup w h (w.names h).device) }
{
    match core.device_of(h) {
        None => Ok(Sequence::new(alloc)),
        Some(dev) => at_open_device(alloc, core, h, dev),
    }
}

/// Adds the transfer of this number, where it is in its callback at an endpoint.
fn add_callback(h: Name, n: u64, at: Option<EpAddr>, left: &mut Vec<Left>) -> Result<(), AllocError>
    ensures { IfOk result (λ _. left.new.items ≡ left.old.items ++ called_at h n at) }
{
    if let Some(ep) = at {
        let thing = Thing::Callback { n };
        left.push(Left::At { h, ep, thing })?;
    }
    Ok(())
}

/// A handle's transfers in callbacks, by rising number.
#[tactic(auto, unfolding(crate::specs::Left::callbacks_below))]
fn callbacks<P, D: Device>(
    alloc: Global,
    core: &Core<P, D>,
    h: Name,
) -> Result<Sequence<Left>, AllocError>
    ensures { (setup : ModelSetup) (w : World) → ShowsWorld setup core.now w → IfOk result (λ left. left ≡ callbacks_below h (w.names h).in_callbacks (w.names h).next_number) }
{
    let mut left = Vec::new(alloc);
    let end = core.next_number(h);
    for n in 0..end {
        add_callback(h, n, core.callback_at(h, n), &mut left)?;
    }
    Ok(Sequence::from_vec(left))
}

/// What is read of a handle.
fn read_handle<P, D: Scripted>(
    alloc: Global,
    core: &Core<P, D>,
    h: Name,
) -> Result<Inventory, AllocError>
    ensures { (setup : ModelSetup) (w : World) → ShowsWorld setup core.now w → IfOk result (λ x. x ≡ handle_read setup w h) }
{
    Ok(Inventory {
        h,
        at_device: at_device(alloc, core, h)?,
        callbacks: callbacks(alloc, core, h)?,
    })
}

/// Adds what is read of the handle whose name has this number.
fn add_numbered<P, D: Scripted>(
    alloc: Global,
    core: &Core<P, D>,
    number: u8,
    all: &mut Sequence<Inventory>,
) -> Result<(), AllocError>
    requires { number < 64 }
    ensures { (setup : ModelSetup) (w : World) → ShowsWorld setup core.now w → IfOk result (λ _. all.new ≡ all.old ++ handle_read setup w number ∷ []) }
{
    match Name::new(number) {
        None => Ok(()),
        Some(h) => all.push(read_handle(alloc, core, h)?),
    }
}

/// What is read of all handles, by rising name.
#[tactic(auto, unfolding(crate::specs::Gathered::handles_read))]
pub(crate) fn read_handles<P, D: Scripted>(
    alloc: Global,
    core: &Core<P, D>,
) -> Result<Sequence<Inventory>, AllocError>
    ensures { (setup : ModelSetup) (w : World) → ShowsWorld setup core.now w → IfOk result (λ all. all ≡ handles_read setup w 64) }
{
    let mut all = Sequence::new(alloc);
    for number in 0..64_u8 {
        add_numbered(alloc, core, number, &mut all)?;
    }
    Ok(all)
}
