//! Devices, as lines describe them one behind another.

ghost use Rattle.std.specs.Prelude.{◌≡◌, IfOk, is_ok, slice_set, true};
ghost use Rattle.std.specs.Result.{result_ok};
ghost use Rattle.usb_descriptors.specs.Grammar.{reading};
ghost use Rattle.usb_scripttext.specs.Devices.{device_with, empty_scripts, is_free, new_device, takes_script};
ghost use Rattle.usb_scripttext.specs.Results.{Becomes, ReadsAs};

use crate::endpoint_set::EndpointSet;
use crate::fault::LineFault;
use crate::problem::{Misplaced, Problem};
use std::alloc::{AllocError, Global};
use std::mem;
use usb_descriptors::{Config, read_config};
use usb_device::ScriptedDevice;
use usb_model::{EpAddr, Kind, Script, Sequence};

/// How many ids the endpoints of a device have: one for each number and direction.
const ENDPOINT_IDS: u8 = 32;

/// What a configuration descriptor says.
pub fn configuration(descriptor: &[u8]) -> Result<Config, LineFault>
    ensures { ReadsAs result (result_ok (reading descriptor.now)) }
{
    Ok(read_config(descriptor).map_err(Problem::Descriptor)?)
}

/// A device of this configuration, whose endpoints have no scripts yet.
pub fn new_device(alloc: Global, config: Config) -> Result<ScriptedDevice, AllocError>
    ensures { IfOk result (λ device. device ≡ new_device config) }
{
    let scripts = empty_scripts(alloc, ENDPOINT_IDS)?;
    Ok(ScriptedDevice { config, scripts })
}

/// Gives an endpoint of a device its script, where it has none so far.
pub fn add_script(
    alloc: Global,
    device: &mut ScriptedDevice,
    ep: EpAddr,
    answers: Script,
) -> Result<(), LineFault>
    ensures { Becomes result (device_with ep answers device.old) device.old device.new }
{
    find_endpoint(&device.config, ep)?;
    let id = usize::from(ep.id());
    if !is_free(device.scripts.as_slice(), id) {
        return Err(LineFault::Bad(Problem::Place(Misplaced::SecondScript)));
    }
    put_script(alloc, device, id, answers);
    Ok(())
}

/// So many empty scripts.
fn empty_scripts(alloc: Global, count: u8) -> Result<Sequence<Script>, AllocError>
    ensures { IfOk result (λ scripts. scripts ≡ empty_scripts count) }
{
    let mut scripts = Vec::new(alloc);
    for _ in 0..count {
        scripts.push(Script::new(alloc))?;
    }
    Ok(Sequence::from_vec(scripts))
}

/// Whether a configuration has a bulk or interrupt endpoint of this address.
pub fn takes_script(config: &Config, ep: EpAddr) -> bool
    ensures { result ≡ takes_script config.now ep }
{
    config.endpoints().iter().any(|info| info.address == ep
        && matches!(info.kind, Kind::Bulk | Kind::Interrupt))
}

/// Finds that a configuration has a bulk or interrupt endpoint of this address.
pub fn find_endpoint(config: &Config, ep: EpAddr) -> Result<(), Problem>
    ensures { is_ok result ≡ takes_script config.now ep }
{
    if !takes_script(config, ep) {
        let there = EndpointSet::scripted(config);
        return Err(Problem::Place(Misplaced::NoEndpoint(there)));
    }
    Ok(())
}

/// Whether there is room for a script at an id: none so far.
fn is_free(scripts: &[Script], id: usize) -> bool
    ensures { result ≡ is_free id scripts.now }
{
    matches!(scripts.get(id), Some(script) if script.is_empty())
}

/// Puts a script at an id where there is room.
#[tactic(auto, using(crate::proofs::Places::free_place))]
pub fn put_script(alloc: Global, device: &mut ScriptedDevice, id: usize, answers: Script)
    requires { is_free id device.old.scripts ≡ true }
    ensures { device.new ≡ record device.old { scripts = slice_set device.old.scripts id answers } }
{
    let mut scripts = mem::replace(&mut device.scripts, Sequence::new(alloc)).into_vec();
    scripts[id] = answers;
    device.scripts = Sequence::from_vec(scripts);
}
