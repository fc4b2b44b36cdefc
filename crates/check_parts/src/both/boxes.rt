//! Devices of both kinds in boxes: a run over them, which knows no type of theirs.

ghost use Rattle.usb_device.specs.Scripts.{Takes};

use super::kinds::Counter;
use super::told::print_entries;
use anyhow::{Result, anyhow};
use example_devices::{Reader, device};
use std::alloc::{AllocError, Global};
use std::sync::Arc;
use std::sync::atomic::{AtomicU64, Ordering};
use usb_core::{Setup, run};
use usb_descriptors::Config;
use usb_device::{BoxedDevice, Device};
use usb_model::{Entry, Sequence, Step, Verdict};

/// Plays the scene of boxes.
pub fn play<P: Print>(rt: &P, alloc: Global) -> Result<()> {
    let answers = Arc::new(alloc, AtomicU64::new(0))?;
    let entries = boxed(alloc, answers.clone()?)?;
    let count = answers.load(Ordering::SeqCst);
    println!(rt;
        "devices of both kinds in boxes, of which the one that counts has answered {count}"
    )?;
    print_entries(rt, entries.as_slice())
}

/// The steps of a read of 8 bytes, from the opening of the device to the end of its callback.
fn add_read(steps: &mut Vec<Step>, reader: &Reader) -> Result<(), AllocError> {
    let Reader { h, dev, i, ep, .. } = *reader;
    let request = reader.read(8, 0);
    let verdict = Verdict::Stop;
    steps.push(Step::Open { h, dev })?;
    steps.push(Step::Claim { h, i })?;
    steps.push(Step::Submit { h, request })?;
    steps.push(Step::Serve { dev, ep })?;
    steps.push(Step::Deliver)?;
    steps.push(Step::Take)?;
    steps.push(Step::Answer { h, n: 0, verdict })?;
    Ok(())
}

/// Those of a read from either device.
fn both_steps(alloc: Global) -> Result<Vec<Step>> {
    let mut steps = Vec::new(alloc);
    add_read(&mut steps, &Reader::new(1, 0, 0)?)?;
    add_read(&mut steps, &Reader::new(2, 1, 1)?)?;
    Ok(steps)
}

/// Both devices in a setup.
fn set_up<D: Device>(
    alloc: Global,
    config: Config,
    one: D,
    other_config: Config,
    other: D,
) -> Result<Setup<D>>
    requires one { Takes config (D.pipes one) }
    requires other { Takes other_config (D.pipes other) }
{
    let mut setup = Setup::new(alloc)?;
    if setup.add(alloc, config, one).is_err() || setup.add(alloc, other_config, other).is_err() {
        return Err(anyhow!("a device isn't added"));
    }
    Ok(setup)
}

/// What is told of a read from each of two devices.
fn run_both<D: Device>(
    alloc: Global,
    config: Config,
    one: D,
    other_config: Config,
    other: D,
) -> Result<Sequence<Entry>>
    requires one { Takes config (D.pipes one) }
    requires other { Takes other_config (D.pipes other) }
{
    let steps = both_steps(alloc)?;
    let setup = set_up(alloc, config, one, other_config, other)?;
    match run(alloc, setup, steps.as_slice()) {
        Ok(entries) => Ok(entries),
        Err(_) => Err(anyhow!("the run stopped")),
    }
}

/// What is told of a device that answers by a table, and of one that counts its answers there.
fn boxed(alloc: Global, answers: Arc<AtomicU64>) -> Result<Sequence<Entry>> {
    let (config, one) = device(alloc, 8, &[8])?;
    let (other_config, other) = device(alloc, 8, &[8])?;
    let other = Counter::new(other, answers);
    let one = BoxedDevice::new(Box::new(alloc, one)?);
    let other = BoxedDevice::new(Box::new(alloc, other)?);
    run_both(alloc, config, one, other_config, other)
}
