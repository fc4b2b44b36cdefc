//! Random steps of a core, each made again where memory is refused. Each has a payload, its number, which has to come back or
//! to come out with the callback of its transfer.

use super::steps::busy;
use super::{REFUSED, TRIES, scene};
use anyhow::{Result, anyhow};
use std::alloc::{AllocError, Global};
use std::result;
use usb_core::{Core, NoMemory, Stepped};
use usb_device::TableDevice;
use usb_model::{Name, Reply, Sequence, Step};

/// How many steps there are.
const STEPS: u64 = 400;

/// A core, the steps that it is to make, and where their payloads are: by number of the step, the name and the number of the
/// transfer that has its payload.
#[derive(Drop)]
struct Stage {
    core: Core<usize, TableDevice>,
    steps: Sequence<Step>,
    places: Vec<Option<(Name, u64)>>,
}

/// A core over the devices of a seed.
fn core(alloc: Global, seed: u64) -> Result<Core<usize, TableDevice>> {
    let setup = scene::real(alloc, seed, scene::FEW_ANSWERS)?;
    Ok(Core::new(alloc, setup)?)
}

/// So many payloads that are nowhere.
fn nowhere(alloc: Global, count: usize) -> result::Result<Vec<Option<(Name, u64)>>, AllocError> {
    let mut places = Vec::new(alloc);
    for _ in 0..count {
        places.push(None)?;
    }
    Ok(places)
}

/// The beginning of a seed's scenario.
fn beginning(alloc: Global, seed: u64) -> Result<Stage> {
    let steps = busy(alloc, seed, STEPS)?;
    let places = nowhere(alloc, steps.len())?;
    Ok(Stage {
        core: core(alloc, seed)?,
        steps,
        places,
    })
}

/// Makes a step with this payload.
fn step(
    core: &mut Core<usize, TableDevice>,
    step: Step,
    payload: usize,
) -> result::Result<Stepped<usize>, NoMemory<usize>> {
    core.step(step, Some(payload))
}

/// Makes a step with its number as payload; again, with the payload that came back, where memory is refused. An error where
/// another came back, or none, and where memory is refused often.
fn make(core: &mut Core<usize, TableDevice>, it: &Step, number: usize) -> Result<Stepped<usize>> {
    let mut payload = number;
    for _ in 0..TRIES {
        let Ok(copy) = it.clone() else {
            continue;
        };
        match step(core, copy, payload) {
            Ok(stepped) => return Ok(stepped),
            Err(
                NoMemory {
                    payload: Some(back),
                },
            ) if back == number => payload = back,
            Err(_) => return Err(anyhow!("step {number} lost its payload")),
        }
    }
    Err(anyhow!(REFUSED))
}

/// Whether a payload came out with the callback of the transfer that had it; it has none from now on.
fn is_its(places: &mut [Option<(Name, u64)>], payload: Option<usize>, h: Name, n: u64) -> bool {
    match payload.and_then(|number| places.get_mut(number)) {
        Some(place) => place.take() == Some((h, n)),
        None => false,
    }
}

/// Whether the payload of a step is where it has to be: with the transfer that was accepted, or back. And so is what came out.
fn is_kept(places: &mut [Option<(Name, u64)>], number: usize, stepped: &Stepped<usize>) -> bool {
    let Stepped { entry, out, back } = stepped;
    match (entry.owner, &entry.reply) {
        (Some(h), Reply::Number(n)) => {
            if let Some(place) = places.get_mut(number) {
                *place = Some((h, *n));
            }
            out.is_none() && back.is_none()
        }
        (Some(h), Reply::Called(returned)) => {
            *back == Some(number) && is_its(places, *out, h, returned.n)
        }
        _ => out.is_none() && *back == Some(number),
    }
}

/// Prints what came of a step: its entry, and the payload that came out or back.
fn print<R: Print>(rt: &R, stepped: &Stepped<usize>) -> Result<()> {
    let Stepped { entry, out, back } = stepped;
    println!(rt; "{entry}")?;
    if let Some(payload) = out {
        println!(rt; "payload {payload} came out")?;
    }
    if let Some(payload) = back {
        println!(rt; "payload {payload} came back")?;
    }
    Ok(())
}

/// Makes all steps, and prints what came of each.
fn make_all<R: Print>(
    rt: &R,
    core: &mut Core<usize, TableDevice>,
    steps: &[Step],
    places: &mut [Option<(Name, u64)>],
) -> Result<()> {
    for (number, it) in steps.iter().enumerate() {
        let stepped = make(core, it, number)?;
        print(rt, &stepped)?;
        if !is_kept(places, number, &stepped) {
            return Err(anyhow!("step {number}: a payload isn't where it has to be"));
        }
    }
    Ok(())
}

/// Plays the scenario of a seed.
pub fn play<R: Print>(rt: &R, alloc: Global, seed: u64) -> Result<()> {
    for _ in 0..TRIES {
        if let Ok(mut stage) = beginning(alloc, seed) {
            return make_all(
                rt,
                &mut stage.core,
                stage.steps.as_slice(),
                &mut stage.places,
            );
        }
    }
    Err(anyhow!(REFUSED))
}
