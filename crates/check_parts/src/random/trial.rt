//! One scenario, run by both.

use super::scene;
use super::seen::Seen;
use super::steps::steps;
use anyhow::{Result, anyhow};
use std::alloc::Global;
use trace_io::print;
use usb_model::{Entry, Sequence, Step};

/// The plain program's entries of these steps.
fn by_plain(alloc: Global, seed: u64, steps: &[Step]) -> Result<Sequence<Entry>> {
    let setup = scene::plain(alloc, seed)?;
    match reference::run(alloc, &setup, steps) {
        Ok(entries) => Ok(entries),
        Err(_) => Err(anyhow!("scenario {seed}: the plain program stopped")),
    }
}

/// The core's.
fn by_core(alloc: Global, seed: u64, steps: &[Step]) -> Result<Sequence<Entry>> {
    match usb_core::run(alloc, scene::real(alloc, seed, scene::ANSWERS)?, steps) {
        Ok(entries) => Ok(entries),
        Err(_) => Err(anyhow!("scenario {seed}: the core stopped")),
    }
}

/// The lines of entries.
fn lines(alloc: Global, entries: &[Entry]) -> Result<Vec<u8>> {
    let mut lines = Vec::new(alloc);
    let is_whole = print::print(alloc, &mut lines, entries).is_ok();
    if is_whole {
        Ok(lines)
    } else {
        Err(anyhow!("entries aren't printed"))
    }
}

/// An error where the lines of these differ.
fn are_same(alloc: Global, seed: u64, plain: &[Entry], real: &[Entry]) -> Result<()> {
    let (plain, real) = (lines(alloc, plain)?, lines(alloc, real)?);
    if plain.as_slice() == real.as_slice() {
        Ok(())
    } else {
        Err(anyhow!("scenario {seed}: the entries differ"))
    }
}

/// Runs these steps by both: how many entries both have.
fn compare(alloc: Global, seed: u64, steps: &[Step], seen: &mut Seen) -> Result<usize> {
    let (plain, real) = (by_plain(alloc, seed, steps)?, by_core(alloc, seed, steps)?);
    are_same(alloc, seed, plain.as_slice(), real.as_slice())?;
    seen.note(real.as_slice());
    Ok(real.len())
}

/// Runs the scenario of a seed, of so many steps, by the core and by the plain program: how many entries both have. An error
/// where they differ, or where memory is refused.
pub fn run(alloc: Global, seed: u64, count: u64, seen: &mut Seen) -> Result<usize> {
    let steps = steps(alloc, seed, count)?;
    compare(alloc, seed, steps.as_slice(), seen)
}
