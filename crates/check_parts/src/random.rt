//! Random scenarios, each run by the core and by the plain program: their entries have to be the same.
//!
//! With the words `refusals SEED` it makes the steps of one scenario, with `drives SEED` it runs a plan of these steps. What it
//! prints is the same whichever allocation was refused: what finds no memory is done again.
//!
//! - `dice.rt`: numbers that look random, the same at each run
//! - `scene.rt`, `steps.rt`: two devices with random scripts, for both programs; random steps
//! - `seen.rt`, `trial.rt`: which kinds of replies were seen; one scenario, run by both
//! - `plan.rt`: a plan whose callbacks are called, and what is told of it
//! - `refusals.rt`, `drives.rt`: steps with their payloads, and a random plan, made again where memory is refused

mod dice;
mod drives;
mod plan;
mod refusals;
mod scene;
mod seen;
mod steps;
mod trial;

use anyhow::{Result, anyhow};
use std::alloc::Global;

/// How many scenarios there are.
const SCENARIOS: u64 = 300;

/// How many steps each of them has.
const STEPS: u64 = 400;

/// So often a thing is tried where memory is refused; and what is said then.
pub const TRIES: u32 = 3;

pub const REFUSED: &str = "memory is refused again and again";

/// Runs all scenarios, and the plan. Prints how much was compared, and what is told of the plan.
pub fn play<R: Print>(rt: &R, alloc: Global) -> Result<()> {
    let mut seen = seen::Seen::default();
    let (mut scenarios, mut entries): (u64, usize) = (0, 0);
    for seed in 0..SCENARIOS {
        let same = trial::run(alloc, seed, STEPS, &mut seen)?;
        scenarios = scenarios.saturating_add(1);
        entries = entries.saturating_add(same);
    }
    let (kinds, all) = (seen.count(), seen::KINDS);
    println!(rt;
        "{scenarios} scenarios of {STEPS} steps: {entries} entries are the same by both, with {kinds} of {all} kinds of reply"
    )?;
    plan::play(rt, alloc)
}

/// The number of a seed.
fn number(seed: &String) -> Result<u64> {
    match seed.as_str().parse::<u64>() {
        Ok(number) => Ok(number),
        Err(_) => Err(anyhow!("a seed is a number")),
    }
}

/// Does what these words ask for.
pub fn play_words<R: Print>(rt: &R, alloc: Global, words: &[String]) -> Result<()> {
    match words {
        [word, seed] if word.as_str() == "refusals" => refusals::play(rt, alloc, number(seed)?),
        [word, seed] if word.as_str() == "drives" => drives::play(rt, alloc, number(seed)?),
        _ => Err(anyhow!("refusals SEED, or drives SEED")),
    }
}
