//! Scenes of the low crates: TRBs, events, callbacks and the log; of the core, in which the bytes of its rings have to be those
//! of the standard, also over two kinds of device in one setup; and of the plain program, beside the core and over the worked rows of
//! standard input. Each prints what it saw, and its stdout is what the rules say, never what the program printed. An
//! error ends the program where a scene has more to compare than it prints.
//!
//! With the words `refusals SEED` or `drives SEED` it makes the steps of one random scenario, or runs a plan of them; with `bench` and
//! further words it does the work of a row of the benchmark.
//!
//! # Files
//!
//! - `trbs.rt`, `events.rt`, `callbacks.rt`, `log.rt`: the scenes
//! - `bytes.rt`, with its folder: the core's rings, byte by byte: short transfers and errands (`short.rt`), transfers over several TRBs
//!   (`long.rt`); what can be asked of it between two steps (`standing.rt`); how a scene is played (`scene.rt`), and whether what is
//!   found fits a line (`pattern.rt`); the core with what can be asked of its rings (`host.rt`), what was found, in words (`found.rt`),
//!   and the device (`device.rt`)
//! - `both.rt`, with its folder: the core over two kinds of device in one setup
//! - `random.rt`, with its folder: random scenarios, each run by the core and by the plain program, and a plan whose callbacks are called
//! - `rows.rt`, with its folder: the worked rows that the plain program runs
//! - `bench.rt`, with its folder: the work of the benchmark's rows
//! - `completions.rt`: what is due to a callback, of a core
//! - `changed.rt`: a TRB with a bit flipped
//! - `expect.rt`: an error that says what isn't as it has to be
//! - `digits.rt`: bytes in printed lines
//!
//! Its stdin, and the rows' part of its stdout, are written by tools/rows.py from rows/.
#![tactic(auto)]

mod bench;
mod both;
mod bytes;
mod callbacks;
mod changed;
mod completions;
mod digits;
mod events;
mod expect;
mod log;
mod random;
mod rows;
mod trbs;

use anyhow::{Result, anyhow};
use std::alloc::Global;
use std::env;
use trace_io::read_whole;

/// The words behind the program's name.
fn words(rt: &HostRuntime, alloc: Global) -> Result<Vec<String>> {
    for _ in 0..random::TRIES {
        if let Ok(words) = env::args(rt) {
            if let Ok(words) = words.skip(1).collect(alloc) {
                return Ok(words);
            }
        }
    }
    Err(anyhow!(random::REFUSED))
}

/// Runs the worked rows of standard input by the plain program.
fn run_rows(rt: &HostRuntime, alloc: Global) -> Result<()> {
    println!(rt; "worked rows, by the plain program")?;
    let text = read_whole(alloc, &mut rt.stdin())?;
    rows::run(alloc, text.as_slice(), &mut rt.stdout())
}

/// Plays all scenes.
fn play_all(rt: &HostRuntime, alloc: Global) -> Result<()> {
    trbs::play(rt)?;
    events::play(rt)?;
    callbacks::play(rt, alloc)?;
    log::play(rt, alloc)?;
    bytes::play(rt)?;
    both::play(rt, alloc)?;
    random::play(rt, alloc)?;
    run_rows(rt, alloc)
}

fn main(rt: HostRuntime) -> Result<()> {
    let alloc = rt.alloc();
    let words = words(&rt, alloc)?;
    match words.as_slice() {
        [] => play_all(&rt, alloc),
        [word, others @ ..] if word.as_str() == "bench" => bench::play(&rt, alloc, others),
        words => random::play_words(&rt, alloc, words),
    }
}
