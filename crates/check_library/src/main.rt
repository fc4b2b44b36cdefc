//! The library's scenes: calls by its one caller, whose entries are printed, and threads, of whom what was seen is printed, as far as it
//! is the same however they run. A thread waits a bounded number of turns at most, so that a hang is a failure, and not a wait.
//!
//! With the word `refusals` the scenes of one caller alone are played. What they print is the same whichever allocation was
//! refused: a call is made again where memory is refused, and so is the whole scene where it is refused before the first call or
//! after the last. With another word it measures, by hand or for bench/ (docs/BENCH.md).
//!
//! # Files
//!
//! - `board.rt`: the library's calls, one a function, which give a value or a refusal
//! - `call.rt`, `calls.rt`: a call as a value; the calls of the scenes with one caller
//! - `single.rt`, `life.rt`: the one caller of a library; the library from its beginning to its end
//! - `woken.rt`: which workers each call wakes
//! - `gates.rt`, `bursts.rt`, `idle.rt`: scenes of threads
//! - `scene.rt`, `acts.rt`: such a scene as data; what a thread does, act by act
//! - `stage.rt`, `player.rt`: a scene is played; a thread that does its acts
//! - `signals.rt`, `turnstile.rt`, `callback.rt`, `counted.rt`: what threads tell each other; gates, callbacks and a device
//!   that take part
//! - `load.rt`, `replay.rt`: threads that stream; each handle beside the others and alone
//! - `measures.rt`, `reads.rt`: what is timed: several threads; one or two that make all calls themselves
//!
//! Its stdout is what the rules say, never what a program printed.
#![tactic(auto)]

mod acts;
mod board;
mod bursts;
mod call;
mod callback;
mod calls;
mod counted;
mod gates;
mod idle;
mod life;
mod load;
mod measures;
mod player;
mod reads;
mod replay;
mod scene;
mod signals;
mod single;
mod stage;
mod turnstile;
mod woken;

use crate::call::Call;
use crate::calls::{CALLS, FOUR_SIZES, ROWS, TWO_SIZES};
use crate::life::{Left, play};
use crate::replay::Compared;
use anyhow::{Result, anyhow};
use std::alloc::Global;
use std::env;
use std::sync::Wait;
use std::thread::Threads;
use std::time::Clock;
use usb_journal::{Journal, Unrecorded};

/// So often a thing is tried where memory is refused; and what is said then.
const TRIES: u32 = 3;

const REFUSED: &str = "memory is refused again and again";

/// Plays a scene of one caller, again where memory is refused.
fn played<R: Wait>(rt: &R, alloc: Global, sizes: &[u16], calls: &[Call]) -> Result<Left> {
    for _ in 0..TRIES {
        if let Ok(left) = play(rt, alloc, sizes, calls) {
            return Ok(left);
        }
    }
    Err(anyhow!(REFUSED))
}

/// Prints the entries of a scene's journal, and what was kept with the results that went out, a line each.
fn print_left<R: Print>(rt: &R, left: &Left) -> Result<()> {
    for place in &left.places {
        let entry = &place.entry;
        println!(rt; "{entry}")?;
    }
    for payload in &left.kept {
        println!(rt; "kept {payload}")?;
    }
    let rest = if left.at_rest {
        "at rest"
    } else {
        "something is left to be done"
    };
    println!(rt; "{rest}")?;
    Ok(())
}

/// Prints the steps in a row that calls for such made, a line each.
fn print_rows<R: Print>(rt: &R, left: &Left) -> Result<()> {
    for row in &left.rows {
        println!(rt; "a row of {} from place {}", row.count, row.first)?;
    }
    Ok(())
}

/// Plays the scenes of one caller.
fn play_calls<R: Wait + Print>(rt: &R, alloc: Global) -> Result<()> {
    println!(rt;
        "calls, by the last of 1024 callers, more than which there can't be: what the journal has of each, and what was kept with the results"
    )?;
    print_left(rt, &played(rt, alloc, &TWO_SIZES, &CALLS)?)?;
    println!(rt;
        "rows: at consecutive places, as many steps as there is something to do, and no more than asked for"
    )?;
    let left = played(rt, alloc, &FOUR_SIZES, &ROWS)?;
    print_rows(rt, &left)?;
    print_left(rt, &left)
}

/// Plays the same where memory may be refused: a row may be shorter then, and go on in the next.
fn play_refusals<R: Wait + Print>(rt: &R, alloc: Global) -> Result<()> {
    print_left(rt, &played(rt, alloc, &TWO_SIZES, &CALLS)?)?;
    print_left(rt, &played(rt, alloc, &FOUR_SIZES, &ROWS)?)
}

/// Plays the scenes of threads. Each prints what it saw.
fn play_threads<K: Clock, R: Threads + Wait + Sync + Print>(
    rt: &R,
    alloc: Global,
    clock: &K,
) -> Result<()> {
    woken::play_woken(rt, alloc)?;
    for scene in gates::SCENES {
        scene.play(rt, alloc)?;
    }
    idle::play_idle(rt, alloc)?;
    let packets = bursts::packets_before_a_call(rt, alloc)?;
    println!(rt; "bursts: a call waits behind {packets} packets of another transfer")?;
    let Compared { handles, callbacks } = measures::many_callers(rt, alloc, clock)?;
    println!(rt;
        "many callers: {callbacks} callbacks of {handles} handles, each as if it were alone"
    )?;
    Ok(())
}

/// What a word measures.
fn measured<K: Clock, R: Threads + Wait + Sync>(
    rt: &R,
    alloc: Global,
    clock: &K,
    word: &str,
) -> Result<String> {
    match word {
        "soak" => measures::soak(rt, alloc, clock),
        "latency" => measures::latency(rt, alloc, clock),
        "rate" => measures::rate(rt, alloc, clock),
        "idle" => measures::idle(rt, alloc, clock),
        "pair" => reads::pair(rt, alloc, clock),
        _ => Err(anyhow!("refusals, soak, latency, rate, idle, pair, library N or unrecorded N")),
    }
}

/// So many reads by one thread, with a journal or without.
fn read<K: Clock, R: Threads + Wait + Sync>(
    rt: &R,
    alloc: Global,
    clock: &K,
    word: &str,
    turns: &str,
) -> Result<String> {
    let Ok(turns) = turns.parse::<u64>() else {
        return Err(anyhow!("how many reads"));
    };
    match word {
        "library" => reads::many::<Journal, K, R>(rt, alloc, clock, word, turns),
        "unrecorded" => reads::many::<Unrecorded, K, R>(rt, alloc, clock, word, turns),
        _ => Err(anyhow!("library N or unrecorded N")),
    }
}

/// The words behind the program's name.
fn words(rt: &HostRuntime, alloc: Global) -> Result<Vec<String>> {
    for _ in 0..TRIES {
        if let Ok(words) = env::args(rt) {
            if let Ok(words) = words.skip(1).collect(alloc) {
                return Ok(words);
            }
        }
    }
    Err(anyhow!(REFUSED))
}

/// Does what the words ask for.
fn run<R: Threads + Wait + Sync + Clock + Print>(
    rt: &R,
    alloc: Global,
    words: &[String],
) -> Result<()> {
    match words {
        [] => {
            play_calls(rt, alloc)?;
            play_threads(rt, alloc, rt)
        }
        [word] if word.as_str() == "refusals" => play_refusals(rt, alloc),
        [word] => {
            let line = measured(rt, alloc, rt, word.as_str())?;
            println!(rt; "{line}")?;
            Ok(())
        }
        [word, turns] => {
            let line = read(rt, alloc, rt, word.as_str(), turns.as_str())?;
            println!(rt; "{line}")?;
            Ok(())
        }
        _ => Err(anyhow!("one word, or two")),
    }
}

fn main(rt: HostRuntime) -> Result<()> {
    let alloc = rt.alloc();
    let words = words(&rt, alloc)?;
    run(&rt, alloc, words.as_slice())
}
