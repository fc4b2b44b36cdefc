//! The work of each row of the benchmark (bench/, docs/BENCH.md): a kind of work is done so many times, and gives a number that depends
//! on all that came out, and how long it took. It is done by hand, and by no gate.
//!
//! - `codes.rt`, `transfers.rt`, `events.rt`: work of the rings
//! - `shape.rt`, `traffic.rt`, `calls.rt`: devices and transfers by numbers; whole transfers through the core, call by call

mod calls;
mod codes;
mod events;
mod shape;
mod traffic;
mod transfers;

use anyhow::{Result, anyhow};
use codes::Coding;
use events::Events;
use shape::Shape;
use std::alloc::Global;
use std::time::{Clock, Instant};
use traffic::Traffic;
use transfers::Transfers;

/// A Normal TRB is written to one of 128 cells, and another of them is read.
fn coding_work(alloc: Global, turns: u64) -> Option<u64> {
    let mut coding = Coding::new(alloc).ok()?;
    Some(coding.turn(turns))
}

/// A transfer of one TRB is put on a ring, read, passed and dropped.
fn transfers_work(alloc: Global, turns: u64) -> Option<u64> {
    let mut transfers = Transfers::new(alloc).ok()?;
    Some(transfers.turn(turns))
}

/// An event is posted and taken.
fn events_work(alloc: Global, turns: u64) -> Option<u64> {
    let mut events = Events::new(alloc).ok()?;
    Some(events.turn(turns))
}

/// Work of the rings, by its word.
fn part(alloc: Global, word: &str, turns: u64) -> Option<u64> {
    match word {
        "coding" => coding_work(alloc, turns),
        "transfers" => transfers_work(alloc, turns),
        "events" => events_work(alloc, turns),
        _ => None,
    }
}

/// A transfer of this shape goes through the core, from its submission to its end; or the first device is reset.
fn whole(alloc: Global, word: &str, shape: Shape, turns: u64) -> Option<u64> {
    let mut traffic = Traffic::new(alloc, shape)?;
    match word {
        "traffic" => Some(traffic.turn(turns)),
        "resets" => Some(traffic.reset(turns)),
        _ => None,
    }
}

/// The number that a word is.
fn number(words: &[String], at: usize) -> Option<u64> {
    words.get(at)?.as_str().parse().ok()
}

/// The shape of these words, in the order of its fields.
fn shape_in(words: &[String]) -> Option<Shape> {
    Some(Shape {
        at_once: number(words, 0)?,
        groups: number(words, 1)?,
        first: number(words, 2)?,
        length: number(words, 3)?.try_into().ok()?,
        answers: number(words, 4)?.try_into().ok()?,
        size: number(words, 5)?.try_into().ok()?,
        devices: number(words, 6)?.try_into().ok()?,
        endpoints: number(words, 7)?.try_into().ok()?,
    })
}

/// Does what the words ask for: a word, the numbers of a shape where it has one, and how many turns. None where they ask for nothing
/// that is known, or memory is refused.
fn done(alloc: Global, words: &[String]) -> Option<u64> {
    let [word, numbers @ ..] = words else {
        return None;
    };
    match numbers {
        [_] => part(alloc, word.as_str(), number(numbers, 0)?),
        _ => whole(
            alloc,
            word.as_str(),
            shape_in(numbers)?,
            number(numbers, 8)?,
        ),
    }
}

/// Does it, and prints the number that came out, and the nanoseconds.
pub fn play<R: Clock + Print>(rt: &R, alloc: Global, words: &[String]) -> Result<()> {
    let start = Instant::now(rt)?;
    let done = done(alloc, words);
    let ns = start.elapsed(rt)?.as_nanos();
    let Some(sum) = done else {
        return Err(anyhow!("no such work, or no memory"));
    };
    println!(rt; "sum {sum}, {ns} ns")?;
    Ok(())
}
