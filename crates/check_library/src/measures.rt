//! What is streamed, and what is told of it. The numbers of a line are what bench/ reads.

use crate::load::{Load, stream};
use crate::replay::{Compared, are_alone};
use anyhow::Result;
use std::alloc::Global;
use std::sync::Wait;
use std::thread::Threads;
use std::time::Clock;
use usb_journal::{Journal, Unrecorded};

/// Eight threads, whose transfers are few enough for the gate.
const SCENE: Load = Load {
    threads: 8,
    rounds: 1,
    each: 50,
    window: 16,
    idle: 0,
};

/// Eight threads and 1,000,000 transfers.
const SOAK: Load = Load {
    threads: 8,
    rounds: 125,
    each: 1_000,
    window: 16,
    idle: 0,
};

/// 100,000 transfers of one thread, one after the other.
const SINGLE: Load = Load {
    threads: 1,
    rounds: 100,
    each: 1_000,
    window: 1,
    idle: 0,
};

/// The same, as many in line as an endpoint has places for.
const DENSE: Load = Load {
    window: 16,
    ..SINGLE
};

/// A thread that is idle for ten seconds.
const IDLE: Load = Load {
    rounds: 1,
    idle: 10_000,
    ..DENSE
};

/// What is seen of a load behind it.
#[derive(Clone, Copy)]
struct Outcome {
    /// How many handles were told what they are told alone, and of how many callbacks.
    alone: Compared,
    /// How many places the journal has.
    places: usize,
    /// How many milliseconds it took.
    ms: u128,
}

/// A load, after which each handle was told what it is told alone.
fn replayed<K: Clock, R: Threads + Wait + Sync>(
    rt: &R,
    alloc: Global,
    clock: &K,
    load: &Load,
) -> Result<Outcome> {
    let (took, journal) = stream::<Journal, K, R>(rt, alloc, clock, load)?;
    let sizes = load.sizes(alloc)?;
    let places = journal.places(alloc)?;
    let alone = are_alone(alloc, places.as_slice(), sizes.as_slice(), load.threads)?;
    Ok(Outcome {
        alone,
        places: places.len(),
        ms: took.as_millis(),
    })
}

/// Four devices, eight threads with a handle and an interface each, and fifty transfers of each: how many handles were told what
/// they are told alone, and of how many callbacks.
pub fn many_callers<K: Clock, R: Threads + Wait + Sync>(
    rt: &R,
    alloc: Global,
    clock: &K,
) -> Result<Compared> {
    Ok(replayed(rt, alloc, clock, &SCENE)?.alone)
}

/// Many of them: how many places the journal has, and the milliseconds.
pub fn soak<K: Clock, R: Threads + Wait + Sync>(
    rt: &R,
    alloc: Global,
    clock: &K,
) -> Result<String> {
    let Outcome { alone, places, ms } = replayed(rt, alloc, clock, &SOAK)?;
    let Compared { handles, callbacks } = alone;
    Ok(format!(in alloc;
        "soak: {places} places, {ms} ms, {callbacks} callbacks, {handles} handles as if each were alone"
    )?)
}

/// The nanoseconds of one of 100,000 transfers.
fn nanoseconds<K: Clock, R: Threads + Wait + Sync>(
    rt: &R,
    alloc: Global,
    clock: &K,
    load: &Load,
) -> Result<u128> {
    let (took, _) = stream::<Unrecorded, K, R>(rt, alloc, clock, load)?;
    Ok(took.as_nanos() / 100_000)
}

/// One transfer after the other, from a submission to its callback.
pub fn latency<K: Clock, R: Threads + Wait + Sync>(
    rt: &R,
    alloc: Global,
    clock: &K,
) -> Result<String> {
    let ns = nanoseconds(rt, alloc, clock, &SINGLE)?;
    Ok(format!(in alloc; "latency: {ns} ns")?)
}

/// As many as an endpoint has places for.
pub fn rate<K: Clock, R: Threads + Wait + Sync>(
    rt: &R,
    alloc: Global,
    clock: &K,
) -> Result<String> {
    let ns = nanoseconds(rt, alloc, clock, &DENSE)?;
    Ok(format!(in alloc; "rate: {ns} ns a transfer")?)
}

/// Workers with nothing to do for ten seconds. The processor time is told by `time`.
pub fn idle<K: Clock, R: Threads + Wait + Sync>(
    rt: &R,
    alloc: Global,
    clock: &K,
) -> Result<String> {
    let (took, _) = stream::<Unrecorded, K, R>(rt, alloc, clock, &IDLE)?;
    let ms = took.as_millis();
    Ok(format!(in alloc; "idle: {ms} ms")?)
}
