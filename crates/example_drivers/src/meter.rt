//! A meter: interrupt transfers with timeouts, and a thread that tells the library the time. Copy it for a device that
//! reports.
//!
//! `reading.rt` is the callback with the count that it keeps, `driver.rt` the two threads. The device is a simulated one
//! (`example_devices`): it answers three readings, and is silent after that.

mod driver;
mod reading;

use crate::meter::driver::{Meter, Part};
use crate::meter::reading::Readings;
use anyhow::{Result, anyhow};
use example_devices::{Reader, devices};
use std::alloc::Global;
use std::sync::{Arc, Wait};
use std::thread::Threads;
use std::time::Clock;
use tirnouch::{Refused, Setup, TableDevice, Unrecorded, live};

/// The meter's two threads, which keep these readings.
fn parts<K: Clock + Drop>(
    alloc: Global,
    clock: K,
    readings: &Arc<Readings>,
) -> Result<Vec<Part<K>>> {
    let mut parts = Vec::new(alloc);
    parts.push(Part {
        meter: Meter::Reads(Reader::new(1, 0, 1)?),
        readings: readings.clone()?,
    })?;
    parts.push(Part {
        meter: Meter::Ticks(clock),
        readings: readings.clone()?,
    })?;
    Ok(parts)
}

/// Runs them: what each leaves.
fn measure<K: Clock + Drop + Send, R: Threads + Wait + Sync>(
    rt: &R,
    alloc: Global,
    setup: Setup<TableDevice>,
    parts: Vec<Part<K>>,
) -> Result<Vec<Result<(), Refused>>> {
    let lived = live::<_, TableDevice, Unrecorded, _, _>(rt, alloc, setup, parts)?;
    Ok(lived.left)
}

/// The meter, by this clock, and what came of its readings.
pub fn run<K: Clock + Drop + Send, R: Threads + Wait + Sync + Print>(
    rt: &R,
    alloc: Global,
    clock: K,
) -> Result<()> {
    let readings = Arc::new(alloc, Readings::new())?;
    let setup = devices(alloc, 1, 8, &[8, 8, 8])?;
    for left in measure(rt, alloc, setup, parts(alloc, clock, &readings)?)? {
        left.map_err(|why| anyhow!("refused: {why}"))?;
    }
    let (whole, late, other) = readings.counts();
    println!(rt; "{whole} readings came whole, {late} timed out, {other} came to something else")?;
    Ok(())
}
