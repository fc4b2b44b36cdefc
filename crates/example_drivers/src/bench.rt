//! A test bench: 16 threads over 4 devices, two for each handle, and a device that is unplugged amid all. Copy it for a
//! program that has many devices.
//!
//! `report.rt` is the callback with the count that it keeps, `tester.rt` a thread. The devices are simulated ones
//! (`example_devices`).

mod report;
mod tester;

use crate::bench::report::Tally;
use crate::bench::tester::{Role, Tester};
use anyhow::{Result, anyhow};
use example_devices::{Reader, devices};
use std::alloc::Global;
use std::sync::{Arc, Wait};
use std::thread::Threads;
use tirnouch::{Journal, Refused, Setup, TableDevice, live};

/// How many devices there are.
const DEVICES: u8 = 4;

/// How many handles there are: one for each of a device's two interfaces.
const HANDLES: u8 = 8;

/// The device that is unplugged.
const UNPLUGGED: u8 = 3;

/// The packets of an endpoint: as many as both threads of its handle ask for.
const PACKETS: usize = 80;

/// The counts of the handles.
fn tallies(alloc: Global) -> Result<Vec<Arc<Tally>>> {
    let mut tallies = Vec::new(alloc);
    for _ in 0..HANDLES {
        tallies.push(Arc::new(alloc, Tally::new())?)?;
    }
    Ok(tallies)
}

/// What the second thread of a handle does: that of the last takes its device away.
fn second_of(h: u8) -> Role {
    if h == HANDLES - 1 {
        Role::Unplugs
    } else {
        Role::Follows
    }
}

/// The threads: two for each handle.
fn testers(alloc: Global, tallies: &[Arc<Tally>]) -> Result<Vec<Tester>> {
    let mut testers = Vec::new(alloc);
    for (h, tally) in (0..HANDLES).zip(tallies) {
        let reader = Reader::new(h, h / 2, h % 2)?;
        testers.push(Tester {
            reader,
            role: Role::Opens,
            tally: tally.clone()?,
        })?;
        testers.push(Tester {
            reader,
            role: second_of(h),
            tally: tally.clone()?,
        })?;
    }
    Ok(testers)
}

/// The devices.
fn setup(alloc: Global) -> Result<Setup<TableDevice>> {
    let sizes = vec![in alloc; 8_u16; PACKETS]?;
    devices(alloc, DEVICES, 8, sizes.as_slice())
}

/// The bench is run: what each thread left.
fn bench<R: Threads + Wait + Sync>(
    rt: &R,
    alloc: Global,
    setup: Setup<TableDevice>,
    testers: Vec<Tester>,
) -> Result<Vec<Result<u64, Refused>>> {
    let lived = live::<_, TableDevice, Journal, _, _>(rt, alloc, setup, testers)?;
    Ok(lived.left)
}

/// How many transfers of each thread were accepted.
fn accepted_of(alloc: Global, left: Vec<Result<u64, Refused>>) -> Result<Vec<u64>> {
    let mut accepted = Vec::new(alloc);
    for count in left {
        accepted.push(count.map_err(|why| anyhow!("refused: {why}"))?)?;
    }
    Ok(accepted)
}

/// The sum of what the threads of a handle submitted.
fn sum(counts: &[u64]) -> u64 {
    let mut sum = 0_u64;
    for count in counts {
        sum = sum.saturating_add(*count);
    }
    sum
}

/// What came of the handles of some devices.
#[derive(Clone, Copy, Default)]
struct Outcome {
    /// How many handles there are.
    handles: u64,
    /// How many of their transfers were accepted.
    accepted: u64,
    /// How many callbacks were called.
    called: u64,
    /// How many of them were told that all bytes came.
    completed: u64,
    /// How many handles have as many callbacks as accepted transfers.
    whole: u64,
    /// How many handles have their callbacks in order, each once.
    in_order: u64,
}

impl Outcome {
    /// With that of another handle, of whose transfers so many were accepted.
    fn add(&mut self, tally: &Tally, accepted: u64) {
        let (called, completed) = tally.counts();
        self.handles = self.handles.saturating_add(1);
        self.accepted = self.accepted.saturating_add(accepted);
        self.called = self.called.saturating_add(called);
        self.completed = self.completed.saturating_add(completed);
        self.whole = self.whole.saturating_add(u64::from(called == accepted));
        self.in_order = self.in_order.saturating_add(u64::from(tally.is_right()));
    }
}

/// What came of the handles whose device stayed, and of those whose device was unplugged.
fn outcomes(tallies: &[Arc<Tally>], accepted: &[u64]) -> (Outcome, Outcome) {
    let (mut stayed, mut unplugged) = (Outcome::default(), Outcome::default());
    for (h, (tally, pair)) in (0..HANDLES).zip(tallies.iter().zip(accepted.chunks(2))) {
        let outcome = if h / 2 == UNPLUGGED {
            &mut unplugged
        } else {
            &mut stayed
        };
        outcome.add(tally, sum(pair));
    }
    (stayed, unplugged)
}

/// Prints what is the same however the threads run.
fn print<P: Print>(rt: &P, tallies: &[Arc<Tally>], accepted: &[u64]) -> Result<()> {
    let (stayed, unplugged) = outcomes(tallies, accepted);
    let Outcome {
        accepted: transfers,
        called,
        completed,
        ..
    } = stayed;
    println!(rt;
        "three devices: {transfers} transfers were accepted, {called} called back, and {completed} completed"
    )?;
    let Outcome {
        handles,
        in_order,
        ..
    } = stayed;
    println!(rt; "of their {handles} handles, {in_order} were called back in order")?;
    let before = accepted.last().copied().unwrap_or(0);
    println!(rt; "the unplugged one: the thread that unplugs it had {before} accepted before")?;
    let Outcome {
        handles,
        whole,
        in_order,
        ..
    } = unplugged;
    println!(rt;
        "of its {handles} handles, {whole} were called back once for each that was accepted, and {in_order} in order"
    )?;
    Ok(())
}

/// The bench, and what came of its handles.
pub fn run<R: Threads + Wait + Sync + Print>(rt: &R, alloc: Global) -> Result<()> {
    let tallies = tallies(alloc)?;
    let testers = testers(alloc, tallies.as_slice())?;
    let left = bench(rt, alloc, setup(alloc)?, testers)?;
    let accepted = accepted_of(alloc, left)?;
    print(rt, tallies.as_slice(), accepted.as_slice())
}
