//! A scene of workers that have nothing to do.

use crate::acts::{Act, CLAIM, Event, OPEN, READ_1};
use crate::counted::Counted;
use crate::stage::play;
use crate::turnstile::NOWHERE;
use anyhow::{Result, anyhow};
use example_devices::{Reader, device};
use std::alloc::Global;
use std::sync::atomic::{AtomicU64, Ordering};
use std::sync::{Arc, Wait};
use std::thread::Threads;
use usb_core::Setup;

/// How often a thread gives way while the workers have nothing to do.
const IDLE_TURNS: u64 = 1_000_000;

/// How often workers may look at a device in a scene with two transfers.
const FEW_LOOKS: u64 = 200;

/// A thread whose second transfer waits for a device that isn't ready.
const WAITING: [Act; 6] = [
    OPEN,
    CLAIM,
    Act::InTime(READ_1),
    Act::Await(Event::Called(1)),
    Act::InTime(READ_1),
    Act::Yield(IDLE_TURNS),
];

/// A device with one packet that counts how often it is looked at.
fn counting(alloc: Global, looks: Arc<AtomicU64>) -> Result<Setup<Counted>> {
    let (config, device) = device(alloc, 8, &[1])?;
    let mut setup = Setup::new(alloc)?;
    match setup.add(alloc, config, Counted { device, looks }) {
        Ok(()) => Ok(setup),
        Err(_) => Err(anyhow!("the device isn't added")),
    }
}

/// Plays the scene, and prints what is seen: the workers don't look again and again while a transfer waits for a device that isn't
/// ready.
pub fn play_idle<R: Threads + Wait + Sync + Print>(rt: &R, alloc: Global) -> Result<()> {
    let looks = Arc::new(alloc, AtomicU64::new(0))?;
    let setup = counting(alloc, looks.clone()?)?;
    let reader = Reader::new(1, 0, 0)?;
    let seen = play(rt, alloc, setup, NOWHERE, 1, &[reader], &[&WAITING])?;
    let are_few = looks.load(Ordering::SeqCst) <= FEW_LOOKS;
    println!(rt; "idle workers park: answered {}", seen.answers(alloc)?)?;
    println!(rt; "they looked {FEW_LOOKS} times at most: {are_few}")?;
    Ok(())
}
