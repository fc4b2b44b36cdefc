//! A load: threads that stream transfers over a library that lives.

use crate::acts::{Act, CLAIM, OPEN, RELEASE_IN_TIME};
use crate::signals::Signals;
use crate::stage::{Remains, all_played, lived, players};
use crate::turnstile::{NOWHERE, Turnstile};
use anyhow::Result;
use crossbeam_utils::sync::Parker;
use example_devices::{Reader, devices};
use std::alloc::Global;
use std::sync::Wait;
use std::thread::Threads;
use std::time::{Clock, Duration, Instant};
use usb_core::Setup;
use usb_device::TableDevice;
use usb_journal::Recorder;
use usb_workers::BURST;

/// The devices: two handles have an interface each of one.
pub const DEVICES: u8 = 4;

/// What threads stream.
#[derive(Clone, Copy)]
pub struct Load {
    /// How many threads, 1 to 8.
    pub threads: u8,
    /// How many rounds each has.
    pub rounds: u64,
    /// How many transfers a round has, at most 4,096.
    pub each: u64,
    /// How many transfers a thread has in line.
    pub window: u64,
    /// How many milliseconds it is idle then.
    pub idle: u64,
}

impl Load {
    /// The packets of a round: 8 bytes each.
    pub fn sizes(&self, alloc: Global) -> Result<Vec<u16>> {
        Ok(Vec::from_elem(alloc, 8_u16, self.each as usize)?)
    }

    /// What each thread does: it claims, reads and releases, round after round, and is idle then.
    fn acts(&self, alloc: Global) -> Result<Vec<Act>> {
        let mut acts = Vec::from_array(alloc, [OPEN])?;
        for _ in 0..self.rounds {
            acts.push(CLAIM)?;
            acts.push(Act::Stream(self.each, self.window))?;
            acts.push(RELEASE_IN_TIME)?;
        }
        acts.push(Act::Rest(self.idle))?;
        Ok(acts)
    }

    /// The handles, each with an interface.
    fn readers(&self, alloc: Global) -> Result<Vec<Reader>> {
        let mut readers = Vec::new(alloc);
        for h in 0..self.threads {
            readers.push(Reader::new(h, h / 2, h % 2)?)?;
        }
        Ok(readers)
    }
}

/// Streams a load: how long it took, and what was kept of its journal.
pub fn stream<J: Recorder + Send, K: Clock, R: Threads + Wait + Sync>(
    rt: &R,
    alloc: Global,
    clock: &K,
    load: &Load,
) -> Result<(Duration, J)>
where
    J::Draft: Send,
{
    let acts = load.acts(alloc)?;
    let setup = devices(alloc, DEVICES, 8, load.sizes(alloc)?.as_slice())?;
    played::<J, K, R>(
        rt,
        alloc,
        clock,
        setup,
        load.readers(alloc)?.as_slice(),
        acts.as_slice(),
    )
}

/// The same of these handles over the devices, each of which does these acts.
fn played<J: Recorder + Send, K: Clock, R: Threads + Wait + Sync>(
    rt: &R,
    alloc: Global,
    clock: &K,
    setup: Setup<TableDevice>,
    readers: &[Reader],
    acts: &[Act],
) -> Result<(Duration, J)>
where
    J::Draft: Send,
{
    let parker = Parker::new(alloc)?;
    let signals = Signals::new(alloc, readers.len(), parker.unparker().clone()?)?;
    let players = players(alloc, readers, &[acts; 8], &signals, parker)?;
    let start = Instant::now(clock)?;
    let gates = Turnstile::both(NOWHERE, BURST, &signals);
    let Remains { kept, left, .. } = lived::<TableDevice, J, R>(rt, alloc, setup, gates, players)?;
    let took = start.elapsed(clock)?;
    all_played(alloc, left)?;
    Ok((took, kept))
}
