//! A scene of a worker that goes by rows: a call of another thread comes between two of them.

use crate::acts::{Act, CLAIM, Deed, Event, OPEN, READ_8};
use crate::callback::Manner;
use crate::signals::Mark;
use crate::stage::play;
use crate::turnstile::Stop;
use anyhow::{Result, anyhow};
use example_devices::{Reader, devices};
use std::alloc::Global;
use std::sync::Wait;
use std::thread::Threads;
use usb_journal::Place;
use usb_model::Step;
use usb_workers::{BURST, WorkerStep};

/// How many packets of 8 bytes a read has: more than a row.
const PACKETS: usize = 200;

/// The sizes of the packets of that read, and of another.
const SIZES: [u16; PACKETS + 1] = [8; PACKETS + 1];

/// A long read; and another, submitted while the controller's worker is held before its second row.
const ACTS: [Act; 6] = [
    OPEN,
    CLAIM,
    Act::InTime(Deed::Read(8 * PACKETS as u32, Manner::Stops)),
    Act::Await(Event::Said(Mark::AtGate)),
    Act::InTime(READ_8),
    Act::Say(Mark::GoOn),
];

/// How many packets stand in the journal between the first submission and the second; None where there is no second.
fn packets_between(places: &[Place]) -> Option<u32> {
    let mut packets: u32 = 0;
    let mut submissions: u32 = 0;
    for place in places {
        match &place.step {
            Step::Submit { .. } if submissions == 1 => return Some(packets),
            Step::Submit { .. } => submissions = 1,
            Step::Serve { .. } => packets = packets.saturating_add(1),
            _ => {}
        }
    }
    None
}

/// Behind how many packets a call waits that comes while the worker is held behind its first row.
pub fn packets_before_a_call<R: Threads + Wait + Sync>(rt: &R, alloc: Global) -> Result<u32> {
    let reader = Reader::new(1, 0, 0)?;
    let setup = devices(alloc, 1, 8, &SIZES)?;
    let stop = Stop(WorkerStep::Serve, 2);
    let seen = play(rt, alloc, setup, stop, BURST, &[reader], &[&ACTS])?;
    match packets_between(seen.places.as_slice()) {
        Some(packets) => Ok(packets),
        None => Err(anyhow!("there is no second submission")),
    }
}
