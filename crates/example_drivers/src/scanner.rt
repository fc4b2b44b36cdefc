//! A scanner: bulk transfers of 65,536 bytes go round, each submitted again from its callback, until they are cancelled
//! at a random moment. Copy it for a device that streams.
//!
//! `strip.rt` is the callback with the count that it keeps, `driver.rt` the driver. The device is a simulated one
//! (`example_devices`), whose bytes are numbered, so that the program sees whether each came, and in its order.

mod driver;
mod strip;

use crate::scanner::driver::{IN_LINE, Scanner};
use crate::scanner::strip::Tally;
use anyhow::{Result, anyhow};
use example_devices::{Reader, devices};
use std::alloc::Global;
use std::random::RandomSource;
use std::sync::{Arc, Wait};
use std::thread::Threads;
use tirnouch::{Refused, Setup, TableDevice, Unrecorded, live};

/// The packets of the device: 32 transfers' worth. Behind them it isn't ready.
const PACKETS: usize = 4_096;

/// The size of a packet (USB 2.0, 5.8.3).
const PACKET: u16 = 512;

/// The driver, which keeps this tally and has enough at a random moment.
fn scanning<R: RandomSource>(rt: &R, tally: &Arc<Tally>) -> Result<Scanner> {
    let mut moment = [0_u8; 2];
    rt.fill_bytes(&mut moment)?;
    Ok(Scanner {
        reader: Reader::new(1, 0, 0)?,
        tally: tally.clone()?,
        moment: u64::from(u16::from_le_bytes(moment)),
    })
}

/// The device, of which every packet is full.
fn device(alloc: Global) -> Result<Setup<TableDevice>> {
    let sizes = vec![in alloc; PACKET; PACKETS]?;
    devices(alloc, 1, PACKET, sizes.as_slice())
}

/// Scans: how many transfers weren't called back.
fn scan<R: Threads + Wait + Sync>(
    rt: &R,
    alloc: Global,
    setup: Setup<TableDevice>,
    scanner: Scanner,
) -> Result<Vec<Result<u64, Refused>>> {
    let drivers = Vec::from_array(alloc, [scanner])?;
    let lived = live::<_, TableDevice, Unrecorded, _, _>(rt, alloc, setup, drivers)?;
    Ok(lived.left)
}

/// The scanner, and what it saw.
pub fn run<R: Threads + Wait + Sync + RandomSource + Print>(rt: &R, alloc: Global) -> Result<()> {
    let tally = Arc::new(alloc, Tally::new(IN_LINE))?;
    for left in scan(rt, alloc, device(alloc)?, scanning(rt, &tally)?)? {
        let missing = left.map_err(|why| anyhow!("refused: {why}"))?;
        println!(rt; "transfers that weren't called back: {missing}")?;
    }
    let (callbacks, bytes) = tally.misplaced();
    println!(rt; "callbacks that came out of their order: {callbacks}")?;
    println!(rt; "bytes that came out of their order, up to the cancel: {bytes}")?;
    Ok(())
}
