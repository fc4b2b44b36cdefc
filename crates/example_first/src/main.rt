//! The driver of docs/RATTLE.md, and what it needs around it: devices, a callback, and `live`, which runs it beside both workers.
//! Copy it to begin.
//!
//! # Files
//!
//! - `main.rt`: the program
//! - `meter.rt`: the drivers
#![tactic(auto)]

mod meter;

use crate::meter::Meter;
use anyhow::{Result, anyhow};
use example_devices::devices;
use std::alloc::Global;
use std::sync::atomic::{AtomicU64, Ordering};
use std::sync::{Arc, Wait};
use std::thread::Threads;
use tirnouch::{DeviceNo, Name, Once, Returned, StoredCallback, TableDevice, Unrecorded, live};

/// Runs a driver over one device, both workers beside it, until its callback has returned.
fn run<R: Threads + Wait + Sync>(
    rt: &R,
    alloc: Global,
    meter: Meter<StoredCallback>,
) -> Result<()> {
    let setup = devices(alloc, 1, 8, &[8])?;
    let drivers = Vec::from_array(alloc, [meter])?;
    let lived = live::<_, TableDevice, Unrecorded, _, _>(rt, alloc, setup, drivers)?;
    for left in lived.left {
        let _number = left?;
    }
    Ok(())
}

/// Reads once, as handle 1 of device 0, with a callback that counts the bytes that it is told.
fn read<R: Threads + Wait + Sync>(rt: &R, alloc: Global, bytes: &Arc<AtomicU64>) -> Result<()> {
    let (Some(h), Some(dev)) = (Name::new(1), DeviceNo::new(0)) else {
        return Err(anyhow!("there is no such handle, or no such device"));
    };
    let bytes = bytes.clone()?;
    let code: Once = Box::new(alloc, move |returned: Returned| {
        let _before = bytes.fetch_add(returned.bytes.len() as u64, Ordering::SeqCst);
    })?;
    let told = StoredCallback::once(code);
    run(rt, alloc, Meter { h, dev, told })
}

fn main(rt: HostRuntime) -> Result<()> {
    let alloc = rt.alloc();
    let bytes = Arc::new(alloc, AtomicU64::new(0))?;
    read(&rt, alloc, &bytes)?;
    println!(rt; "{} bytes", bytes.load(Ordering::SeqCst))?;
    Ok(())
}
