//! A flash memory that computes what it answers, and a driver that asks who it is, writes, erases and reads it: a core in one
//! thread. Copy it to begin.
//!
//! `driver.rt` is the driver, `memory.rt` the memory.

mod driver;
mod memory;

use crate::flash::driver::Driver;
use anyhow::Result;
use std::alloc::Global;
use std::io::Print;

/// What a memory answers to a command, as digits.
fn ask(alloc: Global, driver: &mut Driver, command: &[u8], count: u32) -> Result<String> {
    let answer = driver.query(command, count)?;
    Ok(hex::encode(alloc, answer.bytes.as_slice())?)
}

/// Writes, and in vain where that isn't enabled; then erases. The driver is lent, so that what owns the core has one way out.
fn drive<R: Print>(rt: &R, alloc: Global, driver: &mut Driver) -> Result<()> {
    println!(rt; "identity {}", ask(alloc, driver, &[0x9f], 3)?)?;
    let _enabled = driver.send(&[0x06])?;
    let _written = driver.send(&[0x02, 1, 0x54, 0x69, 0x72])?;
    let _not_enabled = driver.send(&[0x02, 1, 0, 0, 0])?;
    println!(rt; "written {}", ask(alloc, driver, &[0x03, 1, 4], 4)?)?;
    let _enabled = driver.send(&[0x06])?;
    let _erased = driver.send(&[0x20, 0])?;
    println!(rt; "erased {}", ask(alloc, driver, &[0x03, 1, 4], 4)?)?;
    Ok(())
}

/// The memory, and what it answers.
pub fn run<R: Print>(rt: &R, alloc: Global) -> Result<()> {
    let mut driver = Driver::new(alloc)?;
    drive(rt, alloc, &mut driver)
}
