//! Four drivers to copy: a scanner, a meter, a test bench over the library in threads, and a flash memory over a core in one
//! thread. Each prints what it saw, which is the same however the threads run.
//!
//! # Files
//!
//! - `main.rt`: the program
//! - `scanner.rt`, with its folder: bulk transfers that go round until they are cancelled
//! - `meter.rt`, with its folder: interrupt transfers with timeouts, and a thread that tells the library the time
//! - `bench.rt`, with its folder: 16 threads over 4 devices, and one that is unplugged
//! - `flash.rt`, with its folder: a memory that computes what it answers, and its driver
#![tactic(auto)]

mod bench;
mod flash;
mod meter;
mod scanner;

use anyhow::Result;

fn main(rt: HostRuntime) -> Result<()> {
    let alloc = rt.alloc();
    println!(rt; "a scanner:")?;
    scanner::run(&rt, alloc)?;
    println!(rt; "a meter:")?;
    meter::run(&rt, alloc, rt)?;
    println!(rt; "a test bench:")?;
    bench::run(&rt, alloc)?;
    println!(rt; "a flash memory:")?;
    flash::run(&rt, alloc)
}
