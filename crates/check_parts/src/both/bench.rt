//! A core of both kinds of device, step by step, with a number for each transfer.

use super::kinds::EitherDevice;
use super::told::add_line;
use anyhow::{Result, anyhow};
use std::alloc::Global;
use usb_core::Core;
use usb_model::{Entry, Step};

/// A core of the two devices, with a number for each transfer.
pub type Numbered = Core<u8, EitherDevice>;

/// What is kept with each transfer.
pub const PAYLOAD: u8 = 77;

/// Makes a step, with a payload for a transfer that is submitted.
fn make(core: &mut Numbered, step: Step) -> Result<Entry> {
    match core.step(step, Some(PAYLOAD)) {
        Ok(stepped) => Ok(stepped.entry),
        Err(_) => Err(anyhow!("no memory")),
    }
}

/// Makes these steps. Their lines stand behind the others.
pub fn make_all(
    alloc: Global,
    core: &mut Numbered,
    steps: Vec<Step>,
    lines: &mut String,
) -> Result<()> {
    for step in steps {
        let entry = make(core, step)?;
        add_line(alloc, lines, &entry)?;
    }
    Ok(())
}
