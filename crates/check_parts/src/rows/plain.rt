//! A row's scenario, run by the plain program.

use super::row::Row;
use anyhow::{Result, anyhow};
use reference::{drive, drive_alone};
use std::alloc::{AllocError, Global};
use std::io::Write;
use std::result;
use trace_io::print::print;
use trace_scenario::{Scenario, read_scenario};
use usb_device::into_setups;
use usb_model::{Entry, Name, Sequence};

/// A run whose entries are printed.
#[derive(Clone, Copy)]
enum Run {
    /// That of all handles.
    Whole,
    /// That of one, alone over its own steps.
    Alone(Name),
}

/// The run that a row's words ask for. None where they ask for another thing.
fn asked_by(words: &str) -> Option<Run> {
    if words == "usbtrace run" {
        return Some(Run::Whole);
    }
    let number: u8 = words.strip_prefix("usbtrace alone ")?.parse().ok()?;
    Some(Run::Alone(Name::new(number)?))
}

/// The plain program's entries of a scenario. An error where memory is refused.
fn entries_of(
    alloc: Global,
    scenario: Scenario,
    asked: Run,
) -> result::Result<Sequence<Entry>, AllocError> {
    let Scenario { setup, plan, rules } = scenario;
    let setup = into_setups(alloc, setup)?;
    let (plan, rules) = (plan.as_slice(), rules.as_slice());
    match asked {
        Run::Whole => drive(alloc, &setup, plan, rules).map_err(|_| AllocError),
        Run::Alone(h) => Ok(drive_alone(alloc, &setup, plan, rules, h)?.alone),
    }
}

/// Prints what the plain program prints of a row. An error where the row asks for another thing than a run, or its scenario isn't read.
pub fn print_plain<W: Write>(alloc: Global, row: &Row<'_>, out: &mut W) -> Result<()> {
    let (Some(asked), Ok(scenario)) = (asked_by(row.words), read_scenario(alloc, row.input)) else {
        return Err(anyhow!("no run of {}", row.name));
    };
    print(alloc, out, entries_of(alloc, scenario, asked)?.as_slice())?;
    Ok(())
}
