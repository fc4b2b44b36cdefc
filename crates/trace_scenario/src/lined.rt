//! A scenario, with the lines that its steps stand in.

ghost use Rattle.std.specs.Prelude.{◌≡◌, ◌++◌, ◌∷◌, [], IfErr, IfOk, Ok, length, map, true, if◌then◌else◌};
ghost use Rattle.std.specs.Option.{option_to_list};
ghost use Rattle.trace_scenario.specs.DeviceLines.{described, device_lines};
ghost use Rattle.usb_scripttext.specs.Results.{IsFaultOf};
ghost use Rattle.trace_scenario.specs.Runnable.{IsRunnable};
ghost use Rattle.trace_scenario.specs.Scenario.{scenario_of};
ghost use Rattle.trace_scenario.specs.StepLines.{has_grown, numbered, step_lines};

use crate::described::{DescribedDevice, described};
use crate::draft::Draft;
use crate::scenario::Scenario;
use std::alloc::{AllocError, Global};
use usb_scripttext::TextFault;

/// A line of a text.
#[derive(Clone, Copy)]
pub struct NumberedLine<'a> {
    /// Its number, from 1.
    pub number: u64,
    /// Its bytes, without the line feed.
    pub text: &'a [u8],
}

/// A scenario that was read, of each piece of its plan the line that says it, and its devices' lines.
#[derive(Drop)]
pub struct Lined<'a> {
    /// The scenario.
    pub scenario: Scenario,
    /// The lines, one for each piece, in order.
    pub lines: Vec<NumberedLine<'a>>,
    /// The lines of its devices, in order.
    pub devices: Vec<DescribedDevice>,
}

/// Keeps a line, if it says a step and lines are kept.
fn keep<'a>(
    lines: &mut Vec<NumberedLine<'a>>,
    number: u64,
    text: &'a [u8],
    says_step: bool,
    keeps: bool,
) -> Result<(), AllocError>
    ensures { IfOk result (λ _. keeps ≡ true → map numbered lines.new.items ≡ map numbered lines.old.items ++ (if says_step then (number, text.now) ∷ [] else [])) }
{
    if keeps && says_step {
        lines.push(NumberedLine { number, text })?;
    }
    Ok(())
}

/// Keeps the device of a line, if it says one.
fn keep_device(
    alloc: Global,
    devices: &mut Vec<DescribedDevice>,
    number: u64,
    text: &[u8],
    says_device: bool,
) -> Result<(), AllocError>
    ensures { IfOk result (λ _. devices.new.items ≡ devices.old.items ++ (if says_device then option_to_list (described number text.now) else [])) }
{
    if !says_device {
        return Ok(());
    }
    if let Some(device) = described(alloc, number, text)? {
        devices.push(device)?;
    }
    Ok(())
}

/// The scenario of a text with the lines of its steps and devices, or the fault in it: its first line that isn't taken, or want of memory.
/// What it gives can be run.
pub fn read_lined<'a>(alloc: Global, text: &'a [u8]) -> Result<Lined<'a>, TextFault>
    ensures scenario { IfOk result (λ read. scenario_of text.now ≡ Ok read.scenario) }
    ensures fault { IfErr result (λ fault. IsFaultOf fault (scenario_of text.now)) }
    ensures runnable { IfOk result (λ read. IsRunnable read.scenario) }
    ensures lines { IfOk result (λ read. map numbered read.lines.items ≡ step_lines text.now) }
    ensures devices { IfOk result (λ read. read.devices.items ≡ device_lines text.now) }
    ensures each { IfOk result (λ read. length read.lines.items ≡ length read.scenario.plan) }
{
    read_text(alloc, text, true)
}

/// The same; the lines of steps are there only where they are asked for, since they take 24 bytes for each step.
pub(crate) fn read_text<'a>(
    alloc: Global,
    text: &'a [u8],
    keeps: bool,
) -> Result<Lined<'a>, TextFault>
    ensures scenario { IfOk result (λ read. scenario_of text.now ≡ Ok read.scenario) }
    ensures fault { IfErr result (λ fault. IsFaultOf fault (scenario_of text.now)) }
    ensures runnable { IfOk result (λ read. IsRunnable read.scenario) }
    ensures lines { IfOk result (λ read. keeps ≡ true → map numbered read.lines.items ≡ step_lines text.now) }
    ensures devices { IfOk result (λ read. read.devices.items ≡ device_lines text.now) }
    ensures each { IfOk result (λ read. keeps ≡ true → length read.lines.items ≡ length read.scenario.plan) }
{
    let mut draft = Draft::new(alloc);
    let mut words = Vec::new(alloc);
    let mut lines = Vec::new(alloc);
    let mut devices = Vec::new(alloc);
    let mut number: u64 = 0;
    for line in text.split(|byte| *byte == b'\n') {
        number = number.saturating_add(1);
        let (pieces, setups) = (draft.pieces(), draft.setups());
        if let Err(fault) = draft.read(alloc, line, &mut words) {
            return Err(TextFault::at(number, fault));
        }
        let says_step = pieces < draft.pieces();
        let Ok(()) = keep(&mut lines, number, line, says_step, keeps) else {
            return Err(TextFault::Memory);
        };
        let says_device = setups < draft.setups();
        let Ok(()) = keep_device(alloc, &mut devices, number, line, says_device) else {
            return Err(TextFault::Memory);
        };
    }
    Ok(Lined {
        scenario: draft.into_scenario(),
        lines,
        devices,
    })
}
