//! Inputs of which only a part can be printed: what is missing is told on standard error.

ghost use Rattle.std.specs.Prelude.{◌≡◌, is_some};
ghost use Rattle.trace_options.specs.Inputs.{is_half};
ghost use Rattle.trace_options.specs.Status.{half_status};

use crate::statuses::{half_status, print_all};
use std::alloc::Global;
use std::io::Write;
use trace_descriptor::{TableStop, description_stop};
use trace_faults::DescriptorFault;
use trace_io::{Fault, Task};
use trace_scenario::{NumberedLine, read_lined};
use usb_scripttext::TextFault;

/// The line with which the text of a capture begins that ends amid a record.
const CUT_LINE: &[u8] = b"# the capture ends amid a record\n";

/// Whether a task is done over an input that is read first, to tell what is missing of it, or more of a test.
pub fn may_lack(task: &Task) -> bool
    ensures { result ≡ is_half task.now }
{
    match task {
        Task::Draw { from, to } | Task::Page { from, to } => *from > 1 || *to < u64::MAX,
        Task::Describe | Task::Devices(_) | Task::Test => true,
        _ => false,
    }
}

/// Where the table of a file ends early; None where all is printed, or nothing. Only memory may be wanting.
pub fn stop_of(alloc: Global, file: &[u8]) -> Result<Option<TableStop>, Fault> {
    match description_stop(alloc, file) {
        Ok(stop) => Ok(stop),
        Err(DescriptorFault::Memory) => Err(Fault::Memory),
        Err(_) => Ok(None),
    }
}

/// Tells where a table ends early, if it does and the run ended well, and answers the status.
pub fn tell_stop<E: Write>(stop: Option<TableStop>, status: u8, err: &mut E) -> u8
    ensures { result ≡ half_status status (is_some stop) }
{
    let Some(stop) = stop else {
        return half_status(status, false);
    };
    if status == 0 {
        let _ = write!(err, "usbtrace: {stop}\n");
    }
    half_status(status, true)
}

/// Tells that a capture ends amid a record, if it does and the run ended well, and answers the status.
fn tell_cut<E: Write>(is_cut: bool, status: u8, err: &mut E) -> u8
    ensures { result ≡ half_status status is_cut }
{
    if is_cut && status == 0 {
        let _ = err.write_all(b"usbtrace: the capture ends amid a record\n");
    }
    half_status(status, is_cut)
}

/// Prints the devices of a capture, tells if that ends amid a record, and answers the status.
pub fn print_devices<W: Write, E: Write>(
    devices: &[u8],
    status: u8,
    out: &mut W,
    err: &mut E,
) -> u8 {
    match print_all(devices, out, err) {
        Ok(()) => tell_cut(devices.starts_with(CUT_LINE), status, err),
        Err(failed) => failed,
    }
}

/// Whether one of these lines stands from one number on and up to another.
fn has_line(lines: &[NumberedLine<'_>], from: u64, to: u64) -> bool {
    lines
        .iter()
        .any(|line| line.number >= from && line.number <= to)
}

/// Which of a scenario's steps are missing in a picture of some of its lines.
#[derive(Clone, Copy, PartialEq, Eq)]
pub enum Missing {
    /// None: there are steps in these lines. Or the scenario has a bad line, of which its run tells.
    Nothing,
    /// There is none in these lines.
    Inner,
    /// There is none from the first of these lines on.
    Behind,
}

/// What is missing in a picture of these lines.
pub fn missing_steps(alloc: Global, text: &[u8], from: u64, to: u64) -> Result<Missing, Fault> {
    let lined = match read_lined(alloc, text) {
        Ok(lined) => lined,
        Err(TextFault::Memory) => return Err(Fault::Memory),
        Err(TextFault::Line(_)) => return Ok(Missing::Nothing),
    };
    let lines = lined.lines.as_slice();
    if has_line(lines, from, to) {
        return Ok(Missing::Nothing);
    }
    if has_line(lines, from, u64::MAX) {
        return Ok(Missing::Inner);
    }
    Ok(Missing::Behind)
}

/// Tells which steps are missing in a picture of these lines, if some are.
pub fn tell_missing<E: Write>(missing: Missing, from: u64, to: u64, err: &mut E) {
    let _ = match missing {
        Missing::Nothing => Ok(()),
        Missing::Inner => write!(
            err,
            "usbtrace: no step stands in the lines {from} to {to}\n"
        ),
        Missing::Behind => write!(
            err,
            "usbtrace: no step stands at line {from} or behind it\n"
        ),
    };
}
