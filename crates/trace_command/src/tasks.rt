//! Tasks over an input. What is missing where only a part can be printed, or more of a test, is told on standard error.

ghost use Rattle.std.specs.Prelude.{◌≡◌, ◌≤◌, false, length};
ghost use Rattle.trace_io.specs.Input.{longest_input};
ghost use Rattle.usb_scripttext.specs.Words.{words_of};
ghost use Rattle.trace_options.specs.Inputs.{is_half};
ghost use Rattle.trace_command.specs.Layer.{TracesInput};

use crate::input_test::test_input;
use std::alloc::Global;
use std::io::{Read, Write};
use trace_faults::TextReader;
use trace_io::{Fault, Task, read_whole};
use trace_main::{described_devices, trace};
use trace_options::{
    FAILED, Missing, may_lack, missing_steps, print_devices, stop_of, tell_fault, tell_missing,
    tell_stop,
};
use trace_recorded::DeviceChoice;
use trace_threads::Performer;

/// Prints a file of descriptors as a table, and tells where that ends early.
fn describe<P: Performer, W: Write, E: Write>(
    performer: &P,
    alloc: Global,
    words: &[&str],
    file: &[u8],
    out: &mut W,
    err: &mut E,
) -> Result<u8, Fault>
    requires ready { P.ready performer.now }
{
    let stop = stop_of(alloc, file)?;
    let mut input = file;
    let status = trace(performer, alloc, words, &mut input, out, err);
    Ok(tell_stop(stop, status, err))
}

/// Prints the devices of a capture, and tells if that ends amid a record.
fn record<P: Performer, W: Write, E: Write>(
    performer: &P,
    alloc: Global,
    words: &[&str],
    capture: &[u8],
    out: &mut W,
    err: &mut E,
) -> u8
    requires ready { P.ready performer.now }
{
    let mut input = capture;
    let mut devices = Vec::new(alloc);
    let status = trace(performer, alloc, words, &mut input, &mut devices, err);
    print_devices(devices.as_slice(), status, out, err)
}

/// Prints the device of a capture that is meant, and tells if that ends amid a record.
pub fn record_one<R: Read, W: Write, E: Write>(
    alloc: Global,
    reader: TextReader,
    choice: &DeviceChoice,
    input: &mut R,
    out: &mut W,
    err: &mut E,
) -> u8 {
    let mut devices = Vec::new(alloc);
    let status = described_devices(alloc, reader, choice, input, &mut devices, err);
    print_devices(devices.as_slice(), status, out, err)
}

/// Draws some lines of a scenario; where no step stands in them, says so and draws nothing.
fn draw<P: Performer, W: Write, E: Write>(
    performer: &P,
    alloc: Global,
    words: &[&str],
    text: &[u8],
    lines: (u64, u64),
    out: &mut W,
    err: &mut E,
) -> Result<u8, Fault>
    requires ready { P.ready performer.now }
{
    let (from, to) = lines;
    let missing = missing_steps(alloc, text, from, to)?;
    if missing == Missing::Nothing {
        let mut input = text;
        return Ok(trace(performer, alloc, words, &mut input, out, err));
    }
    tell_missing(missing, from, to, err);
    Ok(FAILED)
}

/// Does a task over a whole input.
fn perform_whole<P: Performer, W: Write, E: Write>(
    performer: &P,
    alloc: Global,
    words: &[&str],
    task: &Task,
    text: &[u8],
    out: &mut W,
    err: &mut E,
) -> Result<u8, Fault>
    requires ready { P.ready performer.now }
    requires short { length text.now ≤ longest_input }
{
    match task {
        Task::Draw { from, to } | Task::Page { from, to } => {
            draw(performer, alloc, words, text, (*from, *to), out, err)
        }
        Task::Describe => describe(performer, alloc, words, text, out, err),
        Task::Test => Ok(test_input(alloc, text, out, err)),
        _ => Ok(record(performer, alloc, words, text, out, err)),
    }
}

/// Does a task that may lack something over an input, and answers the status.
fn perform_half<P: Performer, R: Read, W: Write, E: Write>(
    performer: &P,
    alloc: Global,
    words: &[&str],
    task: &Task,
    input: &mut R,
    out: &mut W,
    err: &mut E,
) -> u8
    requires ready { P.ready performer.now }
{
    let done = match read_whole(alloc, input) {
        Ok(text) => perform_whole(performer, alloc, words, task, text.as_slice(), out, err),
        Err(fault) => Err(fault),
    };
    match done {
        Ok(status) => status,
        Err(fault) => tell_fault(fault, err),
    }
}

/// Does a task over an input, and answers the status.
pub fn perform_task<P: Performer, R: Read, W: Write, E: Write>(
    performer: &P,
    alloc: Global,
    words: &[&str],
    task: &Task,
    input: &mut R,
    out: &mut W,
    err: &mut E,
) -> u8
    requires ready { P.ready performer.now }
    ensures { is_half task.now ≡ false → TracesInput (words_of words.now) (R.remaining input.old) (W.contents out.old) (W.contents out.new) (E.contents err.old) (E.contents err.new) result }
{
    if may_lack(task) {
        perform_half(performer, alloc, words, task, input, out, err)
    } else {
        trace(performer, alloc, words, input, out, err)
    }
}
