//! The scenario of one device of a capture, and of what a file says of it where the capture says nothing.

ghost use Rattle.std.specs.Prelude.{◌≡◌, ◌≤◌, IfOk, IfSome, length, true};
ghost use Rattle.std.specs.Io.KnownBytes.{Keeps};
ghost use Rattle.trace_io.specs.Input.{longest_input};
ghost use Rattle.trace_recorded.specs.DescribedText.{described_scenario};
ghost use Rattle.trace_main.specs.Described.{FindsDescribed, IsOfDevices, PerformsDescribed, TellsRefusal};
ghost use Rattle.trace_main.specs.Program.{BeginsRecorded};

use crate::program::status_of;
use std::alloc::Global;
use std::io::{Read, Write};
use trace_faults::TextReader;
use trace_io::{Fault, read_whole, write_bytes};
use trace_recorded::{DeviceChoice, RecordedScenario, described_scenario};
use trace_run::TaskEnd;

/// Prints the device that is meant, for who reads it. Nothing is printed where the capture isn't read or has no such device.
#[tactic(auto, using(crate::proofs::Begun::no_recorded, crate::proofs::OneDevice::described_refused))]
fn device<W: Write>(
    alloc: Global,
    reader: TextReader,
    choice: &DeviceChoice,
    capture: &[u8],
    out: &mut W,
) -> Result<TaskEnd, Fault>
    requires { length capture.now ≤ longest_input }
    ensures ends { PerformsDescribed reader choice.now capture.now (W.contents out.old) (W.contents out.new) result }
    ensures ending { IfOk result IsOfDevices }
    ensures begun { BeginsRecorded (described_scenario reader choice.now capture.now) (W.contents out.old) (W.contents out.new) }
{
    let RecordedScenario { text, has_devices } = described_scenario(
        alloc, reader, choice, capture,
    )?;
    write_bytes(out, text.as_slice())?;
    out.flush()?;
    if has_devices {
        return Ok(TaskEnd::Good);
    }
    Ok(TaskEnd::NoDevices)
}

/// Reads the capture and prints the device.
#[tactic(auto, using(crate::proofs::Begun::no_recorded))]
fn perform<R: Read, W: Write>(
    alloc: Global,
    reader: TextReader,
    choice: &DeviceChoice,
    input: &mut R,
    out: &mut W,
) -> Result<TaskEnd, Fault>
    ensures ends { IfSome (R.remaining input.old) (λ text. PerformsDescribed reader choice.now text (W.contents out.old) (W.contents out.new) result) }
    ensures ending { IfOk result IsOfDevices }
    ensures begun { IfSome (R.remaining input.old) (λ text. BeginsRecorded (described_scenario reader choice.now text) (W.contents out.old) (W.contents out.new)) }
{
    let text = read_whole(alloc, input)?;
    device(alloc, reader, choice, text.as_slice(), out)
}

/// Prints the device of a capture that is meant, and answers the status: 0, or 1 where it is left out, or the run ended early. However it
/// ends, what it wrote is a beginning of the text. Of a fault that ended it, the message stands on standard error, as far as that takes it.
#[tactic(auto, using(crate::proofs::OneDevice::described_status, crate::proofs::OneDevice::described_done, crate::proofs::OneDevice::described_quiet))]
pub fn described_devices<R: Read, W: Write, E: Write>(
    alloc: Global,
    reader: TextReader,
    choice: &DeviceChoice,
    input: &mut R,
    out: &mut W,
    err: &mut E,
) -> u8
    ensures status { result ≤ 1 }
    ensures done { result ≡ 0 → IfSome (R.remaining input.old) (λ text. FindsDescribed reader choice.now true text (W.contents out.old) (W.contents out.new)) }
    ensures quiet { result ≡ 0 → Keeps (E.contents err.old) (E.contents err.new) }
    ensures told { result ≡ 1 → TellsRefusal reader choice.now (R.remaining input.old) (W.contents out.old) (W.contents out.new) (E.contents err.old) (E.contents err.new) }
    ensures unfinished { IfSome (R.remaining input.old) (λ text. BeginsRecorded (described_scenario reader choice.now text) (W.contents out.old) (W.contents out.new)) }
{
    let ended = perform(alloc, reader, choice, input, out);
    status_of(ended, &[], err)
}
