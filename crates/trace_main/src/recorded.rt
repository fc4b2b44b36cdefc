//! The scenario of a capture.

ghost use Rattle.std.specs.Prelude.{◌≡◌, ◌≤◌, [], length};
ghost use Rattle.trace_io.specs.Input.{longest_input};
ghost use Rattle.trace_io.specs.declared.words.Task.TheVariants.{Devices};
ghost use Rattle.trace_main.specs.Program.{Begins, Performs};

use std::alloc::Global;
use std::io::Write;
use trace_faults::TextReader;
use trace_io::{Fault, write_bytes};
use trace_recorded::{RecordedScenario, recorded_scenario};
use trace_run::TaskEnd;

/// Prints the devices of a capture, and what they answered, for who reads it. Nothing is printed where the capture isn't read.
#[tactic(auto, using(crate::proofs::Begun::no_recorded, crate::proofs::Reports::capture_refused))]
pub(crate) fn devices<W: Write>(
    alloc: Global,
    reader: TextReader,
    capture: &[u8],
    out: &mut W,
) -> Result<TaskEnd, Fault>
    requires { length capture.now ≤ longest_input }
    ensures ends { Performs (Devices reader) capture.now [] (W.contents out.old) (W.contents out.new) result }
    ensures begun { Begins (Devices reader) capture.now (W.contents out.old) (W.contents out.new) }
{
    let RecordedScenario { text, has_devices } = recorded_scenario(alloc, reader, capture)?;
    write_bytes(out, text.as_slice())?;
    out.flush()?;
    if has_devices {
        return Ok(TaskEnd::Good);
    }
    Ok(TaskEnd::NoDevices)
}
