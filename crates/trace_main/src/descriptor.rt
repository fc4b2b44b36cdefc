//! A device's descriptors.

ghost use Rattle.std.specs.Prelude.{◌≡◌, ◌≤◌, [], length};
ghost use Rattle.trace_io.specs.Input.{longest_input};
ghost use Rattle.trace_io.specs.declared.words.Task.TheVariants.{Describe, Device};
ghost use Rattle.trace_main.specs.Program.{Begins, Performs};

use std::alloc::Global;
use std::io::Write;
use trace_descriptor::{description, device_lines};
use trace_io::{Fault, write_bytes};
use trace_run::TaskEnd;

/// Prints the lines of a device. Nothing is printed where its descriptor is refused.
#[tactic(auto, using(crate::proofs::Begun::no_device, crate::proofs::Reports::device_refused))]
pub(crate) fn device<W: Write>(alloc: Global, file: &[u8], out: &mut W) -> Result<TaskEnd, Fault>
    requires { length file.now ≤ longest_input }
    ensures ends { Performs Device file.now [] (W.contents out.old) (W.contents out.new) result }
    ensures begun { Begins Device file.now (W.contents out.old) (W.contents out.new) }
{
    let lines = device_lines(alloc, file)?;
    write_bytes(out, lines.as_slice())?;
    out.flush()?;
    Ok(TaskEnd::Good)
}

/// Prints descriptors as a table. Nothing is printed where they are refused.
#[tactic(auto, using(crate::proofs::Begun::no_table, crate::proofs::Reports::table_refused))]
pub(crate) fn describe<W: Write>(alloc: Global, file: &[u8], out: &mut W) -> Result<TaskEnd, Fault>
    requires { length file.now ≤ longest_input }
    ensures ends { Performs Describe file.now [] (W.contents out.old) (W.contents out.new) result }
    ensures begun { Begins Describe file.now (W.contents out.old) (W.contents out.new) }
{
    let table = description(alloc, file)?;
    write_bytes(out, table.as_slice())?;
    out.flush()?;
    Ok(TaskEnd::Good)
}
