//! Runs that are judged: what is printed of one, and behind that what it wrote that isn't as its scenario expects.

ghost use Rattle.std.specs.Prelude.{◌≡◌, ◌≤◌, [], IfOk, Ok, length};
ghost use Rattle.trace_io.specs.Input.{longest_input};
ghost use Rattle.trace_io.specs.declared.words.Task.TheVariants.{Alone, Left, Run, Steps};
ghost use Rattle.trace_scenario.specs.declared.scenario.Scenario.{Scenario};
ghost use Rattle.trace_main.specs.Program.{Begins, EndsTold, IsSilentAtBad, Performs, judged_text};
ghost use Rattle.trace_main.specs.Source.{IsReadFirst, Stands, scenario_in};

use crate::source::{Opened, Source};
use crate::told::write_all;
use std::alloc::{AllocError, Global};
use std::io::Write;
use trace_io::Fault;
use trace_judged::{expectations, told_text, unexpected_in};
use trace_run::{TaskEnd, print_left, print_steps, run, run_alone};
use trace_scenario::{Lined, Scenario};
use usb_model::Name;

/// What is told of a scenario behind its run: what it wrote that isn't as expected, if there is any. It is known before anything is
/// printed, so that want of memory leaves no line. The run is made for it, and its text read once more, only where something is expected.
fn judged(alloc: Global, source: &Source<'_>) -> Result<Vec<u8>, AllocError>
    ensures { IfOk result (λ told. (s : Scenario) → scenario_in source.now ≡ Ok s → told.items ≡ judged_text source.now s) }
{
    let Some(expected) = expectations(alloc, source.text())? else {
        return Ok(Vec::new(alloc));
    };
    let Ok(
        Lined {
            scenario,
            lines,
            ..
        },
    ) = source.read(alloc, None)
    else {
        return Err(AllocError);
    };
    let lines = source.told(alloc, lines.as_slice())?;
    let unexpected = unexpected_in(alloc, expected.as_slice(), scenario, lines.as_slice())?;
    told_text(alloc, unexpected)
}

/// Tells it behind the run, if there is any.
fn tell_judged<W: Write>(told: Vec<u8>, out: &mut W) -> Result<TaskEnd, Fault>
    ensures { EndsTold told.items (W.contents out.old) (W.contents out.new) result }
{
    if told.is_empty() {
        return Ok(TaskEnd::Good);
    }
    write_all(out, told.as_slice())?;
    Ok(TaskEnd::Unexpected)
}

/// Prints the entries of a text's scenario.
#[tactic(auto, using(crate::proofs::Begun::nothing_of, crate::proofs::Words::silent_same, crate::proofs::Words::silent_of))]
pub(crate) fn entries<W: Write>(alloc: Global, text: &[u8], out: &mut W) -> Result<TaskEnd, Fault>
    requires { length text.now ≤ longest_input }
    ensures ends { Performs Run text.now [] (W.contents out.old) (W.contents out.new) result }
    ensures silent { IsSilentAtBad text.now (W.contents out.old) (W.contents out.new) }
    ensures begun { Begins Run text.now (W.contents out.old) (W.contents out.new) }
{
    let Opened { source, first } = Source::open(alloc, text)?;
    let scenario = source.scenario(alloc, first)?;
    let told = judged(alloc, &source)?;
    run(alloc, scenario, out)?;
    tell_judged(told, out)
}

/// Prints the entries of a scenario, each behind the number and the text of its step's line.
#[tactic(auto, using(crate::proofs::Begun::nothing_of, crate::proofs::Words::silent_same, crate::proofs::Words::silent_of))]
fn steps_of<W: Write>(
    alloc: Global,
    source: &Source<'_>,
    first: Option<Lined<'_>>,
    out: &mut W,
) -> Result<TaskEnd, Fault>
    requires short { length source.now.given ≤ longest_input }
    requires stands { Stands source.now }
    requires first { IsReadFirst source.now first }
    ensures ends { Performs Steps source.now.given [] (W.contents out.old) (W.contents out.new) result }
    ensures silent { IsSilentAtBad source.now.given (W.contents out.old) (W.contents out.new) }
    ensures begun { Begins Steps source.now.given (W.contents out.old) (W.contents out.new) }
{
    let Lined {
        scenario,
        lines,
        ..
    } = source.read(alloc, first)?;
    let told = judged(alloc, source)?;
    let lines = source.told(alloc, lines.as_slice())?;
    print_steps(alloc, scenario, lines.as_slice(), out)?;
    tell_judged(told, out)
}

/// Prints the entries of a text's scenario, each behind the number and the text of its step's line.
#[tactic(auto, using(crate::proofs::Begun::nothing_of, crate::proofs::Words::silent_same))]
pub(crate) fn steps<W: Write>(alloc: Global, text: &[u8], out: &mut W) -> Result<TaskEnd, Fault>
    requires { length text.now ≤ longest_input }
    ensures ends { Performs Steps text.now [] (W.contents out.old) (W.contents out.new) result }
    ensures silent { IsSilentAtBad text.now (W.contents out.old) (W.contents out.new) }
    ensures begun { Begins Steps text.now (W.contents out.old) (W.contents out.new) }
{
    let Opened { source, first } = Source::open(alloc, text)?;
    steps_of(alloc, &source, first, out)
}

/// Prints what the run of a text's scenario leaves behind.
#[tactic(auto, using(crate::proofs::Begun::nothing_of, crate::proofs::Words::silent_same, crate::proofs::Words::silent_of))]
pub(crate) fn left<W: Write>(alloc: Global, text: &[u8], out: &mut W) -> Result<TaskEnd, Fault>
    requires { length text.now ≤ longest_input }
    ensures ends { Performs Left text.now [] (W.contents out.old) (W.contents out.new) result }
    ensures silent { IsSilentAtBad text.now (W.contents out.old) (W.contents out.new) }
    ensures begun { Begins Left text.now (W.contents out.old) (W.contents out.new) }
{
    let Opened { source, first } = Source::open(alloc, text)?;
    let scenario = source.scenario(alloc, first)?;
    let told = judged(alloc, &source)?;
    print_left(alloc, scenario, out)?;
    tell_judged(told, out)
}

/// Prints the entries of a handle of a text's scenario, alone over its own steps.
#[tactic(auto, using(crate::proofs::Begun::nothing_of, crate::proofs::Words::silent_same, crate::proofs::Words::silent_of, crate::proofs::Words::alone_ends, crate::proofs::Words::alone_begun))]
pub(crate) fn alone<W: Write>(
    alloc: Global,
    text: &[u8],
    h: Name,
    out: &mut W,
) -> Result<TaskEnd, Fault>
    requires { length text.now ≤ longest_input }
    ensures ends { Performs (Alone h) text.now [] (W.contents out.old) (W.contents out.new) result }
    ensures silent { IsSilentAtBad text.now (W.contents out.old) (W.contents out.new) }
    ensures begun { Begins (Alone h) text.now (W.contents out.old) (W.contents out.new) }
{
    let Opened { source, first } = Source::open(alloc, text)?;
    let scenario = source.scenario(alloc, first)?;
    let Scenario { setup, .. } = source.scenario(alloc, None)?;
    run_alone(alloc, scenario, setup, h, out)
}
