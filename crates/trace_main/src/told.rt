//! A scenario's run with what there is to say of its entries: their reasons, or the packets that moved.

ghost use Rattle.std.specs.Prelude.{◌≡◌, ◌≤◌, [], IfErr, IfOk, Ok, OnOk, length};
ghost use Rattle.std.specs.Io.KnownBytes.{Appends};
ghost use Rattle.trace_explain.specs.declared.telling.Telling.TheVariants.{Reasons};
ghost use Rattle.trace_io.specs.Faults.{IsOfRun};
ghost use Rattle.trace_io.specs.Input.{longest_input};
ghost use Rattle.trace_io.specs.Output.{AppendsSome};
ghost use Rattle.trace_io.specs.declared.words.Task.TheVariants.{Explain, Packets};
ghost use Rattle.trace_scenario.specs.declared.scenario.Scenario.{Scenario};
ghost use Rattle.trace_main.specs.Program.{Begins, IsSilentAtBad, IsUntold, Performs, packets_told, told_text};
ghost use Rattle.trace_main.specs.Source.{IsReadFirst, scenario_in};

use crate::source::{Opened, Source};
use std::alloc::Global;
use std::io::Write;
use trace_explain::{Telling, explained_run};
use trace_io::{Fault, write_bytes};
use trace_run::TaskEnd;
use trace_scenario::{Lined, Scenario};
use usb_device::into_setups;

/// Writes a text, and all that is to be written with it.
pub(crate) fn write_all<W: Write>(out: &mut W, text: &[u8]) -> Result<(), Fault>
    ensures whole { OnOk result (Appends (W.contents out.old) (W.contents out.new) text.now) }
    ensures begun { AppendsSome text.now (W.contents out.old) (W.contents out.new) }
    ensures fault { IfErr result (λ fault. IsOfRun fault) }
{
    write_bytes(out, text)?;
    out.flush()?;
    Ok(())
}

/// What is told of a scenario's run.
fn told_run(
    alloc: Global,
    telling: Telling,
    source: &Source<'_>,
    first: Option<Lined<'_>>,
) -> Result<Vec<u8>, Fault>
    requires { IsReadFirst source.now first }
    ensures told { IfOk result (λ told. (s : Scenario) × (scenario_in source.now ≡ Ok s) × (told.items ≡ told_text telling source.now s)) }
    ensures fault { IfErr result (IsUntold source.now) }
{
    let Lined {
        scenario,
        lines,
        ..
    } = source.read(alloc, first)?;
    let lines = source.told(alloc, lines.as_slice())?;
    let Scenario { setup, plan, rules } = scenario;
    let setup = into_setups(alloc, setup)?;
    let (plan, rules) = (plan.as_slice(), rules.as_slice());
    Ok(explained_run(alloc, telling, &setup, plan, rules, lines.as_slice())?)
}

/// Which packets are told: below entries that stand behind their lines, or alone.
fn packets_told(steps: bool) -> Telling
    ensures { result ≡ packets_told steps }
{
    if steps {
        Telling::StepPackets
    } else {
        Telling::Packets
    }
}

/// Prints the entries of a text's scenario, each behind its line, with their reasons.
#[tactic(auto, using(crate::proofs::Begun::nothing_of, crate::proofs::JudgedRuns::of_run, crate::proofs::Words::silent_same, crate::proofs::Words::silent_told, crate::proofs::Words::explain_untold, crate::proofs::Words::explain_done, crate::proofs::Words::explain_begun))]
pub(crate) fn explain<W: Write>(alloc: Global, text: &[u8], out: &mut W) -> Result<TaskEnd, Fault>
    requires { length text.now ≤ longest_input }
    ensures ends { Performs Explain text.now [] (W.contents out.old) (W.contents out.new) result }
    ensures silent { IsSilentAtBad text.now (W.contents out.old) (W.contents out.new) }
    ensures begun { Begins Explain text.now (W.contents out.old) (W.contents out.new) }
{
    let Opened { source, first } = Source::open(alloc, text)?;
    let told = told_run(alloc, Telling::Reasons, &source, first)?;
    write_all(out, told.as_slice())?;
    Ok(TaskEnd::Good)
}

/// Prints the entries of a text's scenario with the packets that moved, each behind its line where the lines are asked for.
#[tactic(auto, using(crate::proofs::Begun::nothing_of, crate::proofs::JudgedRuns::of_run, crate::proofs::Words::silent_same, crate::proofs::Words::silent_told, crate::proofs::Words::packets_untold, crate::proofs::Words::packets_done, crate::proofs::Words::packets_begun))]
pub(crate) fn packets<W: Write>(
    alloc: Global,
    steps: bool,
    text: &[u8],
    out: &mut W,
) -> Result<TaskEnd, Fault>
    requires { length text.now ≤ longest_input }
    ensures ends { Performs (Packets steps) text.now [] (W.contents out.old) (W.contents out.new) result }
    ensures silent { IsSilentAtBad text.now (W.contents out.old) (W.contents out.new) }
    ensures begun { Begins (Packets steps) text.now (W.contents out.old) (W.contents out.new) }
{
    let Opened { source, first } = Source::open(alloc, text)?;
    let told = told_run(alloc, packets_told(steps), &source, first)?;
    write_all(out, told.as_slice())?;
    Ok(TaskEnd::Good)
}
