//! A scenario that is run in threads.

ghost use Rattle.std.specs.Prelude.{◌≡◌, ◌≢◌, ◌≤◌, [], IfErr, IfOk, Ok, OnOk, length};
ghost use Rattle.trace_io.specs.Input.{longest_input};
ghost use Rattle.trace_scenario.specs.Runnable.{IsRunnable};
ghost use Rattle.std.specs.Io.KnownBytes.{Keeps};
ghost use Rattle.trace_io.specs.declared.fault.Fault.TheVariants.{Rounds};
ghost use Rattle.trace_io.specs.declared.words.Task.TheVariants.{Live};
ghost use Rattle.trace_main.specs.Lived.{AppendsCallbacks, AppendsSomeCallbacks, IsOfLive};
ghost use Rattle.trace_main.specs.Program.{Begins, IsAlone, IsSilentAtBad, Performs};
ghost use Rattle.trace_run.specs.declared.tasks.TaskEnd.TheVariants.{BadLines, NoDevices};

use crate::lived::lived;
use crate::source::{Opened, Source};
use std::alloc::Global;
use std::io::Write;
use trace_io::Fault;
use trace_io::print::print;
use trace_left::lines_of;
use trace_run::TaskEnd;
use trace_scenario::Scenario;
use trace_threads::{Performance, Performer};
use usb_core::scripted_setup;

/// Runs a scenario in threads, and prints what its callbacks were told, by handle and number; nothing where more than so many are
/// called. The notes are then the lines of what handles hadn't finished.
fn live_scenario<P: Performer, W: Write>(
    performer: &P,
    alloc: Global,
    scenario: Scenario,
    rounds: u64,
    out: &mut W,
    notes: &mut Vec<u8>,
) -> Result<TaskEnd, Fault>
    requires ready { P.ready performer.now }
    requires runnable { IsRunnable scenario }
    requires none { notes.old.items ≡ [] }
    ensures lines { OnOk result (AppendsCallbacks scenario rounds notes.new.items (W.contents out.old) (W.contents out.new)) }
    ensures begun { AppendsSomeCallbacks scenario rounds (W.contents out.old) (W.contents out.new) }
    ensures good { IfOk result (λ ending. ending ≡ TaskEnd.Good) }
    ensures fault { IfErr result (IsOfLive scenario rounds notes.new.items) }
    ensures alone { IfErr result (IsAlone notes.new.items) }
    ensures silent { IfErr result (λ fault. fault ≡ Rounds rounds → Keeps (W.contents out.old) (W.contents out.new)) }
{
    let Scenario { setup, plan, rules } = scenario;
    let devices = scripted_setup(alloc, setup)?;
    let Performance { told, unfinished } = performer.perform(
        alloc,
        devices,
        plan,
        rules.as_slice(),
        rounds,
    )?;
    let unfinished = lines_of(alloc, unfinished.as_slice())?;
    if told.len() as u64 > rounds {
        *notes = unfinished;
        return Err(Fault::Rounds(rounds));
    }
    print(alloc, out, told.as_slice())?;
    *notes = unfinished;
    Ok(TaskEnd::Good)
}

/// Runs the scenario of a text in threads, and prints what its callbacks were told, by handle and number; nothing where a
/// line is bad, or more than so many are called. The notes are then the lines of what handles hadn't finished.
#[tactic(auto, using(crate::proofs::Begun::nothing_of, crate::proofs::Words::silent_same, crate::proofs::Words::silent_of))]
pub(crate) fn live<P: Performer, W: Write>(
    performer: &P,
    alloc: Global,
    text: &[u8],
    rounds: u64,
    out: &mut W,
    notes: &mut Vec<u8>,
) -> Result<TaskEnd, Fault>
    requires ready { P.ready performer.now }
    requires short { length text.now ≤ longest_input }
    requires none { notes.old.items ≡ [] }
    ensures ends { Performs (Live rounds) text.now notes.new.items (W.contents out.old) (W.contents out.new) result }
    ensures alone { IfErr result (IsAlone notes.new.items) }
    ensures good { result ≢ Ok BadLines }
    ensures kept { result ≢ Ok NoDevices }
    ensures silent { IsSilentAtBad text.now (W.contents out.old) (W.contents out.new) }
    ensures begun { Begins (Live rounds) text.now (W.contents out.old) (W.contents out.new) }
{
    let Opened { source, first } = Source::open(alloc, text)?;
    live_scenario(
        performer,
        alloc,
        lived(alloc, &source, first)?,
        rounds,
        out,
        notes,
    )
}
