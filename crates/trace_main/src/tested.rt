//! A scenario as a test.

ghost use Rattle.std.specs.Prelude.{◌≡◌, ◌≤◌, [], IfErr, IfOk, length};
ghost use Rattle.std.specs.Io.KnownBytes.{Appends};
ghost use Rattle.trace_io.specs.Faults.{IsOfRun};
ghost use Rattle.trace_io.specs.Output.{AppendsSome};
ghost use Rattle.trace_test.specs.Tests.{outcome_text};
ghost use Rattle.trace_io.specs.Input.{longest_input};
ghost use Rattle.trace_io.specs.declared.words.Task.TheVariants.{Test};
ghost use Rattle.trace_main.specs.Program.{Begins, Performs, ending_of};

use crate::told::write_all;
use std::alloc::Global;
use std::io::Write;
use trace_io::Fault;
use trace_run::TaskEnd;
use trace_test::{TestOutcome, report, test};

/// How a test ends, by what came of it.
fn ending_of(outcome: &TestOutcome) -> TaskEnd
    ensures { result ≡ ending_of outcome.now }
{
    match outcome {
        TestOutcome::Passed => TaskEnd::Good,
        TestOutcome::Differs(_) => TaskEnd::Differs,
        TestOutcome::Unexpected(_) => TaskEnd::Unexpected,
    }
}

/// Prints what came of a test.
fn tell_outcome<W: Write>(alloc: Global, outcome: &TestOutcome, out: &mut W) -> Result<(), Fault>
    ensures told { IfOk result (λ _. Appends (W.contents out.old) (W.contents out.new) (outcome_text outcome.now)) }
    ensures begun { AppendsSome (outcome_text outcome.now) (W.contents out.old) (W.contents out.new) }
    ensures fault { IfErr result (λ fault. IsOfRun fault) }
{
    let report = report(alloc, outcome)?;
    write_all(out, report.as_slice())
}

/// Runs a test, and prints what came of it. A fault where a line is bad, by its number in the test, or memory or a stream fails.
#[tactic(auto, using(crate::proofs::Begun::no_outcome, crate::proofs::JudgedRuns::of_run, crate::proofs::Reports::test_fails, crate::proofs::Outcomes::test_ends, crate::proofs::Outcomes::outcome_begun))]
pub fn run_test<W: Write>(alloc: Global, text: &[u8], out: &mut W) -> Result<TaskEnd, Fault>
    requires { length text.now ≤ longest_input }
    ensures ends { Performs Test text.now [] (W.contents out.old) (W.contents out.new) result }
    ensures begun { Begins Test text.now (W.contents out.old) (W.contents out.new) }
{
    let outcome = test(alloc, text)?;
    tell_outcome(alloc, &outcome, out)?;
    Ok(ending_of(&outcome))
}
