//! What the run of a test without macros prints and leaves.

ghost use Rattle.std.specs.Prelude.{◌≡◌, IfErr, IfOk, Ok, length, map};
ghost use Rattle.std.specs.List.{list_any};
ghost use Rattle.trace_io.specs.Faults.{IsOfRun};
ghost use Rattle.trace_run.specs.Stepwise.{stepwise_text};
ghost use Rattle.trace_run.specs.Tasks.{left_lines};
ghost use Rattle.trace_scenario.specs.Runnable.{IsRunnable};
ghost use Rattle.trace_scenario.specs.Scenario.{scenario_of};
ghost use Rattle.trace_scenario.specs.StepLines.{numbered};
ghost use Rattle.trace_scenario.specs.declared.scenario.Scenario.{Scenario};
ghost use Rattle.trace_test.specs.Comparison.{IsAsGoodAs, is_of_left};

use crate::expanded::{Expanded, expand};
use crate::expected::expected_left;
use crate::judge::{lines_in, origin_lines};
use std::alloc::Global;
use trace_io::Fault;
use trace_run::{print_left, print_steps};
use trace_scenario::{Lined, NumberedLine, Scenario, read_lined, read_scenario};
use usb_scripttext::TextFault;

/// What a run printed, each entry behind the number of its line, and what it left.
#[derive(Drop)]
pub(crate) struct Ran {
    pub(crate) printed: Vec<u8>,
    pub(crate) left: Vec<u8>,
}

/// What the run of a scenario prints, each entry behind the number of a line.
pub(crate) fn printed(
    alloc: Global,
    scenario: Scenario,
    lines: &[NumberedLine<'_>],
) -> Result<Vec<u8>, Fault>
    requires runnable { IsRunnable scenario }
    requires each { length lines.now ≡ length scenario.plan }
    ensures printed { IfOk result (λ out. out.items ≡ stepwise_text scenario.setup scenario.plan scenario.rules (map numbered lines.now)) }
    ensures fault { IfErr result (λ fault. IsOfRun fault) }
{
    let mut out = Vec::new(alloc);
    print_steps(alloc, scenario, lines, &mut out)?;
    Ok(out)
}

/// What the run of a scenario leaves.
fn left(alloc: Global, scenario: Scenario) -> Result<Vec<u8>, Fault>
    requires { IsRunnable scenario }
    ensures left { IfOk result (λ out. out.items ≡ left_lines scenario) }
    ensures fault { IfErr result (λ fault. IsOfRun fault) }
{
    let mut out = Vec::new(alloc);
    print_left(alloc, scenario, &mut out)?;
    Ok(out)
}

/// Whether a line expects something to be left.
fn is_of_left(line: &[u8]) -> bool
    ensures { result ≡ is_of_left line.now }
{
    expected_left(line).is_some()
}

/// Whether a line of these does.
fn expects_left(lines: &[&[u8]]) -> bool
    ensures { result ≡ list_any (λ line. is_of_left line.now) lines.now }
{
    lines.iter().any(|line| is_of_left(line))
}

/// What the run of a test's scenario leaves; no text where no line of the test expects something of that, so that the run isn't made.
pub(crate) fn left_for(alloc: Global, text: &[u8], expanded: &Expanded) -> Result<Vec<u8>, Fault>
    ensures left { IfOk result (λ left. (s : Scenario) → scenario_of expanded.now.text ≡ Ok s → IsAsGoodAs text.now left.items (left_lines s)) }
    ensures fault { IfErr result (λ fault. IsOfRun fault) }
{
    let lines = lines_in(alloc, text)?;
    if !expects_left(lines.as_slice()) {
        return Ok(Vec::new(alloc));
    }
    let Ok(scenario) = read_scenario(alloc, expanded.text.as_slice()) else {
        return Err(Fault::Memory);
    };
    left(alloc, scenario)
}

/// The run of a test without macros. A fault where a line is bad, by its number, or memory is refused.
pub(crate) fn run(alloc: Global, text: &[u8]) -> Result<Ran, Fault> {
    let expanded = expand(alloc, text)?;
    let Lined {
        scenario,
        lines,
        ..
    } = match read_lined(alloc, expanded.text.as_slice()) {
        Ok(read) => read,
        Err(TextFault::Line(line)) => return Err(Fault::Line(expanded.origin(line))),
        Err(TextFault::Memory) => return Err(Fault::Memory),
    };
    let origins = origin_lines(alloc, &expanded, lines.as_slice())?;
    let printed = printed(alloc, scenario, origins.as_slice())?;
    let left = left_for(alloc, text, &expanded)?;
    Ok(Ran { printed, left })
}
