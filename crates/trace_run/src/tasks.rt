//! What `usbtrace` does with a scenario that no thread runs: its entries, all, behind their lines or one handle's; what it
//! leaves behind; a picture; a capture.

ghost use Rattle.std.specs.Prelude.{◌≡◌, IfErr, IfOk, OnOk, length, map};
ghost use Rattle.std.specs.Io.KnownBytes.{Appends};
ghost use Rattle.std.specs.Io.KnownBytes.{Keeps};
ghost use Rattle.trace_io.specs.Faults.{IfWide, IsOfPicture, IsOfRun};
ghost use Rattle.trace_io.specs.Output.{AppendsSome};
ghost use Rattle.trace_scenario.specs.Runnable.{IsRunnable};
ghost use Rattle.trace_scenario.specs.StepLines.{numbered};
ghost use Rattle.trace_capture.specs.Event.{file_bytes};
ghost use Rattle.trace_run.specs.Capture.{plan_events};
ghost use Rattle.trace_run.specs.Stepwise.{stepwise_text};
ghost use Rattle.trace_run.specs.Tasks.{AppendsAny, alone_text, ending_of, left_lines, run_text};

use crate::capture::capture_plan;
use crate::devices::{callbacks_of, parts_of};
use crate::drawing::{draw, tell_endpoints};
use crate::ending::run_to_end;
use crate::lines::{Reach, print_alone, print_plan};
use crate::stepwise::print_stepwise;
use std::alloc::{AllocError, Global};
use std::io::Write;
use trace_io::{Fault, write_bytes};
use trace_left::{left_behind, lines_of};
use trace_picture::{Drawing, Form};
use trace_scenario::{DescribedDevice, NumberedLine, Scenario};
use usb_core::scripted_setup;
use usb_device::ScriptedDevice;
use usb_model::{Name, Sequence};

/// How a task ends that no fault ends.
#[derive(Clone, Copy, PartialEq, Eq, Debug)]
pub enum TaskEnd {
    /// Each line of the input was taken, and the task is done.
    Good,
    /// A check found bad lines, and told of them.
    BadLines,
    /// A capture has no device that is kept, and what is said of the others is told.
    NoDevices,
    /// A line of a test expects something else than there is, and that is told.
    Differs,
    /// A run wrote something else than its scenario expects, and that is told.
    Unexpected,
}

/// How a task ends whose run came so far.
fn ending_of(reach: Reach) -> Result<TaskEnd, Fault>
    ensures { result ≡ ending_of reach }
{
    match reach {
        Reach::End => Ok(TaskEnd::Good),
        Reach::NoMemory => Err(Fault::Memory),
    }
}

/// Prints the entries of a scenario, as the core on rings runs it; where memory ran out, those before.
pub fn run<W: Write>(alloc: Global, scenario: Scenario, out: &mut W) -> Result<TaskEnd, Fault>
    requires { IsRunnable scenario }
    ensures lines { OnOk result (Appends (W.contents out.old) (W.contents out.new) (run_text scenario)) }
    ensures begun { AppendsSome (run_text scenario) (W.contents out.old) (W.contents out.new) }
    ensures good { IfOk result (λ ending. ending ≡ TaskEnd.Good) }
    ensures fault { IfErr result (λ fault. IsOfRun fault) }
{
    let Scenario { setup, plan, rules } = scenario;
    let parts = parts_of(alloc, setup, rules.as_slice())?;
    ending_of(print_plan(alloc, parts, plan, out)?)
}

/// Prints the entries of a scenario, each behind its line; where memory ran out, those before.
pub fn print_steps<W: Write>(
    alloc: Global,
    scenario: Scenario,
    lines: &[NumberedLine<'_>],
    out: &mut W,
) -> Result<TaskEnd, Fault>
    requires runnable { IsRunnable scenario }
    requires each { length lines.now ≡ length scenario.plan }
    ensures lines { OnOk result (Appends (W.contents out.old) (W.contents out.new) (stepwise_text scenario.setup scenario.plan scenario.rules (map numbered lines.now))) }
    ensures begun { AppendsSome (stepwise_text scenario.setup scenario.plan scenario.rules (map numbered lines.now)) (W.contents out.old) (W.contents out.new) }
    ensures good { IfOk result (λ ending. ending ≡ TaskEnd.Good) }
    ensures fault { IfErr result (λ fault. IsOfRun fault) }
{
    let Scenario { setup, plan, rules } = scenario;
    let parts = parts_of(alloc, setup, rules.as_slice())?;
    ending_of(print_stepwise(alloc, parts, plan, lines, out)?)
}

/// Writes the run of a scenario as a capture: its devices' lines, and each entry from its line. Where memory ran out, it
/// ends with a whole record.
pub fn capture_run<W: Write>(
    alloc: Global,
    scenario: Scenario,
    devices: &[DescribedDevice],
    lines: &[NumberedLine<'_>],
    out: &mut W,
) -> Result<TaskEnd, Fault>
    requires runnable { IsRunnable scenario }
    requires each { length lines.now ≡ length scenario.plan }
    ensures file { OnOk result (Appends (W.contents out.old) (W.contents out.new) (file_bytes (plan_events devices.now scenario.setup scenario.plan scenario.rules (map numbered lines.now)))) }
    ensures begun { AppendsSome (file_bytes (plan_events devices.now scenario.setup scenario.plan scenario.rules (map numbered lines.now))) (W.contents out.old) (W.contents out.new) }
    ensures good { IfOk result (λ ending. ending ≡ TaskEnd.Good) }
    ensures fault { IfErr result (λ fault. IsOfRun fault) }
{
    let Scenario { setup, plan, rules } = scenario;
    let parts = parts_of(alloc, setup, rules.as_slice())?;
    ending_of(capture_plan(alloc, parts, plan, devices, lines, out)?)
}

/// The lines of what the run of a scenario leaves behind, as the core on rings runs it.
fn lines_left(alloc: Global, scenario: Scenario) -> Result<Vec<u8>, AllocError>
    requires { IsRunnable scenario }
    ensures { IfOk result (λ lines. lines.items ≡ left_lines scenario) }
{
    let Scenario { setup, plan, rules } = scenario;
    let parts = parts_of(alloc, setup, rules.as_slice())?;
    let core = run_to_end(alloc, parts, plan)?;
    let left = left_behind(alloc, core)?;
    lines_of(alloc, left.as_slice())
}

/// Prints what the run of a scenario leaves behind; nothing where memory ran out.
pub fn print_left<W: Write>(
    alloc: Global,
    scenario: Scenario,
    out: &mut W,
) -> Result<TaskEnd, Fault>
    requires { IsRunnable scenario }
    ensures lines { OnOk result (Appends (W.contents out.old) (W.contents out.new) (left_lines scenario)) }
    ensures begun { AppendsSome (left_lines scenario) (W.contents out.old) (W.contents out.new) }
    ensures good { IfOk result (λ ending. ending ≡ TaskEnd.Good) }
    ensures fault { IfErr result (λ fault. IsOfRun fault) }
{
    let lines = lines_left(alloc, scenario)?;
    write_bytes(out, lines.as_slice())?;
    out.flush()?;
    Ok(TaskEnd::Good)
}

/// Prints the entries of a handle alone, as a core of its own runs them; where memory ran out, those before. Takes the
/// devices a second time, for that core.
pub fn run_alone<W: Write>(
    alloc: Global,
    scenario: Scenario,
    other_setup: Sequence<ScriptedDevice>,
    h: Name,
    out: &mut W,
) -> Result<TaskEnd, Fault>
    requires runnable { IsRunnable scenario }
    requires same_devices { other_setup ≡ scenario.setup }
    ensures lines { OnOk result (Appends (W.contents out.old) (W.contents out.new) (alone_text h scenario)) }
    ensures begun { AppendsSome (alone_text h scenario) (W.contents out.old) (W.contents out.new) }
    ensures good { IfOk result (λ ending. ending ≡ TaskEnd.Good) }
    ensures fault { IfErr result (λ fault. IsOfRun fault) }
{
    let Scenario { setup, plan, rules } = scenario;
    let parts = parts_of(alloc, setup, rules.as_slice())?;
    let other_parts = parts_of(alloc, other_setup, rules.as_slice())?;
    ending_of(print_alone(alloc, parts, other_parts, plan.as_slice(), h, out)?)
}

/// How many steps a picture has at most.
const MOST_DRAWN: u64 = 2_000;

/// A drawing in this form; refused where it has too many steps.
fn text_of(drawing: &Drawing, form: Form) -> Result<String, Fault>
    ensures fault { IfErr result (λ fault. IsOfPicture fault) }
{
    let steps = drawing.width();
    if steps > MOST_DRAWN {
        return Err(Fault::Wide(steps));
    }
    Ok(drawing.text(form)?)
}

/// Prints a picture of a scenario's run, or a page that has it: of the steps whose lines are those from one number to another, as the scenario's
/// lines are counted. Refused, and nothing is printed, where they are more than 2,000. What it shows is no matter of contracts.
pub fn draw_run<W: Write>(
    alloc: Global,
    scenario: Scenario,
    lines: &[NumberedLine<'_>],
    from: u64,
    to: u64,
    form: Form,
    out: &mut W,
) -> Result<TaskEnd, Fault>
    requires runnable { IsRunnable scenario }
    requires each { length lines.now ≡ length scenario.plan }
    ensures drawn { AppendsAny (W.contents out.old) (W.contents out.new) }
    ensures good { IfOk result (λ ending. ending ≡ TaskEnd.Good) }
    ensures fault { IfErr result (λ fault. IsOfPicture fault) }
    ensures silent { IfErr result (λ fault. IfWide fault (λ _. Keeps (W.contents out.old) (W.contents out.new))) }
{
    let Scenario { setup, plan, rules } = scenario;
    let mut drawing = Drawing::new(alloc, from, to);
    tell_endpoints(&mut drawing, setup.as_slice())?;
    let devices = scripted_setup(alloc, setup)?;
    let callbacks = callbacks_of(alloc, rules.as_slice())?;
    draw(
        alloc,
        devices,
        plan.as_slice(),
        lines,
        callbacks,
        &mut drawing,
    )?;
    let text = text_of(&drawing, form)?;
    write_bytes(out, text.as_bytes())?;
    out.flush()?;
    Ok(TaskEnd::Good)
}
