//! The steps of lines that settle, which are those of one run that stays open from a test's first line to its last.

ghost use Rattle.std.specs.Prelude.{◌≡◌, ◌+◌, ◌≤◌, true, false, IfOk, IfSome, length, if◌then◌else◌};
ghost use Rattle.std.specs.List.{AllByRecursion};
ghost use Rattle.usb_model.specs.declared.plan.Plan.TheVariants.{Do};
ghost use Rattle.usb_model.specs.Setup.{Setup};
ghost use Rattle.usb_model.specs.World.{World};
ghost use Rattle.usb_model.specs.World.Plans.{is_submission};
ghost use Rattle.usb_core.specs.Public.{ShowsWorld};
ghost use Rattle.usb_device.specs.Scripts.{CanBeMade};
ghost use Rattle.usb_plans.specs.PlanRuns.{is_verdict};
ghost use Rattle.trace_test.specs.Expanded.{settling_line};
ghost use Rattle.trace_test.specs.Settling.{SettlesFrom, SettlesOnce, settling_at, step_of};

use crate::expanded::{Expanded, Repeated, is_settle, times_of};
use std::alloc::{AllocError, Global};
use trace_run::perform_piece;
use trace_scenario::{Line, Scenario, read_scenario};
use usb_core::{Callback, Core, Ruled, scripted_setup};
use usb_device::{Device, ScriptedDevice, TableDevice};
use usb_model::{Plan, Sequence, Step};
use usb_plans::PlanRun;
use usb_scripttext::words::says_nothing;
use usb_scripttext::{LineFault, TextFault};

/// How many steps a line that settles stands for at most.
const MOST_STEPS: u64 = 65_536;

/// A step that settles.
#[derive(Clone, Copy, PartialEq, Eq, Debug)]
pub enum Settling {
    /// The controller carries out an order.
    Command,
    /// An event is handled.
    Deliver,
    /// A result goes out to its callback.
    Take,
}

impl Settling {
    /// Its line.
    pub(crate) fn line(self) -> &'static [u8]
        ensures { result.now ≡ settling_line self }
    {
        match self {
            Settling::Command => b"command",
            Settling::Deliver => b"deliver",
            Settling::Take => b"take",
        }
    }

    /// Itself as a piece of a plan.
    fn piece(self) -> Plan
        ensures step { result ≡ Do (step_of self) }
        ensures submits { is_submission result ≡ false }
        ensures no_verdict { is_verdict result ≡ false }
    {
        match self {
            Settling::Command => Plan::Do(Step::Command),
            Settling::Deliver => Plan::Do(Step::Deliver),
            Settling::Take => Plan::Do(Step::Take),
        }
    }
}

/// The next step that settles: an order comes before an event, and that before a result. None where there is none of them.
fn next_settling<C: Callback, D: Device>(core: &Core<C, D>) -> Option<Settling>
    ensures { (setup : Setup) (w : World) → ShowsWorld setup core.now w → result ≡ settling_at setup w }
{
    if core.has_order() {
        return Some(Settling::Command);
    }
    if core.has_event() {
        return Some(Settling::Deliver);
    }
    if core.has_result() {
        return Some(Settling::Take);
    }
    None
}

/// Makes the next step that settles, and keeps it: whether there was one.
fn settle_once<C: Callback, D: Device>(
    run: &mut PlanRun<C, D>,
    steps: &mut Vec<Settling>,
) -> Result<bool, AllocError>
    ensures count { IfOk result (λ made. length steps.new.items ≡ length steps.old.items + (if made then 1 else 0)) }
    ensures next { IfOk result (λ made. SettlesOnce C.rule made run.old steps.old.items run.new steps.new.items) }
{
    let Some(step) = next_settling(run.core()) else {
        return Ok(false);
    };
    perform_piece(run, step.piece(), None)?;
    steps.push(step)?;
    Ok(true)
}

/// Makes steps until nothing is to be done, 65,536 at most.
fn settle<C: Callback, D: Device>(
    alloc: Global,
    run: &mut PlanRun<C, D>,
) -> Result<Vec<Settling>, AllocError>
    ensures { IfOk result (λ steps. SettlesFrom C.rule run.old steps.items run.new) }
{
    let mut steps = Vec::new(alloc);
    for _ in 0..MOST_STEPS {
        if !settle_once(run, &mut steps)? {
            return Ok(steps);
        }
    }
    Ok(steps)
}

/// Whether a piece of a plan needs nothing beside it: it is no verdict, and no submission, which has a callback.
fn is_bare(piece: &Plan) -> bool
    ensures submits { result ≡ true → is_submission piece.now ≡ false }
    ensures no_verdict { result ≡ true → is_verdict piece.now ≡ false }
{
    match piece {
        Plan::Do(step) => !matches!(step, Step::Submit { .. } | Step::Answer { .. }),
        Plan::Return { .. } => true,
    }
}

/// Performs a piece that needs nothing beside it; no line says another as one.
fn perform_bare<D: Device>(run: &mut PlanRun<Ruled, D>, piece: Plan) -> Result<(), AllocError> {
    if !is_bare(&piece) {
        return Ok(());
    }
    perform_piece(run, piece, None)
}

/// Performs what a line says, if it says a piece of a plan.
fn perform_said<D: Device>(run: &mut PlanRun<Ruled, D>, said: Line) -> Result<(), AllocError> {
    match said {
        Line::Submit { h, request, rule } => {
            let piece = Plan::Do(Step::Submit { h, request });
            perform_piece(run, piece, Some(Ruled::new(rule)))
        }
        Line::Piece(piece) => perform_bare(run, piece),
        Line::Device { .. } | Line::Script { .. } | Line::Feed { .. } => Ok(()),
    }
}

/// Performs a line, if it says a piece of a plan. A bad line says none.
fn perform_line<D: Device>(
    alloc: Global,
    run: &mut PlanRun<Ruled, D>,
    line: &[u8],
) -> Result<(), AllocError> {
    match Line::from_text(alloc, line) {
        Ok(said) => perform_said(run, said),
        Err(LineFault::Bad(_)) => Ok(()),
        Err(LineFault::Memory) => Err(AllocError),
    }
}

/// Performs a line so many times.
fn perform_times<D: Device>(
    alloc: Global,
    run: &mut PlanRun<Ruled, D>,
    line: &[u8],
    times: u32,
) -> Result<(), AllocError> {
    for _ in 0..times {
        perform_line(alloc, run, line)?;
    }
    Ok(())
}

/// Whether a line says what devices are, or answer.
fn is_of_devices(line: &[u8]) -> bool {
    line.starts_with(b"device ") || line.starts_with(b"script ") || line.starts_with(b"feed ")
}

/// Whether a line of a test settles.
fn settles(test: &[u8]) -> bool {
    test.split(|byte| *byte == b'\n')
        .any(|line| is_settle(line))
}

/// The lines of a test that say what devices are, and what they answer: all that are fed is as if it had been known from the beginning.
fn device_lines(alloc: Global, test: &[u8]) -> Result<Vec<u8>, AllocError> {
    let mut lines = Expanded::new(alloc);
    for line in test.split(|byte| *byte == b'\n') {
        if is_of_devices(line) {
            lines.push_repeated(0, line)?;
        }
    }
    let Expanded { text, .. } = lines;
    Ok(text)
}

/// The devices of a test; None where no line settles, or a line of theirs is bad.
fn devices_of(alloc: Global, test: &[u8]) -> Result<Option<Sequence<ScriptedDevice>>, AllocError>
    ensures few { IfOk result (λ found. IfSome found (λ devices. length devices ≤ 4)) }
    ensures each { IfOk result (λ found. IfSome found (λ devices. AllByRecursion CanBeMade devices)) }
{
    if !settles(test) {
        return Ok(None);
    }
    let lines = device_lines(alloc, test)?;
    match read_scenario(alloc, lines.as_slice()) {
        Ok(Scenario { setup, .. }) => Ok(Some(setup)),
        Err(TextFault::Line(_)) => Ok(None),
        Err(TextFault::Memory) => Err(AllocError),
    }
}

/// The run of a test's lines so far.
#[derive(Drop)]
pub(crate) struct OpenRun {
    /// None where no line settles, or the scenario is bad: what a line that settles stands for is no matter then.
    run: Option<PlanRun<Ruled, TableDevice>>,
}

impl OpenRun {
    /// In front of the first line, over all devices of a test.
    pub(crate) fn new(alloc: Global, test: &[u8]) -> Result<OpenRun, AllocError> {
        let Some(devices) = devices_of(alloc, test)? else {
            return Ok(OpenRun { run: None });
        };
        let setup = scripted_setup(alloc, devices)?;
        Ok(OpenRun {
            run: Some(PlanRun::new(alloc, setup)?),
        })
    }

    /// Makes the steps that a line stands for which doesn't settle.
    pub(crate) fn follow(&mut self, alloc: Global, line: &[u8]) -> Result<(), AllocError> {
        let Some(run) = &mut self.run else {
            return Ok(());
        };
        if says_nothing(line) || is_of_devices(line) {
            return Ok(());
        }
        match times_of(line) {
            Some(Repeated { line, times }) => perform_times(alloc, run, line, times),
            None => perform_line(alloc, run, line),
        }
    }

    /// Makes the steps that settle here: at most 65,536.
    pub(crate) fn settle(&mut self, alloc: Global) -> Result<Vec<Settling>, AllocError> {
        match &mut self.run {
            Some(run) => settle(alloc, run),
            None => Ok(Vec::new(alloc)),
        }
    }
}
