//! A run that is drawn.

ghost use Rattle.std.specs.Prelude.{◌≡◌, false, length};
ghost use Rattle.std.specs.List.{AllByRecursion, count_by};
ghost use Rattle.std.specs.Vec.Iter.{into_iter_items};
ghost use Rattle.usb_model.specs.World.Plans.{is_submission};
ghost use Rattle.usb_plans.specs.PlanRuns.{is_verdict};
ghost use Rattle.trace_run.specs.Printed.{IsNew};

use std::alloc::{AllocError, Global};
use std::vec::IntoIter;
use trace_picture::Drawing;
use trace_scenario::NumberedLine;
use usb_core::{Callback, Setup};
use usb_device::{Device, ScriptedDevice};
use usb_model::{Plan, Reply, Step, Verdict};
use usb_plans::{Performed, PlanRun, copy_of, next_callback};

/// Tells a drawing which endpoints the devices have.
pub fn tell_endpoints(drawing: &mut Drawing, devices: &[ScriptedDevice]) -> Result<(), AllocError> {
    let mut number = 0u8;
    for device in devices {
        for endpoint in device.config.endpoints() {
            drawing.tell_endpoint(number, endpoint)?;
        }
        number = number.saturating_add(1);
    }
    Ok(())
}

/// The verdict of a callback that returned, as far as a drawing is to know it: whether it submitted again.
fn verdict_of<C>(performed: &Performed<C>) -> Verdict {
    match (&performed.entry.reply, &performed.stop) {
        (Reply::Number(_), _) | (_, Some(_)) => Verdict::Again,
        _ => Verdict::Stop,
    }
}

/// Draws a piece of a plan that this line says: its step; or where a callback returns its verdict, and the Stop behind it.
fn tell<C>(
    drawing: &mut Drawing,
    line: &NumberedLine<'_>,
    piece: &Plan,
    performed: &Performed<C>,
) -> Result<(), AllocError> {
    let NumberedLine { number, text } = *line;
    match piece {
        Plan::Do(step) => drawing.tell(number, text, step, &performed.entry),
        Plan::Return { h, n } => {
            let (h, n, verdict) = (*h, *n, verdict_of(performed));
            drawing.tell(
                number,
                text,
                &Step::Answer { h, n, verdict },
                &performed.entry,
            )?;
            let Some(stop) = &performed.stop else {
                return Ok(());
            };
            let verdict = Verdict::Stop;
            drawing.tell(number, text, &Step::Answer { h, n, verdict }, stop)
        }
    }
}

/// Performs the pieces of a plan that stands at its beginning, and draws them, each with the line that says it. The run is lent, since each way
/// out of its owner drops the core, which is dear to prove.
fn draw_all<C: Callback, D: Device>(
    run: &mut PlanRun<C, D>,
    left: &mut IntoIter<C>,
    plan: &[Plan],
    lines: &[NumberedLine<'_>],
    drawing: &mut Drawing,
) -> Result<(), AllocError>
    requires new { IsNew C.rule run.old }
    requires callbacks { length (into_iter_items left.old) ≡ count_by is_submission plan.now }
    requires no_verdict { AllByRecursion (λ piece. is_verdict piece ≡ false) plan.now }
{
    let mut lines = lines.iter();
    for piece in plan {
        let Some(line) = lines.next() else {
            return Ok(());
        };
        let callback = next_callback(piece, left);
        let performed = run.perform(copy_of(piece)?, callback)?;
        tell(drawing, line, piece, &performed)?;
    }
    Ok(())
}

/// Draws a plan's run over the core: each piece with its line, of which there are as many. An error where memory is refused.
pub fn draw<C: Callback, D: Device>(
    alloc: Global,
    setup: Setup<D>,
    plan: &[Plan],
    lines: &[NumberedLine<'_>],
    callbacks: Vec<C>,
    drawing: &mut Drawing,
) -> Result<(), AllocError>
    requires callbacks { length callbacks.items ≡ count_by is_submission plan.now }
    requires no_verdict { AllByRecursion (λ piece. is_verdict piece ≡ false) plan.now }
{
    let mut run = PlanRun::new(alloc, setup)?;
    let mut left = callbacks.into_iter();
    draw_all(&mut run, &mut left, plan, lines, drawing)
}
