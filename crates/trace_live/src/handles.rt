//! The handles of a plan, each with its lines in a channel.

ghost use Rattle.std.specs.Prelude.{◌≡◌, ◌<◌, ◌∷◌, [], IfOk, IfSome, length, replicate};
ghost use Rattle.usb_model.specs.World.Plans.{rules_after};
ghost use Rattle.trace_live.specs.Lines.{AreDealt, ArePlanned, call_in, dealt, said_by_each};
ghost use Rattle.trace_threads.specs.Verdicts.{AreGiven, ruled};

use crate::line::Line;
use crate::planned::{Planned, PlannedCallback};
use crate::queue::Queue;
use std::alloc::{AllocError, Global};
use std::marker::Model;
use std::sync::Wait;
use usb_device::Device;
use usb_journal::{Naming, Recorder};
use usb_library::{Caller, Library};
use usb_model::{Plan, Rule, Sequence};
use usb_workers::Driver;

/// How many handles there are.
const HANDLES: usize = 64;

/// The thread of a handle: makes its lines, as they come out of their channel. Contracts see the steps that they say.
#[derive(Drop)]
pub(crate) struct Handle<Q: Planned> {
    lines: Queue<Q>,
}

impl<Q: Planned> Model for Handle<Q> {
    ghost use Rattle.std.specs.Prelude.{List};
    ghost use Rattle.usb_model.specs.declared.step.Step.{Step};
    ghost use Rattle.trace_live.specs.Lines.{said_by_all};

    ghost Value = { List Step };

    ghost view = { λ h. said_by_all h.lines };
}

/// Where it ends well it has made each of its lines, in order, and nothing else.
impl<Q: Planned> Driver<PlannedCallback<Q>> for Handle<Q> {
    ghost use Rattle.std.specs.Prelude.{◌≡◌, ◌++◌, OnOk};
    ghost use Rattle.usb_journal.specs.Booked.{steps_of};

    type Left = Result<(), AllocError>;

    ghost makes = { λ handle setup old new left. OnOk left (steps_of new.own ≡ steps_of old.own ++ handle) };

    fn drive<L: Naming, D: Device, J: Recorder, R: Wait>(
        self,
        rt: &R,
        library: &Library<L, PlannedCallback<Q>, D, J>,
        caller: &mut Caller<L>,
    ) -> Result<(), AllocError> {
        let Handle { mut lines } = self;
        for _ in rt.forever() {
            let Some(line) = lines.next(rt) else {
                break;
            };
            line.make(rt, library, caller)?;
        }
        Ok(())
    }
}

/// No lines yet, of each handle by its name.
fn no_lines<Q: Planned>(alloc: Global) -> Result<Vec<Sequence<Line<Q>>>, AllocError>
    ensures { IfOk result (λ handles. said_by_each handles.items ≡ replicate 64 []) }
{
    let mut handles = Vec::with_capacity(alloc, HANDLES)?;
    for _ in 0..HANDLES {
        handles.push(Sequence::new(alloc))?;
    }
    Ok(handles)
}

/// Puts what a piece of a plan says behind the lines of its handle. `rules` are those of the submissions from here on.
fn deal<Q: Planned>(
    handles: &mut [Sequence<Line<Q>>],
    piece: Plan,
    rules: &mut &[Rule],
) -> Result<(), AllocError>
    requires all { length handles.old ≡ 64 }
    requires given { AreGiven Q.given (ruled (piece ∷ []) rules.old.now) }
    ensures dealt { IfOk result (λ _. said_by_each handles.new ≡ dealt (said_by_each handles.old) (call_in piece)) }
    ensures same { length handles.new ≡ length handles.old }
    ensures named { IfOk result (λ _. IfSome (call_in piece) (λ call. call.0 < 64)) }
    ensures rules { rules.new.now ≡ rules_after piece rules.old.now }
{
    match Line::of(piece, rules) {
        None => Ok(()),
        Some((h, line)) => handles[usize::from(h.number())].push(line),
    }
}

/// The lines of each handle, by its name.
fn lines_of<Q: Planned>(
    alloc: Global,
    plan: Sequence<Plan>,
    rules: &[Rule],
) -> Result<Vec<Sequence<Line<Q>>>, AllocError>
    requires given { AreGiven Q.given (ruled plan rules.now) }
    ensures { IfOk result (λ handles. AreDealt (said_by_each handles.items) plan) }
{
    let mut handles = no_lines(alloc)?;
    let mut left = rules;
    for piece in plan.into_vec() {
        deal(handles.as_mut_slice(), piece, &mut left)?;
    }
    Ok(handles)
}

/// The handles of a plan that have lines, by their names.
pub(crate) fn handles_of<Q: Planned, R: Wait>(
    rt: &R,
    alloc: Global,
    plan: Sequence<Plan>,
    rules: &[Rule],
) -> Result<Vec<Handle<Q>>, AllocError>
    requires given { AreGiven Q.given (ruled plan rules.now) }
    ensures { IfOk result (λ handles. ArePlanned handles.items plan) }
{
    let mut handles = Vec::new(alloc);
    for lines in lines_of::<Q>(alloc, plan, rules)? {
        if !lines.is_empty() {
            handles.push(Handle {
                lines: Queue::of(rt, alloc, lines)?,
            })?;
        }
    }
    Ok(handles)
}
