//! A line of a handle.

ghost use Rattle.std.specs.Prelude.{◌≡◌, ◌∷◌, ◌++◌, [], IfNone, IfSome, None, OnOk, Some, true};
ghost use Rattle.usb_model.specs.World.Plans.{first_rule, rules_after, rules_past};
ghost use Rattle.usb_journal.specs.Booked.{steps_of};
ghost use Rattle.trace_live.specs.Lines.{call_in, said_by};
ghost use Rattle.trace_threads.specs.Verdicts.{AreGiven, ruled};

use crate::planned::{Planned, PlannedCallback};
use std::alloc::AllocError;
use std::sync::Wait;
use usb_device::Device;
use usb_journal::{Naming, Recorder};
use usb_library::{Caller, Library};
use usb_model::{Name, Plan, Request, Rule, Step};
use usb_workers::{handle_of, make};

/// What a handle does by a line.
#[derive(Drop)]
pub(crate) enum Line<Q: Planned> {
    /// Submits a transfer with this callback, under the callback's own handle.
    Submit {
        request: Request,
        callback: PlannedCallback<Q>,
    },
    /// Another call.
    Call(Step),
}

/// The rule of the next submission, and those behind it. Where there is none its callback is called once.
fn next_rule(rules: &[Rule]) -> (Rule, &[Rule])
    ensures rule { result.0 ≡ first_rule rules.now }
    ensures rest { result.1.now ≡ rules_past true rules.now }
{
    match rules.split_first() {
        Some((rule, rest)) => (*rule, rest),
        None => (Rule::once_only(), rules),
    }
}

impl<Q: Planned> Line<Q> {
    /// The handle that does it, and what it does; None of what the workers do. `rules` are those of the submissions from here on.
    pub(crate) fn of(piece: Plan, rules: &mut &[Rule]) -> Option<(Name, Line<Q>)>
        requires given { AreGiven Q.given (ruled (piece ∷ []) rules.old.now) }
        ensures said { IfSome result (λ x. call_in piece ≡ Some (x.0, said_by x.1)) }
        ensures none { IfNone result (call_in piece ≡ None) }
        ensures rules { rules.new.now ≡ rules_after piece rules.old.now }
    {
        let Plan::Do(step) = piece else {
            return None;
        };
        match step {
            Step::Submit { h, request } => {
                let (rule, rest) = next_rule(rules);
                *rules = rest;
                let callback = PlannedCallback::of(h, rule);
                Some((h, Line::Submit { request, callback }))
            }
            step => handle_of(&step).map(|h| (h, Line::Call(step))),
        }
    }

    /// Makes the call, whether it is refused or not. An error where memory is refused.
    pub(crate) fn make<L: Naming, D: Device, J: Recorder, R: Wait>(
        self,
        rt: &R,
        library: &Library<L, PlannedCallback<Q>, D, J>,
        caller: &mut Caller<L>,
    ) -> Result<(), AllocError>
        ensures { OnOk result (steps_of caller.new.own ≡ steps_of caller.old.own ++ said_by self ∷ []) }
    {
        match self {
            Line::Submit { request, callback } => {
                let h = callback.handle();
                match library.submit(rt, caller, h, request, callback) {
                    Ok(_) => Ok(()),
                    Err(_) => Err(AllocError),
                }
            }
            // (each line says a call, so that there is always an answer)
            Line::Call(step) => match make(rt, library, caller, step)? {
                Some(_) => Ok(()),
                None => Err(AllocError),
            },
        }
    }
}
