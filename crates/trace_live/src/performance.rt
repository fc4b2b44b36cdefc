//! A plan from its devices to what its callbacks were told, and what never completed.

ghost use Rattle.std.specs.Prelude.{◌≡◌, All, IfOk, IsOk, List};
ghost use Rattle.usb_model.specs.declared.step.Step.{Step};
ghost use Rattle.usb_core.specs.Public.{setup_of};
ghost use Rattle.trace_threads.specs.Unfinished.{IsPerformed};
ghost use Rattle.trace_threads.specs.Verdicts.{ruled};

use crate::callbacks::callbacks_of;
use crate::handles::{Handle, handles_of};
use crate::planned::{Planned, PlannedCallback};
use crate::unfinished::unfinished_in;
use std::alloc::{AllocError, Global};
use std::marker::Brand;
use std::sync::Wait;
use std::thread::Threads;
use trace_threads::{Performance, Performer};
use usb_core::Setup;
use usb_device::{Scripted, TableDevice};
use usb_journal::Journal;
use usb_model::{Plan, Rule, Sequence};
use usb_workers::{Gates, Lived, Open, live_gated};

/// An error where a handle's thread was refused memory.
fn are_made(left: Vec<Result<(), AllocError>>) -> Result<(), AllocError>
    ensures { IfOk result (λ _. All (λ made. IsOk made) left.items) }
{
    for made in left {
        made?;
    }
    Ok(())
}

/// Performs a plan over these devices: each handle that has lines has a thread of its own, which makes them in order, beside the two
/// workers. What the workers do has no place in it and is passed over: packets, orders, events, results and callbacks that return.
/// Gives what the callbacks were told, by handle and number, and what never completed. Each callback answers what the rule of one of its
/// handle's submissions says. When `rounds` callbacks were called, each that is
/// called then is at its end, whatever its rule: so a run that would go on for ever ends, and more than `rounds` lines are given. An error
/// where memory is refused, to whichever thread, or a thread can't be made. So where none is told, nothing was left to be done: no packet, no order, no
/// event, no result and no callback.
fn perform<D: Scripted + Send, R: Threads + Wait + Sync>(
    rt: &R,
    alloc: Global,
    setup: Setup<D>,
    plan: Sequence<Plan>,
    rules: &[Rule],
    rounds: u64,
) -> Result<Performance, AllocError>
    ensures { IfOk result (λ p. (steps : List Step) × IsPerformed (setup_of setup) plan rules.now rounds steps p.told.items p.unfinished.items) }
{
    perform_given::<Brand, D, R>(rt, alloc, setup, plan, rules, rounds)
}

/// The same, with a name for the plan's submissions.
fn perform_given<Q: Planned + Send, D: Scripted + Send, R: Threads + Wait + Sync>(
    rt: &R,
    alloc: Global,
    setup: Setup<D>,
    plan: Sequence<Plan>,
    rules: &[Rule],
    rounds: u64,
) -> Result<Performance, AllocError>
    requires { Q.given ≡ ruled plan rules.now }
    ensures { IfOk result (λ p. (steps : List Step) × IsPerformed (setup_of setup) plan rules.now rounds steps p.told.items p.unfinished.items) }
{
    let handles = handles_of::<Q, R>(rt, alloc, plan, rules)?;
    let Lived {
        kept,
        core,
        left,
        at_rest,
        lacked_memory,
        ..
    } = live_gated::<PlannedCallback<Q>, D, Journal, Open, Handle<Q>, R>(
        rt,
        alloc,
        setup,
        Gates::open(),
        rounds,
        handles,
    )?;
    are_made(left)?;
    if lacked_memory || !at_rest {
        return Err(AllocError);
    }
    Ok(Performance {
        told: callbacks_of(alloc, kept.places(alloc)?)?,
        unfinished: unfinished_in(alloc, core)?,
    })
}

/// Performs plans in threads of a runtime. It is ready where they may share that.
#[derive(Drop)]
pub struct Live<'a, R> {
    rt: &'a R,
}

impl<'a, R> Live<'a, R> {
    /// In threads of this runtime.
    pub fn new(rt: &'a R) -> Live<'a, R> {
        Live { rt }
    }
}

impl<R: Threads + Wait + Sync> Performer for Live<'_, R> {
    ghost use denote.Param.Send.{IsSync};

    ghost ready = { λ live. IsSync R.row };

    fn perform(
        &self,
        alloc: Global,
        setup: Setup<TableDevice>,
        plan: Sequence<Plan>,
        rules: &[Rule],
        rounds: u64,
    ) -> Result<Performance, AllocError> {
        perform(self.rt, alloc, setup, plan, rules, rounds)
    }
}
