//! Plans over the core, whose callbacks are called; and a handle's steps and plans beside others, and alone.
//!
//! The one promise: what a plan does is the run of steps that it may stand for, and what a handle sees amid the others is what it sees
//! alone (`proof_laws::isolation`).
//!
//! # Files
//!
//! - `running_callbacks.rt`: the callbacks that came out and haven't answered, by name and number
//! - `plan_run.rt`, specs/PlanRuns: one piece of a plan: a step, or a callback that returns; the stage that is shown
//! - `reads.rt`: what can be asked amid a plan, and how its devices or its core are handed back
//! - `drives.rt`, specs/Drives: a whole plan
//! - `comparison.rt`, `own_plan.rt`, specs/Alone: a handle amid the others, and then alone over the same devices: of
//!   a list of steps; of a plan, with callbacks of its own
//! - `twins.rt`, specs/Alone: the same of a plan, side by side and piece by piece
//! - proofs/: what a piece stands for, and the stage behind it (OnlySteps, Stages, ToldVerdicts), or before it, where no memory is
//!   found (StillShown); which callbacks run (TakenCallbacks, NoneRuns); how far a run and a plan are, a handle's part of either, and
//!   a run beside another (Reached, Apart, OwnPlans, ApartPlans, BothRuns)
//!
//! # Contracts
//!
//! - `PlanRun::perform`: from a run that shows a stage of a plan: the entries of a piece are those of steps that it
//!   may stand for (a step is itself; a return is the Answer of a verdict that fits the callback's rule, and, where a
//!   resubmission is refused for another cause than that there is no such thing, the Stop behind it), and the run
//!   then shows the stage behind them (`performs`). Where a callback runs under the name and number of a return, this
//!   very one is called, with the result that came out to it and nothing else; it gives a verdict that its code may
//!   give (`may_answer`), and the entries are those of just this verdict (`called`). Where a step's entry is that a
//!   callback is called, there then runs under its name and number the callback that was kept with the transfer, with
//!   this result, and all others as before; behind any other step the same ones run; behind a return all but the one
//!   that returned (`out`). Where memory is refused the stage before the piece is still shown, but for the callback of a return,
//!   which was called and is dropped (`none`). Premises: a submission has a callback, and no piece is a verdict by itself
//! - `PlanRun::into_setup`: the devices that are handed back are those over which the run showed its stages: a core
//!   or a run that is made of them begins anew. Each endpoint that a device has stands as the stage's world has it,
//!   as by `Core::into_setup`
//! - `PlanRun::core`, `into_core`: the core, lent or handed back, shows the worlds of the stages that the run showed
//! - `drive`: the entries of a plan are the run of steps that it may stand for under its callbacks' rules
//!   (`Expands`); of the only ones, `expand`, where no rule is Free. Of these steps all laws hold: what each handle
//!   sees is what it sees alone, each transfer is called back at most once, after its number, in order; the cut, the
//!   places, the bound of asks. Where memory is refused, `StoppedDrive` has the entries of all pieces before one that
//!   is left, and the run, which shows the stage behind just these pieces, but for the callback of a return (`IsStopped`); or the
//!   run wasn't begun, and there are no entries. Premises: as many callbacks as submissions, and no piece that is a verdict
//! - `alone`: by two runs over the same devices, of all steps and then of the handle's own, each by a new core: a
//!   handle's entries amid the others (`shared`) are `entries` of the run, those of its own steps by themselves
//!   (`alone`) are the run of `own` and what the definitions' machine says; both are equal, and each callback stands
//!   among them once at most, and in order. No premise
//! - `drive_alone`: the same of a plan, by two runs over the same devices and with two lists of callbacks of the same
//!   rules (`TellsPlan`): the handle's entries of the whole plan's steps (`shared`) and the entries of its own pieces
//!   of the plan by themselves (`alone`) are equal, and are what the definitions' machine of that one handle says;
//!   each callback stands among them once at most, and in order. Premises: a callback for each submission in either
//!   list; the rules are the same, and none is Free; no piece is a verdict. What is told after want of memory isn't
//!   said
//! - `Twins::advance`: one piece of a plan was performed amid the others; where it is the handle's own it was
//!   performed alone too, and the entries of both are told (`AdvancesBoth`). `print_alone` of `trace_run` stands over
//!   it
//! - `PlanRun::taken`: the packet of an index of those that a device took at one of its endpoints, held or not
#![tactic(auto)]

mod comparison;
mod drives;
mod own_plan;
mod plan_run;
mod reads;
mod running_callbacks;
mod twins;

pub use comparison::{Comparison, alone};
pub use drives::{StoppedDrive, drive, next_callback};
pub use own_plan::drive_alone;
pub use plan_run::{Performed, PlanRun, copy_of};
pub use twins::{TwinPiece, Twins};
