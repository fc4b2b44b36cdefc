//! A plan that is performed in threads: what came of it, and who performs one.

ghost use Rattle.std.specs.Prelude.{IfOk, List};
ghost use Rattle.usb_model.specs.declared.step.Step.{Step};
ghost use Rattle.usb_core.specs.Public.{setup_of};
ghost use Rattle.trace_threads.specs.Unfinished.{IsPerformed};

use std::alloc::{AllocError, Global};
use trace_left::Left;
use usb_core::Setup;
use usb_device::TableDevice;
use usb_model::{Entry, Plan, Rule, Sequence};

/// What came of a plan that was performed.
#[derive(Drop)]
pub struct Performance {
    /// What the callbacks were told, by handle and number.
    pub told: Vec<Entry>,
    /// What the handles hadn't finished when the library ended, by handle: transfers that their devices don't end, and whatever orders,
    /// events, results and callbacks were left. Open devices, held interfaces, halts and unused answers aren't among it.
    pub unfinished: Vec<Left>,
}

/// Performs plans in threads.
///
/// Its law: what a performance gives is what the callbacks were told in a run in which each handle's lines stand, in their order, all of it, by
/// handle and number, and what wasn't finished where that run ends. In that run each callback answers what the rule of one of its handle's
/// submissions says; when `rounds` callbacks were called, each that is called then is at its end, whatever its rule. An error means that memory
/// was refused, to whichever thread, or that a thread couldn't be made.
pub trait Performer {
    /// When it may perform plans, as where its threads may share what they need: for contracts alone.
    ghost ready: { Self → Type 0 };

    /// Performs a plan over these devices. What the workers do has no place in it and is passed over: packets, orders, events, results and
    /// callbacks that return.
    fn perform(
        &self,
        alloc: Global,
        setup: Setup<TableDevice>,
        plan: Sequence<Plan>,
        rules: &[Rule],
        rounds: u64,
    ) -> Result<Performance, AllocError>
        requires { ready self.now }
        ensures { IfOk result (λ p. (steps : List Step) × IsPerformed (setup_of setup) plan rules.now rounds steps p.told.items p.unfinished.items) };
}

/// Performs no plan, and says that memory is refused: for words that ask for no threads.
#[derive(Drop)]
pub struct Nobody;

impl Performer for Nobody {
    ghost use Rattle.std.specs.Prelude.{⊤};

    ghost ready = { λ nobody. ⊤ };

    fn perform(
        &self,
        _alloc: Global,
        _setup: Setup<TableDevice>,
        _plan: Sequence<Plan>,
        _rules: &[Rule],
        _rounds: u64,
    ) -> Result<Performance, AllocError> {
        Err(AllocError)
    }
}
