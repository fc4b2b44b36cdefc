//! The reason of a step.

ghost use Rattle.std.specs.Prelude.{◌≡◌};
ghost use Rattle.reference.specs.System.{world_of};
ghost use Rattle.trace_explain.specs.Reasons.{reason_of};

use crate::caller::Caller;
use crate::calls::unplug_reason;
use crate::sentence::Reason;
use crate::tests_of_calls::request_facts;
use crate::turns::{command_reason, deliver_reason, serve_reason, take_reason};
use reference::System;
use usb_model::{Setup, Step};

/// Why the entry of a step in this system will say what it says; None where there is nothing to say. It is asked before
/// the step is made, and takes no memory.
#[tactic(auto, unfolding(crate::specs::Reasons::reason_of))]
pub fn reason(setup: &Setup, system: &System, step: &Step) -> Option<Reason>
    ensures { result ≡ reason_of setup.now (world_of setup.now system.now) step.now }
{
    match step {
        Step::Open { h, dev } => {
            let caller = Caller::new(setup, system, *h);
            caller.told(caller.open_refusal(*dev))
        }
        Step::Close { h } => {
            let caller = Caller::new(setup, system, *h);
            caller.told(caller.close_refusal())
        }
        Step::Claim { h, i } => {
            let caller = Caller::new(setup, system, *h);
            caller.told(caller.claim_refusal(*i))
        }
        Step::Release { h, i } => {
            let caller = Caller::new(setup, system, *h);
            caller.told(caller.release_refusal(*i))
        }
        Step::Reset { h } => {
            let caller = Caller::new(setup, system, *h);
            caller.told(caller.reset_refusal())
        }
        Step::ClearHalt { h, ep } => {
            let caller = Caller::new(setup, system, *h);
            caller.told(caller.clear_refusal(*ep))
        }
        Step::Submit { h, request } => {
            let caller = Caller::new(setup, system, *h);
            caller.told(caller.submit_refusal(request.ep, request_facts(request)))
        }
        Step::Cancel { h, n } => {
            let caller = Caller::new(setup, system, *h);
            caller.told(caller.ask_refusal(*n, false))
        }
        Step::Expire { h, n } => {
            let caller = Caller::new(setup, system, *h);
            caller.told(caller.ask_refusal(*n, true))
        }
        Step::Answer { h, n, verdict } => {
            let caller = Caller::new(setup, system, *h);
            caller.told(caller.answer_refusal(*n, verdict))
        }
        Step::Serve { dev, ep } => serve_reason(setup, system, *dev, *ep),
        Step::Command => command_reason(setup, system),
        Step::Deliver => deliver_reason(setup, system),
        Step::Take => take_reason(system),
        Step::Unplug { dev } => unplug_reason(setup, system, *dev),
    }
}
