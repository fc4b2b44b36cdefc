//! A scenario: devices, and a plan with the rules of its submissions.

ghost use Rattle.std.specs.Prelude.{IfOk};
ghost use Rattle.trace_scenario.specs.Scenario.{scenario_of};
ghost use Rattle.usb_scripttext.specs.Results.{AnswersAs};
ghost use Rattle.trace_scenario.specs.Runnable.{IsRunnable};

use crate::lined::{Lined, read_text};
use std::alloc::Global;
use usb_device::ScriptedDevice;
use usb_model::{Plan, Rule, Sequence};
use usb_scripttext::TextFault;

/// A scenario that was read.
#[derive(Drop)]
pub struct Scenario {
    /// The devices.
    pub setup: Sequence<ScriptedDevice>,
    /// What is to be done.
    pub plan: Sequence<Plan>,
    /// The rule of each submission's callback, in order.
    pub rules: Sequence<Rule>,
}

/// The scenario of a text, or the fault in it: its first line that isn't taken, or want of memory. What it gives can be run.
pub fn read_scenario(alloc: Global, text: &[u8]) -> Result<Scenario, TextFault>
    ensures scenario { AnswersAs result (scenario_of text.now) }
    ensures runnable { IfOk result (λ s. IsRunnable s) }
{
    let Lined { scenario, .. } = read_text(alloc, text, false)?;
    Ok(scenario)
}
