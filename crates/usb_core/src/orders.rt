//! The controller carries out the oldest order (xHCI 1.2, 4.6).

ghost use Rattle.std.specs.Prelude.{◌≡◌};
ghost use Rattle.usb_model.specs.declared.step.Step.TheVariants.{Command};
ghost use Rattle.refine_core.specs.Payloads.{StillCarries};
ghost use Rattle.refine_core.specs.State.{IsState};
ghost use Rattle.refine_core.specs.Steps.{DoesCoreStep, order_in};

use crate::parts::Parts;
use usb_device::Device;
use usb_model::completion::SUCCESS;
use usb_model::{Entry, Errand, Reply};
use usb_trb::{EndpointId, Slot, TrbKind};

impl<P, D: Device> Parts<P, D> {
    /// The oldest order of the command ring is carried out, or fails. Nobody's and Idle where none waits.
    pub fn command(&mut self) -> Entry
        requires { IsState self.old }
        ensures done { DoesCoreStep self.old Command result self.new }
        ensures carries { StillCarries self.old self.new }
    {
        let Some((order, code)) = self.controller.run_command() else {
            return Entry {
                owner: None,
                reply: Reply::Idle,
            };
        };
        let Some(said) = order_in(&order) else {
            unreachable!();
        };
        let (slot, id, errand) = said;
        let Some(at) = self.claims.held_at(slot.number(), id.number()) else {
            unreachable!();
        };
        Entry {
            owner: Some(at.name),
            reply: Reply::Ran {
                ep: at.ep,
                errand,
                ok: code == SUCCESS,
            },
        }
    }
}

/// The slot, the endpoint and the errand of an order.
fn order_in(order: &TrbKind) -> Option<(Slot, EndpointId, Errand)>
    ensures { result ≡ order_in order.now }
{
    match *order {
        TrbKind::StopEndpoint { slot, id } => Some((slot, id, Errand::Stop)),
        TrbKind::ResetEndpoint { slot, id } => Some((slot, id, Errand::Reset)),
        TrbKind::SetDequeue { slot, id, .. } => Some((slot, id, Errand::Move)),
        _ => None,
    }
}
