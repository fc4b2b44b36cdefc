//! What a step does to the machine of the handle whose it is.

ghost use Rattle.std.specs.Prelude.{◌≡◌, Some, IfOk};
ghost use Rattle.usb_model.specs.Machine.Turns.{effect, unplug_reply};
ghost use Rattle.usb_model.specs.World.{owner_of};
ghost use Rattle.usb_model.specs.World.{machine_with};
ghost use Rattle.reference.specs.System.{with_endpoint_out, world_of};

use crate::call::Call;
use crate::submission::Submission;
use crate::system::System;
use std::alloc::{AllocError, Global};
use usb_model::{Ask, DeviceNo, Effect, Handle, Name, Refused, Reply, Setup, Step};

impl System {
    /// The reply to an Unplug.
    pub fn unplug_reply(&self, setup: &Setup, dev: DeviceNo) -> Reply
        ensures { result ≡ unplug_reply setup.now (world_of setup.now self.now).gone dev }
    {
        if !setup.is_device(dev) {
            Reply::Refused(Refused::NotFound)
        } else if self.is_gone(dev) {
            Reply::Refused(Refused::NoDevice)
        } else {
            Reply::Done
        }
    }

    /// What a step does to the machine of the handle whose it is; the endpoint that it sets is taken out.
    #[tactic(auto, unfolding(usb_model::specs::Machine::Turns::effect))]
    pub fn effect(
        &mut self,
        alloc: Global,
        setup: &Setup,
        h: Name,
        handle: Handle,
        step: &Step,
    ) -> Result<Effect, AllocError>
        requires { owner_of setup.now (world_of setup.now self.old) step.now ≡ Some h }
        ensures effect { IfOk result (λ x. x ≡ effect setup.now h (machine_with setup.now h handle (world_of setup.now self.old)) step.now) }
        ensures left { IfOk result (λ x. world_of setup.now self.new ≡ with_endpoint_out setup.now h (world_of setup.now self.old) x.change) }
    {
        let call = Call {
            setup,
            system: self,
            name: h,
        };
        match step {
            Step::Open { dev, .. } => Ok(call.open_effect(alloc, handle, *dev)),
            Step::Close { .. } => Ok(call.close_effect(alloc, handle)),
            Step::Claim { i, .. } => Ok(call.claim_effect(alloc, handle, *i)),
            Step::Release { i, .. } => Ok(call.release_effect(alloc, handle, *i)),
            Step::Reset { .. } => Ok(call.reset_effect(alloc, handle)),
            Step::ClearHalt { ep, .. } => Ok(self.clear_halt_effect(alloc, setup, h, handle, *ep)),
            Step::Submit { request, .. } => {
                let submission = Submission {
                    request: request.clone()?,
                    round: 0,
                    ended: None,
                };
                self.submit_effect(alloc, setup, h, handle, submission)
            },
            Step::Cancel { n, .. } => self.ask_effect(
                alloc,
                setup,
                h,
                handle,
                *n,
                Ask::Cancel,
                false,
            ),
            Step::Expire { n, .. } => self.ask_effect(alloc, setup, h, handle, *n, Ask::Time, true),
            Step::Serve { dev, ep } => self.serve_effect(alloc, setup, h, handle, *dev, *ep),
            Step::Command => self.command_first(alloc, setup, h, handle),
            Step::Deliver => self.deliver_first(alloc, setup, h, handle),
            Step::Take => self.take_first(alloc, setup, h, handle),
            Step::Answer { n, verdict, .. } => self.answer_effect(
                alloc, setup, h, handle, *n, verdict,
            ),
            Step::Unplug { dev } => Ok(Effect::says(alloc, handle, self.unplug_reply(setup, *dev))),
        }
    }
}
