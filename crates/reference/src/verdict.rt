//! A callback's verdict: it is at its end, or its request is submitted again.

ghost use Rattle.std.specs.Prelude.{◌≡◌, ◌+◌, Some, IfOk};
ghost use Rattle.usb_model.specs.Machine.Calls.{answer_effect};
ghost use Rattle.usb_model.specs.World.{machine_with};
ghost use Rattle.reference.specs.System.{with_endpoint_out, world_of};

use crate::callback::{callback_of, without};
use crate::submission::Submission;
use crate::system::System;
use std::alloc::{AllocError, Global};
use usb_model::{
    Body, Bytes, Change, Effect, Handle, InCallback, Name, Refused, Request, Setup, Verdict,
};

/// The request of a transfer in its callback once more. The 2^64th round is answered as want of memory. No run comes
/// there, since a round is at most its transfer's number; but no premise here says so of `x`.
fn again(x: &InCallback, body: Body) -> Result<Submission, AllocError>
    ensures { IfOk result (λ s. s ≡ record { request = record x.now.request { body = body }; round = x.now.round + 1; ended = Some x.now.n }) }
{
    if x.round == u64::MAX {
        return Err(AllocError);
    }
    Ok(Submission {
        request: Request {
            ep: x.request.ep,
            kind: x.request.kind,
            flags: x.request.flags,
            timeout: x.request.timeout,
            body,
        },
        round: x.round + 1,
        ended: Some(x.n),
    })
}

impl System {
    /// A callback's verdict (`libusb_transfer_cb_fn`).
    #[tactic(auto, unfolding(usb_model::specs::Machine::Calls::answer_effect, usb_model::specs::Machine::Calls::answer_callback))]
    pub fn answer_effect(
        &mut self,
        alloc: Global,
        setup: &Setup,
        h: Name,
        handle: Handle,
        n: u64,
        verdict: &Verdict,
    ) -> Result<Effect, AllocError>
        ensures effect { IfOk result (λ x. x ≡ answer_effect setup.now (machine_with setup.now h handle (world_of setup.now self.old)) n verdict.now) }
        ensures left { IfOk result (λ x. world_of setup.now self.new ≡ with_endpoint_out setup.now h (world_of setup.now self.old) x.change) }
    {
        let Some(x) = callback_of(&handle, n) else {
            return Ok(Effect::refuses(alloc, handle, Refused::NotFound));
        };
        let submission = match verdict {
            Verdict::Stop => {
                let n = x.n;
                let handle = without(alloc, handle, n)?;
                return Ok(Effect::does(alloc, handle, Change::Keeps));
            },
            Verdict::Again => again(x, x.request.body.clone()?)?,
            Verdict::AgainWith(bytes) => again(x, Body::Out(bytes.clone()?))?,
        };
        self.submit_effect(alloc, setup, h, handle, submission)
    }
}
