//! A transfer is submitted: the refusals in their order, and the transfer joins its line.

ghost use Rattle.std.specs.Prelude.{◌≡◌, ℕ, ◌+◌, ◌<◌, is_some, nat_le, length, true, None, Some, IfErr, IfOk};
ghost use Rattle.std.specs.List.{count_by};
ghost use Rattle.usb_model.specs.World.Shared.{pieces_of};
ghost use Rattle.usb_model.specs.declared.effect.Effect.{Effect};
ghost use Rattle.usb_model.specs.declared.handle.Handle.{Handle};
ghost use Rattle.usb_model.specs.Machine.Calls.{is_bad_body, submit_effect};
ghost use Rattle.usb_model.specs.declared.reply.Reply.TheVariants.{Refused as Refuses};
ghost use Rattle.usb_model.specs.Limits.{last_number, most_places};
ghost use Rattle.usb_model.specs.Machine.{is_result_at, says, unless};
ghost use Rattle.usb_model.specs.Machine.Calls.{submit_tests};
ghost use Rattle.reference.specs.Submit.{Admits, after_callback, refused_by};
ghost use Rattle.usb_model.specs.World.{machine_with, own_endpoint};
ghost use Rattle.reference.specs.Call.{machine_in, world_in};
ghost use Rattle.reference.specs.System.{with_endpoint_out, world_of};

use crate::call::Call;
use crate::callback::without;
use crate::calls::submit;
use crate::quiet::results_at;
use crate::system::System;
use std::alloc::{AllocError, Global};
use usb_model::limits::{LAST_NUMBER, MOST_PLACES};
use usb_model::{Body, DeviceNo, Effect, Endpoint, EpAddr, Handle, Name, Refused, Request, Setup};

/// A submission: the request, how often it was submitted before, and the transfer in whose callback it is made again.
#[derive(Drop)]
pub struct Submission {
    /// What is asked.
    pub request: Request,
    /// How often it was submitted before.
    pub round: u64,
    /// The transfer whose callback ends by it, if one does.
    pub ended: Option<u64>,
}

/// What is left of the handle without the transfer whose callback ends, if one does.
fn after_callback(alloc: Global, handle: Handle, ended: Option<u64>) -> Result<Handle, AllocError>
    ensures { IfOk result (λ x. x ≡ after_callback ended handle) }
{
    match ended {
        None => Ok(handle),
        Some(n) => without(alloc, handle, n),
    }
}

impl<'a> Call<'a> {
    /// Whether all places of a name's endpoint are in use.
    fn is_full(&self, ep: EpAddr, endpoint: &Endpoint) -> bool
        ensures { result ≡ nat_le most_places (length endpoint.now.line + count_by (is_result_at ep) (pieces_of self.now.name self.now.system.now.results)) }
    {
        let in_line = endpoint.line.len();
        MOST_PLACES <= in_line
            || MOST_PLACES - in_line <= results_at(self.system.results.as_slice(), self.name, ep)
    }

    /// Why a submission at this endpoint of the name's own is refused, if it is.
    #[tactic(auto, unfolding(usb_model::specs::Machine::refused_if))]
    fn refusal(
        &self,
        handle: &Handle,
        dev: DeviceNo,
        request: &Request,
        endpoint: &Endpoint,
    ) -> Option<Refused>
        requires { handle.now.device ≡ Some dev }
        ensures room { result ≡ None → handle.now.next_number < last_number }
        ensures tests { let m = machine_in self.now handle.now in (rest : Effect) → unless m (submit_tests self.now.setup.now m request.now endpoint.now) rest ≡ refused_by m result rest }
    {
        let kind = self.setup.kind_of(dev, request.ep);
        if self.system.is_gone(dev) {
            Some(Refused::NoDevice)
        } else if kind.is_unsupported() {
            Some(Refused::NotSupported)
        } else if !request.kind.is_same(kind) || request.body.is_bad(request.ep) {
            Some(Refused::InvalidParam)
        } else if self.is_full(request.ep, endpoint) || handle.next_number == LAST_NUMBER {
            Some(Refused::Busy)
        } else {
            None
        }
    }

    /// At which device a submission finds its endpoint and is accepted; else why it is refused.
    #[tactic(auto, unfolding(usb_model::specs::Machine::Calls::submit_effect, usb_model::specs::Machine::Calls::submit_to, usb_model::specs::Machine::refused_if))]
    fn admit(&self, handle: &Handle, request: &Request) -> Result<DeviceNo, Refused>
        ensures admitted { let m = machine_in self.now handle.now in IfOk result (λ dev. (handle.now.device ≡ Some dev) × (handle.now.next_number < last_number) × Admits self.now.setup.now m dev request.now) }
        ensures there { IfOk result (λ dev. is_some (own_endpoint self.now.setup.now self.now.name (world_in self.now) dev request.now.ep) ≡ true) }
        ensures refused { let m = machine_in self.now handle.now in IfErr result (λ why. (after : Handle) (round : ℕ) → submit_effect self.now.setup.now m after request.now round ≡ says m (Refuses why)) }
    {
        let Some(dev) = handle.device else {
            return Err(Refused::NotFound);
        };
        let Some(endpoint) = self
            .system
            .endpoint_of(self.setup, self.name, dev, request.ep)
        else {
            return Err(Refused::NotFound);
        };
        match self.refusal(handle, dev, request, endpoint) {
            Some(why) => Err(why),
            None => Ok(dev),
        }
    }
}

impl System {
    /// An accepted transfer joins its line.
    fn join(
        &mut self,
        alloc: Global,
        setup: &Setup,
        h: Name,
        handle: Handle,
        dev: DeviceNo,
        submission: Submission,
    ) -> Result<Effect, AllocError>
        requires open { handle.device ≡ Some dev }
        requires room { handle.next_number < last_number }
        requires admitted { Admits setup.now (machine_with setup.now h handle (world_of setup.now self.old)) dev submission.request }
        requires there { is_some (own_endpoint setup.now h (world_of setup.now self.old) dev submission.request.ep) ≡ true }
        ensures effect { IfOk result (λ x. x ≡ submit_effect setup.now (machine_with setup.now h handle (world_of setup.now self.old)) (after_callback submission.ended handle) submission.request submission.round) }
        ensures left { IfOk result (λ x. world_of setup.now self.new ≡ with_endpoint_out setup.now h (world_of setup.now self.old) x.change) }
    {
        let Submission {
            request,
            round,
            ended,
        } = submission;
        let ep = request.ep;
        let endpoint = self.take_found(alloc, setup, h, dev, ep);
        let n = handle.next_number;
        let done = submit(alloc, endpoint, n, request, round)?;
        let handle = after_callback(alloc, handle, ended)?;
        let counted = Handle {
            device: handle.device,
            next_number: n + 1,
            in_callbacks: handle.in_callbacks,
        };
        Ok(Effect::at_endpoint(alloc, counted, dev, ep, done)?)
    }

    /// The transfer joins its line, or the submission is refused (`libusb_submit_transfer`).
    pub fn submit_effect(
        &mut self,
        alloc: Global,
        setup: &Setup,
        h: Name,
        handle: Handle,
        submission: Submission,
    ) -> Result<Effect, AllocError>
        ensures effect { IfOk result (λ x. x ≡ submit_effect setup.now (machine_with setup.now h handle (world_of setup.now self.old)) (after_callback submission.ended handle) submission.request submission.round) }
        ensures left { IfOk result (λ x. world_of setup.now self.new ≡ with_endpoint_out setup.now h (world_of setup.now self.old) x.change) }
    {
        let call = Call {
            setup,
            system: self,
            name: h,
        };
        match call.admit(&handle, &submission.request) {
            Ok(dev) => self.join(alloc, setup, h, handle, dev, submission),
            Err(why) => Ok(Effect::refuses(alloc, handle, why)),
        }
    }
}
