//! A callback ends, or its transfer is submitted once more (libusb 1.0, `libusb_transfer_cb_fn`).

ghost use Rattle.std.specs.Prelude.{◌≡◌, false, IfErr, IfOk, OnErr, Some};
ghost use Rattle.usb_model.specs.declared.refused.Refused.TheVariants.{NoMem};
ghost use Rattle.usb_model.specs.declared.reply.Reply.TheVariants.{Number, Refused as IsRefused};
ghost use Rattle.usb_model.specs.declared.request.Body.TheVariants.{Out};
ghost use Rattle.usb_model.specs.declared.step.Step.TheVariants.{Answer};
ghost use Rattle.usb_model.specs.Direction.{IsBody};
ghost use Rattle.usb_model.specs.declared.verdict.Verdict.TheVariants.{Again, AgainWith, Stop};
ghost use Rattle.refine_core.specs.Calls.{Stays};
ghost use Rattle.refine_core.specs.Payloads.{CarriesMore, StillCarries};
ghost use Rattle.refine_core.specs.State.{IsState};
ghost use Rattle.refine_core.specs.Steps.{DoesCoreStep};
ghost use Rattle.usb_core.specs.Submissions.{IsResubmission};

use crate::parts::Parts;
use crate::submission::{Admission, SubmitError};
use usb_device::Device;
use usb_model::{Body, Bytes, InCallback, Name, Refused, Reply, Request};

/// A request with other bytes.
fn with_bytes(request: &Request, bytes: Bytes) -> Request
    ensures { result ≡ record request.now { body = Out bytes } }
{
    Request {
        ep: request.ep,
        kind: request.kind,
        flags: request.flags,
        timeout: request.timeout,
        body: Body::Out(bytes),
    }
}

/// The bytes of a request that sends some.
fn bytes_of(request: Request) -> Bytes
    requires { IsBody false request.body }
    ensures { request.body ≡ Out result }
{
    match request.body {
        Body::Out(bytes) => bytes,
        Body::In(_) => unreachable!(),
    }
}

impl<P, D: Device> Parts<P, D> {
    /// Ends the callback of a transfer, which isn't submitted once more. NotFound where the name has no such transfer
    /// in its callback.
    pub fn stop(&mut self, h: Name, n: u64) -> Reply
        requires { IsState self.old }
        ensures done { DoesCoreStep self.old (Answer h n Stop) (record { owner = Some h; reply = result }) self.new }
        ensures carries { StillCarries self.old self.new }
    {
        match self.callers.remove_callback(h, n) {
            Some(_) => Reply::Done,
            None => Reply::Refused(Refused::NotFound),
        }
    }

    /// Submits the transfer of a callback once more, under a new number; the callback ends. Refused as a submission is,
    /// and NotFound where the name has no such transfer in its callback: the callback then goes on. NoMem, with nothing
    /// changed, where memory is refused.
    pub fn again(&mut self, h: Name, n: u64, payload: P) -> Result<u64, SubmitError<(), P>>
        requires { IsState self.old }
        ensures accepted { IfOk result (λ k. DoesCoreStep self.old (Answer h n Again) (record { owner = Some h; reply = Number k }) self.new) }
        ensures back { IfErr result (λ x. x.payload ≡ payload) }
        ensures refused { IfErr result (λ x. (x.why ≡ NoMem → ⊥) → DoesCoreStep self.old (Answer h n Again) (record { owner = Some h; reply = IsRefused x.why }) self.new) }
        ensures kept { OnErr result (Stays self.old self.new) }
        ensures carries { IfOk result (λ k. CarriesMore h k payload self.old self.new) }
        ensures still { OnErr result (StillCarries self.old self.new) }
    {
        let admission = match self.admit_again(h, n) {
            Ok(admission) => admission,
            Err(why) => {
                return Err(SubmitError {
                    why,
                    given: (),
                    payload,
                });
            }
        };
        if self.callers.reserve_callback(h).is_err() {
            return Err(SubmitError {
                why: Refused::NoMem,
                given: (),
                payload,
            });
        }
        let Some(called) = self.callers.remove_callback(h, n) else {
            unreachable!()
        };
        let (round, status) = (called.round, called.status);
        match self.start(h, admission, called.request, round + 1, payload) {
            Ok(k) => Ok(k),
            Err(unmade) => {
                self.callers.put_callback(
                    h,
                    InCallback {
                        n,
                        request: unmade.request,
                        round,
                        status,
                    },
                );
                Err(SubmitError {
                    why: Refused::NoMem,
                    given: (),
                    payload: unmade.payload,
                })
            }
        }
    }

    /// The same with other bytes to be sent in the place of what the transfer had. Where it is refused they come back.
    pub fn again_with(
        &mut self,
        h: Name,
        n: u64,
        bytes: Bytes,
        payload: P,
    ) -> Result<u64, SubmitError<Bytes, P>>
        requires { IsState self.old }
        ensures accepted { IfOk result (λ k. DoesCoreStep self.old (Answer h n (AgainWith bytes)) (record { owner = Some h; reply = Number k }) self.new) }
        ensures given { IfErr result (λ x. x.given ≡ bytes) }
        ensures back { IfErr result (λ x. x.payload ≡ payload) }
        ensures refused { IfErr result (λ x. (x.why ≡ NoMem → ⊥) → DoesCoreStep self.old (Answer h n (AgainWith bytes)) (record { owner = Some h; reply = IsRefused x.why }) self.new) }
        ensures kept { OnErr result (Stays self.old self.new) }
        ensures carries { IfOk result (λ k. CarriesMore h k payload self.old self.new) }
        ensures still { OnErr result (StillCarries self.old self.new) }
    {
        let request = match self.callers.callback(h, n) {
            Some(called) => with_bytes(&called.request, bytes),
            None => {
                return Err(SubmitError {
                    why: Refused::NotFound,
                    given: bytes,
                    payload,
                });
            }
        };
        let admission = match self.admit(h, &request) {
            Ok(admission) => admission,
            Err(why) => {
                return Err(SubmitError {
                    why,
                    given: bytes_of(request),
                    payload,
                });
            }
        };
        if self.callers.reserve_callback(h).is_err() {
            return Err(SubmitError {
                why: Refused::NoMem,
                given: bytes_of(request),
                payload,
            });
        }
        let Some(called) = self.callers.remove_callback(h, n) else {
            unreachable!()
        };
        match self.start(h, admission, request, called.round + 1, payload) {
            Ok(k) => Ok(k),
            Err(unmade) => {
                self.callers.put_callback(h, called);
                Err(SubmitError {
                    why: Refused::NoMem,
                    given: bytes_of(unmade.request),
                    payload: unmade.payload,
                })
            }
        }
    }

    /// Where the transfer of a callback is to join its line once more, or what it is refused for.
    fn admit_again(&self, h: Name, n: u64) -> Result<Admission, Refused>
        requires { IsState self.now }
        ensures { IsResubmission self.now h n result }
    {
        match self.callers.callback(h, n) {
            Some(called) => self.admit(h, &called.request),
            None => Err(Refused::NotFound),
        }
    }
}
