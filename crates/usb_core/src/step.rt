//! A step of the core, whichever it is.

ghost use Rattle.std.specs.Prelude.{◌≡◌, true, IfErr, IfOk, None, OnErr, Some, is_some, option_map};
ghost use Rattle.usb_model.specs.declared.step.Step.TheVariants.{Answer, Take};
ghost use Rattle.usb_model.specs.Numbers.{takes_payload};
ghost use Rattle.refine_core.specs.Calls.{Stays};
ghost use Rattle.refine_core.specs.Payloads.{Carries, Kept, StillCarries};
ghost use Rattle.refine_core.specs.Steps.{TurnsWorld};
ghost use Rattle.usb_core.specs.Calls.{takes_memory};
ghost use Rattle.usb_core.specs.Steps.{GoesOut, answered, first_payload, handed_out, kept_after, left_over};

use crate::calls::Core;
use crate::{SubmitError, Taken};
use std::fmt;
use thiserror::Error;
use usb_device::Device;
use usb_model::{Entry, Name, Refused, Reply, Step, Verdict};

/// What a step gave.
#[derive(Drop)]
pub struct Stepped<P> {
    /// Whose the step was, and the reply to it.
    pub entry: Entry,
    /// What its caller kept with the transfer that went out to its callback; None where none did.
    pub out: Option<P>,
    /// The payload that was given with the step; None where a transfer was submitted with it.
    pub back: Option<P>,
}

/// A step that found no memory. Nothing changed.
#[derive(Drop, Error)]
#[error("there is no memory")]
pub struct NoMemory<P> {
    /// The payload that was given with the step.
    pub payload: Option<P>,
}

/// Shows no payload, which may have no form that can be shown.
impl<P> fmt::Debug for NoMemory<P> {
    fn fmt<W: fmt::Write>(&self, f: &mut fmt::Formatter<W>) -> fmt::Result {
        f.write_str("NoMemory")
    }
}

/// The entry of a name's step.
fn entry_of(h: Name, reply: Reply) -> Entry
    ensures { result ≡ record { owner = Some h; reply = reply } }
{
    Entry {
        owner: Some(h),
        reply,
    }
}

/// A step that hands nothing out and takes no payload.
fn told<P>(entry: Entry, back: Option<P>) -> Stepped<P>
    ensures { result ≡ record { entry = entry; out = None; back = back } }
{
    Stepped {
        entry,
        out: None,
        back,
    }
}

/// What a submission of this name gave. What was to be sent is dropped where it is refused.
fn submitted<G: Drop, P>(
    h: Name,
    given: Result<u64, SubmitError<G, P>>,
) -> Result<Stepped<P>, NoMemory<P>>
    ensures { result ≡ answered h given }
{
    match given {
        Ok(n) => Ok(told(entry_of(h, Reply::Number(n)), None)),
        Err(SubmitError { why, payload, .. }) => match why {
            Refused::NoMem => Err(NoMemory {
                payload: Some(payload),
            }),
            _ => Ok(told(entry_of(h, Reply::Refused(why)), Some(payload))),
        },
    }
}

impl<P, D: Device> Core<P, D> {
    /// One step. With a payload where the step takes one (`Step::takes_payload`); where one is given to another step it
    /// comes back. Only a step that submits and Take can find no memory. What a step was to send is dropped where it is
    /// refused or finds no memory; `submit`, `again` and `again_with` hand it back.
    pub fn step(&mut self, step: Step, payload: Option<P>) -> Result<Stepped<P>, NoMemory<P>>
        requires { takes_payload step ≡ true → is_some payload ≡ true }
        ensures turned { IfOk result (λ x. TurnsWorld self.old step x.entry self.new) }
        ensures out { IfOk result (λ x. x.out ≡ handed_out self.old step) }
        ensures back { IfOk result (λ x. x.back ≡ left_over (takes_payload step) x.entry.reply payload) }
        ensures payload { IfErr result (λ x. x.payload ≡ payload) }
        ensures memory { OnErr result (takes_memory step ≡ true) }
        ensures kept { OnErr result (Stays self.old self.new) }
        ensures carries { IfOk result (λ x. (kept : Kept P) → Carries kept self.old → Carries (kept_after kept step x.entry payload) self.new) }
        ensures goes_out { IfOk result (λ x. (kept : Kept P) → Carries kept self.old → GoesOut kept x.out x.entry.reply) }
        ensures still { OnErr result (StillCarries self.old self.new) }
    {
        match step {
            Step::Submit { h, request } => {
                let Some(payload) = payload else {
                    unreachable!()
                };
                submitted(h, self.submit(h, request, payload))
            }
            Step::Take => self.step_take(payload),
            Step::Answer { h, n, verdict } => self.step_answer(h, n, verdict, payload),
            _ => Ok(told(self.call(step), payload)),
        }
    }

    /// The oldest result goes out to its callback.
    fn step_take(&mut self, payload: Option<P>) -> Result<Stepped<P>, NoMemory<P>>
        ensures turned { IfOk result (λ x. TurnsWorld self.old Take x.entry self.new) }
        ensures out { IfOk result (λ x. x.out ≡ first_payload self.old) }
        ensures back { IfOk result (λ x. x.back ≡ payload) }
        ensures payload { IfErr result (λ x. x.payload ≡ payload) }
        ensures kept { OnErr result (Stays self.old self.new) }
        ensures carries { StillCarries self.old self.new }
        ensures goes_out { IfOk result (λ x. (kept : Kept P) → Carries kept self.old → GoesOut kept x.out x.entry.reply) }
    {
        match self.take() {
            Ok(
                Some(
                    Taken {
                        returned,
                        payload: out,
                    },
                ),
            ) => Ok(Stepped {
                entry: returned.into_entry(),
                out: Some(out),
                back: payload,
            }),
            Ok(None) => Ok(told(
                Entry {
                    owner: None,
                    reply: Reply::Idle,
                },
                payload,
            )),
            Err(_) => Err(NoMemory { payload }),
        }
    }

    /// The verdict of a callback.
    fn step_answer(
        &mut self,
        h: Name,
        n: u64,
        verdict: Verdict,
        payload: Option<P>,
    ) -> Result<Stepped<P>, NoMemory<P>>
        requires { takes_payload (Answer h n verdict) ≡ true → is_some payload ≡ true }
        ensures turned { IfOk result (λ x. TurnsWorld self.old (Answer h n verdict) x.entry self.new) }
        ensures out { IfOk result (λ x. x.out ≡ None) }
        ensures back { IfOk result (λ x. x.back ≡ left_over (takes_payload (Answer h n verdict)) x.entry.reply payload) }
        ensures payload { IfErr result (λ x. x.payload ≡ payload) }
        ensures memory { OnErr result (takes_payload (Answer h n verdict) ≡ true) }
        ensures kept { OnErr result (Stays self.old self.new) }
        ensures carries { IfOk result (λ x. (kept : Kept P) → Carries kept self.old → Carries (kept_after kept (Answer h n verdict) x.entry payload) self.new) }
        ensures still { OnErr result (StillCarries self.old self.new) }
    {
        match verdict {
            Verdict::Stop => Ok(told(entry_of(h, self.stop(h, n)), payload)),
            Verdict::Again => {
                let Some(payload) = payload else {
                    unreachable!()
                };
                submitted(h, self.again(h, n, payload))
            }
            Verdict::AgainWith(bytes) => {
                let Some(payload) = payload else {
                    unreachable!()
                };
                submitted(h, self.again_with(h, n, bytes, payload))
            }
        }
    }
}
