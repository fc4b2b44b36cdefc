//! A step of the book, whichever it is.

ghost use Rattle.std.specs.Prelude.{◌≡◌, ◌++◌, ◌∷◌, [], false, true, IfErr, IfOk, None, is_some, option_map};
ghost use Rattle.usb_model.specs.declared.step.Step.TheVariants.{Answer, Take};
ghost use Rattle.usb_model.specs.Numbers.{takes_payload};
ghost use Rattle.usb_core.specs.Steps.{GoesOut, first_payload, handed_out, kept_after, left_over};
ghost use Rattle.usb_core.specs.Public.{Carries, Kept, StillCarries, called_entry, takes_memory};
ghost use Rattle.usb_journal.specs.Booked.{IsMoved, IsSame, Sees, answer_entry, next_entry, next_receipt, payload_back};
ghost use Rattle.usb_journal.specs.Timers.{ending};

use crate::book::JournaledCore;
use crate::naming::Naming;
use crate::position::Position;
use crate::receipt::Receipt;
use crate::submissions::enter;
use crate::timer::stop_if;
use std::fmt;
use thiserror::Error;
use usb_core::{Stepped, SubmitError, Taken};
use usb_device::Device;
use usb_model::{Entry, Name, Reply, Step, Verdict};
use usb_receipts::Image;
use usb_recorder::Recorder;

/// A step that found no memory. Nothing changed, and all that was given comes back.
#[derive(Drop, Error)]
#[error("there is no memory")]
pub struct RecordError<G, P> {
    /// What was to be done: a step, or what was to be sent.
    pub given: G,
    /// The payload that was given with it.
    pub payload: P,
}

/// Shows nothing of what comes back, which may have no form that can be shown.
impl<G, P> fmt::Debug for RecordError<G, P> {
    fn fmt<W: fmt::Write>(&self, f: &mut fmt::Formatter<W>) -> fmt::Result {
        f.write_str("RecordError")
    }
}

impl<L: Naming, P: Drop, D: Device, J: Recorder> JournaledCore<L, P, D, J> {
    /// Makes one step, at the next place of the journal. With a payload where the step takes one (`Step::takes_payload`);
    /// one that isn't kept with a transfer comes back. Where memory is wanting nothing changed, and the step comes back.
    pub fn record(
        &mut self,
        step: Step,
        position: &mut Position<L>,
        payload: Option<P>,
    ) -> Result<(Receipt<L>, Stepped<P>), RecordError<Step, Option<P>>>
        requires { takes_payload step ≡ true → is_some payload ≡ true }
        ensures receipt { IfOk result (λ r. r.0 ≡ next_receipt self.old step position.old.number r.1.entry) }
        ensures journal { IfOk result (λ r. self.new.journal ≡ self.old.journal ++ r.0.entry ∷ []) }
        ensures entry { IfOk result (λ r. r.1.entry ≡ next_entry self.old.setup self.old.journal step) }
        ensures position { IfOk result (λ r. IsMoved position.old r.0 position.new) }
        ensures saw { IfOk result (λ r. Sees position.old self.old.journal position.new self.new.journal) }
        ensures library { self.old.setup ≡ L.setup }
        ensures rest { (self.new.setup ≡ self.old.setup) × (self.new.moment ≡ self.old.moment) }
        ensures out { IfOk result (λ r. r.1.out ≡ handed_out self.old.core step) }
        ensures back { IfOk result (λ r. r.1.back ≡ left_over (takes_payload step) r.1.entry.reply payload) }
        ensures carries { IfOk result (λ r. (kept : Kept P) → Carries kept self.old.core → Carries (kept_after kept step r.1.entry payload) self.new.core) }
        ensures goes_out { IfOk result (λ r. (kept : Kept P) → Carries kept self.old.core → GoesOut kept r.1.out r.1.entry.reply) }
        ensures err { IfErr result (λ x. (x.given ≡ step) × (x.payload ≡ payload) × IsSame self.old self.new × (position.new ≡ position.old)) }
    {
        match step {
            Step::Submit { h, request } => {
                let Some(payload) = payload else {
                    unreachable!()
                };
                match self.submit(h, request, payload, position) {
                    Ok((receipt, answer)) => Ok((receipt, answered(h, answer))),
                    Err(RecordError { given, payload }) => Err(RecordError {
                        given: Step::Submit { h, request: given },
                        payload: Some(payload),
                    }),
                }
            }
            Step::Take => self.record_take(position, payload),
            Step::Answer { h, n, verdict } => {
                self.record_answer(h, n, verdict, position, payload)
            }
            _ => self.record_plain(step, position, payload),
        }
    }

    /// The oldest result goes out to its callback.
    fn record_take(
        &mut self,
        position: &mut Position<L>,
        payload: Option<P>,
    ) -> Result<(Receipt<L>, Stepped<P>), RecordError<Step, Option<P>>>
        ensures receipt { IfOk result (λ r. r.0 ≡ next_receipt self.old Take position.old.number r.1.entry) }
        ensures journal { IfOk result (λ r. self.new.journal ≡ self.old.journal ++ r.0.entry ∷ []) }
        ensures entry { IfOk result (λ r. r.1.entry ≡ next_entry self.old.setup self.old.journal Take) }
        ensures position { IfOk result (λ r. IsMoved position.old r.0 position.new) }
        ensures saw { IfOk result (λ r. Sees position.old self.old.journal position.new self.new.journal) }
        ensures library { self.old.setup ≡ L.setup }
        ensures rest { (self.new.setup ≡ self.old.setup) × (self.new.moment ≡ self.old.moment) }
        ensures out { IfOk result (λ r. r.1.out ≡ first_payload self.old.core) }
        ensures back { IfOk result (λ r. r.1.back ≡ payload) }
        ensures carries { IfOk result (λ r. StillCarries self.old.core self.new.core) }
        ensures goes_out { IfOk result (λ r. (kept : Kept P) → Carries kept self.old.core → GoesOut kept r.1.out r.1.entry.reply) }
        ensures err { IfErr result (λ x. (x.given ≡ Take) × (x.payload ≡ payload) × IsSame self.old self.new × (position.new ≡ position.old)) }
    {
        match self.take(position) {
            Ok((receipt, taken)) => Ok((receipt, called(taken, payload))),
            Err(_) => Err(RecordError {
                given: Step::Take,
                payload,
            }),
        }
    }

    /// The verdict of a callback.
    fn record_answer(
        &mut self,
        h: Name,
        n: u64,
        verdict: Verdict,
        position: &mut Position<L>,
        payload: Option<P>,
    ) -> Result<(Receipt<L>, Stepped<P>), RecordError<Step, Option<P>>>
        requires { takes_payload (Answer h n verdict) ≡ true → is_some payload ≡ true }
        ensures receipt { IfOk result (λ r. r.0 ≡ next_receipt self.old (Answer h n verdict) position.old.number r.1.entry) }
        ensures journal { IfOk result (λ r. self.new.journal ≡ self.old.journal ++ r.0.entry ∷ []) }
        ensures entry { IfOk result (λ r. r.1.entry ≡ next_entry self.old.setup self.old.journal (Answer h n verdict)) }
        ensures position { IfOk result (λ r. IsMoved position.old r.0 position.new) }
        ensures saw { IfOk result (λ r. Sees position.old self.old.journal position.new self.new.journal) }
        ensures library { self.old.setup ≡ L.setup }
        ensures rest { (self.new.setup ≡ self.old.setup) × (self.new.moment ≡ self.old.moment) }
        ensures out { IfOk result (λ r. r.1.out ≡ None) }
        ensures back { IfOk result (λ r. r.1.back ≡ left_over (takes_payload (Answer h n verdict)) r.1.entry.reply payload) }
        ensures carries { IfOk result (λ r. (kept : Kept P) → Carries kept self.old.core → Carries (kept_after kept (Answer h n verdict) r.1.entry payload) self.new.core) }
        ensures err { IfErr result (λ x. (x.given ≡ Answer h n verdict) × (x.payload ≡ payload) × IsSame self.old self.new × (position.new ≡ position.old)) }
    {
        match verdict {
            Verdict::Stop => self.record_plain(
                Step::Answer {
                    h,
                    n,
                    verdict: Verdict::Stop,
                },
                position,
                payload,
            ),
            Verdict::Again => {
                let Some(payload) = payload else {
                    unreachable!()
                };
                match self.again(h, n, payload, position) {
                    Ok((receipt, answer)) => Ok((receipt, answered(h, answer))),
                    Err(RecordError { payload, .. }) => Err(RecordError {
                        given: Step::Answer {
                            h,
                            n,
                            verdict: Verdict::Again,
                        },
                        payload: Some(payload),
                    }),
                }
            }
            Verdict::AgainWith(bytes) => {
                let Some(payload) = payload else {
                    unreachable!()
                };
                match self.again_with(h, n, bytes, payload, position) {
                    Ok((receipt, answer)) => Ok((receipt, answered(h, answer))),
                    Err(RecordError { given, payload }) => Err(RecordError {
                        given: Step::Answer {
                            h,
                            n,
                            verdict: Verdict::AgainWith(given),
                        },
                        payload: Some(payload),
                    }),
                }
            }
        }
    }

    /// A step for which the core takes no memory.
    fn record_plain(
        &mut self,
        step: Step,
        position: &mut Position<L>,
        payload: Option<P>,
    ) -> Result<(Receipt<L>, Stepped<P>), RecordError<Step, Option<P>>>
        requires { takes_memory step ≡ false }
        ensures receipt { IfOk result (λ r. r.0 ≡ next_receipt self.old step position.old.number r.1.entry) }
        ensures journal { IfOk result (λ r. self.new.journal ≡ self.old.journal ++ r.0.entry ∷ []) }
        ensures entry { IfOk result (λ r. r.1.entry ≡ next_entry self.old.setup self.old.journal step) }
        ensures position { IfOk result (λ r. IsMoved position.old r.0 position.new) }
        ensures saw { IfOk result (λ r. Sees position.old self.old.journal position.new self.new.journal) }
        ensures library { self.old.setup ≡ L.setup }
        ensures rest { (self.new.setup ≡ self.old.setup) × (self.new.moment ≡ self.old.moment) }
        ensures out { IfOk result (λ r. r.1.out ≡ handed_out self.old.core step) }
        ensures back { IfOk result (λ r. r.1.back ≡ left_over (takes_payload step) r.1.entry.reply payload) }
        ensures carries { IfOk result (λ r. (kept : Kept P) → Carries kept self.old.core → Carries (kept_after kept step r.1.entry payload) self.new.core) }
        ensures goes_out { IfOk result (λ r. (kept : Kept P) → Carries kept self.old.core → GoesOut kept r.1.out r.1.entry.reply) }
        ensures err { IfErr result (λ x. (x.given ≡ step) × (x.payload ≡ payload) × IsSame self.old self.new × (position.new ≡ position.old)) }
    {
        let caller = position.number();
        let JournaledCore {
            core,
            moment,
            log,
            timers,
            ..
        } = self;
        let Ok(draft) = log.prepare(&step) else {
            return Err(RecordError {
                given: step,
                payload,
            });
        };
        let asked = Image::of(&step);
        let ending = ending(&step);
        let Ok(stepped) = core.step(step, payload) else {
            unreachable!()
        };
        stop_if(timers, ending, &stepped.entry);
        let receipt = enter(log, position, draft, asked, caller, &stepped.entry, *moment);
        Ok((receipt, stepped))
    }
}

/// What a submission of this name gave. What was to be sent is dropped where it is refused.
fn answered<G: Drop, P>(h: Name, answer: Result<u64, SubmitError<G, P>>) -> Stepped<P>
    ensures entry { result.entry ≡ answer_entry h answer }
    ensures out { result.out ≡ None }
    ensures back { result.back ≡ payload_back answer }
{
    match answer {
        Ok(n) => Stepped {
            entry: Entry {
                owner: Some(h),
                reply: Reply::Number(n),
            },
            out: None,
            back: None,
        },
        Err(SubmitError { why, payload, .. }) => Stepped {
            entry: Entry {
                owner: Some(h),
                reply: Reply::Refused(why),
            },
            out: None,
            back: Some(payload),
        },
    }
}

/// What a result that goes out gives, or that none does.
fn called<P>(taken: Option<Taken<P>>, back: Option<P>) -> Stepped<P>
    ensures entry { result.entry ≡ called_entry (option_map (λ t. t.returned) taken) }
    ensures out { result.out ≡ option_map (λ t. t.payload) taken }
    ensures back { result.back ≡ back }
{
    match taken {
        None => Stepped {
            entry: Entry {
                owner: None,
                reply: Reply::Idle,
            },
            out: None,
            back,
        },
        Some(Taken { returned, payload }) => Stepped {
            entry: returned.into_entry(),
            out: Some(payload),
            back,
        },
    }
}

/// The transfer whose callback a step ends.
fn ending(step: &Step) -> Option<(Name, u64)>
    ensures { result ≡ ending step.now }
{
    match step {
        Step::Answer { h, n, verdict } => match verdict {
            Verdict::Stop => Some((*h, *n)),
            _ => None,
        },
        _ => None,
    }
}
