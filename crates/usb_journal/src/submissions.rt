//! Submissions, which give back what was given where they are refused.

ghost use Rattle.std.specs.Prelude.{◌≡◌, ◌++◌, ◌∷◌, ◌+◌, ◌<◌, ◌^◌, [], IfErr, IfOk, OnErr, OnOk, Some, length, vec_capacity, vec_len};
ghost use Rattle.usb_model.specs.declared.step.Step.TheVariants.{Answer, Submit};
ghost use Rattle.usb_model.specs.declared.verdict.Verdict.TheVariants.{Again, AgainWith};
ghost use Rattle.usb_core.specs.Public.{CarriesMore, StillCarries};
ghost use Rattle.usb_recorder.specs.Records.{bytes_in};
ghost use Rattle.usb_journal.specs.Booked.{IsMoved, IsSame, Sees, answer_entry, new_bytes_in, next_entry, next_receipt, request_in, unless_no_memory};

use crate::book::JournaledCore;
use crate::log::Log;
use crate::naming::Naming;
use crate::position::Position;
use crate::receipt::Receipt;
use crate::record::RecordError;
use crate::timer::{Timer, start_again_if, start_if};
use std::alloc::AllocError;
use usb_core::SubmitError;
use usb_device::Device;
use usb_model::{Bytes, Entry, Name, Refused, Reply, Request, Step, Verdict};
use usb_receipts::Image;
use usb_recorder::{PlaceImage, Recorder};

impl<L: Naming, P, D: Device, J: Recorder> JournaledCore<L, P, D, J> {
    /// Submits a transfer (libusb 1.0, `libusb_submit_transfer`), at the next place of the journal: its number, or why it
    /// is refused, with what was given. Where memory is wanting nothing changed, and what was given comes back.
    pub fn submit(
        &mut self,
        h: Name,
        request: Request,
        payload: P,
        position: &mut Position<L>,
    ) -> Result<(Receipt<L>, Result<u64, SubmitError<Request, P>>), RecordError<Request, P>>
        ensures receipt { IfOk result (λ r. r.0 ≡ next_receipt self.old (Submit h request) position.old.number (answer_entry h r.1)) }
        ensures journal { IfOk result (λ r. self.new.journal ≡ self.old.journal ++ r.0.entry ∷ []) }
        ensures entry { IfOk result (λ r. answer_entry h r.1 ≡ next_entry self.old.setup self.old.journal (Submit h request)) }
        ensures position { IfOk result (λ r. IsMoved position.old r.0 position.new) }
        ensures saw { IfOk result (λ r. Sees position.old self.old.journal position.new self.new.journal) }
        ensures library { self.old.setup ≡ L.setup }
        ensures rest { (self.new.setup ≡ self.old.setup) × (self.new.moment ≡ self.old.moment) }
        ensures back { IfOk result (λ r. IfErr r.1 (λ x. (x.given ≡ request) × (x.payload ≡ payload))) }
        ensures carries { IfOk result (λ r. IfOk r.1 (λ n. CarriesMore h n payload self.old.core self.new.core)) }
        ensures still { IfOk result (λ r. OnErr r.1 (StillCarries self.old.core self.new.core)) }
        ensures err { IfErr result (λ x. (x.given ≡ request) × (x.payload ≡ payload) × IsSame self.old self.new × (position.new ≡ position.old)) }
    {
        let caller = position.number();
        let JournaledCore {
            core,
            moment,
            log,
            timers,
            ..
        } = self;
        let step = Step::Submit { h, request };
        let prepared = prepare(log, timers, &step);
        let asked = Image::of(&step);
        let Some(request) = request_in(step) else {
            unreachable!()
        };
        let Ok(draft) = prepared else {
            return Err(RecordError {
                given: request,
                payload,
            });
        };
        let timeout = request.timeout;
        let answer = match unless_no_memory(core.submit(h, request, payload)) {
            Ok(answer) => answer,
            Err(back) => return Err(back),
        };
        start_if(timers, h, &answer, timeout, *moment);
        let receipt = enter_answer(log, position, draft, asked, caller, h, &answer, *moment);
        Ok((receipt, answer))
    }

    /// Submits the transfer of a callback once more (libusb 1.0, `libusb_transfer_cb_fn`, `libusb_submit_transfer`), at
    /// the next place of the journal: its new number, or why it is refused, with the payload. Where memory is wanting
    /// nothing changed, and the payload comes back.
    pub fn again(
        &mut self,
        h: Name,
        n: u64,
        payload: P,
        position: &mut Position<L>,
    ) -> Result<(Receipt<L>, Result<u64, SubmitError<(), P>>), RecordError<(), P>>
        ensures receipt { IfOk result (λ r. r.0 ≡ next_receipt self.old (Answer h n Again) position.old.number (answer_entry h r.1)) }
        ensures journal { IfOk result (λ r. self.new.journal ≡ self.old.journal ++ r.0.entry ∷ []) }
        ensures entry { IfOk result (λ r. answer_entry h r.1 ≡ next_entry self.old.setup self.old.journal (Answer h n Again)) }
        ensures position { IfOk result (λ r. IsMoved position.old r.0 position.new) }
        ensures saw { IfOk result (λ r. Sees position.old self.old.journal position.new self.new.journal) }
        ensures library { self.old.setup ≡ L.setup }
        ensures rest { (self.new.setup ≡ self.old.setup) × (self.new.moment ≡ self.old.moment) }
        ensures back { IfOk result (λ r. IfErr r.1 (λ x. x.payload ≡ payload)) }
        ensures carries { IfOk result (λ r. IfOk r.1 (λ k. CarriesMore h k payload self.old.core self.new.core)) }
        ensures still { IfOk result (λ r. OnErr r.1 (StillCarries self.old.core self.new.core)) }
        ensures err { IfErr result (λ x. (x.payload ≡ payload) × IsSame self.old self.new × (position.new ≡ position.old)) }
    {
        let caller = position.number();
        let JournaledCore {
            core,
            moment,
            log,
            timers,
            ..
        } = self;
        let step = Step::Answer {
            h,
            n,
            verdict: Verdict::Again,
        };
        let Ok(draft) = prepare(log, timers, &step) else {
            return Err(RecordError { given: (), payload });
        };
        let asked = Image::of(&step);
        let answer = match unless_no_memory(core.again(h, n, payload)) {
            Ok(answer) => answer,
            Err(back) => return Err(back),
        };
        start_again_if(timers, h, n, &answer, *moment);
        let receipt = enter_answer(log, position, draft, asked, caller, h, &answer, *moment);
        Ok((receipt, answer))
    }

    /// The same with other bytes to be sent. Where it is refused, or memory is wanting, they come back.
    pub fn again_with(
        &mut self,
        h: Name,
        n: u64,
        bytes: Bytes,
        payload: P,
        position: &mut Position<L>,
    ) -> Result<(Receipt<L>, Result<u64, SubmitError<Bytes, P>>), RecordError<Bytes, P>>
        ensures receipt { IfOk result (λ r. r.0 ≡ next_receipt self.old (Answer h n (AgainWith bytes)) position.old.number (answer_entry h r.1)) }
        ensures journal { IfOk result (λ r. self.new.journal ≡ self.old.journal ++ r.0.entry ∷ []) }
        ensures entry { IfOk result (λ r. answer_entry h r.1 ≡ next_entry self.old.setup self.old.journal (Answer h n (AgainWith bytes))) }
        ensures position { IfOk result (λ r. IsMoved position.old r.0 position.new) }
        ensures saw { IfOk result (λ r. Sees position.old self.old.journal position.new self.new.journal) }
        ensures library { self.old.setup ≡ L.setup }
        ensures rest { (self.new.setup ≡ self.old.setup) × (self.new.moment ≡ self.old.moment) }
        ensures back { IfOk result (λ r. IfErr r.1 (λ x. (x.given ≡ bytes) × (x.payload ≡ payload))) }
        ensures carries { IfOk result (λ r. IfOk r.1 (λ k. CarriesMore h k payload self.old.core self.new.core)) }
        ensures still { IfOk result (λ r. OnErr r.1 (StillCarries self.old.core self.new.core)) }
        ensures err { IfErr result (λ x. (x.given ≡ bytes) × (x.payload ≡ payload) × IsSame self.old self.new × (position.new ≡ position.old)) }
    {
        let caller = position.number();
        let JournaledCore {
            core,
            moment,
            log,
            timers,
            ..
        } = self;
        let step = Step::Answer {
            h,
            n,
            verdict: Verdict::AgainWith(bytes),
        };
        let prepared = prepare(log, timers, &step);
        let asked = Image::of(&step);
        let Some(bytes) = new_bytes_in(step) else {
            unreachable!()
        };
        let Ok(draft) = prepared else {
            return Err(RecordError {
                given: bytes,
                payload,
            });
        };
        let answer = match unless_no_memory(core.again_with(h, n, bytes, payload)) {
            Ok(answer) => answer,
            Err(back) => return Err(back),
        };
        start_again_if(timers, h, n, &answer, *moment);
        let receipt = enter_answer(log, position, draft, asked, caller, h, &answer, *moment);
        Ok((receipt, answer))
    }
}

/// Asks for all that a submission takes of the journal, and for a place among the timers. Inlined where the step is known.
#[inline(always)]
fn prepare<L: Naming, J: Recorder>(
    log: &mut Log<L, J>,
    timers: &mut Vec<Timer>,
    step: &Step,
) -> Result<J::Draft, AllocError>
    ensures draft { IfOk result (λ draft. J.is_draft log.new.recorder draft step.now) }
    ensures room { OnOk result ((length log.old.journal + 1 < 2 ^ 64) × J.has_room log.new.recorder 1 0) }
    ensures same { log.new.journal ≡ log.old.journal }
    ensures timers { timers.new.items ≡ timers.old.items }
    ensures place { OnOk result (vec_len timers.new < vec_capacity timers.new) }
{
    timers.reserve(1)?;
    log.prepare(step)
}

/// One place more, of a step whose reply has no bytes.
#[inline(always)]
pub(crate) fn enter<L: Naming, J: Recorder>(
    log: &mut Log<L, J>,
    position: &mut Position<L>,
    draft: J::Draft,
    asked: Image<Step>,
    caller: u32,
    entry: &Entry,
    moment: u64,
) -> Receipt<L>
    requires bearer { caller ≡ position.old.number }
    requires room { (length log.old.journal + 1 < 2 ^ 64) × J.has_room log.old.recorder 1 0 }
    requires draft { J.is_draft log.old.recorder draft asked.value }
    requires bytes { bytes_in entry.now.reply ≡ 0 }
    ensures receipt { result ≡ record { place = length log.old.journal; entry = record { step = asked.value; caller = caller; entry = entry.now; moment = moment } } }
    ensures journal { log.new.journal ≡ log.old.journal ++ result.entry ∷ [] }
    ensures position { IsMoved position.old result position.new }
    ensures saw { Sees position.old log.old.journal position.new log.new.journal }
{
    let told = PlaceImage::new(asked, caller, entry, moment);
    log.enter_drafted(position, draft, told, entry)
}

/// One place more, of a submission of a name that is answered so.
#[inline(always)]
fn enter_answer<L: Naming, J: Recorder, G, P>(
    log: &mut Log<L, J>,
    position: &mut Position<L>,
    draft: J::Draft,
    asked: Image<Step>,
    caller: u32,
    h: Name,
    answer: &Result<u64, SubmitError<G, P>>,
    moment: u64,
) -> Receipt<L>
    requires bearer { caller ≡ position.old.number }
    requires room { (length log.old.journal + 1 < 2 ^ 64) × J.has_room log.old.recorder 1 0 }
    requires draft { J.is_draft log.old.recorder draft asked.value }
    ensures receipt { result ≡ record { place = length log.old.journal; entry = record { step = asked.value; caller = caller; entry = answer_entry h answer.now; moment = moment } } }
    ensures journal { log.new.journal ≡ log.old.journal ++ result.entry ∷ [] }
    ensures position { IsMoved position.old result position.new }
    ensures saw { Sees position.old log.old.journal position.new log.new.journal }
{
    let entry = answer_entry(h, answer);
    enter(log, position, draft, asked, caller, &entry, moment)
}

/// The entry of a submission of a name.
fn answer_entry<G, P>(h: Name, answer: &Result<u64, SubmitError<G, P>>) -> Entry
    ensures entry { result ≡ answer_entry h answer.now }
    ensures bytes { bytes_in result.reply ≡ 0 }
{
    let reply = match answer {
        Ok(n) => Reply::Number(*n),
        Err(unaccepted) => Reply::Refused(unaccepted.why),
    };
    Entry {
        owner: Some(h),
        reply,
    }
}

/// What a submission is answered, unless memory was wanting.
fn unless_no_memory<G, P>(
    answer: Result<u64, SubmitError<G, P>>,
) -> Result<Result<u64, SubmitError<G, P>>, RecordError<G, P>>
    ensures { result ≡ unless_no_memory answer }
{
    match answer {
        Ok(n) => Ok(Ok(n)),
        Err(
            SubmitError {
                why,
                given,
                payload,
            },
        ) => match why {
            Refused::NoMem => Err(RecordError { given, payload }),
            _ => Ok(Err(SubmitError {
                why,
                given,
                payload,
            })),
        },
    }
}

/// The request of a submission.
fn request_in(step: Step) -> Option<Request>
    ensures { result ≡ request_in step }
{
    match step {
        Step::Submit { request, .. } => Some(request),
        _ => None,
    }
}

/// The bytes of a submission from within a callback, where they are other ones.
fn new_bytes_in(step: Step) -> Option<Bytes>
    ensures { result ≡ new_bytes_in step }
{
    match step {
        Step::Answer { verdict, .. } => match verdict {
            Verdict::AgainWith(bytes) => Some(bytes),
            _ => None,
        },
        _ => None,
    }
}
