//! What an endpoint of a recorded device answered.

ghost use Rattle.std.specs.Prelude.{◌≡◌, ◌-◌, ◌<◌, ◌++◌, IfOk, length, take};
ghost use Rattle.usb_model.specs.Limits.{longest_script};
ghost use Rattle.trace_recorded.specs.Endpoints.{is_behind_stall, is_own, is_scripted, no_answers, submitted, with_answers, with_callback, with_counts, with_end_of, with_event, with_own_by, with_places, with_transfer, with_turn};
ghost use Rattle.trace_recorded.specs.Written.{recorded_answers};

use crate::answer::RecordedAnswer;
use crate::answers::{answer_count, recorded_answers};
use crate::event::{RecordedEvent, RecordedType};
use crate::halt::submits_end;
use crate::note::Noted;
use crate::submission::{RecordedSubmission, copied};
use crate::table::ByNumber;
use crate::transfer::RecordedTransfer;
use crate::waits::{Source, TakenCount, Waits, awaited};
use std::alloc::{AllocError, Global};
use std::mem;
use usb_model::limits::LONGEST_SCRIPT;
use usb_model::{EndpointInfo, Sequence};

/// What an endpoint answered, as far as its device's events were read. Counters stay at the largest number of 64 bits.
#[derive(Drop)]
pub(crate) struct RecordedEndpoint {
    /// The endpoint.
    pub(crate) info: EndpointInfo,
    /// The submissions of transfers in flight, by their ids.
    waiting: ByNumber<RecordedSubmission>,
    /// How often its halt was ended.
    clears: u64,
    /// How often it had been ended where the transfer was submitted that got the last stall.
    stalled_at: Option<u64>,
    /// Its first answers, as many as a script may have.
    pub(crate) answers: Sequence<RecordedAnswer>,
    /// How many there are.
    pub(crate) count: u64,
    /// The packet of the capture that has the last one; 0 where there is none.
    pub(crate) answered: u64,
    /// How many packets that were written were acknowledged.
    pub(crate) acknowledged: u64,
    /// How many reads the host made end before they had an answer.
    withdrawn: u64,
    /// Which of its answers wait for what.
    pub(crate) waits: Waits,
    /// The packet of the capture that has the first answer that isn't in its script; 0 where all are.
    pub(crate) next: u64,
    /// How many bytes that were read weren't recorded.
    pub(crate) lost: Noted,
    /// How many packets were too long.
    pub(crate) too_long: Noted,
    /// How many transfers were too large for a request.
    pub(crate) left_out: Noted,
}

/// Whether an endpoint's answers make a script.
pub(crate) fn is_scripted(info: &EndpointInfo) -> bool
    ensures { result ≡ is_scripted info.now }
{
    !info.kind.is_unsupported() && info.packet_size > 0
}

/// Whether an event is of a transfer of this endpoint.
pub(crate) fn is_own(info: &EndpointInfo, event: &RecordedEvent) -> bool
    ensures { result ≡ is_own info.now event.now }
{
    event.ep.address() == info.address.address() && event.kind.is_same(info.kind)
}

impl RecordedEndpoint {
    /// Nothing happened yet.
    pub(crate) fn new(alloc: Global, info: EndpointInfo) -> RecordedEndpoint
        ensures { result ≡ no_answers info }
    {
        RecordedEndpoint {
            info,
            waiting: ByNumber::new(alloc),
            clears: 0,
            stalled_at: None,
            answers: Sequence::new(alloc),
            count: 0,
            answered: 0,
            acknowledged: 0,
            withdrawn: 0,
            waits: Waits::new(alloc),
            next: 0,
            lost: Noted::new(),
            too_long: Noted::new(),
            left_out: Noted::new(),
        }
    }

    /// What is kept of a submission.
    fn submitted(
        &self,
        alloc: Global,
        event: &RecordedEvent,
    ) -> Result<RecordedSubmission, AllocError>
        ensures { IfOk result (λ s. s ≡ submitted event.now self.now) }
    {
        Ok(RecordedSubmission {
            length: event.length,
            is_counted: event.is_counted,
            flags: event.flags,
            bytes: copied(alloc, event.bytes.as_slice())?,
            clears: self.clears,
            frame: event.frame,
        })
    }

    /// Whether a transfer ended behind a stall, without an answer, where the halt was ended so often before it was submitted.
    fn is_behind_stall(&self, clears: u64, transfer: &RecordedTransfer) -> bool
        ensures { result ≡ is_behind_stall clears transfer.now self.now }
    {
        let is_since = match self.stalled_at {
            Some(stalled_at) => stalled_at == clears,
            None => false,
        };
        transfer.end.is_stalled() && transfer.moved == 0 && is_since
    }

    /// As many answers of a transfer more as there is room for.
    fn push_answers(
        &mut self,
        alloc: Global,
        size: u16,
        transfer: &RecordedTransfer,
    ) -> Result<(), AllocError>
        requires { 0 < size }
        ensures { IfOk result (λ _. self.new ≡ record self.old { answers = self.old.answers ++ take (longest_script - length self.old.answers) (recorded_answers size transfer.now) }) }
    {
        let room = LONGEST_SCRIPT.saturating_sub(self.answers.len());
        if room == 0 {
            return Ok(());
        }
        let mut more = recorded_answers(alloc, size, transfer)?.into_vec();
        more.truncate(room);
        let answers = mem::replace(&mut self.answers, Sequence::new(alloc));
        self.answers = answers.append(Sequence::from_vec(more))?;
        Ok(())
    }

    /// A transfer ended, and its answers are kept and counted.
    fn answer(
        &mut self,
        alloc: Global,
        size: u16,
        clears: u64,
        frame: u64,
        transfer: &RecordedTransfer,
    ) -> Result<(), AllocError>
        requires { 0 < size }
        ensures { IfOk result (λ _. self.new ≡ with_answers size clears frame transfer.now self.old) }
    {
        let room = LONGEST_SCRIPT.saturating_sub(self.answers.len());
        let count = answer_count(size, transfer);
        self.push_answers(alloc, size, transfer)?;
        if transfer.end.is_stalled() {
            self.stalled_at = Some(clears);
        }
        if self.next == 0 && count > room {
            self.next = frame;
        }
        if count > 0 {
            self.answered = frame;
        }
        self.count = self.count.saturating_add(count as u64);
        self.lost = self.lost.with(frame, transfer.bytes_lost());
        self.too_long = self.too_long.with(frame, transfer.reads_too_long());
        Ok(())
    }

    /// The answers of a read are to be put behind the others: they wait for this.
    fn wait(&mut self, taken: &[TakenCount], count: usize) -> Result<(), AllocError>
        ensures { IfOk result (λ _. self.new ≡ with_places taken.now count self.old) }
    {
        if !self.info.address.is_in() || count == 0 || self.count >= LONGEST_SCRIPT as u64 {
            return Ok(());
        }
        let place = self.count;
        let own = TakenCount {
            source: Source::Endpoint(self.info.address),
            count: self.withdrawn,
            frame: 0,
        };
        self.waits.put_all(place, own, taken)
    }

    /// A transfer ended: its packets that were taken are counted, or that it was withdrawn.
    fn count_ended(&mut self, size: u16, transfer: &RecordedTransfer, count: usize)
        requires { 0 < size }
        ensures { self.new ≡ with_counts size transfer.now count self.old }
    {
        if self.info.address.is_in() {
            if transfer.end.is_withdrawn() && count == 0 {
                self.withdrawn = self.withdrawn.saturating_add(1);
            }
        } else {
            let acknowledged = transfer.packets_acknowledged(usize::from(size)) as u64;
            self.acknowledged = self.acknowledged.saturating_add(acknowledged);
        }
    }

    /// A transfer ended with answers of its own, perhaps none.
    fn answer_in_turn(
        &mut self,
        alloc: Global,
        taken: &[TakenCount],
        clears: u64,
        frame: u64,
        transfer: &RecordedTransfer,
    ) -> Result<(), AllocError>
        requires { 0 < self.old.info.packet_size }
        ensures { IfOk result (λ _. self.new ≡ with_turn taken.now clears frame transfer.now self.old) }
    {
        let size = self.info.packet_size;
        let count = answer_count(size, transfer);
        self.wait(taken, count)?;
        self.answer(alloc, size, clears, frame, transfer)?;
        self.count_ended(size, transfer, count);
        Ok(())
    }

    /// A transfer ended.
    #[tactic(auto, unfolding(crate::specs::Endpoints::with_transfer))]
    fn end(
        &mut self,
        alloc: Global,
        taken: &[TakenCount],
        clears: u64,
        frame: u64,
        transfer: &RecordedTransfer,
    ) -> Result<(), AllocError>
        requires { 0 < self.old.info.packet_size }
        ensures { IfOk result (λ _. self.new ≡ with_transfer taken.now clears frame transfer.now self.old) }
    {
        if transfer.is_too_large() {
            self.left_out = self.left_out.with(frame, 1);
            return Ok(());
        }
        if self.is_behind_stall(clears, transfer) {
            return Ok(());
        }
        self.answer_in_turn(alloc, taken, clears, frame, transfer)
    }

    /// A transfer was called back.
    fn call_back(
        &mut self,
        alloc: Global,
        taken: &[TakenCount],
        submitted: RecordedSubmission,
        event: &RecordedEvent,
    ) -> Result<(), AllocError>
        requires { 0 < self.old.info.packet_size }
        ensures { IfOk result (λ _. self.new ≡ with_callback taken.now submitted event.now self.old) }
    {
        let clears = submitted.clears;
        let info = self.info;
        let awaited = awaited(alloc, info.address, submitted.frame, taken)?;
        let transfer = submitted.into_transfer(alloc, &info, event)?;
        self.end(alloc, awaited.as_slice(), clears, event.frame, &transfer)
    }

    /// A transfer was called back, of which this submission was recorded, if any.
    fn call_back_any(
        &mut self,
        alloc: Global,
        taken: &[TakenCount],
        submitted: Option<RecordedSubmission>,
        event: &RecordedEvent,
    ) -> Result<(), AllocError>
        requires { 0 < self.old.info.packet_size }
        ensures { IfOk result (λ _. self.new ≡ with_end_of submitted taken.now event.now self.old) }
    {
        match submitted {
            Some(submitted) => self.call_back(alloc, taken, submitted, event),
            None if event.is_counted => {
                let submitted = self.submitted(alloc, event)?;
                self.call_back(alloc, taken, submitted, event)
            }
            None => Ok(()),
        }
    }

    /// An event of a transfer of this endpoint.
    fn read_own(
        &mut self,
        alloc: Global,
        taken: &[TakenCount],
        event: &RecordedEvent,
    ) -> Result<(), AllocError>
        requires { 0 < self.old.info.packet_size }
        ensures { IfOk result (λ _. self.new ≡ with_own_by event.now.event_type taken.now event.now self.old) }
    {
        match event.event_type {
            RecordedType::Submission => {
                let submitted = self.submitted(alloc, event)?;
                self.waiting.put(event.id, submitted)
            }
            RecordedType::Callback => {
                let submitted = self.waiting.take(event.id);
                self.call_back_any(alloc, taken, submitted, event)
            }
            RecordedType::SubmissionError => {
                let _ = self.waiting.take(event.id);
                Ok(())
            }
        }
    }

    /// An event of the device, behind which the others had taken so much.
    #[tactic(auto, unfolding(crate::specs::Endpoints::with_event))]
    pub(crate) fn read(
        &mut self,
        alloc: Global,
        taken: &[TakenCount],
        event: &RecordedEvent,
    ) -> Result<(), AllocError>
        ensures { IfOk result (λ _. self.new ≡ with_event taken.now event.now self.old) }
    {
        let info = self.info;
        if submits_end(&info, event) {
            self.clears = self.clears.saturating_add(1);
            return Ok(());
        }
        if is_scripted(&info) && is_own(&info, event) {
            return self.read_own(alloc, taken, event);
        }
        Ok(())
    }
}
