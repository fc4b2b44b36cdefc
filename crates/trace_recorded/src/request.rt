//! Control requests of a recorded device, and its answers (USB 2.0, 9.3 and 9.4).

ghost use Rattle.std.specs.Prelude.{◌≡◌, IfOk};
ghost use Rattle.trace_recorded.specs.Answers.{end_of};
ghost use Rattle.trace_recorded.specs.Requests.{answer_by, data_lost, data_read, done_by, is_of_host, is_request, is_too_large, no_requests, reads, reads_own, with_answer_to, with_ended};

use crate::answer::RecordedAnswer;
use crate::event::RecordedEvent;
use crate::note::Noted;
use crate::packets::written_bytes;
use crate::transfer::RecordedEnd;
use std::alloc::{AllocError, Global};
use trace_capture::ControlSetup;
use usb_model::{Bytes, Response, Sequence};

/// How many bytes an answer to a request may have.
pub(crate) const MOST_DATA: usize = 4096;

/// A control request that was submitted.
#[derive(Drop)]
pub(crate) struct RecordedRequest {
    /// What it asks for.
    pub(crate) setup: ControlSetup,
    /// The bytes that it writes, as far as they were recorded.
    pub(crate) bytes: Bytes,
}

/// A control request that was answered.
#[derive(Drop)]
pub(crate) struct AnsweredRequest {
    /// What it asked for.
    pub(crate) setup: ControlSetup,
    /// The answer.
    pub(crate) answer: RecordedAnswer,
    /// The packet of the capture that has it.
    pub(crate) frame: u64,
}

/// The control requests that a driver made.
#[derive(Drop)]
pub(crate) struct AnsweredRequests {
    /// Those that were answered, in the order of their ends.
    pub(crate) answered: Sequence<AnsweredRequest>,
    /// How many bytes that were read weren't recorded.
    pub(crate) lost: Noted,
    /// How many requests were too large for an answer.
    pub(crate) left_out: Noted,
}

/// Whether a request has this type and this number.
fn is_request(kind: u8, request: u8, setup: ControlSetup) -> bool
    ensures { result ≡ is_request kind request setup }
{
    setup.request_type == kind && setup.request == request
}

/// Whether it reads the descriptor of the device, of a configuration or of a string.
fn reads_own(setup: ControlSetup) -> bool
    ensures { result ≡ reads_own setup }
{
    let kind = setup.value / 256;
    is_request(0x80, 6, setup) && kind >= 1 && kind <= 3
}

/// Whether a host makes it by itself.
fn is_of_host(setup: ControlSetup) -> bool
    ensures { result ≡ is_of_host setup }
{
    reads_own(setup)
        || is_request(0, 9, setup)
        || is_request(1, 11, setup)
        || is_request(2, 1, setup)
        || is_request(0, 5, setup)
        || is_request(0, 3, setup)
        || is_request(0, 1, setup)
}

/// Whether its data go to the host.
fn reads(setup: ControlSetup) -> bool
    ensures { result ≡ reads setup }
{
    setup.request_type >= 128
}

impl RecordedEvent {
    /// What a request read, at most 4096 bytes: those that weren't recorded are zeros.
    fn data_read(&self, alloc: Global) -> Result<Bytes, AllocError>
        ensures { IfOk result (λ bytes. bytes ≡ data_read self.now) }
    {
        let mut bytes = Vec::from_slice(alloc, self.bytes.as_slice())?;
        bytes.resize(self.length as usize, 0)?;
        Ok(Sequence::from_vec(bytes))
    }
}

impl RecordedRequest {
    /// The answer, where it was done.
    fn done(&self, alloc: Global, event: &RecordedEvent) -> Result<RecordedAnswer, AllocError>
        ensures { IfOk result (λ answer. answer ≡ done_by self.now event.now) }
    {
        if reads(self.setup) {
            let bytes = event.data_read(alloc)?;
            return Ok(RecordedAnswer::Given(Response::Data(bytes)));
        }
        if self.setup.length == 0 {
            return Ok(RecordedAnswer::Given(Response::Ack));
        }
        let length = usize::from(self.setup.length);
        let written = written_bytes(alloc, length, self.bytes.as_slice())?;
        Ok(RecordedAnswer::Taken(written))
    }

    /// The answer by how it ended, if there is one.
    fn answer(
        &self,
        alloc: Global,
        event: &RecordedEvent,
    ) -> Result<Option<RecordedAnswer>, AllocError>
        ensures { IfOk result (λ answer. answer ≡ answer_by (end_of event.now.status) self.now event.now) }
    {
        match RecordedEnd::of(event.status) {
            RecordedEnd::Done => Ok(Some(self.done(alloc, event)?)),
            RecordedEnd::Stalled => Ok(Some(RecordedAnswer::Given(Response::Stall))),
            RecordedEnd::Failed => Ok(Some(RecordedAnswer::Given(Response::Broken))),
            RecordedEnd::TooLong | RecordedEnd::Withdrawn | RecordedEnd::Cut => Ok(None),
        }
    }

    /// Whether it moved more bytes than an answer may have.
    fn is_too_large(&self, event: &RecordedEvent) -> bool
        ensures { result ≡ is_too_large self.now event.now }
    {
        if reads(self.setup) {
            event.length as usize > MOST_DATA
        } else {
            usize::from(self.setup.length) > MOST_DATA
        }
    }

    /// How many of the bytes that it read weren't recorded.
    fn data_lost(&self, event: &RecordedEvent) -> u64
        ensures { result ≡ data_lost self.now event.now }
    {
        if reads(self.setup) {
            (event.length as u64).saturating_sub(event.bytes.len() as u64)
        } else {
            0
        }
    }
}

impl AnsweredRequests {
    /// None yet.
    pub(crate) fn new(alloc: Global) -> AnsweredRequests
        ensures { result ≡ no_requests }
    {
        AnsweredRequests {
            answered: Sequence::new(alloc),
            lost: Noted::new(),
            left_out: Noted::new(),
        }
    }

    /// A request more, where it was answered.
    fn push(
        &mut self,
        request: RecordedRequest,
        answer: Option<RecordedAnswer>,
        event: &RecordedEvent,
    ) -> Result<(), AllocError>
        ensures { IfOk result (λ _. self.new ≡ with_answer_to request answer event.now self.old) }
    {
        let Some(answer) = answer else {
            return Ok(());
        };
        let frame = event.frame;
        self.lost = self.lost.with(frame, request.data_lost(event));
        let setup = request.setup;
        self.answered.push(AnsweredRequest {
            setup,
            answer,
            frame,
        })
    }

    /// A request ended.
    pub(crate) fn end(
        &mut self,
        alloc: Global,
        request: RecordedRequest,
        event: &RecordedEvent,
    ) -> Result<(), AllocError>
        ensures { IfOk result (λ _. self.new ≡ with_ended request event.now self.old) }
    {
        if is_of_host(request.setup) {
            return Ok(());
        }
        if request.is_too_large(event) {
            self.left_out = self.left_out.with(event.frame, 1);
            return Ok(());
        }
        let answer = request.answer(alloc, event)?;
        self.push(request, answer, event)
    }
}
