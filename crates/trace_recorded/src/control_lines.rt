//! The answers to control requests, by request.

ghost use Rattle.std.specs.Prelude.{◌≡◌, IfOk};
ghost use Rattle.std.specs.Option.{option_copied};
ghost use Rattle.trace_recorded.specs.Keys.{key_of};
ghost use Rattle.trace_recorded.specs.Requests.{control_lines, next_of, no_lines, with_answered, with_next};
ghost use Rattle.trace_recorded.specs.Tables.{value_at};

use crate::answer::RecordedAnswer;
use crate::key::key_of;
use crate::request::AnsweredRequest;
use crate::table::ByNumber;
use std::alloc::{AllocError, Global};
use trace_capture::ControlSetup;
use usb_model::Sequence;
use usb_model::limits::LONGEST_SCRIPT;

/// The answers to control requests, by type, number, value and index.
#[derive(Drop)]
pub(crate) struct ControlLines {
    /// The first request of each line, in the order in which they were answered.
    pub(crate) firsts: Sequence<ControlSetup>,
    /// The answers of each line, by its number.
    answers: ByNumber<Sequence<RecordedAnswer>>,
    /// The packet of the capture that has the first answer for which a line has no room, by the line's number.
    next: ByNumber<u64>,
}

impl ControlLines {
    /// No line.
    fn new(alloc: Global) -> ControlLines
        ensures { result ≡ no_lines }
    {
        ControlLines {
            firsts: Sequence::new(alloc),
            answers: ByNumber::new(alloc),
            next: ByNumber::new(alloc),
        }
    }

    /// Keeps the packet of an answer behind so many, where it is the first for which its line has no room.
    fn put_next(&mut self, key: u64, frame: u64, count: usize) -> Result<(), AllocError>
        ensures { IfOk result (λ _. self.new ≡ with_next key frame count self.old) }
    {
        if count == LONGEST_SCRIPT {
            self.next.put(key, frame)?;
        }
        Ok(())
    }

    /// A request more that was answered.
    #[tactic(auto, unfolding(crate::specs::Requests::with_answered))]
    fn read(&mut self, alloc: Global, request: AnsweredRequest) -> Result<(), AllocError>
        ensures { IfOk result (λ _. self.new ≡ with_answered request self.old) }
    {
        let AnsweredRequest {
            setup,
            answer,
            frame,
        } = request;
        let key = key_of(setup);
        let mut answers = match self.answers.take(key) {
            Some(answers) => answers,
            None => {
                self.firsts.push(setup)?;
                Sequence::new(alloc)
            }
        };
        self.put_next(key, frame, answers.len())?;
        answers.push(answer)?;
        self.answers.put(key, answers)
    }

    /// The packet of the capture that has the first answer for which the line of such a request has no room; 0 where there is none.
    pub(crate) fn next_of(&self, setup: ControlSetup) -> u64
        ensures { result ≡ next_of setup self.now }
    {
        match self.next.get(key_of(setup)) {
            Some(frame) => *frame,
            None => 0,
        }
    }

    /// The answers of the line of such a request.
    pub(crate) fn answers_of(&self, setup: ControlSetup) -> Option<&Sequence<RecordedAnswer>>
        ensures { option_copied result ≡ value_at (key_of setup) self.now.answers }
    {
        self.answers.get(key_of(setup))
    }
}

/// The lines of these requests.
pub(crate) fn control_lines(
    alloc: Global,
    answered: Sequence<AnsweredRequest>,
) -> Result<ControlLines, AllocError>
    ensures { IfOk result (λ lines. lines ≡ control_lines answered) }
{
    let mut lines = ControlLines::new(alloc);
    for request in answered.into_vec() {
        lines.read(alloc, request)?;
    }
    Ok(lines)
}
