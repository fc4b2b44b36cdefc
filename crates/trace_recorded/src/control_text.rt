//! Control requests in a text, with their answers.

ghost use Rattle.std.specs.Prelude.{◌≡◌, ◌++◌, IfOk, take};
ghost use Rattle.trace_recorded.specs.DeviceText.{bytes_of, control_head, control_line, controls_text, note_head, note_rest, request_line, request_note, request_words, word};

use crate::answer::RecordedAnswer;
use crate::control_lines::ControlLines;
use crate::note::{EndpointNote, Noted};
use crate::text::ScenarioText;
use std::alloc::AllocError;
use trace_capture::ControlSetup;
use usb_model::limits::LONGEST_SCRIPT;

/// The first answers, as many as there are.
fn front(answers: &[RecordedAnswer], count: usize) -> &[RecordedAnswer]
    ensures { result.now ≡ take count answers.now }
{
    answers.get(..count).unwrap_or(answers)
}

impl ScenarioText {
    /// Puts bytes behind it as a word.
    fn put_word(&mut self, bytes: &[u8]) -> Result<(), AllocError>
        ensures { IfOk result (λ _. self.new ≡ self.old ++ word bytes.now) }
    {
        self.put(" ")?;
        self.put_hex(bytes)
    }

    /// Puts a number of 16 bits behind it as a word.
    fn put_number(&mut self, number: u16) -> Result<(), AllocError>
        ensures { IfOk result (λ _. self.new ≡ self.old ++ word (bytes_of number)) }
    {
        self.put_word(&[(number / 256) as u8, (number % 256) as u8])
    }

    /// Puts the words of a request behind it.
    pub(crate) fn put_request(&mut self, setup: ControlSetup) -> Result<(), AllocError>
        ensures { IfOk result (λ _. self.new ≡ self.old ++ request_words setup) }
    {
        self.put_word(&[setup.request_type])?;
        self.put_word(&[setup.request])?;
        self.put_number(setup.value)?;
        self.put_number(setup.index)
    }

    /// Puts the beginning of a request's note behind it.
    fn put_note_head(&mut self, setup: ControlSetup) -> Result<(), AllocError>
        ensures { IfOk result (λ _. self.new ≡ self.old ++ note_head setup) }
    {
        self.put("# control")?;
        self.put_request(setup)
    }

    /// Puts the rest of it behind it: how many answers there are, and where the next is.
    fn put_note_rest(&mut self, noted: Noted) -> Result<(), AllocError>
        ensures { IfOk result (λ _. self.new ≡ self.old ++ note_rest noted) }
    {
        let note = EndpointNote::TooMany(noted);
        let rest = format!(in self.alloc(); ": {note}\n")?;
        self.put(rest.as_str())
    }

    /// Puts the note behind it that a request has more answers than a line has, where it has.
    fn put_request_note(&mut self, setup: ControlSetup, noted: Noted) -> Result<(), AllocError>
        ensures { IfOk result (λ _. self.new ≡ self.old ++ request_note setup noted) }
    {
        if !EndpointNote::TooMany(noted).is_due() {
            return Ok(());
        }
        self.put_note_head(setup)?;
        self.put_note_rest(noted)
    }

    /// Puts the beginning of a request's line behind it.
    fn put_control_head(&mut self, number: u8, setup: ControlSetup) -> Result<(), AllocError>
        ensures { IfOk result (λ _. self.new ≡ self.old ++ control_head number setup) }
    {
        let head = format!(in self.alloc(); "control {number}")?;
        self.put(head.as_str())?;
        self.put_request(setup)
    }

    /// Puts the line of a request with these answers behind it, for which the packet of this number has the next.
    #[tactic(auto, unfolding(crate::specs::DeviceText::request_line))]
    fn put_request_line(
        &mut self,
        number: u8,
        setup: ControlSetup,
        next: u64,
        answers: &[RecordedAnswer],
    ) -> Result<(), AllocError>
        ensures { IfOk result (λ _. self.new ≡ self.old ++ request_line number setup next answers.now) }
    {
        let count = answers.len() as u64;
        self.put_request_note(setup, Noted { count, frame: next })?;
        self.put_control_head(number, setup)?;
        self.put_answers(front(answers, LONGEST_SCRIPT))?;
        self.put("\n")
    }

    /// Puts the line of such a request behind it.
    fn put_control(
        &mut self,
        number: u8,
        lines: &ControlLines,
        setup: ControlSetup,
    ) -> Result<(), AllocError>
        ensures { IfOk result (λ _. self.new ≡ self.old ++ control_line number lines.now setup) }
    {
        let next = lines.next_of(setup);
        match lines.answers_of(setup) {
            Some(answers) => self.put_request_line(number, setup, next, answers.as_slice()),
            None => self.put_request_line(number, setup, next, &[]),
        }
    }

    /// Puts the lines of control requests behind it.
    pub(crate) fn put_controls(
        &mut self,
        number: u8,
        lines: &ControlLines,
    ) -> Result<(), AllocError>
        ensures { IfOk result (λ _. self.new ≡ self.old ++ controls_text number lines.now) }
    {
        for setup in lines.firsts.as_slice() {
            self.put_control(number, lines, *setup)?;
        }
        Ok(())
    }
}
