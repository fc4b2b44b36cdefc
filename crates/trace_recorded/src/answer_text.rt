//! Answers in a text, as a script has them.

ghost use Rattle.std.specs.Prelude.{◌≡◌, ◌++◌, IfOk};
ghost use Rattle.trace_recorded.specs.Lines.{answer_text, answers_text, expected_text, response_text, taken_text};

use crate::answer::{RecordedAnswer, WrittenBytes};
use crate::text::ScenarioText;
use std::alloc::AllocError;
use usb_model::Response;

impl ScenarioText {
    /// Puts an answer behind it that was given whatever was written.
    fn put_response(&mut self, response: &Response) -> Result<(), AllocError>
        ensures { IfOk result (λ _. self.new ≡ self.old ++ response_text response.now) }
    {
        match response {
            Response::Data(bytes) => {
                self.put("d:")?;
                self.put_hex(bytes.as_slice())
            }
            Response::Ack => self.put("a"),
            Response::Nak => self.put("n"),
            Response::Stall => self.put("s"),
            Response::Broken => self.put("b"),
        }
    }

    /// Puts behind it that these bytes are expected.
    fn put_expected(&mut self, bytes: &[u8]) -> Result<(), AllocError>
        ensures { IfOk result (λ _. self.new ≡ self.old ++ expected_text bytes.now) }
    {
        self.put("a:")?;
        self.put_hex(bytes)
    }

    /// Puts behind it that bytes were taken, with as many of them as were recorded.
    fn put_taken(&mut self, written: &WrittenBytes) -> Result<(), AllocError>
        ensures { IfOk result (λ _. self.new ≡ self.old ++ taken_text written.now) }
    {
        let bytes = written.bytes.as_slice();
        if written.is_whole {
            return self.put_expected(bytes);
        }
        if bytes.is_empty() {
            return self.put("a");
        }
        self.put_expected(bytes)?;
        self.put("*")
    }

    /// Puts an answer behind it.
    fn put_answer(&mut self, answer: &RecordedAnswer) -> Result<(), AllocError>
        ensures { IfOk result (λ _. self.new ≡ self.old ++ answer_text answer.now) }
    {
        match answer {
            RecordedAnswer::Given(response) => self.put_response(response),
            RecordedAnswer::Taken(written) => self.put_taken(written),
        }
    }

    /// Puts answers behind it, each behind a space.
    pub(crate) fn put_answers(&mut self, answers: &[RecordedAnswer]) -> Result<(), AllocError>
        ensures { IfOk result (λ _. self.new ≡ self.old ++ answers_text answers.now) }
    {
        for answer in answers {
            self.put(" ")?;
            self.put_answer(answer)?;
        }
        Ok(())
    }
}
