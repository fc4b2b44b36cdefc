//! Answers that wait, in a text.

ghost use Rattle.std.specs.Prelude.{◌≡◌, ◌++◌, IfOk};
ghost use Rattle.std.specs.List.{flat_map};
ghost use Rattle.trace_recorded.specs.DeviceText.{decimal_word, source_words, wait_head, wait_line, wait_lines, wait_rest, waits_text};

use crate::endpoint::RecordedEndpoint;
use crate::text::ScenarioText;
use crate::waits::{Source, Wait};
use std::alloc::AllocError;
use usb_model::EpAddr;

impl ScenarioText {
    /// Puts the beginning of the line of a wait behind it.
    fn put_wait_head(&mut self, number: u8, ep: EpAddr) -> Result<(), AllocError>
        ensures { IfOk result (λ _. self.new ≡ self.old ++ wait_head number ep) }
    {
        let head = format!(in self.alloc(); "after {number} {ep}")?;
        self.put(head.as_str())
    }

    /// Puts a number behind it as a decimal word.
    fn put_decimal(&mut self, number: u64) -> Result<(), AllocError>
        ensures { IfOk result (λ _. self.new ≡ self.old ++ decimal_word number) }
    {
        let word = format!(in self.alloc(); " {number}")?;
        self.put(word.as_str())
    }

    /// Puts the words behind it that say what is counted.
    fn put_counted(&mut self, source: Source) -> Result<(), AllocError>
        ensures { IfOk result (λ _. self.new ≡ self.old ++ source_words source) }
    {
        match source {
            Source::Endpoint(ep) => {
                let word = format!(in self.alloc(); " {ep}")?;
                self.put(word.as_str())
            }
            Source::Requests(setup) => self.put_request(setup),
        }
    }

    /// Puts the rest of it behind it: from which place on, and for what.
    fn put_wait_rest(&mut self, wait: Wait) -> Result<(), AllocError>
        ensures { IfOk result (λ _. self.new ≡ self.old ++ wait_rest wait) }
    {
        self.put_decimal(wait.place)?;
        self.put_counted(wait.source)?;
        self.put_decimal(wait.count)?;
        self.put("\n")
    }

    /// Puts the line of a wait behind it.
    fn put_wait(&mut self, number: u8, ep: EpAddr, wait: Wait) -> Result<(), AllocError>
        ensures { IfOk result (λ _. self.new ≡ self.old ++ wait_line number ep wait) }
    {
        self.put_wait_head(number, ep)?;
        self.put_wait_rest(wait)
    }

    /// Puts the lines of waits behind it.
    fn put_endpoint_waits(
        &mut self,
        number: u8,
        ep: EpAddr,
        waits: &[Wait],
    ) -> Result<(), AllocError>
        ensures { IfOk result (λ _. self.new ≡ self.old ++ flat_map (wait_line number ep) waits.now) }
    {
        for wait in waits {
            self.put_wait(number, ep, *wait)?;
        }
        Ok(())
    }

    /// Puts those of an endpoint behind it.
    fn put_waits_of(&mut self, number: u8, endpoint: &RecordedEndpoint) -> Result<(), AllocError>
        ensures { IfOk result (λ _. self.new ≡ self.old ++ wait_lines number endpoint.now) }
    {
        let waits = endpoint.waits.lines.as_slice();
        self.put_endpoint_waits(number, endpoint.info.address, waits)
    }

    /// Puts those of all endpoints behind it.
    pub(crate) fn put_waits(
        &mut self,
        number: u8,
        endpoints: &[RecordedEndpoint],
    ) -> Result<(), AllocError>
        ensures { IfOk result (λ _. self.new ≡ self.old ++ waits_text number endpoints.now) }
    {
        for endpoint in endpoints {
            self.put_waits_of(number, endpoint)?;
        }
        Ok(())
    }
}
