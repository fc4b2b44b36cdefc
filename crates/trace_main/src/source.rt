//! Where a scenario comes from: a text that is one, or a test.

ghost use Rattle.std.specs.Prelude.{◌≡◌, IfErr, IfOk, IfSome, Ok, length, map};
ghost use Rattle.trace_scenario.specs.DeviceLines.{device_lines};
ghost use Rattle.trace_scenario.specs.Runnable.{IsRunnable};
ghost use Rattle.trace_scenario.specs.StepLines.{numbered, step_lines};
ghost use Rattle.trace_scenario.specs.Scenario.{scenario_of};
ghost use Rattle.usb_scripttext.specs.Results.{AnswersAs, IsFaultOf};
ghost use Rattle.trace_main.specs.Source.{IsReadAs, IsReadFirst, Stands, scenario_in, text_in, told_lines, told_number};

use std::alloc::{AllocError, Global};
use std::marker::Model;
use trace_scenario::{Lined, NumberedLine, Scenario, read_lined, read_scenario};
use trace_test::{Expanded, scenario_text};
use usb_scripttext::TextFault;

/// A text, and the scenario that it stands for: itself where it is one, and what its lines stand for in a test where it isn't.
#[derive(Drop)]
pub(crate) struct Source<'a> {
    /// The text.
    given: &'a [u8],
    /// What it stands for, where it is no scenario itself.
    expanded: Option<Expanded>,
}

/// A text that was opened.
#[derive(Drop)]
pub(crate) struct Opened<'a> {
    pub(crate) source: Source<'a>,
    /// The scenario with its lines, where the text is one itself. To know that it was read, and needn't be once more.
    pub(crate) first: Option<Lined<'a>>,
}

impl<'a> Model for Source<'a> {
    ghost use Rattle.trace_main.specs.Source.{Source};

    ghost Value = { Source };

    ghost view = { λ src. record { given = src.given.now; expanded = src.expanded } };
}

/// The scenario of a text, as it was read first, where it was.
pub(crate) fn scenario_of(
    alloc: Global,
    text: &[u8],
    first: Option<Lined<'_>>,
) -> Result<Scenario, TextFault>
    requires { IfSome first (IsReadAs text.now) }
    ensures scenario { AnswersAs result (scenario_of text.now) }
    ensures runnable { IfOk result (λ s. IsRunnable s) }
{
    match first {
        Some(Lined { scenario, .. }) => Ok(scenario),
        None => read_scenario(alloc, text),
    }
}

impl<'a> Source<'a> {
    /// What a text stands for. An error where memory is refused.
    #[tactic(auto, using(crate::proofs::Sources::itself, crate::proofs::Sources::as_test))]
    pub(crate) fn open(alloc: Global, given: &'a [u8]) -> Result<Opened<'a>, AllocError>
        ensures stands { IfOk result (λ opened. Stands opened.source) }
        ensures given { IfOk result (λ opened. opened.source.given ≡ given.now) }
        ensures first { IfOk result (λ opened. IsReadFirst opened.source opened.first) }
    {
        match read_lined(alloc, given) {
            Ok(read) => Ok(Opened {
                source: Source {
                    given,
                    expanded: None,
                },
                first: Some(read),
            }),
            Err(TextFault::Line(_)) => Ok(Opened {
                source: Source {
                    given,
                    expanded: Some(scenario_text(alloc, given)?),
                },
                first: None,
            }),
            Err(TextFault::Memory) => Err(AllocError),
        }
    }

    /// The text of the scenario.
    pub(crate) fn text(&self) -> &[u8]
        ensures { result.now ≡ text_in self.now }
    {
        match &self.expanded {
            Some(expanded) => expanded.text.as_slice(),
            None => self.given,
        }
    }

    /// The number by which a line of the scenario is told.
    pub(crate) fn number(&self, line: u64) -> u64
        ensures { result ≡ told_number self.now line }
    {
        match &self.expanded {
            Some(expanded) => expanded.origin(line),
            None => line,
        }
    }

    /// The scenario with the lines of its steps and devices, by their numbers in it, as it was read first, where it was. A bad line is told
    /// as the text has it.
    #[tactic(auto, using(crate::proofs::Sources::told_good, crate::proofs::Sources::told_bad))]
    pub(crate) fn read<'b>(
        &'b self,
        alloc: Global,
        first: Option<Lined<'b>>,
    ) -> Result<Lined<'b>, TextFault>
        requires { IsReadFirst self.now first }
        ensures scenario { IfOk result (λ read. scenario_in self.now ≡ Ok read.scenario) }
        ensures fault { IfErr result (λ fault. IsFaultOf fault (scenario_in self.now)) }
        ensures runnable { IfOk result (λ read. IsRunnable read.scenario) }
        ensures lines { IfOk result (λ read. map numbered read.lines.items ≡ step_lines (text_in self.now)) }
        ensures devices { IfOk result (λ read. read.devices.items ≡ device_lines (text_in self.now)) }
        ensures each { IfOk result (λ read. length read.lines.items ≡ length read.scenario.plan) }
    {
        if let Some(read) = first {
            return Ok(read);
        }
        match read_lined(alloc, self.text()) {
            Ok(read) => Ok(read),
            Err(TextFault::Line(line)) => Err(TextFault::Line(self.number(line))),
            Err(TextFault::Memory) => Err(TextFault::Memory),
        }
    }

    /// The scenario alone, in the same way.
    #[tactic(auto, using(crate::proofs::Sources::told_good, crate::proofs::Sources::told_bad))]
    pub(crate) fn scenario(
        &self,
        alloc: Global,
        first: Option<Lined<'_>>,
    ) -> Result<Scenario, TextFault>
        requires { IsReadFirst self.now first }
        ensures scenario { IfOk result (λ s. scenario_in self.now ≡ Ok s) }
        ensures fault { IfErr result (λ fault. IsFaultOf fault (scenario_in self.now)) }
        ensures runnable { IfOk result (λ s. IsRunnable s) }
    {
        match scenario_of(alloc, self.text(), first) {
            Ok(scenario) => Ok(scenario),
            Err(TextFault::Line(line)) => Err(TextFault::Line(self.number(line))),
            Err(TextFault::Memory) => Err(TextFault::Memory),
        }
    }

    /// Lines with the numbers by which they are told.
    pub(crate) fn told<'b>(
        &self,
        alloc: Global,
        lines: &[NumberedLine<'b>],
    ) -> Result<Vec<NumberedLine<'b>>, AllocError>
        ensures lines { IfOk result (λ told. map numbered told.items ≡ told_lines (told_number self.now) (map numbered lines.now)) }
        ensures each { IfOk result (λ told. length told.items ≡ length lines.now) }
    {
        let mut told = Vec::new(alloc);
        for line in lines {
            told.push(NumberedLine {
                number: self.number(line.number),
                text: line.text,
            })?;
        }
        Ok(told)
    }
}
