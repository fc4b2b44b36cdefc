//! The scenario that the lines of a test stand for.

ghost use Rattle.std.specs.Prelude.{◌≡◌, ◌++◌, ◌∷◌, [], IfOk, map, option_map, replicate};
ghost use Rattle.usb_scripttext.specs.Number.{u32_of};
ghost use Rattle.trace_test.specs.Expanded.{AddsLine, AddsLines, Expands, is_settle, may_be_nothing, nothing_added, origin_of, repeated, says_of_device, settling_line, times_of};
ghost use Rattle.trace_test.specs.Macros.{with_text};

use crate::expected::expected;
use crate::parts::parts_around;
use crate::settling::{OpenRun, Settling};
use crate::table::line_count;
use std::alloc::{AllocError, Global};
use std::marker::Model;
use std::str;
use usb_devicetext::DeskLine;
use usb_scripttext::LineFault;
use usb_scripttext::number::decimal_u32;
use usb_scripttext::words::says_nothing;

/// The text of a scenario, each line with the number of the line of a test that it comes from.
#[derive(Drop)]
pub struct Expanded {
    /// The text. Each line ends with a line feed.
    pub text: Vec<u8>,
    /// The number of each line's origin, from 1.
    pub origins: Vec<u64>,
}

impl Model for Expanded {
    ghost use Rattle.trace_test.specs.Expanded.{Expansion};

    ghost Value = { Expansion };

    ghost view = { λ e. record { text = e.text.items; origins = e.origins.items } };
}

/// A line, and how many times it stands for itself.
#[derive(Clone, Copy)]
pub(crate) struct Repeated<'a> {
    pub(crate) line: &'a [u8],
    pub(crate) times: u32,
}

/// How many times a line may stand for itself, and a macro's body for a call.
pub(crate) const MOST_TIMES: u32 = 65_536;

impl Expanded {
    /// No line.
    pub(crate) fn new(alloc: Global) -> Expanded
        ensures { result ≡ nothing_added }
    {
        Expanded {
            text: Vec::new(alloc),
            origins: Vec::new(alloc),
        }
    }

    /// The number of the line that a line of the scenario comes from.
    pub fn origin(&self, line: u64) -> u64
        ensures { result ≡ origin_of self.now line }
    {
        let place = line.saturating_sub(1) as usize;
        self.origins.get(place).copied().unwrap_or(0)
    }

    /// Adds a line.
    pub(crate) fn push(&mut self, at: u64, line: &[u8]) -> Result<(), AllocError>
        ensures { IfOk result (λ _. AddsLines at (line.now ∷ []) self.old self.new) }
    {
        self.text.extend_from_slice(line)?;
        self.text.push(b'\n')?;
        self.origins.push(at)?;
        Ok(())
    }

    /// Adds a text whose lines end with a line feed.
    pub(crate) fn push_text(&mut self, at: u64, text: &[u8]) -> Result<(), AllocError>
        ensures { IfOk result (λ _. self.new ≡ with_text at text.now self.old) }
    {
        self.text.extend_from_slice(text)?;
        push_number(&mut self.origins, at, line_count(text))
    }

    /// Adds a line so many times.
    fn push_times(&mut self, at: u64, line: &[u8], times: u32) -> Result<(), AllocError>
        ensures { IfOk result (λ _. AddsLines at (replicate times line.now) self.old self.new) }
    {
        for _ in 0..times {
            self.push(at, line)?;
        }
        Ok(())
    }

    /// Adds the lines of some steps that settle.
    fn push_steps(&mut self, at: u64, steps: &[Settling]) -> Result<(), AllocError>
        ensures { IfOk result (λ _. AddsLines at (map settling_line steps.now) self.old self.new) }
    {
        for step in steps {
            self.push(at, step.line())?;
        }
        Ok(())
    }

    /// Adds a line, or so many times what stands in front of a star.
    pub(crate) fn push_repeated(&mut self, at: u64, line: &[u8]) -> Result<(), AllocError>
        ensures { IfOk result (λ _. AddsLines at (repeated line.now (times_of line.now)) self.old self.new) }
    {
        match times_of(line) {
            Some(Repeated { line, times }) => self.push_times(at, line, times)?,
            None => self.push(at, line)?,
        }
        Ok(())
    }

    /// Adds what a line of a test stands for, and makes its steps on the run that is open.
    #[tactic(auto, using(crate::proofs::Stands::adds_nothing, crate::proofs::Stands::adds_steps, crate::proofs::Stands::passes_over, crate::proofs::Stands::adds_repeated))]
    fn add(
        &mut self,
        alloc: Global,
        run: &mut OpenRun,
        at: u64,
        line: &[u8],
    ) -> Result<(), AllocError>
        ensures { IfOk result (λ _. AddsLine at line.now self.old self.new) }
    {
        if expected(line).is_some() {
            return Ok(());
        }
        if is_settle(line) {
            let steps = run.settle(alloc)?;
            return self.push_steps(at, steps.as_slice());
        }
        if says_of_device(alloc, line)? {
            return Ok(());
        }
        run.follow(alloc, line)?;
        self.push_repeated(at, line)
    }
}

/// Adds a number so many times.
fn push_number(numbers: &mut Vec<u64>, number: u64, times: usize) -> Result<(), AllocError>
    ensures { IfOk result (λ _. numbers.new.items ≡ numbers.old.items ++ replicate times number) }
{
    for _ in 0..times {
        numbers.push(number)?;
    }
    Ok(())
}

/// The number of a decimal word; None where the word is none.
pub(crate) fn number(word: &[u8]) -> Option<u32>
    ensures { result ≡ u32_of word.now }
{
    match str::from_utf8(word) {
        Ok(word) => decimal_u32(word),
        Err(_) => None,
    }
}

/// What stands in front of a star, and the number of times behind it; None where a line has no such end, and of a comment.
pub(crate) fn times_of(line: &[u8]) -> Option<Repeated<'_>>
    ensures { option_map (λ r. (r.line.now, r.times)) result ≡ times_of line.now }
{
    if says_nothing(line) {
        return None;
    }
    let (line, digits) = parts_around(b" *", line)?;
    let times = number(digits)?;
    (times <= MOST_TIMES).then_some(Repeated { line, times })
}

/// Whether a line settles.
pub(crate) fn is_settle(line: &[u8]) -> bool
    ensures { result ≡ is_settle line.now }
{
    line == b"settle".as_slice()
}

/// Whether a line says something of a device that its run doesn't show. An error where memory is refused.
fn says_of_device(alloc: Global, line: &[u8]) -> Result<bool, AllocError>
    ensures { IfOk result (λ says. says ≡ says_of_device line.now) }
{
    match DeskLine::from_text(alloc, line) {
        Ok(said) => Ok(matches!(said, DeskLine::Says { .. })),
        Err(LineFault::Bad(_)) => Ok(false),
        Err(LineFault::Memory) => Err(AllocError),
    }
}

/// Whether a line may stand for no line at all, though it expects nothing.
pub(crate) fn may_be_nothing(line: &[u8]) -> bool
    ensures { result ≡ may_be_nothing line.now }
{
    is_settle(line) || matches!(times_of(line), Some(Repeated { times: 0, .. }))
}

/// The scenario that a test stands for, whose lines' steps are made on a run over its devices. An error where memory is refused.
fn expand_by(alloc: Global, text: &[u8], run: &mut OpenRun) -> Result<Expanded, AllocError>
    ensures { IfOk result (λ e. Expands text.now e) }
{
    let mut expanded = Expanded::new(alloc);
    let mut at: u64 = 0;
    for line in text.split(|byte| *byte == b'\n') {
        at = at.saturating_add(1);
        expanded.add(alloc, run, at, line)?;
    }
    Ok(expanded)
}

/// The scenario that a test stands for. An error where memory is refused.
pub fn expand(alloc: Global, text: &[u8]) -> Result<Expanded, AllocError>
    ensures { IfOk result (λ e. Expands text.now e) }
{
    let mut run = OpenRun::new(alloc, text)?;
    expand_by(alloc, text, &mut run)
}
