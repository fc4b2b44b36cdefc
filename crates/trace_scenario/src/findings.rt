//! What is wrong with a text, line by line.

ghost use Rattle.std.specs.Prelude.{◌≡◌, ◌++◌, ◌∷◌, [], IfOk, map, Some};
ghost use Rattle.trace_scenario.specs.Counts.{counts_of, counts_text, plural_end};
ghost use Rattle.trace_scenario.specs.Findings.{bad_lines, good_lines};

use crate::culprit::{culprit, slipped};
use crate::draft::Draft;
use crate::sentence::Sentence;
use crate::shown::ShownWord;
use crate::{Slip, Verb};
use std::alloc::{AllocError, Global};
use std::fmt;
use usb_scripttext::Problem;

/// A bad line.
#[derive(Clone, Copy, PartialEq, Eq, Debug)]
pub struct Finding<'a> {
    /// Its number, from 1.
    pub line: u64,
    /// Its bytes, without the line feed.
    pub text: &'a [u8],
    /// What is wrong with it: the first thing that reading it met.
    pub problem: Problem,
    /// The slip that this comes from, which is told in its place, if it comes from one.
    pub slip: Option<Slip>,
}

impl<'a> Finding<'a> {
    /// The word that its problem is about, if it is about one.
    pub fn word(&self) -> Option<&'a str> {
        match self.slip {
            Some(slip) => slipped(self.text, slip),
            None => culprit(self.text, &self.problem),
        }
    }

    /// The verb that its first word is almost, where that is none.
    fn verb_meant(&self) -> Option<Verb> {
        match (self.slip, self.problem) {
            (None, Problem::FirstWord) => Verb::near(self.word()?),
            _ => None,
        }
    }

    /// Its problem, or the slip in its place.
    fn put_problem<W: fmt::Write>(&self, f: &mut fmt::Formatter<W>) -> fmt::Result {
        let (line, problem) = (self.text, self.problem);
        match self.slip {
            Some(slip) => f.write_str(slip.sentence()),
            None => write!(f, "{}", Sentence { line, problem }),
        }
    }
}

/// The word that the problem is about, what is wrong, and which verb may be meant.
impl fmt::Display for Finding<'_> {
    fn fmt<W: fmt::Write>(&self, f: &mut fmt::Formatter<W>) -> fmt::Result {
        if let Some(word) = self.word() {
            let word = ShownWord(word);
            write!(f, "`{word}`: ")?;
        }
        self.put_problem(f)?;
        if let Some(verb) = self.verb_meant() {
            let word = verb.word();
            write!(f, "; do you mean `{word}`?")?;
        }
        Ok(())
    }
}

/// How much the good lines of a text say.
#[derive(Clone, Copy, PartialEq, Eq, Debug)]
pub struct Counts {
    /// How many devices there are.
    pub devices: usize,
    /// How many endpoints have a script.
    pub scripts: usize,
    /// How many steps there are, submissions and calls of callbacks among them.
    pub steps: usize,
}

/// The counts in words, as `2 devices, 1 script, 17 steps`.
impl fmt::Display for Counts {
    ghost output = { λ counts. Some (counts_text counts) };

    fn fmt<W: fmt::Write>(&self, f: &mut fmt::Formatter<W>) -> fmt::Result {
        let (devices, scripts, steps) = (self.devices, self.scripts, self.steps);
        let (d, s, t) = (plural_end(devices), plural_end(scripts), plural_end(steps));
        write!(
            f,
            "{devices} device{d}, {scripts} script{s}, {steps} step{t}"
        )
    }
}

/// What stands at the end of a noun for so many.
fn plural_end(count: usize) -> &'static str
    ensures { result.now ≡ plural_end count }
{
    if count == 1 { "" } else { "s" }
}

/// What a check of a text finds.
#[derive(Debug, Drop)]
pub struct Findings<'a> {
    /// Its bad lines, in order.
    pub bad: Vec<Finding<'a>>,
    /// What the others say, counted.
    pub counts: Counts,
}

/// Notes a bad line.
fn note<'a>(
    bad: &mut Vec<Finding<'a>>,
    line: u64,
    text: &'a [u8],
    problem: Problem,
) -> Result<(), AllocError>
    ensures { IfOk result (λ _. map (λ finding. finding.line) bad.new.items ≡ map (λ finding. finding.line) bad.old.items ++ line ∷ []) }
{
    let finding = Finding {
        line,
        text,
        problem,
        slip: Slip::of(text, &problem),
    };
    match bad.push(finding) {
        Ok(()) => Ok(()),
        Err(_) => Err(AllocError),
    }
}

/// Reads a text as `read_scenario` does, but skips each bad line and tells of it. Each line is judged by what the good
/// ones before it say.
pub fn check<'a>(alloc: Global, text: &'a [u8]) -> Result<Findings<'a>, AllocError>
    ensures bad { IfOk result (λ findings. map (λ finding. finding.line) findings.bad.items ≡ bad_lines text.now) }
    ensures counts { IfOk result (λ findings. findings.counts ≡ counts_of (good_lines text.now)) }
{
    let mut draft = Draft::new(alloc);
    let mut bad = Vec::new(alloc);
    let mut shared = Vec::new(alloc);
    let mut line: u64 = 0;
    for words in text.split(|byte| *byte == b'\n') {
        line = line.saturating_add(1);
        if let Some(problem) = draft.judge(alloc, words, &mut shared)? {
            note(&mut bad, line, words, problem)?;
        }
    }
    let counts = draft.counts()?;
    Ok(Findings { bad, counts })
}
