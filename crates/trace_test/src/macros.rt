//! Macros of a test's own, and the test that its lines stand for without them.

ghost use Rattle.std.specs.Prelude.{◌≡◌, ◌++◌, IfOk, option_copied, option_map};
ghost use Rattle.usb_scripttext.specs.Words.{words_in};
ghost use Rattle.trace_test.specs.Comparison.{texts_of};
ghost use Rattle.trace_test.specs.Macros.{argument, arrow_of, behind_line, call_words, called, ended, filled, inside, is_word, meaning, name_begun, nothing_known, outside, part_filled, parts_in, plain_meaning, star_of, times_of, times_within, unrolled, within};
ghost use Rattle.trace_test.specs.Parts.{lent_parts};

use crate::expanded::{Expanded, MOST_TIMES, number};
use crate::expected::{behind, expected};
use crate::parts::{parts_around, past_first};
use crate::table::{Macro, Table};
use crate::unmet::first_text;
use std::alloc::{AllocError, Global};
use std::marker::Model;
use usb_scripttext::words::says_nothing;

/// How many bytes a test's lines stand for at most, those of its macros' bodies among them.
const MOST_BYTES: usize = 67_108_864;

/// What is known at a line of a test.
#[derive(Drop)]
struct Macros<'a> {
    /// The macros that were closed, the latest first.
    closed: Table<'a>,
    /// The macro that is begun and not closed.
    begun: Option<Macro<'a>>,
    /// How many more bytes lines may stand for.
    room: usize,
    /// What the lines before it stand for.
    unrolled: Expanded,
}

impl<'a> Model for Macros<'a> {
    ghost use Rattle.trace_test.specs.Macros.{Known};

    ghost Value = { Known };

    ghost view = { λ m. record { closed = m.closed; begun = m.begun; room = m.room; unrolled = m.unrolled } };
}

/// The words of a line.
fn words_in(alloc: Global, line: &[u8]) -> Result<Vec<&[u8]>, AllocError>
    ensures { IfOk result (λ words. texts_of words.items ≡ words_in line.now) }
{
    line.split(|byte| *byte == b' ').collect(alloc)
}

/// The parts of a body between its `$`.
fn parts_in(alloc: Global, body: &[u8]) -> Result<Vec<&[u8]>, AllocError>
    ensures { IfOk result (λ parts. texts_of parts.items ≡ parts_in body.now) }
{
    body.split(|byte| *byte == b'$').collect(alloc)
}

/// Whether a text has no space.
fn is_word(text: &[u8]) -> bool
    ensures { result ≡ is_word text.now }
{
    text.iter().all(|byte| *byte != b' ')
}

/// The name of the macro that a line begins; None where it begins none.
fn name_begun(line: &[u8]) -> Option<&[u8]>
    ensures { option_copied result ≡ name_begun line.now }
{
    let name = behind(b"macro ", line)?;
    (!name.is_empty() && is_word(name)).then_some(name)
}

/// What a line with an arrow does, and what that has to print; None where it has none, says nothing or expects something.
fn arrow_of(line: &[u8]) -> Option<(&[u8], &[u8])>
    ensures { lent_parts result ≡ arrow_of line.now }
{
    if says_nothing(line) || expected(line).is_some() {
        return None;
    }
    parts_around(b" -> ", line)
}

/// The word of a call that the digit stands for with which a text begins; None where there is no such word, or no digit from 1 to 9.
fn argument<'a>(words: &[&'a [u8]], text: &[u8]) -> Option<&'a [u8]>
    ensures { option_copied result ≡ argument (texts_of words.now) text.now }
{
    match text {
        [digit, ..] if (b'1'..=b'9').contains(digit) => {
            words.get(usize::from(*digit - b'0')).copied()
        }
        _ => None,
    }
}

/// Adds what stands behind a `$`, and the `$`, to a text: a word in the place of both it and the digit, or as they are.
fn put_part(text: &mut Vec<u8>, words: &[&[u8]], part: &[u8]) -> Result<(), AllocError>
    ensures { IfOk result (λ _. text.new.items ≡ text.old.items ++ part_filled (texts_of words.now) part.now) }
{
    let (front, rest) = match argument(words, part) {
        Some(word) => (word, past_first(part)),
        None => (b"$".as_slice(), part),
    };
    text.extend_from_slice(front)?;
    text.extend_from_slice(rest)
}

/// A text, where there is room for it.
fn within(room: usize, text: Vec<u8>) -> Option<Vec<u8>>
    ensures { option_map (λ t. t.items) result ≡ within room text.items }
{
    if text.len() <= room { Some(text) } else { None }
}

/// A body with the words of a call in it; None where there is no room for it.
fn filled(
    alloc: Global,
    words: &[&[u8]],
    body: &[u8],
    room: usize,
) -> Result<Option<Vec<u8>>, AllocError>
    ensures { IfOk result (λ text. option_map (λ t. t.items) text ≡ within room (filled (texts_of words.now) body.now)) }
{
    let parts = parts_in(alloc, body)?;
    let rest = past_first(parts.as_slice());
    let mut text = first_text(parts.as_slice()).to_vec(alloc)?;
    for part in rest {
        if text.len() > room {
            return Ok(None);
        }
        put_part(&mut text, words, part)?;
    }
    Ok(within(room, text))
}

/// A text so many times; None where there is no room for it.
fn times_within(
    alloc: Global,
    room: usize,
    times: u32,
    text: &[u8],
) -> Result<Option<Vec<u8>>, AllocError>
    ensures { IfOk result (λ all. option_map (λ t. t.items) all ≡ times_within room times text.now) }
{
    match (times as usize).checked_mul(text.len()) {
        Some(length) if length <= room => Ok(Some(text.repeat(alloc, times as usize)?)),
        _ => Ok(None),
    }
}

/// What stands behind the star of a call's last word; None where it doesn't begin with one.
fn star_of<'a>(words: &[&'a [u8]]) -> Option<&'a [u8]>
    ensures { option_copied result ≡ star_of (texts_of words.now) }
{
    let last = words.last().copied().unwrap_or(b"");
    behind(b"*", last)
}

/// How many times the body of a call stands; None where its last word has a star and no such number behind it.
fn times_of(words: &[&[u8]]) -> Option<u32>
    ensures { result ≡ times_of (texts_of words.now) }
{
    let Some(digits) = star_of(words) else {
        return Some(1);
    };
    let times = number(digits)?;
    (times <= MOST_TIMES).then_some(times)
}

/// The name and the arguments of a call: its words but for the star.
fn call_words<'a>(words: &'a [&'a [u8]]) -> &'a [&'a [u8]]
    ensures { texts_of result.now ≡ call_words (texts_of words.now) }
{
    match words {
        [rest @ .., _] if star_of(words).is_some() => rest,
        _ => words,
    }
}

impl<'a> Macros<'a> {
    /// In front of the first line.
    fn new(alloc: Global) -> Macros<'a>
        ensures { result ≡ nothing_known }
    {
        Macros {
            closed: Table::new(alloc),
            begun: None,
            room: MOST_BYTES,
            unrolled: Expanded::new(alloc),
        }
    }

    /// What a call of these words stands for; None where they are no call, or there is no room.
    fn called(&self, alloc: Global, words: &[&[u8]]) -> Result<Option<Vec<u8>>, AllocError>
        ensures { IfOk result (λ text. option_map (λ t. t.items) text ≡ called self.now.closed self.now.room (texts_of words.now)) }
    {
        let Some(times) = times_of(words) else {
            return Ok(None);
        };
        let words = call_words(words);
        let Some(body) = self.closed.body(first_text(words)) else {
            return Ok(None);
        };
        let Some(once) = filled(alloc, words, body, self.room)? else {
            return Ok(None);
        };
        times_within(alloc, self.room, times, once.as_slice())
    }

    /// What a line without an arrow stands for.
    fn plain_meaning(&self, alloc: Global, line: &[u8]) -> Result<Vec<u8>, AllocError>
        ensures { IfOk result (λ text. text.items ≡ plain_meaning self.now.closed self.now.room line.now) }
    {
        let words = words_in(alloc, line)?;
        if let Some(text) = self.called(alloc, words.as_slice())? {
            return Ok(text);
        }
        let mut text = Vec::with_capacity(alloc, line.len().saturating_add(1))?;
        text.extend_from_slice(line)?;
        text.push(b'\n')?;
        Ok(text)
    }

    /// What a line stands for; with an arrow, what it does, and below that a line that expects what has to be printed.
    fn meaning(&self, alloc: Global, line: &[u8]) -> Result<Vec<u8>, AllocError>
        ensures { IfOk result (λ text. text.items ≡ meaning self.now.closed self.now.room line.now) }
    {
        let Some((done, wanted)) = arrow_of(line) else {
            return self.plain_meaning(alloc, line);
        };
        let mut text = self.plain_meaning(alloc, done)?;
        text.extend_from_slice(b"expect ")?;
        text.extend_from_slice(wanted)?;
        text.push(b'\n')?;
        Ok(text)
    }

    /// Reads a line in the body of a macro: `end` closes it, and what any other stands for is one more part of the body.
    fn read_inside(
        &mut self,
        alloc: Global,
        line: &[u8],
        mut begun: Macro<'a>,
    ) -> Result<(), AllocError>
        ensures { IfOk result (λ _. self.new ≡ inside line.now begun.entry self.old) }
    {
        if line == b"end".as_slice() {
            self.closed.put(begun)?;
            return Ok(());
        }
        let text = self.meaning(alloc, line)?;
        begun.body.extend_from_slice(text.as_slice())?;
        self.room = self.room.saturating_sub(text.len());
        self.begun = Some(begun);
        Ok(())
    }

    /// Reads a line outside of a macro: it begins one, or is added as what it stands for.
    fn read_outside(&mut self, alloc: Global, at: u64, line: &'a [u8]) -> Result<(), AllocError>
        ensures { IfOk result (λ _. self.new ≡ outside at line.now self.old) }
    {
        if let Some(name) = name_begun(line) {
            let body = Vec::new(alloc);
            self.begun = Some(Macro {
                at,
                line,
                name,
                body,
            });
            return Ok(());
        }
        let text = self.meaning(alloc, line)?;
        self.room = self.room.saturating_sub(text.len());
        self.unrolled.push_text(at, text.as_slice())
    }

    /// Reads a line.
    fn read(&mut self, alloc: Global, at: u64, line: &'a [u8]) -> Result<(), AllocError>
        ensures { IfOk result (λ _. self.new ≡ behind_line at line.now self.old) }
    {
        match self.begun.take() {
            Some(begun) => self.read_inside(alloc, line, begun),
            None => self.read_outside(alloc, at, line),
        }
    }

    /// The test that the lines stand for; the first line of a macro that is never closed stands for itself.
    fn ended(self) -> Result<Expanded, AllocError>
        ensures { IfOk result (λ u. u ≡ ended self.entry) }
    {
        let Macros {
            begun,
            mut unrolled,
            ..
        } = self;
        if let Some(begun) = begun {
            unrolled.push(begun.at, begun.line)?;
        }
        Ok(unrolled)
    }
}

/// The test that a test stands for without macros, each line with the number of the line that it comes from. A line that begins
/// a macro which is never closed, one that calls a macro with a star and no number up to 65,536 behind it, one that calls a macro of over
/// 65,536 lines and one that would stand for more than there is room for in 67,108,864 bytes stand for themselves. An error where memory is refused.
pub fn unroll(alloc: Global, text: &[u8]) -> Result<Expanded, AllocError>
    ensures { IfOk result (λ u. u ≡ unrolled text.now) }
{
    let mut macros = Macros::new(alloc);
    let mut at: u64 = 0;
    for line in text.split(|byte| *byte == b'\n') {
        at = at.saturating_add(1);
        macros.read(alloc, at, line)?;
    }
    macros.ended()
}
