//! What a run printed and left, as far as nothing was compared with it.

ghost use Rattle.std.specs.Prelude.{◌≡◌, ◌≤◌, IfOk, length, None, Some, drop, nat_eq, if◌then◌else◌};
ghost use Rattle.std.specs.List.{prefix_len, starts_with};
ghost use Rattle.std.specs.Option.{option_copied};
ghost use Rattle.trace_test.specs.Comparison.{any_of, at_line, compare_any, compare_entry, compare_left, compare_line, compared_as, differs, first_text, front_of, is_other, next_of, past_others, shown, taken, texts_of};
ghost use Rattle.trace_test.specs.Expected.{fits};

use crate::difference::Difference;
use crate::expanded::may_be_nothing;
use crate::expected::{behind, expected, expected_any, expected_left, fits};
use crate::parts::past_first;
use std::alloc::{AllocError, Global};
use std::marker::Model;
use trace_io::add_decimal;
use usb_model::Bytes;

/// What a run printed, each entry behind the number of its line, and what is left at its end.
#[derive(Drop)]
pub(crate) struct Unmet<'a> {
    /// The line whose entries are compared.
    of: u64,
    /// What was printed, from the next entry that is compared.
    printed: &'a [&'a [u8]],
    /// What is left, from the next line that is compared.
    left: &'a [&'a [u8]],
}

impl<'a> Model for Unmet<'a> {
    ghost use Rattle.trace_test.specs.Comparison.{Uncompared, texts_of};

    ghost Value = { Uncompared };

    ghost view = { λ u. record { of = u.of; printed = texts_of u.printed.now; left = texts_of u.left.now } };
}

/// For how many bytes there is room in front of an entry: 20 digits of its line's number, and what stands behind them.
const FRONT: usize = 24;

/// What stands in front of each entry of a line. It is made for each line that is compared, so by no formatter.
fn front_of(alloc: Global, at: u64) -> Result<Vec<u8>, AllocError>
    ensures { IfOk result (λ front. front.items ≡ front_of at) }
{
    let mut front = Vec::with_capacity(alloc, FRONT)?;
    add_decimal(&mut front, at)?;
    front.extend_from_slice(b"  | ")?;
    Ok(front)
}

/// The first of some texts; none where there is none.
pub(crate) fn first_text<'a>(texts: &[&'a [u8]]) -> &'a [u8]
    ensures { result.now ≡ first_text (texts_of texts.now) }
{
    match texts {
        [first, ..] => first,
        [] => b"",
    }
}

/// How many texts in front begin so.
fn count_front(front: &[u8], texts: &[&[u8]]) -> usize
    ensures count { result ≡ prefix_len (λ text. starts_with nat_eq text.now front.now) texts.now }
    ensures within { result ≤ length texts.now }
{
    texts
        .iter()
        .take_while(|text| text.starts_with(front))
        .count()
}

/// What stands behind the texts in front that begin so.
fn past_front<'a>(front: &[u8], texts: &'a [&'a [u8]]) -> &'a [&'a [u8]]
    ensures { texts_of result.now ≡ drop (prefix_len (λ text. starts_with nat_eq text front.now) (texts_of texts.now)) (texts_of texts.now) }
{
    let (_, rest) = texts.split_at(count_front(front, texts));
    rest
}

/// Whether a printed line begins with the front of a line's entries, and has another entry than is wanted.
fn is_other(front: &[u8], wanted: &[u8], text: &[u8]) -> bool
    ensures { result ≡ is_other front.now wanted.now text.now }
{
    match behind(front, text) {
        Some(entry) => !fits(wanted, entry),
        None => false,
    }
}

/// How many texts in front have other entries of a line than is wanted.
fn count_others(front: &[u8], wanted: &[u8], texts: &[&[u8]]) -> usize
    ensures count { result ≡ prefix_len (λ text. is_other front.now wanted.now text.now) texts.now }
    ensures within { result ≤ length texts.now }
{
    texts
        .iter()
        .take_while(|text| is_other(front, wanted, text))
        .count()
}

/// What stands behind them.
fn past_others<'a>(front: &[u8], wanted: &[u8], texts: &'a [&'a [u8]]) -> &'a [&'a [u8]]
    ensures { texts_of result.now ≡ drop (prefix_len (is_other front.now wanted.now) (texts_of texts.now)) (texts_of texts.now) }
{
    let (_, rest) = texts.split_at(count_others(front, wanted, texts));
    rest
}

/// What is shown of a text that was got.
fn shown(got: &[u8]) -> &[u8]
    ensures { result.now ≡ shown got.now }
{
    if got.is_empty() { b"NOTHING" } else { got }
}

/// The texts without the first, where that was compared.
fn past_taken<'a>(got: &[u8], texts: &'a [&'a [u8]]) -> &'a [&'a [u8]]
    ensures { texts_of result.now ≡ drop (taken got.now) (texts_of texts.now) }
{
    match texts {
        [_, rest @ ..] if !got.is_empty() => rest,
        _ => texts,
    }
}

/// How a line differs that wants something, and finds something else.
fn differs(alloc: Global, at: u64, wanted: &[u8], got: &[u8]) -> Result<Difference, AllocError>
    ensures { IfOk result (λ d. d ≡ differs at wanted.now got.now) }
{
    Ok(Difference {
        line: at,
        wanted: Bytes::from_vec(wanted.to_vec(alloc)?),
        got: Bytes::from_vec(shown(got).to_vec(alloc)?),
    })
}

/// How a line differs, where what was got isn't what it wants.
fn difference(
    alloc: Global,
    at: u64,
    wanted: &[u8],
    got: &[u8],
) -> Result<Option<Difference>, AllocError>
    ensures { IfOk result (λ d. d ≡ (if fits wanted.now (shown got.now) then None else Some (differs at wanted.now got.now))) }
{
    if fits(wanted, shown(got)) {
        return Ok(None);
    }
    Ok(Some(differs(alloc, at, wanted, got)?))
}

/// What a line wants some entry to be, as it says it.
fn any_of(alloc: Global, wanted: &[u8]) -> Result<Vec<u8>, AllocError>
    ensures { IfOk result (λ text. text.items ≡ any_of wanted.now) }
{
    let mut text = b"any ".to_vec(alloc)?;
    text.extend_from_slice(wanted)?;
    Ok(text)
}

impl<'a> Unmet<'a> {
    /// All that was printed and is left.
    pub(crate) fn new(printed: &'a [&'a [u8]], left: &'a [&'a [u8]]) -> Unmet<'a>
        ensures { result ≡ record { of = 0; printed = texts_of printed.now; left = texts_of left.now } }
    {
        Unmet {
            of: 0,
            printed,
            left,
        }
    }

    /// The same once more.
    pub(crate) fn again(&self) -> Unmet<'a>
        ensures { result ≡ self.now }
    {
        Unmet {
            of: self.of,
            printed: self.printed,
            left: self.left,
        }
    }

    /// The next entry of the line that is compared, if there is one.
    fn next(&self, alloc: Global) -> Result<Option<&'a [u8]>, AllocError>
        ensures { IfOk result (λ next. option_copied next ≡ next_of self.now) }
    {
        let front = front_of(alloc, self.of)?;
        Ok(behind(front.as_slice(), first_text(self.printed)))
    }

    /// Where a line has entries, these are compared next; so where it may stand for no line.
    fn begin(&mut self, alloc: Global, at: u64, line: &[u8]) -> Result<(), AllocError>
        ensures { IfOk result (λ _. self.new ≡ at_line at line.now self.old) }
    {
        let (front, next) = (front_of(alloc, self.of)?, front_of(alloc, at)?);
        let printed = past_front(front.as_slice(), self.printed);
        if may_be_nothing(line) || first_text(printed).starts_with(next.as_slice()) {
            self.of = at;
            self.printed = printed;
        }
        Ok(())
    }

    /// Compares the next entry with what a line expects it to be.
    fn compare_entry(
        &mut self,
        alloc: Global,
        at: u64,
        wanted: &[u8],
    ) -> Result<Option<Difference>, AllocError>
        ensures { IfOk result (λ d. compare_entry at wanted.now self.old ≡ compared_as d self.new) }
    {
        let got = self.next(alloc)?.unwrap_or(b"");
        self.printed = past_taken(got, self.printed);
        difference(alloc, at, wanted, got)
    }

    /// Goes on to the first entry that is wanted, or behind the entries of the line where none is.
    fn pass_others(&mut self, alloc: Global, wanted: &[u8]) -> Result<(), AllocError>
        ensures { IfOk result (λ _. self.new ≡ past_others wanted.now self.old) }
    {
        let front = front_of(alloc, self.of)?;
        self.printed = past_others(front.as_slice(), wanted, self.printed);
        Ok(())
    }

    /// Compares entries with what a line expects one of them to be.
    fn compare_any(
        &mut self,
        alloc: Global,
        at: u64,
        wanted: &[u8],
    ) -> Result<Option<Difference>, AllocError>
        ensures { IfOk result (λ d. compare_any at wanted.now self.old ≡ compared_as d self.new) }
    {
        let got = self.next(alloc)?.unwrap_or(b"");
        self.pass_others(alloc, wanted)?;
        if self.next(alloc)?.is_none() {
            let wanted = any_of(alloc, wanted)?;
            return Ok(Some(differs(alloc, at, wanted.as_slice(), got)?));
        }
        self.printed = past_first(self.printed);
        Ok(None)
    }

    /// Compares what a line expects to be left.
    fn compare_left(
        &mut self,
        alloc: Global,
        at: u64,
        wanted: &[u8],
    ) -> Result<Option<Difference>, AllocError>
        ensures { IfOk result (λ d. compare_left at wanted.now self.old ≡ compared_as d self.new) }
    {
        let got = first_text(self.left);
        self.left = past_taken(got, self.left);
        difference(alloc, at, wanted, got)
    }

    /// Compares a line: how it differs, if it does.
    pub(crate) fn compare(
        &mut self,
        alloc: Global,
        at: u64,
        line: &[u8],
    ) -> Result<Option<Difference>, AllocError>
        ensures { IfOk result (λ d. compare_line at line.now self.old ≡ compared_as d self.new) }
    {
        if let Some(wanted) = expected_left(line) {
            return self.compare_left(alloc, at, wanted);
        }
        if let Some(wanted) = expected_any(line) {
            return self.compare_any(alloc, at, wanted);
        }
        if let Some(wanted) = expected(line) {
            return self.compare_entry(alloc, at, wanted);
        }
        self.begin(alloc, at, line)?;
        Ok(None)
    }
}
