//! Words that stand for many, as `d:00*4096`, and `..` behind the last: the words that they are when they are written out.

ghost use Rattle.std.specs.Prelude.{◌≡◌, ◌++◌, ◌+◌, ◌-◌, IfOk, length, nat_le, replicate, take, true};
ghost use Rattle.std.specs.Option.{option_map};
ghost use Rattle.usb_model.specs.Limits.{longest_script};
ghost use Rattle.usb_scripttext.specs.Repeats.{all_copies, copies_of, few_of, filled, last_of, one_of, repeat_of, times_of, written_out};
ghost use Rattle.usb_scripttext.specs.Words.{words_of};

use crate::number::decimal;
use std::alloc::{AllocError, Global};
use usb_model::limits::LONGEST_SCRIPT;

/// The word behind the last answer of a script that stays.
const STAYS: &str = "..";

/// How often a word stands: 1 to 65,536.
#[tactic(auto, unfolding(crate::specs::Repeats::times_of))]
fn times_of(word: &str) -> Option<usize>
    ensures { result ≡ times_of word.now }
{
    match decimal(word, LONGEST_SCRIPT as u64)? {
        0 => None,
        times => Some(times as usize),
    }
}

/// The word that a word says so often: what is before its first star, and the number behind that.
#[tactic(auto, unfolding(crate::specs::Repeats::repeat_of))]
fn repeat_of(word: &str) -> Option<(&str, usize)>
    ensures { option_map (λ r. (r.0.now, r.1)) result ≡ repeat_of word.now }
{
    let (word, times) = word.split_once('*')?;
    Some((word, times_of(times)?))
}

/// A word, and how often it stands: what is before its star; or else once, as it is.
pub fn with_times(word: &str) -> (&str, usize)
    ensures one { result.0.now ≡ one_of word.now }
    ensures copies { copies_of word.now ≡ replicate result.1 result.0.now }
{
    match repeat_of(word) {
        Some(repeat) => repeat,
        None => (word, 1),
    }
}

/// Puts a word behind others, as often as it stands, where they aren't more then than a script may have answers: whether they
/// are put there. No memory is taken before that is known.
fn push_copies<'a>(words: &mut Vec<&'a str>, word: &'a str) -> Result<bool, AllocError>
    ensures fits { IfOk result (λ fits. fits ≡ nat_le (length words.old.items + length (copies_of word.now)) longest_script) }
    ensures put { IfOk result (λ fits. fits ≡ true → words_of words.new.items ≡ words_of words.old.items ++ copies_of word.now) }
{
    let (copy, times) = with_times(word);
    let count = words.len().saturating_add(times);
    if count > LONGEST_SCRIPT {
        return Ok(false);
    }
    words.resize(count, copy)?;
    Ok(true)
}

/// Some words, each as often as it stands; None where they are more than a script may have answers.
pub fn copies<'a>(alloc: Global, words: &[&'a str]) -> Result<Option<Vec<&'a str>>, AllocError>
    ensures { IfOk result (λ all. option_map (λ all. words_of all.items) all ≡ few_of (all_copies (words_of words.now))) }
{
    let mut all = Vec::new(alloc);
    for word in words {
        if !push_copies(&mut all, word)? {
            return Ok(None);
        }
    }
    Ok(Some(all))
}

/// The last of some words; an empty one where there is none.
fn last_of<'a>(words: &[&'a str]) -> &'a str
    ensures { result.now ≡ last_of (words_of words.now) }
{
    match words.last() {
        Some(last) => last,
        None => "",
    }
}

/// Fills some words up with the last of them, to as many as a script may have answers.
fn fill(words: &mut Vec<&str>) -> Result<(), AllocError>
    ensures { IfOk result (λ _. words_of words.new.items ≡ filled (words_of words.old.items)) }
{
    let last = last_of(words.as_slice());
    words.resize(words.len().max(LONGEST_SCRIPT), last)?;
    Ok(())
}

/// Some words but the last.
#[tactic(auto, using(crate::proofs::WrittenOut::front_taken))]
fn front<'a, 'b>(words: &'b [&'a str]) -> &'b [&'a str]
    ensures { words_of result.now ≡ take (length words.now - 1) (words_of words.now) }
{
    &words[..words.len().saturating_sub(1)]
}

/// Some words as they are when each is written out as often as it stands, and the last of them, where `..` is behind it, to the
/// limit of a script; None where they are more than that limit.
#[tactic(auto, using(crate::proofs::WrittenOut::filled_many, crate::proofs::WrittenOut::filled_few), unfolding(crate::specs::Repeats::written_out))]
pub fn written_out<'a>(alloc: Global, words: &[&'a str]) -> Result<Option<Vec<&'a str>>, AllocError>
    ensures { IfOk result (λ all. option_map (λ all. words_of all.items) all ≡ few_of (written_out (words_of words.now))) }
{
    if last_of(words) != STAYS {
        return copies(alloc, words);
    }
    let Some(mut all) = copies(alloc, front(words))? else {
        return Ok(None);
    };
    fill(&mut all)?;
    Ok(Some(all))
}
