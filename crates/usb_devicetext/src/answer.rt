//! What a device answers to a request on its default control endpoint.

ghost use Rattle.std.specs.Prelude.{◌≡◌, codes};
ghost use Rattle.std.specs.Option.{option_and_then};
ghost use Rattle.usb_scripttext.specs.Results.{ReadsAs};
ghost use Rattle.usb_scripttext.specs.Script.{each_of};
ghost use Rattle.usb_scripttext.specs.Prefix.{behind};
ghost use Rattle.usb_scripttext.specs.Words.{words_of};
ghost use Rattle.usb_devicetext.specs.Answer.{answer_of, answers_of, data_of, reads, without_stays, writes};

use std::alloc::Global;
use usb_model::{Bytes, Sequence};
use usb_scripttext::number::bytes;
use usb_scripttext::{Expected, LineFault, Problem, behind, copies};

/// The most bytes of a control transfer beside its setup packet, as Linux has it (MAX_CTRL_BUFFER_LENGTH).
pub const MOST_DATA: usize = 4096;

/// An answer to a request on the default control endpoint (USB 2.0, 8.5.3).
#[derive(Drop)]
pub enum ControlAnswer {
    /// These bytes, of a request that reads.
    Data(Bytes),
    /// The bytes are taken, of a request that writes.
    Ack,
    /// Not ready.
    Nak,
    /// The request isn't supported, or fails.
    Stall,
    /// A transaction that failed all its retries.
    Broken,
}

/// Whether requests of this type read (USB 2.0, 9.3.1); not where it is any.
#[tactic(auto, unfolding(crate::specs::Answer::reads))]
fn reads(kind: Option<u8>) -> bool
    ensures { result ≡ reads kind }
{
    match kind {
        None => false,
        Some(kind) => kind >= 128,
    }
}

/// Whether requests of this type write; not where it is any.
#[tactic(auto, unfolding(crate::specs::Answer::writes))]
fn writes(kind: Option<u8>) -> bool
    ensures { result ≡ writes kind }
{
    match kind {
        None => false,
        Some(kind) => kind < 128,
    }
}

/// Some words without a `..` at their end: the last answer to a request stays anyway.
#[tactic(auto, unfolding(crate::specs::Answer::without_stays))]
fn without_stays<'a, 'b>(words: &'b [&'a str]) -> &'b [&'a str]
    ensures { words_of result.now ≡ without_stays (words_of words.now) }
{
    match words {
        [rest @ .., last] if *last == ".." => rest,
        _ => words,
    }
}

/// The answers of some words, each as often as it stands, to requests of this type: 1 to 65,536 in all.
#[tactic(auto, unfolding(crate::specs::Answer::plain_answers_of))]
pub(crate) fn answers(
    alloc: Global,
    kind: Option<u8>,
    words: &[&str],
) -> Result<Sequence<ControlAnswer>, LineFault>
    ensures { ReadsAs result (answers_of kind (words_of words.now)) }
{
    let Some(words) = copies(alloc, without_stays(words))? else {
        return Err(LineFault::Bad(Problem::Answers));
    };
    if words.is_empty() {
        return Err(LineFault::Bad(Problem::Answers));
    }
    each_answer(alloc, kind, words.as_slice())
}

/// The answer of each word.
fn each_answer(
    alloc: Global,
    kind: Option<u8>,
    words: &[&str],
) -> Result<Sequence<ControlAnswer>, LineFault>
    ensures { ReadsAs result (each_of (answer_of kind) (words_of words.now)) }
{
    let mut answers = Vec::new(alloc);
    for word in words {
        answers.push(answer(alloc, kind, word)?)?;
    }
    Ok(Sequence::from_vec(answers))
}

/// One answer: data where the request reads, that they were taken where it writes, or what either may be answered.
#[tactic(auto, unfolding(crate::specs::Answer::answer_of))]
fn answer(alloc: Global, kind: Option<u8>, word: &str) -> Result<ControlAnswer, LineFault>
    ensures { ReadsAs result (answer_of kind word.now) }
{
    match word {
        "n" => Ok(ControlAnswer::Nak),
        "s" => Ok(ControlAnswer::Stall),
        "b" => Ok(ControlAnswer::Broken),
        "a" if writes(kind) => Ok(ControlAnswer::Ack),
        _ if reads(kind) => data(alloc, word),
        _ => Err(LineFault::Bad(Problem::Word(Expected::OutAnswer))),
    }
}

/// The data of a request that reads.
#[tactic(auto, unfolding(crate::specs::Answer::data_of))]
fn data(alloc: Global, word: &str) -> Result<ControlAnswer, LineFault>
    ensures { ReadsAs result (option_and_then data_of (behind (codes "d:") word.now)) }
{
    let digits = behind("d:", word).ok_or(Expected::InAnswer)?;
    let data = bytes(alloc, digits)?.ok_or(Expected::Bytes)?;
    if data.len() > MOST_DATA {
        return Err(LineFault::Bad(Problem::Packet));
    }
    Ok(ControlAnswer::Data(data))
}
