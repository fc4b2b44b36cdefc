//! What is wrong with the words of a line by themselves.

ghost use Rattle.std.specs.Prelude.{◌≡◌, ◌<◌, IfOk, IfSome, None, Some, length};
ghost use Rattle.usb_scripttext.specs.Words.{words_of};
ghost use Rattle.usb_devicetext.specs.FormFault.{FitsForm, answers_behind, descriptor_text, form_fault_place, form_fault_text, has_answer_count, has_prefix, is_longer, most_in, topic_in};
ghost use Rattle.usb_devicetext.specs.Form.{wanted_at, word_at};
ghost use Rattle.usb_devicetext.specs.Wanted.{is_wanted};
ghost use Rattle.usb_devicetext.specs.declared.topic.Topic.TheVariants as topic;

use crate::answer::MOST_DATA;
use crate::form::word_at;
use crate::text::string_descriptor;
use crate::topic::Topic;
use crate::wanted::{Wanted, data_in};
use std::alloc::{AllocError, Global};
use std::fmt;
use usb_descriptors::{DescFault, read_config};
use usb_model::limits::{LARGEST_PACKET, LONGEST_SCRIPT};
use usb_scripttext::number::bytes;
use usb_scripttext::{LineFault, written_out};

/// What is wrong with the words of a line. Words are counted from 0.
#[derive(Clone, Copy, PartialEq, Eq, Debug)]
pub enum FormFault {
    /// An empty word stands there: between two spaces, or at the line's end.
    Space(usize),
    /// The first word is none that a line begins with.
    FirstWord,
    /// The words of a line of this first word are too few or too many.
    Count(Topic),
    /// A line of this first word has no answer, or more than 65,536, each counted as often as it stands.
    Answers(Topic),
    /// The word there isn't this, as it has to be.
    Word { at: usize, wanted: Wanted },
    /// Nor this one, which begins with `0x`.
    Prefix { at: usize, wanted: Wanted },
    /// The answer there has more than so many bytes.
    Long { at: usize, most: usize },
    /// A string is neither ASCII that has room in a descriptor, nor `u:` and units.
    Text,
    /// A configuration descriptor has this fault.
    Descriptor(DescFault),
}

/// The fault of a configuration descriptor, in a sentence.
#[derive(Clone, Copy)]
struct Refusal(DescFault);

impl fmt::Display for Refusal {
    ghost output = { λ x. Some (descriptor_text x.0) };

    #[tactic(auto, unfolding(crate::specs::FormFault::descriptor_text))]
    fn fmt<W: fmt::Write>(&self, f: &mut fmt::Formatter<W>) -> fmt::Result {
        match self.0 {
            DescFault::Truncated(at) => write!(
                f,
                "the configuration goes on where its bytes end, at byte {at}"
            ),
            DescFault::BadLength(at) => {
                write!(f, "the descriptor at byte {at} has an impossible length")
            }
            DescFault::WrongType(at) => write!(
                f,
                "the descriptor at byte {at} has a type that can't stand there"
            ),
            DescFault::SharedEndpoint(ep) => write!(f, "two endpoints have the address {ep}"),
            DescFault::BadPacketSize(ep) => {
                write!(f, "endpoint {ep} has packets of a size outside 1 to 1024")
            }
            DescFault::TooMany => f.write_str("there are more than 32 interfaces"),
        }
    }
}

/// The fault, in a sentence.
impl fmt::Display for FormFault {
    ghost output = { λ x. Some (form_fault_text x) };

    fn fmt<W: fmt::Write>(&self, f: &mut fmt::Formatter<W>) -> fmt::Result {
        match self {
            FormFault::Space(_) => {
                f.write_str("single spaces stand between words, and none at the line's end")
            }
            FormFault::FirstWord => f.write_str(
                "a line begins with device, script, ids, class, descriptor, string, speed, control, after, leaves, hidden, anew, lasts or driver",
            ),
            FormFault::Count(topic) => {
                let form = topic.spelled();
                write!(f, "the form is `{form}`")
            }
            FormFault::Answers(_) => f.write_str("there are 1 to 65536 answers in a line"),
            FormFault::Word { wanted, .. } => f.write_str(wanted.sentence()),
            FormFault::Prefix { wanted, .. } => {
                let sentence = wanted.sentence();
                write!(f, "digits stand without `0x`: {sentence}")
            }
            FormFault::Long { most, .. } => write!(f, "an answer has at most {most} bytes here"),
            FormFault::Text => f.write_str(
                "a string is at most 126 characters of ASCII, or `u:` and at most 126 units of UTF-16 in hexadecimal",
            ),
            FormFault::Descriptor(why) => {
                let refusal = Refusal(*why);
                write!(f, "{refusal}")
            }
        }
    }
}

impl FormFault {
    /// The word that it is about, from 0 on; None where it is about the whole line.
    pub fn place(&self) -> Option<usize>
        ensures { result ≡ form_fault_place self.now }
    {
        match self {
            FormFault::Space(at) => Some(*at),
            FormFault::FirstWord => Some(0),
            FormFault::Count(_) | FormFault::Answers(_) => None,
            FormFault::Word { at, .. } => Some(*at),
            FormFault::Prefix { at, .. } => Some(*at),
            FormFault::Long { at, .. } => Some(*at),
            FormFault::Text => Some(3),
            FormFault::Descriptor(_) => Some(2),
        }
    }

    /// What is wrong with some words by themselves; None where nothing is. An error where memory is refused.
    pub(crate) fn of(alloc: Global, words: &[&str]) -> Result<Option<FormFault>, AllocError>
        ensures { IfOk result (λ fault. IfSome fault (λ fault. FitsForm fault (words_of words.now))) }
    {
        let Some(topic) = Topic::read(word_at(words, 0)) else {
            return Ok(Some(first_word(words)));
        };
        if let Some(fault) = count(topic, words) {
            return Ok(Some(fault));
        }
        match unwanted(alloc, topic, words)? {
            Some(fault) => Ok(Some(fault)),
            None => beyond(alloc, topic, words),
        }
    }
}

/// What is wrong with a first word that is none.
fn first_word(words: &[&str]) -> FormFault
    requires { topic_in (words_of words.now) ≡ None }
    ensures { FitsForm result (words_of words.now) }
{
    if !words.is_empty() && word_at(words, 0).is_empty() {
        FormFault::Space(0)
    } else {
        FormFault::FirstWord
    }
}

/// Whether a line of so many words has 1 to 65,536 answers, where it has answers.
#[tactic(auto, unfolding(crate::specs::FormFault::has_answer_count))]
fn has_answer_count(topic: Topic, count: usize) -> bool
    ensures { result ≡ has_answer_count topic count }
{
    match topic {
        Topic::Script => count >= 4 && count <= 3 + LONGEST_SCRIPT,
        Topic::Control => count >= 7 && count <= 6 + LONGEST_SCRIPT,
        _ => true,
    }
}

/// The first empty word.
fn empty_word(words: &[&str]) -> Option<FormFault>
    ensures { IfSome result (λ fault. FitsForm fault (words_of words.now)) }
{
    for at in 0..words.len() {
        if word_at(words, at).is_empty() {
            return Some(FormFault::Space(at));
        }
    }
    None
}

/// What is wrong with the number of words.
fn count(topic: Topic, words: &[&str]) -> Option<FormFault>
    requires { topic_in (words_of words.now) ≡ Some topic }
    ensures { IfSome result (λ fault. FitsForm fault (words_of words.now)) }
{
    let count = words.len();
    if topic.has_count(count) && has_answer_count(topic, count) {
        return None;
    }
    if let Some(fault) = empty_word(words) {
        return Some(fault);
    }
    if topic.has_count(count) {
        Some(FormFault::Answers(topic))
    } else {
        Some(FormFault::Count(topic))
    }
}

/// The first word that isn't what its line's form wants there.
fn unwanted(alloc: Global, topic: Topic, words: &[&str]) -> Result<Option<FormFault>, AllocError>
    requires { topic_in (words_of words.now) ≡ Some topic }
    ensures { IfOk result (λ fault. IfSome fault (λ fault. FitsForm fault (words_of words.now))) }
{
    for at in 0..words.len() {
        if let Some(fault) = unwanted_at(alloc, topic, words, at)? {
            return Ok(Some(fault));
        }
    }
    Ok(None)
}

/// Whether a word begins with `0x`.
fn has_prefix(word: &str) -> bool
    ensures { result ≡ has_prefix word.now }
{
    word.starts_with("0x") || word.starts_with("0X")
}

/// What is wrong with the word at a place, if it has to be something.
fn unwanted_at(
    alloc: Global,
    topic: Topic,
    words: &[&str],
    at: usize,
) -> Result<Option<FormFault>, AllocError>
    requires topic { topic_in (words_of words.now) ≡ Some topic }
    requires within { at < length words.now }
    ensures { IfOk result (λ fault. IfSome fault (λ fault. FitsForm fault (words_of words.now))) }
{
    let Some(wanted) = topic.wanted_at(words, at) else {
        return Ok(None);
    };
    let word = word_at(words, at);
    if wanted.is_met(alloc, word)? {
        return long(alloc, topic, words, at);
    }
    Ok(Some(if has_prefix(word) {
        FormFault::Prefix { at, wanted }
    } else if word.is_empty() {
        FormFault::Space(at)
    } else {
        FormFault::Word { at, wanted }
    }))
}

/// How many bytes an answer may have in a line of this first word.
#[tactic(auto, unfolding(crate::specs::FormFault::most_in))]
fn most_in(topic: Topic) -> usize
    ensures { result ≡ most_in topic }
{
    match topic {
        Topic::Script => LARGEST_PACKET,
        _ => MOST_DATA,
    }
}

/// That an answer has too many bytes.
fn long(
    alloc: Global,
    topic: Topic,
    words: &[&str],
    at: usize,
) -> Result<Option<FormFault>, AllocError>
    requires { topic_in (words_of words.now) ≡ Some topic }
    ensures { IfOk result (λ fault. IfSome fault (λ fault. FitsForm fault (words_of words.now))) }
{
    let most = most_in(topic);
    match data_in(alloc, word_at(words, at))? {
        Some(bytes) if bytes.len() > most => Ok(Some(FormFault::Long { at, most })),
        _ => Ok(None),
    }
}

/// What is wrong with a string, a configuration descriptor or the number of answers in a line whose words are of its form.
fn beyond(alloc: Global, topic: Topic, words: &[&str]) -> Result<Option<FormFault>, AllocError>
    requires { topic_in (words_of words.now) ≡ Some topic }
    ensures { IfOk result (λ fault. IfSome fault (λ fault. FitsForm fault (words_of words.now))) }
{
    match topic {
        Topic::Text => text(alloc, words),
        Topic::Device => descriptor(alloc, words),
        Topic::Script => too_many(alloc, topic, words, 3),
        Topic::Control => too_many(alloc, topic, words, 6),
        _ => Ok(None),
    }
}

/// That the answers behind so many words are too many, when each is written out as often as it stands.
fn too_many(
    alloc: Global,
    topic: Topic,
    words: &[&str],
    front: usize,
) -> Result<Option<FormFault>, AllocError>
    requires topic { topic_in (words_of words.now) ≡ Some topic }
    requires front { answers_behind topic ≡ Some front }
    ensures { IfOk result (λ fault. IfSome fault (λ fault. FitsForm fault (words_of words.now))) }
{
    let answers = words.get(front..).unwrap_or(&[]);
    match written_out(alloc, answers)? {
        Some(_) => Ok(None),
        None => Ok(Some(FormFault::Answers(topic))),
    }
}

/// That a string has no room, or is no text.
fn text(alloc: Global, words: &[&str]) -> Result<Option<FormFault>, AllocError>
    requires { topic_in (words_of words.now) ≡ Some topic.Text }
    ensures { IfOk result (λ fault. IfSome fault (λ fault. FitsForm fault (words_of words.now))) }
{
    let [_, _, _, words @ ..] = words else {
        return Ok(None);
    };
    match string_descriptor(alloc, words) {
        Ok(_) => Ok(None),
        Err(LineFault::Bad(_)) => Ok(Some(FormFault::Text)),
        Err(LineFault::Memory) => Err(AllocError),
    }
}

/// The fault of a configuration descriptor.
fn descriptor(alloc: Global, words: &[&str]) -> Result<Option<FormFault>, AllocError>
    requires { topic_in (words_of words.now) ≡ Some topic.Device }
    ensures { IfOk result (λ fault. IfSome fault (λ fault. FitsForm fault (words_of words.now))) }
{
    let Some(bytes) = bytes(alloc, word_at(words, 2))? else {
        return Ok(None);
    };
    match read_config(bytes.as_slice()) {
        Ok(_) => Ok(None),
        Err(why) => Ok(Some(FormFault::Descriptor(why))),
    }
}
