//! The word of a bad line that its problem is about. No contract says which word that is.

use crate::slip::{Slip, has_wrong_times, has_zero_x};
use crate::verb::Verb;
use usb_model::limits::LARGEST_PACKET;
use usb_scripttext::words::ascii;
use usb_scripttext::{Expected, Problem, behind, with_times};

/// How many words stand before the answers of a script.
const BEFORE_ANSWERS: usize = 3;

/// How many words stand before the options of a submission.
const BEFORE_OPTIONS: usize = 5;

/// How the options of a submission begin, in their order.
const OPTIONS: [&str; 3] = ["flags=", "timeout=", "then="];

/// The word that a slip is about, where it is about one.
pub(crate) fn slipped(line: &[u8], slip: Slip) -> Option<&str> {
    match slip {
        Slip::Prefix => ascii(line)?
            .split(' ')
            .find(|word| has_zero_x(word.as_bytes())),
        Slip::Times => ascii(line)?
            .split(' ')
            .find(|word| has_wrong_times(word.as_bytes())),
        _ => None,
    }
}

/// The word that the problem of a line is about, where it is about one.
pub(crate) fn culprit<'a>(line: &'a [u8], problem: &Problem) -> Option<&'a str> {
    let line = ascii(line)?;
    match problem {
        Problem::FirstWord => line.split(' ').next(),
        Problem::Word(expected) => unexpected(line, *expected),
        Problem::Packet => first_wrong_packet(line),
        _ => None,
    }
}

/// The word that isn't what was expected.
fn unexpected(line: &str, expected: Expected) -> Option<&str> {
    match expected {
        Expected::Handle => named(line, "H"),
        Expected::Device => named(line, "D"),
        Expected::Interface => named(line, "I"),
        Expected::Endpoint => named(line, "EP"),
        Expected::Number => named(line, "N"),
        Expected::Kind => named(line, "K"),
        Expected::Length => named(line, "B"),
        Expected::Bytes => not_bytes(line),
        Expected::Flags => beginning(line, "flags="),
        Expected::Timeout => beginning(line, "timeout="),
        Expected::Rule => beginning(line, "then="),
        Expected::Option => out_of_turn(line),
        Expected::InAnswer => first_wrong_answer(line, true),
        Expected::OutAnswer | Expected::PacketBytes => first_wrong_answer(line, false),
    }
}

/// The verb that a line begins with.
pub(crate) fn verb_in(line: &str) -> Option<Verb> {
    Verb::read(line.split(' ').next()?)
}

/// The word that stands where the line's form has this one.
fn named<'a>(line: &'a str, name: &str) -> Option<&'a str> {
    let verb = verb_in(line)?;
    let place = verb.form().split(' ').position(|word| word == name)?;
    line.split(' ').nth(place)
}

/// The first word that begins so.
fn beginning<'a>(line: &'a str, begin: &str) -> Option<&'a str> {
    line.split(' ').find(|word| word.starts_with(begin))
}

/// The word that had to be bytes: a descriptor, the body of a submission, or else an answer.
fn not_bytes(line: &str) -> Option<&str> {
    named(line, "HEX")
        .or(named(line, "B"))
        .or(first_wrong_answer(line, true))
}

/// The first answer of an endpoint of this direction that isn't one.
fn first_wrong_answer(line: &str, is_in: bool) -> Option<&str> {
    line.split(' ')
        .skip(BEFORE_ANSWERS)
        .find(|word| !is_answer(word, is_in))
}

/// The first answer that is none of an endpoint of either direction.
fn first_wrong_packet(line: &str) -> Option<&str> {
    line.split(' ')
        .skip(BEFORE_ANSWERS)
        .find(|word| !is_answer(word, true) && !is_answer(word, false))
}

/// Whether a word is an answer of an endpoint of this direction, or so many of one.
fn is_answer(word: &str, is_in: bool) -> bool {
    let (word, _) = with_times(word);
    match word {
        "n" | "s" | "b" => true,
        _ if is_in => is_packet(word),
        _ => is_taken(word),
    }
}

/// Whether a word is a packet.
fn is_packet(word: &str) -> bool {
    match behind("d:", word) {
        Some(digits) => are_packet_digits(digits),
        None => false,
    }
}

/// Whether a word says that a packet is taken.
fn is_taken(word: &str) -> bool {
    match behind("a:", word) {
        Some(expected) => are_packet_digits(expected.strip_suffix('*').unwrap_or(expected)),
        None => word == "a",
    }
}

/// Whether digits are the bytes of a packet.
fn are_packet_digits(digits: &str) -> bool {
    digits.len() % 2 == 0
        && digits.len() / 2 <= LARGEST_PACKET
        && digits.bytes().all(|digit| digit.is_ascii_hexdigit())
}

/// The first word behind a submission's body that is no option, or not in its turn.
fn out_of_turn(line: &str) -> Option<&str> {
    let mut options = OPTIONS.iter();
    for word in line.split(' ').skip(BEFORE_OPTIONS) {
        if !options.any(|begin| word.starts_with(*begin)) {
            return Some(word);
        }
    }
    None
}
