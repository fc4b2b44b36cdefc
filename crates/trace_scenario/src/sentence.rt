//! What is wrong with a bad line, in a sentence that a person can act on. No contract says that a sentence fits its
//! line.

use crate::culprit::verb_in;
use std::fmt;
use usb_scripttext::words::ascii;
use usb_scripttext::{Expected, Misplaced, Problem};

/// How many devices there may be.
const MOST_DEVICES: usize = 4;

/// A line's problem, as a sentence tells it.
#[derive(Clone, Copy)]
pub(crate) struct Sentence<'a> {
    /// The line.
    pub(crate) line: &'a [u8],
    /// What is wrong with it.
    pub(crate) problem: Problem,
}

impl Sentence<'_> {
    /// The form of the line's verb.
    fn form(&self) -> Option<&'static str> {
        Some(verb_in(ascii(self.line)?)?.form())
    }
}

impl fmt::Display for Sentence<'_> {
    fn fmt<W: fmt::Write>(&self, f: &mut fmt::Formatter<W>) -> fmt::Result {
        match self.problem {
            Problem::Ascii => f.write_str("a byte isn't ASCII, as only a comment may have"),
            Problem::FirstWord => {
                f.write_str("the first word is no verb, as `device`, `open` or `submit`")
            }
            Problem::Form => {
                let form = self.form().unwrap_or("");
                write!(f, "the form is `{form}`, with single spaces")
            }
            Problem::Word(expected) => f.write_str(unexpected(expected)),
            Problem::Answers => f.write_str("a script has 1 to 65536 answers"),
            Problem::Packet => f.write_str("a packet has at most 2048 bytes"),
            Problem::Descriptor(fault) => write!(f, "the descriptor is refused: {fault}"),
            Problem::Place(misplaced) => put_misplaced(f, misplaced),
        }
    }
}

/// What a word isn't that had to be this.
fn unexpected(expected: Expected) -> &'static str {
    match expected {
        Expected::Handle => "the handle isn't a decimal number from 0 to 63",
        Expected::Device => "the device isn't a decimal number from 0 to 3",
        Expected::Interface => "the interface isn't a decimal number from 0 to 255",
        Expected::Endpoint => "the endpoint isn't two hexadecimal digits",
        Expected::Number => "the number isn't decimal and below 2^64",
        Expected::Bytes => "the bytes aren't an even number of hexadecimal digits",
        Expected::Kind => "the kind is neither `bulk` nor `int`",
        Expected::Length => {
            "the length isn't a decimal number below 2^32, nor are there bytes behind `x:`"
        }
        Expected::Flags => {
            "flags= has something other than SHORT_NOT_OK, FREE_BUFFER, FREE_TRANSFER and ADD_ZERO_PACKET between its plus signs"
        }
        Expected::Timeout => "timeout= isn't a decimal number below 2^32",
        Expected::Rule => {
            "then= is neither `stop` nor `again:S+S..:R` with names of statuses and a decimal number below 2^64"
        }
        Expected::Option => {
            "the options are flags=, timeout= and then=, in this order and each at most once"
        }
        Expected::InAnswer => {
            "an answer of an IN endpoint isn't `d:` and a packet's bytes, `n`, `s` or `b`"
        }
        Expected::OutAnswer => {
            "an answer of an OUT endpoint isn't `a`, `a:` and the bytes that are expected, `n`, `s` or `b`"
        }
        Expected::PacketBytes => {
            "behind `a:` stands something other than an even number of hexadecimal digits, and `*` where more may follow"
        }
    }
}

/// Why a line may not stand where it does.
fn put_misplaced<W: fmt::Write>(f: &mut fmt::Formatter<W>, misplaced: Misplaced) -> fmt::Result {
    match misplaced {
        Misplaced::Late => f.write_str("device and script lines stand before the first step"),
        Misplaced::Turn(next) if next < MOST_DEVICES => {
            write!(f, "the next device has the number {next}")
        }
        Misplaced::Turn(_) => f.write_str("there are 4 devices already, and may be no more"),
        Misplaced::NoDevice => f.write_str("no line before this one has the device"),
        Misplaced::NoEndpoint(endpoints) => write!(
            f,
            "the device has no bulk or interrupt endpoint of this address; it has {endpoints}"
        ),
        Misplaced::SecondScript => f.write_str("the endpoint has a script already"),
    }
}
