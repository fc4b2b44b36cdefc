//! What a scenario expects of the packets that its devices take, line by line.

ghost use Rattle.std.specs.Prelude.{◌≡◌, IfOk};
ghost use Rattle.usb_scripttext.specs.ExpectedPacket.{expected_packet_of};
ghost use Rattle.trace_scenario.specs.Expectations.{expected_by_words, expected_in_line, expected_of, expected_of_plain, expected_of_words, says_answers};
ghost use Rattle.usb_scripttext.specs.Words.{words_of};

use std::alloc::{AllocError, Global};
use usb_model::{DeviceNo, EpAddr, Sequence};
use usb_scripttext::number::{address, device};
use usb_scripttext::words::ascii;
use usb_scripttext::{ExpectedPacket, LineFault, copies, read_expected_packet};

/// What a line expects of the packets that an endpoint takes.
#[derive(Debug, Drop)]
pub struct ExpectedPackets {
    /// The device.
    pub dev: DeviceNo,
    /// The endpoint.
    pub ep: EpAddr,
    /// One for each answer of the line that takes a packet, in order; as often as the answer stands.
    pub packets: Sequence<ExpectedPacket>,
}

/// What an answer expects; None where it takes no packet.
fn expected_of_word(alloc: Global, word: &str) -> Result<Option<ExpectedPacket>, AllocError>
    ensures { IfOk result (λ packet. packet ≡ expected_packet_of word.now) }
{
    match read_expected_packet(alloc, word) {
        Ok(packet) => Ok(Some(packet)),
        Err(LineFault::Bad(_)) => Ok(None),
        Err(LineFault::Memory) => Err(AllocError),
    }
}

/// What answers that are written out expect: one for each that takes a packet.
fn expected_of_plain(alloc: Global, words: &[&str]) -> Result<Vec<ExpectedPacket>, AllocError>
    ensures { IfOk result (λ packets. packets.items ≡ expected_of_plain (words_of words.now)) }
{
    let mut packets = Vec::new(alloc);
    for word in words {
        if let Some(packet) = expected_of_word(alloc, word)? {
            packets.push(packet)?;
        }
    }
    Ok(packets)
}

/// What some answers expect, each as often as it stands; nothing where they are more than a script may have. Of the answers that
/// `..` adds nothing is expected.
fn expected_of_words(alloc: Global, words: &[&str]) -> Result<Vec<ExpectedPacket>, AllocError>
    ensures { IfOk result (λ packets. packets.items ≡ expected_of_words (words_of words.now)) }
{
    match copies(alloc, words)? {
        Some(words) => expected_of_plain(alloc, words.as_slice()),
        None => Ok(Vec::new(alloc)),
    }
}

/// Whether a line that begins with this word has answers.
fn says_answers(verb: &str) -> bool
    ensures { result ≡ says_answers verb.now }
{
    verb == "script" || verb == "feed"
}

/// What the words of a line expect; None where they have no answers.
#[tactic(auto, unfolding(crate::specs::Expectations::expected_by_words))]
fn expected_by_words(alloc: Global, words: &[&str]) -> Result<Option<ExpectedPackets>, AllocError>
    ensures { IfOk result (λ expected. expected ≡ expected_by_words (words_of words.now)) }
{
    let [verb, dev, ep, answers @ ..] = words else {
        return Ok(None);
    };
    if !says_answers(verb) {
        return Ok(None);
    }
    let (Ok(dev), Ok(ep)) = (device(dev), address(ep)) else {
        return Ok(None);
    };
    let packets = Sequence::from_vec(expected_of_words(alloc, answers)?);
    Ok(Some(ExpectedPackets { dev, ep, packets }))
}

/// What a line expects; None where it has no answers.
fn expected_in_line(alloc: Global, text: &[u8]) -> Result<Option<ExpectedPackets>, AllocError>
    ensures { IfOk result (λ expected. expected ≡ expected_in_line text.now) }
{
    let Some(text) = ascii(text) else {
        return Ok(None);
    };
    let words: Vec<&str> = text.split(' ').collect(alloc)?;
    expected_by_words(alloc, words.as_slice())
}

/// What the lines of a text that was read as a scenario expect of the packets that its devices take: one for each line
/// `script` or `feed`, in order. The k-th packet that an endpoint takes since its script began is expected by the k-th
/// entry of all that its lines have.
pub fn read_expected(alloc: Global, text: &[u8]) -> Result<Vec<ExpectedPackets>, AllocError>
    ensures { IfOk result (λ expected. expected.items ≡ expected_of text.now) }
{
    let mut expected = Vec::new(alloc);
    for line in text.split(|byte| *byte == b'\n') {
        if let Some(packets) = expected_in_line(alloc, line)? {
            expected.push(packets)?;
        }
    }
    Ok(expected)
}
