//! Lines that say what an endpoint of a device will answer.

ghost use Rattle.std.specs.Prelude.{codes};
ghost use Rattle.std.specs.Option.{option_and_then};
ghost use Rattle.usb_scripttext.specs.Script.{answer_of, answers_of, each_of, endpoint_answers_of, packet_of};
ghost use Rattle.usb_scripttext.specs.Prefix.{behind};
ghost use Rattle.usb_scripttext.specs.Results.{ReadsAs};
ghost use Rattle.usb_scripttext.specs.Words.{words_of};

use crate::expected::Expected;
use crate::expected_packet::read_expected_packet;
use crate::fault::LineFault;
use crate::number::{address, bytes, device};
use crate::prefix::behind;
use crate::problem::Problem;
use crate::repeats::written_out;
use std::alloc::Global;
use usb_model::limits::LARGEST_PACKET;
use usb_model::{DeviceNo, EpAddr, Response, Script};

/// The answers of an endpoint of a device.
#[derive(Drop)]
pub struct EndpointAnswers {
    /// The device.
    pub dev: DeviceNo,
    /// The endpoint.
    pub ep: EpAddr,
    /// One at least.
    pub answers: Script,
}

/// The answers that the words behind the first of a line say: a device, an endpoint and the answers.
#[tactic(auto, unfolding(crate::specs::Script::endpoint_answers_of))]
pub fn endpoint_answers(alloc: Global, words: &[&str]) -> Result<EndpointAnswers, LineFault>
    ensures { ReadsAs result (endpoint_answers_of (words_of words.now)) }
{
    let [dev, ep, words @ ..] = words else {
        return Err(LineFault::Bad(Problem::Form));
    };
    let (dev, ep) = (device(dev)?, address(ep)?);
    let answers = answers(alloc, ep, words)?;
    Ok(EndpointAnswers { dev, ep, answers })
}

/// The answers of some words, each as often as it stands: 1 to 65,536 in all.
#[tactic(auto, unfolding(crate::specs::Script::plain_answers_of))]
fn answers(alloc: Global, ep: EpAddr, words: &[&str]) -> Result<Script, LineFault>
    ensures { ReadsAs result (answers_of ep (words_of words.now)) }
{
    let Some(words) = written_out(alloc, words)? else {
        return Err(LineFault::Bad(Problem::Answers));
    };
    if words.is_empty() {
        return Err(LineFault::Bad(Problem::Answers));
    }
    each_answer(alloc, ep, words.as_slice())
}

/// The answer of each word.
fn each_answer(alloc: Global, ep: EpAddr, words: &[&str]) -> Result<Script, LineFault>
    ensures { ReadsAs result (each_of (answer_of ep) (words_of words.now)) }
{
    let mut answers = Vec::new(alloc);
    for word in words {
        answers.push(answer(alloc, ep, word)?)?;
    }
    Ok(Script::from_vec(answers))
}

/// One answer: a packet of an endpoint for IN, that one is taken by an endpoint for OUT, or what either may answer. What is
/// expected of a packet that is taken is read, and isn't kept: it is no part of the answer.
#[tactic(auto, unfolding(crate::specs::Script::answer_of))]
fn answer(alloc: Global, ep: EpAddr, word: &str) -> Result<Response, LineFault>
    ensures { ReadsAs result (answer_of ep word.now) }
{
    match word {
        "n" => Ok(Response::Nak),
        "s" => Ok(Response::Stall),
        "b" => Ok(Response::Broken),
        _ if ep.is_in() => packet(alloc, word),
        _ => {
            let _expected = read_expected_packet(alloc, word)?;
            Ok(Response::Ack)
        }
    }
}

/// A packet of an endpoint for IN.
#[tactic(auto, unfolding(crate::specs::Script::packet_of))]
fn packet(alloc: Global, word: &str) -> Result<Response, LineFault>
    ensures { ReadsAs result (option_and_then packet_of (behind (codes "d:") word.now)) }
{
    let digits = behind("d:", word).ok_or(Expected::InAnswer)?;
    let packet = bytes(alloc, digits)?.ok_or(Expected::Bytes)?;
    if packet.len() > LARGEST_PACKET {
        return Err(LineFault::Bad(Problem::Packet));
    }
    Ok(Response::Data(packet))
}
