//! One line of a text.

ghost use Rattle.usb_scripttext.specs.Results.{ReadsAs};
ghost use Rattle.usb_scripttext.specs.Words.{words_of};
ghost use Rattle.usb_devicetext.specs.Line.{device_of_words, line_by, line_of, line_of_text, said_by, statement_by};

use crate::statement::{
    Statement, anew_line, class_line, control_line, descriptor_line, driver_line, gate_line,
    hidden_line, ids_line, lasts_line, leaves_line, speed_line, string_line,
};
use crate::topic::Topic;
use std::alloc::Global;
use usb_descriptors::Config;
use usb_model::{Bytes, DeviceNo};
use usb_scripttext::devices::configuration;
use usb_scripttext::number::{bytes, device};
use usb_scripttext::words::ascii;
use usb_scripttext::{EndpointAnswers, Expected, LineFault, Problem, endpoint_answers};

/// What a line says.
#[derive(Drop)]
pub enum DeskLine {
    /// The device of this number has this configuration descriptor, which says this.
    Device {
        number: DeviceNo,
        descriptor: Bytes,
        config: Config,
    },
    /// The answers of an endpoint of a device that stands before it.
    Script(EndpointAnswers),
    /// This of a device that stands before it.
    Says {
        dev: DeviceNo,
        what: Statement,
    },
}

impl DeskLine {
    /// What a line says: words between single spaces, all ASCII.
    pub fn from_text(alloc: Global, text: &[u8]) -> Result<DeskLine, LineFault>
        ensures { ReadsAs result (line_of_text text.now) }
    {
        let text = ascii(text).ok_or(Problem::Ascii)?;
        let words: Vec<&str> = text.split(' ').collect(alloc)?;
        DeskLine::read(alloc, words.as_slice())
    }

    /// What the words of a line say.
    fn read(alloc: Global, words: &[&str]) -> Result<DeskLine, LineFault>
        ensures { ReadsAs result (line_of (words_of words.now)) }
    {
        let [first, rest @ ..] = words else {
            return Err(LineFault::Bad(Problem::FirstWord));
        };
        let topic = Topic::read(first).ok_or(Problem::FirstWord)?;
        DeskLine::of_topic(alloc, topic, rest)
    }

    /// What the words behind a first word say.
    fn of_topic(alloc: Global, topic: Topic, words: &[&str]) -> Result<DeskLine, LineFault>
        ensures { ReadsAs result (line_by topic (words_of words.now)) }
    {
        match topic {
            Topic::Device => device_line(alloc, words),
            Topic::Script => Ok(DeskLine::Script(endpoint_answers(alloc, words)?)),
            _ => said(alloc, topic, words),
        }
    }
}

/// A device with its configuration descriptor.
#[tactic(auto, unfolding(crate::specs::Line::device_of_words))]
fn device_line(alloc: Global, words: &[&str]) -> Result<DeskLine, LineFault>
    ensures { ReadsAs result (device_of_words (words_of words.now)) }
{
    let [number, descriptor] = words else {
        return Err(LineFault::Bad(Problem::FirstWord));
    };
    let number = device(number)?;
    let descriptor = bytes(alloc, descriptor)?.ok_or(Expected::Bytes)?;
    let config = configuration(descriptor.as_slice())?;
    Ok(DeskLine::Device {
        number,
        descriptor,
        config,
    })
}

/// What a line of this first word says of the device that it names.
#[tactic(auto, unfolding(crate::specs::Line::said_by))]
fn said(alloc: Global, topic: Topic, words: &[&str]) -> Result<DeskLine, LineFault>
    ensures { ReadsAs result (said_by topic (words_of words.now)) }
{
    let [dev, words @ ..] = words else {
        return Err(LineFault::Bad(Problem::FirstWord));
    };
    let dev = device(dev)?;
    let what = statement(alloc, topic, words)?;
    Ok(DeskLine::Says { dev, what })
}

/// What the words behind the device say.
fn statement(alloc: Global, topic: Topic, words: &[&str]) -> Result<Statement, LineFault>
    ensures { ReadsAs result (statement_by topic (words_of words.now)) }
{
    match topic {
        Topic::Device | Topic::Script => Err(LineFault::Bad(Problem::FirstWord)),
        Topic::Ids => ids_line(words),
        Topic::Class => class_line(words),
        Topic::Descriptor => descriptor_line(words),
        Topic::Text => string_line(alloc, words),
        Topic::Speed => speed_line(words),
        Topic::Control => control_line(alloc, words),
        Topic::After => gate_line(words),
        Topic::Leaves => leaves_line(words),
        Topic::Hidden => hidden_line(words),
        Topic::Anew => anew_line(words),
        Topic::Lasts => lasts_line(words),
        Topic::Driver => driver_line(words),
    }
}
