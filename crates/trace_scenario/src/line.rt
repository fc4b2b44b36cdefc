//! One line of a scenario.

ghost use Rattle.std.specs.Prelude.{◌≡◌, true};
ghost use Rattle.trace_scenario.specs.Line.{device_line_of, line_by};
ghost use Rattle.usb_scripttext.specs.Results.{ReadsAs};
ghost use Rattle.trace_scenario.specs.LineResults.{ReadsPiece};
ghost use Rattle.trace_scenario.specs.Verb.{says_piece};
ghost use Rattle.usb_scripttext.specs.Words.{words_of};

use crate::step::{
    bare, callback, cancel, claim, clear, close, expire, open, release, reset, serve, unplug,
};
use crate::submit::{Submitted, submit};
use crate::verb::Verb;
use std::alloc::Global;
use usb_descriptors::Config;
use usb_model::{DeviceNo, EpAddr, Name, Plan, Request, Rule, Script, Step};
use usb_scripttext::devices::configuration;
use usb_scripttext::number::{bytes, device};
use usb_scripttext::words::cut;
use usb_scripttext::{EndpointAnswers, Expected, LineFault, Problem, endpoint_answers};

/// What a line says.
#[derive(Drop)]
pub enum Line {
    /// The device of this number has this configuration.
    Device {
        number: DeviceNo,
        config: Config,
    },
    /// The answers of an endpoint of a device.
    Script {
        dev: DeviceNo,
        ep: EpAddr,
        answers: Script,
    },
    /// Answers of an endpoint of a device, behind those that it has.
    Feed {
        dev: DeviceNo,
        ep: EpAddr,
        answers: Script,
    },
    /// A transfer is submitted, and its callback answers by this rule.
    Submit {
        h: Name,
        request: Request,
        rule: Rule,
    },
    /// Another piece of the plan.
    Piece(Plan),
}

impl Line {
    ghost use Rattle.trace_scenario.specs.Line.{line_by, line_of, line_of_text};

    /// What a line says: words between single spaces, all ASCII.
    pub fn from_text(alloc: Global, text: &[u8]) -> Result<Line, LineFault>
        ensures { ReadsAs result (line_of_text text.now) }
    {
        let mut words = Vec::new(alloc);
        if !cut(text, &mut words)? {
            return Err(LineFault::Bad(Problem::Ascii));
        }
        Line::read(alloc, words.as_slice())
    }

    /// What the words of a line say.
    fn read(alloc: Global, words: &[&str]) -> Result<Line, LineFault>
        ensures { ReadsAs result (line_of (words_of words.now)) }
    {
        let [first, rest @ ..] = words else {
            return Err(LineFault::Bad(Problem::FirstWord));
        };
        let verb = Verb::read(first).ok_or(Problem::FirstWord)?;
        Line::of_verb(alloc, verb, rest)
    }

    /// What the words behind a verb say.
    pub(crate) fn of_verb(alloc: Global, verb: Verb, words: &[&str]) -> Result<Line, LineFault>
        ensures { ReadsAs result (line_by verb (words_of words.now)) }
    {
        match verb {
            Verb::Device => device_line(alloc, words),
            Verb::Script => {
                let EndpointAnswers { dev, ep, answers } = endpoint_answers(alloc, words)?;
                Ok(Line::Script { dev, ep, answers })
            }
            Verb::Feed => {
                let EndpointAnswers { dev, ep, answers } = endpoint_answers(alloc, words)?;
                Ok(Line::Feed { dev, ep, answers })
            }
            Verb::Submit => {
                let Submitted { h, request, rule } = submit(alloc, words)?;
                Ok(Line::Submit { h, request, rule })
            }
            _ => Ok(Line::Piece(piece(verb, words)?)),
        }
    }
}

/// The piece of a plan that the words behind a verb say, where they say one. It isn't a `Line` yet, which has room for a
/// whole configuration: long plans would move that with each piece.
pub(crate) fn piece(verb: Verb, words: &[&str]) -> Result<Plan, LineFault>
    ensures { says_piece verb ≡ true → ReadsPiece result (line_by verb (words_of words.now)) }
{
    match verb {
        Verb::Open => open(words),
        Verb::Close => close(words),
        Verb::Claim => claim(words),
        Verb::Release => release(words),
        Verb::Reset => reset(words),
        Verb::Clear => clear(words),
        Verb::Cancel => cancel(words),
        Verb::Expire => expire(words),
        Verb::Serve => serve(words),
        Verb::Command => bare(words, Step::Command),
        Verb::Deliver => bare(words, Step::Deliver),
        Verb::Take => bare(words, Step::Take),
        Verb::Return => callback(words),
        Verb::Unplug => unplug(words),
        Verb::Device | Verb::Script | Verb::Feed | Verb::Submit => {
            Err(LineFault::Bad(Problem::Form))
        }
    }
}

/// A device with its configuration descriptor.
#[tactic(auto, unfolding(crate::specs::Line::device_line_of))]
fn device_line(alloc: Global, words: &[&str]) -> Result<Line, LineFault>
    ensures { ReadsAs result (device_line_of (words_of words.now)) }
{
    let [number, descriptor] = words else {
        return Err(LineFault::Bad(Problem::Form));
    };
    let number = device(number)?;
    let descriptor = bytes(alloc, descriptor)?.ok_or(Expected::Bytes)?;
    let config = configuration(descriptor.as_slice())?;
    Ok(Line::Device { number, config })
}
