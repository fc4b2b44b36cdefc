//! Lines that submit a transfer.

ghost use Rattle.std.specs.Prelude.{◌≡◌};
ghost use Rattle.trace_scenario.specs.Line.{submit_of, transfer_of, submission, kind_of, body_of};
ghost use Rattle.usb_scripttext.specs.Results.{ReadsAs};
ghost use Rattle.trace_scenario.specs.LineResults.{ReadsSubmitted, submitted_line};
ghost use Rattle.usb_scripttext.specs.Words.{words_of};

use crate::Options;
use crate::handles::handle;
use std::alloc::Global;
use usb_model::{Body, EpAddr, Kind, Name, Request, Rule};
use usb_scripttext::number::{address, bytes, decimal_u32};
use usb_scripttext::{Expected, LineFault, Problem, behind};

/// What a line that submits a transfer says.
#[derive(Drop)]
pub(crate) struct Submitted {
    /// Whose it is.
    pub(crate) h: Name,
    /// The transfer.
    pub(crate) request: Request,
    /// By which its callback answers.
    pub(crate) rule: Rule,
}

/// A submission: a handle, an endpoint, and the transfer.
#[tactic(auto, unfolding(crate::specs::Line::submit_of))]
pub(crate) fn submit(alloc: Global, words: &[&str]) -> Result<Submitted, LineFault>
    ensures { ReadsSubmitted result (submit_of (words_of words.now)) }
{
    let [h, ep, words @ ..] = words else {
        return Err(LineFault::Bad(Problem::Form));
    };
    let (h, ep) = (handle(h)?, address(ep)?);
    transfer(alloc, h, ep, words)
}

/// A transfer: its kind, its body, and the options.
#[tactic(auto, using(crate::proofs::Shapes::transfer_short), unfolding(crate::specs::Line::transfer_of))]
fn transfer(alloc: Global, h: Name, ep: EpAddr, words: &[&str]) -> Result<Submitted, LineFault>
    ensures { ReadsSubmitted result (transfer_of h ep (words_of words.now)) }
{
    let [kind, body, options @ ..] = words else {
        return Err(LineFault::Bad(Problem::Form));
    };
    let kind = kind_of(kind).ok_or(Expected::Kind)?;
    let body = body_of(alloc, body)?;
    let options = Options::read(options)?;
    Ok(submission(h, ep, kind, body, options))
}

/// The submission of a transfer with these options.
fn submission(h: Name, ep: EpAddr, kind: Kind, body: Body, options: Options) -> Submitted
    ensures { submitted_line result ≡ submission h ep kind body options }
{
    let request = Request {
        ep,
        kind,
        flags: options.flags,
        timeout: options.timeout,
        body,
    };
    Submitted {
        h,
        request,
        rule: options.rule,
    }
}

/// The kind of an endpoint that transfers may be submitted to.
#[tactic(auto, unfolding(crate::specs::Line::kind_of))]
fn kind_of(word: &str) -> Option<Kind>
    ensures { result ≡ kind_of word.now }
{
    match word {
        "bulk" => Some(Kind::Bulk),
        "int" => Some(Kind::Interrupt),
        _ => None,
    }
}

/// What a transfer carries: bytes after `x:`, or else how many bytes there is room for.
#[tactic(auto, unfolding(crate::specs::Line::body_of))]
fn body_of(alloc: Global, word: &str) -> Result<Body, LineFault>
    ensures { ReadsAs result (body_of word.now) }
{
    match behind("x:", word) {
        Some(digits) => {
            let bytes = bytes(alloc, digits)?.ok_or(Expected::Bytes)?;
            Ok(Body::Out(bytes))
        }
        None => Ok(Body::In(decimal_u32(word).ok_or(Expected::Length)?)),
    }
}
