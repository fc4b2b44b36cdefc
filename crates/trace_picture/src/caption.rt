//! What stands below a column: its step, in a verb, its objects, and what came of it.

use crate::words::Words;
use usb_model::{Entry, Name, Refused, Reply, Returned, Status, Step};

/// A step in three short lines.
#[derive(Clone, Copy)]
pub struct Caption {
    /// What is done.
    pub verb: &'static str,
    /// By whom, and with what; or what was taken.
    pub objects: Option<Words>,
    /// Of how many bytes, or what came of it.
    pub outcome: Option<Words>,
    /// Whether the step is refused: the outcome says why.
    pub is_refused: bool,
}

/// The verb of a step.
fn verb(step: &Step) -> &'static str {
    match step {
        Step::Open { .. } => "open",
        Step::Close { .. } => "close",
        Step::Claim { .. } => "claim",
        Step::Release { .. } => "release",
        Step::Reset { .. } => "reset",
        Step::ClearHalt { .. } => "clear",
        Step::Submit { .. } => "submit",
        Step::Cancel { .. } => "cancel",
        Step::Expire { .. } => "expire",
        Step::Serve { .. } => "serve",
        Step::Command => "command",
        Step::Deliver => "deliver",
        Step::Take => "take",
        Step::Answer { .. } => "return",
        Step::Unplug { .. } => "unplug",
    }
}

/// The objects of a step that names them.
fn named(step: &Step) -> Option<Words> {
    Some(match step {
        Step::Open { h, dev } => Words::OfHandle(h.number(), u64::from(dev.number())),
        Step::Close { h } | Step::Reset { h } => Words::handle(h.number()),
        Step::Claim { h, i } | Step::Release { h, i } => {
            Words::OfHandle(h.number(), u64::from(*i))
        }
        Step::ClearHalt { h, ep } => Words::HandleEndpoint(h.number(), ep.address()),
        Step::Submit { h, request } => Words::HandleEndpoint(h.number(), request.ep.address()),
        Step::Cancel { h, n } | Step::Expire { h, n } | Step::Answer { h, n, .. } => {
            Words::Transfer(h.number(), *n)
        }
        Step::Serve { dev, ep } => Words::Endpoint(dev.number(), ep.address()),
        Step::Unplug { dev } => Words::number(u64::from(dev.number())),
        Step::Command | Step::Deliver | Step::Take => return None,
    })
}

/// What a step took that names nothing, and whose it was.
fn taken(entry: &Entry) -> Option<Words> {
    match &entry.reply {
        Reply::Ran { ep, errand, .. } | Reply::Settled { ep, errand, .. } => {
            Some(Words::Errand(*errand, ep.address()))
        }
        Reply::Finished { n } | Reply::Paused { n } => Some(transfer_of(entry.owner?, *n)),
        Reply::Called(returned) => Some(transfer_of(returned.h, returned.n)),
        _ => None,
    }
}

/// The name of a transfer.
fn transfer_of(h: Name, n: u64) -> Words {
    Words::Transfer(h.number(), n)
}

/// A status in small letters, as below a column.
fn status_words(status: Status) -> &'static str {
    match status {
        Status::Completed => "completed",
        Status::Error => "error",
        Status::TimedOut => "timed out",
        Status::Cancelled => "cancelled",
        Status::Stall => "stall",
        Status::NoDevice => "no device",
        Status::Overflow => "overflow",
    }
}

/// Why a step is refused, in a word or two.
fn refusal_words(why: Refused) -> &'static str {
    match why {
        Refused::InvalidParam => "invalid",
        Refused::NoDevice => "no device",
        Refused::NotFound => "not found",
        Refused::Busy => "busy",
        Refused::HeldElsewhere => "held",
        Refused::NoMem => "no memory",
        Refused::NotSupported => "unsupported",
    }
}

/// Whether an order was carried out.
fn outcome_words(ok: bool, done: &'static str) -> &'static str {
    if ok { done } else { "failed" }
}

/// What came of a step that wasn't refused, as far as it isn't told beside its signs.
fn outcome(step: &Step, reply: &Reply) -> Option<Words> {
    match (step, reply) {
        (Step::Submit { request, .. }, _) => Some(Words::bytes(request.body.length() as u64)),
        (Step::Answer { .. }, Reply::Number(n)) => Some(Words::Numbered("again #", *n, "")),
        (_, reply) => Some(Words::Text(turn_words(reply)?)),
    }
}

/// What came of a step of the controller or the core.
fn turn_words(reply: &Reply) -> Option<&'static str> {
    match reply {
        Reply::Idle => Some("nothing"),
        Reply::Nak { .. } => Some("not ready"),
        Reply::Ran { ok, .. } => Some(outcome_words(*ok, "done")),
        Reply::Settled { ok, .. } => Some(outcome_words(*ok, "settled")),
        Reply::Finished { .. } => Some("finished"),
        Reply::Paused { .. } => Some("paused"),
        Reply::Called(returned) => Some(told(returned)),
        _ => None,
    }
}

/// What a callback is told.
fn told(returned: &Returned) -> &'static str {
    status_words(returned.status)
}

impl Caption {
    /// The caption of a step with this entry.
    pub fn of(step: &Step, entry: &Entry) -> Caption {
        let refusal = match &entry.reply {
            Reply::Refused(why) => Some(Words::Text(refusal_words(*why))),
            _ => None,
        };
        Caption {
            verb: verb(step),
            objects: named(step).or(taken(entry)),
            outcome: refusal.or(outcome(step, &entry.reply)),
            is_refused: refusal.is_some(),
        }
    }
}
