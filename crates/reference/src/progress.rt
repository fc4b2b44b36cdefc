//! How far a transfer comes by an answer that leaves it open, known without a look at the answers that it took.

ghost use Rattle.std.specs.Prelude.{◌≡◌, ◌++◌, ℕ, true, List, IfOk, IfSome};
ghost use Rattle.usb_model.specs.declared.response.Response.{Response};
ghost use Rattle.usb_model.specs.Alike.{AreAlike};
ghost use Rattle.usb_model.specs.Endpoint.Packets.{IsOpenAt, count_of, outcome, without_naks};
ghost use Rattle.usb_model.specs.Endpoint.Serve.{next_answer};
ghost use Rattle.reference.specs.Progress.{AreMoved, GoesOn, HasMoved, bytes_by, sent_by};

use crate::outcome::most_full;
use crate::packet::{packet_count, pieces_between};
use std::alloc::{AllocError, Global};
use usb_model::{Alike, Body, Bytes, Endpoint, Item, Outcome, Request};

/// How many packets of a transfer moved before an answer, and behind it.
#[derive(Clone, Copy)]
pub(crate) struct Progress {
    /// Before it.
    pub before: usize,
    /// Behind it.
    pub after: usize,
}

/// How many packets answers moved that have this in common, where that tells it and they leave the transfer open.
#[tactic(auto, using(crate::proofs::Opens::none_moved, crate::proofs::Opens::read, crate::proofs::Opens::sent))]
fn moved_by(alike: Alike, request: &Request, size: usize) -> Option<usize>
    ensures { (share : List Response) → AreAlike alike (without_naks share) → IfSome result (HasMoved request.now size share) }
{
    match (&request.body, alike) {
        (_, Alike::Nothing) => Some(0),
        (Body::In(n), Alike::Packets { size: each, count })
            if each == size && count <= most_full(*n as usize, size) => { Some(count) }
        (Body::Out(_), Alike::Acks { count }) if count < packet_count(request, size) => Some(count),
        _ => None,
    }
}

/// How far a transfer comes by the answer that comes now, where that is known so and it stays open.
pub(crate) fn progress_of(endpoint: &Endpoint, size: u16, item: &Item) -> Option<Progress>
    ensures { IfSome result (GoesOn size endpoint.now item.now) }
{
    if endpoint.device_halted {
        return None;
    }
    let [answer, ..] = endpoint.script_left.as_slice() else {
        return None;
    };
    let (request, size) = (&item.request, usize::from(size));
    let alike = item.share.alike();
    let before = moved_by(alike, request, size)?;
    let after = moved_by(alike.with(answer), request, size)?;
    (before <= after).then_some(Progress { before, after })
}

/// What the device receives by it, as an outcome: the packets of a write, and none of a read.
#[tactic(auto)]
pub(crate) fn sent_now(
    alloc: Global,
    request: &Request,
    size: usize,
    progress: Progress,
) -> Result<Vec<Bytes>, AllocError>
    ensures { (share : List Response) (ps : List (List ℕ)) → AreMoved request.now size request.now.body share progress.after ps
        → IfOk result (λ sent. sent.items ≡ sent_by request.now size request.now.body progress.before progress.after) }
{
    match &request.body {
        Body::In(_) => Ok(Vec::new(alloc)),
        Body::Out(bytes) => {
            let Progress { before, after } = progress;
            pieces_between(alloc, size, before, after, bytes.as_slice())
        }
    }
}

/// How many bytes move by it, where a write sends these packets. A number past a `u32` counts as want of memory; no request is that long.
pub(crate) fn bytes_now(
    request: &Request,
    size: usize,
    progress: Progress,
    sent: &Outcome,
) -> Result<u32, AllocError>
    ensures { IfOk result (λ n. n ≡ bytes_by request.now.body size progress.before progress.after (count_of sent.now)) }
{
    match &request.body {
        Body::In(_) => {
            let count = progress.after.saturating_sub(progress.before);
            let bytes = count.checked_mul(size).ok_or(AllocError)?;
            u32::try_from(bytes).map_err(|_| AllocError)
        }
        Body::Out(_) => sent.count(),
    }
}

/// Whether a transfer is known to stay open by the answer that comes now, without a look at those that it took.
#[tactic(auto, using(crate::proofs::Opens::stays))]
pub fn stays_open(endpoint: &Endpoint, size: u16, item: &Item) -> bool
    ensures { result ≡ true → IsOpenAt (outcome item.now.request size (item.now.share ++ next_answer endpoint.now) endpoint.now.device_halted) }
{
    progress_of(endpoint, size, item).is_some()
}
