//! The outcome of a transfer, read off the whole share of answers that it took (USB 2.0, 8.5.2 and 8.5.4).

ghost use Rattle.std.specs.Prelude.{◌≡◌, ◌-◌, ◌*◌, ◌/◌, ◌≤◌, [], ◌∷◌, length, take, nat_lt, if◌then◌else◌, None, Some, IfOk};
ghost use Rattle.usb_model.specs.Endpoint.Packets.{without_naks, moved_by, outcome, ended_with, packets, read_with, sent_with};
ghost use Rattle.usb_model.specs.Endpoint.{outcome_of};

use crate::packet::{first_packets, packet_count};
use crate::share::{acks, first_answer, full_front};
use std::alloc::{AllocError, Global};
use usb_model::completion::{
    BABBLE_DETECTED, SHORT_PACKET, STALL_ERROR, SUCCESS, TRANSACTION_ERROR,
};
use usb_model::{Body, Bytes, Item, Outcome, Request, Response};

/// The outcome of a share, where it has one. `halted`: whether the device's endpoint is, which then stalls and uses no
/// answer.
#[tactic(auto, unfolding(usb_model::specs::Endpoint::Packets::outcome))]
pub(crate) fn outcome(
    alloc: Global,
    request: &Request,
    size: u16,
    share: &[Response],
    halted: bool,
) -> Result<Option<Outcome>, AllocError>
    ensures { IfOk result (λ o. o ≡ outcome request.now size share.now halted) }
{
    if halted && share.is_empty() {
        return Ok(Some(Outcome::ended_with(Vec::new(alloc), STALL_ERROR)));
    }
    moved_by(alloc, request, usize::from(size), share)
}

/// What the answers do, but for naks.
#[tactic(auto, using(crate::proofs::Fronts::front_fits))]
fn moved_by(
    alloc: Global,
    request: &Request,
    size: usize,
    share: &[Response],
) -> Result<Option<Outcome>, AllocError>
    ensures { IfOk result (λ o. o ≡ moved_by request.now size request.now.body (without_naks share.now)) }
{
    match &request.body {
        Body::In(n) => {
            let n = *n as usize;
            let (front, rest) = full_front(alloc, size, most_full(n, size), share)?;
            read_with(n, size, front, rest)
        }
        Body::Out(_) => {
            let (sent, rest) = acks(share);
            sent_with(alloc, request, size, sent, rest)
        }
    }
}

/// What the share of a transfer moved, at a device that isn't halted.
pub(crate) fn outcome_of(alloc: Global, size: u16, item: &Item) -> Result<Outcome, AllocError>
    ensures { IfOk result (λ o. o ≡ outcome_of size item.now) }
{
    let moved = outcome(alloc, &item.request, size, item.share.as_slice(), false)?;
    Ok(moved.unwrap_or(Outcome::open_with(Vec::new(alloc))))
}

/// How many full packets leave room in so many bytes. Where the size is 0, none does.
pub(crate) fn most_full(n: usize, size: usize) -> usize
    ensures { result ≡ (n - 1) / size }
{
    if size == 0 {
        0
    } else {
        n.saturating_sub(1) / size
    }
}

/// What stands behind full packets, with room for `n` bytes in all: nothing more, or what ended the transfer.
pub(crate) fn read_with(
    n: usize,
    size: usize,
    front: Vec<Bytes>,
    rest: &[Response],
) -> Result<Option<Outcome>, AllocError>
    requires { length front.items * size ≤ n }
    ensures { IfOk result (λ o. o ≡ read_with n size front.items (without_naks rest.now)) }
{
    let Some((answer, behind)) = first_answer(rest) else {
        return Ok(Some(Outcome::open_with(front)));
    };
    if first_answer(behind).is_some() {
        return Ok(None);
    }
    match answer {
        Response::Stall => Ok(Some(Outcome::ended_with(front, STALL_ERROR))),
        Response::Broken => Ok(Some(Outcome::ended_with(front, TRANSACTION_ERROR))),
        Response::Data(bytes) => read_last(n, size, front, bytes.clone()?),
        _ => Ok(None),
    }
}

/// The packet behind full packets: too much, all that was asked for, short, or none of these.
fn read_last(
    n: usize,
    size: usize,
    mut front: Vec<Bytes>,
    bytes: Bytes,
) -> Result<Option<Outcome>, AllocError>
    requires { length front.items * size ≤ n }
    ensures { IfOk result (λ o. o ≡ read_with n size front.items (Response.Data bytes ∷ [])) }
{
    let full = front.len() * size;
    if bytes.len() > size.min(n - full) {
        return Ok(Some(Outcome::ended_with(front, BABBLE_DETECTED)));
    }
    if full + bytes.len() == n {
        front.push(bytes)?;
        return Ok(Some(Outcome::ended_with(front, SUCCESS)));
    }
    if bytes.len() < size {
        front.push(bytes)?;
        return Ok(Some(Outcome::ended_with(front, SHORT_PACKET)));
    }
    Ok(None)
}

/// What stands behind so many acknowledgements: nothing more, or what ended the transfer.
pub(crate) fn sent_with(
    alloc: Global,
    request: &Request,
    size: usize,
    sent: usize,
    rest: &[Response],
) -> Result<Option<Outcome>, AllocError>
    ensures { IfOk result (λ o. o ≡ sent_with (packets request.now size) sent (without_naks rest.now)) }
{
    let Some((answer, behind)) = first_answer(rest) else {
        return sent_all(alloc, request, size, sent);
    };
    if first_answer(behind).is_some() {
        return Ok(None);
    }
    match answer {
        Response::Stall => stopped(alloc, request, size, sent, STALL_ERROR),
        Response::Broken => stopped(alloc, request, size, sent, TRANSACTION_ERROR),
        _ => Ok(None),
    }
}

/// So many packets were acknowledged, and nothing else.
#[tactic(auto, using(std::proofs::lemmas::List::take_all))]
fn sent_all(
    alloc: Global,
    request: &Request,
    size: usize,
    sent: usize,
) -> Result<Option<Outcome>, AllocError>
    ensures { IfOk result (λ o. o ≡ sent_with (packets request.now size) sent []) }
{
    let all = packet_count(request, size);
    if sent < all {
        let moved = first_packets(alloc, request, size, sent)?;
        Ok(Some(Outcome::open_with(moved)))
    } else if sent == all {
        let moved = first_packets(alloc, request, size, all)?;
        Ok(Some(Outcome::ended_with(moved, SUCCESS)))
    } else {
        Ok(None)
    }
}

/// The packet behind so many ended the transfer with this code, where there is one.
fn stopped(
    alloc: Global,
    request: &Request,
    size: usize,
    sent: usize,
    code: u8,
) -> Result<Option<Outcome>, AllocError>
    ensures { let all = packets request.now size in IfOk result (λ o. o ≡ (if nat_lt sent (length all) then Some (ended_with (take sent all) code) else None)) }
{
    if sent < packet_count(request, size) {
        let moved = first_packets(alloc, request, size, sent)?;
        Ok(Some(Outcome::ended_with(moved, code)))
    } else {
        Ok(None)
    }
}
