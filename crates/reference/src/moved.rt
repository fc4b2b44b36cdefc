//! The packets that a device's answer moves.

ghost use Rattle.std.specs.Prelude.{◌≡◌, ◌++◌, take, IfOk};
ghost use Rattle.reference.specs.Moved.{data_of, outcome_after, packets_moved, packets_of_answer};
ghost use Rattle.reference.specs.Progress.{GoesOn};
ghost use Rattle.usb_model.specs.Endpoint.Serve.{next_answer};

use crate::line::first_waiting;
use crate::outcome::{outcome, outcome_of};
use crate::packet::past;
use crate::progress::{Progress, progress_of, sent_now};
use std::alloc::{AllocError, Global};
use usb_model::{Body, Bytes, Endpoint, EndpointState, Item, Outcome, Response};

/// The answers that a transfer will have taken when it has taken the next.
fn share_after(alloc: Global, endpoint: &Endpoint, item: &Item) -> Result<Vec<Response>, AllocError>
    ensures { IfOk result (λ share. share.items ≡ item.now.share ++ next_answer endpoint.now) }
{
    let mut share = Vec::from_clones(alloc, item.share.as_slice())?;
    if !endpoint.device_halted {
        if let Some(answer) = endpoint.script_left.as_slice().first() {
            share.push(answer.clone()?)?;
        }
    }
    Ok(share)
}

/// How far a transfer will have come then.
fn outcome_after(
    alloc: Global,
    endpoint: &Endpoint,
    size: u16,
    item: &Item,
) -> Result<Outcome, AllocError>
    ensures { IfOk result (λ o. o ≡ outcome_after size endpoint.now item.now) }
{
    let share = share_after(alloc, endpoint, item)?;
    let halted = endpoint.device_halted;
    let after = outcome(alloc, &item.request, size, share.as_slice(), halted)?;
    Ok(after.unwrap_or(Outcome::open_with(Vec::new(alloc))))
}

/// The packets that will have moved then, and haven't yet, read off all answers.
fn packets_by_share(
    alloc: Global,
    endpoint: &Endpoint,
    size: u16,
    item: &Item,
) -> Result<Vec<Bytes>, AllocError>
    ensures { IfOk result (λ packets. packets.items ≡ packets_of_answer size endpoint.now item.now) }
{
    let before = outcome_of(alloc, size, item)?;
    let after = outcome_after(alloc, endpoint, size, item)?;
    Vec::from_clones(alloc, past(after.packets.as_slice(), before.packets.len()))
}

/// The packet for the host that comes now, if one does.
fn data_now(alloc: Global, answers: &[Response]) -> Result<Vec<Bytes>, AllocError>
    ensures { IfOk result (λ packets. packets.items ≡ data_of (take 1 answers.now)) }
{
    let mut packets = Vec::new(alloc);
    if let [Response::Data(bytes), ..] = answers {
        packets.push(bytes.clone()?)?;
    }
    Ok(packets)
}

/// The packets that an answer moves which leaves the transfer open: none of those that it took is looked at.
fn packets_on(
    alloc: Global,
    endpoint: &Endpoint,
    size: u16,
    item: &Item,
    progress: Progress,
) -> Result<Vec<Bytes>, AllocError>
    requires { GoesOn size endpoint.now item.now progress }
    ensures { IfOk result (λ packets. packets.items ≡ packets_of_answer size endpoint.now item.now) }
{
    match &item.request.body {
        Body::In(_) => data_now(alloc, endpoint.script_left.as_slice()),
        Body::Out(_) => sent_now(alloc, &item.request, usize::from(size), progress),
    }
}

/// The packets that will have moved then, and haven't yet.
fn packets_of_answer(
    alloc: Global,
    endpoint: &Endpoint,
    size: u16,
    item: &Item,
) -> Result<Vec<Bytes>, AllocError>
    ensures { IfOk result (λ packets. packets.items ≡ packets_of_answer size endpoint.now item.now) }
{
    match progress_of(endpoint, size, item) {
        Some(progress) => packets_on(alloc, endpoint, size, item, progress),
        None => packets_by_share(alloc, endpoint, size, item),
    }
}

/// The packets that move, either way, where the device answers at this endpoint, whose packets have at most so many
/// bytes; `gone`: whether the device is. At most one does. It is asked before the step is made.
#[tactic(auto, unfolding(crate::specs::Moved::packets_moved))]
pub fn packets_moved(
    alloc: Global,
    endpoint: &Endpoint,
    size: u16,
    gone: bool,
) -> Result<Vec<Bytes>, AllocError>
    ensures { IfOk result (λ packets. packets.items ≡ packets_moved size gone endpoint.now) }
{
    match first_waiting(endpoint.line.as_slice()) {
        Some(item) if endpoint.state == EndpointState::Running && !gone => {
            packets_of_answer(alloc, endpoint, size, item)
        }
        _ => Ok(Vec::new(alloc)),
    }
}
