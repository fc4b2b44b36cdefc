//! A device answers one packet (USB 2.0, 8.4.5 and 8.5; xHCI 1.2, 4.10).

ghost use Rattle.std.specs.Prelude.{◌≡◌, ◌-◌, ◌||◌, false, [], ◌∷◌, ◌++◌, drop, IfOk, if◌then◌else◌};
ghost use Rattle.usb_model.specs.declared.reply.Reply.TheVariants as reply;
ghost use Rattle.usb_model.specs.Endpoint.Packets.{count_of};
ghost use Rattle.usb_model.specs.Endpoint.{with_first};
ghost use Rattle.usb_model.specs.Endpoint.Status.{halts};
ghost use Rattle.reference.specs.Progress.{GoesOn};
ghost use Rattle.usb_model.specs.Endpoint.Serve.{next_answer, is_stall, is_no_packet, acknowledged, answered, serve_gone, serve_first, serve};

use crate::line::{take_first, with_first};
use crate::outcome::{outcome, outcome_of};
use crate::packet::past;
use crate::progress::{Progress, bytes_now, progress_of, sent_now};
use std::alloc::{AllocError, Global};
use usb_model::completion::{TRANSACTION_ERROR, halts};
use usb_model::{
    Body, Bytes, Endpoint, EndpointEffect, EndpointState, Event, Item, ItemState, Outcome, Reply,
    Response, Script, Sequence,
};

/// The first transfer that waits takes one answer, while the endpoint is running; `gone`: whether the device is.
#[tactic(auto, unfolding(usb_model::specs::Endpoint::Serve::serve, usb_model::specs::Endpoint::Serve::serve_first))]
pub fn serve(
    alloc: Global,
    mut endpoint: Endpoint,
    size: u16,
    gone: bool,
) -> Result<EndpointEffect, AllocError>
    ensures { IfOk result (λ d. d ≡ serve size gone endpoint) }
{
    if endpoint.state != EndpointState::Running {
        return Ok(EndpointEffect::only_says(alloc, endpoint, Reply::Idle));
    }
    let (line, first) = take_first(alloc, endpoint.line);
    endpoint.line = line;
    let Some(item) = first else {
        return Ok(EndpointEffect::only_says(alloc, endpoint, Reply::Idle));
    };
    if gone {
        serve_gone(alloc, endpoint, item)
    } else {
        serve_first(alloc, endpoint, size, item)
    }
}

/// A gone device isn't asked: the first waiting transfer ends with what it has.
#[tactic(auto, unfolding(usb_model::specs::Endpoint::Serve::serve_gone))]
fn serve_gone(
    alloc: Global,
    mut endpoint: Endpoint,
    mut item: Item,
) -> Result<EndpointEffect, AllocError>
    ensures { IfOk result (λ d. d ≡ serve_gone endpoint item) }
{
    let n = item.n;
    item.state = ItemState::Served(TRANSACTION_ERROR);
    endpoint.line = with_first(endpoint.line, item);
    endpoint.state = EndpointState::Halted;
    ended(alloc, endpoint, n, TRANSACTION_ERROR)
}

/// The first waiting transfer takes the next answer of a device that is there.
fn serve_first(
    alloc: Global,
    endpoint: Endpoint,
    size: u16,
    item: Item,
) -> Result<EndpointEffect, AllocError>
    ensures { IfOk result (λ d. d ≡ serve_first size false endpoint EndpointState.Running (Some item)) }
{
    match progress_of(&endpoint, size, &item) {
        Some(progress) => serve_on(alloc, endpoint, size, item, progress),
        None => serve_by_share(alloc, endpoint, size, item),
    }
}

/// It takes an answer that leaves it open: none of those that it took is looked at.
fn serve_on(
    alloc: Global,
    endpoint: Endpoint,
    size: u16,
    item: Item,
    progress: Progress,
) -> Result<EndpointEffect, AllocError>
    requires { GoesOn size endpoint item progress }
    ensures { IfOk result (λ d. d ≡ serve_first size false endpoint EndpointState.Running (Some item)) }
{
    let (n, size) = (item.n, usize::from(size));
    let sent = Outcome::open_with(sent_now(alloc, &item.request, size, progress)?);
    let bytes = bytes_now(&item.request, size, progress, &sent)?;
    let answers = next_answer(alloc, &endpoint)?;
    let reply = said(n, answers.as_slice(), bytes);
    let endpoint = gone_on(endpoint, item, answers, sent.packets)?;
    Ok(EndpointEffect::only_says(alloc, endpoint, reply))
}

/// What is said of a transfer that goes on, of which so many bytes moved.
fn said(n: u64, answers: &[Response], bytes: u32) -> Reply
    ensures { result ≡ (if is_no_packet answers.now then reply.Nak n else reply.Moved n bytes) }
{
    if is_no_packet(answers) {
        Reply::Nak { n }
    } else {
        Reply::Moved { n, bytes }
    }
}

/// The endpoint after its first waiting transfer took these answers, and its device received these packets.
fn gone_on(
    mut endpoint: Endpoint,
    item: Item,
    answers: Script,
    sent: Sequence<Bytes>,
) -> Result<Endpoint, AllocError>
    ensures { IfOk result (λ e. e ≡ record endpoint {
      line = with_first (record item { share = item.share ++ answers }) endpoint.line;
      script_left = drop 1 endpoint.script_left;
      packets_received = endpoint.packets_received ++ sent;
    }) }
{
    endpoint.line = with_first(endpoint.line, with_answers(item, answers)?);
    endpoint.script_left.pass_first();
    endpoint.packets_received = endpoint.packets_received.append(sent)?;
    Ok(endpoint)
}

/// It takes an answer, and what comes of it is read off all that it took.
#[tactic(auto, unfolding(usb_model::specs::Endpoint::Serve::serve_first, usb_model::specs::Endpoint::Serve::serve_by))]
fn serve_by_share(
    alloc: Global,
    endpoint: Endpoint,
    size: u16,
    item: Item,
) -> Result<EndpointEffect, AllocError>
    ensures { IfOk result (λ d. d ≡ serve_first size false endpoint EndpointState.Running (Some item)) }
{
    let n = item.n;
    let before = outcome_of(alloc, size, &item)?;
    let answers = next_answer(alloc, &endpoint)?;
    let mut item = with_answers(item, next_answer(alloc, &endpoint)?)?;
    let after = outcome(
        alloc,
        &item.request,
        size,
        item.share.as_slice(),
        endpoint.device_halted,
    )?
    .unwrap_or(Outcome::open_with(Vec::new(alloc)));
    let Some(code) = after.code else {
        let reply = moved(n, answers.as_slice(), &before, &after)?;
        let endpoint = answered(alloc, endpoint, item, &before, &after)?;
        return Ok(EndpointEffect::only_says(alloc, endpoint, reply));
    };
    item.state = ItemState::Served(code);
    let endpoint = answered(alloc, endpoint, item, &before, &after)?;
    let endpoint = halted_by(endpoint, code, is_stall(answers.as_slice()));
    ended(alloc, endpoint, n, code)
}

/// The endpoint after the end of a transfer with this code; `stalled`: whether the device stalled now.
fn halted_by(mut endpoint: Endpoint, code: u8, stalled: bool) -> Endpoint
    ensures { result ≡ record endpoint {
      device_halted = endpoint.device_halted || stalled;
      state = if halts code then EndpointState.Halted else endpoint.state;
    } }
{
    endpoint.device_halted = endpoint.device_halted || stalled;
    if halts(code) {
        endpoint.state = EndpointState::Halted;
    }
    endpoint
}

/// It is told that a transfer ended with this code.
fn ended(alloc: Global, endpoint: Endpoint, n: u64, code: u8) -> Result<EndpointEffect, AllocError>
    ensures { IfOk result (λ d. d ≡ record {
      reply = reply.Ended n code;
      endpoint = endpoint;
      orders = [];
      news = Event.Finished n code ∷ [];
      results = [];
    }) }
{
    let news = vec![in alloc; Event::Finished { n, code }]?;
    let mut done = EndpointEffect::only_says(alloc, endpoint, Reply::Ended { n, code });
    done.news = Sequence::from_vec(news);
    Ok(done)
}

/// The endpoint after its first waiting transfer took the answer and became this one.
fn answered(
    alloc: Global,
    mut endpoint: Endpoint,
    item: Item,
    before: &Outcome,
    after: &Outcome,
) -> Result<Endpoint, AllocError>
    ensures { IfOk result (λ e. e ≡ answered endpoint item item before.now after.now) }
{
    let taken = acknowledged(alloc, &item.request.body, before, after)?;
    endpoint.line = with_first(endpoint.line, item);
    if !endpoint.device_halted {
        endpoint.script_left.pass_first();
    }
    endpoint.packets_received = endpoint.packets_received.append(taken)?;
    Ok(endpoint)
}

/// The answer that is taken now: none of a halted device, which stalls, and none at the script's end, where it naks.
fn next_answer(alloc: Global, endpoint: &Endpoint) -> Result<Script, AllocError>
    ensures { IfOk result (λ answers. answers ≡ next_answer endpoint.now) }
{
    let mut answers = Vec::new(alloc);
    if !endpoint.device_halted {
        if let Some(answer) = endpoint.script_left.as_slice().first() {
            answers.push(answer.clone()?)?;
        }
    }
    Ok(Sequence::from_vec(answers))
}

/// The transfer with these answers behind those that it took.
fn with_answers(mut item: Item, answers: Script) -> Result<Item, AllocError>
    ensures { IfOk result (λ x. x ≡ record item { share = item.share ++ answers }) }
{
    item.share = item.share.append(answers)?;
    Ok(item)
}

/// Whether the answer stalls.
fn is_stall(answers: &[Response]) -> bool
    ensures { result ≡ is_stall answers.now }
{
    matches!(answers, [Response::Stall, ..])
}

/// Whether there is no answer, or a packet that wasn't ready.
fn is_no_packet(answers: &[Response]) -> bool
    ensures { result ≡ is_no_packet answers.now }
{
    matches!(answers, [] | [Response::Nak, ..])
}

/// What is said of a transfer that goes on.
fn moved(
    n: u64,
    answers: &[Response],
    before: &Outcome,
    after: &Outcome,
) -> Result<Reply, AllocError>
    ensures { IfOk result (λ r. r ≡ (if is_no_packet answers.now then reply.Nak n else reply.Moved n (count_of after.now - count_of before.now))) }
{
    let bytes = after.count()?.saturating_sub(before.count()?);
    Ok(said(n, answers, bytes))
}

/// The packets for the device that were acknowledged now: those of the outcome after it, and not before it.
fn acknowledged(
    alloc: Global,
    body: &Body,
    before: &Outcome,
    after: &Outcome,
) -> Result<Sequence<Bytes>, AllocError>
    ensures { IfOk result (λ packets. packets ≡ acknowledged body.now before.now after.now) }
{
    match body {
        Body::In(_) => Ok(Sequence::new(alloc)),
        Body::Out(_) => {
            let packets = past(after.packets.as_slice(), before.packets.len());
            Ok(Sequence::from_vec(Vec::from_clones(alloc, packets)?))
        }
    }
}
