//! A piece of news is handled: results are made, and what stands in the way is ordered.

ghost use Rattle.std.specs.Prelude.{◌≡◌, ℕ, Bool, IfOk};
ghost use Rattle.usb_model.specs.Endpoint.{in_progress};
ghost use Rattle.usb_model.specs.Endpoint.Deliver.{orders_errand, resume, finished_result, line_after, deliver};

use crate::line::{Line, blanked, in_progress, leads_blank, past_blanks, past_number};
use crate::result::{result_of, withdrawn};
use std::alloc::{AllocError, Global};
use usb_model::completion::halts;
use usb_model::{
    Endpoint, EndpointEffect, EndpointState, EpAddr, Errand, Event, Item, Reply, Sequence,
    TransferResult,
};

/// The news is handled; `gone`: whether the device is.
#[tactic(auto, unfolding(usb_model::specs::Endpoint::Deliver::deliver, usb_model::specs::Endpoint::Deliver::resume))]
pub fn deliver(
    alloc: Global,
    endpoint: Endpoint,
    size: u16,
    ep: EpAddr,
    gone: bool,
    event: Event,
) -> Result<EndpointEffect, AllocError>
    ensures { IfOk result (λ d. d ≡ deliver size ep gone endpoint event) }
{
    match event {
        Event::Finished { n, code } => finish(alloc, endpoint, size, gone, n, code),
        Event::Paused { n } => Ok(EndpointEffect::only_says(alloc, endpoint, Reply::Paused { n })),
        Event::Settled { errand, ok } => settle(alloc, endpoint, size, ep, errand, ok),
    }
}

/// An order was carried out, or failed.
#[tactic(auto, unfolding(usb_model::specs::Endpoint::Deliver::deliver, usb_model::specs::Endpoint::Deliver::resume))]
fn settle(
    alloc: Global,
    mut endpoint: Endpoint,
    size: u16,
    ep: EpAddr,
    errand: Errand,
    ok: bool,
) -> Result<EndpointEffect, AllocError>
    ensures { (gone : Bool) → IfOk result (λ d. d ≡ deliver size ep gone endpoint (Event.Settled errand ok)) }
{
    let reply = Reply::Settled { ep, errand, ok };
    match errand {
        Errand::Stop if ok => resume(alloc, endpoint, size, reply),
        Errand::Stop => orders_errand(alloc, endpoint, Errand::Reset, reply, Vec::new(alloc)),
        Errand::Reset => {
            let results = withdrawn(alloc, size, endpoint.line.as_slice())?;
            endpoint.line = blanked(alloc, endpoint.line)?;
            orders_errand(alloc, endpoint, Errand::Move, reply, results)
        }
        Errand::Move => {
            endpoint.line = past_blanks(alloc, endpoint.line)?;
            resume(alloc, endpoint, size, reply)
        }
    }
}

/// A transfer ended with this code: its result is made, and it leaves the line.
#[tactic(auto, unfolding(usb_model::specs::Endpoint::Deliver::deliver))]
fn finish(
    alloc: Global,
    mut endpoint: Endpoint,
    size: u16,
    gone: bool,
    n: u64,
    code: u8,
) -> Result<EndpointEffect, AllocError>
    ensures { (ep : ℕ) → IfOk result (λ d. d ≡ deliver size ep gone endpoint (Event.Finished n code)) }
{
    let results = finished_result(alloc, size, gone, n, code, endpoint.line.as_slice())?;
    endpoint.line = line_after(alloc, endpoint.line, n, code)?;
    let reply = Reply::Finished { n };
    if halts(code) && endpoint.errand.is_none() {
        return orders_errand(alloc, endpoint, Errand::Reset, reply, results);
    }
    let mut done = EndpointEffect::only_says(alloc, endpoint, reply);
    done.results = Sequence::from_vec(results);
    Ok(done)
}

/// Transfers that were asked to end are withdrawn; where a blank then leads the line, Move is ordered, else the
/// doorbell is rung.
#[tactic(auto, unfolding(usb_model::specs::Endpoint::Deliver::resume))]
fn resume(
    alloc: Global,
    mut endpoint: Endpoint,
    size: u16,
    reply: Reply,
) -> Result<EndpointEffect, AllocError>
    ensures { IfOk result (λ d. d ≡ resume size endpoint reply endpoint.line) }
{
    let results = withdrawn(alloc, size, endpoint.line.as_slice())?;
    endpoint.line = blanked(alloc, endpoint.line)?;
    if leads_blank(endpoint.line.as_slice()) {
        return orders_errand(alloc, endpoint, Errand::Move, reply, results);
    }
    endpoint.errand = None;
    endpoint.state = EndpointState::Running;
    let mut done = EndpointEffect::only_says(alloc, endpoint, reply);
    done.results = Sequence::from_vec(results);
    Ok(done)
}

/// An errand is ordered, and these results are made.
fn orders_errand(
    alloc: Global,
    mut endpoint: Endpoint,
    errand: Errand,
    reply: Reply,
    results: Vec<TransferResult>,
) -> Result<EndpointEffect, AllocError>
    ensures { IfOk result (λ d. d ≡ orders_errand endpoint errand reply results.items) }
{
    let orders = vec![in alloc; errand]?;
    endpoint.errand = Some(errand);
    let mut done = EndpointEffect::only_says(alloc, endpoint, reply);
    done.orders = Sequence::from_vec(orders);
    done.results = Sequence::from_vec(results);
    Ok(done)
}

/// The result of the transfer of this number, in progress, which ended with this code; none where there is none.
fn finished_result(
    alloc: Global,
    size: u16,
    gone: bool,
    n: u64,
    code: u8,
    line: &[Item],
) -> Result<Vec<TransferResult>, AllocError>
    ensures { IfOk result (λ v. v.items ≡ finished_result size gone code (in_progress n line.now)) }
{
    let mut results = Vec::new(alloc);
    if let Some(item) = in_progress(line, n) {
        results.push(result_of(alloc, size, gone, code, item)?)?;
    }
    Ok(results)
}

/// The line that a transfer which ended with this code left, with the blanks before it; and with those behind it where
/// the endpoint went on.
fn line_after(alloc: Global, line: Line, n: u64, code: u8) -> Result<Line, AllocError>
    ensures { IfOk result (λ l. l ≡ line_after n code line) }
{
    let rest = past_number(alloc, line, n)?;
    if halts(code) {
        Ok(rest)
    } else {
        past_blanks(alloc, rest)
    }
}
