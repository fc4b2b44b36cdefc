//! The controller carries out an order (xHCI 1.2, 4.6.8 to 4.6.10).

ghost use Rattle.std.specs.Prelude.{◌≡◌, IfOk};
ghost use Rattle.usb_model.specs.Endpoint.{first_waiting};
ghost use Rattle.usb_model.specs.Endpoint.Command.{pause_of, ran, command};

use crate::line::first_waiting;
use crate::outcome::outcome_of;
use std::alloc::{AllocError, Global};
use usb_model::{Endpoint, EndpointEffect, EndpointState, EpAddr, Errand, Event, Reply, Sequence};

/// The order is carried out, or fails: Stop of an endpoint that isn't running, Reset of one that isn't halted, and
/// Move at one that isn't stopped.
#[tactic(auto, unfolding(usb_model::specs::Endpoint::Command::command))]
pub fn command(
    alloc: Global,
    mut endpoint: Endpoint,
    size: u16,
    ep: EpAddr,
    errand: Errand,
) -> Result<EndpointEffect, AllocError>
    ensures { IfOk result (λ d. d ≡ command size ep endpoint errand endpoint.state) }
{
    match (errand, endpoint.state) {
        (Errand::Stop, EndpointState::Running) => {
            let news = pause(alloc, &endpoint, size)?;
            endpoint.state = EndpointState::Stopped;
            ran(alloc, endpoint, ep, errand, true, news)
        }
        (Errand::Reset, EndpointState::Halted) => {
            endpoint.state = EndpointState::Stopped;
            ran(alloc, endpoint, ep, errand, true, Vec::new(alloc))
        }
        (Errand::Move, EndpointState::Stopped) => ran(
            alloc,
            endpoint,
            ep,
            errand,
            true,
            Vec::new(alloc),
        ),
        _ => ran(alloc, endpoint, ep, errand, false, Vec::new(alloc)),
    }
}

/// The news that the first waiting transfer is paused, if it has moved a packet.
fn pause(alloc: Global, endpoint: &Endpoint, size: u16) -> Result<Vec<Event>, AllocError>
    ensures { IfOk result (λ v. v.items ≡ pause_of size (first_waiting endpoint.now.line)) }
{
    let mut news = Vec::new(alloc);
    if let Some(item) = first_waiting(endpoint.line.as_slice()) {
        if !outcome_of(alloc, size, item)?.packets.is_empty() {
            news.push(Event::Paused { n: item.n })?;
        }
    }
    Ok(news)
}

/// The order was carried out, or failed, with this news before its own.
fn ran(
    alloc: Global,
    endpoint: Endpoint,
    ep: EpAddr,
    errand: Errand,
    ok: bool,
    mut news: Vec<Event>,
) -> Result<EndpointEffect, AllocError>
    ensures { IfOk result (λ d. d ≡ ran ep errand ok endpoint news.items) }
{
    news.push(Event::Settled { errand, ok })?;
    let mut done = EndpointEffect::only_says(alloc, endpoint, Reply::Ran { ep, errand, ok });
    done.news = Sequence::from_vec(news);
    Ok(done)
}
