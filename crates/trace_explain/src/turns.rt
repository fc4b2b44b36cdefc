//! The reasons of the steps of device, controller and event loop.

ghost use Rattle.std.specs.Prelude.{◌≡◌};
ghost use Rattle.reference.specs.System.{world_of};
ghost use Rattle.trace_explain.specs.Endings.{answer_reason, unready_by};
ghost use Rattle.trace_explain.specs.Turns.{command_reason, deliver_reason, errand_reason, first_reason, held_reason, outcome_of, serve_reason, take_reason, unheld};
ghost use Rattle.usb_model.specs.Endpoint.{first_waiting};
ghost use Rattle.usb_model.specs.Setup.{interface_of, is_device};
ghost use Rattle.std.specs.Option.{option_copied};

use crate::answers::next_answer;
use crate::caller::Caller;
use crate::endpoints::EndpointList;
use crate::ends::{End, answer_end};
use crate::sentence::{CalledWith, Idleness, Reason, TransferEnd, Unready};
use reference::System;
use usb_model::{
    Body, DeviceNo, Endpoint, EndpointState, EpAddr, Errand, Item, Response, Setup, TransferResult,
};

/// The first of a line that waits.
#[tactic(auto, unfolding(usb_model::specs::Endpoint::first_waiting))]
fn first_waiting(line: &[Item]) -> Option<&Item>
    ensures { option_copied result ≡ first_waiting line.now }
{
    match line {
        [] => None,
        [first, ..] if first.is_waiting() => Some(first),
        [_, rest @ ..] => first_waiting(rest),
    }
}

/// Why a device gives no packet by these answers, if it gives none.
fn unready(ep: EpAddr, halted: bool, answers: &[Response]) -> Option<Unready>
    ensures { result ≡ unready_by ep halted answers.now }
{
    match answers {
        [] if halted => Some(Unready::Halted { ep }),
        [] => Some(Unready::ScriptEnd { ep }),
        [Response::Nak, ..] => Some(Unready::Nak { ep }),
        _ => None,
    }
}

/// Why a transfer ended, or the device gave no packet.
fn answer_reason(ep: EpAddr, endpoint: &Endpoint, item: &Item, end: Option<End>) -> Option<Reason>
    ensures { result ≡ answer_reason ep endpoint.now item.now end }
{
    match end {
        Some(end) => Some(Reason::Ended(end.ending(ep, endpoint, item))),
        None => {
            let answers = next_answer(endpoint);
            Some(Reason::Nak(unready(ep, endpoint.device_halted, answers)?))
        }
    }
}

/// What is to say of a device's answer at an endpoint; `gone`: whether the device is.
fn first_reason(
    size: u16,
    dev: DeviceNo,
    ep: EpAddr,
    gone: bool,
    endpoint: &Endpoint,
) -> Option<Reason>
    ensures { let e = endpoint.now in result ≡ first_reason size dev ep gone e e.state (first_waiting e.line) }
{
    let state = endpoint.state;
    if state != EndpointState::Running {
        return Some(Reason::Idle(Idleness::Stands { ep, state }));
    }
    let Some(item) = first_waiting(endpoint.line.as_slice()) else {
        return Some(Reason::Idle(Idleness::NoTransfer { ep }));
    };
    if gone {
        return Some(Reason::Ended(TransferEnd::Unplugged { dev }));
    }
    answer_reason(ep, endpoint, item, answer_end(size, endpoint, item))
}

/// Why no handle holds an endpoint.
fn unheld(setup: &Setup, dev: DeviceNo, ep: EpAddr) -> Idleness
    ensures { result ≡ unheld setup.now dev ep (is_device setup.now dev) (interface_of setup.now dev ep) }
{
    if !setup.is_device(dev) {
        return Idleness::NoDevice { dev };
    }
    match setup.interface_of(dev, ep) {
        None => {
            let list = EndpointList::of(setup.endpoints_of(dev));
            Idleness::NoEndpoint { dev, ep, list }
        }
        Some(_) => Idleness::NoHolder { dev, ep },
    }
}

/// What is to say of a device that answers one packet.
#[tactic(auto, unfolding(crate::specs::Turns::serve_reason, crate::specs::Turns::held_reason))]
pub(crate) fn serve_reason(
    setup: &Setup,
    system: &System,
    dev: DeviceNo,
    ep: EpAddr,
) -> Option<Reason>
    ensures { result ≡ serve_reason setup.now (world_of setup.now system.now) dev ep }
{
    if system.holder(setup, dev, ep).is_none() {
        return Some(Reason::Idle(unheld(setup, dev, ep)));
    }
    let endpoint = system.endpoints.get(dev, ep.address());
    let size = setup.packet_size_of(dev, ep);
    first_reason(size, dev, ep, system.is_gone(dev), endpoint)
}

/// Why an order fails at an endpoint in this state, if it does.
fn errand_reason(ep: EpAddr, errand: Errand, state: EndpointState) -> Option<Reason>
    ensures { result ≡ errand_reason ep errand state }
{
    match (errand, state) {
        (Errand::Stop, EndpointState::Running)
        | (Errand::Reset, EndpointState::Halted)
        | (Errand::Move, EndpointState::Stopped) => None,
        _ => Some(Reason::Failed { ep, state }),
    }
}

/// What is to say of the first order.
#[tactic(auto, unfolding(crate::specs::Turns::command_reason))]
pub(crate) fn command_reason(setup: &Setup, system: &System) -> Option<Reason>
    ensures { let w = world_of setup.now system.now in result ≡ command_reason setup.now w w.orders }
{
    let [first, ..] = system.orders.as_slice() else {
        return Some(Reason::Idle(Idleness::NoOrder));
    };
    let (h, order) = (first.name, first.piece);
    match Caller::new(setup, system, h).own(order.ep) {
        None => Some(Reason::Idle(Idleness::Lost { h, ep: order.ep })),
        Some((_, endpoint)) => errand_reason(order.ep, order.errand, endpoint.state),
    }
}

/// What is to say of the first piece of news.
#[tactic(auto, unfolding(crate::specs::Turns::deliver_reason))]
pub(crate) fn deliver_reason(setup: &Setup, system: &System) -> Option<Reason>
    ensures { let w = world_of setup.now system.now in result ≡ deliver_reason setup.now w w.news }
{
    let [first, ..] = system.news.as_slice() else {
        return Some(Reason::Idle(Idleness::NoEvent));
    };
    let (h, ep) = (first.name, first.piece.ep);
    match Caller::new(setup, system, h).own(ep) {
        None => Some(Reason::Idle(Idleness::Lost { h, ep })),
        Some(_) => None,
    }
}

/// What a result tells its callback.
fn outcome_of(ended: &TransferResult) -> CalledWith
    ensures { result ≡ outcome_of ended.now }
{
    let request = &ended.request;
    let reads = matches!(request.body, Body::In(_));
    CalledWith {
        status: ended.status,
        moved: ended.actual as usize,
        bytes: request.body.length(),
        short_not_ok: reads && request.is_short_not_ok(),
    }
}

/// What is to say of the oldest result.
#[tactic(auto, unfolding(crate::specs::Turns::take_reason))]
pub(crate) fn take_reason(system: &System) -> Option<Reason>
    ensures { result ≡ take_reason system.now.results }
{
    match system.results.as_slice() {
        [] => Some(Reason::Idle(Idleness::NoResult)),
        [first, ..] => Some(Reason::Called(outcome_of(&first.piece))),
    }
}
