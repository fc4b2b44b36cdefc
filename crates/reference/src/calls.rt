//! What a handle asks of one of its endpoints.

ghost use Rattle.std.specs.Prelude.{◌≡◌, false, IfOk};
ghost use Rattle.std.specs.Option.{option_copied};
ghost use Rattle.usb_model.specs.Machine.Calls.{submitted, asks};
ghost use Rattle.usb_model.specs.Endpoint.{in_progress};

use crate::line;
use crate::line::with_ask;
use std::alloc::{AllocError, Global};
use usb_model::{Ask, Endpoint, EndpointEffect, Errand, Item, Reply, Request, Sequence};

/// A transfer joins the line, under this number.
pub fn submit(
    alloc: Global,
    mut endpoint: Endpoint,
    n: u64,
    request: Request,
    round: u64,
) -> Result<EndpointEffect, AllocError>
    ensures { IfOk result (λ d. d ≡ submitted n request round endpoint) }
{
    let mut items = endpoint.line.into_vec();
    items.push(Item::new(alloc, n, request, round))?;
    endpoint.line = Sequence::from_vec(items);
    Ok(EndpointEffect::only_says(alloc, endpoint, Reply::Number(n)))
}

/// The transfer of this number, in progress: the first of this number that is no blank.
pub fn in_progress(endpoint: &Endpoint, n: u64) -> Option<&Item>
    ensures { option_copied result ≡ in_progress n endpoint.now.line }
{
    line::in_progress(endpoint.line.as_slice(), n)
}

/// The transfer of this number has this ask; Stop is ordered where no errand is under way.
#[tactic(auto, unfolding(usb_model::specs::Machine::Calls::asks))]
pub fn set_ask(
    alloc: Global,
    mut endpoint: Endpoint,
    n: u64,
    ask: Ask,
) -> Result<EndpointEffect, AllocError>
    ensures { IfOk result (λ d. d ≡ asks endpoint n ask) }
{
    let mut orders = Vec::new(alloc);
    if endpoint.errand.is_none() {
        orders.push(Errand::Stop)?;
        endpoint.errand = Some(Errand::Stop);
    }
    endpoint.line = with_ask(alloc, endpoint.line, n, ask)?;
    let mut done = EndpointEffect::only_says(alloc, endpoint, Reply::Done);
    done.orders = Sequence::from_vec(orders);
    Ok(done)
}

/// The device's halt ends, and its script goes on (USB 2.0, 9.4.1, ENDPOINT_HALT).
pub fn unhalt(mut endpoint: Endpoint) -> Endpoint
    ensures { result ≡ record endpoint { device_halted = false } }
{
    endpoint.device_halted = false;
    endpoint
}
