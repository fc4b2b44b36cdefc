//! The tests of the end of a halt and of a submission, over the facts that they look at.

ghost use Rattle.std.specs.Prelude.{◌≡◌, ◌+◌, ◌==◌, ◌||◌, nat_le, not, None, Some, if◌then◌else◌};
ghost use Rattle.usb_model.specs.declared.refusal.Obstacle.TheVariants.{Full, Numbers};
ghost use Rattle.usb_model.specs.declared.request.Body.TheVariants.{Out};
ghost use Rattle.usb_model.specs.Limits.{last_number, most_places};
ghost use Rattle.usb_model.specs.Refusals.{clear_tests, first_reason, is_bad, kept_by, misfit_of, request_facts, submit_tests};
ghost use Rattle.usb_model.specs.Requests.{is_same_kind};

use crate::quiet::in_way;
use usb_model::limits::{LAST_NUMBER, MOST_BYTES, MOST_PLACES};
use usb_model::{
    Body, Bytes, DeviceNo, EndpointFacts, Misfit, Obstacle, Places, Refusal, Request, RequestFacts,
};

/// What the tests look at of a request.
pub(crate) fn request_facts(request: &Request) -> RequestFacts
    ensures { result ≡ request_facts request.now }
{
    RequestFacts {
        kind: request.kind,
        reads: matches!(request.body, Body::In(_)),
        bytes: request.body.length(),
    }
}

/// The same of the request with these bytes for the device.
pub(crate) fn facts_with(request: &Request, bytes: &Bytes) -> RequestFacts
    ensures { result ≡ request_facts (record request.now { body = Out bytes.now }) }
{
    RequestFacts {
        kind: request.kind,
        reads: false,
        bytes: bytes.len(),
    }
}

/// Why a halt can't be ended; `gone`: whether the device is.
pub(crate) fn clear_refusal(dev: DeviceNo, gone: bool, endpoint: EndpointFacts) -> Option<Refusal>
    ensures { result ≡ first_reason (clear_tests (record { device = Some dev; gone = gone }) endpoint) }
{
    if gone {
        Some(Refusal::NoDevice { dev })
    } else if endpoint.line != 0 {
        Some(Refusal::Busy(in_way(endpoint.ep, endpoint.first, endpoint.errand)))
    } else {
        None
    }
}

/// What is wrong with a request for an endpoint, if something is.
fn misfit(endpoint: EndpointFacts, request: RequestFacts) -> Option<Misfit>
    ensures { result ≡ (if not (is_same_kind request.kind endpoint.kind) || is_bad endpoint.ep request.reads request.bytes then Some (misfit_of endpoint request) else None) }
{
    let (ep, kind, asked, bytes) = (endpoint.ep, endpoint.kind, request.kind, request.bytes);
    let into = ep.is_in();
    if !asked.is_same(kind) {
        Some(Misfit::Kind { ep, kind, asked })
    } else if request.reads && !into {
        Some(Misfit::Reads { ep })
    } else if !request.reads && into {
        Some(Misfit::Writes { ep })
    } else if MOST_BYTES < bytes {
        Some(Misfit::Bytes { bytes })
    } else {
        None
    }
}

/// Why an endpoint, or whoever calls, takes no transfer more. `next`: the number that it would have.
fn no_room(endpoint: EndpointFacts, next: u64) -> Option<Obstacle>
    ensures { result ≡ (if nat_le most_places (endpoint.line + endpoint.untaken) then Some (Full endpoint.ep (kept_by endpoint)) else if next == last_number then Some Numbers else None) }
{
    let EndpointFacts {
        ep,
        line,
        waiting,
        untaken,
        ..
    } = endpoint;
    let by = Places {
        waiting,
        blank: line.saturating_sub(waiting),
        untaken,
    };
    if MOST_PLACES <= line || MOST_PLACES - line <= untaken {
        Some(Obstacle::Full { ep, by })
    } else if next == LAST_NUMBER {
        Some(Obstacle::Numbers)
    } else {
        None
    }
}

/// Why a submission is refused, if it is.
pub(crate) fn submit_refusal(
    dev: DeviceNo,
    gone: bool,
    endpoint: EndpointFacts,
    request: RequestFacts,
    next: u64,
) -> Option<Refusal>
    ensures { result ≡ first_reason (submit_tests (record { device = Some dev; gone = gone }) endpoint request next) }
{
    let EndpointFacts { ep, kind, .. } = endpoint;
    if gone {
        return Some(Refusal::NoDevice { dev });
    }
    if kind.is_unsupported() {
        return Some(Refusal::NotSupported { ep, kind });
    }
    match misfit(endpoint, request) {
        Some(misfit) => Some(Refusal::InvalidParam(misfit)),
        None => Some(Refusal::Busy(no_room(endpoint, next)?)),
    }
}
