//! What came of a transfer.

ghost use Rattle.std.specs.Prelude.{◌≡◌, IfOk};
ghost use Rattle.usb_model.specs.Endpoint.{bytes_read, result_of};
ghost use Rattle.usb_model.specs.Endpoint.Deliver.{withdrawn};

use crate::outcome::outcome_of;
use std::alloc::{AllocError, Global};
use usb_model::completion::{STOPPED, told_status};
use usb_model::{Body, Bytes, Item, Outcome, Sequence, TransferResult};

/// The result of a transfer that ended with this code; `gone`: whether its device is.
#[tactic(auto, unfolding(usb_model::specs::Endpoint::result_of))]
pub(crate) fn result_of(
    alloc: Global,
    size: u16,
    gone: bool,
    code: u8,
    item: &Item,
) -> Result<TransferResult, AllocError>
    ensures { IfOk result (λ r. r ≡ result_of size gone code item.now) }
{
    let request = &item.request;
    let outcome = outcome_of(alloc, size, item)?;
    let actual = outcome.count()?;
    Ok(TransferResult {
        n: item.n,
        request: request.clone()?,
        round: item.round,
        status: told_status(
            gone,
            code,
            item.ask,
            request.is_short_not_ok(),
            request.body.length(),
            actual,
        ),
        actual,
        bytes: bytes_read(alloc, &request.body, &outcome)?,
    })
}

/// The bytes that a callback is given: those that were read.
fn bytes_read(alloc: Global, body: &Body, outcome: &Outcome) -> Result<Bytes, AllocError>
    ensures { IfOk result (λ bytes. bytes ≡ bytes_read body.now outcome.now) }
{
    match body {
        Body::In(_) => outcome.joined(alloc),
        Body::Out(_) => Ok(Sequence::new(alloc)),
    }
}

/// The results of what is withdrawn, in line order.
#[tactic(auto, unfolding(usb_model::specs::Endpoint::Deliver::withdrawn))]
pub(crate) fn withdrawn(
    alloc: Global,
    size: u16,
    line: &[Item],
) -> Result<Vec<TransferResult>, AllocError>
    ensures { IfOk result (λ v. v.items ≡ withdrawn size line.now) }
{
    let mut results = Vec::new(alloc);
    for item in line {
        if item.is_withdrawn() {
            results.push(result_of(alloc, size, false, STOPPED, item)?)?;
        }
    }
    Ok(results)
}
