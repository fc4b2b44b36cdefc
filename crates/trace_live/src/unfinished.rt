//! What never completes: what handles hadn't finished when all was at rest.

ghost use Rattle.std.specs.Prelude.{◌≡◌, IfOk};
ghost use Rattle.std.specs.List.{filter};
ghost use Rattle.usb_model.specs.Setup.{Setup as ModelSetup};
ghost use Rattle.usb_model.specs.World.{World};
ghost use Rattle.usb_core.specs.Public.{ShowsWorld};
ghost use Rattle.trace_left.specs.Left.{all_left};
ghost use Rattle.trace_threads.specs.Unfinished.{is_unfinished};

use std::alloc::{AllocError, Global};
use trace_left::{Left, Thing, left_behind};
use usb_core::Core;
use usb_device::Scripted;

/// Whether this is of a transfer or an order that isn't over.
fn is_unfinished(left: &Left) -> bool
    ensures { result ≡ is_unfinished left.now }
{
    match left {
        Left::Open { .. } | Left::Held { .. } => false,
        Left::At { thing, .. } => !matches!(thing, Thing::IsHalted | Thing::Unused { .. }),
    }
}

/// Those of these.
fn unfinished_of(alloc: Global, left: &[Left]) -> Result<Vec<Left>, AllocError>
    ensures { IfOk result (λ unfinished. unfinished.items ≡ filter is_unfinished left.now) }
{
    left.iter()
        .filter(|x| is_unfinished(x))
        .copied()
        .collect(alloc)
}

/// What the handles haven't finished in the world of a core: transfers, and the orders, events, results and callbacks that are about them. An
/// error where memory is refused.
pub(crate) fn unfinished_in<P: Drop, D: Scripted>(
    alloc: Global,
    core: Core<P, D>,
) -> Result<Vec<Left>, AllocError>
    ensures { (setup : ModelSetup) (w : World) → ShowsWorld setup core w → IfOk result (λ left. left.items ≡ filter is_unfinished (all_left setup w)) }
{
    let left = left_behind(alloc, core)?;
    unfinished_of(alloc, left.as_slice())
}
