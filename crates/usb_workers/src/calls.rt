//! A handle's step, by the call that it is.

ghost use Rattle.std.specs.Prelude.{◌≡◌, IfNone, IfOk, IfSome, OnErr, Some, is_some};
ghost use Rattle.usb_model.specs.Setup.{Setup};
ghost use Rattle.usb_model.specs.World.{World, owner_of};
ghost use Rattle.usb_library.specs.Calls.{Makes, misses};
ghost use Rattle.usb_workers.specs.Steps.{caller_of};

use std::alloc::AllocError;
use std::sync::Wait;
use usb_device::Device;
use usb_journal::{Naming, Recorder};
use usb_library::{Answered, Caller, Library, Payload};
use usb_model::{Name, Step};

/// The handle that makes a step which submits nothing, whose entry is that handle's; None of what workers and callbacks do.
pub fn handle_of(step: &Step) -> Option<Name>
    ensures caller { result ≡ caller_of step.now }
    ensures own { IfSome result (λ h. (setup : Setup) (w : World) → owner_of setup w step.now ≡ Some h) }
{
    match step {
        Step::Open { h, .. } | Step::Close { h } | Step::Claim { h, .. } => Some(*h),
        Step::Release { h, .. } | Step::Reset { h } | Step::ClearHalt { h, .. } => Some(*h),
        Step::Cancel { h, .. } => Some(*h),
        _ => None,
    }
}

/// Makes such a step, by the call that it is. None where it is none. An error where memory is refused, which the caller counts.
pub fn make<L: Naming, C: Payload, D: Device, J: Recorder, R: Wait>(
    rt: &R,
    library: &Library<L, C, D, J>,
    caller: &mut Caller<L>,
    step: Step,
) -> Result<Option<Answered<L>>, AllocError>
    ensures made { IfOk result (λ x. IfSome x (λ a. Makes L.setup step caller.old caller.new a.receipt)) }
    ensures entry { IfOk result (λ x. IfSome x (λ a. a.entry ≡ a.receipt.entry.entry)) }
    ensures answers { IfOk result (λ x. is_some x ≡ is_some (caller_of step)) }
    ensures none { IfOk result (λ x. IfNone x (caller.new ≡ caller.old)) }
    ensures refused { OnErr result (caller.new ≡ misses caller.old) }
{
    let answered = match step {
        Step::Open { h, dev } => library.open(rt, caller, h, dev)?,
        Step::Close { h } => library.close(rt, caller, h)?,
        Step::Claim { h, i } => library.claim(rt, caller, h, i)?,
        Step::Release { h, i } => library.release(rt, caller, h, i)?,
        Step::Reset { h } => library.reset(rt, caller, h)?,
        Step::ClearHalt { h, ep } => library.clear_halt(rt, caller, h, ep)?,
        Step::Cancel { h, n } => library.cancel(rt, caller, h, n)?,
        _ => return Ok(None),
    };
    Ok(Some(answered))
}
