//! Transfers in their callbacks.

ghost use Rattle.std.specs.Prelude.{◌≡◌, ◌==◌, IfOk};
ghost use Rattle.std.specs.List.{find};
ghost use Rattle.std.specs.Option.{option_copied};
ghost use Rattle.usb_model.specs.Machine.Calls.{callback_of, without};

use std::alloc::{AllocError, Global};
use usb_model::{Handle, InCallback, Sequence};

/// These without the transfers of a number.
#[tactic(auto, using(crate::proofs::InCallbacks::out_more, crate::proofs::InCallbacks::stays_more), unfolding(usb_model::specs::Machine::Calls::without))]
fn others(
    alloc: Global,
    n: u64,
    all: Sequence<InCallback>,
) -> Result<Sequence<InCallback>, AllocError>
    ensures { IfOk result (λ xs. xs ≡ without n all) }
{
    let mut left = Sequence::new(alloc);
    for x in all.into_vec() {
        if x.n != n {
            left.push(x)?;
        }
    }
    Ok(left)
}

/// The first of these of this number.
fn first_of(n: u64, all: &[InCallback]) -> Option<&InCallback>
    ensures { option_copied result ≡ find (λ x. x.n == n) all.now }
{
    all.iter().find(|x| x.n == n)
}

/// The transfer of this number, in its callback.
#[tactic(auto, using(crate::proofs::InCallbacks::first_is_found))]
pub fn callback_of(handle: &Handle, n: u64) -> Option<&InCallback>
    ensures { option_copied result ≡ callback_of n handle.now.in_callbacks }
{
    first_of(n, handle.in_callbacks.as_slice())
}

/// The handle after that callback ended.
pub(crate) fn without(alloc: Global, handle: Handle, n: u64) -> Result<Handle, AllocError>
    ensures { IfOk result (λ x. x ≡ record handle { in_callbacks = without n handle.in_callbacks }) }
{
    Ok(Handle {
        device: handle.device,
        next_number: handle.next_number,
        in_callbacks: others(alloc, n, handle.in_callbacks)?,
    })
}
