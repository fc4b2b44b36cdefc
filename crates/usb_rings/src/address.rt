//! Which place of a ring an address names.

ghost use Rattle.std.specs.Prelude.{◌≡◌, ◌+◌, ◌-◌, ◌*◌, ◌%◌, ◌<◌, ℕ, IfSome, Some};

use usb_trb::Pointer;

/// How many places an index stands behind another.
pub fn behind(first: usize, at: usize) -> usize
    requires first { first < 127 }
    requires at { at < 127 }
    ensures value { result ≡ (at + 127 - first) % 127 }
    ensures below { result < 127 }
{
    if first <= at {
        at - first
    } else {
        at + 127 - first
    }
}

/// The index of the TRB that has this address.
pub fn index_at(base: Pointer, pointer: u64) -> Option<usize>
    ensures found { (i : ℕ) → i < 127 → pointer ≡ base + 16 * i → result ≡ Some i }
    ensures known { IfSome result (λ i. (i < 127) × (pointer ≡ base + 16 * i)) }
{
    let start = base.address();
    if pointer < start {
        return None;
    }
    let offset = pointer - start;
    if offset % 16 == 0 && offset / 16 < 127 {
        Some((offset / 16) as usize)
    } else {
        None
    }
}
