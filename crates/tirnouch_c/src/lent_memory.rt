//! Memory that C lends.

ghost use Rattle.std.specs.Prelude.{◌≡◌, ℕ, ◌^◌, ◌<◌, ◌≤◌, List, length};
ghost use Rattle.std.specs.Borrow.{u8};
ghost use Rattle.std_alloc.specs.Vec.Ownership.{lodged};
ghost use Rattle.std_alloc.specs.Vec.{vec_len, vec_capacity, vec_ptr};

use std::marker::Model;
use std_alloc::vec::{Lodged, lodge};

/// Memory that C lends: `len` bytes at `at`, of which the first `filled` stand written. `at` is never null, not even where
/// `len` is 0.
#[repr(C)]
#[derive(Drop)]
pub struct LentMemory {
    pub at: *mut u8,
    pub len: usize,
    pub filled: usize,
    pub ghost bytes: { List ℕ },
    ghost ok: { (filled ≡ length bytes) × (filled ≤ len) × (len < 2 ^ 63) },
}

impl Model for LentMemory {
    ghost also_owns = { λ m. lodged u8 m.at m.filled m.len m.bytes };
}

impl LentMemory {
    /// The memory as a `Vec` that never grows and frees nothing.
    pub fn into_vec(self) -> Vec<u8, Lodged>
        ensures { (result.items ≡ self.bytes) × (vec_len result ≡ self.filled)
            × (vec_capacity result ≡ self.len) × (vec_ptr result ≡ self.at) }
    {
        let LentMemory { at, len, filled } = self;
        unsafe { lodge(at, filled, len) }
    }

    /// The memory of such a `Vec`, to be given back to C.
    pub fn from_vec(vec: Vec<u8, Lodged>) -> LentMemory
        ensures { (result.bytes ≡ vec.items) × (result.filled ≡ vec_len vec)
            × (result.len ≡ vec_capacity vec) × (result.at ≡ vec_ptr vec) }
    {
        let at = vec.as_ptr().cast_mut();
        let len = vec.capacity();
        emptied(vec, at, len)
    }
}

/// The memory of a `Vec` whose pointer and capacity are known.
fn emptied(vec: Vec<u8, Lodged>, at: *mut u8, len: usize) -> LentMemory
    requires { (at ≡ vec_ptr vec) × (len ≡ vec_capacity vec) }
    ensures { (result.bytes ≡ vec.items) × (result.filled ≡ vec_len vec) × (result.len ≡ len) × (result.at ≡ at) }
{
    let filled = vec.dislodge();
    LentMemory { at, len, filled }
}
