//! A value that clauses alone read.

ghost use Rattle.std.specs.Borrow.{ftrue};
ghost use Rattle.std.specs.Prelude.{◌≡◌};

use std::marker::{Model, PhantomData};

/// A value as clauses see it. It has no bytes and owns nothing, and so it may cross threads whatever the value is.
///
/// It is what `std::snapshot::Snapshot` is; but of a struct that has one of those the prover doesn't find by itself that it
/// may be sent to a thread, and of a struct that has one of these it does.
#[derive(Drop)]
pub struct Image<T> {
    of: PhantomData<T>,
    /// The value.
    pub ghost value: { T },
}

impl<T> Model for Image<T> {
    ghost also_owns = { λ _. ftrue };
}

// It owns nothing, so that any thread may have it; proofs/image/Image/TheSendSync shows that.
unsafe impl<T> Send for Image<T> {}

// And any thread may look at it.
unsafe impl<T> Sync for Image<T> {}

impl<T> Image<T> {
    /// What stands there now.
    pub fn of(value: &T) -> Image<T>
        ensures { result.value ≡ value.now }
    {
        let _ = value;
        Image { of: PhantomData }
    }
}
