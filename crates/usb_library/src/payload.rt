//! What is kept with a transfer.

use usb_core::{Ruled, StoredCallback};

/// Whom payloads of a type suit: for contracts alone. No value of it is made.
pub trait Suiting<P> {
    ghost use Rattle.std.specs.Prelude.{ℕ};

    /// Whether a payload may be kept with a transfer of this name.
    ghost suits: { P → ℕ → Type 0 };
}

/// Each payload suits each name.
pub struct Anyone;

impl<P> Suiting<P> for Anyone {
    ghost use Rattle.std.specs.Prelude.{⊤};

    ghost suits = { λ payload h. ⊤ };
}

/// What is kept with a transfer from its submission on, until it goes out with its result: mostly a callback. Whoever submits gives
/// one that suits the name; so what goes out suits the name whose result it is.
pub trait Payload: Drop {
    /// Whom it suits; `Anyone`, where that is no matter.
    type Whom: Suiting<Self>;
}

impl Payload for Ruled {
    type Whom = Anyone;
}

impl Payload for StoredCallback {
    type Whom = Anyone;
}

impl Payload for u64 {
    type Whom = Anyone;
}
