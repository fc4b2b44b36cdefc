//! A receipt for one step.

ghost use Rattle.std.specs.Prelude.{◌≡◌};

use crate::naming::Naming;
use std::marker::{Model, PhantomData};
use usb_receipts::Claim;
use usb_recorder::PlaceImage;

/// What stands at a place of the journal. Contracts see the place and all that stands there; it has the bytes of the
/// place's number alone.
#[derive(Drop)]
pub struct Receipt<L: Naming> {
    pub(crate) place: u64,
    pub(crate) claim: Claim<PlaceImage>,
    pub(crate) library: PhantomData<L>,
}

impl<L: Naming> Model for Receipt<L> {
    ghost use Rattle.std.specs.Prelude.{◌≡◌, [], ◌∷◌};
    ghost use Rattle.usb_journal.specs.Seen.{Receipted, told};

    ghost Value = { Receipted };

    ghost view = { λ r. record { place = r.place; entry = told r.claim.claims } };

    ghost invariant = { λ r. (r.claim.log ≡ L.table) × (r.claim.claims ≡ (r.place, told r.claim.claims) ∷ []) };
}

impl<L: Naming> Receipt<L> {
    /// The number of the place, from 0 on.
    pub fn place(&self) -> u64
        ensures { result ≡ self.now.place }
    {
        self.place
    }
}
