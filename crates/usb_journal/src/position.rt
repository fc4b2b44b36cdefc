//! What a caller carries between its calls.

ghost use Rattle.std.specs.Prelude.{◌≡◌, length};

use crate::naming::Naming;
use std::marker::{Model, PhantomData};
use std::sync::ledger::Share;
use usb_recorder::PlaceImage;

/// The number of its bearer, which no other has; what the journal began with when the position was last moved; and which of that are
/// the bearer's places, whose number its share of the journal's ledger counts. It has the bytes of the number alone.
#[derive(Drop)]
pub struct Position<L: Naming> {
    pub(crate) number: u32,
    pub(crate) position: usb_receipts::Position<PlaceImage>,
    pub(crate) share: Share<L>,
}

impl<L: Naming> Model for Position<L> {
    ghost use Rattle.std.specs.Prelude.{◌≡◌, [], ◌∷◌, length};
    ghost use Rattle.usb_journal.specs.Seen.{Positioned, places_of, positioned, seen_by};

    ghost Value = { Positioned };

    ghost view = { λ m. positioned m.number (seen_by m.position.positions) };

    ghost invariant = { λ m. (m.position.log ≡ L.table) × (m.position.positions ≡ (m.number, seen_by m.position.positions) ∷ []) × (m.share.parts ≡ 1) × (m.share.amount ≡ length (places_of m.number (seen_by m.position.positions))) };
}

impl<L: Naming> Position<L> {
    /// The number of its bearer, from 0 on, in the order in which positions were given.
    pub fn number(&self) -> u32
        ensures { result ≡ self.now.number }
    {
        self.number
    }

    /// Its share of the ledger, which counts its bearer's places.
    pub fn into_share(self) -> Share<L>
        ensures { (result.parts ≡ 1) × (result.amount ≡ length self.own) }
    {
        let Position { share, .. } = self;
        share
    }
}

/// What some caller saw of the journal once: it began so, whoever has this, and for good. It has no bytes: whoever is lent it can't tell
/// how much that is, and so has to look at all of the journal to show that it begins so.
#[derive(Drop)]
pub struct Past<L: Naming> {
    pub(crate) past: usb_receipts::Past<PlaceImage>,
    pub(crate) library: PhantomData<L>,
}

/// Contracts see the places.
impl<L: Naming> Model for Past<L> {
    ghost use Rattle.std.specs.Prelude.{◌≡◌, List, [], ◌∷◌};
    ghost use Rattle.usb_recorder.specs.declared.place.Place.{Place};
    ghost use Rattle.usb_journal.specs.Seen.{first_of};

    ghost Value = { List Place };

    ghost view = { λ p. first_of p.past.pasts };

    ghost invariant = { λ p. (p.past.log ≡ L.table) × (p.past.pasts ≡ first_of p.past.pasts ∷ []) };
}
