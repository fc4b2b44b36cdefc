//! How many callers were made.

ghost use Rattle.std.specs.Prelude.{◌≡◌, ◌+◌, IfNone, IfSome};

use std::marker::Model;
use std::sync::ledger::Share;
use usb_journal::Naming;

/// At most so many callers are made.
pub const CALLERS: u32 = 1024;

/// The ledger's parts that no caller has, one for each caller to come, and one more; and how many callers were made, which
/// is what contracts see.
#[derive(Drop)]
pub struct Callers<L: Naming> {
    spare: Share<L>,
    made: u32,
}

impl<L: Naming> Model for Callers<L> {
    ghost use Rattle.std.specs.Prelude.{◌≡◌, ◌+◌, ◌<◌, ℕ};

    ghost Value = { ℕ };

    ghost view = { λ c. c.made };

    ghost invariant = { λ c. (c.spare.parts + c.made ≡ 1025) × (c.made < 1025) × (c.spare.amount ≡ 0) };
}

impl<L: Naming> Callers<L> {
    /// No caller was made.
    pub(crate) fn new(spare: Share<L>) -> Callers<L>
        requires { (spare.parts ≡ 1025) × (spare.amount ≡ 0) }
        ensures { result ≡ 0 }
    {
        Callers { spare, made: 0 }
    }

    /// How many callers were made.
    pub(crate) fn made(&self) -> u32
        ensures { result ≡ self.now }
    {
        self.made
    }

    /// One more, by its part of the ledger. None where there are 1,024.
    pub(crate) fn one_more(&mut self) -> Option<Share<L>>
        ensures number { IfSome result (λ _. self.new ≡ self.old + 1) }
        ensures share { IfSome result (λ share. (share.parts ≡ 1) × (share.amount ≡ 0)) }
        ensures none { IfNone result ((self.old ≡ CALLERS) × (self.new ≡ self.old)) }
    {
        if self.made == CALLERS {
            return None;
        }
        self.made += 1;
        Some(self.spare.split_off(1, 0))
    }

    /// The parts that no caller has.
    pub(crate) fn into_spare(self) -> Share<L>
        ensures { (result.parts + self ≡ 1025) × (result.amount ≡ 0) }
    {
        let Callers { spare, .. } = self;
        spare
    }
}
