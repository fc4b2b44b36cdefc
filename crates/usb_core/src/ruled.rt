//! A callback that is its rule.

ghost use Rattle.std.specs.Prelude.{◌≡◌, true};

use crate::callback::Callback;
use crate::due::Due;
use usb_model::{Rule, Verdict};

/// A repeating callback without code of its own: it answers what its rule says; under Free that it is at its end.
#[derive(Clone, Copy, PartialEq, Eq, Debug)]
pub struct Ruled {
    rule: Rule,
}

impl Ruled {
    /// The callback of a rule.
    pub fn new(rule: Rule) -> Ruled
        ensures rule { ⟦<Ruled as Callback>⟧.rule result ≡ rule }
        ensures repeats { ⟦<Ruled as Callback>⟧.repeats result ≡ true }
    {
        Ruled { rule }
    }
}

impl Callback for Ruled {
    ghost use Rattle.std.specs.Prelude.{◌≡◌, true};
    ghost use Rattle.usb_model.specs.World.Plans.{verdict_of};

    ghost rule = { λ c. c.rule };

    ghost repeats = { λ c. true };

    ghost may_answer = { λ c r v. v ≡ verdict_of c.rule r.status r.round };

    fn call(self, due: Due) -> (Verdict, Option<Ruled>) {
        (self.rule.verdict(due.status, due.round), Some(self))
    }
}
