//! Callbacks that answer by the rules of a plan.

ghost use Rattle.std.specs.Prelude.{◌≡◌};
ghost use Rattle.trace_threads.specs.Verdicts.{IsRuleOf};

use std::marker::{Brand, Model, PhantomData};
use usb_core::{Callback, Due};
use usb_library::{Payload, Suiting};
use usb_model::{Name, Rule, Verdict};

/// The submissions of a plan, each by its handle and the rule of its callback: for contracts alone.
pub(crate) trait Planned {
    ghost use Rattle.std.specs.Prelude.{ℕ, List};
    ghost use Rattle.usb_model.specs.declared.verdict.Rule.{Rule};

    ghost given: { List (ℕ × Rule) };
}

impl Planned for Brand {
    ghost use Rattle.std.specs.Prelude.{[]};

    ghost given = { [] };
}

/// A callback that answers what the rule of one of its handle's submissions says. Contracts see its handle and its rule.
#[derive(Drop)]
pub(crate) struct PlannedCallback<Q: Planned> {
    h: Name,
    rule: Rule,
    of: PhantomData<Q>,
}

impl<Q: Planned> Model for PlannedCallback<Q> {
    ghost use Rattle.std.specs.Prelude.{ℕ};
    ghost use Rattle.usb_model.specs.declared.verdict.Rule.{Rule};
    ghost use Rattle.trace_threads.specs.Verdicts.{IsRuleOf};

    ghost Value = { ℕ × Rule };

    ghost view = { λ c. (c.h, c.rule) };

    ghost invariant = { λ c. IsRuleOf Q.given c.h c.rule };
}

impl<Q: Planned> PlannedCallback<Q> {
    /// That of a submission.
    pub(crate) fn of(h: Name, rule: Rule) -> PlannedCallback<Q>
        requires { IsRuleOf Q.given h rule }
        ensures { result ≡ (h, rule) }
    {
        PlannedCallback {
            h,
            rule,
            of: PhantomData,
        }
    }

    /// The handle that submits.
    pub(crate) fn handle(&self) -> Name
        ensures handle { result ≡ self.now.0 }
        ensures given { IsRuleOf Q.given self.now.0 self.now.1 }
    {
        self.h
    }
}

impl<Q: Planned> Callback for PlannedCallback<Q> {
    ghost use Rattle.std.specs.Prelude.{true, ◌≡◌};
    ghost use Rattle.usb_model.specs.World.Plans.{verdict_of};

    ghost rule = { λ c. c.1 };

    ghost repeats = { λ c. true };

    ghost may_answer = { λ c r v. v ≡ verdict_of c.1 r.status r.round };

    fn call(self, due: Due) -> (Verdict, Option<PlannedCallback<Q>>) {
        (self.rule.verdict(due.status, due.round), Some(self))
    }
}

/// Each suits the handle that submits it.
pub(crate) struct ItsHandle<Q: Planned> {
    of: PhantomData<Q>,
}

impl<Q: Planned> Suiting<PlannedCallback<Q>> for ItsHandle<Q> {
    ghost use Rattle.std.specs.Prelude.{◌≡◌};
    ghost use Rattle.trace_threads.specs.Verdicts.{IsRuleOf};

    ghost suits = { λ c h. (c.0 ≡ h) × IsRuleOf Q.given c.0 c.1 };
}

impl<Q: Planned> Payload for PlannedCallback<Q> {
    type Whom = ItsHandle<Q>;
}
