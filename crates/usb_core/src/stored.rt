//! A stored callback.

ghost use Rattle.std.specs.Prelude.{false, true, ◌≡◌};
ghost use Rattle.usb_core.specs.Props.{FitsRule-prop};
ghost use Rattle.usb_core.specs.Callbacks.{Fits, InRange};
ghost use Rattle.usb_model.specs.World.Plans.{once_only};

use crate::callback::Callback;
use crate::due::Due;
use crate::end::End;
use usb_model::{Returned, Rule, Verdict};

/// The code of a repeating callback, which is lent what it is told.
pub type Repeat = Box<dyn Fn(&Returned) -> Verdict + Send>;

/// The code of a callback that is called once, which is given what it is told.
pub type Once = Box<dyn FnOnce(Returned) + Send>;

/// What is told how a callback ended that could be called again and isn't.
pub type Told = Box<dyn FnOnce(End) + Send>;

/// Code that may be told of any end.
#[derive(Drop)]
pub struct Telling {
    code: Told,
    ghost callable: { (e : _) → Told.pre code e },
}

/// Code that may be called on every `Returned` whose numbers are in range, and whose verdict then fits the rule.
#[derive(Drop)]
pub struct Repeating {
    rule: Rule,
    code: Repeat,
    told: Option<Telling>,
    ghost callable: { (r : _) → InRange r.now → Repeat.pre code r },
    ghost meets: { (r : _) (v : _) → InRange r.now → Repeat.post code r v → Fits rule r.now v } by { Prim.hlevel FitsRule-prop },
}

impl Repeating {
    /// Tells how it ended, if somebody is to be told.
    fn ended(self, end: End) {
        let Repeating { told, .. } = self;
        if let Some(telling) = told {
            (telling.code)(end);
        }
    }
}

/// Code that may be called on every `Returned` whose numbers are in range.
#[derive(Drop)]
pub struct CalledOnce {
    code: Once,
    ghost callable: { (r : _) → InRange r → Once.pre code r },
}

/// A boxed closure, with the rule that its verdicts fit. It may cross threads.
#[derive(Drop)]
pub enum StoredCallback {
    Repeating(Repeating),
    CalledOnce(CalledOnce),
}

impl StoredCallback {
    /// A callback that may be called many times. Its verdicts fit the rule.
    pub fn repeat(rule: Rule, code: Repeat) -> StoredCallback
        requires callable { (r : _) → InRange r.now → Repeat.pre code r }
        requires meets { (r : _) (v : _) → InRange r.now → Repeat.post code r v → Fits rule r.now v }
        ensures rule { ⟦<StoredCallback as Callback>⟧.rule result ≡ rule }
        ensures repeats { ⟦<StoredCallback as Callback>⟧.repeats result ≡ true }
        ensures code { (r : _) (v : _) → ⟦<StoredCallback as Callback>⟧.may_answer result r v → (lent : _) × (lent.now ≡ r) × Repeat.post code lent v }
    {
        StoredCallback::Repeating(Repeating {
            rule,
            code,
            told: None,
        })
    }

    /// The same callback, and this is told how it ended, where it could be called again and isn't. One that is called once tells nothing.
    pub fn telling(self, told: Told) -> StoredCallback
        requires callable { (e : _) → Told.pre told e }
        ensures rule { ⟦<StoredCallback as Callback>⟧.rule result ≡ ⟦<StoredCallback as Callback>⟧.rule self }
        ensures repeats { ⟦<StoredCallback as Callback>⟧.repeats result ≡ ⟦<StoredCallback as Callback>⟧.repeats self }
        ensures code { (r : _) (v : _) → ⟦<StoredCallback as Callback>⟧.may_answer result r v → ⟦<StoredCallback as Callback>⟧.may_answer self r v }
    {
        match self {
            StoredCallback::Repeating(Repeating { rule, code, .. }) => {
                StoredCallback::Repeating(Repeating {
                    rule,
                    code,
                    told: Some(Telling { code: told }),
                })
            }
            once => once,
        }
    }

    /// A callback that is called once, and then used up. Its verdict is Stop.
    pub fn once(code: Once) -> StoredCallback
        requires callable { (r : _) → InRange r → Once.pre code r }
        ensures rule { ⟦<StoredCallback as Callback>⟧.rule result ≡ once_only }
        ensures repeats { ⟦<StoredCallback as Callback>⟧.repeats result ≡ false }
        ensures code { (r : _) (v : _) → ⟦<StoredCallback as Callback>⟧.may_answer result r v → Once.post code r tt }
    {
        StoredCallback::CalledOnce(CalledOnce { code })
    }
}

impl Callback for StoredCallback {
    ghost use Rattle.std.specs.Prelude.{false, true};
    ghost use Rattle.usb_core.specs.declared.stored.StoredCallback.TheVariants.{CalledOnce, Repeating};
    ghost use Rattle.usb_model.specs.World.Plans.{once_only};

    ghost rule = { elim [ Repeating c ↦ c.rule | CalledOnce c ↦ once_only ] };

    ghost repeats = { elim [ Repeating c ↦ true | CalledOnce c ↦ false ] };

    ghost may_answer = { elim [ Repeating c ↦ (λ r v. (lent : _) × (lent.now ≡ r) × Repeat.post c.code lent v) | CalledOnce c ↦ (λ r v. Once.post c.code r tt) ] };

    fn call(self, due: Due) -> (Verdict, Option<StoredCallback>) {
        match self {
            StoredCallback::Repeating(repeating) => {
                let verdict = (repeating.code)(&due);
                (verdict, Some(StoredCallback::Repeating(repeating)))
            }
            StoredCallback::CalledOnce(CalledOnce { code }) => {
                code(due.into_returned());
                (Verdict::Stop, None)
            }
        }
    }

    fn ended(self, end: End) {
        if let StoredCallback::Repeating(repeating) = self {
            repeating.ended(end);
        }
    }
}
