//! What the crates above know of a callback.

use crate::due::Due;
use crate::end::End;
use usb_model::Verdict;

/// What is stored with a transfer, and called when the transfer returns. Its law: each verdict fits its rule, and a
/// repeating one comes back the same. What runs callbacks is generic in it, and so names no boxed closure.
pub trait Callback: Drop {
    ghost use Rattle.std.specs.Prelude.{Bool, false, IfSome, is_some, ◌≡◌};
    ghost use Rattle.usb_core.specs.Callbacks.{Fits};
    ghost use Rattle.usb_model.specs.declared.reply.Returned.{Returned};
    ghost use Rattle.usb_model.specs.declared.verdict.Rule.{Rule};
    ghost use Rattle.usb_model.specs.declared.verdict.Verdict.{Verdict};
    ghost use Rattle.usb_model.specs.declared.verdict.Verdict.TheVariants.{Stop};

    /// The rule of its verdicts.
    ghost rule: { Self → Rule };

    /// Whether it can be called again.
    ghost repeats: { Self → Bool };

    /// The verdicts that its code may give when it is told this.
    ghost may_answer: { Self → Returned → Verdict → Type 0 };

    /// Calls it with what is due to it, which nobody can tell a second time: the verdict, and a repeating callback again; one that
    /// is called once is used up, and its verdict is Stop.
    fn call(self, due: Due) -> (Verdict, Option<Self>)
        ensures fits { Fits (rule self) due result.0 }
        ensures answered { may_answer self due result.0 }
        ensures back { is_some result.1 ≡ repeats self }
        ensures stops { repeats self ≡ false → result.0 ≡ Stop }
        ensures same { IfSome result.1 (λ c. c ≡ self) };

    /// Is told how it ended, where it could be called again and isn't. An implementation that leaves this out does nothing.
    fn ended(self, _end: End)
    where
        Self: Sized,
    {}
}
