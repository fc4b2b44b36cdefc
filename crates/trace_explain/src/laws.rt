//! What reasons have to do with replies, in every world. A law is the contract of a function with an empty body.

ghost use Rattle.std.specs.Prelude.{◌≡◌, ℕ, false, Some};
ghost use Rattle.std.specs.Option.{option_and_then};
ghost use Rattle.usb_model.specs.declared.endpoint.EndpointState.{EndpointState};
ghost use Rattle.usb_model.specs.declared.errand.Errand.{Errand};
ghost use Rattle.usb_model.specs.declared.refused.Refused.{Refused};
ghost use Rattle.usb_model.specs.declared.reply.Reply.TheVariants as reply;
ghost use Rattle.usb_model.specs.declared.reply.Returned.{Returned};
ghost use Rattle.usb_model.specs.declared.step.Step.{Step};
ghost use Rattle.usb_model.specs.Setup.{Setup};
ghost use Rattle.usb_model.specs.World.{World, turn};
ghost use Rattle.trace_explain.specs.declared.refusal.CallRefusal.{CallRefusal};
ghost use Rattle.trace_explain.specs.declared.sentence.CalledWith.{CalledWith};
ghost use Rattle.trace_explain.specs.declared.sentence.TransferEnd.{TransferEnd};
ghost use Rattle.trace_explain.specs.declared.sentence.Idleness.{Idleness};
ghost use Rattle.trace_explain.specs.declared.sentence.Reason.{Reason};
ghost use Rattle.trace_explain.specs.declared.sentence.Reason.TheVariants.{Called, Ended, Failed, Idle, Nak, Refused as IsRefused};
ghost use Rattle.trace_explain.specs.declared.sentence.Unready.{Unready};
ghost use Rattle.trace_explain.specs.Reasons.{reason_of};
ghost use Rattle.trace_explain.specs.Truth.{IsTrue, ReasonIs};
ghost use Rattle.trace_explain.specs.Sorts.{code_of, refusal_of, sort_of, sort_of_reply};

/// The reason of a step is of its reply's sort, and where a reply needs none, there is none.
pub fn sorts()
    ensures { (setup : Setup) (w : World) (step : Step) → sort_of (reason_of setup w step) ≡ sort_of_reply (turn setup w step).entry.reply }
{}

/// A refused step has a reason, and what belongs to it is what the step is refused with.
pub fn refusals()
    ensures { (setup : Setup) (w : World) (step : Step) (why : Refused) → (turn setup w step).entry.reply ≡ reply.Refused why
        → option_and_then refusal_of (reason_of setup w step) ≡ Some why }
{}

/// What is told of a step is true of the world in which it is made, and speaks of what the step names: of a refused call (`refused`), and
/// of all else (`others`).
pub fn truths()
    ensures others { (setup : Setup) (w : World) (step : Step) (r : Reason) → reason_of setup w step ≡ Some r → ReasonIs setup w step r }
    ensures refused { (setup : Setup) (w : World) (step : Step) (x : CallRefusal) → reason_of setup w step ≡ Some (IsRefused x) → IsTrue setup w step x }
{}

/// A step with nothing to do, a packet that wasn't ready, an end, an order that failed and a callback have reasons of
/// their sorts: an end's is of its completion code, a failed order's of its endpoint, and a callback's of its status.
pub fn others()
    ensures idle { (setup : Setup) (w : World) (step : Step) → (turn setup w step).entry.reply ≡ reply.Idle
        → (x : Idleness) × (reason_of setup w step ≡ Some (Idle x)) }
    ensures nak { (setup : Setup) (w : World) (step : Step) (n : ℕ) → (turn setup w step).entry.reply ≡ reply.Nak n
        → (x : Unready) × (reason_of setup w step ≡ Some (Nak x)) }
    ensures ended { (setup : Setup) (w : World) (step : Step) (n code : ℕ) → (turn setup w step).entry.reply ≡ reply.Ended n code
        → (x : TransferEnd) × (reason_of setup w step ≡ Some (Ended x)) × (code_of x ≡ code) }
    ensures failed { (setup : Setup) (w : World) (step : Step) (ep : ℕ) (errand : Errand) → (turn setup w step).entry.reply ≡ reply.Ran ep errand false
        → (state : EndpointState) × (reason_of setup w step ≡ Some (Failed ep state)) }
    ensures called { (setup : Setup) (w : World) (step : Step) (returned : Returned) → (turn setup w step).entry.reply ≡ reply.Called returned
        → (x : CalledWith) × (reason_of setup w step ≡ Some (Called x)) × (x.status ≡ returned.status) }
{}
