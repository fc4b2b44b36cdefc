//! Isolation: what each handle sees of a shared system is what it sees alone. Each law is over the definitions of the model, the
//! contract of a function with an empty body.

ghost use Rattle.std.specs.Prelude.{ℕ, List};
ghost use Rattle.usb_model.specs.declared.step.Step.{Step};
ghost use Rattle.usb_model.specs.declared.verdict.Rule.{Rule};
ghost use Rattle.usb_model.specs.declared.plan.Plan.{Plan};
ghost use Rattle.usb_model.specs.Setup.{Setup};
ghost use Rattle.usb_model.specs.World.{World};
ghost use Rattle.usb_model.specs.Laws.Callbacks.{CallsOnce, CallsAfterNumber, CallsInOrder};
ghost use Rattle.proof_laws.specs.InCallbacks.{IsReached, KeepsCallbacks};
ghost use Rattle.proof_laws.specs.Isolation.{SeesAlone, RunsAlone, StatesAlone, ExpandsAlone, MayExpand, ExpandsOnly, TellsOfAnother, ChangesNothingForAnother, NamesOwner, NamesNobody, IdlesForNobody};

/// What a handle sees of any run is what it sees alone over its own steps.
pub fn purge()
    ensures sees { (setup : Setup) (steps : List Step) (h : ℕ) → SeesAlone setup steps h }
    ensures runs { (setup : Setup) (steps : List Step) (h : ℕ) → RunsAlone setup steps h }
{}

/// Where any run ends, each handle has what it has alone.
pub fn states()
    ensures { (setup : Setup) (steps : List Step) (h : ℕ) → StatesAlone setup steps h }
{}

/// Each transfer is called back at most once, after its number was given, and in order.
pub fn callbacks()
    ensures once { (setup : Setup) (steps : List Step) (h : ℕ) → CallsOnce setup steps h }
    ensures after { (setup : Setup) (steps : List Step) (h : ℕ) → CallsAfterNumber setup steps h }
    ensures order { (setup : Setup) (steps : List Step) (h : ℕ) → CallsInOrder setup steps h }
{}

/// A handle's part of any plan stands for the handle's own steps.
pub fn plans()
    ensures { (setup : Setup) (plan : List Plan) (rules : List Rule) (h : ℕ) → ExpandsAlone setup plan rules h }
{}

/// What a plan stands for by `expand`, it may stand for by `Expands`; and where no rule is Free, that alone.
pub fn plan_steps()
    ensures may { (setup : Setup) (plan : List Plan) (rules : List Rule) → MayExpand setup plan rules }
    ensures only { (setup : Setup) (plan : List Plan) (rules : List Rule) → ExpandsOnly setup plan rules }
{}

/// A step is refused because another handle holds an interface (5) just where one does and nothing that stands earlier
/// among the refusals applies; then nothing changes.
pub fn held_elsewhere()
    ensures told { (setup : Setup) (w : World) (step : Step) → TellsOfAnother setup w step }
    ensures unchanged { (setup : Setup) (w : World) (step : Step) → ChangesNothingForAnother setup w step }
{}

/// A step is its caller's, the holder's of its endpoint, or that of the name whose piece is the first; or nobody's.
pub fn whose()
    ensures owner { (setup : Setup) (w : World) (step : Step) (h : ℕ) → NamesOwner setup w step h }
    ensures nobody { (setup : Setup) (w : World) (step : Step) → NamesNobody setup w step }
    ensures idle { (setup : Setup) (w : World) (step : Step) → IdlesForNobody setup w step }
{}

/// A transfer comes into its callback by a Take, with the status and the round that its callback is told, and leaves it
/// by a verdict that isn't refused; no other step touches it. A number that is given is in no callback.
pub fn in_callbacks()
    ensures { (setup : Setup) (w : World) → IsReached setup w → KeepsCallbacks setup w }
{}
