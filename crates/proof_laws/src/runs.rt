//! What holds of every run, whatever the steps are. Each is a law over definitions, the contract of a function with an
//! empty body.

ghost use Rattle.std.specs.Prelude.{ℕ, List};
ghost use Rattle.usb_model.specs.declared.step.Step.{Step};
ghost use Rattle.usb_model.specs.Laws.Bound.{AskedEnds};
ghost use Rattle.usb_model.specs.Laws.Bounds.{KeepsBounds};
ghost use Rattle.usb_model.specs.Laws.Calls.{CallbacksAreOfCalls, CallsWhatWasMade};
ghost use Rattle.usb_model.specs.Laws.Cut.{CutsAt};
ghost use Rattle.usb_model.specs.Laws.Places.{KeepsPlaces};
ghost use Rattle.proof_laws.specs.Rows.Halts.{stall_and_clear_halt};
ghost use Rattle.proof_laws.specs.Rows.Unplugs.{unplug_amid_transfers};
ghost use Rattle.usb_model.specs.Setup.{Setup};
ghost use Rattle.proof_laws.specs.Instances.{CallsBack, ReachesBound, ReachesBounds, IsCutInto, IsNotCut, stalled_cells, unplugged_cells};

/// What the transfers of an endpoint moved is a cut of its device's answers, in order of submission: each result, each
/// end and each packet that the device took is read off one transfer's share.
pub fn cut()
    ensures { (setup : Setup) (steps : List Step) (d e : ℕ) → CutsAt setup steps d e }
{}

/// Each transfer of a handle is in one place: none is lost, and none is doubled.
pub fn places()
    ensures { (setup : Setup) (steps : List Step) (h : ℕ) → KeepsPlaces setup steps h }
{}

/// What is called back is what was made: each result goes out to its callback in order, with all that it has, and a
/// transfer that is in its callback is of a result that was called back.
pub fn called()
    ensures in_order { (setup : Setup) (steps : List Step) (h : ℕ) → CallsWhatWasMade setup steps h }
    ensures in_callbacks { (setup : Setup) (steps : List Step) (h : ℕ) → CallbacksAreOfCalls setup steps h }
{}

/// A transfer that is asked to end, ends: by the seventeenth Deliver of its endpoint its one result is made.
pub fn asked_ends()
    ensures { (setup : Setup) (steps : List Step) (h : ℕ) → AskedEnds setup steps h }
{}

/// A transfer was submitted before no more often than its number says; and of each endpoint of a handle there wait at
/// most 1 order, 17 pieces of news, and 16 results and transfers in progress together.
pub fn bounds()
    ensures { (setup : Setup) (steps : List Step) (h : ℕ) → KeepsBounds setup steps h }
{}

/// The laws at worked rows, computed: bounds that are reached, calls of what was made, and scripts that are cut. One
/// that isn't, at the packet size 0.
pub fn instances()
    ensures bound { ReachesBound }
    ensures bounds { ReachesBounds }
    ensures called { CallsBack }
    ensures behind_a_stall { IsCutInto stall_and_clear_halt stalled_cells }
    ensures at_a_gone_device { IsCutInto unplug_amid_transfers unplugged_cells }
    ensures without_a_size { IsNotCut }
{}
