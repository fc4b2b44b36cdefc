//! Laws of longer scripts. Each is the contract of a function with an empty body.

ghost use Rattle.refine_world.specs.Fed.{FedGoesOn};
ghost use Rattle.refine_world.specs.FedCore.{ShowsFed};
ghost use Rattle.refine_world.specs.Feeding.{FedAsIfKnown};
ghost use Rattle.refine_world.specs.Living.{GoesOnUnseen};
ghost use Rattle.refine_world.specs.NoWants.{KeepsWantingNone};
ghost use Rattle.refine_world.specs.Wanting.{ReachedLonger, WantChangesNothing};

/// A run in which no Serve met the end of a script that goes on is the same run over the longer scripts.
pub fn goes_on_unseen()
    ensures { GoesOnUnseen }
{}

/// A run that is fed between its steps is the run over the scripts as they stand at the end, and each handle's part of it
/// is that of the handle alone.
pub fn fed_as_if_known()
    ensures { FedAsIfKnown }
{}

/// A Serve that wants for an answer changes nothing.
pub fn want_changes_nothing()
    ensures { WantChangesNothing }
{}

/// What a run reaches is reached over longer scripts too, but that more is left.
pub fn reached_longer()
    ensures { ReachedLonger }
{}

/// A core whose devices are fed shows the world where more is left, whatever was served before.
pub fn shows_fed()
    ensures { ShowsFed }
{}

/// Answers that are put behind a script make it go on.
pub fn fed_goes_on()
    ensures { FedGoesOn }
{}

/// A journal in which nothing was wanted may be fed, and then nothing was wanted in it still.
pub fn keeps_wanting_none()
    ensures { KeepsWantingNone }
{}
