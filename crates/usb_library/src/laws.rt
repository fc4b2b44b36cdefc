//! A law of the definitions on whom a step gives work. It is the contract of a function with an empty body.

ghost use Rattle.std.specs.Prelude.{List};
ghost use Rattle.usb_model.specs.declared.step.Step.{Step};
ghost use Rattle.usb_model.specs.Setup.{Setup};
ghost use Rattle.usb_library.specs.Wakes.{NamesNewWork};

/// Behind any run and any step, a worker that has work had some before that step, or is named by the rule by which the
/// library wakes.
pub fn wakes()
    ensures { (setup : Setup) (steps : List Step) (step : Step) → NamesNewWork setup steps step }
{}
