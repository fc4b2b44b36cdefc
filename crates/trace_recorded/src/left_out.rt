//! Why a recorded device is left out.

ghost use Rattle.std.specs.Prelude.{Some};
ghost use Rattle.trace_recorded.specs.Lines.{left_out_text};

use std::fmt;

/// Why a recorded device is left out of the scenario.
#[derive(Clone, Copy, PartialEq, Eq, Debug)]
pub(crate) enum LeftOut {
    /// No configuration descriptor was recorded whole.
    NoConfiguration,
    /// It isn't one that is taken.
    Refused,
    /// Each interface has the class of hubs.
    Hub,
    /// No bulk or interrupt endpoint answered.
    NoAnswers,
    /// There are four before it.
    FifthDevice,
}

impl fmt::Display for LeftOut {
    ghost output = { λ why. Some (left_out_text why) };

    fn fmt<W: fmt::Write>(&self, f: &mut fmt::Formatter<W>) -> fmt::Result {
        f.write_str(match self {
            LeftOut::NoConfiguration => "no configuration descriptor",
            LeftOut::Refused => "its configuration descriptor is refused",
            LeftOut::Hub => "a hub",
            LeftOut::NoAnswers => "no answers",
            LeftOut::FifthDevice => "the fifth device",
        })
    }
}
