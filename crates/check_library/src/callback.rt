//! The callbacks of a scene.

use crate::signals::{Mark, Signals};
use std::sync::atomic::{AtomicU64, Ordering};
use usb_core::{Callback, Due, End};
use usb_library::{Anyone, Payload};
use usb_model::{Refused, Rule, StatusSet, Verdict};

/// What a callback does.
#[derive(Clone, Copy)]
pub enum Manner {
    /// Ends its transfer.
    Stops,
    /// The same, once whoever is held goes on.
    WaitsAndStops,
    /// Lets whoever is held go on, and ends its transfer.
    LetsGo,
    /// Submits its transfer three times more.
    Repeats,
    /// The same, once whoever is held goes on.
    WaitsAndRepeats,
}

impl Manner {
    /// The rule of its verdicts.
    fn rule(self) -> Rule {
        match self {
            Manner::Repeats | Manner::WaitsAndRepeats => Rule::Again {
                on: StatusSet::COMPLETED,
                rounds: 3,
            },
            _ => Rule::once_only(),
        }
    }
}

/// A callback that answers what its rule says, and is seen by the threads of its scene.
#[derive(Drop)]
pub struct SceneCallback<'a> {
    manner: Manner,
    rule: Rule,
    signals: &'a Signals,
    called: &'a AtomicU64,
}

impl<'a> SceneCallback<'a> {
    /// The callback of this manner, which counts its calls there.
    pub fn new(manner: Manner, signals: &'a Signals, called: &'a AtomicU64) -> SceneCallback<'a> {
        SceneCallback {
            manner,
            rule: manner.rule(),
            signals,
            called,
        }
    }

    /// It is called: the others see it, and it waits where it is to.
    fn meet(&self) {
        self.called.fetch_add(1, Ordering::SeqCst);
        match self.manner {
            Manner::WaitsAndStops | Manner::WaitsAndRepeats => self.signals.hold(),
            Manner::LetsGo => self.signals.say(Mark::GoOn),
            _ => {}
        }
    }
}

/// It may be kept with each name's transfers.
impl<'a> Payload for SceneCallback<'a> {
    type Whom = Anyone;
}

impl<'a> Callback for SceneCallback<'a> {
    ghost use Rattle.std.specs.Prelude.{◌≡◌, true};
    ghost use Rattle.usb_model.specs.World.Plans.{verdict_of};

    ghost rule = { λ c. c.rule };

    ghost repeats = { λ c. true };

    ghost may_answer = { λ c r v. v ≡ verdict_of c.rule r.status r.round };

    fn call(self, due: Due) -> (Verdict, Option<SceneCallback<'a>>) {
        self.meet();
        let verdict = self.rule.verdict(due.status, due.round);
        (verdict, Some(self))
    }

    fn ended(self, end: End) {
        if let End::Refused(Refused::Busy) = end {
            self.signals.say(Mark::CutShort);
        }
    }
}
