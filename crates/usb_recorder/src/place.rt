//! A place of the journal.

ghost use Rattle.std.specs.Prelude.{◌≡◌};

use std::marker::Model;
use usb_model::{Entry, Step};
use usb_receipts::{Borne, Image};

/// A step of the core, as the journal has it.
#[derive(Drop)]
pub struct Place {
    /// The step.
    pub step: Step,
    /// The number of the caller who asked for it.
    pub caller: u32,
    /// Whose it was, and the reply to it.
    pub entry: Entry,
    /// The moment when it was made, in milliseconds.
    pub moment: u64,
}

/// A place as the log is told of it. Contracts see the place; nothing of step and entry is copied.
#[derive(Drop)]
pub struct PlaceImage {
    step: Image<Step>,
    caller: u32,
    entry: Image<Entry>,
    moment: u64,
}

impl Model for PlaceImage {
    ghost use Rattle.usb_recorder.specs.declared.place.Place.{Place};

    ghost Value = { Place };

    ghost view = { λ p. record { step = p.step.value; caller = p.caller; entry = p.entry.value; moment = p.moment } };
}

/// It is entered for its caller.
impl Borne for PlaceImage {
    ghost bearer = { λ p. p.caller };
}

impl PlaceImage {
    /// What is told of a step with this entry.
    pub fn new(step: Image<Step>, caller: u32, entry: &Entry, moment: u64) -> PlaceImage
        ensures { result ≡ record { step = step.value; caller = caller; entry = entry.now; moment = moment } }
    {
        PlaceImage {
            step,
            caller,
            entry: Image::of(entry),
            moment,
        }
    }

    /// The number of the caller.
    pub fn caller(&self) -> u32
        ensures { result ≡ self.now.caller }
    {
        self.caller
    }

    /// The moment.
    pub fn moment(&self) -> u64
        ensures { result ≡ self.now.moment }
    {
        self.moment
    }
}
