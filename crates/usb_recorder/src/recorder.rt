//! What a book keeps of its places when it runs.

ghost use Rattle.std.specs.Prelude.{◌≡◌, ⊤, ℕ, ◌+◌, ◌-◌, ◌≤◌, List, [], ◌∷◌, ◌++◌, OnOk, length};
ghost use Rattle.usb_model.specs.declared.step.Step.{Step};
ghost use Rattle.usb_recorder.specs.declared.place.Place.{Place};
ghost use Rattle.usb_recorder.specs.Records.{bytes_in, sent_by};

use std::alloc::{AllocError, Global};
use usb_model::{Entry, Step};

/// Is told each place of a journal, in order: first of the step, before it is made, and then of its entry.
pub trait Recorder: Drop {
    ghost use Rattle.std.specs.Prelude.{◌≡◌, ℕ, ◌-◌, ◌≤◌, List, [], ◌∷◌, ◌++◌, OnOk, length};
    ghost use Rattle.usb_model.specs.declared.step.Step.{Step};
    ghost use Rattle.usb_recorder.specs.declared.place.Place.{Place};
    ghost use Rattle.usb_recorder.specs.Records.{bytes_in, sent_by};

    /// What is made of a step before it is done. The recorder may keep something of it.
    type Draft: Drop;

    /// It can be what was told these places.
    ghost stands: { Self → List Place → Type 0 };

    /// It has room for so many more places, with so many bytes in all.
    ghost has_room: { Self → ℕ → ℕ → Type 0 };

    /// This draft of this step is the last that it made.
    ghost is_draft: { Self → Self.Draft → Step → Type 0 };

    /// It was told no place.
    fn new(alloc: Global) -> Self
        ensures { stands result [] };

    /// Makes room for so many more places, with so many bytes in all.
    fn reserve(&mut self, places: usize, bytes: usize) -> Result<(), AllocError>
        ensures room { OnOk result (has_room self.new places bytes) }
        ensures same { (journal : List Place) → stands self.old journal → stands self.new journal };

    /// A draft of a step. Takes no memory. The draft before it is forgotten.
    fn draft(&mut self, step: &Step) -> Self::Draft
        requires { (places : ℕ) × (bytes : ℕ) × has_room self.old places bytes × (length (sent_by step.now) ≤ bytes) }
        ensures drafted { is_draft self.new result step.now }
        ensures room { (places bytes : ℕ) → has_room self.old places bytes → has_room self.new places (bytes - length (sent_by step.now)) }
        ensures same { (journal : List Place) → stands self.old journal → stands self.new journal };

    /// Keeps one place more, of the step that was drafted last. Takes no memory.
    fn keep(&mut self, draft: Self::Draft, caller: u32, entry: &Entry, moment: u64)
        requires room { (places : ℕ) × (bytes : ℕ) × has_room self.old places bytes × (1 ≤ places) × (bytes_in entry.now.reply ≤ bytes) }
        requires drafted { (step : Step) × is_draft self.old draft step }
        ensures kept { (journal : List Place) (step : Step) → is_draft self.old draft step → stands self.old journal → stands self.new (journal ++ record { step = step; caller = caller; entry = entry.now; moment = moment } ∷ []) }
        ensures room { (places bytes : ℕ) → has_room self.old places bytes → has_room self.new (places - 1) (bytes - bytes_in entry.now.reply) };
}

/// Keeps nothing: for programs that run for weeks.
#[derive(Drop)]
pub struct Unrecorded;

impl Recorder for Unrecorded {
    ghost use Rattle.std.specs.Prelude.{⊤};

    type Draft = ();

    ghost stands = { λ _ _. ⊤ };

    ghost has_room = { λ _ _ _. ⊤ };

    ghost is_draft = { λ _ _ _. ⊤ };

    fn new(_alloc: Global) -> Unrecorded {
        Unrecorded
    }

    fn reserve(&mut self, _places: usize, _bytes: usize) -> Result<(), AllocError> {
        Ok(())
    }

    fn draft(&mut self, _step: &Step) {}

    fn keep(&mut self, _draft: (), _caller: u32, _entry: &Entry, _moment: u64) {}
}
