//! How many callbacks may answer as they like.

ghost use Rattle.std.specs.Prelude.{◌≡◌, ◌≤◌, ◌+◌, ◌⊎◌};
ghost use Rattle.usb_model.specs.declared.verdict.Verdict.TheVariants.{Stop};

use usb_model::Verdict;

/// How many callbacks were called, and how many may answer as they like: each that is called behind those is at its end.
#[derive(Drop)]
pub(crate) struct Limit {
    called: u64,
    rounds: u64,
}

impl Limit {
    /// None was called yet.
    pub(crate) fn new(rounds: u64) -> Limit
        ensures { (result.called ≡ 0) × (result.rounds ≡ rounds) }
    {
        Limit { called: 0, rounds }
    }

    /// One more was called, and answered this: its verdict.
    pub(crate) fn verdict(&mut self, answered: Verdict) -> Verdict
        ensures verdict { (result ≡ answered) ⊎ ((result ≡ Stop) × (self.old.rounds ≤ self.old.called)) }
        ensures called { self.new.called ≤ self.old.called + 1 }
        ensures rounds { self.new.rounds ≡ self.old.rounds }
    {
        let is_over = self.called >= self.rounds;
        self.called = self.called.saturating_add(1);
        if is_over { Verdict::Stop } else { answered }
    }
}
