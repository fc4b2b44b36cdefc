//! A reading of the meter: the callback that tells it.

use std::alloc::AllocError;
use std::sync::Arc;
use std::sync::atomic::{AtomicU64, Ordering};
use tirnouch::{Anyone, Callback, Due, Payload, Status, Verdict};

/// How many readings came to what. The callback's thread writes it, the meter's own reads it.
#[derive(Drop)]
pub struct Readings {
    whole: AtomicU64,
    late: AtomicU64,
    other: AtomicU64,
}

impl Readings {
    /// None so far.
    pub fn new() -> Readings {
        Readings {
            whole: AtomicU64::new(0),
            late: AtomicU64::new(0),
            other: AtomicU64::new(0),
        }
    }

    /// How many came whole, how many timed out, and how many came to something else.
    pub fn counts(&self) -> (u64, u64, u64) {
        (
            self.whole.load(Ordering::SeqCst),
            self.late.load(Ordering::SeqCst),
            self.other.load(Ordering::SeqCst),
        )
    }

    /// One more, which came to this.
    fn note(&self, status: Status) {
        match status {
            Status::Completed => {
                self.whole.fetch_add(1, Ordering::SeqCst);
            }
            Status::TimedOut => {
                self.late.fetch_add(1, Ordering::SeqCst);
            }
            _ => {
                self.other.fetch_add(1, Ordering::SeqCst);
            }
        }
    }

    /// How many callbacks were called.
    pub fn called(&self) -> u64 {
        let (whole, late, other) = self.counts();
        whole.saturating_add(late).saturating_add(other)
    }
}

/// The callback of a reading: it counts, and its transfer is at its end.
#[derive(Drop)]
pub struct Reading {
    readings: Arc<Readings>,
}

impl Reading {
    /// The callback that counts here.
    pub fn new(readings: &Arc<Readings>) -> Result<Reading, AllocError> {
        Ok(Reading {
            readings: readings.clone()?,
        })
    }
}

/// It may be kept with each name's transfers.
impl Payload for Reading {
    type Whom = Anyone;
}

impl Callback for Reading {
    ghost use Rattle.std.specs.Prelude.{⊤, true};
    ghost use Rattle.usb_model.specs.declared.verdict.Rule.TheVariants.{Free};

    ghost rule = { λ c. Free };

    ghost repeats = { λ c. true };

    ghost may_answer = { λ c r v. ⊤ };

    fn call(self, due: Due) -> (Verdict, Option<Reading>) {
        self.readings.note(due.status);
        (Verdict::Stop, Some(self))
    }
}
