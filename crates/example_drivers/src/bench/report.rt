//! What comes of the transfers of one handle: their callback, and the count that it keeps.

use std::alloc::AllocError;
use std::sync::Arc;
use std::sync::atomic::{AtomicBool, AtomicU64, Ordering};
use tirnouch::{Anyone, Callback, Due, Payload, Status, Verdict};

/// What came of a handle's transfers so far. Callbacks write it, the handle's threads and the program read it.
#[derive(Drop)]
pub struct Tally {
    /// Whether the handle has its device and interface.
    ready: AtomicBool,
    /// How many callbacks were called.
    called: AtomicU64,
    /// How many of them were told that all bytes came.
    completed: AtomicU64,
    /// Whether one was called out of its order.
    wrong: AtomicBool,
}

impl Tally {
    /// Nothing so far.
    pub fn new() -> Tally {
        Tally {
            ready: AtomicBool::new(false),
            called: AtomicU64::new(0),
            completed: AtomicU64::new(0),
            wrong: AtomicBool::new(false),
        }
    }

    /// The handle has its device and interface.
    pub fn set_ready(&self) {
        self.ready.store(true, Ordering::SeqCst);
    }

    /// Whether it has.
    pub fn is_ready(&self) -> bool {
        self.ready.load(Ordering::SeqCst)
    }

    /// How many callbacks were called, and how many of them were told that all bytes came.
    pub fn counts(&self) -> (u64, u64) {
        let called = self.called.load(Ordering::SeqCst);
        (called, self.completed.load(Ordering::SeqCst))
    }

    /// Whether each was called in its order.
    pub fn is_right(&self) -> bool {
        !self.wrong.load(Ordering::SeqCst)
    }
}

/// The callback of each transfer: it counts.
#[derive(Drop)]
pub struct Report {
    tally: Arc<Tally>,
}

impl Report {
    /// The callback that counts here.
    pub fn new(tally: &Arc<Tally>) -> Result<Report, AllocError> {
        Ok(Report {
            tally: tally.clone()?,
        })
    }
}

/// It may be kept with each name's transfers.
impl Payload for Report {
    type Whom = Anyone;
}

impl Callback for Report {
    ghost use Rattle.std.specs.Prelude.{⊤, true};
    ghost use Rattle.usb_model.specs.declared.verdict.Rule.TheVariants.{Free};

    ghost rule = { λ c. Free };

    ghost repeats = { λ c. true };

    ghost may_answer = { λ c r v. ⊤ };

    fn call(self, due: Due) -> (Verdict, Option<Report>) {
        let tally = &self.tally;
        if due.status == Status::Completed {
            tally.completed.fetch_add(1, Ordering::SeqCst);
        }
        if tally.called.fetch_add(1, Ordering::SeqCst) != due.n {
            tally.wrong.store(true, Ordering::SeqCst);
        }
        (Verdict::Stop, Some(self))
    }
}
