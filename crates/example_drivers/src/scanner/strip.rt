//! What a scanner's transfers tell: their callback, and the count that it keeps.

use std::alloc::AllocError;
use std::sync::Arc;
use std::sync::atomic::{AtomicBool, AtomicU64, Ordering};
use tirnouch::{Anyone, Callback, Due, Payload, Verdict};

/// What was scanned so far. The callback's thread writes it, the scanner's own reads it.
#[derive(Drop)]
pub struct Tally {
    /// How many callbacks were called.
    called: AtomicU64,
    /// How many transfers have a number.
    numbered: AtomicU64,
    /// How many bytes came.
    bytes: AtomicU64,
    /// How many callbacks came out of their order.
    misplaced_callbacks: AtomicU64,
    /// How many bytes came out of their order.
    misplaced_bytes: AtomicU64,
    /// Whether no more is wanted.
    enough: AtomicBool,
}

impl Tally {
    /// Nothing came, of so many transfers.
    pub fn new(numbered: u64) -> Tally {
        Tally {
            called: AtomicU64::new(0),
            numbered: AtomicU64::new(numbered),
            bytes: AtomicU64::new(0),
            misplaced_callbacks: AtomicU64::new(0),
            misplaced_bytes: AtomicU64::new(0),
            enough: AtomicBool::new(false),
        }
    }

    /// How many callbacks were called, and how many there will be.
    pub fn callbacks(&self) -> (u64, u64) {
        let called = self.called.load(Ordering::SeqCst);
        (called, self.numbered.load(Ordering::SeqCst))
    }

    /// No more is wanted.
    pub fn stop(&self) {
        self.enough.store(true, Ordering::SeqCst);
    }

    /// How many callbacks and how many bytes came out of their order.
    pub fn misplaced(&self) -> (u64, u64) {
        let callbacks = self.misplaced_callbacks.load(Ordering::SeqCst);
        (callbacks, self.misplaced_bytes.load(Ordering::SeqCst))
    }

    /// Bytes came; those of this scanner are numbered from 1 on, 255 followed by 0.
    fn note(&self, bytes: &[u8]) {
        let before = self.bytes.fetch_add(bytes.len() as u64, Ordering::SeqCst);
        let mut last = before.to_le_bytes()[0];
        for byte in bytes {
            last = last.wrapping_add(1);
            if *byte != last {
                self.misplaced_bytes.fetch_add(1, Ordering::SeqCst);
            }
        }
    }

    /// The callback of this number was called; the next is that of the number behind it.
    fn count(&self, number: u64) {
        if self.called.fetch_add(1, Ordering::SeqCst) != number {
            self.misplaced_callbacks.fetch_add(1, Ordering::SeqCst);
        }
    }

    /// Whether a transfer is to be submitted once more.
    fn goes_on(&self) -> bool {
        if self.enough.load(Ordering::SeqCst) {
            return false;
        }
        self.numbered.fetch_add(1, Ordering::SeqCst);
        true
    }
}

/// The callback of each transfer: notes what came, and asks for the next strip of the page.
#[derive(Drop)]
pub struct Strip {
    tally: Arc<Tally>,
}

impl Strip {
    /// The callback that keeps this tally.
    pub fn new(tally: &Arc<Tally>) -> Result<Strip, AllocError> {
        Ok(Strip {
            tally: tally.clone()?,
        })
    }
}

/// It may be kept with each name's transfers.
impl Payload for Strip {
    type Whom = Anyone;
}

impl Callback for Strip {
    ghost use Rattle.std.specs.Prelude.{⊤, true};
    ghost use Rattle.usb_model.specs.declared.verdict.Rule.TheVariants.{Free};

    ghost rule = { λ c. Free };

    ghost repeats = { λ c. true };

    ghost may_answer = { λ c r v. ⊤ };

    fn call(self, due: Due) -> (Verdict, Option<Strip>) {
        self.tally.note(due.bytes.as_slice());
        let verdict = if self.tally.goes_on() {
            Verdict::Again
        } else {
            Verdict::Stop
        };
        self.tally.count(due.n);
        (verdict, Some(self))
    }
}
