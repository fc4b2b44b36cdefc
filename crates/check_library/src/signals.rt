//! What the threads of a scene tell each other.

use crossbeam_utils::sync::Unparker;
use std::alloc::{AllocError, Global};
use std::sync::atomic::{AtomicBool, AtomicU64, Ordering};
use std::thread;

/// How often a thread of a scene looks whether another did something, before the scene has failed.
pub const TURNS: u64 = 100_000_000;

/// What is said once, for all threads of a scene to see.
#[derive(Clone, Copy)]
pub enum Mark {
    /// A worker is held at its gate.
    AtGate,
    /// Whoever is held goes on.
    GoOn,
    /// One who was held waited in vain.
    Late,
    /// A callback was told that it ended since there was no place for its transfer.
    CutShort,
    /// A thread looked, and found nothing to do.
    Looked,
    /// Another submitted a transfer.
    Submitted,
}

/// What the threads of one scene said so far.
#[derive(Drop)]
pub struct Signals {
    at_gate: AtomicBool,
    go_on: AtomicBool,
    late: AtomicBool,
    cut_short: AtomicBool,
    looked: AtomicBool,
    submitted: AtomicBool,
    /// How many callbacks of each thread were called.
    pub called: Vec<AtomicU64>,
    sleeper: Unparker,
}

/// For so many threads the count of their callbacks.
fn counts(alloc: Global, threads: usize) -> Result<Vec<AtomicU64>, AllocError> {
    let mut counts = Vec::new(alloc);
    for _ in 0..threads {
        counts.push(AtomicU64::new(0))?;
    }
    Ok(counts)
}

impl Signals {
    /// Nothing was said by so many threads. One may park: this wakes it.
    pub fn new(alloc: Global, threads: usize, sleeper: Unparker) -> Result<Signals, AllocError> {
        Ok(Signals {
            at_gate: AtomicBool::new(false),
            go_on: AtomicBool::new(false),
            late: AtomicBool::new(false),
            cut_short: AtomicBool::new(false),
            looked: AtomicBool::new(false),
            submitted: AtomicBool::new(false),
            called: counts(alloc, threads)?,
            sleeper,
        })
    }

    /// Where a mark stands.
    fn flag(&self, mark: Mark) -> &AtomicBool {
        match mark {
            Mark::AtGate => &self.at_gate,
            Mark::GoOn => &self.go_on,
            Mark::Late => &self.late,
            Mark::CutShort => &self.cut_short,
            Mark::Looked => &self.looked,
            Mark::Submitted => &self.submitted,
        }
    }

    /// Says this.
    pub fn say(&self, mark: Mark) {
        self.flag(mark).store(true, Ordering::SeqCst);
    }

    /// Whether it was said.
    pub fn is_said(&self, mark: Mark) -> bool {
        self.flag(mark).load(Ordering::SeqCst)
    }

    /// Whether those who are held go on within the turns that a scene has.
    fn goes_on(&self) -> bool {
        for _ in 0..TURNS {
            if self.is_said(Mark::GoOn) {
                return true;
            }
            thread::yield_now();
        }
        false
    }

    /// Holds a thread until whoever is held goes on. Where that isn't in time this is said.
    pub fn hold(&self) {
        if !self.goes_on() {
            self.say(Mark::Late);
        }
    }

    /// Whether the thread that parks was woken, and goes on; where it wasn't it is woken here.
    pub fn was_woken(&self) -> bool {
        let was_woken = self.goes_on();
        self.sleeper.unpark();
        was_woken
    }
}
