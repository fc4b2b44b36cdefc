//! What the workers met that a caller should know: want of memory, and callbacks that ended early.

use crate::library::Library;
use crate::payload::Payload;
use std::sync::atomic::{AtomicBool, AtomicU64, Ordering};
use usb_device::Device;
use usb_journal::{Naming, Recorder};

/// What the workers met, since the library was made. Any thread may read it.
#[derive(Drop)]
pub(crate) struct Met {
    lack: AtomicBool,
    cuts: AtomicU64,
}

impl Met {
    /// Nothing.
    pub(crate) fn new() -> Met {
        Met {
            lack: AtomicBool::new(false),
            cuts: AtomicU64::new(0),
        }
    }

    /// Whether it was want of memory.
    pub(crate) fn has_lacked_memory(&self) -> bool {
        self.lack.load(Ordering::SeqCst)
    }

    /// How many callbacks ended early.
    pub(crate) fn cuts(&self) -> u64 {
        self.cuts.load(Ordering::SeqCst)
    }
}

impl<L: Naming, P: Payload, D: Device, J: Recorder> Library<L, P, D, J> {
    /// Whether a worker was refused memory since the library was made. Its step was made later, or the worker gave up.
    pub fn has_lacked_memory(&self) -> bool {
        self.met.has_lacked_memory()
    }

    /// How many callbacks ended early: their verdict was to submit the transfer once more, and that was refused, or there was no
    /// memory for it.
    pub fn cuts(&self) -> u64 {
        self.met.cuts()
    }

    /// A worker was refused memory.
    pub fn note_lack(&self) {
        self.met.lack.store(true, Ordering::SeqCst);
    }

    /// A callback ended early.
    pub fn note_cut(&self) {
        let _before = self.met.cuts.fetch_add(1, Ordering::SeqCst);
    }
}
