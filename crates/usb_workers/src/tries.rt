//! How often a worker tries again where memory is refused.

ghost use Rattle.std.specs.Prelude.{◌≡◌, ◌≤◌, ◌<◌, ◌+◌, ◌^◌, true};

use std::sync::Wait;
use std::thread::Parker;
use std::time::Duration;
use usb_device::Device;
use usb_journal::{Naming, Recorder};
use usb_library::{Library, Payload};

/// How often in a row a worker that was asked to stop is refused memory before it gives up.
const MOST: u32 = 100;

/// How many milliseconds it waits before it tries again.
const PAUSE: u64 = 1;

/// How often in a row a worker was refused memory.
#[derive(Drop)]
pub(crate) struct Tries {
    refused: u32,
    parker: Parker,
}

impl Tries {
    /// Not yet.
    pub(crate) fn new() -> Tries
        ensures { result.refused ≡ 0 }
    {
        Tries {
            refused: 0,
            parker: Parker::new(),
        }
    }

    /// A step was made.
    pub(crate) fn done(&mut self)
        ensures { self.new.refused ≡ 0 }
    {
        self.refused = 0;
    }

    /// Memory was refused for a step: the library is told. The worker waits a moment, and then it may be tried again.
    pub(crate) fn refused<L: Naming, P: Payload, D: Device, J: Recorder, R: Wait>(
        &mut self,
        rt: &R,
        library: &Library<L, P, D, J>,
    )
        ensures { (self.new.refused ≤ self.old.refused + 1) × (self.new.refused < 2 ^ 32) }
    {
        self.refused = self.refused.saturating_add(1);
        library.note_lack();
        self.parker.park_timeout(rt, Duration::from_millis(PAUSE));
    }

    /// Whether the worker gives up: it was asked to stop, and there is no memory for what is still to be done.
    pub(crate) fn are_over<L: Naming, P: Payload, D: Device, J: Recorder>(
        &self,
        library: &Library<L, P, D, J>,
    ) -> bool
        ensures { result ≡ true → 100 ≤ self.now.refused }
    {
        self.refused >= MOST && library.is_stopping()
    }
}
