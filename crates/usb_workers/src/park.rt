//! How a worker waits.

use crossbeam_utils::Backoff;
use crossbeam_utils::sync::Parker;
use std::alloc::Global;
use std::sync::Wait;
use usb_device::Device;
use usb_journal::{Naming, Recorder};
use usb_library::{Library, Payload, WorkerPart};

/// How often a worker looks whether it was woken before it sleeps: some fifty microseconds, by pauses that double up to 64, and
/// then by yields. What comes at all mostly comes within ten, and to be woken from sleep takes some more.
const LOOKS: u32 = 128;

/// What a worker waits on while there is nothing to do. Where memory was refused for a parker it doesn't wait, and looks
/// again and again.
#[derive(Drop)]
pub(crate) struct Parking {
    part: WorkerPart,
    parker: Option<Parker>,
    /// How often its part had been woken when it went on last.
    wakes: u64,
}

impl Parking {
    /// A parker that the library unparks where there may be work of this part, if there is memory for one.
    pub(crate) fn new<L: Naming, P: Payload, D: Device, J: Recorder, R: Wait>(
        rt: &R,
        alloc: Global,
        library: &Library<L, P, D, J>,
        part: WorkerPart,
    ) -> Parking {
        Parking {
            part,
            parker: watched(rt, alloc, library, part),
            wakes: library.wakes(part),
        }
    }

    /// Waits for work since the last look; what came meanwhile lets it pass at once.
    pub(crate) fn park<L: Naming, P: Payload, D: Device, J: Recorder, R: Wait>(
        &mut self,
        rt: &R,
        library: &Library<L, P, D, J>,
    ) {
        let Some(parker) = &self.parker else {
            return;
        };
        watch_for_a_while(library, self.part, self.wakes);
        parker.park(rt);
        self.wakes = library.wakes(self.part);
    }
}

/// Waits without sleeping until the part is woken once more than so often, but not for long: most often the next work comes soon.
fn watch_for_a_while<L: Naming, P: Payload, D: Device, J: Recorder>(
    library: &Library<L, P, D, J>,
    part: WorkerPart,
    wakes: u64,
) {
    let backoff = Backoff::new();
    for _ in 0..LOOKS {
        if library.wakes(part) != wakes {
            return;
        }
        backoff.snooze();
    }
}

/// A parker among the library's watchers.
fn watched<L: Naming, P: Payload, D: Device, J: Recorder, R: Wait>(
    rt: &R,
    alloc: Global,
    library: &Library<L, P, D, J>,
    part: WorkerPart,
) -> Option<Parker> {
    let parker = Parker::new(alloc).ok()?;
    let unparker = parker.unparker().clone().ok()?;
    library.watch_part(rt, part, unparker).ok()?;
    Some(parker)
}
