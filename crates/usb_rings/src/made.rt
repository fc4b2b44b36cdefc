//! The two rings.

ghost use Rattle.std.specs.Prelude.{◌≡◌, IfOk};
ghost use Rattle.usb_rings.specs.Ring.{empty};

use crate::Segment;
use crate::event_ring::Ring;
use std::alloc::{AllocError, Global};
use usb_trb::Pointer;

/// The address of the command ring's first TRB.
pub const COMMAND_BASE: u64 = 0x2000_0000;

/// The address of the event ring's first TRB.
pub const EVENT_BASE: u64 = 0x3000_0000;

/// The command ring: 256 TRBs, the last a Link (xHCI 1.2, 4.9.3).
pub type CommandRing = Ring<255>;

/// The event ring: one segment of 4,096 TRBs, and no Link (xHCI 1.2, 4.9.4).
pub type EventRing = Ring<4096>;

impl Ring<255> {
    /// An empty command ring.
    pub fn command(alloc: Global) -> Result<Ring<255>, AllocError>
        ensures { IfOk result (λ r. r ≡ empty 255 256 0x2000_0000) }
    {
        let base = Pointer::before(COMMAND_BASE);
        Ok(Ring::over(Segment::<255>::with_link(alloc, base)?))
    }
}

impl Ring<4096> {
    /// An empty event ring.
    pub fn event(alloc: Global) -> Result<Ring<4096>, AllocError>
        ensures { IfOk result (λ r. r ≡ empty 4096 4096 0x3000_0000) }
    {
        let base = Pointer::before(EVENT_BASE);
        Ok(Ring::over(Segment::<4096>::without_link(alloc, base)?))
    }
}
