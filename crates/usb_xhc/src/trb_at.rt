//! A TRB of a transfer ring.

ghost use Rattle.std.specs.Prelude.{◌≡◌, ◌≤◌};
ghost use Rattle.usb_xhc.specs.NormalTrbs.{placed};

use usb_trb::{Normal, Pointer};

/// A Normal TRB of a transfer ring, and its address.
#[derive(Clone, Copy, PartialEq, Eq, Debug)]
pub struct TrbAt {
    /// Its address.
    pub pointer: Pointer,
    /// What it says.
    pub trb: Normal,
}

impl TrbAt {
    /// A Normal TRB as it was read of a ring, with its address; None where none was.
    #[inline(always)]
    pub(crate) fn placed(read: Option<(Pointer, Normal)>) -> Option<TrbAt>
        ensures { result ≡ placed read }
    {
        let (pointer, trb) = read?;
        Some(TrbAt { pointer, trb })
    }

    /// How many bytes it moves.
    pub(crate) fn bytes(&self) -> u32
        ensures value { result ≡ self.now.trb.length }
        ensures below { result ≤ 65536 }
    {
        self.trb.length.bytes()
    }
}
