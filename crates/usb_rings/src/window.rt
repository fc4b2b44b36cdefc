//! TRBs at places behind one another.

ghost use Rattle.std.specs.Prelude.{◌≡◌, ◌+◌, ◌≤◌, ◌<◌, length, replicate};
ghost use Rattle.usb_trb.specs.declared.kind.TrbKind.TheVariants.{NoOp};
ghost use Rattle.usb_rings.specs.Places.{after};
ghost use Rattle.usb_rings.specs.Memory.{puts};
ghost use Rattle.usb_rings.specs.Written.{kinds, AllKinds, IsWritten};
ghost use Rattle.usb_rings.specs.Line.{places, capacity, normals, no_ops};
ghost use Rattle.usb_rings.specs.View.{back};

use crate::size::PLACES;
use crate::{Segment, place_after, place_before};
use usb_trb::{Normal, TrbKind};

/// Writes TRBs at a place and those behind it.
pub fn write(segment: &mut Segment<PLACES>, place: usize, trbs: &[Normal]) -> usize
    requires place { place < 254 }
    requires few { length trbs.now ≤ capacity }
    ensures memory { segment.new ≡ puts places segment.old place (normals trbs.now) }
    ensures place { result ≡ after places place (length trbs.now) }
    ensures ranges { AllKinds (normals trbs.now) }
{
    let mut at = place;
    for trb in trbs {
        segment.put(at, TrbKind::Normal(*trb));
        at = place_after::<PLACES>(at, 1);
    }
    at
}

/// Writes No Ops at a place and those behind it.
pub fn write_no_ops(segment: &mut Segment<PLACES>, place: usize, count: usize)
    requires place { place < 254 }
    requires few { count ≤ capacity }
    ensures { segment.new ≡ puts places segment.old place (replicate count NoOp) }
{
    let mut at = place;
    let mut rest = count;
    while rest > 0 {
        segment.put(at, TrbKind::NoOp);
        at = place_after::<PLACES>(at, 1);
        rest -= 1;
    }
}

/// How many places are left before enqueue, once No Ops are passed over.
pub fn past_no_ops(segment: &Segment<PLACES>, enqueue: usize, left: usize) -> usize
    requires place { enqueue < 254 }
    requires few { left ≤ capacity }
    requires written { IsWritten places segment.now (back enqueue left) left }
    ensures { result + no_ops (kinds places segment.now (back enqueue left) left) ≡ left }
{
    let mut rest = left;
    while rest > 0 && segment.is_no_op(place_before::<PLACES>(enqueue, rest)) {
        rest -= 1;
    }
    rest
}
