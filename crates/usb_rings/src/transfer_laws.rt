//! Laws over calls, as functions that do no more than these calls.

ghost use Rattle.std.specs.Prelude.{◌≡◌, ◌≤◌, length, true};
ghost use Rattle.usb_rings.specs.Line.{moved_to};

use crate::transfer_ring::TransferRing;

/// A Set TR Dequeue Pointer command with the pointer to an item, or to enqueue, leads where `move_to` goes (xHCI 1.2, 4.6.10).
pub fn a_pointer_to_an_item_leads_there(ring: &mut TransferRing, item: usize) -> bool
    requires { item ≤ length ring.old.line.items }
    ensures found { result ≡ true }
    ensures line { ring.new.line ≡ moved_to ring.old.line item }
    ensures memory { ring.new.memory ≡ ring.old.memory }
{
    let (pointer, _) = ring.pointer_to(item);
    ring.set_dequeue(pointer)
}
