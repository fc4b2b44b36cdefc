//! The ranges of a TRB's fields, which their types keep. These functions are called for what they ensure alone.

ghost use Rattle.std.specs.Prelude.{◌<◌, ◌^◌};
ghost use Rattle.usb_trb.specs.Words.{IsLength, IsPointer, IsSlot, IsId, IsKind};

use crate::field::{EndpointId, Pointer, Slot};
use crate::kind::{Normal, TrbKind};
use crate::words::{top_byte, whole};

impl TrbKind {
    /// The fields are in their ranges.
    pub(crate) fn know_ranges(&self)
        ensures { IsKind self.now }
    {
        match *self {
            TrbKind::Normal(normal) => know_normal(normal),
            TrbKind::Link { segment, .. } => know_pointer(segment),
            TrbKind::NoOp => {}
            TrbKind::ResetEndpoint { slot, id } | TrbKind::StopEndpoint { slot, id } => {
                know_endpoint(slot, id);
            }
            TrbKind::SetDequeue {
                pointer,
                slot,
                id,
                ..
            } => {
                know_pointer(pointer);
                know_endpoint(slot, id);
            }
            TrbKind::TransferEvent {
                pointer,
                residual,
                code,
                slot,
                id,
            } => {
                know_pointer(pointer);
                let _status = residual.bytes() + top_byte(code);
                know_endpoint(slot, id);
            }
            TrbKind::CommandCompletion {
                pointer,
                code,
                slot,
            } => {
                know_pointer(pointer);
                let _status = top_byte(code);
                let _slot = slot.number();
            }
        }
    }
}

/// The ranges of a Normal TRB.
fn know_normal(normal: Normal)
    ensures { (normal.buffer < 2 ^ 64) × IsLength normal.length }
{
    let _parameter = whole(normal.buffer);
    let _status = normal.length.bytes();
}

/// The range of an address that is a multiple of 16.
fn know_pointer(pointer: Pointer)
    ensures { IsPointer pointer }
{
    let _parameter = pointer.address();
}

/// The ranges of a slot and an endpoint id.
fn know_endpoint(slot: Slot, id: EndpointId)
    ensures { IsSlot slot × IsId id }
{
    let _numbers = (slot.number(), id.number());
}
