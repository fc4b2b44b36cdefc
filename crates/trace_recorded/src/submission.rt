//! What is kept of a submission while its transfer is in flight.

ghost use Rattle.std.specs.Prelude.{◌≡◌, IfOk};
ghost use Rattle.trace_recorded.specs.Endpoints.{asked_at_least, asked_of, moved_of, transfer_of};

use crate::event::RecordedEvent;
use crate::transfer::{RecordedEnd, RecordedTransfer};
use std::alloc::{AllocError, Global};
use usb_model::{Bytes, EndpointInfo, Sequence};

/// What is kept of a submission while its transfer is in flight.
#[derive(Drop)]
pub(crate) struct RecordedSubmission {
    /// How many bytes were asked for;
    pub(crate) length: u32,
    /// whether that was recorded.
    pub(crate) is_counted: bool,
    /// The transfer flags.
    pub(crate) flags: u32,
    /// The bytes that it writes, as far as they were recorded.
    pub(crate) bytes: Bytes,
    /// How often the endpoint's halt was ended before.
    pub(crate) clears: u64,
    /// The packet of the capture that has it.
    pub(crate) frame: u64,
}

/// How many bytes a transfer asked for, where that wasn't recorded: as many as moved, and a packet more where too many came.
fn asked_at_least(size: u16, event: &RecordedEvent) -> u32
    ensures { result ≡ asked_at_least size event.now }
{
    if RecordedEnd::of(event.status).is_too_long() {
        event.length.saturating_add(u32::from(size))
    } else {
        event.length
    }
}

impl RecordedSubmission {
    /// How many bytes were asked for, at an endpoint of this packet size.
    fn asked(&self, size: u16, event: &RecordedEvent) -> u32
        ensures { result ≡ asked_of size self.now event.now }
    {
        if self.is_counted {
            self.length
        } else {
            asked_at_least(size, event)
        }
    }

    /// How many moved: of a write all, where that wasn't recorded and it was done.
    fn moved(&self, event: &RecordedEvent) -> u32
        ensures { result ≡ moved_of self.now event.now }
    {
        if event.is_counted {
            event.length
        } else if event.status == 0 {
            self.length
        } else {
            0
        }
    }

    /// The transfer of a submission and its callback.
    pub(crate) fn into_transfer(
        self,
        alloc: Global,
        info: &EndpointInfo,
        event: &RecordedEvent,
    ) -> Result<RecordedTransfer, AllocError>
        ensures { IfOk result (λ transfer. transfer ≡ transfer_of info.now self event.now) }
    {
        let (asked, moved) = (self.asked(info.packet_size, event), self.moved(event));
        let flags = self.flags;
        let bytes = if info.address.is_in() {
            copied(alloc, event.bytes.as_slice())?
        } else {
            self.bytes
        };
        Ok(RecordedTransfer {
            ep: info.address,
            asked,
            zero_packet: flags / 64 % 2 == 1,
            moved,
            end: RecordedEnd::of(event.status),
            bytes,
        })
    }
}

/// A copy of bytes.
pub(crate) fn copied(alloc: Global, bytes: &[u8]) -> Result<Bytes, AllocError>
    ensures { IfOk result (λ copy. copy ≡ bytes.now) }
{
    Ok(Sequence::from_vec(Vec::from_slice(alloc, bytes)?))
}
