//! pcap files (pcap-savefile(5)).

ghost use Rattle.std.specs.Prelude.{◌≡◌, ◌+◌, ◌≤◌, ◌++◌, length, IfErr, IfOk, Ok};
ghost use Rattle.trace_faults.specs.CaptureFaults.{IsCaptureFault};
ghost use Rattle.trace_recorded.specs.Files.{begins_with_record, events_in, next_frame, pcap, record_size, records};

use crate::event::{EventHeader, RecordedEvent, event_of};
use crate::number::Endianness;
use crate::packets::past;
use crate::recording::Recording;
use std::alloc::{AllocError, Global};
use trace_faults::CaptureFault;
use usb_model::Sequence;

/// How many bytes stand in front of all records.
const HEADER: usize = 24;

/// How many stand in front of a record's packet.
const RECORD_HEADER: usize = 16;

/// Link types are the low 28 bits of their field; those above say how many bytes of checksum each packet has.
const LINKS: u32 = 0x1000_0000;

/// Whether bytes begin with a whole record.
fn begins_with_record(order: Endianness, bytes: &[u8]) -> bool
    ensures { result ≡ begins_with_record order bytes.now }
{
    bytes.len() >= RECORD_HEADER && record_size(order, bytes) <= bytes.len()
}

/// How many bytes the first record has.
fn record_size(order: Endianness, bytes: &[u8]) -> usize
    requires { 16 ≤ length bytes.now }
    ensures { result ≡ record_size order bytes.now }
{
    RECORD_HEADER + order.u32_at(bytes, 8) as usize
}

/// The number of the packet behind that of a number.
pub(crate) fn next_frame(frame: u64) -> u64
    ensures { result ≡ next_frame frame }
{
    frame.saturating_add(1)
}

/// Puts the event of the packet of a number behind others, if it is one of a bus.
pub(crate) fn push_event(
    alloc: Global,
    events: &mut Sequence<RecordedEvent>,
    order: Endianness,
    header: EventHeader,
    frame: u64,
    packet: &[u8],
) -> Result<(), AllocError>
    ensures { IfOk result (λ _. events.new ≡ events.old ++ events_in order header frame packet.now) }
{
    if let Some(event) = event_of(alloc, order, header, frame, packet)? {
        events.push(event)?;
    }
    Ok(())
}

/// The events of records.
fn records(
    alloc: Global,
    order: Endianness,
    header: EventHeader,
    bytes: &[u8],
) -> Result<Recording, AllocError>
    ensures { IfOk result (λ r. r ≡ records order header bytes.now) }
{
    let mut events = Sequence::new(alloc);
    let mut frame = 1;
    let mut rest = bytes;
    'records: while begins_with_record(order, rest) {
        let size = record_size(order, rest);
        push_event(
            alloc,
            &mut events,
            order,
            header,
            frame,
            &rest[RECORD_HEADER..size],
        )?;
        frame = next_frame(frame);
        rest = past(rest, size);
    }
    let is_cut = !rest.is_empty();
    Ok(Recording { events, is_cut })
}

/// The events of a pcap file with numbers in this order, or why it isn't read.
#[tactic(auto, unfolding(crate::specs::Files::pcap))]
pub(crate) fn pcap(
    alloc: Global,
    order: Endianness,
    capture: &[u8],
) -> Result<Recording, CaptureFault>
    ensures recording { IfOk result (λ r. pcap order capture.now ≡ Ok r) }
    ensures fault { IfErr result (λ fault. IsCaptureFault fault (pcap order capture.now)) }
{
    if capture.len() < HEADER {
        return Err(CaptureFault::HeaderCutShort);
    }
    let link = order.u32_at(capture, 20) % LINKS;
    let Some(header) = EventHeader::of_link(link) else {
        return Err(CaptureFault::LinkType(link));
    };
    Ok(records(alloc, order, header, past(capture, HEADER))?)
}
