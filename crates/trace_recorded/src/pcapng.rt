//! pcapng files (IETF draft "PCAP Now Generic (pcapng) Capture File Format").

ghost use Rattle.std.specs.Prelude.{◌≡◌, ◌+◌, ◌≤◌, length, IfErr, IfOk, Ok};
ghost use Rattle.trace_recorded.specs.Blocks.{IsWithin};
ghost use Rattle.trace_faults.specs.CaptureFaults.{IsCaptureFault};
ghost use Rattle.trace_recorded.specs.Files.{blocks_behind, fields_size, header_of_link, nothing_read, packet_at, pcapng, recording_of, with_block, with_front, with_interface, with_packet};

use crate::block::{
    ENHANCED_PACKET, Front, INTERFACE_DESCRIPTION, OLD_PACKET, SECTION_HEADER, SIMPLE_PACKET,
};
use crate::event::{EventHeader, RecordedEvent};
use crate::number::Endianness;
use crate::pcap::{next_frame, push_event};
use crate::recording::Recording;
use std::alloc::{AllocError, Global};
use trace_faults::CaptureFault;
use usb_model::Sequence;

/// How reading a file ends.
#[derive(Clone, Copy, PartialEq, Eq, Debug)]
pub(crate) enum PcapngEnd {
    /// Behind a block.
    Whole,
    /// Amid one.
    AmidBlock,
    /// At a section that says no byte order.
    UnknownOrder,
}

/// What was read of a file so far.
#[derive(Debug, Drop)]
pub(crate) struct PcapngReading {
    /// The order of the section's numbers.
    order: Endianness,
    /// Its interfaces: what stands in front of their packets' data; None where one isn't of a recorder of buses.
    headers: Sequence<Option<EventHeader>>,
    /// Whether an interface of any section is of a recorder of buses.
    has_usbmon: bool,
    /// The number of the next packet, from 1 on.
    frame: u64,
    /// The events, in the order of the file.
    events: Sequence<RecordedEvent>,
    /// How it ended, if it did.
    ending: PcapngEnd,
}

/// As many bytes of a block's body from a place on as its number at another says, as far as they are there.
fn packet_at(order: Endianness, length_at: usize, place: usize, body: &[u8]) -> &[u8]
    requires length_at { length_at + 4 ≤ length body.now }
    requires place { place ≤ length body.now }
    ensures { result.now ≡ packet_at order length_at place body.now }
{
    let behind = &body[place..];
    behind
        .get(..order.u32_at(body, length_at) as usize)
        .unwrap_or(behind)
}

impl PcapngReading {
    /// Nothing is read yet.
    fn new(alloc: Global) -> PcapngReading
        ensures { result ≡ nothing_read }
    {
        PcapngReading {
            order: Endianness::Little,
            headers: Sequence::new(alloc),
            has_usbmon: false,
            frame: 1,
            events: Sequence::new(alloc),
            ending: PcapngEnd::Whole,
        }
    }

    /// One more interface, of this link type.
    fn read_interface(&mut self, link: u16) -> Result<(), AllocError>
        ensures { IfOk result (λ _. self.new ≡ with_interface (header_of_link link) self.old) }
    {
        let header = EventHeader::of_link(u32::from(link));
        self.headers.push(header)?;
        self.has_usbmon = self.has_usbmon || header.is_some();
        Ok(())
    }

    /// One more packet, of the interface of this number.
    fn read_packet(
        &mut self,
        alloc: Global,
        interface: u32,
        order: Endianness,
        packet: &[u8],
    ) -> Result<(), AllocError>
        ensures { IfOk result (λ _. self.new ≡ with_packet interface order packet.now self.old) }
    {
        let header = self.headers.as_slice().get(interface as usize).copied();
        let frame = self.frame;
        self.frame = next_frame(frame);
        match header {
            Some(Some(header)) => push_event(alloc, &mut self.events, order, header, frame, packet),
            _ => Ok(()),
        }
    }

    /// One more block, of this type.
    #[tactic(auto, unfolding(crate::specs::Files::with_block))]
    fn read_block(
        &mut self,
        alloc: Global,
        kind: u32,
        order: Endianness,
        body: &[u8],
    ) -> Result<(), AllocError>
        requires { fields_size kind ≤ length body.now }
        ensures { IfOk result (λ _. self.new ≡ with_block kind order body.now self.old) }
    {
        match kind {
            SECTION_HEADER => {
                self.order = order;
                self.headers = Sequence::new(alloc);
                Ok(())
            }
            INTERFACE_DESCRIPTION => self.read_interface(order.u16_at(body, 0)),
            OLD_PACKET => {
                let interface = u32::from(order.u16_at(body, 0));
                self.read_packet(alloc, interface, order, packet_at(order, 12, 20, body))
            }
            SIMPLE_PACKET => self.read_packet(alloc, 0, order, packet_at(order, 0, 4, body)),
            ENHANCED_PACKET => {
                let interface = order.u32_at(body, 0);
                self.read_packet(alloc, interface, order, packet_at(order, 12, 20, body))
            }
            _ => Ok(()),
        }
    }

    /// What stands in front of bytes is read.
    fn read(&mut self, alloc: Global, front: Front, bytes: &[u8]) -> Result<(), AllocError>
        requires { IsWithin front bytes.now }
        ensures { IfOk result (λ _. self.new ≡ with_front front bytes.now self.old) }
    {
        match front {
            Front::Block { order, size } => {
                let kind = order.u32_at(bytes, 0);
                self.read_block(alloc, kind, order, &bytes[8..size - 4])
            }
            Front::Amid => {
                self.ending = PcapngEnd::AmidBlock;
                Ok(())
            }
            Front::Unknown => {
                self.ending = PcapngEnd::UnknownOrder;
                Ok(())
            }
        }
    }

    /// What was recorded in a file of which this was read, or why it isn't read.
    fn into_recording(self) -> Result<Recording, CaptureFault>
        ensures { result ≡ recording_of self }
    {
        let PcapngReading {
            order: _,
            headers: _,
            has_usbmon,
            frame: _,
            events,
            ending,
        } = self;
        let is_cut = match ending {
            PcapngEnd::UnknownOrder => return Err(CaptureFault::NotACapture),
            PcapngEnd::AmidBlock => true,
            PcapngEnd::Whole => false,
        };
        if !has_usbmon {
            return Err(CaptureFault::NoInterface);
        }
        Ok(Recording { events, is_cut })
    }
}

/// What was read of all blocks.
fn blocks(alloc: Global, bytes: &[u8]) -> Result<PcapngReading, AllocError>
    ensures { IfOk result (λ reading. reading ≡ blocks_behind (length bytes.now) nothing_read bytes.now) }
{
    let mut reading = PcapngReading::new(alloc);
    let mut rest = bytes;
    while !rest.is_empty() {
        let front = Front::of(reading.order, rest);
        reading.read(alloc, front, rest)?;
        rest = front.past(rest);
    }
    Ok(reading)
}

/// The events of a pcapng file, or why it isn't read.
#[tactic(auto, unfolding(crate::specs::Files::pcapng))]
pub(crate) fn pcapng(alloc: Global, capture: &[u8]) -> Result<Recording, CaptureFault>
    ensures recording { IfOk result (λ r. pcapng capture.now ≡ Ok r) }
    ensures fault { IfErr result (λ fault. IsCaptureFault fault (pcapng capture.now)) }
{
    blocks(alloc, capture)?.into_recording()
}
