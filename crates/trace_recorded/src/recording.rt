//! The events of a capture file.

ghost use Rattle.std.specs.Prelude.{◌≡◌, IfErr, IfOk, Ok};
ghost use Rattle.trace_faults.specs.CaptureFaults.{IsCaptureFault};
ghost use Rattle.trace_recorded.specs.Files.{form_of, header_of_link, recording};

use crate::event::{EventHeader, RecordedEvent};
use crate::number::Endianness;
use crate::pcap::pcap;
use crate::pcapng::pcapng;
use std::alloc::Global;
use trace_faults::CaptureFault;
use usb_model::Sequence;

/// What was recorded in a capture file.
#[derive(Debug, Drop)]
pub(crate) struct Recording {
    /// The events, in the order of the file.
    pub(crate) events: Sequence<RecordedEvent>,
    /// Whether the file ends amid a record or a block.
    pub(crate) is_cut: bool,
}

/// The form of a capture file.
#[derive(Clone, Copy, PartialEq, Eq, Debug)]
pub(crate) enum FileForm {
    /// pcap, with numbers in this order (pcap-savefile(5)).
    Pcap(Endianness),
    /// pcapng, whose sections each say their order.
    Pcapng,
}

impl FileForm {
    /// The form of a file, by its first four bytes.
    fn of(capture: &[u8]) -> Option<FileForm>
        ensures { result ≡ form_of capture.now }
    {
        if capture.len() < 4 {
            return None;
        }
        match Endianness::Little.u32_at(capture, 0) {
            0xa1b2_c3d4 | 0xa1b2_3c4d => Some(FileForm::Pcap(Endianness::Little)),
            0xd4c3_b2a1 | 0x4d3c_b2a1 => Some(FileForm::Pcap(Endianness::Big)),
            0x0a0d_0d0a => Some(FileForm::Pcapng),
            _ => None,
        }
    }
}

impl EventHeader {
    /// That of an interface of this link type; None where it isn't of a recorder of buses.
    pub(crate) fn of_link(link: u32) -> Option<EventHeader>
        ensures { result ≡ header_of_link link }
    {
        match link {
            220 => Some(EventHeader::Mapped),
            189 => Some(EventHeader::Plain),
            249 => Some(EventHeader::Windows),
            _ => None,
        }
    }
}

/// The events of a capture file, or why it isn't read.
#[tactic(auto, unfolding(crate::specs::Files::recording))]
pub(crate) fn read_recording(alloc: Global, capture: &[u8]) -> Result<Recording, CaptureFault>
    ensures recording { IfOk result (λ r. recording capture.now ≡ Ok r) }
    ensures fault { IfErr result (λ fault. IsCaptureFault fault (recording capture.now)) }
{
    match FileForm::of(capture) {
        None => Err(CaptureFault::NotACapture),
        Some(FileForm::Pcap(order)) => pcap(alloc, order, capture),
        Some(FileForm::Pcapng) => pcapng(alloc, capture),
    }
}
