//! An event of a bus, read from the bytes of a captured packet.

ghost use Rattle.std.specs.Prelude.{◌≡◌, ◌+◌, ◌≤◌, length, IfOk};
ghost use Rattle.trace_recorded.specs.Events.{data_of, event_of, flags_of, header_size, linux_event, setup_of, type_of};
ghost use Rattle.trace_recorded.specs.Packets.{kind_of, setup_at};

use crate::number::{Endianness, byte_at};
use crate::windows::windows_event;
use std::alloc::{AllocError, Global};
use trace_capture::ControlSetup;
use usb_model::{Bytes, EpAddr, Kind, Sequence};

/// What stands in front of a packet's data, by the link type of its interface (pcap-linktype(7)).
#[derive(Clone, Copy, PartialEq, Eq, Debug)]
pub enum EventHeader {
    /// 64 bytes: LINKTYPE_USB_LINUX_MMAPPED, 220.
    Mapped,
    /// 48 bytes, without the transfer flags: LINKTYPE_USB_LINUX, 189.
    Plain,
    /// 27 bytes, and more of some kinds, of Windows' recorder: LINKTYPE_USBPCAP, 249.
    Windows,
}

/// What happened to a transfer (Linux, Documentation/usb/usbmon.rst, "Event Type").
#[derive(Clone, Copy, PartialEq, Eq, Debug)]
pub enum RecordedType {
    /// It was submitted: the letter S.
    Submission,
    /// It ended: the letter C.
    Callback,
    /// Its submission failed: the letter E.
    SubmissionError,
}

/// One event of a bus as it was recorded (Linux, Documentation/usb/usbmon.rst, "Raw binary format and API"; USBPcap, "USBPcap Capture
/// format"). Its time isn't read.
#[derive(Debug, Drop)]
pub struct RecordedEvent {
    /// Which packet of the capture it is, from 1 on, as Wireshark counts them; it stays at the largest number of 64 bits.
    pub frame: u64,
    /// The same at a transfer's submission and at its callback.
    pub id: u64,
    /// What happened.
    pub event_type: RecordedType,
    /// The kind of the transfer's endpoint.
    pub kind: Kind,
    /// The endpoint.
    pub ep: EpAddr,
    /// The device's address on its bus.
    pub device: u8,
    /// The number of the bus.
    pub bus: u16,
    /// How the transfer stands: 32 bits in two's complement, 0 or a negative error number.
    pub status: u32,
    /// At a submission how many bytes it is to move, at a callback how many moved.
    pub length: u32,
    /// Whether that was recorded. Windows' recorder has it neither of a read's submission nor of a write's callback.
    pub is_counted: bool,
    /// What a control transfer asks for, where it was recorded.
    pub setup: Option<ControlSetup>,
    /// What is asked for beside the bytes (Linux, include/linux/usb.h, `transfer_flags`); 0 where the header has none.
    pub flags: u32,
    /// The bytes that were recorded; fewer than moved, where the capture cut them off.
    pub bytes: Bytes,
}

impl EventHeader {
    /// How many bytes it has.
    pub fn size(self) -> usize
        ensures { result ≡ header_size self }
    {
        match self {
            EventHeader::Mapped => 64,
            EventHeader::Plain => 48,
            EventHeader::Windows => 27,
        }
    }
}

/// The type of this letter.
fn type_of(letter: u8) -> Option<RecordedType>
    ensures { result ≡ type_of letter }
{
    match letter {
        0x53 => Some(RecordedType::Submission),
        0x43 => Some(RecordedType::Callback),
        0x45 => Some(RecordedType::SubmissionError),
        _ => None,
    }
}

/// The kind of this number, which is the same in either recorder.
pub(crate) fn kind_of(number: u8) -> Option<Kind>
    ensures { result ≡ kind_of number }
{
    match number {
        0 => Some(Kind::Isochronous),
        1 => Some(Kind::Interrupt),
        2 => Some(Kind::Control),
        3 => Some(Kind::Bulk),
        _ => None,
    }
}

/// What a control transfer asks for: eight bytes in the order of the bus (USB 2.0, 8.1 and 9.3), whatever the capture's is.
pub(crate) fn setup_at(place: usize, packet: &[u8]) -> ControlSetup
    requires { place + 8 ≤ length packet.now }
    ensures { result ≡ setup_at place packet.now }
{
    ControlSetup {
        request_type: byte_at(packet, place),
        request: byte_at(packet, place + 1),
        value: Endianness::Little.u16_at(packet, place + 2),
        index: Endianness::Little.u16_at(packet, place + 4),
        length: Endianness::Little.u16_at(packet, place + 6),
    }
}

/// The same, where it was recorded.
fn setup_of(kind: Kind, packet: &[u8]) -> Option<ControlSetup>
    requires { 48 ≤ length packet.now }
    ensures { result ≡ setup_of kind packet.now }
{
    match (kind, byte_at(packet, 14)) {
        (Kind::Control, 0) => Some(setup_at(40, packet)),
        _ => None,
    }
}

/// The transfer flags.
fn flags_of(order: Endianness, header: EventHeader, packet: &[u8]) -> u32
    requires { header_size header ≤ length packet.now }
    ensures { result ≡ flags_of order header packet.now }
{
    match header {
        EventHeader::Mapped => order.u32_at(packet, 56),
        EventHeader::Plain | EventHeader::Windows => 0,
    }
}

/// The bytes behind the header, at most as many as it says.
fn data_of(
    alloc: Global,
    order: Endianness,
    header: EventHeader,
    packet: &[u8],
) -> Result<Bytes, AllocError>
    requires usbmon { 48 ≤ header_size header }
    requires long { header_size header ≤ length packet.now }
    ensures { IfOk result (λ bytes. bytes ≡ data_of order header packet.now) }
{
    let data = &packet[header.size()..];
    let kept = data
        .get(..order.u32_at(packet, 36) as usize)
        .unwrap_or(data);
    Ok(Sequence::from_vec(Vec::from_slice(alloc, kept)?))
}

/// The event of a packet of usbmon's.
#[tactic(auto, unfolding(crate::specs::Events::linux_event))]
fn linux_event(
    alloc: Global,
    order: Endianness,
    header: EventHeader,
    frame: u64,
    packet: &[u8],
) -> Result<Option<RecordedEvent>, AllocError>
    requires { 48 ≤ header_size header }
    ensures { IfOk result (λ event. event ≡ linux_event order header frame packet.now) }
{
    if packet.len() < header.size() {
        return Ok(None);
    }
    let Some(event_type) = type_of(byte_at(packet, 8)) else {
        return Ok(None);
    };
    let Some(kind) = kind_of(byte_at(packet, 9)) else {
        return Ok(None);
    };
    Ok(Some(RecordedEvent {
        frame,
        id: order.u64_at(packet, 0),
        event_type,
        kind,
        ep: EpAddr::new(byte_at(packet, 10)),
        device: byte_at(packet, 11),
        bus: order.u16_at(packet, 12),
        status: order.u32_at(packet, 28),
        length: order.u32_at(packet, 32),
        is_counted: true,
        setup: setup_of(kind, packet),
        flags: flags_of(order, header, packet),
        bytes: data_of(alloc, order, header, packet)?,
    }))
}

/// The event of a captured packet's bytes, where it is the packet of this number; None where it is too short for its header, or its type or
/// kind isn't known.
#[tactic(auto, unfolding(crate::specs::Events::event_of))]
pub fn event_of(
    alloc: Global,
    order: Endianness,
    header: EventHeader,
    frame: u64,
    packet: &[u8],
) -> Result<Option<RecordedEvent>, AllocError>
    ensures { IfOk result (λ event. event ≡ event_of order header frame packet.now) }
{
    match header {
        EventHeader::Windows => windows_event(alloc, frame, packet),
        EventHeader::Mapped | EventHeader::Plain => linux_event(
            alloc, order, header, frame, packet,
        ),
    }
}
