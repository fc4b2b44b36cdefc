//! An event of a bus as Windows' recorder writes it (USBPcap, "USBPcap Capture format"), with the lowest byte of each number first.

ghost use Rattle.std.specs.Prelude.{◌≡◌, ◌≤◌, length, IfOk};
ghost use Rattle.trace_recorded.specs.Windows.{clears_stall, direction_of, error_of, is_told, resets_pipe, windows_callback, windows_control, windows_data, windows_event, windows_head, windows_status, windows_submission, windows_transfer};

use crate::configuration::byte_or_zero;
use crate::event::{RecordedEvent, RecordedType, kind_of, setup_at};
use crate::number::{Endianness, byte_at};
use crate::packets::past;
use crate::submission::copied;
use std::alloc::{AllocError, Global};
use trace_capture::ControlSetup;
use usb_model::{EpAddr, Kind, Sequence};

/// How many bytes each packet has in front of its data at least.
const HEADER: usize = 27;

/// Whether a function of Windows ends the halt of an endpoint: URB_FUNCTION_SYNC_RESET_PIPE_AND_CLEAR_STALL and
/// URB_FUNCTION_SYNC_CLEAR_STALL (Windows, usb.h).
fn clears_stall(function: u16) -> bool
    ensures { result ≡ clears_stall function }
{
    matches!(function, 0x1e | 0x31)
}

/// Whether it goes to the device or comes from it, by the lowest bit of its flags.
fn direction_of(info: u8) -> RecordedType
    ensures { result ≡ direction_of info }
{
    if info % 2 == 0 {
        RecordedType::Submission
    } else {
        RecordedType::Callback
    }
}

/// The number of Linux' error that says what a status of Windows says (Windows, usb.h, USBD_STATUS; Linux, errno.h).
fn error_of(status: u32) -> u32
    ensures { result ≡ error_of status }
{
    match status {
        0 => 0,
        0x8000_0900 | 0xc000_0009 => 121,
        0xc000_0004 | 0xc000_0030 => 32,
        0xc000_0001
        | 0xc000_0002
        | 0xc000_0003
        | 0xc000_0005
        | 0xc000_0006
        | 0xc000_0007
        | 0xc000_0011
        | 0xc000_0014 => 71,
        0xc000_0008 | 0xc000_0012 => 75,
        0xc001_0000 => 2,
        _ => 108,
    }
}

/// The same as a status of Linux.
fn windows_status(status: u32) -> u32
    ensures { result ≡ windows_status status }
{
    error_of(status).wrapping_neg()
}

/// Whether a packet tells how many bytes it is about: the submission of a write, and the callback of a read.
fn is_told(event_type: RecordedType, ep: EpAddr) -> bool
    ensures { result ≡ is_told event_type ep }
{
    match event_type {
        RecordedType::Submission => !ep.is_in(),
        RecordedType::Callback | RecordedType::SubmissionError => ep.is_in(),
    }
}

/// The data of a packet: as many bytes as it says, behind its header, which says how long it is.
fn windows_data(packet: &[u8]) -> &[u8]
    requires { 27 ≤ length packet.now }
    ensures { result.now ≡ windows_data packet.now }
{
    let behind = past(packet, usize::from(Endianness::Little.u16_at(packet, 0)));
    behind
        .get(..Endianness::Little.u32_at(packet, 23) as usize)
        .unwrap_or(behind)
}

/// What each packet says, as an event of the default control endpoint's kind without data.
fn windows_head(alloc: Global, frame: u64, packet: &[u8]) -> RecordedEvent
    requires { 27 ≤ length packet.now }
    ensures { result ≡ windows_head frame packet.now }
{
    RecordedEvent {
        frame,
        id: Endianness::Little.u64_at(packet, 2),
        event_type: direction_of(byte_at(packet, 16)),
        kind: Kind::Control,
        ep: EpAddr::new(byte_at(packet, 21)),
        device: byte_at(packet, 19),
        bus: Endianness::Little.u16_at(packet, 17),
        status: windows_status(Endianness::Little.u32_at(packet, 10)),
        length: 0,
        is_counted: true,
        setup: None,
        flags: 0,
        bytes: Sequence::new(alloc),
    }
}

/// A packet of a transfer that isn't for control.
fn windows_transfer(
    alloc: Global,
    frame: u64,
    kind: Kind,
    packet: &[u8],
) -> Result<RecordedEvent, AllocError>
    requires { 27 ≤ length packet.now }
    ensures { IfOk result (λ event. event ≡ windows_transfer frame kind packet.now) }
{
    let mut event = windows_head(alloc, frame, packet);
    event.kind = kind;
    event.length = Endianness::Little.u32_at(packet, 23);
    event.is_counted = is_told(event.event_type, event.ep);
    event.bytes = copied(alloc, windows_data(packet))?;
    Ok(event)
}

/// The submission of a control transfer, with this data.
fn windows_submission(
    alloc: Global,
    frame: u64,
    packet: &[u8],
    data: &[u8],
) -> Result<RecordedEvent, AllocError>
    requires packet { 27 ≤ length packet.now }
    requires setup { 8 ≤ length data.now }
    ensures { IfOk result (λ event. event ≡ windows_submission frame packet.now data.now) }
{
    let mut event = windows_head(alloc, frame, packet);
    let setup = setup_at(0, data);
    event.length = u32::from(setup.length);
    event.setup = Some(setup);
    event.bytes = copied(alloc, past(data, 8))?;
    Ok(event)
}

/// The callback of a control transfer.
fn windows_callback(alloc: Global, frame: u64, packet: &[u8]) -> Result<RecordedEvent, AllocError>
    requires { 27 ≤ length packet.now }
    ensures { IfOk result (λ event. event ≡ windows_callback frame packet.now) }
{
    let mut event = windows_head(alloc, frame, packet);
    event.length = Endianness::Little.u32_at(packet, 23);
    event.bytes = copied(alloc, windows_data(packet))?;
    Ok(event)
}

/// A packet of a control transfer. Of those that go to the device the first stage is its submission, which begins with its setup data; the
/// others say nothing more.
fn windows_control(
    alloc: Global,
    frame: u64,
    packet: &[u8],
) -> Result<Option<RecordedEvent>, AllocError>
    requires { 27 ≤ length packet.now }
    ensures { IfOk result (λ event. event ≡ windows_control frame packet.now) }
{
    match direction_of(byte_at(packet, 16)) {
        RecordedType::Callback => Ok(Some(windows_callback(alloc, frame, packet)?)),
        RecordedType::Submission | RecordedType::SubmissionError => {
            let data = windows_data(packet);
            if byte_or_zero(packet, HEADER) == 0 && data.len() >= 8 {
                Ok(Some(windows_submission(alloc, frame, packet, data)?))
            } else {
                Ok(None)
            }
        }
    }
}

/// A packet of the request that ends a halt, which Windows has no setup data for.
fn resets_pipe(alloc: Global, frame: u64, packet: &[u8]) -> RecordedEvent
    requires { 27 ≤ length packet.now }
    ensures { result ≡ resets_pipe frame packet.now }
{
    let mut event = windows_head(alloc, frame, packet);
    if matches!(event.event_type, RecordedType::Submission) {
        event.setup = Some(ControlSetup::clear_halt(event.ep));
    }
    event
}

/// The event of a packet's bytes; None where it is too short for its header, or its kind isn't known.
#[tactic(auto, unfolding(crate::specs::Windows::windows_event))]
pub(crate) fn windows_event(
    alloc: Global,
    frame: u64,
    packet: &[u8],
) -> Result<Option<RecordedEvent>, AllocError>
    ensures { IfOk result (λ event. event ≡ windows_event frame packet.now) }
{
    if packet.len() < HEADER {
        return Ok(None);
    }
    if clears_stall(Endianness::Little.u16_at(packet, 14)) {
        return Ok(Some(resets_pipe(alloc, frame, packet)));
    }
    match kind_of(byte_at(packet, 22)) {
        Some(Kind::Control) => windows_control(alloc, frame, packet),
        Some(kind) => Ok(Some(windows_transfer(alloc, frame, kind, packet)?)),
        None => Ok(None),
    }
}
