//! Requests on a device's default control endpoint.

ghost use Rattle.std.specs.Prelude.{◌≡◌, ◌<◌, ◌^◌, length};
ghost use Rattle.usb_devicetext.specs.Control.{shown_answer};
ghost use Rattle.tirnouch_c.specs.Requests.{Asks, control_bytes, ended_numbers, needs_numbers, response_numbers, waits_numbers, with_asked};

use crate::results::fill;
use crate::session::Session;
use std::alloc::Global;
use std::mem;
use usb_devicetext::{ControlReply, DeskDevice, Needs, SetupPacket};
use usb_model::Sequence;

/// What a device answers to a request.
#[repr(C)]
#[derive(Clone, Copy, Drop)]
pub struct ControlResponse {
    /// 1 where the request ended; 0 where the device isn't ready and the request waits.
    pub is_ready: u8,
    /// Its status (libusb 1.0, `libusb_transfer_status`); 0 where it waits.
    pub status: u8,
    /// 1 where a line `control` of the text answered, also that the device isn't ready or by a stall; 0 where its descriptors did, or
    /// nothing is said of such a request, which stalls.
    pub by_line: u8,
    /// How many bytes moved (libusb 1.0, `actual_length`); 0 where it waits.
    pub actual_length: u32,
}

/// What a host has to hold for a request.
#[repr(C)]
#[derive(Clone, Copy, Drop)]
pub struct Needed {
    /// Of `enum tirnouch_need`.
    pub kind: u8,
    /// The number of the interface, where the request is to one; else 0.
    pub interface: u8,
    /// The address of the endpoint, where the request is to one; else 0.
    pub endpoint: u8,
}

impl ControlResponse {
    /// It waits.
    fn waits(by_line: bool) -> ControlResponse
        ensures { result ≡ waits_numbers by_line }
    {
        ControlResponse {
            is_ready: 0,
            status: 0,
            by_line: u8::from(by_line),
            actual_length: 0,
        }
    }

    /// It ended with this status, and so many bytes moved.
    fn ended(status: u8, actual_length: u32, by_line: bool) -> ControlResponse
        ensures { result ≡ ended_numbers status actual_length by_line }
    {
        ControlResponse {
            is_ready: 1,
            status,
            by_line: u8::from(by_line),
            actual_length,
        }
    }

    /// The same of a device's reply; `moved`: how many bytes were read.
    fn of(
        packet: &SetupPacket,
        reply: ControlReply<'_>,
        moved: u32,
        by_line: bool,
    ) -> ControlResponse
        ensures { result ≡ response_numbers packet.now (shown_answer reply.entry) moved by_line }
    {
        match reply {
            ControlReply::Data(_) => ControlResponse::ended(0, moved, by_line),
            ControlReply::Ack => ControlResponse::ended(0, u32::from(packet.length), by_line),
            ControlReply::Nak => ControlResponse::waits(by_line),
            ControlReply::Stall => ControlResponse::ended(4, 0, by_line),
            ControlReply::Broken => ControlResponse::ended(1, 0, by_line),
        }
    }
}

impl Needed {
    /// The same in numbers.
    pub fn of(needs: Needs) -> Needed
        ensures { result ≡ needs_numbers needs }
    {
        match needs {
            Needs::Nothing => Needed {
                kind: 0,
                interface: 0,
                endpoint: 0,
            },
            Needs::Interface(interface) => Needed {
                kind: 1,
                interface,
                endpoint: 0,
            },
            Needs::Endpoint(endpoint) => Needed {
                kind: 2,
                interface: 0,
                endpoint,
            },
        }
    }
}

/// libusb's number of a number out of range (libusb 1.0, `libusb_error`).
const INVALID: i32 = -2;

/// The bytes that are read of an answer: at most as many as the request asks for.
fn bytes_of<'a>(packet: &SetupPacket, reply: ControlReply<'a>) -> &'a [u8]
    ensures bytes { result.now ≡ control_bytes packet.now (shown_answer reply.entry) }
    ensures within { length result.now < 2 ^ 16 }
{
    match reply {
        ControlReply::Data(bytes) => {
            let count = bytes.len().min(usize::from(packet.length));
            &bytes[..count]
        }
        _ => &[],
    }
}

/// One of the devices was asked once more.
fn count(
    alloc: Global,
    devices: Sequence<DeskDevice>,
    dev: usize,
    packet: &SetupPacket,
) -> Sequence<DeskDevice>
    ensures { result ≡ with_asked devices dev packet.now }
{
    let mut devices = devices.into_vec();
    if dev < devices.len() {
        devices[dev].count(alloc, packet);
    }
    Sequence::from_vec(devices)
}

/// A device answers a request; bytes that are read stand in `buffer`, as far as there is room.
pub fn ask(
    alloc: Global,
    session: &mut Session,
    dev: u8,
    packet: &SetupPacket,
    buffer: &mut [u8],
    response: &mut ControlResponse,
) -> i32
    ensures { Asks dev packet.now result response.new buffer.old buffer.new session.old session.new }
{
    let Some(device) = session.device(dev) else {
        return INVALID;
    };
    let reply = device.reply(packet);
    let by_line = device.has_answer(packet);
    let moved = fill(buffer, bytes_of(packet, reply));
    *response = ControlResponse::of(packet, reply, moved as u32, by_line);
    let devices = mem::replace(&mut session.devices, Sequence::new(alloc));
    session.devices = count(alloc, devices, usize::from(dev), packet);
    0
}
