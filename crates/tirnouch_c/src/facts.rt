//! What a text says of a device beside its descriptors and its answers.

ghost use Rattle.std.specs.Prelude.{◌≡◌};
ghost use Rattle.tirnouch_c.specs.Facts.{Departs, Drives, HasAnswers, HasFacts, Waits, answers_left, any_fields, departure_numbers, device_numbers, gate_numbers, speed_number};

use crate::results::answer_of;
use crate::session::Session;
use usb_devicetext::{Awaited, Control, Departure, DeskDevice, DeviceGate, Pattern, Speed};

/// libusb's number of what isn't there (libusb 1.0, `libusb_error`).
pub const NOT_FOUND: i32 = -5;

/// A device by its lines.
#[repr(C)]
#[derive(Clone, Copy, Drop)]
pub struct DeviceFacts {
    /// Its speed (libusb 1.0, `libusb_speed`).
    pub speed: u8,
    /// 1 where it isn't there yet, else 0.
    pub is_hidden: u8,
    /// 1 where it begins anew with each claim, else 0.
    pub begins_anew: u8,
    /// 1 where a reset doesn't begin it anew, else 0.
    pub lasts: u8,
}

/// Answers of a device that wait: those of `endpoint` from the one at `place` on, until there were `count` of what they wait for.
#[repr(C)]
#[derive(Clone, Copy, Drop)]
pub struct AnswerGate {
    /// The address of the endpoint.
    pub endpoint: u8,
    /// What they wait for: of `enum tirnouch_awaited`.
    pub awaited: u8,
    /// Of TIRNOUCH_AWAITS_ENDPOINT: the endpoint at which packets are to be taken; where that is `endpoint` itself, transfers are to end
    /// there without an answer; where it is 0, requests are to be made. Else 0.
    pub other: u8,
    /// Of TIRNOUCH_AWAITS_REQUESTS: which of the next four fields may be any in the requests that are to be made: bits of
    /// `enum tirnouch_any`. Else 0.
    pub any: u8,
    /// bmRequestType (USB 2.0, 9.3); 0 where it may be any.
    pub request_type: u8,
    /// bRequest; 0 where it may be any.
    pub request: u8,
    /// wValue; 0 where it may be any.
    pub value: u16,
    /// wIndex; 0 where it may be any.
    pub index: u16,
    /// The first of the answers that wait, from 0 on.
    pub place: u32,
    /// How many packets, transfers or requests are waited for.
    pub count: u32,
}

/// When a device is pulled out: behind so many answers of an endpoint.
#[repr(C)]
#[derive(Clone, Copy, Drop)]
pub struct DeviceDeparture {
    /// The address of the endpoint.
    pub endpoint: u8,
    /// How many answers.
    pub answers: u32,
}

/// libusb's number of a speed (libusb 1.0, `libusb_speed`).
fn speed_number(speed: Speed) -> u8
    ensures { result ≡ speed_number speed }
{
    match speed {
        Speed::Low => 1,
        Speed::Full => 2,
        Speed::High => 3,
    }
}

/// Which fields of requests may be any: bit 0 the type, 1 the number, 2 the value, 3 the index.
fn any_fields(pattern: Pattern) -> u8
    ensures { result ≡ any_fields pattern }
{
    u8::from(pattern.kind.is_none())
        + 2 * u8::from(pattern.request.is_none())
        + 4 * u8::from(pattern.value.is_none())
        + 8 * u8::from(pattern.index.is_none())
}

impl DeviceFacts {
    /// The same in numbers.
    fn of(device: &DeskDevice) -> DeviceFacts
        ensures { result ≡ device_numbers device.now }
    {
        DeviceFacts {
            speed: speed_number(device.speed),
            is_hidden: u8::from(device.hidden),
            begins_anew: u8::from(device.anew),
            lasts: u8::from(device.lasts),
        }
    }
}

impl AnswerGate {
    /// The same in numbers.
    fn of(gate: &DeviceGate) -> AnswerGate
        ensures { result ≡ gate_numbers gate.now }
    {
        match gate.awaited {
            Awaited::At(other) => AnswerGate {
                endpoint: gate.ep.address(),
                awaited: 0,
                other: other.address(),
                any: 0,
                request_type: 0,
                request: 0,
                value: 0,
                index: 0,
                place: gate.place,
                count: gate.count,
            },
            Awaited::Requests(pattern) => AnswerGate {
                endpoint: gate.ep.address(),
                awaited: 1,
                other: 0,
                any: any_fields(pattern),
                request_type: pattern.kind.unwrap_or(0),
                request: pattern.request.unwrap_or(0),
                value: pattern.value.unwrap_or(0),
                index: pattern.index.unwrap_or(0),
                place: gate.place,
                count: gate.count,
            },
        }
    }
}

impl DeviceDeparture {
    /// The same in numbers.
    fn of(departure: &Departure) -> DeviceDeparture
        ensures { result ≡ departure_numbers departure.now }
    {
        DeviceDeparture {
            endpoint: departure.ep.address(),
            answers: departure.answers,
        }
    }
}

/// A device by its lines; NotFound where there is none.
pub fn device(session: &Session, dev: u8, facts: &mut DeviceFacts) -> i32
    ensures { HasFacts dev result facts.old facts.new session.now }
{
    match session.device(dev) {
        None => NOT_FOUND,
        Some(device) => {
            *facts = DeviceFacts::of(device);
            0
        }
    }
}

/// The interface of this index for which the system has a driver; NotFound past the last.
pub fn driver(session: &Session, dev: u8, i: usize) -> i32
    ensures { Drives dev i result session.now }
{
    let Some(device) = session.device(dev) else {
        return NOT_FOUND;
    };
    match device.drivers.as_slice().get(i) {
        None => NOT_FOUND,
        Some(interface) => i32::from(*interface),
    }
}

/// How many answers to requests aren't given yet, the last of which stays.
fn answers_left(control: &Control) -> usize
    ensures { result ≡ answers_left control.now }
{
    let count = control.answers.as_slice().len();
    count - (control.asked as usize).min(count.saturating_sub(1))
}

/// How many answers the requests of this index have left; NotFound past the last.
pub fn control_left(session: &Session, dev: u8, i: usize) -> i32
    ensures { HasAnswers dev i result session.now }
{
    let Some(device) = session.device(dev) else {
        return NOT_FOUND;
    };
    match device.controls.as_slice().get(i) {
        None => NOT_FOUND,
        Some(control) => answer_of(answers_left(control)),
    }
}

/// The answers of this index that wait; NotFound past the last.
pub fn gate(session: &Session, dev: u8, i: usize, gate: &mut AnswerGate) -> i32
    ensures { Waits dev i result gate.old gate.new session.now }
{
    let Some(device) = session.device(dev) else {
        return NOT_FOUND;
    };
    match device.gates.as_slice().get(i) {
        None => NOT_FOUND,
        Some(found) => {
            *gate = AnswerGate::of(found);
            0
        }
    }
}

/// When a device is pulled out, by the line of this index; NotFound past the last.
pub fn departure(session: &Session, dev: u8, i: usize, departure: &mut DeviceDeparture) -> i32
    ensures { Departs dev i result departure.old departure.new session.now }
{
    let Some(device) = session.device(dev) else {
        return NOT_FOUND;
    };
    match device.departures.as_slice().get(i) {
        None => NOT_FOUND,
        Some(found) => {
            *departure = DeviceDeparture::of(found);
            0
        }
    }
}
