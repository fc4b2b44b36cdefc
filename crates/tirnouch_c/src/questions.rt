//! What C asks without a step.

ghost use Rattle.std.specs.Prelude.{◌≡◌, pos};
ghost use Rattle.usb_devicetext.specs.Packet.{needs_of, packet_of};
ghost use Rattle.tirnouch_c.specs.Calls.{ReadsSlot};
ghost use Rattle.tirnouch_c.specs.Descriptions.{Describes};
ghost use Rattle.tirnouch_c.specs.Facts.{Departs, Drives, HasAnswers, HasFacts, Waits};
ghost use Rattle.tirnouch_c.specs.Questions.{HasEndpointBy, HasInterfaceBy, LooksBy, OffersBy, PendsBy, TakenBy, after};
ghost use Rattle.tirnouch_c.specs.Requests.{needs_numbers};

use crate::endpoints::EndpointNumbers;
use crate::exports::{INVALID, NO_SESSION, device};
use crate::facts::{AnswerGate, DeviceDeparture, DeviceFacts};
use crate::feeds::PacketOffer;
use crate::held::Slot;
use crate::reads::{EndpointView, NextWork};
use crate::requests::Needed;
use crate::session::Session;
use crate::{descriptions, endpoints, facts, feeds, reads};
use std::alloc::Global;
use usb_devicetext::SetupPacket;
use usb_model::{DeviceNo, EpAddr};

/// What is to be done next. A packet that does something is looked for from behind this endpoint on.
#[unsafe(no_mangle)]
pub extern "C" fn tirnouch_pending(
    alloc: Global,
    slot: &mut Slot,
    dev: u8,
    ep: u8,
    next: &mut NextWork,
) -> i32
    ensures { ReadsSlot slot.old.held.value slot.new.held.value result (PendsBy dev ep result next.new) }
{
    let Some(session) = slot.take(alloc) else {
        return NO_SESSION;
    };
    reads::pending(&session, after(dev, ep), next);
    slot.put(alloc, session);
    0
}

/// The endpoint behind which is looked; none where there is no such device.
fn after(dev: u8, ep: u8) -> Option<(DeviceNo, EpAddr)>
    ensures { result ≡ after dev ep }
{
    match device(dev) {
        Some(dev) => Some((dev, EpAddr::new(ep))),
        None => None,
    }
}

/// A packet that a device of any number took.
fn taken_in(session: &Session, dev: u8, ep: u8, i: usize, buffer: &mut [u8]) -> i32
    ensures { TakenBy dev ep i result buffer.old buffer.new session.now }
{
    match device(dev) {
        None => INVALID,
        Some(dev) => reads::taken(session, dev, EpAddr::new(ep), i, buffer),
    }
}

/// The packet of this index, from 0 on, that a device took at an endpoint: its length, and its bytes, as far as there is room; -1
/// past the last.
#[unsafe(no_mangle)]
pub extern "C" fn tirnouch_taken(
    alloc: Global,
    slot: &mut Slot,
    dev: u8,
    ep: u8,
    i: usize,
    buffer: &mut [u8],
) -> i32
    ensures { ReadsSlot slot.old.held.value slot.new.held.value result (TakenBy dev ep i result buffer.old buffer.new) }
{
    let Some(session) = slot.take(alloc) else {
        return NO_SESSION;
    };
    let answer = taken_in(&session, dev, ep, i, buffer);
    slot.put(alloc, session);
    answer
}

/// What is to be done at an endpoint of a number that may be no device's.
fn look_in(session: &Session, dev: u8, ep: u8, view: &mut EndpointView) -> i32
    ensures { LooksBy dev ep result view.old view.new session.now }
{
    match device(dev) {
        None => INVALID,
        Some(dev) => {
            reads::look(session, dev, EpAddr::new(ep), view);
            0
        }
    }
}

/// What is to be done at an endpoint, without a look at others.
#[unsafe(no_mangle)]
pub extern "C" fn tirnouch_look(
    alloc: Global,
    slot: &mut Slot,
    dev: u8,
    ep: u8,
    view: &mut EndpointView,
) -> i32
    ensures { ReadsSlot slot.old.held.value slot.new.held.value result (LooksBy dev ep result view.old view.new) }
{
    let Some(session) = slot.take(alloc) else {
        return NO_SESSION;
    };
    let answer = look_in(&session, dev, ep, view);
    slot.put(alloc, session);
    answer
}

/// The packet that is next at an endpoint of a number that may be no device's.
fn offer_in(session: &Session, dev: u8, ep: u8, buffer: &mut [u8], offer: &mut PacketOffer) -> i32
    ensures { OffersBy dev ep result offer.old offer.new buffer.old buffer.new session.now }
{
    match device(dev) {
        None => INVALID,
        Some(dev) => {
            feeds::offer(session, dev, EpAddr::new(ep), buffer, offer);
            0
        }
    }
}

/// The packet that a device is to answer next at an endpoint; no step is made. Where the host sends, its bytes stand in `buffer`, as far
/// as there is room.
#[unsafe(no_mangle)]
pub extern "C" fn tirnouch_offer(
    alloc: Global,
    slot: &mut Slot,
    dev: u8,
    ep: u8,
    buffer: &mut [u8],
    offer: &mut PacketOffer,
) -> i32
    ensures { ReadsSlot slot.old.held.value slot.new.held.value result (OffersBy dev ep result offer.old offer.new buffer.old buffer.new) }
{
    let Some(session) = slot.take(alloc) else {
        return NO_SESSION;
    };
    let answer = offer_in(&session, dev, ep, buffer, offer);
    slot.put(alloc, session);
    answer
}

/// What a host has to hold for a request, of which these are the 8 bytes of the setup packet, as Linux has it: where a standard or
/// class request is to an interface, that; where it is to an endpoint but 0, that; else nothing.
#[unsafe(no_mangle)]
pub extern "C" fn tirnouch_needs(setup: &[u8; 8], needed: &mut Needed) -> i32
    ensures needed { needed.new ≡ needs_numbers (needs_of (packet_of setup.now)) }
    ensures answer { result ≡ pos 0 }
{
    *needed = Needed::of(SetupPacket::read(setup).needs());
    0
}

/// A descriptor of a device by its type (libusb 1.0, `libusb_descriptor_type`; USB 2.0, 9.4): its device descriptor, its configuration,
/// or the string of an index, where index 0 has the languages of the others, if there are any. How long it is, and its bytes, as far as there is room; NotFound where
/// there is none.
#[unsafe(no_mangle)]
pub extern "C" fn tirnouch_describe(
    alloc: Global,
    slot: &mut Slot,
    dev: u8,
    kind: u8,
    index: u8,
    buffer: &mut [u8],
) -> i32
    ensures { ReadsSlot slot.old.held.value slot.new.held.value result (Describes dev kind index result buffer.old buffer.new) }
{
    let Some(session) = slot.take(alloc) else {
        return NO_SESSION;
    };
    let answer = descriptions::describe(&session, dev, kind, index, buffer);
    slot.put(alloc, session);
    answer
}

/// What the lines of the text say of a device: its speed, and how it comes and goes on; NotFound where there is no such device.
#[unsafe(no_mangle)]
pub extern "C" fn tirnouch_device(
    alloc: Global,
    slot: &mut Slot,
    dev: u8,
    device: &mut DeviceFacts,
) -> i32
    ensures { ReadsSlot slot.old.held.value slot.new.held.value result (HasFacts dev result device.old device.new) }
{
    let Some(session) = slot.take(alloc) else {
        return NO_SESSION;
    };
    let answer = facts::device(&session, dev, device);
    slot.put(alloc, session);
    answer
}

/// An interface of a device for which the system has a driver, by its index from 0 on: its number; NotFound past the last.
#[unsafe(no_mangle)]
pub extern "C" fn tirnouch_driver(alloc: Global, slot: &mut Slot, dev: u8, i: usize) -> i32
    ensures { ReadsSlot slot.old.held.value slot.new.held.value result (Drives dev i result) }
{
    let Some(session) = slot.take(alloc) else {
        return NO_SESSION;
    };
    let answer = facts::driver(&session, dev, i);
    slot.put(alloc, session);
    answer
}

/// How many answers a line `control` of a device's text has left, by its index from 0 on; the last one stays. NotFound past the last line.
#[unsafe(no_mangle)]
pub extern "C" fn tirnouch_answers_left(alloc: Global, slot: &mut Slot, dev: u8, i: usize) -> i32
    ensures { ReadsSlot slot.old.held.value slot.new.held.value result (HasAnswers dev i result) }
{
    let Some(session) = slot.take(alloc) else {
        return NO_SESSION;
    };
    let answer = facts::control_left(&session, dev, i);
    slot.put(alloc, session);
    answer
}

/// Answers of a device that wait, by their index from 0 on; NotFound past the last.
#[unsafe(no_mangle)]
pub extern "C" fn tirnouch_gate(
    alloc: Global,
    slot: &mut Slot,
    dev: u8,
    i: usize,
    gate: &mut AnswerGate,
) -> i32
    ensures { ReadsSlot slot.old.held.value slot.new.held.value result (Waits dev i result gate.old gate.new) }
{
    let Some(session) = slot.take(alloc) else {
        return NO_SESSION;
    };
    let answer = facts::gate(&session, dev, i, gate);
    slot.put(alloc, session);
    answer
}

/// When a device is pulled out, by the index from 0 on of what the text says of it; NotFound past the last.
#[unsafe(no_mangle)]
pub extern "C" fn tirnouch_departure(
    alloc: Global,
    slot: &mut Slot,
    dev: u8,
    i: usize,
    departure: &mut DeviceDeparture,
) -> i32
    ensures { ReadsSlot slot.old.held.value slot.new.held.value result (Departs dev i result departure.old departure.new) }
{
    let Some(session) = slot.take(alloc) else {
        return NO_SESSION;
    };
    let answer = facts::departure(&session, dev, i, departure);
    slot.put(alloc, session);
    answer
}

/// An interface of a device of a number that may be none.
fn interface_in(session: &Session, dev: u8, i: usize) -> i32
    ensures { HasInterfaceBy dev i result session.now }
{
    match device(dev) {
        None => INVALID,
        Some(dev) => endpoints::interface(session, dev, i),
    }
}

/// An interface of a device's configuration, by its index from 0 on in the order of their descriptors (USB 2.0, 9.6.5): its number;
/// NotFound past the last.
#[unsafe(no_mangle)]
pub extern "C" fn tirnouch_interface(alloc: Global, slot: &mut Slot, dev: u8, i: usize) -> i32
    ensures { ReadsSlot slot.old.held.value slot.new.held.value result (HasInterfaceBy dev i result) }
{
    let Some(session) = slot.take(alloc) else {
        return NO_SESSION;
    };
    let answer = interface_in(&session, dev, i);
    slot.put(alloc, session);
    answer
}

/// An endpoint of a device of a number that may be none.
fn endpoint_in(session: &Session, dev: u8, i: usize, endpoint: &mut EndpointNumbers) -> i32
    ensures { HasEndpointBy dev i result endpoint.old endpoint.new session.now }
{
    match device(dev) {
        None => INVALID,
        Some(dev) => endpoints::endpoint(session, dev, i, endpoint),
    }
}

/// An endpoint of a device's configuration, by its index from 0 on in the order of their descriptors (USB 2.0, 9.6.6); NotFound past the
/// last.
#[unsafe(no_mangle)]
pub extern "C" fn tirnouch_endpoint(
    alloc: Global,
    slot: &mut Slot,
    dev: u8,
    i: usize,
    endpoint: &mut EndpointNumbers,
) -> i32
    ensures { ReadsSlot slot.old.held.value slot.new.held.value result (HasEndpointBy dev i result endpoint.old endpoint.new) }
{
    let Some(session) = slot.take(alloc) else {
        return NO_SESSION;
    };
    let answer = endpoint_in(&session, dev, i, endpoint);
    slot.put(alloc, session);
    answer
}
