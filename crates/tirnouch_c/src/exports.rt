//! What C calls: numbers and buffers, over a slot that holds a session. What only asks is in questions.rt.

ghost use Rattle.std.specs.Prelude.{◌≡◌, IfErr, IfOk, IfSome, false, pos};
ghost use Rattle.usb_model.specs.Buffer.{no_memory};
ghost use Rattle.usb_core.specs.Public.{takes_memory};
ghost use Rattle.tirnouch_c.specs.Lent.{Lends};
ghost use Rattle.usb_devicetext.specs.Packet.{packet_of};
ghost use Rattle.tirnouch_c.specs.Complaints.{TellsWrong};
ghost use Rattle.tirnouch_c.specs.Calls.{Calls, InSlot, step_of};
ghost use Rattle.tirnouch_c.specs.Exports.{Creates, Destroys, ServesBy, SettlesBy, WorksBy, device_by};
ghost use Rattle.tirnouch_c.specs.Feeds.{FeedsBy};
ghost use Rattle.tirnouch_c.specs.Sessions.{IsMade, IsUnmade};
ghost use Rattle.tirnouch_c.specs.Results.{Fetches, Takes};
ghost use Rattle.tirnouch_c.specs.Requests.{Asks};
ghost use Rattle.tirnouch_c.specs.Submission.{SubmitsBy, SubmitsIf, SubmitsOver, request_over};

use crate::calls::{make, step_by};
use crate::complaints::TextComplaint;
use crate::held::Slot;
use crate::lent::{lend, put_back};
use crate::replies::StepReply;
use crate::requests::ControlResponse;
use crate::results::TakenResult;
use crate::session::Session;
use crate::settling::SettleProgress;
use crate::{
    LentMemory, complaints, feeds, packets, requests, results, settling, submission, turn,
};
use std::alloc::Global;
use usb_devicetext::SetupPacket;
use usb_model::{Buffer, DeviceNo, EpAddr, Name, Step};
use usb_scripttext::TextFault;

/// The answer of a slot that holds no session (libusb 1.0, `LIBUSB_ERROR_OTHER`).
pub const NO_SESSION: i32 = -99;

/// The answer of a call with a number that is out of range (libusb 1.0, `LIBUSB_ERROR_INVALID_PARAM`).
pub const INVALID: i32 = -2;

/// The answer of a slot that holds a session already (libusb 1.0, `LIBUSB_ERROR_BUSY`).
const BUSY: i32 = -6;

/// Want of memory (libusb 1.0, `LIBUSB_ERROR_NO_MEM`).
const NO_MEM: i32 = -11;

/// A box of a new session.
fn boxed(alloc: Global, text: &[u8]) -> Result<Box<Session>, TextFault>
    ensures made { IfOk result (λ session. IsMade text.now session.value) }
    ensures unmade { IfErr result (λ fault. IsUnmade text.now fault) }
{
    let session = Session::new(alloc, text)?;
    match Box::new(alloc, session) {
        Ok(session) => Ok(session),
        Err(_) => Err(TextFault::Memory),
    }
}

/// Makes a session with the devices of a text: 0. InvalidParam where a line of the text isn't taken, and `complaint` has its number;
/// NoMem where memory is refused; Busy where the slot holds a session already. Then nothing changed.
#[unsafe(no_mangle)]
pub extern "C" fn tirnouch_create(
    alloc: Global,
    slot: &mut Slot,
    text: &[u8],
    complaint: &mut TextComplaint,
) -> i32
    ensures { Creates text.now result complaint.new slot.old.held.value slot.new.held.value }
{
    if slot.is_full() {
        return BUSY;
    }
    match boxed(alloc, text) {
        Ok(session) => {
            slot.put(alloc, session);
            0
        }
        Err(TextFault::Line(line)) => {
            *complaint = TextComplaint::at_line(line);
            INVALID
        }
        Err(TextFault::Memory) => NO_MEM,
    }
}

/// What is wrong with a text of devices: 0 where nothing is. Else how long the sentence is that says it to a person, in ASCII, and its
/// bytes, as far as there is room; and `complaint` has the first line that isn't taken, and the word of it that is meant. NoMem where
/// memory is refused.
#[unsafe(no_mangle)]
pub extern "C" fn tirnouch_complain(
    alloc: Global,
    text: &[u8],
    buffer: &mut [u8],
    complaint: &mut TextComplaint,
) -> i32
    ensures { TellsWrong text.now result complaint.old complaint.new buffer.old buffer.new }
{
    complaints::complain(alloc, text, buffer, complaint)
}

/// Frees the session of a slot.
#[unsafe(no_mangle)]
pub extern "C" fn tirnouch_destroy(alloc: Global, slot: &mut Slot) -> i32
    ensures { Destroys result slot.old.held.value slot.new.held.value }
{
    match slot.take(alloc) {
        Some(_) => 0,
        None => NO_SESSION,
    }
}

/// A step of a verb and a number that may be no handle's.
fn call_in(session: &mut Session, verb: u8, h: u8, a: u8, n: u64, reply: &mut StepReply) -> i32
    ensures { Calls verb h a n result reply.new session.old session.new }
{
    match step_of(verb, h, a, n) {
        None => INVALID,
        Some(step) => make(session, step, reply),
    }
}

/// The step of a verb and a number that may be no handle's.
fn step_of(verb: u8, h: u8, a: u8, n: u64) -> Option<Step>
    ensures step { result ≡ step_of verb h a n }
    ensures free { IfSome result (λ step. takes_memory step ≡ false) }
{
    step_by(verb, Name::new(h)?, a, n)
}

/// A step of a handle, or that a device is unplugged. `verb` is of `enum tirnouch_verb`. `a`: the device of an open and an unplug, the
/// interface of a claim and a release, the endpoint of a clear halt. `n`: the transfer of a cancel and an expire.
#[unsafe(no_mangle)]
pub extern "C" fn tirnouch_call(
    alloc: Global,
    slot: &mut Slot,
    verb: u8,
    h: u8,
    a: u8,
    n: u64,
    reply: &mut StepReply,
) -> i32
    ensures { InSlot slot.old.held.value slot.new.held.value result (Calls verb h a n result reply.new) }
{
    let Some(mut session) = slot.take(alloc) else {
        return NO_SESSION;
    };
    let answer = call_in(&mut session, verb, h, a, n, reply);
    slot.put(alloc, session);
    answer
}

/// A submission of numbers of any kind.
fn submit_in(
    alloc: Global,
    session: &mut Session,
    h: u8,
    ep: u8,
    kind: u8,
    flags: u8,
    timeout: u32,
    room: u32,
    buffer: &[u8],
    payload: u64,
    reply: &mut StepReply,
) -> i32
    ensures { SubmitsBy h ep kind flags timeout room buffer.now payload result reply.new session.old session.new }
{
    let Some(name) = Name::new(h) else {
        return INVALID;
    };
    let request = submission::request_by(
        alloc,
        EpAddr::new(ep),
        kind,
        flags,
        timeout,
        room,
        buffer,
    );
    match request {
        Ok(Some(request)) => submission::submit(alloc, session, name, request, payload, reply),
        Ok(None) => INVALID,
        Err(_) => submission::refuse(name, reply),
    }
}

/// Submits a transfer (libusb 1.0, `libusb_submit_transfer`); `reply` has its number. It reads at most `room` bytes, where the endpoint
/// is for IN, and else writes these. With it `payload` is kept, which the result has when it goes out.
#[unsafe(no_mangle)]
pub extern "C" fn tirnouch_submit(
    alloc: Global,
    slot: &mut Slot,
    h: u8,
    ep: u8,
    kind: u8,
    flags: u8,
    timeout: u32,
    room: u32,
    buffer: &[u8],
    payload: u64,
    reply: &mut StepReply,
) -> i32
    ensures { InSlot slot.old.held.value slot.new.held.value result (SubmitsBy h ep kind flags timeout room buffer.now payload result reply.new) }
{
    let Some(mut session) = slot.take(alloc) else {
        return NO_SESSION;
    };
    let answer = submit_in(
        alloc,
        &mut session,
        h,
        ep,
        kind,
        flags,
        timeout,
        room,
        buffer,
        payload,
        reply,
    );
    slot.put(alloc, session);
    answer
}

/// The same over this memory, of a handle.
fn submit_over(
    alloc: Global,
    session: &mut Session,
    h: Name,
    ep: EpAddr,
    kind: u8,
    flags: u8,
    timeout: u32,
    memory: &mut Buffer,
    payload: u64,
    reply: &mut StepReply,
) -> i32
    ensures submitted { SubmitsIf h (request_over ep kind flags timeout memory.old.capacity) payload result reply.new session.old session.new }
    ensures accepted { result ≡ pos 0 → memory.new ≡ no_memory }
    ensures refused { (result ≡ pos 0 → ⊥) → memory.new ≡ record memory.old { items = memory.new.items } }
{
    match submission::request_over(alloc, ep, kind, flags, timeout, memory.capacity()) {
        Ok(Some(request)) => submission::submit_into(session, h, request, memory, payload, reply),
        Ok(None) => INVALID,
        Err(_) => submission::refuse(h, reply),
    }
}

/// The same over memory that C lends, of a number that may be no handle's.
fn submit_lent(
    alloc: Global,
    session: &mut Session,
    h: u8,
    ep: u8,
    kind: u8,
    flags: u8,
    timeout: u32,
    memory: &mut LentMemory,
    payload: u64,
    reply: &mut StepReply,
) -> i32
    ensures submitted { SubmitsOver h ep kind flags timeout memory.old.len payload result reply.new session.old session.new }
    ensures memory { Lends result memory.old memory.new }
{
    let Some(name) = Name::new(h) else {
        return INVALID;
    };
    let mut buffer = lend(alloc, memory);
    let answer = submit_over(
        alloc,
        session,
        name,
        EpAddr::new(ep),
        kind,
        flags,
        timeout,
        &mut buffer,
        payload,
        reply,
    );
    put_back(buffer, memory);
    answer
}

/// Submits a transfer that reads straight into memory that C lends, all of it (libusb 1.0, `libusb_submit_transfer`). It is the
/// library's from then on, with `len` 0 here, and goes back with the result: till then C doesn't touch it. Where the transfer is
/// refused, C has it as before; so it is at an endpoint for OUT, by LIBUSB_ERROR_INVALID_PARAM. All else is as of `tirnouch_submit`.
#[unsafe(no_mangle)]
pub extern "C" fn tirnouch_submit_in(
    alloc: Global,
    slot: &mut Slot,
    h: u8,
    ep: u8,
    kind: u8,
    flags: u8,
    timeout: u32,
    memory: &mut LentMemory,
    payload: u64,
    reply: &mut StepReply,
) -> i32
    ensures submitted { InSlot slot.old.held.value slot.new.held.value result (SubmitsOver h ep kind flags timeout memory.old.len payload result reply.new) }
    ensures memory { Lends result memory.old memory.new }
{
    let Some(mut session) = slot.take(alloc) else {
        return NO_SESSION;
    };
    let answer = submit_lent(
        alloc,
        &mut session,
        h,
        ep,
        kind,
        flags,
        timeout,
        memory,
        payload,
        reply,
    );
    slot.put(alloc, session);
    answer
}

/// Packets at an endpoint of a number that may be no device's.
fn serve_in(session: &mut Session, dev: u8, ep: u8, most: u32, reply: &mut StepReply) -> i32
    ensures { ServesBy dev ep most result reply.new session.old session.new }
{
    match device(dev) {
        None => INVALID,
        Some(dev) => {
            packets::serve(session, dev, EpAddr::new(ep), most, reply);
            0
        }
    }
}

/// The device of a number, if there may be one.
pub fn device(dev: u8) -> Option<DeviceNo>
    ensures { result ≡ device_by dev }
{
    DeviceNo::new(dev)
}

/// A device answers at most so many packets at an endpoint: until one ends a transfer, or it has no answer. `reply` is that of the
/// last one, with how many they were.
#[unsafe(no_mangle)]
pub extern "C" fn tirnouch_serve(
    alloc: Global,
    slot: &mut Slot,
    dev: u8,
    ep: u8,
    most: u32,
    reply: &mut StepReply,
) -> i32
    ensures { InSlot slot.old.held.value slot.new.held.value result (ServesBy dev ep most result reply.new) }
{
    let Some(mut session) = slot.take(alloc) else {
        return NO_SESSION;
    };
    let answer = serve_in(&mut session, dev, ep, most, reply);
    slot.put(alloc, session);
    answer
}

/// Makes what is to be done, at most so many steps: events are handled and orders run, and packets are served where `packets`
/// isn't 0. `progress` has how many they were, and whether nothing is left.
#[unsafe(no_mangle)]
pub extern "C" fn tirnouch_settle(
    alloc: Global,
    slot: &mut Slot,
    packets: u8,
    most: u32,
    progress: &mut SettleProgress,
) -> i32
    ensures { InSlot slot.old.held.value slot.new.held.value result (SettlesBy packets most result progress.new) }
{
    let Some(mut session) = slot.take(alloc) else {
        return NO_SESSION;
    };
    settling::settle(&mut session, packets != 0, most, progress);
    slot.put(alloc, session);
    0
}

/// The oldest result goes out, and its callback ends: 1; 0 where none waits. `out` is that result. Memory that was lent for it is C's again,
/// and stands in `back`: its first `filled` bytes were read. Else its bytes are still to be fetched. It takes no memory.
#[unsafe(no_mangle)]
pub extern "C" fn tirnouch_take(
    alloc: Global,
    slot: &mut Slot,
    back: &mut LentMemory,
    out: &mut TakenResult,
) -> i32
    ensures { InSlot slot.old.held.value slot.new.held.value result (Takes result out.new back.old back.new) }
{
    let Some(mut session) = slot.take(alloc) else {
        return NO_SESSION;
    };
    let answer = results::take(alloc, &mut session, back, out);
    slot.put(alloc, session);
    answer
}

/// Packets, what is to be done and the oldest result, of a number that may be no device's.
fn turn_in(
    alloc: Global,
    session: &mut Session,
    dev: u8,
    ep: u8,
    packets: u32,
    steps: u32,
    back: &mut LentMemory,
    out: &mut TakenResult,
) -> i32
    ensures { WorksBy dev ep packets steps result out.new back.old back.new session.old session.new }
{
    match device(dev) {
        None => INVALID,
        Some(dev) => turn::work(
            alloc,
            session,
            dev,
            EpAddr::new(ep),
            packets,
            steps,
            back,
            out,
        ),
    }
}

/// `tirnouch_serve`, `tirnouch_settle` without packets, and `tirnouch_take`, in one call: at most so many packets, and so many steps.
/// Answer, `out` and `back` are those of `tirnouch_take`.
#[unsafe(no_mangle)]
pub extern "C" fn tirnouch_turn(
    alloc: Global,
    slot: &mut Slot,
    dev: u8,
    ep: u8,
    packets: u32,
    steps: u32,
    back: &mut LentMemory,
    out: &mut TakenResult,
) -> i32
    ensures { InSlot slot.old.held.value slot.new.held.value result (WorksBy dev ep packets steps result out.new back.old back.new) }
{
    let Some(mut session) = slot.take(alloc) else {
        return NO_SESSION;
    };
    let answer = turn_in(alloc, &mut session, dev, ep, packets, steps, back, out);
    slot.put(alloc, session);
    answer
}

/// The bytes of the result that went out last, as far as there is room, just once; how many they were.
#[unsafe(no_mangle)]
pub extern "C" fn tirnouch_fetch(alloc: Global, slot: &mut Slot, buffer: &mut [u8]) -> i32
    ensures { InSlot slot.old.held.value slot.new.held.value result (Fetches result buffer.old buffer.new) }
{
    let Some(mut session) = slot.take(alloc) else {
        return NO_SESSION;
    };
    let answer = results::fetch(&mut session, buffer);
    slot.put(alloc, session);
    answer
}

/// An answer for a device of a number that may be none.
fn feed_in(alloc: Global, session: &mut Session, dev: u8, ep: u8, kind: u8, bytes: &[u8]) -> i32
    ensures { FeedsBy dev ep kind bytes.now result session.old session.new }
{
    match device(dev) {
        None => INVALID,
        Some(dev) => feeds::feed(alloc, session, dev, EpAddr::new(ep), kind, bytes),
    }
}

/// One more answer behind the script of a device's endpoint, as if it had stood there from the beginning; no step is made. `kind` is of
/// `enum tirnouch_answer`; a packet has these bytes. InvalidParam where the endpoint can't have it: there is none, it is of the other
/// direction, its packet has more than 2,048 bytes, or the script has 65,536 answers. NoMem where memory is refused. Then nothing
/// changed.
#[unsafe(no_mangle)]
pub extern "C" fn tirnouch_feed(
    alloc: Global,
    slot: &mut Slot,
    dev: u8,
    ep: u8,
    kind: u8,
    bytes: &[u8],
) -> i32
    ensures { InSlot slot.old.held.value slot.new.held.value result (FeedsBy dev ep kind bytes.now result) }
{
    let Some(mut session) = slot.take(alloc) else {
        return NO_SESSION;
    };
    let answer = feed_in(alloc, &mut session, dev, ep, kind, bytes);
    slot.put(alloc, session);
    answer
}

/// A device answers a request on its default control endpoint (USB 2.0, 9.3), of which these are the 8 bytes of the setup packet.
/// What is read stands in `buffer`, as far as there is room.
#[unsafe(no_mangle)]
pub extern "C" fn tirnouch_request(
    alloc: Global,
    slot: &mut Slot,
    dev: u8,
    setup: &[u8; 8],
    buffer: &mut [u8],
    response: &mut ControlResponse,
) -> i32
    ensures { InSlot slot.old.held.value slot.new.held.value result (Asks dev (packet_of setup.now) result response.new buffer.old buffer.new) }
{
    let packet = SetupPacket::read(setup);
    let Some(mut session) = slot.take(alloc) else {
        return NO_SESSION;
    };
    let answer = requests::ask(alloc, &mut session, dev, &packet, buffer, response);
    slot.put(alloc, session);
    answer
}
