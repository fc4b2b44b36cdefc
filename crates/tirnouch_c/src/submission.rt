//! Submissions.

ghost use Rattle.std.specs.Prelude.{◌≡◌, IfOk, IfSome, OnErr, Some, is_some, pos, true};
ghost use Rattle.usb_model.specs.declared.refused.Refused.TheVariants.{NoMem};
ghost use Rattle.usb_model.specs.declared.reply.Reply.TheVariants.{Refused as IsRefused};
ghost use Rattle.usb_model.specs.declared.request.Body.TheVariants.{In};
ghost use Rattle.usb_tables.specs.Tds.{memory_left};
ghost use Rattle.tirnouch_c.specs.Replies.{code_of, entry_numbers};
ghost use Rattle.tirnouch_c.specs.Submission.{Submits, body_by, kind_by, request_by, request_over};

use crate::replies::{StepReply, code_of};
use crate::session::Session;
use bitflags::Flags as _;
use std::alloc::{AllocError, Global};
use usb_core::SubmitError;
use usb_model::{Body, Buffer, Bytes, Entry, EpAddr, Flags, Kind, Name, Refused, Reply, Request};

/// The kind of libusb's number (libusb 1.0, `libusb_transfer_type`).
#[tactic(auto, unfolding(crate::specs::Submission::kind_by))]
fn kind_by(number: u8) -> Option<Kind>
    ensures { result ≡ kind_by number }
{
    match number {
        0 => Some(Kind::Control),
        1 => Some(Kind::Isochronous),
        2 => Some(Kind::Bulk),
        3 => Some(Kind::Interrupt),
        _ => None,
    }
}

/// What a transfer carries: room for so many bytes where it reads, else a copy of these.
fn body_by(alloc: Global, ep: EpAddr, room: u32, buffer: &[u8]) -> Result<Body, AllocError>
    ensures { IfOk result (λ body. body ≡ body_by ep room buffer.now) }
{
    if ep.is_in() {
        return Ok(Body::In(room));
    }
    Ok(Body::Out(Bytes::from_vec(Vec::from_slice(alloc, buffer)?)))
}

/// The request of these numbers; None where the kind is none. An error where memory is refused.
pub fn request_by(
    alloc: Global,
    ep: EpAddr,
    kind: u8,
    flags: u8,
    timeout: u32,
    room: u32,
    buffer: &[u8],
) -> Result<Option<Request>, AllocError>
    ensures request { IfOk result (λ request. request ≡ request_by ep kind flags timeout room buffer.now) }
    ensures memory { OnErr result (is_some (request_by ep kind flags timeout room buffer.now) ≡ true) }
    ensures body { IfOk result (λ o. IfSome o (λ request. request.body ≡ body_by ep room buffer.now)) }
{
    match kind_by(kind) {
        None => Ok(None),
        Some(kind) => Ok(Some(Request {
            ep,
            kind,
            flags: Flags::from_bits_retain(flags),
            timeout,
            body: body_by(alloc, ep, room, buffer)?,
        })),
    }
}

/// The request to read as many bytes as there is room for; None where the endpoint is for OUT, where the kind is none, or where there is
/// more room than a request can say. An error where memory is refused.
pub fn request_over(
    alloc: Global,
    ep: EpAddr,
    kind: u8,
    flags: u8,
    timeout: u32,
    room: usize,
) -> Result<Option<Request>, AllocError>
    ensures request { IfOk result (λ request. request ≡ request_over ep kind flags timeout room) }
    ensures memory { OnErr result (is_some (request_over ep kind flags timeout room) ≡ true) }
    ensures reads { IfOk result (λ o. IfSome o (λ request. request.body ≡ In room)) }
{
    if !ep.is_in() {
        return Ok(None);
    }
    match u32::try_from(room) {
        Ok(room) => request_by(alloc, ep, kind, flags, timeout, room, &[]),
        Err(_) => Ok(None),
    }
}

/// What was answered, in numbers.
pub fn answer(h: Name, reply: Reply, numbers: &mut StepReply) -> i32
    ensures answer { result ≡ code_of reply }
    ensures numbers { numbers.new ≡ entry_numbers (record { owner = Some h; reply = reply }) }
{
    let entry = Entry {
        owner: Some(h),
        reply,
    };
    *numbers = StepReply::of(&entry);
    code_of(&entry.reply)
}

/// Submits a transfer, with which this is kept, that reads into this memory, where that has room for just what it reads; its answer is
/// libusb's number of a refusal, else 0.
pub fn submit_into(
    session: &mut Session,
    h: Name,
    request: Request,
    memory: &mut Buffer,
    payload: u64,
    numbers: &mut StepReply,
) -> i32
    ensures submitted { Submits h request payload result numbers.new session.old session.new }
    ensures accepted { result ≡ pos 0 → memory.new ≡ memory_left request.body memory.old }
    ensures refused { (result ≡ pos 0 → ⊥) → memory.new ≡ record memory.old { items = memory.new.items } }
{
    let reply = match session.core.submit_into(h, request, payload, memory) {
        Ok(n) => Reply::Number(n),
        Err(SubmitError { why, .. }) => Reply::Refused(why),
    };
    answer(h, reply, numbers)
}

/// The same, with memory of the library's.
pub fn submit(
    alloc: Global,
    session: &mut Session,
    h: Name,
    request: Request,
    payload: u64,
    numbers: &mut StepReply,
) -> i32
    ensures { Submits h request payload result numbers.new session.old session.new }
{
    submit_into(
        session,
        h,
        request,
        &mut Buffer::new(alloc),
        payload,
        numbers,
    )
}

/// No memory was had for what a transfer carries.
pub fn refuse(h: Name, numbers: &mut StepReply) -> i32
    ensures answer { result ≡ code_of (IsRefused NoMem) }
    ensures numbers { numbers.new ≡ entry_numbers (record { owner = Some h; reply = IsRefused NoMem }) }
{
    answer(h, Reply::Refused(Refused::NoMem), numbers)
}
