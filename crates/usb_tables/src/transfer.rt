//! A transfer in flight.

ghost use Rattle.std.specs.Prelude.{◌≡◌, [], None, IfOk, IfErr, IsOk, OnErr, OnOk};
ghost use Rattle.usb_tables.specs.Tds.{memory_left, room_of};

use std::alloc::{AllocError, Global};
use usb_model::{Ask, Body, Buffer, Name, Request};

/// A transfer in flight, with its caller's payload.
#[derive(Drop)]
pub struct Transfer<P> {
    /// Its number, of its handle.
    pub n: u64,
    /// How often it was submitted before.
    pub round: u64,
    /// What was asked.
    pub request: Request,
    /// The bytes read, in their order. Their room is taken when the transfer is made.
    pub bytes: Buffer,
    /// What the caller keeps with it.
    pub payload: P,
    /// How many bytes moved, as last told.
    pub moved: u32,
    /// The first ask that it end, if there was one.
    pub ask: Option<Ask>,
    /// Its handle.
    pub name: Name,
}

/// What a transfer was to be made of, where memory was refused.
#[derive(Drop)]
pub struct MakeTransferError<P> {
    /// What was asked.
    pub request: Request,
    /// What the caller keeps with it.
    pub payload: P,
}

impl<P> Transfer<P> {
    /// A transfer as it is accepted: not asked to end, no bytes moved, with room for those that it is to read: `memory`, where that
    /// has room for just these, and is then left without. None is taken for OUT. MakeTransferError, with what was given, where memory is refused.
    pub fn new(
        alloc: Global,
        name: Name,
        n: u64,
        request: Request,
        round: u64,
        payload: P,
        memory: &mut Buffer,
    ) -> Result<Transfer<P>, MakeTransferError<P>>
        ensures made { IfOk result (λ t. t ≡ record { n = n; round = round; request = request; bytes = t.bytes; payload = payload; moved = 0; ask = None; name = name }) }
        ensures empty { IfOk result (λ t. t.bytes.items ≡ []) }
        ensures room { IfOk result (λ t. t.bytes.capacity ≡ room_of request.body) }
        ensures lent { IfOk result (λ t. memory.old.capacity ≡ room_of request.body → t.bytes.lent ≡ memory.old.lent) }
        ensures memory { OnOk result (memory.new ≡ memory_left request.body memory.old) }
        ensures kept { OnErr result (memory.new ≡ memory.old) }
        ensures succeeds { room_of request.body ≡ 0 → IsOk result }
        ensures back { IfErr result (λ u. u ≡ record { request = request; payload = payload }) }
    {
        match room_for(alloc, &request.body, memory) {
            Ok(bytes) => Ok(Transfer {
                n,
                round,
                request,
                bytes,
                payload,
                moved: 0,
                ask: None,
                name,
            }),
            Err(_) => Err(MakeTransferError { request, payload }),
        }
    }
}

/// Room for the bytes that are to be read.
fn room_for(alloc: Global, body: &Body, memory: &mut Buffer) -> Result<Buffer, AllocError>
    ensures empty { IfOk result (λ bytes. bytes.items ≡ []) }
    ensures room { IfOk result (λ bytes. bytes.capacity ≡ room_of body.now) }
    ensures lent { IfOk result (λ bytes. memory.old.capacity ≡ room_of body.now → bytes.lent ≡ memory.old.lent) }
    ensures memory { OnOk result (memory.new ≡ memory_left body.now memory.old) }
    ensures kept { OnErr result (memory.new ≡ memory.old) }
    ensures succeeds { room_of body.now ≡ 0 → IsOk result }
{
    let room = match body {
        Body::In(length) => *length as usize,
        Body::Out(_) => 0,
    };
    if memory.capacity() == room {
        let mut bytes = memory.take();
        bytes.truncate(0);
        return Ok(bytes);
    }
    Buffer::with_capacity(alloc, room)
}
