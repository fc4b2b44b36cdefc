//! TRBs of each kind, as bytes that are written and read (xHCI 1.2, 6.4).

use crate::bytes::found::Found;
use crate::changed::flipped;
use crate::expect::{expect, present};
use anyhow::Result;
use std::fmt;
use usb_trb::{
    EndpointId, Length, Normal, Pointer, Residual, Slot, Trb, TrbKind, Unknown, decode,
    decode_normal, encode, is_no_op,
};

/// The bytes of a TRB of each kind, each with its cycle bit set. A buffer at 100000000, 8 bytes, ISP and IOC.
const NORMAL: [u8; 16] = [0, 0, 0, 0, 1, 0, 0, 0, 8, 0, 0, 0, 0x25, 4, 0, 0];

/// To 10023000, and the cycle turns.
const LINK: [u8; 16] = [0, 0x30, 2, 0x10, 0, 0, 0, 0, 0, 0, 0, 0, 3, 0x18, 0, 0];

const NO_OP: [u8; 16] = [0, 0, 0, 0, 0, 0, 0, 0, 0, 0, 0, 0, 1, 0x20, 0, 0];

/// Of slot 1, endpoint id 3, as are those below.
const RESET_ENDPOINT: [u8; 16] = [0, 0, 0, 0, 0, 0, 0, 0, 0, 0, 0, 0, 1, 0x38, 3, 1];

const STOP_ENDPOINT: [u8; 16] = [0, 0, 0, 0, 0, 0, 0, 0, 0, 0, 0, 0, 1, 0x3c, 3, 1];

/// To 10023010, with DCS.
const SET_DEQUEUE: [u8; 16] = [0x11, 0x30, 2, 0x10, 0, 0, 0, 0, 0, 0, 0, 0, 1, 0x40, 3, 1];

/// At 10023000, with a residual of 5 and code 13.
const TRANSFER_EVENT: [u8; 16] = [0, 0x30, 2, 0x10, 0, 0, 0, 0, 5, 0, 0, 13, 1, 0x80, 3, 1];

/// At 20000000, with code 1; it names no endpoint.
const COMMAND_COMPLETION: [u8; 16] = [0, 0, 0, 0x20, 0, 0, 0, 0, 0, 0, 0, 1, 1, 0x84, 0, 1];

/// How many of the 128 that differ from each of them in one bit are TRBs: those in which a field is another, and within its
/// range (xHCI 1.2, 6.4). Of other types only Reset and Stop Endpoint have the same fields, and differ in one bit.
const FLIPPED: [([u8; 16], u32); 8] = [
    // 64 bits of the buffer, 16 of the length, since with the last it is over 65,536; ISP, CH, IOC and the cycle bit.
    (NORMAL, 84),
    // 60 of the pointer; Toggle Cycle, CH and the cycle bit.
    (LINK, 63),
    // The cycle bit.
    (NO_OP, 1),
    // 5 of the endpoint id, 7 of the slot, since without its only one it is 0; the cycle bit; and the type of the other.
    (RESET_ENDPOINT, 14),
    (STOP_ENDPOINT, 14),
    // 60 of the pointer and DCS; 5 of the endpoint id, 7 of the slot and the cycle bit.
    (SET_DEQUEUE, 74),
    // 60 of the pointer, 24 of the residual, 8 of the code; 5 of the endpoint id, 7 of the slot and the cycle bit.
    (TRANSFER_EVENT, 105),
    // 60 of the pointer, 8 of the code; 7 of the slot and the cycle bit.
    (COMMAND_COMPLETION, 76),
];

/// How many they are of each.
const BITS: u32 = 128;

/// Bytes that no TRB is written as, and their fault.
const UNKNOWN: [([u8; 16], &str); 6] = [
    ([0; 16], "no type"),
    (
        [0, 0, 0, 0, 1, 0, 0, 0, 8, 0, 0, 0, 0x65, 4, 0, 0],
        "a bit that no field has",
    ),
    (
        [0, 0, 0, 0, 1, 0, 0, 0, 1, 0, 1, 0, 0x25, 4, 0, 0],
        "a length of 65,537",
    ),
    (
        [0, 0, 0, 0, 0, 0, 0, 0, 0, 0, 0, 0, 1, 0x3c, 3, 0],
        "slot 0",
    ),
    (
        [0, 0, 0, 0, 0, 0, 0, 0, 0, 0, 0, 0, 1, 0x3c, 0, 1],
        "endpoint id 0",
    ),
    (
        [8, 0x30, 2, 0x10, 0, 0, 0, 0, 0, 0, 0, 0, 3, 0x18, 0, 0],
        "an address that is no multiple of 16",
    ),
];

/// What is seen of a TRB.
#[derive(Clone, Copy)]
struct Written {
    /// The bytes that it is written as.
    bytes: [u8; 16],
    /// Whether the same is read from them.
    is_same: bool,
    /// Whether a Normal TRB is.
    is_normal: bool,
    /// Whether they are taken for a No Op TRB.
    is_no_op: bool,
}

/// The bytes, and behind them what is read from them.
impl fmt::Display for Written {
    fn fmt<W: fmt::Write>(&self, f: &mut fmt::Formatter<W>) -> fmt::Result {
        let trb = Found::Trb(self.bytes);
        let read = if self.is_same { "the same" } else { "another" };
        write!(f, "{trb}, read as {read}")?;
        if self.is_normal {
            f.write_str(", a Normal TRB")?;
        }
        if self.is_no_op {
            f.write_str(", a No Op TRB")?;
        }
        Ok(())
    }
}

/// Plays the scenes of TRBs.
pub fn play<P: Print>(rt: &P) -> Result<()> {
    println!(rt; "a TRB of each kind: its bytes, and what is read from them")?;
    show_transfer_trbs(rt)?;
    show_commands(rt)?;
    show_events(rt)?;
    println!(rt; "bytes that no TRB is written as, by their fault, and what is read from them")?;
    show_unknown(rt)?;
    let (known, unknown) = flipped_bits()?;
    println!(rt;
        "a TRB of each kind, each bit flipped: {known} are TRBs, written as these bytes, and {unknown} are unknown"
    )?;
    Ok(())
}

/// Slot 1.
fn slot() -> Result<Slot> {
    present(Slot::new(1), "slot 1")
}

/// Endpoint id 3.
fn id() -> Result<EndpointId> {
    present(EndpointId::new(3), "endpoint id 3")
}

/// A length of 8.
fn length() -> Result<Length> {
    present(Length::new(8), "length of 8")
}

/// A residual of 5.
fn residual() -> Result<Residual> {
    present(Residual::new(5), "residual of 5")
}

/// A pointer to an address.
fn pointer(address: u64) -> Result<Pointer> {
    present(Pointer::new(address), "pointer to this multiple of 16")
}

/// Whether a TRB is written as these bytes.
fn writes(trb: &Trb, bytes: &[u8; 16]) -> bool {
    encode(trb).as_slice() == bytes.as_slice()
}

/// Whether this is what is read from these bytes as a Normal TRB.
fn reads_normal(bytes: &[u8; 16], normal: Option<Normal>) -> bool {
    decode_normal(bytes) == normal
}

/// Whether these bytes are taken for a No Op TRB just where they are one.
fn tells_no_op(bytes: &[u8; 16], kind: &TrbKind) -> bool {
    is_no_op(bytes) == (*kind == TrbKind::NoOp)
}

/// What a Normal TRB says; None of another.
fn normal_in(kind: &TrbKind) -> Option<Normal> {
    match kind {
        TrbKind::Normal(normal) => Some(*normal),
        _ => None,
    }
}

/// Whether a TRB is read from these bytes, as each reader has it.
fn reads(bytes: &[u8; 16], trb: &Trb) -> bool {
    decode(bytes) == Ok(*trb) && reads_normal(bytes, normal_in(&trb.kind))
}

/// What is seen of a TRB whose cycle bit is set.
fn seen_of(kind: TrbKind) -> Written {
    let trb = Trb { kind, cycle: true };
    let bytes = encode(&trb);
    Written {
        bytes,
        is_same: reads(&bytes, &trb),
        is_normal: decode_normal(&bytes).is_some(),
        is_no_op: is_no_op(&bytes),
    }
}

/// Prints what is seen of a TRB.
fn show<P: Print>(rt: &P, name: &str, kind: TrbKind) -> Result<()> {
    let written = seen_of(kind);
    println!(rt; "{name}: {written}")?;
    Ok(())
}

/// The TRBs of a transfer ring.
fn show_transfer_trbs<P: Print>(rt: &P) -> Result<()> {
    let normal = TrbKind::Normal(Normal {
        buffer: 0x1_0000_0000,
        length: length()?,
        short: true,
        chain: false,
        done: true,
    });
    let link = TrbKind::Link {
        segment: pointer(0x1002_3000)?,
        toggle: true,
        chain: false,
    };
    show(rt, "Normal", normal)?;
    show(rt, "Link", link)?;
    show(rt, "No Op", TrbKind::NoOp)
}

/// The commands.
fn show_commands<P: Print>(rt: &P) -> Result<()> {
    let (slot, id) = (slot()?, id()?);
    let set_dequeue = TrbKind::SetDequeue {
        pointer: pointer(0x1002_3010)?,
        state: true,
        slot,
        id,
    };
    show(rt, "Reset Endpoint", TrbKind::ResetEndpoint { slot, id })?;
    show(rt, "Stop Endpoint", TrbKind::StopEndpoint { slot, id })?;
    show(rt, "Set TR Dequeue Pointer", set_dequeue)
}

/// The events.
fn show_events<P: Print>(rt: &P) -> Result<()> {
    let slot = slot()?;
    let transfer = TrbKind::TransferEvent {
        pointer: pointer(0x1002_3000)?,
        residual: residual()?,
        code: 13,
        slot,
        id: id()?,
    };
    let completion = TrbKind::CommandCompletion {
        pointer: pointer(0x2000_0000)?,
        code: 1,
        slot,
    };
    show(rt, "Transfer Event", transfer)?;
    show(rt, "Command Completion Event", completion)
}

/// What is read from bytes.
fn read(bytes: &[u8; 16]) -> &'static str {
    match (decode(bytes), decode_normal(bytes)) {
        (Err(Unknown), None) => "nothing",
        (Err(Unknown), Some(_)) => "a Normal TRB alone",
        (Ok(_), _) => "a TRB",
    }
}

/// Prints what is read from the bytes that no TRB is written as.
fn show_unknown<P: Print>(rt: &P) -> Result<()> {
    for (bytes, fault) in &UNKNOWN {
        let read = read(bytes);
        println!(rt; "{fault}: {read}")?;
    }
    Ok(())
}

/// Whether a TRB is read from these bytes. An error where it is written as others, and unless all readers agree on them; a No
/// Op is told by the type alone, bits 15 to 10 of the last number.
fn is_known(bytes: &[u8; 16]) -> Result<bool> {
    let found = decode(bytes).ok();
    let normal = match &found {
        Some(trb) => normal_in(&trb.kind),
        None => None,
    };
    expect(
        reads_normal(bytes, normal),
        "a flipped bit",
        "another Normal TRB is read",
    )?;
    expect(
        is_no_op(bytes) == (bytes[13] / 4 == 8),
        "a flipped bit",
        "whether it is a No Op is told wrong",
    )?;
    let Some(trb) = found else {
        return Ok(false);
    };
    let agrees = writes(&trb, bytes) && tells_no_op(bytes, &trb.kind);
    expect(agrees, "a flipped bit", "another TRB is read")?;
    Ok(true)
}

/// How many TRBs differ from these bytes in one bit.
fn near(bytes: &[u8; 16]) -> Result<u32> {
    let mut count: u32 = 0;
    for bit in 0..128 {
        if is_known(&flipped(bytes, bit))? {
            count = count.saturating_add(1);
        }
    }
    Ok(count)
}

/// How many bytes that differ from a TRB in one bit are TRBs, and how many are unknown.
fn flipped_bits() -> Result<(u32, u32)> {
    let (mut known, mut unknown): (u32, u32) = (0, 0);
    for (bytes, count) in &FLIPPED {
        let found = near(bytes)?;
        expect(found == *count, "a flipped bit", "so many are no TRBs")?;
        known = known.saturating_add(found);
        unknown = unknown.saturating_add(BITS.saturating_sub(found));
    }
    Ok((known, unknown))
}
