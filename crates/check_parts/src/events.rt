//! What events tell of a read of 8 bytes (xHCI 1.2, 4.11.3), by `Target::read`, as the core reads them.

use crate::changed::flipped;
use crate::expect::expect;
use anyhow::Result;
use bitflags::Flags as _;
use std::fmt;
use usb_model::{Ask, Flags, Status};
use usb_tables::{Reading, Target, result};
use usb_trb::{Residual, Trb, TrbKind, decode};

/// Plays the scenes of events.
pub fn play<P: Print>(rt: &P) -> Result<()> {
    let (short, over) = (read(&SHORT), read(&OVER));
    println!(rt; "a residual of 5 in a read of 8 bytes, code 13: {short}")?;
    println!(rt; "a residual of 9 in a read of 8 bytes, code 13: {over}")?;
    let (late, short) = (status(26, Some(Ask::Time)), status(13, None));
    println!(rt;
        "a read that isn't to be short, 3 of 8 bytes: {late} by code 26 once its time is over, {short} by code 13"
    )?;
    let Kinds {
        unknown,
        elsewhere,
        stray,
        ended,
        ..
    } = flipped_bits(&SHORT)?;
    println!(rt;
        "that event, each bit flipped: {unknown} are unknown, {elsewhere} of another TRB, {stray} stray, and {ended} end the read as code and residual say"
    )?;
    let Kinds {
        unknown,
        elsewhere,
        ..
    } = flipped_bits(&OTHER)?;
    println!(rt;
        "an event of a command, each bit flipped: {unknown} are unknown, and {elsewhere} of a command"
    )?;
    let Kinds { ended, paused, .. } = each_code()?;
    println!(rt; "that event with each code: {ended} end the read, and {paused} lets it stand")?;
    Ok(())
}

/// Where the TRB of the read stands.
const ADDRESS: u64 = 0x1002_3000;

/// A Transfer Event of slot 1, endpoint id 3, with code 13 and the cycle bit set, of the TRB of the read: it left 5 bytes
/// of it.
const SHORT: [u8; 16] = [0, 0x30, 2, 0x10, 0, 0, 0, 0, 5, 0, 0, 13, 1, 0x80, 3, 1];

/// The same with a residual of 9, which is over the TRB's length.
const OVER: [u8; 16] = [0, 0x30, 2, 0x10, 0, 0, 0, 0, 9, 0, 0, 13, 1, 0x80, 3, 1];

/// A Command Completion Event that points at the same TRB, with code 1.
const OTHER: [u8; 16] = [0, 0x30, 2, 0x10, 0, 0, 0, 0, 0, 0, 0, 1, 1, 0x84, 0, 1];

/// What 16 bytes are.
#[derive(Clone, Copy, PartialEq, Eq)]
enum Meaning {
    /// No TRB.
    Unknown,
    /// One that doesn't tell of the read's TRB.
    Elsewhere,
    /// An event that points at it.
    OfRead(Reading),
}

/// What an event tells of the read.
fn write_reading<W: fmt::Write>(f: &mut fmt::Formatter<W>, reading: Reading) -> fmt::Result {
    match reading {
        Reading::Ended {
            item,
            status,
            actual,
        } => write!(
            f,
            "transfer {item} of the line ends {status} with {actual} bytes"
        ),
        Reading::Paused { item, actual } => write!(
            f,
            "transfer {item} of the line stands at {actual} bytes"
        ),
        Reading::Stray => f.write_str("stray"),
    }
}

impl fmt::Display for Meaning {
    fn fmt<W: fmt::Write>(&self, f: &mut fmt::Formatter<W>) -> fmt::Result {
        match self {
            Meaning::Unknown => f.write_str("unknown"),
            Meaning::Elsewhere => f.write_str("of another TRB"),
            Meaning::OfRead(reading) => write_reading(f, *reading),
        }
    }
}

/// What an event tells that points at the one TRB of a read of 8 bytes.
fn told(residual: Residual, code: u8) -> Reading {
    let target = Target {
        item: 0,
        gone: false,
        flags: Flags::from_bits_retain(0),
        length: 8,
        ask: None,
        before: 0,
        here: 8,
    };
    target.read(residual, code)
}

/// What an event is that has these fields.
fn meant_by(address: u64, residual: Residual, code: u8) -> Meaning {
    if address == ADDRESS {
        Meaning::OfRead(told(residual, code))
    } else {
        Meaning::Elsewhere
    }
}

/// What a TRB is to the read.
fn of_trb(trb: &Trb) -> Meaning {
    match trb.kind {
        TrbKind::TransferEvent {
            pointer,
            residual,
            code,
            ..
        } => meant_by(pointer.address(), residual, code),
        _ => Meaning::Elsewhere,
    }
}

/// What is read from these bytes.
fn read(bytes: &[u8; 16]) -> Meaning {
    match decode(bytes) {
        Ok(trb) => of_trb(&trb),
        Err(_) => Meaning::Unknown,
    }
}

/// The status of a read of 8 bytes of which 3 moved, and in which a short packet is an error.
fn status(code: u8, ask: Option<Ask>) -> Status {
    result(code, ask, Flags::SHORT_NOT_OK, 8, 3)
}

/// How many events tell what.
#[derive(Clone, Copy, Default)]
struct Kinds {
    unknown: u32,
    elsewhere: u32,
    stray: u32,
    ended: u32,
    paused: u32,
}

impl Kinds {
    /// One more that tells this.
    fn count(&mut self, found: Meaning) {
        let kind = match found {
            Meaning::Unknown => &mut self.unknown,
            Meaning::Elsewhere => &mut self.elsewhere,
            Meaning::OfRead(Reading::Stray) => &mut self.stray,
            Meaning::OfRead(Reading::Ended { .. }) => &mut self.ended,
            Meaning::OfRead(Reading::Paused { .. }) => &mut self.paused,
        };
        *kind = kind.saturating_add(1);
    }
}

/// Whether these bytes are a Transfer Event (xHCI 1.2, 6.4.2.1): a pointer to a multiple of 16, the type 32 and nothing beside it
/// and the cycle bit, and an endpoint id and a slot that aren't 0.
fn is_transfer_event(bytes: &[u8; 16]) -> bool {
    let [pointer, .., cycle, kind, id, slot] = *bytes;
    pointer % 16 == 0 && cycle <= 1 && kind == 32 * 4 && 0 < id && id < 32 && 0 < slot
}

/// Whether they are a Command Completion Event (xHCI 1.2, 6.4.2.2), which has the type 33 and neither residual nor endpoint id.
fn is_command_completion(bytes: &[u8; 16]) -> bool {
    let [pointer, .., low, middle, high, _, cycle, kind, id, slot] = *bytes;
    let is_empty = low == 0 && middle == 0 && high == 0 && id == 0;
    pointer % 16 == 0 && cycle <= 1 && kind == 33 * 4 && is_empty && 0 < slot
}

/// The status of a read that may be short and that nobody asked to end, by its completion code (xHCI 1.2, 6.4.5).
fn wanted_status(code: u8) -> Status {
    match code {
        1 | 13 => Status::Completed,
        3 => Status::Overflow,
        6 => Status::Stall,
        _ => Status::Error,
    }
}

/// What bytes have to be, by their fields. No more than 8 bytes can be left of the read; code 26 is Stopped.
fn wanted(bytes: &[u8; 16]) -> Meaning {
    if is_command_completion(bytes) {
        return Meaning::Elsewhere;
    }
    if !is_transfer_event(bytes) {
        return Meaning::Unknown;
    }
    if bytes[..8] != SHORT[..8] {
        return Meaning::Elsewhere;
    }
    let [residual, middle, high, code] = [bytes[8], bytes[9], bytes[10], bytes[11]];
    if middle != 0 || high != 0 || residual > 8 {
        return Meaning::OfRead(Reading::Stray);
    }
    let (item, actual) = (0, u32::from(8 - residual));
    Meaning::OfRead(match code {
        26 => Reading::Paused { item, actual },
        _ => Reading::Ended {
            item,
            status: wanted_status(code),
            actual,
        },
    })
}

/// What is read from these bytes. An error unless it is what has to be.
fn found(bytes: &[u8; 16]) -> Result<Meaning> {
    let found = read(bytes);
    expect(
        found == wanted(bytes),
        "an event with a byte changed",
        "it tells something else",
    )?;
    Ok(found)
}

/// What an event tells with each of its bits flipped.
fn flipped_bits(event: &[u8; 16]) -> Result<Kinds> {
    let mut kinds = Kinds::default();
    for bit in 0..128 {
        kinds.count(found(&flipped(event, bit))?);
    }
    Ok(kinds)
}

/// What the first event tells with each code.
fn each_code() -> Result<Kinds> {
    let mut kinds = Kinds::default();
    for code in 0..=255_u8 {
        let mut bytes = SHORT;
        bytes[11] = code;
        kinds.count(found(&bytes)?);
    }
    Ok(kinds)
}
