//! What the devices of a stand answer.

use std::alloc::{AllocError, Global};
use usb_model::{Response, Script, Sequence};

/// How many endpoint ids a device has (xHCI 1.2, 4.5.1).
const IDS: u8 = 32;

/// The id of the endpoint 81.
const BULK_IN: u8 = 3;

/// The id of the endpoint 02.
const BULK_OUT: u8 = 4;

/// The id of the endpoint 83.
const INTERRUPT_IN: u8 = 7;

/// The packet of so many bytes whose first is behind this number.
fn packet(alloc: Global, size: u16, number: &mut u8) -> Result<Response, AllocError> {
    let mut bytes = Sequence::new(alloc);
    for _ in 0..size {
        *number = number.wrapping_add(1);
        bytes.push(*number)?;
    }
    Ok(Response::Data(bytes))
}

/// Packets of these sizes, whose bytes are numbered from 1 on; 255 is followed by 0.
fn packets(alloc: Global, sizes: &[u16]) -> Result<Script, AllocError> {
    let mut script = Sequence::new(alloc);
    let mut number = 0_u8;
    for size in sizes {
        script.push(packet(alloc, *size, &mut number)?)?;
    }
    Ok(script)
}

/// So many packets that are taken.
fn taken(alloc: Global, count: usize) -> Result<Script, AllocError> {
    let mut script = Sequence::new(alloc);
    for _ in 0..count {
        script.push(Response::Ack)?;
    }
    Ok(script)
}

/// Such packets at the endpoints 81 and 83, as many taken at 02, and nothing elsewhere.
pub(crate) fn scripts(alloc: Global, sizes: &[u16]) -> Result<Sequence<Script>, AllocError> {
    let mut scripts = Sequence::new(alloc);
    for id in 0..IDS {
        let script = match id {
            BULK_IN | INTERRUPT_IN => packets(alloc, sizes)?,
            BULK_OUT => taken(alloc, sizes.len())?,
            _ => Sequence::new(alloc),
        };
        scripts.push(script)?;
    }
    Ok(scripts)
}
