//! Memory of the caller's that a transfer reads into.

use super::bench::{Numbered, PAYLOAD, make_all};
use super::stand::both_kinds;
use crate::digits::Digits;
use anyhow::{Result, anyhow};
use example_devices::Reader;
use std::alloc::Global;
use std::fmt;
use usb_core::{Core, Taken};
use usb_model::{Buffer, Refused, Step};

/// What became of a submission into memory.
#[derive(Drop)]
struct Submitted {
    /// The transfer's number, or why it was refused.
    number: Result<u64, Refused>,
    /// For how many bytes the caller has memory left.
    left: usize,
}

impl fmt::Display for Submitted {
    fn fmt<W: fmt::Write>(&self, f: &mut fmt::Formatter<W>) -> fmt::Result {
        match &self.number {
            Ok(number) => write!(f, "number {number}")?,
            Err(why) => write!(f, "refused, {why:?}")?,
        }
        let left = self.left;
        write!(f, ", {left} bytes of memory left")
    }
}

/// What a scene saw of reads of 8 bytes.
#[derive(Drop)]
struct Seen {
    /// Of one before the device is open, into memory of 8 bytes.
    refused: Submitted,
    /// Of one into the same memory.
    accepted: Submitted,
    /// What came of that.
    payload: u8,
    memory: Buffer,
    /// Of one into memory of 9 bytes.
    longer: Submitted,
}

/// Plays the scene.
pub fn play<P: Print>(rt: &P, alloc: Global) -> Result<()> {
    let Seen {
        refused,
        accepted,
        payload,
        memory,
        longer,
    } = played(alloc)?;
    let (bytes, room) = (Digits(memory.as_slice()), memory.capacity());
    println!(rt; "memory of 8 bytes for a read of 8, before the device is open: {refused}")?;
    println!(rt; "memory of 8 bytes for a read of 8: {accepted}")?;
    println!(rt; "the read of payload {payload} ends: {bytes} in memory of {room} bytes")?;
    println!(rt; "memory of 9 bytes for a read of 8: {longer}")?;
    Ok(())
}

/// The scene by a core of its own, which is gone before anything is printed.
fn played(alloc: Global) -> Result<Seen> {
    let mut core = Core::new(alloc, both_kinds(alloc)?)?;
    scene(alloc, &mut core, &Reader::new(1, 0, 0)?)
}

/// The submissions, in order; of the accepted ones the former is answered before the latter.
fn scene(alloc: Global, core: &mut Numbered, reader: &Reader) -> Result<Seen> {
    let mut memory = Buffer::with_capacity(alloc, 8)?;
    let refused = submit(core, reader, &mut memory);
    begin(alloc, core, reader)?;
    let accepted = submit(core, reader, &mut memory);
    let Taken { returned, payload } = answered(core, reader)?;
    let mut longer = Buffer::with_capacity(alloc, 9)?;
    Ok(Seen {
        refused,
        accepted,
        payload,
        memory: returned.into_returned().bytes.into_buffer(),
        longer: submit(core, reader, &mut longer),
    })
}

/// The device is opened, and its interface claimed.
fn begin(alloc: Global, core: &mut Numbered, reader: &Reader) -> Result<()> {
    let Reader { h, dev, i, .. } = *reader;
    let steps = Vec::from_array(alloc, [Step::Open { h, dev }, Step::Claim { h, i }])?;
    make_all(alloc, core, steps, &mut String::new(alloc))
}

/// Submits a read of 8 bytes into this memory.
fn submit(core: &mut Numbered, reader: &Reader, memory: &mut Buffer) -> Submitted {
    let number = match core.submit_into(reader.h, reader.read(8, 0), PAYLOAD, memory) {
        Ok(number) => Ok(number),
        Err(unaccepted) => Err(unaccepted.why),
    };
    Submitted {
        number,
        left: memory.capacity(),
    }
}

/// The device answers a packet, and the result goes out.
fn answered(core: &mut Numbered, reader: &Reader) -> Result<Taken<u8>> {
    let _served = core.serve(reader.dev, reader.ep);
    let _handled = core.deliver();
    core.take_done().ok_or_else(|| anyhow!("no result waits"))
}
