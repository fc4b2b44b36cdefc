//! What a device took: bytes that a callback sent in the place of others, and the empty packet behind whole ones.

use super::bench::make_all;
use super::kinds::EitherDevice;
use super::stand::both_kinds;
use crate::digits::Digits;
use anyhow::Result;
use example_devices::Reader;
use std::alloc::{AllocError, Global};
use std::fmt;
use std::ops::Range;
use usb_core::{Core, Setup};
use usb_model::{Bytes, DeviceNo, EpAddr, Flags, Request, Step, Verdict};

/// The packets of a write and of what its callback sent in its place, by their number.
const OTHERS: Range<usize> = 0..2;

/// Those behind them, of a write of 16 bytes and one of 15, as far as somebody looks.
const WHOLE: Range<usize> = 2..16;

/// What a scene saw.
#[derive(Drop)]
struct Seen {
    /// What was told, in lines.
    told: String,
    /// The packets that the device took.
    others: Vec<Vec<u8>>,
    whole: Vec<Vec<u8>>,
    /// How often the device that counts has answered.
    answers: Option<u64>,
}

/// Plays the scene, at each of the two devices.
pub fn play<P: Print>(rt: &P, alloc: Global) -> Result<()> {
    for dev in 0..2_u8 {
        show(rt, dev, taken_by(alloc, dev)?)?;
    }
    Ok(())
}

/// Prints what is seen of the writes to a device.
fn show<P: Print>(rt: &P, dev: u8, seen: Seen) -> Result<()> {
    let others = Packets(seen.others.as_slice());
    println!(rt; "bytes in the place of a write's: device {dev} takes{others}")?;
    let whole = Packets(seen.whole.as_slice());
    println!(rt;
        "an empty packet behind whole ones, of 16 bytes and not of 15: device {dev} takes{whole}"
    )?;
    let (told, answers) = (seen.told, seen.answers.unwrap_or(0));
    println!(rt; "the device that counts has answered {answers}, and this is told")?;
    print!(rt; "{told}")?;
    Ok(())
}

/// Packets, a space before each.
#[derive(Clone, Copy)]
struct Packets<'a>(&'a [Vec<u8>]);

impl fmt::Display for Packets<'_> {
    fn fmt<W: fmt::Write>(&self, f: &mut fmt::Formatter<W>) -> fmt::Result {
        for packet in self.0 {
            let packet = Digits(packet.as_slice());
            write!(f, " {packet}")?;
        }
        Ok(())
    }
}

/// What is seen of the writes to a device.
fn taken_by(alloc: Global, dev: u8) -> Result<Seen> {
    let reader = Reader::new(1, dev, 0)?;
    let mut told = String::new(alloc);
    let setup = written(alloc, &reader, &mut told)?;
    let (others, whole) = taken(alloc, &setup, reader.dev)?;
    Ok(Seen {
        told,
        others,
        whole,
        answers: answers(setup),
    })
}

/// The packets that a device took of a write and of what was sent in its place, and those behind them.
fn taken(
    alloc: Global,
    setup: &Setup<EitherDevice>,
    dev: DeviceNo,
) -> Result<(Vec<Vec<u8>>, Vec<Vec<u8>>)> {
    let others = packets_of(alloc, setup, dev, OTHERS)?;
    Ok((others, packets_of(alloc, setup, dev, WHOLE)?))
}

/// The packets that a device took at the endpoint 02, of those with these numbers.
fn packets_of(
    alloc: Global,
    setup: &Setup<EitherDevice>,
    dev: DeviceNo,
    numbers: Range<usize>,
) -> Result<Vec<Vec<u8>>> {
    let mut packets = Vec::new(alloc);
    for i in numbers {
        if let Some(packet) = setup.taken(dev, EpAddr::new(0x02), i) {
            packets.push(Vec::from_slice(alloc, packet)?)?;
        }
    }
    Ok(packets)
}

/// How often the device that counts has answered, once it is taken out of its setup.
fn answers(setup: Setup<EitherDevice>) -> Option<u64> {
    let mut answers = None;
    for slot in setup.into_slots() {
        if let EitherDevice::Counting(counter) = slot.into_device() {
            answers = Some(counter.answers());
        }
    }
    answers
}

/// Where the writes leave the devices; what is told of them stands behind these lines.
fn written(alloc: Global, reader: &Reader, told: &mut String) -> Result<Setup<EitherDevice>> {
    let mut core = Core::new(alloc, both_kinds(alloc)?)?;
    make_all(alloc, &mut core, steps(alloc, reader)?, told)?;
    Ok(core.into_setup())
}

/// The steps of a write of 3 bytes, whose callback sends 2 others, and of writes of 16 and 15 bytes.
fn steps(alloc: Global, reader: &Reader) -> Result<Vec<Step>> {
    let Reader { h, dev, i, .. } = *reader;
    let mut steps = Vec::from_array(alloc, [Step::Open { h, dev }, Step::Claim { h, i }])?;
    steps.push(submit(alloc, reader, 3)?)?;
    let others = Verdict::AgainWith(numbered(alloc, 2)?);
    add_end(&mut steps, reader, 1, 0, others)?;
    add_end(&mut steps, reader, 1, 1, Verdict::Stop)?;
    steps.push(submit(alloc, reader, 16)?)?;
    add_end(&mut steps, reader, 3, 2, Verdict::Stop)?;
    steps.push(submit(alloc, reader, 15)?)?;
    add_end(&mut steps, reader, 2, 3, Verdict::Stop)?;
    Ok(steps)
}

/// So many bytes, numbered from 0 on.
fn numbered(alloc: Global, count: u8) -> Result<Bytes, AllocError> {
    Ok(Bytes::from_vec((0..count).collect(alloc)?))
}

/// A write of so many bytes, with an empty packet behind whole ones.
fn submit(alloc: Global, reader: &Reader, count: u8) -> Result<Step, AllocError> {
    let mut request: Request = reader.write(numbered(alloc, count)?);
    request.flags = Flags::ADD_ZERO_PACKET;
    Ok(Step::Submit {
        h: reader.h,
        request,
    })
}

/// The device takes so many packets, and the transfer of this number ends with a verdict.
fn add_end(
    steps: &mut Vec<Step>,
    reader: &Reader,
    packets: u8,
    n: u64,
    verdict: Verdict,
) -> Result<(), AllocError> {
    let Reader { h, dev, .. } = *reader;
    let ep = EpAddr::new(0x02);
    for _ in 0..packets {
        steps.push(Step::Serve { dev, ep })?;
    }
    steps.push(Step::Deliver)?;
    steps.push(Step::Take)?;
    steps.push(Step::Answer { h, n, verdict })?;
    Ok(())
}
