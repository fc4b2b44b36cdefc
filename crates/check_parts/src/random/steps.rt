//! Random steps: of three names, at two devices, most of them such as do something.

use super::dice::Dice;
use super::scene::{DEVICES, ENDPOINTS, packet};
use anyhow::{Result, anyhow};
use bitflags::Flags as _;
use std::alloc::Global;
use usb_model::{Body, DeviceNo, EpAddr, Flags, Kind, Name, Request, Sequence, Step, Verdict};

fn name(dice: &mut Dice) -> Result<Name> {
    Name::new(1 + dice.up_to(2)).ok_or_else(|| anyhow!("no name"))
}

fn device(dice: &mut Dice) -> Result<DeviceNo> {
    DeviceNo::new(dice.up_to(DEVICES - 1)).ok_or_else(|| anyhow!("no device"))
}

fn endpoint(dice: &mut Dice) -> EpAddr {
    EpAddr::new(ENDPOINTS[usize::from(dice.up_to(4))])
}

/// Of a transfer of late.
fn number(dice: &mut Dice) -> u64 {
    u64::from(dice.up_to(40))
}

/// Mostly one that is accepted where the name holds the endpoint.
fn request(alloc: Global, dice: &mut Dice) -> Result<Request> {
    let ep = endpoint(dice);
    let kind = match ep.number() {
        _ if dice.one_in(20) => Kind::Control,
        1 | 2 => Kind::Bulk,
        _ => Kind::Interrupt,
    };
    let body = if ep.is_in() != dice.one_in(20) {
        Body::In(u32::from(dice.up_to(40)))
    } else {
        Body::Out(packet(alloc, dice, 40)?)
    };
    Ok(Request {
        ep,
        kind,
        flags: Flags::from_bits_retain(dice.up_to(15)),
        timeout: u32::from(dice.up_to(1)),
        body,
    })
}

fn verdict(alloc: Global, dice: &mut Dice) -> Result<Verdict> {
    Ok(match dice.up_to(3) {
        0 => Verdict::AgainWith(packet(alloc, dice, 20)?),
        1 => Verdict::Stop,
        _ => Verdict::Again,
    })
}

/// A step of a name that opens, claims, or undoes it.
fn opening(dice: &mut Dice) -> Result<Step> {
    let h = name(dice)?;
    Ok(match dice.up_to(15) {
        0 => Step::Close { h },
        1 => Step::Release {
            h,
            i: dice.up_to(1),
        },
        2 => Step::Reset { h },
        3..=5 => Step::ClearHalt {
            h,
            ep: endpoint(dice),
        },
        6..=9 => Step::Open {
            h,
            dev: device(dice)?,
        },
        _ => Step::Claim {
            h,
            i: dice.up_to(2),
        },
    })
}

/// A step, whichever.
fn step(alloc: Global, dice: &mut Dice) -> Result<Step> {
    Ok(match dice.up_to(63) {
        0..=8 => opening(dice)?,
        9..=18 => Step::Submit {
            h: name(dice)?,
            request: request(alloc, dice)?,
        },
        19 | 20 => Step::Cancel {
            h: name(dice)?,
            n: number(dice),
        },
        21 | 22 => Step::Expire {
            h: name(dice)?,
            n: number(dice),
        },
        23..=26 => Step::Answer {
            h: name(dice)?,
            n: number(dice),
            verdict: verdict(alloc, dice)?,
        },
        27..=29 => Step::Command,
        30..=36 => Step::Deliver,
        37..=40 => Step::Take,
        41 if dice.one_in(12) => Step::Unplug { dev: device(dice)? },
        _ => Step::Serve {
            dev: device(dice)?,
            ep: endpoint(dice),
        },
    })
}

/// Puts so many steps behind the others.
fn put(alloc: Global, steps: &mut Sequence<Step>, seed: u64, count: u64) -> Result<()> {
    let mut dice = Dice::new(!seed);
    for _ in 0..count {
        steps.push(step(alloc, &mut dice)?)?;
    }
    Ok(())
}

/// So many steps.
pub fn steps(alloc: Global, seed: u64, count: u64) -> Result<Sequence<Step>> {
    let mut steps = Sequence::new(alloc);
    put(alloc, &mut steps, seed, count)?;
    Ok(steps)
}

/// The same, before which each name opens a device and claims an interface: so most of them do something.
pub fn busy(alloc: Global, seed: u64, count: u64) -> Result<Sequence<Step>> {
    let mut steps = Sequence::new(alloc);
    for (number, dev, i) in [(1, 0, 0), (2, 1, 1), (3, 0, 1)] {
        let (Some(h), Some(dev)) = (Name::new(number), DeviceNo::new(dev)) else {
            return Err(anyhow!("a name and a device"));
        };
        steps.push(Step::Open { h, dev })?;
        steps.push(Step::Claim { h, i })?;
    }
    put(alloc, &mut steps, seed, count)?;
    Ok(steps)
}
