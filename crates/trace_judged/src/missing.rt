//! What was expected and never came.

ghost use Rattle.std.specs.Prelude.{◌≡◌, ◌<◌, ◌++◌, IfOk, count_by, drop, position, slice_get};
ghost use Rattle.std.specs.Option.{option_copied, option_to_list};
ghost use Rattle.reference.specs.System.{world_of};
ghost use Rattle.trace_judged.specs.Differences.{next_index};
ghost use Rattle.trace_judged.specs.Expected.{packets_of};
ghost use Rattle.trace_judged.specs.Missing.{all_missing, device_missing, is_wanted, missing_at, missing_of};
ghost use Rattle.usb_model.specs.Setup.{Setup};

use crate::difference::next_index;
use crate::expected::{copy_expected, expected_at};
use reference::System;
use std::alloc::{AllocError, Global};
use trace_scenario::ExpectedPackets;
use usb_model::{DeviceNo, EpAddr, Setup};
use usb_scripttext::ExpectedPacket;

/// The packets that never came at an endpoint, since its script began last. One that may be anything isn't missed.
#[derive(Debug, Drop)]
pub struct MissingPackets {
    /// The device.
    pub dev: DeviceNo,
    /// The endpoint.
    pub ep: EpAddr,
    /// How many there are, at least 1.
    pub count: usize,
    /// The index of the first.
    pub index: usize,
    /// What the first had to be.
    pub expected: ExpectedPacket,
}

/// Whether a packet is missed that never came.
fn is_wanted(packet: &ExpectedPacket) -> bool
    ensures { result ≡ is_wanted packet.now }
{
    !matches!(packet, ExpectedPacket::Anything)
}

/// How many of these are missed.
fn wanted(packets: &[&ExpectedPacket]) -> usize
    ensures { result ≡ count_by is_wanted (packets_of packets.now) }
{
    packets.iter().filter(|packet| is_wanted(packet)).count()
}

/// The place of the first of these that is missed.
fn first_wanted(packets: &[&ExpectedPacket]) -> Option<usize>
    ensures { result ≡ position is_wanted (packets_of packets.now) }
{
    packets.iter().position(|packet| is_wanted(packet))
}

/// The packet at a place.
fn packet_at<'a>(packets: &[&'a ExpectedPacket], at: usize) -> Option<&'a ExpectedPacket>
    ensures { option_copied result ≡ slice_get (packets_of packets.now) at }
{
    if at < packets.len() {
        Some(packets[at])
    } else {
        None
    }
}

/// The first that is missed of those that are expected from an index on, and how many are.
fn missing_of(
    alloc: Global,
    dev: DeviceNo,
    ep: EpAddr,
    index: usize,
    left: &[&ExpectedPacket],
) -> Result<Option<MissingPackets>, AllocError>
    ensures { IfOk result (λ m. m ≡ missing_of dev ep index (packets_of left.now)) }
{
    let Some(at) = first_wanted(left) else {
        return Ok(None);
    };
    let Some(packet) = packet_at(left, at) else {
        return Ok(None);
    };
    let expected = copy_expected(alloc, packet)?;
    let index = index.checked_add(at).ok_or(AllocError)?;
    let count = wanted(left);
    Ok(Some(MissingPackets {
        dev,
        ep,
        count,
        index,
        expected,
    }))
}

/// The packets from an index on.
fn behind<'b, 'a>(packets: &'b [&'a ExpectedPacket], index: usize) -> &'b [&'a ExpectedPacket]
    ensures { packets_of result.now ≡ drop index (packets_of packets.now) }
{
    if index < packets.len() {
        &packets[index..]
    } else {
        &[]
    }
}

/// What never came at an endpoint.
fn missing_at(
    alloc: Global,
    lines: &[ExpectedPackets],
    system: &System,
    dev: DeviceNo,
    ep: EpAddr,
) -> Result<Option<MissingPackets>, AllocError>
    ensures { (setup : Setup) → IfOk result (λ m. m ≡ missing_at lines.now (world_of setup system.now) dev ep) }
{
    let packets = expected_at(alloc, lines, dev, ep)?;
    let index = next_index(system, dev, ep);
    let left = behind(packets.as_slice(), index);
    missing_of(alloc, dev, ep, index, left)
}

/// Puts what never came at an endpoint behind others, if there is any.
fn put(missing: &mut Vec<MissingPackets>, found: Option<MissingPackets>) -> Result<(), AllocError>
    ensures { IfOk result (λ _. missing.new.items ≡ missing.old.items ++ option_to_list found) }
{
    if let Some(found) = found {
        missing.push(found)?;
    }
    Ok(())
}

/// Puts what never came at a device behind others.
fn put_missing(
    alloc: Global,
    lines: &[ExpectedPackets],
    setup: &Setup,
    system: &System,
    dev: DeviceNo,
    missing: &mut Vec<MissingPackets>,
) -> Result<(), AllocError>
    ensures { IfOk result (λ _. missing.new.items ≡ missing.old.items ++ device_missing lines.now setup.now (world_of setup.now system.now) dev) }
{
    for info in setup.endpoints_of(dev) {
        let found = missing_at(alloc, lines, system, dev, info.address)?;
        put(missing, found)?;
    }
    Ok(())
}

/// Puts what never came at the device of this number, below 4, behind others.
fn put_device(
    alloc: Global,
    lines: &[ExpectedPackets],
    setup: &Setup,
    system: &System,
    number: u8,
    missing: &mut Vec<MissingPackets>,
) -> Result<(), AllocError>
    requires { number < 4 }
    ensures { IfOk result (λ _. missing.new.items ≡ missing.old.items ++ device_missing lines.now setup.now (world_of setup.now system.now) number) }
{
    match DeviceNo::new(number) {
        Some(dev) => put_missing(alloc, lines, setup, system, dev, missing),
        None => Ok(()),
    }
}

/// What never came at all devices.
pub(crate) fn all_missing(
    alloc: Global,
    lines: &[ExpectedPackets],
    setup: &Setup,
    system: &System,
) -> Result<Vec<MissingPackets>, AllocError>
    ensures { IfOk result (λ missing. missing.items ≡ all_missing lines.now setup.now (world_of setup.now system.now)) }
{
    let mut missing = Vec::new(alloc);
    put_device(alloc, lines, setup, system, 0, &mut missing)?;
    put_device(alloc, lines, setup, system, 1, &mut missing)?;
    put_device(alloc, lines, setup, system, 2, &mut missing)?;
    put_device(alloc, lines, setup, system, 3, &mut missing)?;
    Ok(missing)
}
