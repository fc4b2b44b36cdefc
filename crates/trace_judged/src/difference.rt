//! A packet that isn't as expected.

ghost use Rattle.std.specs.Prelude.{◌≡◌, IfOk};
ghost use Rattle.std.specs.Option.{option_copied};
ghost use Rattle.reference.specs.System.{world_of};
ghost use Rattle.usb_model.specs.Setup.{Setup};
ghost use Rattle.trace_judged.specs.Differences.{difference_of, next_index, received_at};

use crate::expected::{copy_expected, copy_of, differs_at};
use reference::System;
use std::alloc::{AllocError, Global};
use usb_model::{Bytes, DeviceNo, EpAddr};
use usb_scripttext::ExpectedPacket;

/// A packet that a device took and that isn't as expected.
#[derive(Debug, Drop)]
pub struct Difference {
    /// The number of the line whose step moved it, from 1.
    pub line: u64,
    /// The device.
    pub dev: DeviceNo,
    /// The endpoint.
    pub ep: EpAddr,
    /// How many packets the endpoint had taken before it, since its script began.
    pub index: usize,
    /// Its bytes.
    pub came: Bytes,
    /// What was expected.
    pub expected: ExpectedPacket,
    /// The first byte that differs, from 0; or the end of the shorter.
    pub offset: usize,
}

/// How many packets an endpoint took since its script began.
pub(crate) fn next_index(system: &System, dev: DeviceNo, ep: EpAddr) -> usize
    ensures { (setup : Setup) → result ≡ next_index (world_of setup system.now) dev ep }
{
    system
        .endpoints
        .get(dev, ep.address())
        .packets_received
        .len()
}

/// The packet of this index that it took.
pub(crate) fn received_at(
    system: &System,
    dev: DeviceNo,
    ep: EpAddr,
    index: usize,
) -> Option<&Bytes>
    ensures { (setup : Setup) → option_copied result ≡ received_at (world_of setup system.now) dev ep index }
{
    let endpoint = system.endpoints.get(dev, ep.address());
    endpoint.packets_received.as_slice().get(index)
}

/// A packet with these bytes, where it isn't as expected.
pub(crate) fn difference_of(
    alloc: Global,
    line: u64,
    dev: DeviceNo,
    ep: EpAddr,
    index: usize,
    expected: &ExpectedPacket,
    came: &[u8],
) -> Result<Option<Difference>, AllocError>
    ensures { IfOk result (λ d. d ≡ difference_of line dev ep index expected.now came.now) }
{
    let Some(offset) = differs_at(expected, came) else {
        return Ok(None);
    };
    let came = copy_of(alloc, came)?;
    let expected = copy_expected(alloc, expected)?;
    Ok(Some(Difference {
        line,
        dev,
        ep,
        index,
        came,
        expected,
        offset,
    }))
}
