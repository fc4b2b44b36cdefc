//! A setup of two devices that answer alike: device 0 by its table, device 1 counts too.

use super::kinds::EitherDevice;
use anyhow::Result;
use example_devices::device;
use std::alloc::Global;
use usb_core::Setup;

/// The sizes of the packets to the host, in bytes; as many packets from it are taken.
const SIZES: [u16; 7] = [8; 7];

/// One device more, of either kind.
fn add(alloc: Global, setup: &mut Setup<EitherDevice>, counts: bool) -> Result<()> {
    let (config, device) = device(alloc, 8, &SIZES)?;
    let device = EitherDevice::new(alloc, device, counts)?;
    setup.add(alloc, config, device)?;
    Ok(())
}

/// A device of each kind.
pub fn both_kinds(alloc: Global) -> Result<Setup<EitherDevice>> {
    let mut setup = Setup::new(alloc)?;
    add(alloc, &mut setup, false)?;
    add(alloc, &mut setup, true)?;
    Ok(setup)
}
