//! The devices of a stand.

ghost use Rattle.std.specs.Prelude.{◌+◌, ◌≡◌, IfOk, OnOk, length};
ghost use Rattle.usb_device.specs.Scripts.{Takes};
ghost use Rattle.usb_core.specs.Public.{setup_of};

use crate::packets::scripts;
use anyhow::{Result, anyhow};
use std::alloc::Global;
use usb_core::Setup;
use usb_descriptors::{Config, read_config};
use usb_device::{Device, TableDevice};

/// The configuration descriptor of a stand's devices, with packets of so many bytes (USB 2.0, 9.6.3).
fn descriptor(packet: u16) -> [u8; 48] {
    let [low, high] = packet.to_le_bytes();
    [
        9, 2, 48, 0, 2, 1, 0, 0x80, 0x32, 9, 4, 0, 0, 2, 0xff, 0, 0, 0, 7, 5, 0x81, 2, low, high,
        0, 7, 5, 0x02, 2, low, high, 0, 9, 4, 1, 0, 1, 0xff, 0, 0, 0, 7, 5, 0x83, 3, low, high, 10,
    ]
}

/// A device with packets of at most `packet` bytes, whose endpoints 81 and 83 answer with packets of these sizes, and
/// whose endpoint 02 takes as many; and its configuration. An error where memory is refused, or a number is out of
/// range, as in `devices`.
pub fn device(alloc: Global, packet: u16, sizes: &[u16]) -> Result<(Config, TableDevice)>
    ensures { IfOk result (λ made. Takes made.0 (⟦<TableDevice as Device>⟧.pipes made.1)) }
{
    let Ok(config) = read_config(&descriptor(packet)) else {
        return Err(anyhow!("the configuration isn't read"));
    };
    let Ok(device) = TableDevice::new(alloc, &config, scripts(alloc, sizes)?) else {
        return Err(anyhow!("no device"));
    };
    Ok((config, device))
}

/// One device more, as `device` makes it.
fn add(alloc: Global, setup: &mut Setup<TableDevice>, packet: u16, sizes: &[u16]) -> Result<()>
    ensures { OnOk result (length (setup_of setup.new) ≡ length (setup_of setup.old) + 1) }
{
    let (config, device) = device(alloc, packet, sizes)?;
    setup.add(alloc, config, device)?;
    Ok(())
}

/// So many devices with packets of at most `packet` bytes. The endpoints 81 and 83 of each answer with packets of these
/// sizes, whose bytes are numbered from 1 on, 255 followed by 0; 02 takes as many packets. An error where memory is
/// refused, or a number is out of range: 4 devices, 1,024 bytes, 65,536 packets.
pub fn devices(alloc: Global, count: u8, packet: u16, sizes: &[u16]) -> Result<Setup<TableDevice>>
    ensures { IfOk result (λ setup. length (setup_of setup) ≡ count) }
{
    let mut setup = Setup::new(alloc)?;
    for added in 0..count {
        add(alloc, &mut setup, packet, sizes)?;
    }
    Ok(setup)
}
