//! Two devices with random scripts, for the core and for the plain program.

use super::dice::Dice;
use anyhow::{Result, anyhow};
use std::alloc::{AllocError, Global};
use usb_core::Setup;
use usb_descriptors::{Config, read_config};
use usb_device::TableDevice;
use usb_model::{Bytes, Configuration, DeviceSetup, EpAddr, Response, Script, Sequence};

/// The endpoints that transfers can go to, and one that no device has.
pub const ENDPOINTS: [u8; 5] = [0x81, 0x02, 0x83, 0x04, 0x85];

/// How many devices there are.
pub const DEVICES: u8 = 2;

/// How many answers a script has, which may be more than are asked for; and how many where each is an allocation to be refused.
pub const ANSWERS: u8 = 120;

pub const FEW_ANSWERS: u8 = 16;

/// Interface 0 with the bulk endpoints 81 and 02 of 8 bytes, interface 1 with the interrupt endpoints 83 of 8 and 04 of 4.
fn config() -> Result<Config> {
    read_config(&[
        9, 2, 55, 0, 2, 1, 0, 0x80, 0x32, 9, 4, 0, 0, 2, 0xff, 0, 0, 0, 7, 5, 0x81, 2, 8, 0, 0, 7,
        5, 0x02, 2, 8, 0, 0, 9, 4, 1, 0, 2, 0xff, 0, 0, 0, 7, 5, 0x83, 3, 8, 0, 1, 7, 5, 0x04, 3,
        4, 0, 1,
    ])
    .map_err(|_| anyhow!("the configuration isn't read"))
}

/// A packet of up to so many random bytes.
pub fn packet(alloc: Global, dice: &mut Dice, most: u8) -> Result<Bytes, AllocError> {
    let mut bytes = Sequence::new(alloc);
    for _ in 0..dice.up_to(most) {
        bytes.push(dice.byte())?;
    }
    Ok(bytes)
}

/// An answer of a device: mostly it takes or sends a packet, a full one as often as not.
fn answer(alloc: Global, dice: &mut Dice, ep: EpAddr) -> Result<Response, AllocError> {
    Ok(match dice.up_to(15) {
        0 | 1 => Response::Nak,
        2 => Response::Stall,
        3 => Response::Broken,
        _ if !ep.is_in() => Response::Ack,
        4 => Response::Data(packet(alloc, dice, 9)?),
        5 | 6 => Response::Data(packet(alloc, dice, 7)?),
        _ => {
            let mut bytes = Sequence::new(alloc);
            for at in 0..8_u8 {
                bytes.push(at)?;
            }
            Response::Data(bytes)
        }
    })
}

/// A script of so many answers at each endpoint id that has an endpoint.
fn scripts(
    alloc: Global,
    dice: &mut Dice,
    config: &Config,
    answers: u8,
) -> Result<Sequence<Script>, AllocError> {
    let mut scripts = Sequence::new(alloc);
    for id in 0..32_u8 {
        let ep = EpAddr::new(id / 2 + 128 * (id % 2));
        let mut script = Sequence::new(alloc);
        if config.endpoint(ep).is_some() {
            for _ in 0..answers {
                script.push(answer(alloc, dice, ep)?)?;
            }
        }
        scripts.push(script)?;
    }
    Ok(scripts)
}

/// What a configuration says, as the definitions have it.
fn configuration(alloc: Global, config: &Config) -> Result<Configuration, AllocError> {
    let mut interfaces = Sequence::new(alloc);
    for i in config.interfaces() {
        interfaces.push(*i)?;
    }
    let mut endpoints = Sequence::new(alloc);
    for info in config.endpoints() {
        endpoints.push(*info)?;
    }
    Ok(Configuration {
        interfaces,
        endpoints,
    })
}

/// The devices of a seed, for the plain program.
pub fn plain(alloc: Global, seed: u64) -> Result<usb_model::Setup> {
    let mut dice = Dice::new(seed);
    let mut setup = Sequence::new(alloc);
    for _ in 0..DEVICES {
        let config = config()?;
        setup.push(DeviceSetup {
            config: configuration(alloc, &config)?,
            scripts: scripts(alloc, &mut dice, &config, ANSWERS)?,
        })?;
    }
    Ok(setup)
}

/// One device more for the core.
fn add(
    alloc: Global,
    setup: &mut Setup<TableDevice>,
    config: Config,
    scripts: Sequence<Script>,
) -> Result<()> {
    let Ok(device) = TableDevice::new(alloc, &config, scripts) else {
        return Err(anyhow!("no device"));
    };
    match setup.add(alloc, config, device) {
        Ok(()) => Ok(()),
        Err(_) => Err(anyhow!("the device isn't added")),
    }
}

/// The same for the core, with so many answers in a script.
pub fn real(alloc: Global, seed: u64, answers: u8) -> Result<Setup<TableDevice>> {
    let mut dice = Dice::new(seed);
    let mut setup = Setup::new(alloc)?;
    for _ in 0..DEVICES {
        let config = config()?;
        let scripts = scripts(alloc, &mut dice, &config, answers)?;
        add(alloc, &mut setup, config, scripts)?;
    }
    Ok(setup)
}

/// One device, whose endpoint 81 answers with packets of one byte: 10, 11 and 12.
pub fn three_packets(alloc: Global) -> Result<Setup<TableDevice>> {
    let config = config()?;
    let mut scripts = Sequence::new(alloc);
    for _ in 0..3_u8 {
        scripts.push(Sequence::new(alloc))?;
    }
    let mut script = Sequence::new(alloc);
    for byte in 10..13_u8 {
        let mut bytes = Sequence::new(alloc);
        bytes.push(byte)?;
        script.push(Response::Data(bytes))?;
    }
    scripts.push(script)?;
    let mut setup = Setup::new(alloc)?;
    add(alloc, &mut setup, config, scripts)?;
    Ok(setup)
}
