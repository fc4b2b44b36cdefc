//! The one device of a scene.

use anyhow::{Result, anyhow};
use std::alloc::{AllocError, Global};
use usb_core::Setup;
use usb_descriptors::{Config, read_config};
use usb_device::TableDevice;
use usb_model::{EpAddr, Response, Script, Sequence};

/// What an endpoint answers to one packet.
#[derive(Clone, Copy)]
pub enum Answer {
    /// So many zeros.
    Zeros(u16),
    /// It takes the packet.
    Ack,
    /// It stalls.
    Stall,
}

/// An answer that an endpoint gives so many times.
#[derive(Clone, Copy)]
pub struct Answers {
    /// The endpoint's address.
    pub ep: u8,
    /// How many times.
    pub count: u16,
    /// What it answers.
    pub answer: Answer,
}

/// Interface 0 with the bulk endpoints 81 and 02, whose packets have so many bytes, and interface 1 with the interrupt
/// endpoint 83, whose packets have 8.
fn config(size: u16) -> Result<Config> {
    let [low, high] = size.to_le_bytes();
    let descriptor = [
        9, 2, 48, 0, 2, 1, 0, 0x80, 0x32, 9, 4, 0, 0, 2, 0xff, 0, 0, 0, 7, 5, 0x81, 2, low, high,
        0, 7, 5, 0x02, 2, low, high, 0, 9, 4, 1, 0, 1, 0xff, 0, 0, 0, 7, 5, 0x83, 3, 8, 0, 0x0a,
    ];
    read_config(&descriptor).map_err(|_| anyhow!("the configuration isn't read"))
}

/// An answer, as a script has it.
fn response(alloc: Global, answer: Answer) -> Result<Response, AllocError> {
    match answer {
        Answer::Zeros(len) => {
            let bytes = Vec::from_elem(alloc, 0, usize::from(len))?;
            Ok(Response::Data(Sequence::from_vec(bytes)))
        }
        Answer::Ack => Ok(Response::Ack),
        Answer::Stall => Ok(Response::Stall),
    }
}

/// The script of an endpoint, of all these answers.
fn script(alloc: Global, ep: EpAddr, answers: &[Answers]) -> Result<Script, AllocError> {
    let mut script = Sequence::new(alloc);
    for given in answers {
        if given.ep == ep.address() {
            for _ in 0..given.count {
                script.push(response(alloc, given.answer)?)?;
            }
        }
    }
    Ok(script)
}

/// The script of each endpoint id.
fn scripts(alloc: Global, answers: &[Answers]) -> Result<Sequence<Script>, AllocError> {
    let mut scripts = Sequence::new(alloc);
    for id in 0..32_u8 {
        let ep = EpAddr::new(id / 2 + 128 * (id % 2));
        scripts.push(script(alloc, ep, answers)?)?;
    }
    Ok(scripts)
}

/// A setup of the device alone.
pub fn setup(alloc: Global, size: u16, answers: &[Answers]) -> Result<Setup<TableDevice>> {
    let config = config(size)?;
    let Ok(device) = TableDevice::new(alloc, &config, scripts(alloc, answers)?) else {
        return Err(anyhow!("no device"));
    };
    let mut setup = Setup::new(alloc)?;
    if setup.add(alloc, config, device).is_err() {
        return Err(anyhow!("the device isn't added"));
    }
    Ok(setup)
}
