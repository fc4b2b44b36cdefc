//! A driver of the memory, over a core in one thread.

use crate::flash::memory::Flash;
use anyhow::{Result, anyhow};
use bitflags::Flags as _;
use example_devices::devices;
use std::alloc::Global;
use usb_core::Core;
use usb_device::TableDevice;
use usb_living::ask;
use usb_model::{
    Body, Bytes, DeviceNo, EpAddr, Flags, Kind, Name, Request, Returned, Status, Step,
};

/// How often a device is asked, and how many events are handled, until a transfer has to have ended.
const PATIENCE: u32 = 16;

/// A memory, and the core that it is driven over.
#[derive(Drop)]
pub struct Driver {
    alloc: Global,
    core: Core<(), TableDevice>,
    flash: Flash,
    h: Name,
    dev: DeviceNo,
}

/// The device opened, and its interface claimed. Like the other calls here it promises nothing: what a call promises stands before each
/// goal behind it, and a driver needs no more of them than that they are safe.
fn opened(alloc: Global, h: Name, dev: DeviceNo) -> Result<Core<(), TableDevice>> {
    let mut core = Core::new(alloc, devices(alloc, 1, 64, &[])?)?;
    let _opened = core.call(Step::Open { h, dev });
    let _claimed = core.call(Step::Claim { h, i: 0 });
    Ok(core)
}

/// A transfer is submitted.
fn submit(core: &mut Core<(), TableDevice>, h: Name, ep: EpAddr, body: Body) -> Result<()> {
    let request = Request {
        ep,
        kind: Kind::Bulk,
        flags: Flags::empty(),
        timeout: 0,
        body,
    };
    match core.submit(h, request, ()) {
        Ok(_) => Ok(()),
        Err(_) => Err(anyhow!("the transfer is refused")),
    }
}

/// The device answers one packet.
fn serve(
    core: &mut Core<(), TableDevice>,
    flash: &mut Flash,
    dev: DeviceNo,
    ep: EpAddr,
) -> Result<()> {
    let _entry = ask(core, flash, dev, ep)?;
    Ok(())
}

/// Events are handled: what was called back, if anything was.
fn called_back(core: &mut Core<(), TableDevice>) -> Option<Returned> {
    let _steps = core.drain(PATIENCE);
    Some(core.take_done()?.returned.into_returned())
}

impl Driver {
    /// Opens the memory and claims its interface.
    pub fn new(alloc: Global) -> Result<Driver> {
        let (Some(h), Some(dev)) = (Name::new(1), DeviceNo::new(0)) else {
            return Err(anyhow!("there is no such handle, or no such device"));
        };
        Ok(Driver {
            alloc,
            core: opened(alloc, h, dev)?,
            flash: Flash::new(alloc)?,
            h,
            dev,
        })
    }

    /// A transfer, until its callback.
    fn transfer(&mut self, ep: EpAddr, body: Body) -> Result<Returned> {
        submit(&mut self.core, self.h, ep, body)?;
        for _ in 0..PATIENCE {
            serve(&mut self.core, &mut self.flash, self.dev, ep)?;
            if let Some(returned) = called_back(&mut self.core) {
                return Ok(returned);
            }
        }
        Err(anyhow!("the transfer doesn't end"))
    }

    /// Sends a command: what became of it.
    pub fn send(&mut self, command: &[u8]) -> Result<Status> {
        let bytes = Bytes::from_vec(Vec::from_slice(self.alloc, command)?);
        Ok(self.transfer(EpAddr::new(0x02), Body::Out(bytes))?.status)
    }

    /// Sends a command, and reads its answer of at most so many bytes.
    pub fn query(&mut self, command: &[u8], count: u32) -> Result<Returned> {
        let _status = self.send(command)?;
        self.transfer(EpAddr::new(0x81), Body::In(count))
    }
}
