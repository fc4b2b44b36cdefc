//! What devices there are, and what is asked of them.

use std::alloc::Global;
use usb_core::Setup;
use usb_descriptors::read_config;
use usb_device::TableDevice;
use usb_model::{Bytes, DeviceNo, EpAddr, Name, Response, Script, Sequence};

/// The devices, all alike, and the transfers through them.
#[derive(Clone, Copy)]
pub struct Shape {
    /// How many transfers are in flight at once.
    pub at_once: u64,
    /// How many times so many are in their callbacks at once.
    pub groups: u64,
    /// The first of the endpoints that are used, counted over all devices.
    pub first: u64,
    /// The bytes of a transfer.
    pub length: u32,
    /// The answers of an endpoint before it is reset: whole packets, or the packets that it takes.
    pub answers: u32,
    /// The bytes of a packet.
    pub size: u16,
    /// How many devices, 1 to 4.
    pub devices: u8,
    /// How many endpoints each has, 1 to 30: 81, 01, 82, 02 and so on, all bulk, of interface 0.
    pub endpoints: u8,
}

/// An endpoint that is used, and the name that holds it.
#[derive(Clone, Copy)]
pub struct Target {
    pub name: Name,
    pub device: DeviceNo,
    pub ep: EpAddr,
}

/// The address of the endpoint of this index, 0 to 29.
fn address(index: u8) -> u8 {
    let number = index / 2 % 15 + 1;
    if index % 2 == 0 { number + 128 } else { number }
}

/// The name that holds a device.
pub fn holder(device: u8) -> Option<(Name, DeviceNo)> {
    Some((Name::new(device.wrapping_add(1))?, DeviceNo::new(device)?))
}

/// A packet whose bytes are numbered on from this number; 255 is followed by 0.
fn packet(alloc: Global, size: u16, number: &mut u8) -> Option<Response> {
    let mut bytes = Vec::with_capacity(alloc, usize::from(size)).ok()?;
    for _ in 0..size {
        *number = number.wrapping_add(1);
        bytes.push(*number).ok()?;
    }
    Some(Response::Data(Bytes::from_vec(bytes)))
}

impl Shape {
    /// How many packets a transfer has.
    pub fn packets(&self) -> u32 {
        match self.length.checked_div(u32::from(self.size)) {
            Some(count) => count.max(1),
            None => 1,
        }
    }

    /// How many transfers are in callbacks at once.
    pub fn round(&self) -> u64 {
        self.at_once.saturating_mul(self.groups)
    }

    /// The endpoints of all devices, device by device.
    pub fn targets(&self, alloc: Global) -> Option<Vec<Target>> {
        let mut targets = Vec::new(alloc);
        for device in 0..self.devices {
            let (name, device) = holder(device)?;
            for index in 0..self.endpoints {
                let ep = EpAddr::new(address(index));
                targets.push(Target { name, device, ep }).ok()?;
            }
        }
        Some(targets)
    }

    /// The bytes of a device's configuration descriptor: interface 0 with its endpoints (USB 2.0, 9.6.3).
    fn descriptor(&self, alloc: Global) -> Option<Vec<u8>> {
        let [low, high] = (u16::from(self.endpoints) * 7 + 18).to_le_bytes();
        let mut bytes = Vec::new(alloc);
        let head = [
            9,
            2,
            low,
            high,
            1,
            1,
            0,
            0x80,
            50,
            9,
            4,
            0,
            0,
            self.endpoints,
            0xff,
            0,
            0,
            0,
        ];
        bytes.extend_from_slice(&head).ok()?;
        let [low, high] = self.size.to_le_bytes();
        for index in 0..self.endpoints {
            let endpoint = [7, 5, address(index), 2, low, high, 0];
            bytes.extend_from_slice(&endpoint).ok()?;
        }
        Some(bytes)
    }

    /// Whether a device has this endpoint.
    fn has(&self, ep: EpAddr) -> bool {
        for index in 0..self.endpoints {
            if address(index) == ep.address() {
                return true;
            }
        }
        false
    }

    /// The script of an endpoint; no answers where there is none.
    fn script(&self, alloc: Global, ep: EpAddr) -> Option<Script> {
        let mut script = Sequence::new(alloc);
        let mut number = 0;
        let answers = if self.has(ep) { self.answers } else { 0 };
        for _ in 0..answers {
            let answer = if ep.is_in() {
                packet(alloc, self.size, &mut number)?
            } else {
                Response::Ack
            };
            script.push(answer).ok()?;
        }
        Some(script)
    }

    /// The scripts of a device by endpoint id (xHCI 1.2, 4.5.1).
    fn scripts(&self, alloc: Global) -> Option<Sequence<Script>> {
        let mut scripts = Sequence::new(alloc);
        for id in 0..32_u8 {
            let ep = EpAddr::new(id / 2 + 128 * (id % 2));
            scripts.push(self.script(alloc, ep)?).ok()?;
        }
        Some(scripts)
    }

    /// Adds a device.
    fn add(&self, alloc: Global, setup: &mut Setup<TableDevice>) -> Option<()> {
        let Ok(config) = read_config(self.descriptor(alloc)?.as_slice()) else {
            return None;
        };
        let Ok(device) = TableDevice::new(alloc, &config, self.scripts(alloc)?) else {
            return None;
        };
        setup.add(alloc, config, device).ok()
    }

    /// The devices.
    pub fn setup(&self, alloc: Global) -> Option<Setup<TableDevice>> {
        let mut setup = Setup::new(alloc).ok()?;
        for _ in 0..self.devices {
            self.add(alloc, &mut setup)?;
        }
        Some(setup)
    }
}
