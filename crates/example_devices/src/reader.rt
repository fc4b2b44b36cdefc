//! What is asked of a stand's devices.

ghost use Rattle.std.specs.Prelude.{◌≡◌};
ghost use Rattle.usb_model.specs.declared.request.Body.TheVariants.{In};

use anyhow::{Result, anyhow};
use bitflags::Flags as _;
use usb_model::{Body, Bytes, DeviceNo, EpAddr, Flags, Kind, Name, Request};

/// A handle, with the endpoint that it reads from.
#[derive(Clone, Copy)]
pub struct Reader {
    /// Its name.
    pub h: Name,
    /// Its device.
    pub dev: DeviceNo,
    /// The interface: 0 or 1.
    pub i: u8,
    /// The endpoint of that, for packets to the host: 81 or 83.
    pub ep: EpAddr,
    /// The endpoint's kind: bulk or interrupt.
    pub kind: Kind,
}

impl Reader {
    /// The handle of this number, with an interface of a device. An error where there is no such name or device.
    pub fn new(h: u8, dev: u8, i: u8) -> Result<Reader> {
        let (Some(h), Some(dev)) = (Name::new(h), DeviceNo::new(dev)) else {
            return Err(anyhow!("a name and a device"));
        };
        let (ep, kind) = match i {
            0 => (0x81, Kind::Bulk),
            _ => (0x83, Kind::Interrupt),
        };
        Ok(Reader {
            h,
            dev,
            i,
            ep: EpAddr::new(ep),
            kind,
        })
    }

    /// A read of so many bytes, with this timeout in milliseconds, 0 for none.
    pub fn read(&self, bytes: u32, timeout: u32) -> Request
        ensures asked { (result.body ≡ In bytes) × (result.timeout ≡ timeout) }
    {
        Request {
            ep: self.ep,
            kind: self.kind,
            flags: Flags::from_bits_retain(0),
            timeout,
            body: Body::In(bytes),
        }
    }

    /// A write of these bytes to the endpoint 02, without a timeout.
    pub fn write(&self, bytes: Bytes) -> Request {
        Request {
            ep: EpAddr::new(0x02),
            kind: Kind::Bulk,
            flags: Flags::from_bits_retain(0),
            timeout: 0,
            body: Body::Out(bytes),
        }
    }
}
