//! A core with scripted devices, and what C is about to fetch.

ghost use Rattle.std.specs.Prelude.{◌≡◌, IfErr, IfOk, slice_get};
ghost use Rattle.std.specs.Option.{option_copied};
ghost use Rattle.tirnouch_c.specs.Sessions.{IsMade, IsUnmade};

use std::alloc::Global;
use usb_core::{Core, Taken, scripted_setup};
use usb_device::TableDevice;
use usb_devicetext::{DeskDevice, DeviceText, read_desk};
use usb_model::Sequence;
use usb_scripttext::TextFault;

/// A core with scripted devices; with each transfer C keeps a number.
#[derive(Drop)]
pub struct Session {
    /// The core.
    pub core: Core<u64, TableDevice>,
    /// What else is said of its devices, by number.
    pub devices: Sequence<DeskDevice>,
    /// The result that went out last, until its bytes are fetched.
    pub out: Option<Taken<u64>>,
}

impl Session {
    /// A session with the devices of a text, in which nothing was done yet; or the first line that isn't taken, or want of
    /// memory.
    pub fn new(alloc: Global, text: &[u8]) -> Result<Session, TextFault>
        ensures made { IfOk result (λ s. IsMade text.now s) }
        ensures unmade { IfErr result (λ fault. IsUnmade text.now fault) }
    {
        let DeviceText { scripted, devices } = read_desk(alloc, text)?;
        let Ok(setup) = scripted_setup(alloc, scripted) else {
            return Err(TextFault::Memory);
        };
        let Ok(core) = Core::new(alloc, setup) else {
            return Err(TextFault::Memory);
        };
        Ok(Session {
            core,
            devices,
            out: None,
        })
    }

    /// What is said of a device.
    pub fn device(&self, dev: u8) -> Option<&DeskDevice>
        ensures { option_copied result ≡ slice_get self.now.devices dev }
    {
        self.devices.as_slice().get(usize::from(dev))
    }
}
