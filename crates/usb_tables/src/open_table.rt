//! The device that each name has open.

ghost use Rattle.std.specs.Prelude.{◌≡◌, ℕ, None, IfOk, ◌==◌, if◌then◌else◌};
ghost use Rattle.usb_tables.specs.Tables.{device_at};

use std::alloc::{AllocError, Global};
use std::marker::Model;
use usb_model::{DeviceNo, Name};

/// A device, or none, for each name, 0 to 63; contracts read the list of them by `device_at`.
#[derive(Drop)]
pub struct OpenTable {
    devices: Vec<Option<DeviceNo>>,
}

impl Model for OpenTable {
    ghost use Rattle.std.specs.Prelude.{◌≡◌, ℕ, List, Option, length};

    ghost Value = { List (Option ℕ) };

    ghost view = { λ t. t.devices.items };

    ghost invariant = { λ t. length t.devices.items ≡ 64 };
}

impl OpenTable {
    /// No name has a device open.
    pub fn new(alloc: Global) -> Result<OpenTable, AllocError>
        ensures { IfOk result (λ t. (h : ℕ) → device_at t h ≡ None) }
    {
        let mut devices = Vec::with_capacity(alloc, 64)?;
        for _ in 0..64_usize {
            devices.push(None)?;
        }
        Ok(OpenTable { devices })
    }

    /// The device that a name has open.
    pub fn get(&self, h: Name) -> Option<DeviceNo>
        ensures { result ≡ device_at self.now h }
    {
        self.devices[usize::from(h.number())]
    }

    /// A name has this device open, or none.
    pub fn set(&mut self, h: Name, dev: Option<DeviceNo>)
        ensures { (g : ℕ) → device_at self.new g ≡ (if h == g then dev else device_at self.old g) }
    {
        self.devices[usize::from(h.number())] = dev;
    }
}
