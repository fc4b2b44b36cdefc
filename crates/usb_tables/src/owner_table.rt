//! The name that holds each interface.

ghost use Rattle.std.specs.Prelude.{◌≡◌, ℕ, None, IfOk, ◌+◌, ◌*◌, ◌<◌, ◌==◌, ◌&&◌, slice_index_or, if◌then◌else◌};
ghost use Rattle.usb_tables.specs.Tables.{owner_at, freed};

use std::alloc::{AllocError, Global};
use std::marker::Model;
use usb_model::{DeviceNo, Name};

/// A name, or none, for each device, 0 to 3, and each interface; contracts read the list of them by `owner_at`.
#[derive(Drop)]
pub struct OwnerTable {
    owners: Vec<Option<Name>>,
}

impl Model for OwnerTable {
    ghost use Rattle.std.specs.Prelude.{◌≡◌, ℕ, List, Option, length};

    ghost Value = { List (Option ℕ) };

    ghost view = { λ t. t.owners.items };

    ghost invariant = { λ t. length t.owners.items ≡ 1024 };
}

/// Where the owner of a device's interface stands.
fn place(dev: DeviceNo, i: u8) -> usize
    ensures value { result ≡ 256 * dev + i }
    ensures within { result < 1024 }
{
    256 * usize::from(dev.number()) + usize::from(i)
}

impl OwnerTable {
    /// Nobody holds any interface.
    pub fn new(alloc: Global) -> Result<OwnerTable, AllocError>
        ensures { IfOk result (λ t. (d i : ℕ) → owner_at t d i ≡ None) }
    {
        let mut owners = Vec::with_capacity(alloc, 1024)?;
        for _ in 0..1024_usize {
            owners.push(None)?;
        }
        Ok(OwnerTable { owners })
    }

    /// Who holds an interface.
    pub fn get(&self, dev: DeviceNo, i: u8) -> Option<Name>
        ensures { result ≡ owner_at self.now dev i }
    {
        self.owners[place(dev, i)]
    }

    /// This name holds the interface, or nobody.
    pub fn set(&mut self, dev: DeviceNo, i: u8, owner: Option<Name>)
        ensures { (d k : ℕ) → owner_at self.new d k ≡ (if (dev == d) && (i == k) then owner else owner_at self.old d k) }
    {
        self.owners[place(dev, i)] = owner;
    }

    /// Nobody holds the interface at this place any more, where the name did.
    fn free_at(&mut self, h: Name, at: usize)
        requires { at < 1024 }
        ensures { (k : ℕ) → slice_index_or self.new k None ≡ (if at == k then freed h (slice_index_or self.old k None) else slice_index_or self.old k None) }
    {
        if h.is_its(self.owners[at]) {
            self.owners[at] = None;
        }
    }

    /// The name holds no interface any more.
    pub fn free(&mut self, h: Name)
        ensures { (d i : ℕ) → owner_at self.new d i ≡ freed h (owner_at self.old d i) }
    {
        for at in 0..1024_usize {
            self.free_at(h, at);
        }
    }
}
