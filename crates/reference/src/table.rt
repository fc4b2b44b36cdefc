//! A value for each device and each byte: an interface's number, or an endpoint's address.

ghost use Rattle.std.specs.Prelude.{◌≡◌, ℕ, None, IfOk, ◌+◌, ◌*◌, ◌<◌, ◌==◌, ◌&&◌, slice_index_or, if◌then◌else◌};
ghost use Rattle.reference.specs.Tables.{cell_at, freed};

use crate::system::placeholder;
use std::alloc::{AllocError, Global};
use std::marker::Model;
use std::mem;
use usb_model::{DeviceNo, Endpoint, Name};

/// A cell for each device, 0 to 3, and each byte; contracts read the list of cells by `cell_at`.
#[derive(Drop)]
pub struct Table<T> {
    cells: Vec<T>,
}

impl<T> Model for Table<T> {
    ghost use Rattle.std.specs.Prelude.{◌≡◌, List, length};

    ghost Value = { List T };

    ghost view = { λ t. t.cells.items };

    ghost invariant = { λ t. length t.cells.items ≡ 1024 };
}

/// Where the cell of a device and a byte stands.
fn place(dev: DeviceNo, byte: u8) -> usize
    ensures value { result ≡ 256 * dev + byte }
    ensures within { result < 1024 }
{
    256 * usize::from(dev.number()) + usize::from(byte)
}

impl<T> Table<T> {
    /// The cell of a device and a byte.
    pub fn get(&self, dev: DeviceNo, byte: u8) -> &T
        ensures { (other : T) → cell_at other self.now dev byte ≡ result.now }
    {
        &self.cells[place(dev, byte)]
    }

    /// Puts a value into the cell of a device and a byte, and gives back what was there.
    pub fn replace(&mut self, dev: DeviceNo, byte: u8, value: T) -> T
        ensures old { (other : T) → cell_at other self.old dev byte ≡ result }
        ensures new { (other : T) (d k : ℕ) → cell_at other self.new d k ≡ (if (dev == d) && (byte == k) then value else cell_at other self.old d k) }
    {
        mem::replace(&mut self.cells[place(dev, byte)], value)
    }
}

impl Table<Option<Name>> {
    /// Nobody holds any cell.
    pub fn unclaimed(alloc: Global) -> Result<Table<Option<Name>>, AllocError>
        ensures { IfOk result (λ t. (d i : ℕ) → cell_at None t d i ≡ None) }
    {
        let mut cells = Vec::new(alloc);
        for _ in 0..1024_usize {
            cells.push(None)?;
        }
        Ok(Table { cells })
    }

    /// Nobody holds this cell any more, where the name did.
    fn free_at(&mut self, h: Name, at: usize)
        requires { at < 1024 }
        ensures { (k : ℕ) → slice_index_or self.new k None ≡ (if at == k then freed h (slice_index_or self.old k None) else slice_index_or self.old k None) }
    {
        if self.cells[at] == Some(h) {
            self.cells[at] = None;
        }
    }

    /// The name holds no cell any more.
    pub fn free(&mut self, h: Name)
        ensures { (d i : ℕ) → cell_at None self.new d i ≡ freed h (cell_at None self.old d i) }
    {
        for at in 0..1024_usize {
            self.free_at(h, at);
        }
    }
}

impl Table<Endpoint> {
    /// Nothing in any cell.
    pub fn blank(alloc: Global) -> Result<Table<Endpoint>, AllocError> {
        let mut cells = Vec::new(alloc);
        for _ in 0..1024_usize {
            cells.push(placeholder(alloc))?;
        }
        Ok(Table { cells })
    }
}
