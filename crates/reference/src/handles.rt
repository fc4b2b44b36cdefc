//! What is kept of each name.

ghost use Rattle.std.specs.Prelude.{◌≡◌, ℕ, ◌==◌, IfOk, if◌then◌else◌};
ghost use Rattle.usb_model.specs.Machine.{unused};
ghost use Rattle.reference.specs.Tables.{handle_at};

use std::alloc::{AllocError, Global};
use std::marker::Model;
use std::mem;
use usb_model::{Handle, Name, Sequence};

/// A handle for each name, 0 to 63; contracts read the list of them by `handle_at`.
#[derive(Drop)]
pub struct Handles {
    handles: Vec<Handle>,
}

impl Model for Handles {
    ghost use Rattle.std.specs.Prelude.{◌≡◌, List, length};
    ghost use Rattle.usb_model.specs.declared.handle.Handle.{Handle};

    ghost Value = { List Handle };

    ghost view = { λ n. n.handles.items };

    ghost invariant = { λ n. length n.handles.items ≡ 64 };
}

impl Handles {
    /// No name was ever used.
    pub fn new(alloc: Global) -> Result<Handles, AllocError>
        ensures { IfOk result (λ n. (h : ℕ) → handle_at n h ≡ unused) }
    {
        let mut handles = Vec::new(alloc);
        for _ in 0..64_usize {
            handles.push(Handle::unused(alloc))?;
        }
        Ok(Handles { handles })
    }

    /// What is kept of a name.
    pub fn get(&self, h: Name) -> &Handle
        ensures { result.now ≡ handle_at self.now h }
    {
        &self.handles[usize::from(h.number())]
    }

    /// Puts another handle in the place of a name's, and gives back what was there.
    pub fn replace(&mut self, h: Name, handle: Handle) -> Handle
        ensures old { result ≡ handle_at self.old h }
        ensures new { (g : ℕ) → handle_at self.new g ≡ (if h == g then handle else handle_at self.old g) }
    {
        mem::replace(&mut self.handles[usize::from(h.number())], handle)
    }
}
