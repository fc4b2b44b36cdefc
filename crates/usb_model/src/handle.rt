//! What is kept of a handle's name.

ghost use Rattle.std.specs.Prelude.{◌≡◌};
ghost use Rattle.std.specs.List.{list_any};
ghost use Rattle.usb_model.specs.Machine.{is_callback_at, unused};

use crate::name::{DeviceNo, EpAddr};
use crate::result::InCallback;
use crate::sequence::Sequence;
use std::alloc::Global;

/// What is kept of a handle's name, beside what it holds.
#[derive(Debug, Drop)]
pub struct Handle {
    /// Its device while it is open.
    pub device: Option<DeviceNo>,
    /// The number of its next transfer.
    pub next_number: u64,
    /// Its transfers in callbacks.
    pub in_callbacks: Sequence<InCallback>,
}

impl Handle {
    /// A name that was never used.
    pub fn unused(alloc: Global) -> Handle
        ensures { result ≡ unused }
    {
        Handle {
            device: None,
            next_number: 0,
            in_callbacks: Sequence::new(alloc),
        }
    }

    /// Whether a transfer of this endpoint is in its callback.
    pub fn has_callback_at(&self, ep: EpAddr) -> bool
        ensures { result ≡ list_any (is_callback_at ep) self.now.in_callbacks }
    {
        self.in_callbacks
            .as_slice()
            .iter()
            .any(|x| x.request.ep == ep)
    }
}
