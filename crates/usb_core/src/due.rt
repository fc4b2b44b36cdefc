//! What is due to a callback.

ghost use Rattle.std.specs.Prelude.{◌≡◌, [], Some};
ghost use Rattle.refine_core.specs.Calls.{called_entry};

use std::alloc::Global;
use std::marker::Model;
use std::mem;
use std::ops::Deref;
use usb_model::{BytesRead, Entry, Reply, Returned};

/// What a callback is told of its transfer (libusb 1.0, `libusb_transfer_cb_fn`), once.
///
/// The core makes one with each result that goes out, and nobody else makes any. So whoever called a callback can't call it
/// again for the same result.
#[derive(Drop)]
pub struct Due {
    /// The entry of the Take by which the result went out.
    entry: Entry,
}

/// Contracts see what is told.
impl Model for Due {
    ghost use Rattle.std.specs.Prelude.{◌≡◌, Some};
    ghost use Rattle.usb_model.specs.declared.reply.Returned.{Returned};
    ghost use Rattle.refine_core.specs.Calls.{called_entry};
    ghost use Rattle.usb_core.specs.Due.{told_by};

    ghost Value = { Returned };

    ghost view = { λ d. told_by d.entry.reply };

    ghost invariant = { λ d. d.entry ≡ called_entry (Some (told_by d.entry.reply)) };
}

impl Due {
    /// This is due.
    pub(crate) fn new(returned: Returned) -> Due
        ensures { result ≡ returned }
    {
        Due {
            entry: Entry {
                owner: Some(returned.h),
                reply: Reply::Called(returned),
            },
        }
    }

    /// The entry of the Take by which it went out.
    pub fn entry(&self) -> &Entry
        ensures { result.now ≡ called_entry (Some self.now) }
    {
        &self.entry
    }

    /// The same, and nothing is due any more.
    pub fn into_entry(self) -> Entry
        ensures { result ≡ called_entry (Some self) }
    {
        self.entry
    }

    /// What is told, and nothing is due any more.
    pub fn into_returned(self) -> Returned
        ensures { result ≡ self }
    {
        let Reply::Called(returned) = self.entry.reply else {
            unreachable!()
        };
        returned
    }

    /// The same without the bytes that were read, and these.
    pub fn split(self, alloc: Global) -> (Due, BytesRead)
        ensures rest { result.0 ≡ record self { bytes = [] } }
        ensures bytes { result.1 ≡ self.bytes }
    {
        let mut returned = self.into_returned();
        let bytes = mem::replace(&mut returned.bytes, BytesRead::new(alloc));
        (Due::new(returned), bytes)
    }

    /// Puts bytes in the place of those that were read.
    pub fn put_bytes(&mut self, bytes: BytesRead)
        ensures { self.new ≡ record self.old { bytes = bytes } }
    {
        let Reply::Called(returned) = &mut self.entry.reply else {
            unreachable!()
        };
        returned.bytes = bytes;
    }
}

/// What is told can be read.
impl Deref for Due {
    type Target = Returned;

    ghost use Rattle.std.specs.Prelude.{◌≡◌};

    ghost deref_gives = { λ d r. r ≡ d };

    fn deref(&self) -> &Returned {
        let Reply::Called(returned) = &self.entry.reply else {
            unreachable!()
        };
        returned
    }
}
