//! Memory that a transfer reads into.

ghost use Rattle.std.specs.Prelude.{◌≡◌, ◌≤◌, ◌+◌, ◌++◌, [], false, IfOk, IsOk, length, take, replicate};
ghost use Rattle.usb_model.specs.Buffer.{no_memory, seen};

use std::alloc::{AllocError, Global};
use std::marker::Model;
use std::mem;
use std_alloc::vec::Lodged;

/// Memory that a transfer reads into: the library's own, or its caller's (libusb's `buffer`), lent until the transfer is called back. It
/// never grows. Contracts see the bytes that stand in it, for how many there is room, and whether it is the caller's.
#[derive(Debug)]
pub struct Buffer {
    memory: Memory,
    alloc: Global,
}

/// A call of its own, so that a proof doesn't go both ways of `Memory` wherever a value with a buffer in it is dropped.
impl Drop for Buffer {
    fn drop(self) {
        let Buffer { memory, alloc: _ } = self;
        drop(memory);
    }
}

/// Whose memory it is.
#[derive(Debug, Drop)]
pub enum Memory {
    /// The library's.
    Own(Vec<u8>),
    /// The caller's, which is never freed.
    Lent(Vec<u8, Lodged>),
}

impl Model for Buffer {
    ghost use Rattle.usb_model.specs.Buffer.{Buffer as Seen, seen};

    ghost Value = { Seen };

    ghost view = { λ b. seen b.memory };
}

impl Buffer {
    /// No bytes, and room for none. Takes no memory.
    pub fn new(alloc: Global) -> Buffer
        ensures { result ≡ no_memory }
    {
        Buffer::from_memory(alloc, Memory::Own(Vec::new(alloc)))
    }

    /// Memory of the library's, with room for just so many bytes. An error where it is refused.
    pub fn with_capacity(alloc: Global, room: usize) -> Result<Buffer, AllocError>
        ensures made { IfOk result (λ b. b ≡ record { items = []; capacity = room; lent = false }) }
        ensures succeeds { room ≡ 0 → IsOk result }
    {
        let bytes = Vec::with_capacity(alloc, room)?;
        Ok(Buffer::from_memory(alloc, Memory::Own(bytes)))
    }

    /// The library's or the caller's memory, with the bytes that stand in it. Takes no memory.
    pub fn from_memory(alloc: Global, memory: Memory) -> Buffer
        ensures { result ≡ seen memory }
    {
        Buffer { memory, alloc }
    }

    /// Whose memory it is, with the bytes that stand in it.
    pub fn into_memory(self) -> Memory
        ensures { seen result ≡ self }
    {
        let Buffer { memory, alloc: _ } = self;
        memory
    }

    /// What it was; no bytes and no room stay behind. Takes no memory.
    pub fn take(&mut self) -> Buffer
        ensures taken { result ≡ self.old }
        ensures left { self.new ≡ no_memory }
    {
        let empty = Buffer::new(self.alloc);
        mem::replace(self, empty)
    }

    /// Puts memory in the place of what was there, with the bytes that stand in it.
    pub fn put(&mut self, memory: Memory)
        ensures { self.new ≡ seen memory }
    {
        self.memory = memory;
    }

    /// How many bytes stand in it.
    pub fn len(&self) -> usize
        ensures len { result ≡ length self.now.items }
        ensures within { result ≤ self.now.capacity }
    {
        match &self.memory {
            Memory::Own(bytes) => bytes.len(),
            Memory::Lent(bytes) => bytes.len(),
        }
    }

    /// For how many bytes there is room in all.
    pub fn capacity(&self) -> usize
        ensures { result ≡ self.now.capacity }
    {
        match &self.memory {
            Memory::Own(bytes) => bytes.capacity(),
            Memory::Lent(bytes) => bytes.capacity(),
        }
    }

    /// The bytes that stand in it.
    pub fn as_slice(&self) -> &[u8]
        ensures { result.now ≡ self.now.items }
    {
        match &self.memory {
            Memory::Own(bytes) => bytes.as_slice(),
            Memory::Lent(bytes) => bytes.as_slice(),
        }
    }

    /// Puts bytes behind those that stand in it. There is room for them.
    pub fn append(&mut self, packet: &[u8])
        requires { length self.old.items + length packet.now ≤ self.old.capacity }
        ensures items { self.new.items ≡ self.old.items ++ packet.now }
        ensures capacity { self.old.capacity ≤ self.new.capacity }
        ensures lent { self.new.lent ≡ self.old.lent }
    {
        let _ = match &mut self.memory {
            Memory::Own(bytes) => bytes.extend_from_slice(packet),
            Memory::Lent(bytes) => bytes.extend_from_slice(packet),
        };
    }

    /// Puts so many zeros behind the bytes that stand in it. There is room for them.
    pub fn append_zeros(&mut self, count: usize)
        requires { length self.old.items + count ≤ self.old.capacity }
        ensures items { self.new.items ≡ self.old.items ++ replicate count 0 }
        ensures capacity { self.old.capacity ≤ self.new.capacity }
        ensures lent { self.new.lent ≡ self.old.lent }
    {
        let _ = match &mut self.memory {
            Memory::Own(bytes) => bytes.resize(bytes.len() + count, 0),
            Memory::Lent(bytes) => bytes.resize(bytes.len() + count, 0),
        };
    }

    /// Lets the bytes behind the first so many go. The room stays.
    pub fn truncate(&mut self, count: usize)
        ensures { self.new ≡ record self.old { items = take count self.old.items } }
    {
        match &mut self.memory {
            Memory::Own(bytes) => bytes.truncate(count),
            Memory::Lent(bytes) => bytes.truncate(count),
        }
    }
}

/// A clone has the same bytes, in the library's memory.
impl Clone for Buffer {
    ghost is_clone = { λ v w. v.items ≡ w.items };

    fn clone(&self) -> Result<Buffer, AllocError> {
        let bytes = Vec::from_slice(self.alloc, self.as_slice())?;
        Ok(Buffer::from_memory(self.alloc, Memory::Own(bytes)))
    }
}
