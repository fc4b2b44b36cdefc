//! The bytes that a transfer read.

ghost use Rattle.std.specs.Prelude.{◌≡◌, [], length};

use crate::buffer::{Buffer, Memory};
use crate::sequence::Bytes;
use std::alloc::{AllocError, Global};
use std::marker::Model;

/// The bytes that a transfer read, where they were read to: in the library's memory, or in what its caller lent. Contracts see the list of
/// them.
#[derive(Debug, Drop)]
pub struct BytesRead {
    buffer: Buffer,
}

impl Model for BytesRead {
    ghost use Rattle.std.specs.Prelude.{ℕ, List};

    ghost Value = { List ℕ };

    ghost view = { λ b. b.buffer.items };
}

impl BytesRead {
    /// None. Takes no memory.
    pub fn new(alloc: Global) -> BytesRead
        ensures { result ≡ [] }
    {
        BytesRead {
            buffer: Buffer::new(alloc),
        }
    }

    /// What stands in this memory. Takes no memory.
    pub fn from_buffer(buffer: Buffer) -> BytesRead
        ensures { result ≡ buffer.items }
    {
        BytesRead { buffer }
    }

    /// Bytes of a sequence. Takes no memory.
    pub fn from_bytes(bytes: Bytes) -> BytesRead
        ensures { result ≡ bytes }
    {
        let own = bytes.into_vec();
        BytesRead {
            buffer: Buffer::from_memory(*own.allocator(), Memory::Own(own)),
        }
    }

    /// The memory that they stand in.
    pub fn into_buffer(self) -> Buffer
        ensures { result.items ≡ self }
    {
        let BytesRead { buffer } = self;
        buffer
    }

    /// How many there are.
    pub fn len(&self) -> usize
        ensures { result ≡ length self.now }
    {
        self.buffer.len()
    }

    /// The bytes as a slice.
    pub fn as_slice(&self) -> &[u8]
        ensures { result.now ≡ self.now }
    {
        self.buffer.as_slice()
    }
}

/// A clone has the same bytes, in the library's memory.
impl Clone for BytesRead {
    ghost is_clone = { λ v w. v ≡ w };

    fn clone(&self) -> Result<BytesRead, AllocError> {
        Ok(BytesRead {
            buffer: self.buffer.clone()?,
        })
    }
}
