//! Memory that C lends, on its way into a transfer and back.

ghost use Rattle.std.specs.Prelude.{◌≡◌, true};
ghost use Rattle.tirnouch_c.specs.Lent.{BytesGo, GoesInto};

use crate::LentMemory;
use std::alloc::Global;
use std::mem;
use std_alloc::vec::Lodged;
use usb_core::Taken;
use usb_model::{Buffer, BytesRead, Memory};

/// The memory, of which none stays behind.
pub fn lend(alloc: Global, memory: &mut LentMemory) -> Buffer
    ensures lent { result ≡ record { items = memory.old.bytes; capacity = memory.old.len; lent = true } }
    ensures left { memory.new.len ≡ 0 }
{
    let none = LentMemory::from_vec(Vec::new(Lodged));
    let lent = mem::replace(memory, none);
    Buffer::from_memory(alloc, Memory::Lent(lent.into_vec()))
}

/// Puts memory back that was lent; what is the library's is freed.
pub fn put_back(buffer: Buffer, memory: &mut LentMemory)
    ensures { GoesInto buffer memory.old memory.new }
{
    if let Memory::Lent(lent) = buffer.into_memory() {
        *memory = LentMemory::from_vec(lent);
    }
}

/// A result without memory that C lent for it, which goes back; the whole result where that is the library's.
pub fn give_back(alloc: Global, taken: Taken<u64>, back: &mut LentMemory) -> Option<Taken<u64>>
    ensures { BytesGo taken result back.old back.new }
{
    let Taken { returned, payload } = taken;
    let (mut due, bytes) = returned.split(alloc);
    match bytes.into_buffer().into_memory() {
        Memory::Lent(lent) => {
            *back = LentMemory::from_vec(lent);
            None
        }
        Memory::Own(own) => {
            let own = Buffer::from_memory(alloc, Memory::Own(own));
            due.put_bytes(BytesRead::from_buffer(own));
            Some(Taken {
                returned: due,
                payload,
            })
        }
    }
}
