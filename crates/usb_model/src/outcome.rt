//! What a device's answers do to one transfer.

ghost use Rattle.std.specs.Prelude.{◌≡◌, length, IfOk, IfSome};
ghost use Rattle.std.specs.List.{concat};
ghost use Rattle.usb_model.specs.Endpoint.Packets.{count_of, open_with, ended_with};

use crate::sequence::{Bytes, Sequence};
use std::alloc::{AllocError, Global};

/// How far a transfer has come: the packets that moved, and the completion code with which it ended.
#[derive(Debug, Drop)]
pub struct Outcome {
    /// The packets that moved, in order.
    pub packets: Sequence<Bytes>,
    /// None while it is open (xHCI 1.2, 6.4.5).
    pub code: Option<u8>,
}

impl Outcome {
    /// These packets moved, and the transfer is open.
    pub fn open_with(moved: Vec<Bytes>) -> Outcome
        ensures { result ≡ open_with moved.items }
    {
        Outcome {
            packets: Sequence::from_vec(moved),
            code: None,
        }
    }

    /// These packets moved, and the transfer ended with this code.
    pub fn ended_with(moved: Vec<Bytes>, code: u8) -> Outcome
        ensures { result ≡ ended_with moved.items code }
    {
        Outcome {
            packets: Sequence::from_vec(moved),
            code: Some(code),
        }
    }

    /// How many bytes moved. A number past a `u32` counts as want of memory; no request is that long.
    pub fn count(&self) -> Result<u32, AllocError>
        ensures { IfOk result (λ n. n ≡ count_of self.now) }
    {
        let count = joined_length(self.packets.as_slice()).ok_or(AllocError)?;
        u32::try_from(count).map_err(|_| AllocError)
    }

    /// The bytes that moved.
    pub fn joined(&self, alloc: Global) -> Result<Bytes, AllocError>
        ensures { IfOk result (λ bytes. bytes ≡ concat self.now.packets) }
    {
        let mut bytes = Vec::new(alloc);
        for packet in self.packets.as_slice() {
            bytes.extend_from_slice(packet.as_slice())?;
        }
        Ok(Sequence::from_vec(bytes))
    }
}

/// How many bytes the packets have, where that fits.
fn joined_length(packets: &[Bytes]) -> Option<usize>
    ensures { IfSome result (λ n. n ≡ length (concat packets.now)) }
{
    let mut count = 0_usize;
    for packet in packets {
        count = count.checked_add(packet.len())?;
    }
    Some(count)
}
