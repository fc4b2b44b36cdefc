//! How a packet ends, or doesn't end, a transfer (USB 2.0, 8.5; xHCI 1.2, 4.10).

ghost use Rattle.std.specs.Prelude.{◌≡◌, ◌≤◌, min, ℕ, List, length, false, None, Some};
ghost use Rattle.usb_model.specs.declared.response.Response.{Response};
ghost use Rattle.usb_model.specs.Packets.{packet_by};
ghost use Rattle.usb_device.specs.Pipe.{act_of};
ghost use Rattle.usb_model.specs.declared.response.Response.TheVariants.{Data, Ack};

use usb_device::Act;
use usb_model::completion::{
    BABBLE_DETECTED, SHORT_PACKET, STALL_ERROR, SUCCESS, TRANSACTION_ERROR,
};

/// How far the bytes of a transfer reach, as far as one packet needs it.
#[derive(Clone, Copy, PartialEq, Eq, Debug)]
pub struct Reach {
    /// The bytes that are left, or more than a packet has.
    pub room: u32,
    /// Whether an empty packet comes behind them.
    pub extra: bool,
}

/// What a packet did: how many bytes it moved, and the code with which it ended the transfer.
#[derive(Clone, Copy, PartialEq, Eq, Debug)]
pub(crate) struct PacketOutcome {
    pub(crate) bytes: u32,
    pub(crate) code: Option<u8>,
}

impl PacketOutcome {
    /// So many bytes moved, and the transfer goes on.
    fn moved(bytes: u32) -> PacketOutcome
        ensures { result ≡ record { bytes = bytes; code = None } }
    {
        PacketOutcome { bytes, code: None }
    }

    /// So many bytes moved, and the transfer ended.
    fn ended(bytes: u32, code: u8) -> PacketOutcome
        ensures { result ≡ record { bytes = bytes; code = Some code } }
    {
        PacketOutcome {
            bytes,
            code: Some(code),
        }
    }
}

/// What a device's act did, where a packet has so many bytes.
pub(crate) fn decide(size: u32, reach: Reach, act: Act) -> PacketOutcome
    ensures bytes { (a : Response) → act ≡ act_of a → result.bytes ≡ (packet_by size reach.room reach.extra a).bytes }
    ensures most { result.bytes ≤ min size reach.room }
    ensures code { (a : Response) → act ≡ act_of a → result.code ≡ (packet_by size reach.room reach.extra a).code }
{
    match act {
        Act::Data(count) => received(size, reach.room, count),
        Act::Ack => sent(size, reach),
        Act::Nak => PacketOutcome::moved(0),
        Act::Stall => PacketOutcome::ended(0, STALL_ERROR),
        Act::Broken => PacketOutcome::ended(0, TRANSACTION_ERROR),
    }
}

/// What a packet of so many bytes for the host did.
fn received(size: u32, room: u32, count: u32) -> PacketOutcome
    ensures bytes { (b : List ℕ) → count ≡ length b → result.bytes ≡ (packet_by size room false (Data b)).bytes }
    ensures most { result.bytes ≤ min size room }
    ensures code { (b : List ℕ) → count ≡ length b → result.code ≡ (packet_by size room false (Data b)).code }
{
    if count > size.min(room) {
        PacketOutcome::ended(0, BABBLE_DETECTED)
    } else if count == room {
        PacketOutcome::ended(count, SUCCESS)
    } else if count < size {
        PacketOutcome::ended(count, SHORT_PACKET)
    } else {
        PacketOutcome::moved(count)
    }
}

/// What the packet that the device took did.
fn sent(size: u32, reach: Reach) -> PacketOutcome
    ensures bytes { result.bytes ≡ (packet_by size reach.room reach.extra Ack).bytes }
    ensures most { result.bytes ≤ min size reach.room }
    ensures code { result.code ≡ (packet_by size reach.room reach.extra Ack).code }
{
    let bytes = size.min(reach.room);
    if size < reach.room || (reach.extra && reach.room > 0) {
        PacketOutcome::moved(bytes)
    } else {
        PacketOutcome::ended(bytes, SUCCESS)
    }
}
