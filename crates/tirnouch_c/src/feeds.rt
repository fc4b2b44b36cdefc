//! Answers that C makes while the run goes on.

ghost use Rattle.std.specs.Prelude.{◌≡◌, ◌<◌, IfErr, IfOk, Some};
ghost use Rattle.tirnouch_c.specs.Feeds.{Feeds, TellsNext, answer_by, offer_numbers, no_packet};

use crate::results::fill;
use crate::session::Session;
use std::alloc::{AllocError, Global};
use usb_core::Offer;
use usb_model::{Bytes, DeviceNo, EpAddr, Response};

/// libusb's number of a number out of range (libusb 1.0, `LIBUSB_ERROR_INVALID_PARAM`).
const INVALID: i32 = -2;

/// Want of memory (libusb 1.0, `LIBUSB_ERROR_NO_MEM`).
const NO_MEM: i32 = -11;

/// The packet that a device is to answer next at an endpoint.
#[repr(C)]
#[derive(Clone, Copy, Drop)]
pub struct PacketOffer {
    /// 1 where there is one; 0 where nobody holds the endpoint, it isn't running, or no transfer waits.
    pub has_packet: u8,
    /// 1 where the device is asked, since its script has no answer left; 0 where it isn't: it has one, is halted there, or is gone.
    pub is_asked: u8,
    /// The handle whose transfer it is of; TIRNOUCH_NOBODY where there is no packet.
    pub handle: u8,
    /// How many bytes the packet has where the host sends; the most that it may have where the host reads.
    pub length: u32,
    /// The transfer's number.
    pub number: u64,
}

impl PacketOffer {
    /// There is no packet.
    pub fn none() -> PacketOffer
        ensures { result ≡ no_packet }
    {
        PacketOffer {
            has_packet: 0,
            is_asked: 0,
            handle: 255,
            length: 0,
            number: 0,
        }
    }

    /// There is this one.
    fn of(offer: &Offer<'_>) -> PacketOffer
        requires { offer.now.room < 65536 }
        ensures { result ≡ offer_numbers offer.now.owner offer.now.n offer.now.room offer.now.wants }
    {
        PacketOffer {
            has_packet: 1,
            is_asked: u8::from(offer.wants),
            handle: offer.owner.number(),
            length: offer.room as u32,
            number: offer.n,
        }
    }
}

/// An answer by its number: 0 a packet of these bytes, 1 taken, 2 not ready, 3 a stall, 4 a broken transaction; None for another one.
#[tactic(auto, unfolding(crate::specs::Feeds::answer_by))]
fn answer_by(alloc: Global, kind: u8, bytes: &[u8]) -> Result<Option<Response>, AllocError>
    ensures answer { IfOk result (λ answer. answer ≡ answer_by kind bytes.now) }
    ensures refused { IfErr result (λ _. kind ≡ 0) }
{
    match kind {
        0 => Ok(Some(Response::Data(Bytes::from_vec(Vec::from_slice(alloc, bytes)?)))),
        1 => Ok(Some(Response::Ack)),
        2 => Ok(Some(Response::Nak)),
        3 => Ok(Some(Response::Stall)),
        4 => Ok(Some(Response::Broken)),
        _ => Ok(None),
    }
}

/// One more answer behind the script of a device's endpoint.
pub fn feed(
    alloc: Global,
    session: &mut Session,
    dev: DeviceNo,
    ep: EpAddr,
    kind: u8,
    bytes: &[u8],
) -> i32
    ensures { Feeds (Some dev) ep kind bytes.now result session.old session.new }
{
    match answer_by(alloc, kind, bytes) {
        Err(_) => NO_MEM,
        Ok(None) => INVALID,
        Ok(Some(answer)) => match session.core.feed(dev, ep, answer) {
            Ok(()) => 0,
            Err(refused) => refused.libusb_number(),
        },
    }
}

/// The packet that a device is to answer next at an endpoint, and its bytes, as far as there is room.
pub fn offer(
    session: &Session,
    dev: DeviceNo,
    ep: EpAddr,
    buffer: &mut [u8],
    packet: &mut PacketOffer,
)
    ensures { TellsNext dev ep packet.new buffer.old buffer.new session.now }
{
    match session.core.offer(dev, ep) {
        None => *packet = PacketOffer::none(),
        Some(offer) => {
            let _count = fill(buffer, offer.out);
            *packet = PacketOffer::of(&offer);
        }
    }
}
