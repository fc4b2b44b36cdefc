//! The packet that a device is to answer next.

ghost use Rattle.std.specs.Prelude.{◌≡◌, ◌<◌, IfSome, None, Some};
ghost use Rattle.usb_model.specs.Setup.{Setup};
ghost use Rattle.usb_model.specs.World.{World};
ghost use Rattle.refine_world.specs.Shows.{Core, Shows};
ghost use Rattle.refine_core.specs.Offers.{HasNone, IsNext, IsOffered, asks_device};
ghost use Rattle.refine_core.specs.State.{IsState, Keeps};
ghost use Rattle.refine_core.specs.Works.{CanServeItem, IsFront};

use crate::parts::Parts;
use usb_device::Scripted;
use usb_model::{Body, DeviceNo, EpAddr, Name};
use usb_xhc::DeviceSlot;

/// The packet that a device is to answer next at an endpoint.
#[derive(Clone, Copy)]
pub struct Offer<'a> {
    /// Whose transfer it is of.
    pub owner: Name,
    /// That transfer's number.
    pub n: u64,
    /// The bytes that the host sends; none where it reads.
    pub out: &'a [u8],
    /// How many bytes the packet has where the host sends, or may have where it reads: below 65,536.
    pub room: usize,
    /// Whether the device is asked: its script has no answer left there, it isn't halted there, and it isn't gone.
    pub wants: bool,
}

impl<P, D: Scripted> Parts<P, D> {
    /// The packet that a device is to answer next at an endpoint; None where nobody holds it, or there is nothing to serve. Takes
    /// no memory.
    pub fn offer(&self, dev: DeviceNo, ep: EpAddr) -> Option<Offer<'_>>
        requires { IsState self.now }
        ensures next { (setup : Setup) (w : World) (c : Core) → Keeps setup self.now c → Shows setup w c → IfSome result (λ o. IsNext setup w dev ep o.owner o.n o.out.now o.room o.wants) }
        ensures none { (setup : Setup) (w : World) (c : Core) → Keeps setup self.now c → Shows setup w c → result ≡ None → HasNone setup w dev ep }
        ensures below { IfSome result (λ o. o.room < 65536) }
    {
        let owner = self.claims.holder(dev, ep)?;
        let item = self.front(dev, ep)?;
        let Some(offer) = self.offer_at(owner, dev, ep, item) else {
            unreachable!();
        };
        Some(offer)
    }

    /// The next packet of the transfer at a place of an endpoint's line, where the controller works.
    fn offer_at(&self, owner: Name, dev: DeviceNo, ep: EpAddr, item: usize) -> Option<Offer<'_>>
        requires works { IsFront self.now dev ep (Some item) }
        requires served { CanServeItem self.now dev ep item }
        ensures some { result ≡ None → ⊥ }
        ensures offered { IfSome result (λ o. IsOffered self.now dev ep item o.n o.out.now o.room o.wants) }
        ensures whose { IfSome result (λ o. o.owner ≡ owner) }
        ensures below { IfSome result (λ o. o.room < 65536) }
    {
        let transfer = self.flights.get(dev, ep, item)?;
        let slot = self.controller.slot(dev)?;
        let room = slot.packet_room(ep)?;
        let out: &[u8] = match &transfer.request.body {
            Body::In(_) => &[],
            Body::Out(bytes) => slot.next_packet(ep, bytes.as_slice())?,
        };
        Some(Offer {
            owner,
            n: transfer.n,
            out,
            room,
            wants: asks(slot, ep),
        })
    }
}

/// Whether a device has no answer left at an endpoint, isn't halted there, and isn't gone.
fn asks<D: Scripted>(slot: &DeviceSlot<D>, ep: EpAddr) -> bool
    ensures { result ≡ asks_device slot.now ep }
{
    !slot.is_gone() && !slot.is_halted(ep) && slot.answers_left(ep) == 0
}
