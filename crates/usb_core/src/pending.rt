//! What is to be done next.

ghost use Rattle.std.specs.Prelude.{◌≡◌, ◌<◌, ◌≤◌, find};
ghost use Rattle.usb_model.specs.declared.step.Step.TheVariants.{Command, Deliver, Take};
ghost use Rattle.usb_model.specs.Setup.{Setup};
ghost use Rattle.usb_model.specs.World.{World};
ghost use Rattle.refine_world.specs.Shows.{Core, Shows};
ghost use Rattle.refine_core.specs.State.{Keeps};
ghost use Rattle.usb_core.specs.Pending.{IsPending, behind, can_answer, does_something, end_of, ends_from, serves};

use crate::parts::Parts;
use usb_device::Device;
use usb_model::{DeviceNo, EpAddr};

/// What is to be done next.
#[derive(Clone, Copy, PartialEq, Eq, Debug)]
pub struct Pending {
    /// The first endpoint where a packet does something.
    pub serve: Option<(DeviceNo, EpAddr)>,
    /// Whether an order waits.
    pub command: bool,
    /// Whether an event waits.
    pub deliver: bool,
    /// Whether a result waits.
    pub take: bool,
    /// Whether a transfer is in its callback.
    pub out: bool,
}

impl<P, D: Device> Parts<P, D> {
    /// What is to be done next. Endpoints are looked at by device and address from behind this one on, in a circle; from the
    /// first one on where there is none. Takes no memory.
    pub fn pending(&self, after: Option<(DeviceNo, EpAddr)>) -> Pending
        ensures { (setup : Setup) (w : World) (c : Core) → Keeps setup self.now c → Shows setup w c → IsPending setup w after result }
    {
        Pending {
            serve: self.first_to_serve(behind(after)),
            command: self.has_order(),
            deliver: self.has_event(),
            take: self.has_result(),
            out: self.callers.is_any_out(),
        }
    }

    /// Whether an order waits for the controller. Takes no memory.
    pub fn has_order(&self) -> bool
        ensures { (setup : Setup) (w : World) (c : Core) → Keeps setup self.now c → Shows setup w c → result ≡ does_something setup w Command }
    {
        self.controller.command_ring().room() < 254
    }

    /// Whether an event waits to be handled. Takes no memory.
    pub fn has_event(&self) -> bool
        ensures { (setup : Setup) (w : World) (c : Core) → Keeps setup self.now c → Shows setup w c → result ≡ does_something setup w Deliver }
    {
        self.controller.event_ring().room() < 4095
    }

    /// Whether a result waits to go out. Takes no memory.
    pub fn has_result(&self) -> bool
        ensures { (setup : Setup) (w : World) (c : Core) → Keeps setup self.now c → Shows setup w c → result ≡ does_something setup w Take }
    {
        self.flights.first_ended().is_some()
    }

    /// The first endpoint where a packet does something, from a place on.
    fn first_to_serve(&self, start: usize) -> Option<(DeviceNo, EpAddr)>
        requires { start ≤ 120 }
        ensures { (setup : Setup) (w : World) (c : Core) → Keeps setup self.now c → Shows setup w c → result ≡ find (λ x. serves setup w x.0 x.1) (ends_from 120 start) }
    {
        for i in 0..120_usize {
            let (dev, ep) = end_of((start + i) % 120);
            if self.has_packet(dev, ep) {
                return Some((dev, ep));
            }
        }
        None
    }

    /// Whether a packet does something at an endpoint. Where its line is empty nothing else is looked at. Takes no memory.
    pub fn has_packet(&self, dev: DeviceNo, ep: EpAddr) -> bool
        ensures { (setup : Setup) (w : World) (c : Core) → Keeps setup self.now c → Shows setup w c → result ≡ serves setup w dev ep }
    {
        if self.flights.len(dev, ep) == 0 || self.claims.holder(dev, ep).is_none() {
            return false;
        }
        self.can_answer(dev, ep)
    }

    /// Whether the controller has a transfer to serve at an endpoint, and the device is ready there or gone.
    fn can_answer(&self, dev: DeviceNo, ep: EpAddr) -> bool
        ensures { result ≡ can_answer self.now.controller dev ep }
    {
        let Some(slot) = self.controller.slot(dev) else {
            return false;
        };
        let Some(context) = slot.context(ep) else {
            return false;
        };
        context.working().is_some() && (slot.is_gone() || slot.ready(ep))
    }
}

/// The place behind an endpoint; the first where there is none.
fn behind(after: Option<(DeviceNo, EpAddr)>) -> usize
    ensures value { result ≡ behind after }
    ensures most { result ≤ 120 }
{
    match after {
        Some((dev, ep)) => {
            let inward = if ep.is_in() { 15 } else { 0 };
            30 * usize::from(dev.number()) + usize::from(ep.number()) + inward
        }
        None => 0,
    }
}

/// The endpoint of a place.
fn end_of(place: usize) -> (DeviceNo, EpAddr)
    requires { place < 120 }
    ensures { result ≡ end_of place }
{
    let Some(dev) = DeviceNo::new((place / 30) as u8) else {
        unreachable!();
    };
    let rank = (place % 30) as u8;
    let address = rank + if rank < 15 { 1 } else { 114 };
    (dev, EpAddr::new(address))
}
