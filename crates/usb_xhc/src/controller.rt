//! The controller.

ghost use Rattle.std.specs.Prelude.{◌≡◌, ◌+◌, ◌-◌, ◌≤◌, ◌<◌, ◌∷◌, ◌++◌, [], None, Some, length, suc, IfErr, IfOk, IfSome, OnErr, OnOk, ℕ, option_map, slice_get, true, drop, slice_set, if◌then◌else◌};
ghost use Rattle.std.specs.Option.{option_copied, option_map_or};
ghost use Rattle.usb_model.specs.Setup.{endpoint_id};
ghost use Rattle.usb_rings.specs.Places.{index_of};
ghost use Rattle.usb_rings.specs.Ring.{empty};
ghost use Rattle.usb_rings.specs.Line.{capacity, normals, used};
ghost use Rattle.usb_model.specs.declared.refused.Refused.TheVariants.{InvalidParam, NoMem};
ghost use Rattle.usb_device.specs.Pipe.{cleared, pipe_at};
ghost use Rattle.usb_xhc.specs.Feeds.{controller_fed, device_may_be_fed};
ghost use Rattle.usb_xhc.specs.Host.{rung, with_ring, with_pushed, with_blank, without_first};
ghost use Rattle.usb_xhc.specs.Made.{slot_for};
ghost use Rattle.usb_xhc.specs.Posts.{posted_one};
ghost use Rattle.usb_xhc.specs.declared.packet.PacketResult.TheVariants.{Moved};
ghost use Rattle.usb_xhc.specs.Ahead.{room};
ghost use Rattle.usb_xhc.specs.Context.{trbs};
ghost use Rattle.usb_xhc.specs.Skims.{controller_read, controller_skimmed, size_at};
ghost use Rattle.usb_xhc.specs.Transaction.{offset_by, packet_room, working};
ghost use Rattle.usb_xhc.specs.Slots.{changed, context_of, read_after, renewed, sends};
ghost use Rattle.usb_xhc.specs.Controller.{AreLawfulAll, all_renewed, slot_changed, served_at, told_at, endpoint_in, code_for, carried_at, slot_in, run_of};

use crate::renewal::renew_slots;
use crate::slot::DeviceSlot;
use crate::{ENDPOINT_NOT_ENABLED_ERROR, PacketResult, TRB_ERROR, post};
use std::alloc::{AllocError, Global};
use std::marker::Model;
use usb_descriptors::Config;
use usb_device::{Device, Feed};
use usb_model::{Buffer, DeviceNo, EpAddr, Refused, Response};
use usb_rings::{CommandRing, EventRing, Ring};
use usb_trb::{EndpointId, Normal, Slot, TrbKind};

/// How many devices there are at most.
const MOST_DEVICES: usize = 4;

/// The controller: at most 4 devices, each at its slot, the command ring and the event ring. Contracts see a record of
/// these.
#[derive(Drop)]
pub struct Controller<D: Device> {
    slots: Vec<DeviceSlot<D>>,
    commands: CommandRing,
    events: EventRing,
}

impl<D: Device> Model for Controller<D> {
    ghost use Rattle.std.specs.Prelude.{◌≤◌, length, vec_capacity};
    ghost use Rattle.usb_xhc.specs.Controller.{Controller as View};

    ghost Value = { View };

    ghost view = { λ c. record { slots = c.slots.items; commands = c.commands; events = c.events } };

    ghost invariant = { λ c. (4 ≤ vec_capacity c.slots) × (length c.slots.items ≤ 4) };
}

impl<D: Device> Controller<D> {
    /// No device, and empty rings.
    pub fn new(alloc: Global) -> Result<Controller<D>, AllocError>
        ensures { IfOk result (λ c. c ≡ record { slots = []; commands = empty 255 256 0x2000_0000; events = empty 4096 4096 0x3000_0000 }) }
    {
        Ok(Controller {
            slots: Vec::with_capacity(alloc, MOST_DEVICES)?,
            commands: Ring::command(alloc)?,
            events: Ring::event(alloc)?,
        })
    }

    /// A device of this configuration at the next slot: each of its bulk and interrupt endpoints runs, with an empty ring.
    /// Hands the device back, with nothing changed, where there are four, or memory is refused.
    pub fn add(&mut self, alloc: Global, config: &Config, device: D) -> Result<(), D>
        ensures room { OnOk result (length self.old.slots < 4) }
        ensures added { OnOk result (self.new ≡ record self.old { slots = self.old.slots ++ slot_for (suc (length self.old.slots)) config.now (D.pipes device) ∷ [] }) }
        ensures back { IfErr result (λ d. d ≡ device) }
        ensures kept { OnErr result (self.new ≡ self.old) }
    {
        let count = self.slots.len();
        if count >= MOST_DEVICES {
            return Err(device);
        }
        let Some(slot) = Slot::new(count as u8 + 1) else {
            return Err(device);
        };
        let made = DeviceSlot::new(alloc, slot, config, device)?;
        self.slots.push_reserved(made);
        Ok(())
    }

    /// A device's slot; None where there is no such device.
    pub fn slot(&self, dev: DeviceNo) -> Option<&DeviceSlot<D>>
        ensures { option_copied result ≡ slice_get self.now.slots dev }
    {
        self.slots.get(usize::from(dev.number()))
    }

    /// The slots as they are, by device.
    pub fn into_slots(self) -> Vec<DeviceSlot<D>>
        ensures { result.items ≡ self.slots }
    {
        let Controller { slots, .. } = self;
        slots
    }

    /// One packet of the transfer at an endpoint's dequeue, from the device, whose bytes join these; None where there is
    /// nothing to serve: no such device or endpoint, or it isn't running, or no transfer is left.
    pub fn serve_in(
        &mut self,
        dev: DeviceNo,
        ep: EpAddr,
        bytes: &mut Buffer,
    ) -> Option<PacketResult>
        requires bytes { IfSome (slice_get self.old.slots dev) (λ s. IfSome (context_of s ep) (λ c. IfSome (working c) (λ _. length bytes.old.items + packet_room c ≤ bytes.old.capacity))) }
        requires room { length self.old.events.waits < 4095 }
        ensures packet { result ≡ told_at self.old dev ep }
        ensures controller { self.new ≡ served_at self.old dev ep (λ _. None) }
        ensures bytes { bytes.new.items ≡ option_map_or (λ s. read_after s ep bytes.old.items) (slice_get self.old.slots dev) bytes.old.items }
        ensures capacity { bytes.old.capacity ≤ bytes.new.capacity }
        ensures lent { bytes.new.lent ≡ bytes.old.lent }
    {
        match self.slots.get_mut(usize::from(dev.number())) {
            Some(slot) => slot.serve_in(ep, bytes, &mut self.events),
            None => None,
        }
    }

    /// One packet of the transfer at an endpoint's dequeue, to the device, of these bytes of the transfer; None as for
    /// `serve_in`.
    pub fn serve_out(&mut self, dev: DeviceNo, ep: EpAddr, bytes: &[u8]) -> Option<PacketResult>
        requires size { IfSome (slice_get self.old.slots dev) (λ s. IfSome (context_of s ep) (λ c. IfSome (working c) (λ _. c.size ≤ (pipe_at s.pipes ep).size))) }
        requires bytes { IfSome (slice_get self.old.slots dev) (λ s. IfSome (context_of s ep) (λ c. IfSome (working c) (λ f. offset_by f.trb c.within + packet_room c ≤ length bytes.now))) }
        requires room { length self.old.events.waits < 4095 }
        ensures packet { result ≡ told_at self.old dev ep }
        ensures controller { self.new ≡ served_at self.old dev ep (λ s. sends s ep bytes.now) }
    {
        match self.slots.get_mut(usize::from(dev.number())) {
            Some(slot) => slot.serve_out(ep, bytes, &mut self.events),
            None => None,
        }
    }

    /// Whole packets in a row of the transfer at an endpoint's dequeue, from the device, whose bytes join these: at most so
    /// many, and none that ends a TRB. How many they were; each is as one of `serve_in`, which tells no end.
    #[tactic(auto, unfolding(crate::specs::Skims::controller_skimmed, crate::specs::Skims::controller_read))]
    pub fn skim_in(&mut self, dev: DeviceNo, ep: EpAddr, most: usize, bytes: &mut Buffer) -> usize
        requires bytes { IfSome (slice_get self.old.slots dev) (λ s. IfSome (context_of s ep) (λ c. IfSome (working c) (λ _. length bytes.old.items + room (trbs c) c.within ≤ bytes.old.capacity))) }
        ensures most { result ≤ most }
        ensures whole { (i : ℕ) → i < result → told_at (controller_skimmed dev ep (λ _. None) i self.old) dev ep ≡ Some (Moved (size_at self.old dev ep)) }
        ensures controller { self.new ≡ controller_skimmed dev ep (λ _. None) result self.old }
        ensures bytes { bytes.new.items ≡ controller_read dev ep result self.old bytes.old.items }
        ensures capacity { bytes.old.capacity ≤ bytes.new.capacity }
        ensures lent { bytes.new.lent ≡ bytes.old.lent }
    {
        let Some(slot) = self.slots.get_mut(usize::from(dev.number())) else {
            return 0;
        };
        slot.skim_in(ep, most, bytes)
    }

    /// Whole packets in a row of the transfer at an endpoint's dequeue, to the device, of these bytes of the transfer: at
    /// most so many, and none that ends a TRB. How many they were; each is as one of `serve_out`, which tells no end.
    #[tactic(auto, unfolding(crate::specs::Skims::controller_skimmed))]
    pub fn skim_out(&mut self, dev: DeviceNo, ep: EpAddr, most: usize, bytes: &[u8]) -> usize
        requires size { IfSome (slice_get self.old.slots dev) (λ s. IfSome (context_of s ep) (λ c. IfSome (working c) (λ _. c.size ≤ (pipe_at s.pipes ep).size))) }
        requires bytes { IfSome (slice_get self.old.slots dev) (λ s. IfSome (context_of s ep) (λ c. IfSome (working c) (λ f. offset_by f.trb c.within + (f.trb.length - c.within) ≤ length bytes.now))) }
        ensures most { result ≤ most }
        ensures whole { (i : ℕ) → i < result → told_at (controller_skimmed dev ep (λ s. sends s ep bytes.now) i self.old) dev ep ≡ Some (Moved (size_at self.old dev ep)) }
        ensures controller { self.new ≡ controller_skimmed dev ep (λ s. sends s ep bytes.now) result self.old }
    {
        let Some(slot) = self.slots.get_mut(usize::from(dev.number())) else {
            return 0;
        };
        slot.skim_out(ep, most, bytes)
    }

    /// Carries out the oldest order of the command ring, and posts its completion: the order, and the completion's code.
    /// None where no order waits (xHCI 1.2, 4.6).
    pub fn run_command(&mut self) -> Option<(TrbKind, u8)>
        requires { length self.old.events.waits + 1 < 4095 }
        ensures order { result ≡ option_map (λ x. (x.order, x.code)) (run_of self.old self.old.commands.waits) }
        ensures controller { self.new ≡ option_map_or (λ x. x.controller) (run_of self.old self.old.commands.waits) self.old }
    {
        match self.commands.take() {
            Some((index, order)) => {
                let code = self.carry_out(&order);
                let pointer = self.commands.address(index);
                let slot = slot_in(&order);
                let done = TrbKind::CommandCompletion {
                    pointer,
                    code,
                    slot,
                };
                post(&mut self.events, done);
                Some((order, code))
            }
            None => None,
        }
    }

    /// Carries an order out, and gives the code of its completion.
    fn carry_out(&mut self, order: &TrbKind) -> u8
        requires { length self.old.events.waits < 4095 }
        ensures code { result ≡ code_for self.old order.now }
        ensures controller { self.new ≡ carried_at self.old order.now }
        ensures more { length self.new.events.waits ≤ length self.old.events.waits + 1 }
    {
        let Some((slot, id)) = endpoint_in(order) else {
            return TRB_ERROR;
        };
        match self.slots.get_mut(usize::from(slot.number()) - 1) {
            Some(at) => at.carry_out(id, *order, &mut self.events),
            None => ENDPOINT_NOT_ENABLED_ERROR,
        }
    }

    /// Rings the doorbell of a slot's endpoint: it runs where it was stopped. A halted endpoint ignores it (xHCI 1.2, 4.7).
    pub fn ring_doorbell(&mut self, slot: Slot, id: EndpointId)
        ensures { self.new ≡ slot_changed self.old (slot - 1) (λ s. changed s id rung) }
    {
        if let Some(at) = self.slots.get_mut(usize::from(slot.number()) - 1) {
            at.ring_doorbell(id);
        }
    }

    /// An endpoint is made new: it runs, its ring is empty, and the device is at the beginning of its script, not halted,
    /// with nothing taken. Nothing changes where there is no such endpoint.
    pub fn renew(&mut self, dev: DeviceNo, ep: EpAddr)
        ensures { self.new ≡ slot_changed self.old dev (λ s. renewed s ep) }
    {
        if let Some(slot) = self.slots.get_mut(usize::from(dev.number())) {
            slot.renew(ep);
        }
    }

    /// All is made new: each device is there, at the beginning of its scripts, each endpoint runs, and nothing is in any
    /// ring. Takes no memory.
    pub fn renew_all(&mut self)
        ensures controller { self.new ≡ all_renewed self.old }
        ensures lawful { AreLawfulAll self.new.slots }
    {
        renew_slots(&mut self.slots);
        self.commands.renew();
        self.events.renew();
    }

    /// A transfer's TRBs are put behind all others of an endpoint's ring, as one item.
    pub fn push(&mut self, dev: DeviceNo, ep: EpAddr, trbs: &[Normal])
        requires some { 0 < length trbs.now }
        requires room { IfSome (slice_get self.old.slots dev) (λ s. IfSome (context_of s ep) (λ c. used c.ring.line + length trbs.now ≤ capacity)) }
        ensures { self.new ≡ slot_changed self.old dev (λ s. changed s (endpoint_id ep) (λ c. with_ring c (with_pushed c.ring (normals trbs.now)))) }
    {
        if let Some(slot) = self.slots.get_mut(usize::from(dev.number())) {
            slot.push(ep, trbs);
        }
    }

    /// Each TRB of an item of an endpoint's ring becomes a No Op.
    pub fn blank(&mut self, dev: DeviceNo, ep: EpAddr, item: usize)
        requires { IfSome (slice_get self.old.slots dev) (λ s. IfSome (context_of s ep) (λ c. item < length c.ring.line.items)) }
        ensures { self.new ≡ slot_changed self.old dev (λ s. changed s (endpoint_id ep) (λ c. with_ring c (with_blank c.ring item))) }
    {
        if let Some(slot) = self.slots.get_mut(usize::from(dev.number())) {
            slot.blank(ep, item);
        }
    }

    /// The first items of an endpoint's ring leave its line.
    pub fn drop_front(&mut self, dev: DeviceNo, ep: EpAddr, count: usize)
        requires { IfSome (slice_get self.old.slots dev) (λ s. IfSome (context_of s ep) (λ c. count ≤ length c.ring.line.items)) }
        ensures { self.new ≡ slot_changed self.old dev (λ s. changed s (endpoint_id ep) (λ c. with_ring c (without_first c.ring count))) }
    {
        if let Some(slot) = self.slots.get_mut(usize::from(dev.number())) {
            slot.drop_front(ep, count);
        }
    }

    /// Clears the halt of a device's endpoint (USB 2.0, 9.4.5, ENDPOINT_HALT).
    pub fn clear_halt(&mut self, dev: DeviceNo, ep: EpAddr)
        ensures { self.new ≡ slot_changed self.old dev (λ s. record s { pipes = slice_set s.pipes (endpoint_id ep) (cleared (pipe_at s.pipes ep)) }) }
    {
        if let Some(slot) = self.slots.get_mut(usize::from(dev.number())) {
            slot.clear_halt(ep);
        }
    }

    /// A device is gone: it isn't asked any more.
    pub fn unplug(&mut self, dev: DeviceNo)
        ensures { self.new ≡ slot_changed self.old dev (λ s. record s { gone = true }) }
    {
        if let Some(slot) = self.slots.get_mut(usize::from(dev.number())) {
            slot.unplug();
        }
    }

    /// Posts an order behind all that wait, and gives its index in the command ring (xHCI 1.2, 4.9.3).
    pub fn order(&mut self, order: TrbKind) -> usize
        requires { length self.old.commands.waits < 254 }
        ensures index { result ≡ index_of 255 self.old.commands.posted }
        ensures controller { self.new ≡ record self.old { commands = posted_one 255 self.old.commands order } }
    {
        self.commands.post(order)
    }

    /// Takes the oldest event; None where none waits.
    pub fn take_event(&mut self) -> Option<TrbKind>
        ensures event { result ≡ slice_get self.old.events.waits 0 }
        ensures controller { self.new ≡ record self.old { events = record self.old.events { waits = drop 1 self.old.events.waits } } }
    {
        match self.events.take() {
            Some((_, event)) => Some(event),
            None => None,
        }
    }

    /// How many orders wait in the command ring.
    pub fn orders_waiting(&self) -> usize
        ensures { result ≡ length self.now.commands.waits }
    {
        self.commands.len()
    }

    /// How many events wait in the event ring.
    pub fn events_waiting(&self) -> usize
        ensures { result ≡ length self.now.events.waits }
    {
        self.events.len()
    }

    /// The command ring.
    pub fn command_ring(&self) -> &CommandRing
        ensures { result.now ≡ self.now.commands }
    {
        &self.commands
    }

    /// The event ring.
    pub fn event_ring(&self) -> &EventRing
        ensures { result.now ≡ self.now.events }
    {
        &self.events
    }
}

impl<D: Feed> Controller<D> {
    /// One more answer behind the script of a device's endpoint (`Feed::feed`). InvalidParam where there is no such device, too.
    pub fn feed(&mut self, dev: DeviceNo, ep: EpAddr, answer: Response) -> Result<(), Refused>
        ensures fed { OnOk result (self.new ≡ controller_fed dev ep answer self.old) }
        ensures may { OnOk result (device_may_be_fed dev ep answer self.old ≡ true) }
        ensures stays { OnErr result (self.new ≡ self.old) }
        ensures why { IfErr result (λ why. why ≡ (if device_may_be_fed dev ep answer self.old then NoMem else InvalidParam)) }
    {
        match self.slots.get_mut(usize::from(dev.number())) {
            Some(slot) => slot.feed(ep, answer),
            None => Err(Refused::InvalidParam),
        }
    }
}

/// The slot and the endpoint of an order; None where it is none.
fn endpoint_in(order: &TrbKind) -> Option<(Slot, EndpointId)>
    ensures { result ≡ endpoint_in order.now }
{
    match *order {
        TrbKind::StopEndpoint { slot, id }
        | TrbKind::ResetEndpoint { slot, id }
        | TrbKind::SetDequeue { slot, id, .. } => Some((slot, id)),
        _ => None,
    }
}

/// The slot that an order's completion names: the order's, or the first where it has none.
fn slot_in(order: &TrbKind) -> Slot
    ensures { result ≡ slot_in order.now }
{
    match endpoint_in(order) {
        Some((slot, _)) => slot,
        None => match Slot::new(1) {
            Some(slot) => slot,
            None => unreachable!(),
        },
    }
}
