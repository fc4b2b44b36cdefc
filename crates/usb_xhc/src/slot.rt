//! A device's slot.

ghost use Rattle.std.specs.Prelude.{◌≡◌, ◌+◌, ◌-◌, ◌≤◌, ◌<◌, None, length, IfSome, option_map, slice_set, true, slice_get, IfOk, IfErr, OnErr, OnOk, if◌then◌else◌};
ghost use Rattle.usb_model.specs.Setup.{endpoint_id};
ghost use Rattle.usb_model.specs.declared.refused.Refused.TheVariants.{InvalidParam, NoMem};
ghost use Rattle.usb_device.specs.Feeds.{may_be_fed};
ghost use Rattle.usb_device.specs.Pipe.{IsLawful, pipe_at, cleared, is_ready};
ghost use Rattle.usb_xhc.specs.Feeds.{slot_fed};
ghost use Rattle.usb_xhc.specs.Ahead.{room};
ghost use Rattle.usb_xhc.specs.Context.{trbs};
ghost use Rattle.usb_xhc.specs.Skims.{AreWhole, read_skimmed, slot_skimmed};
ghost use Rattle.usb_xhc.specs.Transaction.{offset_by, packet_room, working};
ghost use Rattle.usb_xhc.specs.Slots.{context_of, room_ahead, serving, sends, slot_after, events_after, read_after, changed, order_code, order_events, renewed, slot_renewed};
ghost use Rattle.usb_xhc.specs.Made.{slot_for};
ghost use Rattle.std.specs.Option.{option_copied};
ghost use Rattle.usb_rings.specs.Line.{capacity, normals, used};
ghost use Rattle.usb_xhc.specs.Commands.{carried};
ghost use Rattle.usb_xhc.specs.Host.{rung, with_ring, with_pushed, with_blank, without_first};
ghost use Rattle.usb_xhc.specs.Posts.{posted_all};

use crate::renewal::{renew_contexts, rewind};
use crate::rings::make_contexts;
use crate::{ENDPOINT_NOT_ENABLED_ERROR, EndpointContext, PacketResult};
use std::alloc::Global;
use std::marker::Model;
use usb_descriptors::Config;
use usb_device::{Device, Feed, Scripted};
use usb_model::{Buffer, EpAddr, Refused, Response};
use usb_rings::EventRing;
use usb_trb::{EndpointId, Normal, Slot, TrbKind};

/// A device, and its endpoints by their ids, 0 to 31 (Device Context; xHCI 1.2, 6.2.1); a bulk or interrupt endpoint of the
/// configuration has a ring, and no other. Contracts see the device's endpoints, whether it is gone, and the controller's.
#[derive(Drop)]
pub struct DeviceSlot<D: Device> {
    device: D,
    gone: bool,
    contexts: Vec<Option<EndpointContext>>,
}

impl<D: Device> Model for DeviceSlot<D> {
    ghost use Rattle.std.specs.Prelude.{◌≡◌, length};
    ghost use Rattle.usb_xhc.specs.Slots.{DeviceSlot as Slot};

    ghost Value = { Slot };

    ghost view = { λ s. record { pipes = D.pipes s.device; gone = s.gone; contexts = s.contexts.items } };

    ghost invariant = { λ s. length s.contexts.items ≡ 32 };
}

impl<D: Device> DeviceSlot<D> {
    /// The slot of a device of this configuration: each bulk or interrupt endpoint runs, with an empty ring. Hands the
    /// device back where memory is refused.
    pub fn new(alloc: Global, slot: Slot, config: &Config, device: D) -> Result<DeviceSlot<D>, D>
        ensures made { IfOk result (λ s. s ≡ slot_for slot config.now (D.pipes device)) }
        ensures back { IfErr result (λ d. d ≡ device) }
    {
        match make_contexts(alloc, slot, config) {
            Ok(contexts) => Ok(DeviceSlot {
                device,
                gone: false,
                contexts,
            }),
            Err(_) => Err(device),
        }
    }

    /// One packet of the transfer at an endpoint's dequeue, from the device, whose bytes join these; None where there is
    /// nothing to serve: no such endpoint, or it isn't running, or no transfer is left.
    pub fn serve_in(
        &mut self,
        ep: EpAddr,
        bytes: &mut Buffer,
        events: &mut EventRing,
    ) -> Option<PacketResult>
        requires bytes { IfSome (context_of self.old ep) (λ c. IfSome (working c) (λ _. length bytes.old.items + packet_room c ≤ bytes.old.capacity)) }
        requires room { length events.old.waits < 4095 }
        ensures packet { result ≡ option_map (λ s. s.packet) (serving self.old ep) }
        ensures slot { self.new ≡ slot_after self.old ep None }
        ensures events { events.new ≡ events_after self.old ep events.old }
        ensures bytes { bytes.new.items ≡ read_after self.old ep bytes.old.items }
        ensures capacity { bytes.old.capacity ≤ bytes.new.capacity }
        ensures lent { bytes.new.lent ≡ bytes.old.lent }
    {
        let Some(context) = &mut self.contexts[usize::from(ep.id())] else {
            return None;
        };
        let first = context.working()?;
        if self.gone {
            return Some(context.fail(&first, events));
        }
        let reach = context.reach(&first);
        let act = self.device.answer_in(ep, context.packet_room(reach), bytes);
        Some(context.take(&first, reach, act, events))
    }

    /// One packet of the transfer at an endpoint's dequeue, to the device, of these bytes of the transfer; None as for
    /// `serve_in`.
    pub fn serve_out(
        &mut self,
        ep: EpAddr,
        bytes: &[u8],
        events: &mut EventRing,
    ) -> Option<PacketResult>
        requires size { IfSome (context_of self.old ep) (λ c. IfSome (working c) (λ _. c.size ≤ (pipe_at self.old.pipes ep).size)) }
        requires bytes { IfSome (context_of self.old ep) (λ c. IfSome (working c) (λ f. offset_by f.trb c.within + packet_room c ≤ length bytes.now)) }
        requires room { length events.old.waits < 4095 }
        ensures packet { result ≡ option_map (λ s. s.packet) (serving self.old ep) }
        ensures slot { self.new ≡ slot_after self.old ep (sends self.old ep bytes.now) }
        ensures events { events.new ≡ events_after self.old ep events.old }
    {
        let Some(context) = &mut self.contexts[usize::from(ep.id())] else {
            return None;
        };
        let first = context.working()?;
        if self.gone {
            return Some(context.fail(&first, events));
        }
        let reach = context.reach(&first);
        let packet = context.packet(&first, reach, bytes);
        let act = self.device.answer(ep, Some(packet), &mut []);
        Some(context.take(&first, reach, act, events))
    }

    /// Whole packets in a row of the transfer at an endpoint's dequeue, from the device, whose bytes join these: at most so
    /// many, and none that ends a TRB. How many they were.
    #[tactic(auto, unfolding(crate::specs::Skims::slot_skimmed, crate::specs::Skims::read_skimmed))]
    pub fn skim_in(&mut self, ep: EpAddr, most: usize, bytes: &mut Buffer) -> usize
        requires bytes { IfSome (context_of self.old ep) (λ c. IfSome (working c) (λ _. length bytes.old.items + room (trbs c) c.within ≤ bytes.old.capacity)) }
        ensures most { result ≤ most }
        ensures whole { AreWhole (λ _. None) ep result self.old }
        ensures slot { self.new ≡ slot_skimmed (λ _. None) ep result self.old }
        ensures bytes { bytes.new.items ≡ read_skimmed ep result self.old bytes.old.items }
        ensures capacity { bytes.old.capacity ≤ bytes.new.capacity }
        ensures lent { bytes.new.lent ≡ bytes.old.lent }
    {
        let Some(context) = &mut self.contexts[usize::from(ep.id())] else {
            return 0;
        };
        let Some(first) = context.working() else {
            return 0;
        };
        let few = context.whole_within(&first).min(most);
        if self.gone || few == 0 {
            return 0;
        }
        let size = usize::from(context.size());
        let full = self.device.skim_in(ep, size, few, bytes);
        context.skip(full);
        full
    }

    /// Whole packets in a row of the transfer at an endpoint's dequeue, to the device, of these bytes of the transfer: at
    /// most so many, and none that ends a TRB. How many they were.
    #[tactic(auto, unfolding(crate::specs::Skims::slot_skimmed))]
    pub fn skim_out(&mut self, ep: EpAddr, most: usize, bytes: &[u8]) -> usize
        requires size { IfSome (context_of self.old ep) (λ c. IfSome (working c) (λ _. c.size ≤ (pipe_at self.old.pipes ep).size)) }
        requires bytes { IfSome (context_of self.old ep) (λ c. IfSome (working c) (λ f. offset_by f.trb c.within + (f.trb.length - c.within) ≤ length bytes.now)) }
        ensures most { result ≤ most }
        ensures whole { AreWhole (λ s. sends s ep bytes.now) ep result self.old }
        ensures slot { self.new ≡ slot_skimmed (λ s. sends s ep bytes.now) ep result self.old }
    {
        let Some(context) = &mut self.contexts[usize::from(ep.id())] else {
            return 0;
        };
        let Some(first) = context.working() else {
            return 0;
        };
        let few = context.whole_within(&first).min(most);
        if self.gone || few == 0 {
            return 0;
        }
        let size = usize::from(context.size());
        let packets = context.packets(&first, few, bytes);
        let full = self.device.skim_out(ep, size, few, packets);
        context.skip(full);
        full
    }

    /// Carries an order out at the endpoint of this id, and gives the code of its completion.
    pub fn carry_out(&mut self, id: EndpointId, order: TrbKind, events: &mut EventRing) -> u8
        requires { length events.old.waits < 4095 }
        ensures code { result ≡ order_code self.old id order }
        ensures slot { self.new ≡ changed self.old id (λ c. (carried order c).context) }
        ensures events { events.new ≡ posted_all 4096 events.old (order_events self.old id order) }
        ensures more { length events.new.waits ≤ length events.old.waits + 1 }
    {
        match &mut self.contexts[usize::from(id.number())] {
            Some(context) => context.carry_out(order, events),
            None => ENDPOINT_NOT_ENABLED_ERROR,
        }
    }

    /// Rings the doorbell of the endpoint of this id: it runs where it was stopped (xHCI 1.2, 4.7).
    pub fn ring_doorbell(&mut self, id: EndpointId)
        ensures { self.new ≡ changed self.old id rung }
    {
        if let Some(context) = &mut self.contexts[usize::from(id.number())] {
            context.ring_doorbell();
        }
    }

    /// An endpoint is made new: it runs, its ring is empty, and the device is at the beginning of its script, not halted,
    /// with nothing taken (Configure Endpoint; xHCI 1.2, 4.6.6). Nothing changes where there is no such endpoint.
    pub fn renew(&mut self, ep: EpAddr)
        ensures { self.new ≡ renewed self.old ep }
    {
        if let Some(context) = &mut self.contexts[usize::from(ep.id())] {
            context.renew();
            self.device.rewind(ep);
        }
    }

    /// The device is there, at the beginning of all its scripts, and each endpoint is made new.
    pub fn renew_all(&mut self)
        ensures slot { self.new ≡ slot_renewed self.old }
        ensures lawful { IsLawful self.new.pipes }
    {
        rewind(&mut self.device);
        renew_contexts(&mut self.contexts);
        self.gone = false;
    }

    /// An endpoint; None where it has no ring.
    pub fn context(&self, ep: EpAddr) -> Option<&EndpointContext>
        ensures { option_copied result ≡ context_of self.now ep }
    {
        self.contexts[usize::from(ep.id())].as_ref()
    }

    /// How many bytes the packet may have that is next at an endpoint, below 65,536; None where there is nothing to serve.
    pub fn packet_room(&self, ep: EpAddr) -> Option<usize>
        ensures value { result ≡ room_ahead self.now ep }
        ensures below { IfSome result (λ room. room < 65536) }
    {
        let context = self.context(ep)?;
        let first = context.working()?;
        Some(context.packet_room(context.reach(&first)))
    }

    /// The packet that is next at an endpoint, of these bytes of the transfer; None where there is nothing to serve.
    pub fn next_packet<'a>(&self, ep: EpAddr, bytes: &'a [u8]) -> Option<&'a [u8]>
        requires { IfSome (context_of self.now ep) (λ c. IfSome (working c) (λ f. offset_by f.trb c.within + packet_room c ≤ length bytes.now)) }
        ensures { option_copied result ≡ sends self.now ep bytes.now }
    {
        let context = self.context(ep)?;
        let first = context.working()?;
        Some(context.packet(&first, context.reach(&first), bytes))
    }

    /// A transfer's TRBs are put behind all others of an endpoint's ring, as one item.
    pub fn push(&mut self, ep: EpAddr, trbs: &[Normal])
        requires some { 0 < length trbs.now }
        requires room { IfSome (context_of self.old ep) (λ c. used c.ring.line + length trbs.now ≤ capacity) }
        ensures { self.new ≡ changed self.old (endpoint_id ep) (λ c. with_ring c (with_pushed c.ring (normals trbs.now))) }
    {
        if let Some(context) = &mut self.contexts[usize::from(ep.id())] {
            context.push(trbs);
        }
    }

    /// Each TRB of an item of an endpoint's ring becomes a No Op.
    pub fn blank(&mut self, ep: EpAddr, item: usize)
        requires { IfSome (context_of self.old ep) (λ c. item < length c.ring.line.items) }
        ensures { self.new ≡ changed self.old (endpoint_id ep) (λ c. with_ring c (with_blank c.ring item)) }
    {
        if let Some(context) = &mut self.contexts[usize::from(ep.id())] {
            context.blank(item);
        }
    }

    /// The first items of an endpoint's ring leave its line.
    pub fn drop_front(&mut self, ep: EpAddr, count: usize)
        requires { IfSome (context_of self.old ep) (λ c. count ≤ length c.ring.line.items) }
        ensures { self.new ≡ changed self.old (endpoint_id ep) (λ c. with_ring c (without_first c.ring count)) }
    {
        if let Some(context) = &mut self.contexts[usize::from(ep.id())] {
            context.drop_front(count);
        }
    }

    /// Clears the halt of a device's endpoint (USB 2.0, 9.4.5, ENDPOINT_HALT).
    pub fn clear_halt(&mut self, ep: EpAddr)
        ensures { self.new ≡ record self.old { pipes = slice_set self.old.pipes (endpoint_id ep) (cleared (pipe_at self.old.pipes ep)) } }
    {
        self.device.clear_halt(ep);
    }

    /// Whether the device has an answer left at an endpoint, or is halted there.
    pub fn ready(&self, ep: EpAddr) -> bool
        ensures { result ≡ is_ready (pipe_at self.now.pipes ep) }
    {
        self.device.ready(ep)
    }

    /// The packet of index `i`, from 0 on, among those that an endpoint took since it was made new; None past the last.
    pub fn taken(&self, ep: EpAddr, i: usize) -> Option<&[u8]>
        ensures { option_copied result ≡ slice_get (pipe_at self.now.pipes ep).taken i }
    {
        self.device.taken(ep, i)
    }

    /// The device is gone: it isn't asked any more.
    pub fn unplug(&mut self)
        ensures { self.new ≡ record self.old { gone = true } }
    {
        self.gone = true;
    }

    /// Whether the device is gone.
    pub fn is_gone(&self) -> bool
        ensures { result ≡ self.now.gone }
    {
        self.gone
    }

    /// The device as it is.
    pub fn into_device(self) -> D
        ensures { D.pipes result ≡ self.pipes }
    {
        let DeviceSlot { device, .. } = self;
        device
    }
}

impl<D: Scripted> DeviceSlot<D> {
    /// How many answers the device has left for an endpoint.
    pub fn answers_left(&self, ep: EpAddr) -> usize
        ensures { result ≡ length (pipe_at self.now.pipes ep).left }
    {
        self.device.answers_left(ep)
    }

    /// Whether the device has an endpoint halted (USB 2.0, 9.4.5, ENDPOINT_HALT).
    pub fn is_halted(&self, ep: EpAddr) -> bool
        ensures { result ≡ (pipe_at self.now.pipes ep).halted }
    {
        self.device.is_halted(ep)
    }
}

impl<D: Feed> DeviceSlot<D> {
    /// One more answer behind the script of an endpoint (`Feed::feed`).
    pub fn feed(&mut self, ep: EpAddr, answer: Response) -> Result<(), Refused>
        ensures fed { OnOk result (self.new ≡ slot_fed ep answer self.old) }
        ensures may { OnOk result (may_be_fed ep answer (pipe_at self.old.pipes ep) ≡ true) }
        ensures stays { OnErr result (self.new ≡ self.old) }
        ensures why { IfErr result (λ why. why ≡ (if may_be_fed ep answer (pipe_at self.old.pipes ep) then NoMem else InvalidParam)) }
    {
        self.device.feed(ep, answer)
    }
}
