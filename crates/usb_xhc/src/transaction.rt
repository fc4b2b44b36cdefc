//! A packet of the transfer where an endpoint stands.

ghost use Rattle.std.specs.Prelude.{◌≡◌, ◌+◌, ◌*◌, ◌≤◌, ◌<◌, ◌∷◌, [], Some, drop, length, take, if◌then◌else◌};
ghost use Rattle.usb_model.specs.Endpoint.Serve.{is_no_packet};
ghost use Rattle.usb_xhc.specs.declared.packet.PacketResult.TheVariants.{Nak, Moved};
ghost use Rattle.usb_model.specs.declared.response.Response.{Response};
ghost use Rattle.usb_device.specs.Pipe.{act_of};
ghost use Rattle.usb_xhc.specs.Ahead.{Reaches};
ghost use Rattle.usb_xhc.specs.Context.{trbs, stand_by};
ghost use Rattle.usb_xhc.specs.Posts.{posted_all, posted_one};
ghost use Rattle.usb_xhc.specs.Transaction.{trb_at, served, served_gone, ended_by, packet_room, packet_out, offset_by};

use crate::context::{EndpointContext, TrbPosition};
use crate::outcome::{Reach, decide};
use crate::packet::PacketResult;
use crate::trb_at::TrbAt;
use usb_device::Act;
use usb_model::completion::{TRANSACTION_ERROR, halts};
use usb_rings::EventRing;
use usb_trb::TrbKind;

impl EndpointContext {
    /// The device met a packet of the transfer at dequeue so, whose first TRB and reach are these.
    pub fn take(
        &mut self,
        first: &TrbAt,
        reach: Reach,
        act: Act,
        events: &mut EventRing,
    ) -> PacketResult
        requires first { trb_at self.old 0 ≡ Some first.now }
        requires reach { Reaches self.old.size (trbs self.old) self.old.within reach.room reach.extra }
        requires room { length events.old.waits < 4095 }
        ensures packet { (a : Response) → act ≡ act_of a → result ≡ (served self.old a).packet }
        ensures context { (a : Response) → act ≡ act_of a → self.new ≡ (served self.old a).context }
        ensures events { (a : Response) → act ≡ act_of a → events.new ≡ posted_all 4096 events.old (served self.old a).events }
    {
        let outcome = decide(u32::from(self.size()), reach, act);
        let standing = self.standing(first, outcome.bytes);
        let Some(code) = outcome.code else {
            self.go_on(&standing, outcome.bytes);
            return moved(act, outcome.bytes);
        };
        post(events, self.event(&standing, code));
        self.end(first, &standing, outcome.bytes, code);
        PacketResult::Ended(code)
    }

    /// How many bytes a packet may have.
    pub fn packet_room(&self, reach: Reach) -> usize
        requires { Reaches self.now.size (trbs self.now) self.now.within reach.room reach.extra }
        ensures value { result ≡ packet_room self.now }
        ensures below { result < 65536 }
    {
        u32::from(self.size()).min(reach.room) as usize
    }

    /// The packet for the device, of these bytes of the transfer.
    pub fn packet<'a>(&self, first: &TrbAt, reach: Reach, bytes: &'a [u8]) -> &'a [u8]
        requires reach { Reaches self.now.size (trbs self.now) self.now.within reach.room reach.extra }
        requires bytes { offset_by first.now.trb self.now.within + packet_room self.now ≤ length bytes.now }
        ensures { result.now ≡ packet_out self.now first.now.trb bytes.now }
    {
        let at = (first.trb.buffer % 0x4_0000) as usize + self.within() as usize;
        &bytes[at..at + self.packet_room(reach)]
    }

    /// So many whole packets for the device, one behind another, of these bytes of the transfer.
    pub(crate) fn packets<'a>(&self, first: &TrbAt, count: usize, bytes: &'a [u8]) -> &'a [u8]
        requires { offset_by first.now.trb self.now.within + count * self.now.size ≤ length bytes.now }
        ensures { result.now ≡ take (count * self.now.size) (drop (offset_by first.now.trb self.now.within) bytes.now) }
    {
        let at = (first.trb.buffer % 0x4_0000) as usize + self.within() as usize;
        &bytes[at..at + count * usize::from(self.size())]
    }

    /// The transfer ended with this code, so many bytes on.
    fn end(&mut self, first: &TrbAt, standing: &TrbPosition, count: u32, code: u8)
        requires first { trb_at self.old 0 ≡ Some first.now }
        requires at { trb_at self.old standing.now.index ≡ Some standing.now.at }
        requires stands { record { index = standing.now.index; within = standing.now.within } ≡ stand_by self.old count }
        requires few { standing.now.within ≤ 65536 }
        ensures { self.new ≡ ended_by self.old count code }
    {
        if halts(code) {
            self.go_on(standing, count);
            self.halt();
        } else {
            self.go_past(first);
        }
    }

    /// The device is gone: the transfer at dequeue, whose first TRB is this, ends with USB Transaction Error.
    #[tactic(auto, unfolding(crate::specs::Transaction::served_gone))]
    pub fn fail(&mut self, first: &TrbAt, events: &mut EventRing) -> PacketResult
        requires first { trb_at self.old 0 ≡ Some first.now }
        requires room { length events.old.waits < 4095 }
        ensures packet { result ≡ (served_gone self.old).packet }
        ensures context { self.new ≡ (served_gone self.old).context }
        ensures events { events.new ≡ posted_all 4096 events.old (served_gone self.old).events }
    {
        let standing = self.standing(first, 0);
        post(events, self.event(&standing, TRANSACTION_ERROR));
        self.halt();
        PacketResult::Ended(TRANSACTION_ERROR)
    }
}

/// What is told of an act that didn't end the transfer.
fn moved(act: Act, bytes: u32) -> PacketResult
    ensures { (a : Response) → act ≡ act_of a → result ≡ (if is_no_packet (a ∷ []) then Nak else Moved bytes) }
{
    match act {
        Act::Nak => PacketResult::Nak,
        _ => PacketResult::Moved(bytes),
    }
}

/// An event is posted.
pub fn post(events: &mut EventRing, kind: TrbKind)
    requires { length events.old.waits < 4095 }
    ensures { events.new ≡ posted_one 4096 events.old kind }
{
    let _index = events.post(kind);
}
