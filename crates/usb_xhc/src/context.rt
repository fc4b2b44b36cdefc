//! An endpoint as the controller keeps it.

ghost use Rattle.std.specs.Prelude.{◌≡◌, ◌+◌, ◌*◌, ◌<◌, ◌≤◌, ◌^◌, None, Some, length, suc, IfOk, IfSome, is_some};
ghost use Rattle.usb_model.specs.declared.endpoint.EndpointState.TheVariants.{Running, Stopped, Halted};
ghost use Rattle.usb_rings.specs.Line.{capacity, normals, used};
ghost use Rattle.usb_xhc.specs.Ahead.{Reaches, room};
ghost use Rattle.usb_xhc.specs.Context.{Context, configured, trbs, stand_by, event_by, gone_on, gone_past};
ghost use Rattle.usb_xhc.specs.Transaction.{trb_at, working};
ghost use Rattle.usb_xhc.specs.Commands.{before, moved_at};
ghost use Rattle.usb_xhc.specs.Host.{rung, with_ring, with_pushed, with_blank, without_first};
ghost use Rattle.usb_xhc.specs.Skims.{skipped};

use crate::outcome::Reach;
use crate::trb_at::TrbAt;
use std::alloc::{AllocError, Global};
use std::marker::Model;
use usb_model::EndpointState;
use usb_rings::TransferRing;
use usb_trb::{EndpointId, Normal, Pointer, Residual, Slot, TrbKind};

/// An endpoint: the state of its context (Endpoint Context; xHCI 1.2, 6.2.3), its transfer ring, and how far the transfer
/// at dequeue has come. Contracts see a record of these.
#[derive(Drop)]
pub struct EndpointContext {
    ring: TransferRing,
    /// The bytes of the TRB at dequeue that moved.
    within: u32,
    size: u16,
    state: EndpointState,
    /// Whether any byte of the transfer at dequeue moved.
    begun: bool,
    slot: Slot,
    id: EndpointId,
}

impl Model for EndpointContext {
    ghost use Rattle.std.specs.Prelude.{◌≤◌};
    ghost use Rattle.usb_xhc.specs.Context.{Context};

    ghost Value = { Context };

    ghost view = { λ c. record { slot = c.slot; id = c.id; size = c.size; state = c.state; within = c.within; begun = c.begun; ring = c.ring } };

    ghost invariant = { λ c. c.within ≤ 65536 };
}

/// Where a transfer stands some bytes on: which TRB from dequeue on, and how many of its bytes moved.
#[derive(Clone, Copy, PartialEq, Eq, Debug)]
pub(crate) struct TrbPosition {
    pub(crate) at: TrbAt,
    pub(crate) index: usize,
    pub(crate) within: u32,
}

impl EndpointContext {
    /// An endpoint as it is configured: it runs, and its ring, whose first TRB has this address, is empty. `size` is the
    /// bytes of a whole packet.
    pub fn new(
        alloc: Global,
        slot: Slot,
        id: EndpointId,
        size: u16,
        base: Pointer,
    ) -> Result<EndpointContext, AllocError>
        requires { base + 2048 ≤ 2 ^ 64 }
        ensures { IfOk result (λ c. c ≡ configured slot id size base) }
    {
        Ok(EndpointContext {
            ring: TransferRing::new(alloc, base)?,
            within: 0,
            size,
            state: EndpointState::Running,
            begun: false,
            slot,
            id,
        })
    }

    /// The TRB behind this one of the transfer at dequeue, before which so many stand.
    fn next(&self, at: &TrbAt, index: usize) -> Option<TrbAt>
        requires at { trb_at self.now index ≡ Some at.now }
        requires few { index ≤ 126 }
        ensures value { result ≡ trb_at self.now (suc index) }
        ensures below { IfSome result (λ _. index < 125) }
    {
        if at.trb.done {
            return None;
        }
        TrbAt::placed(self.ring.ahead(index + 1))
    }

    /// The first TRB of the transfer at dequeue. Inlined, as `working` is, so that what was read needn't stand in memory.
    #[inline(always)]
    pub(crate) fn first(&self) -> Option<TrbAt>
        ensures { result ≡ trb_at self.now 0 }
    {
        TrbAt::placed(self.ring.ahead(0))
    }

    /// The first TRB of the transfer at dequeue, where the endpoint is running.
    #[inline(always)]
    pub fn working(&self) -> Option<TrbAt>
        ensures { result ≡ working self.now }
    {
        if self.state == EndpointState::Running {
            self.first()
        } else {
            None
        }
    }

    /// How far the bytes reach behind this first TRB, as far as a packet needs it.
    pub fn reach(&self, first: &TrbAt) -> Reach
        requires { trb_at self.now 0 ≡ Some first.now }
        ensures { Reaches self.now.size (trbs self.now) self.now.within result.room result.extra }
    {
        let wanted = self.within + u32::from(self.size);
        let mut at = *first;
        let mut index = 0;
        let mut sum = at.bytes();
        let mut extra = false;
        while sum <= wanted {
            let Some(next) = self.next(&at, index) else {
                break;
            };
            extra = extra || !at.trb.chain;
            at = next;
            index += 1;
            sum += at.bytes();
        }
        Reach {
            room: sum.saturating_sub(self.within),
            extra,
        }
    }

    /// Where the transfer stands so many bytes on, which it has left.
    pub(crate) fn standing(&self, first: &TrbAt, count: u32) -> TrbPosition
        requires some { trb_at self.now 0 ≡ Some first.now }
        requires few { count < 65536 }
        requires left { count ≤ room (trbs self.now) self.now.within }
        ensures stands { record { index = result.index; within = result.within } ≡ stand_by self.now count }
        ensures at { trb_at self.now result.index ≡ Some result.at }
        ensures within { result.within ≤ 65536 }
    {
        let mut at = *first;
        let mut index = 0;
        let mut within = self.within + count;
        while within >= at.bytes() {
            let Some(next) = self.next(&at, index) else {
                break;
            };
            within -= at.bytes();
            at = next;
            index += 1;
        }
        TrbPosition { at, index, within }
    }

    /// How many TRBs the transfer at dequeue has from there on.
    fn count(&self, first: &TrbAt) -> usize
        requires { trb_at self.now 0 ≡ Some first.now }
        ensures { result ≡ length (trbs self.now) }
    {
        let mut at = *first;
        let mut index = 0;
        while let Some(next) = self.next(&at, index) {
            at = next;
            index += 1;
        }
        index + 1
    }

    /// The event of the TRB where the transfer stands.
    pub(crate) fn event(&self, standing: &TrbPosition, code: u8) -> TrbKind
        requires { trb_at self.now standing.now.index ≡ Some standing.now.at }
        ensures { result ≡ event_by self.now (record { index = standing.now.index; within = standing.now.within }) code }
    {
        TrbKind::TransferEvent {
            pointer: standing.at.pointer,
            residual: Residual::low(standing.at.bytes().saturating_sub(standing.within)),
            code,
            slot: self.slot,
            id: self.id,
        }
    }

    /// So many bytes moved, and the transfer stands there.
    pub(crate) fn go_on(&mut self, standing: &TrbPosition, count: u32)
        requires at { trb_at self.old standing.now.index ≡ Some standing.now.at }
        requires stands { record { index = standing.now.index; within = standing.now.within } ≡ stand_by self.old count }
        requires few { standing.now.within ≤ 65536 }
        ensures { self.new ≡ gone_on self.old count }
    {
        self.ring.pass(standing.index);
        self.within = standing.within;
        self.begun = self.begun || count > 0;
    }

    /// How many whole packets leave at least a byte of the TRB at dequeue, which is this; none where a packet has no bytes.
    pub(crate) fn whole_within(&self, first: &TrbAt) -> usize
        ensures some { 0 < result → 0 < self.now.size }
        ensures fits { 0 < result → self.now.within + result * self.now.size < first.now.trb.length }
    {
        let size = u32::from(self.size);
        if size == 0 {
            return 0;
        }
        let left = first.bytes().saturating_sub(self.within);
        (left.saturating_sub(1) / size) as usize
    }

    /// So many whole packets moved inside the TRB at dequeue: dequeue goes past no TRB.
    pub(crate) fn skip(&mut self, count: usize)
        requires some { 0 < self.old.size }
        requires fits { self.old.within + count * self.old.size ≤ 65536 }
        ensures { self.new ≡ skipped self.old count }
    {
        if count > 0 {
            self.ring.pass(0);
            self.within += count as u32 * u32::from(self.size);
            self.begun = true;
        }
    }

    /// Past the transfer at dequeue, and the No Ops behind it.
    pub(crate) fn go_past(&mut self, first: &TrbAt)
        requires { trb_at self.old 0 ≡ Some first.now }
        ensures { self.new ≡ gone_past self.old }
    {
        let count = self.count(first);
        self.ring.pass(count - 1);
        self.ring.advance();
        self.within = 0;
        self.begun = false;
    }

    /// The slot of its device.
    pub fn slot(&self) -> Slot
        ensures { result ≡ self.now.slot }
    {
        self.slot
    }

    /// Its number among its device's endpoints, 1 to 31 (Device Context Index; xHCI 1.2, 4.5.1).
    pub fn id(&self) -> EndpointId
        ensures { result ≡ self.now.id }
    {
        self.id
    }

    /// The bytes of a whole packet.
    pub fn size(&self) -> u16
        ensures { result ≡ self.now.size }
    {
        self.size
    }

    /// The bytes of the TRB at dequeue that moved.
    pub(crate) fn within(&self) -> u32
        ensures value { result ≡ self.now.within }
        ensures below { result ≤ 65536 }
    {
        self.within
    }

    /// It halts.
    pub(crate) fn halt(&mut self)
        ensures { self.new ≡ record self.old { state = Halted } }
    {
        self.state = EndpointState::Halted;
    }

    /// Its state (xHCI 1.2, 4.8.3).
    pub fn state(&self) -> EndpointState
        ensures { result ≡ self.now.state }
    {
        self.state
    }

    /// Whether any byte of the transfer at dequeue moved.
    pub(crate) fn is_begun(&self) -> bool
        ensures { result ≡ self.now.begun }
    {
        self.begun
    }

    /// It is stopped.
    pub(crate) fn be_stopped(&mut self)
        ensures { self.new ≡ record self.old { state = Stopped } }
    {
        self.state = EndpointState::Stopped;
    }

    /// Its doorbell is rung: it runs where it was stopped. A halted endpoint ignores it (xHCI 1.2, 4.7, 4.8.3).
    pub fn ring_doorbell(&mut self)
        ensures { self.new ≡ rung self.old }
    {
        if self.state == EndpointState::Stopped {
            self.state = EndpointState::Running;
        }
    }

    /// Dequeue goes to the TRB of an item at this address, or to enqueue, and a transfer begins there; false, and nothing
    /// changes, where the address is neither.
    pub(crate) fn set_dequeue(&mut self, pointer: Pointer) -> bool
        ensures found { result ≡ is_some (before self.old.ring.line pointer) }
        ensures context { self.new ≡ (moved_at self.old (before self.old.ring.line pointer)).context }
    {
        let found = self.ring.set_dequeue(pointer);
        if found {
            self.within = 0;
            self.begun = false;
        }
        found
    }

    /// It is as it was configured.
    pub fn renew(&mut self)
        ensures { self.new ≡ configured self.old.slot self.old.id self.old.size self.old.ring.line.base }
    {
        self.ring.renew();
        self.within = 0;
        self.begun = false;
        self.state = EndpointState::Running;
    }

    /// Its transfer ring.
    pub fn ring(&self) -> &TransferRing
        ensures { result.now ≡ self.now.ring }
    {
        &self.ring
    }

    /// A transfer's TRBs are put behind all others of its ring, as one item.
    pub fn push(&mut self, trbs: &[Normal])
        requires some { 0 < length trbs.now }
        requires room { used self.old.ring.line + length trbs.now ≤ capacity }
        ensures { self.new ≡ with_ring self.old (with_pushed self.old.ring (normals trbs.now)) }
    {
        self.ring.push(trbs);
    }

    /// Each TRB of an item becomes a No Op.
    pub fn blank(&mut self, item: usize)
        requires { item < length self.old.ring.line.items }
        ensures { self.new ≡ with_ring self.old (with_blank self.old.ring item) }
    {
        self.ring.blank(item);
    }

    /// The first items leave the line.
    pub fn drop_front(&mut self, count: usize)
        requires { count ≤ length self.old.ring.line.items }
        ensures { self.new ≡ with_ring self.old (without_first self.old.ring count) }
    {
        self.ring.drop_front(count);
    }
}
