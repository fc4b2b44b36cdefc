//! The transfers in flight.

ghost use Rattle.std.specs.Prelude.{◌≡◌, ℕ, ◌+◌, ◌<◌, ◌≤◌, ◌++◌, ◌∷◌, [], Some, None, IfOk, IfErr, IfSome, IfNone, IsSome, OnErr, OnOk, option_map, option_copied, length, map, drop, replicate, position, is_none, slice_get, slice_index_or};
ghost use Rattle.std.specs.Borrow.{sem};
ghost use Rattle.std.specs.List.{prefix_len};
ghost use Rattle.std.specs.Option.{option_copied_mut};
ghost use Rattle.std.specs.VecDeque.{deque_capacity};
ghost use Rattle.usb_tables.specs.Store.{count};
ghost use Rattle.usb_tables.specs.TransfersInFlight.{blanked_at, ended_of, is_number, item_at, left_at, line_at, mark_in, with_item, with_last};

use crate::ending::{EndedTransfer, Ending, Waiting};
use crate::lanes::EndpointQueues;
use crate::line::MOST;
use crate::{Mark, Store, Transfer};
use arrayvec::ArrayVec;
use std::alloc::{AllocError, Global};
use std::collections::VecDeque;
use std::marker::Model;
use usb_model::{Ask, DeviceNo, EpAddr};

/// The transfers in flight at the endpoints of at most 4 devices, in lines of at most 16 items, and those that ended and
/// wait to be taken. An item is a transfer, or a blank where its transfer was withdrawn. Contracts see a record of these.
#[derive(Drop)]
pub struct TransfersInFlight<P> {
    lanes: EndpointQueues,
    ended: VecDeque<Waiting>,
    store: Store<P>,
}

impl<P> Model for TransfersInFlight<P> {
    ghost use Rattle.std.specs.Prelude.{◌≤◌};
    ghost use Rattle.std.specs.VecDeque.{deque_capacity};
    ghost use Rattle.usb_tables.specs.Store.{count};
    ghost use Rattle.usb_tables.specs.declared.transfer.Transfer.{Transfer as InFlight};
    ghost use Rattle.usb_tables.specs.TransfersInFlight.{TransfersInFlight as View};
    ghost use Rattle.usb_tables.specs.Places.{Stands, seen_flights};

    ghost Value = { View (InFlight P) };

    ghost view = { λ f. seen_flights f.store f.lanes f.ended.items };

    ghost invariant = { λ f. Stands f.store f.lanes f.ended.items × (count f.store ≤ deque_capacity f.ended) };
}

impl<P> TransfersInFlight<P> {
    ghost use Rattle.usb_tables.specs.Lends.{lends_item};
    ghost use Rattle.usb_tables.specs.declared.transfer.Transfer.{Transfer as InFlight};

    /// No item at any endpoint, and no transfer that ended. The first transfer has key 0.
    pub fn new(alloc: Global) -> Result<TransfersInFlight<P>, AllocError>
        ensures { IfOk result (λ f. f ≡ record { lines = replicate 128 []; keys = replicate 128 []; ended = []; next_key = 0 }) }
    {
        Ok(TransfersInFlight {
            lanes: EndpointQueues::new(alloc)?,
            ended: VecDeque::new(alloc),
            store: Store::new(alloc),
        })
    }

    /// How many items an endpoint's line has, 0 to 16.
    #[inline(always)]
    pub fn len(&self, dev: DeviceNo, ep: EpAddr) -> usize
        ensures value { result ≡ length (line_at self.now dev ep) }
        ensures most { result ≤ 16 }
    {
        self.lanes.line(dev, ep).len()
    }

    /// The transfer at a place of an endpoint's line; None at a blank, and behind the line.
    #[inline(always)]
    pub fn get(&self, dev: DeviceNo, ep: EpAddr, item: usize) -> Option<&Transfer<P>>
        ensures { option_copied result ≡ item_at self.now dev ep item }
    {
        let key = self.lanes.line(dev, ep).get(item)?;
        self.store.get(key)
    }

    /// Where the transfer of this number stands in an endpoint's line: the first place, where there are several.
    pub fn find(&self, dev: DeviceNo, ep: EpAddr, n: u64) -> Option<usize>
        ensures value { result ≡ position (is_number n) (line_at self.now dev ep) }
        ensures within { IfSome result (λ item. item < length (line_at self.now dev ep)) }
    {
        for item in 0..self.len(dev, ep) {
            if self.is_number(dev, ep, item, n) {
                return Some(item);
            }
        }
        None
    }

    /// How many blanks stand together from this place of an endpoint's line on.
    pub fn blanks_from(&self, dev: DeviceNo, ep: EpAddr, item: usize) -> usize
        ensures value { result ≡ prefix_len is_none (drop item (line_at self.now dev ep)) }
        ensures within { item ≤ length (line_at self.now dev ep) → item + result ≤ length (line_at self.now dev ep) }
    {
        let len = self.len(dev, ep);
        for at in item..len {
            if self.get(dev, ep, at).is_some() {
                return at - item;
            }
        }
        len.saturating_sub(item)
    }

    /// What errands read of each item of an endpoint's line.
    pub fn marks(&self, dev: DeviceNo, ep: EpAddr) -> ArrayVec<Mark, MOST>
        ensures { result.items ≡ map mark_in (line_at self.now dev ep) }
    {
        let mut marks = ArrayVec::new();
        for item in 0..self.len(dev, ep) {
            marks.push(self.mark(dev, ep, item));
        }
        marks
    }

    /// Puts a transfer behind an endpoint's line, and gives its key. Hands it back, with nothing changed, where memory is
    /// refused.
    pub fn push(
        &mut self,
        dev: DeviceNo,
        ep: EpAddr,
        transfer: Transfer<P>,
    ) -> Result<usize, Transfer<P>>
        requires { length (line_at self.old dev ep) < 16 }
        ensures key { IfOk result (λ key. key ≡ self.old.next_key) }
        ensures lines { IfOk result (λ key. self.new.lines ≡ (with_last self.old dev ep key transfer).lines) }
        ensures keys { IfOk result (λ key. self.new.keys ≡ (with_last self.old dev ep key transfer).keys) }
        ensures ended { IfOk result (λ _. self.new.ended ≡ self.old.ended) }
        ensures back { IfErr result (λ t. t ≡ transfer) }
        ensures kept { OnErr result (self.new ≡ self.old) }
    {
        if make_room(&mut self.ended, &self.store).is_err() {
            return Err(transfer);
        }
        let key = self.store.insert(transfer)?;
        self.lanes.push(dev, ep, key);
        Ok(key)
    }

    /// The transfer at a place of an endpoint's line ended: it waits to be taken, behind those that ended before, and its
    /// place is a blank. Takes no memory.
    pub fn end(&mut self, dev: DeviceNo, ep: EpAddr, item: usize, ending: Ending)
        requires { IsSome (item_at self.old dev ep item) }
        ensures { (t : InFlight P) → item_at self.old dev ep item ≡ Some t → self.new ≡ record (blanked_at self.old dev ep item) { ended = self.old.ended ++ record { transfer = t; ending = ending } ∷ [] } }
    {
        if let Some(key) = self.lanes.blank(dev, ep, item) {
            self.ended.push_back_reserved(Waiting { key, ending });
        }
    }

    /// So many blanks leave the front of an endpoint's line. Takes no memory.
    pub fn leave(&mut self, dev: DeviceNo, ep: EpAddr, count: usize)
        requires within { count ≤ length (line_at self.old dev ep) }
        requires blank { (item : ℕ) → item < count → item_at self.old dev ep item ≡ None }
        ensures { self.new ≡ left_at self.old dev ep count }
    {
        self.lanes.leave(dev, ep, count);
    }

    /// The transfer at a place of an endpoint's line is asked to end.
    pub fn ask(&mut self, dev: DeviceNo, ep: EpAddr, item: usize, why: Ask)
        requires { IsSome (item_at self.old dev ep item) }
        ensures { (t : InFlight P) → item_at self.old dev ep item ≡ Some t → self.new ≡ with_item self.old dev ep item (Some (record t { ask = Some why })) }
    {
        let Some(key) = self.lanes.line(dev, ep).get(item) else {
            return;
        };
        if let Some(transfer) = self.store.get_mut(key) {
            transfer.ask = Some(why);
        }
    }

    /// The transfer at a place of an endpoint's line moved so many bytes, as was told.
    pub fn pause(&mut self, dev: DeviceNo, ep: EpAddr, item: usize, moved: u32)
        requires { IsSome (item_at self.old dev ep item) }
        ensures { (t : InFlight P) → item_at self.old dev ep item ≡ Some t → self.new ≡ with_item self.old dev ep item (Some (record t { moved = moved })) }
    {
        let Some(key) = self.lanes.line(dev, ep).get(item) else {
            return;
        };
        if let Some(transfer) = self.store.get_mut(key) {
            transfer.moved = moved;
        }
    }

    /// The transfer at a place of an endpoint's line, to be changed; None at a blank, and behind the line.
    #[inline(always)]
    pub fn get_mut(&mut self, dev: DeviceNo, ep: EpAddr, item: usize) -> Option<&mut Transfer<P>>
        ensures* writes_back { sem 𝓛 (lends_item P.row self.entry dev ep item result) }
        ensures value { option_copied_mut result ≡ item_at self.old dev ep item }
    {
        let key = self.lanes.line(dev, ep).get(item)?;
        self.store.get_mut(key)
    }

    /// The transfer of index `i`, from 0 on, of those that ended and wait, the oldest first, and what came of it; None past
    /// the last.
    pub fn ended_at(&self, i: usize) -> Option<(&Transfer<P>, Ending)>
        ensures { option_map (λ x. record { transfer = x.0.now; ending = x.1 }) result ≡ slice_get self.now.ended i }
    {
        let waiting = self.ended.get(i)?;
        let transfer = self.store.get(waiting.key)?;
        Some((transfer, waiting.ending))
    }

    /// The transfer that ended first of those that wait, and what came of it; None where none waits.
    pub fn first_ended(&self) -> Option<(&Transfer<P>, Ending)>
        ensures { option_map (λ x. record { transfer = x.0.now; ending = x.1 }) result ≡ slice_get self.now.ended 0 }
    {
        let first = self.ended.front()?;
        let transfer = self.store.get(first.key)?;
        Some((transfer, first.ending))
    }

    /// Takes the transfer that ended first of those that wait; None where none waits. Its key is the next one.
    pub fn take(&mut self) -> Option<EndedTransfer<P>>
        ensures value { option_map ended_of result ≡ slice_get self.old.ended 0 }
        ensures lines { self.new.lines ≡ self.old.lines }
        ensures keys { self.new.keys ≡ self.old.keys }
        ensures ended { self.new.ended ≡ drop 1 self.old.ended }
        ensures none { IfNone result (self.new ≡ self.old) }
    {
        let first = self.ended.pop_front()?;
        let transfer = self.store.remove(first.key)?;
        Some(EndedTransfer {
            transfer,
            ending: first.ending,
        })
    }

    /// Whether an item is the transfer of this number.
    fn is_number(&self, dev: DeviceNo, ep: EpAddr, item: usize, n: u64) -> bool
        ensures { result ≡ is_number n (item_at self.now dev ep item) }
    {
        match self.get(dev, ep, item) {
            Some(transfer) => transfer.n == n,
            None => false,
        }
    }

    /// What errands read of an item.
    fn mark(&self, dev: DeviceNo, ep: EpAddr, item: usize) -> Mark
        ensures { result ≡ mark_in (item_at self.now dev ep item) }
    {
        match self.get(dev, ep, item) {
            Some(transfer) => Mark {
                blank: false,
                asked: transfer.ask.is_some(),
            },
            None => Mark {
                blank: true,
                asked: false,
            },
        }
    }
}

/// Room among those that ended for all transfers of the store, and one more.
fn make_room<P>(ended: &mut VecDeque<Waiting>, store: &Store<P>) -> Result<(), AllocError>
    requires { length ended.old.items ≤ count store.now }
    ensures items { ended.new.items ≡ ended.old.items }
    ensures room { OnOk result (count store.now + 1 ≤ deque_capacity ended.new) }
    ensures kept { deque_capacity ended.old ≤ deque_capacity ended.new }
{
    let flying = store.len() - ended.len();
    let room = flying.checked_add(1).ok_or(AllocError)?;
    ended.reserve(room)
}
