//! What the core keeps of one name's transfers.

ghost use Rattle.std.specs.Prelude.{◌≡◌, ◌↔◌, ℕ, [], IsTrue, ◌+◌, ◌-◌, ◌<◌, ◌≤◌, ◌==◌, None, Some, OnOk, option_copied, if◌then◌else◌};
ghost use Rattle.usb_model.specs.Limits.{last_number};
ghost use Rattle.usb_model.specs.Setup.{endpoint_id};
ghost use Rattle.usb_tables.specs.HandleState.{callback_in, callbacks_in, results_in, is_of, is_one_of};

use std::alloc::{AllocError, Global};
use std::collections::HashMap;
use std::marker::Model;
use usb_model::{EpAddr, InCallback};

/// The number of a name's next transfer, its transfers that are in their callbacks, by number, and by endpoint id (0 to 31)
/// how many of its results wait and how many of its transfers are in callbacks. Contracts see the record of these.
#[derive(Drop)]
pub struct HandleState {
    next_number: u64,
    results: [usize; 32],
    callbacks: [usize; 32],
    running: HashMap<u64, InCallback>,
}

impl Model for HandleState {
    ghost use Rattle.std.specs.HashMap.{spare};
    ghost use Rattle.usb_tables.specs.HandleState.{AreCounted, Kept};

    ghost Value = { Kept };

    ghost view = { λ c. record {
      next_number = c.next_number;
      results = c.results;
      callbacks = c.callbacks;
      running = c.running.entries;
      room = spare c.running;
    } };

    ghost invariant = { λ c. AreCounted c.callbacks c.running.entries };
}

/// The endpoint id of a transfer, 0 to 31.
fn id_of(x: &InCallback) -> usize
    ensures value { result ≡ endpoint_id x.now.request.ep }
    ensures below { result < 32 }
{
    usize::from(x.request.ep.id())
}

impl HandleState {
    /// The first transfer has number 0; none is in its callback, and no result waits. Takes no memory.
    pub fn new(alloc: Global) -> HandleState
        ensures number { result.next_number ≡ 0 }
        ensures results { (id : ℕ) → results_in result id ≡ 0 }
        ensures callbacks { (n : ℕ) → callback_in result n ≡ None }
        ensures counts { (id : ℕ) → callbacks_in result id ≡ 0 }
    {
        HandleState {
            next_number: 0,
            results: [0; 32],
            callbacks: [0; 32],
            running: HashMap::new(alloc),
        }
    }

    /// The number of its next transfer.
    pub fn next_number(&self) -> u64
        ensures { result ≡ self.now.next_number }
    {
        self.next_number
    }

    /// The next transfer's number is one more.
    pub fn count_up(&mut self)
        requires { self.old.next_number < last_number }
        ensures { self.new ≡ record self.old { next_number = self.old.next_number + 1 } }
    {
        self.next_number += 1;
    }

    /// How many results of an endpoint wait.
    pub fn results(&self, ep: EpAddr) -> usize
        ensures { result ≡ results_in self.now (endpoint_id ep) }
    {
        self.results[usize::from(ep.id())]
    }

    /// How many transfers of an endpoint are in callbacks.
    pub fn callbacks(&self, ep: EpAddr) -> usize
        ensures { result ≡ callbacks_in self.now (endpoint_id ep) }
    {
        self.callbacks[usize::from(ep.id())]
    }

    /// One more result of an endpoint waits, where fewer than 16 do.
    pub fn result_made(&mut self, ep: EpAddr)
        requires { results_in self.old (endpoint_id ep) < 16 }
        ensures results { (id : ℕ) → results_in self.new id ≡ (if endpoint_id ep == id then results_in self.old id + 1 else results_in self.old id) }
        ensures rest { self.new ≡ record self.old { results = self.new.results } }
    {
        self.results[usize::from(ep.id())] += 1;
    }

    /// A result of an endpoint was taken; one waits before.
    pub fn result_taken(&mut self, ep: EpAddr)
        requires { 0 < results_in self.old (endpoint_id ep) }
        ensures results { (id : ℕ) → results_in self.new id ≡ (if endpoint_id ep == id then results_in self.old id - 1 else results_in self.old id) }
        ensures rest { self.new ≡ record self.old { results = self.new.results } }
    {
        self.results[usize::from(ep.id())] -= 1;
    }

    /// The transfer of this number, where it is in its callback.
    pub fn callback(&self, n: u64) -> Option<&InCallback>
        ensures { option_copied result ≡ callback_in self.now n }
    {
        self.running.get(&n)
    }

    /// Whether none of its transfers is in its callback.
    pub fn has_none_out(&self) -> bool
        ensures { IsTrue result ↔ (self.now.running ≡ []) }
    {
        self.running.is_empty()
    }

    /// Asks for room for one more callback.
    pub fn reserve_callback(&mut self) -> Result<(), AllocError>
        ensures ok { OnOk result (0 < self.new.room) }
        ensures room { self.old.room ≤ self.new.room }
        ensures number { self.new.next_number ≡ self.old.next_number }
        ensures callbacks { (k : ℕ) → callback_in self.new k ≡ callback_in self.old k }
        ensures results { self.new.results ≡ self.old.results }
        ensures counts { self.new.callbacks ≡ self.old.callbacks }
    {
        self.running.reserve(1)
    }

    /// A transfer is in its callback; none of its number was, and there is room for it. Takes no memory.
    pub fn put_callback(&mut self, x: InCallback)
        requires room { 0 < self.old.room }
        requires absent { callback_in self.old x.n ≡ None }
        ensures callbacks { (k : ℕ) → callback_in self.new k ≡ (if x.n == k then Some x else callback_in self.old k) }
        ensures counts { (id : ℕ) → callbacks_in self.new id ≡ (if is_of id x then callbacks_in self.old id + 1 else callbacks_in self.old id) }
        ensures number { self.new.next_number ≡ self.old.next_number }
        ensures results { self.new.results ≡ self.old.results }
        ensures room { self.old.room ≤ self.new.room + 1 }
    {
        let (id, n) = (id_of(&x), x.n);
        // There is room, so that this can't fail.
        let _ = self.running.insert(n, x);
        // No count is over this, so that one more fits.
        let _most = self.running.len();
        self.callbacks[id] += 1;
    }

    /// Takes out the transfer of this number, where it is in its callback; nothing changes where it isn't.
    pub fn remove_callback(&mut self, n: u64) -> Option<InCallback>
        ensures value { result ≡ callback_in self.old n }
        ensures callbacks { (k : ℕ) → callback_in self.new k ≡ (if n == k then None else callback_in self.old k) }
        ensures counts { (id : ℕ) → callbacks_in self.old id ≡ callbacks_in self.new id + (if is_one_of id result then 1 else 0) }
        ensures number { self.new.next_number ≡ self.old.next_number }
        ensures results { self.new.results ≡ self.old.results }
        ensures room { self.old.room ≤ self.new.room }
    {
        let x = self.running.remove(&n)?;
        self.callbacks[id_of(&x)] -= 1;
        Some(x)
    }
}
