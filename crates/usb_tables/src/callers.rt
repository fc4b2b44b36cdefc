//! What the core keeps of each name's transfers.

ghost use Rattle.std.specs.Prelude.{◌≡◌, true, false, ℕ, ◌+◌, ◌-◌, ◌<◌, ◌≤◌, ◌==◌, ◌&&◌, None, Some, IfOk, OnOk, option_copied, if◌then◌else◌};
ghost use Rattle.usb_model.specs.Limits.{last_number};
ghost use Rattle.usb_model.specs.Setup.{endpoint_id};
ghost use Rattle.usb_tables.specs.HandleState.{is_one_of};
ghost use Rattle.usb_tables.specs.HandleStates.{number_of, callback_at, results_at, callbacks_at, room_of, has_room, IsOut, is_there, SameNumbers, SameCallbacks, SameResults, SameCounts, SameRooms};

use crate::caller::HandleState;
use std::alloc::{AllocError, Global};
use std::marker::Model;
use usb_model::{EpAddr, InCallback, Name};

/// For each of 64 names the number of its next transfer, and its transfers that are in their callbacks, by number; and for each
/// of its endpoints, by id, how many results wait and how many transfers are in callbacks. Contracts see what each look-up
/// answers.
#[derive(Drop)]
pub struct HandleStates {
    callers: Vec<HandleState>,
}

impl Model for HandleStates {
    ghost use Rattle.std.specs.Prelude.{◌≡◌, List, length};
    ghost use Rattle.usb_tables.specs.HandleState.{Kept};

    ghost Value = { List Kept };

    ghost view = { λ t. t.callers.items };

    ghost invariant = { λ t. length t.callers.items ≡ 64 };
}

impl HandleStates {
    /// Each name's first transfer has number 0; none is in its callback, and no result waits.
    pub fn new(alloc: Global) -> Result<HandleStates, AllocError>
        ensures numbers { IfOk result (λ t. (h : ℕ) → number_of t h ≡ 0) }
        ensures callbacks { IfOk result (λ t. (h n : ℕ) → callback_at t h n ≡ None) }
        ensures results { IfOk result (λ t. (h id : ℕ) → results_at t h id ≡ 0) }
        ensures counts { IfOk result (λ t. (h id : ℕ) → callbacks_at t h id ≡ 0) }
    {
        let mut callers = Vec::with_capacity(alloc, 64)?;
        for _ in 0..64_usize {
            callers.push(HandleState::new(alloc))?;
        }
        Ok(HandleStates { callers })
    }

    /// The number of a name's next transfer.
    pub fn next_number(&self, h: Name) -> u64
        ensures { result ≡ number_of self.now h }
    {
        self.callers[usize::from(h.number())].next_number()
    }

    /// The number of a name's next transfer is one more; at 2^64 - 1 there is none.
    pub fn count_up(&mut self, h: Name)
        requires { number_of self.old h < last_number }
        ensures numbers { (g : ℕ) → number_of self.new g ≡ (if h == g then number_of self.old g + 1 else number_of self.old g) }
        ensures callbacks { SameCallbacks self.old self.new }
        ensures results { SameResults self.old self.new }
        ensures counts { SameCounts self.old self.new }
        ensures rooms { SameRooms self.old self.new }
    {
        let caller = &mut self.callers[usize::from(h.number())];
        caller.count_up();
    }

    /// How many of a name's results wait at an endpoint.
    pub fn results(&self, h: Name, ep: EpAddr) -> usize
        ensures { result ≡ results_at self.now h (endpoint_id ep) }
    {
        self.callers[usize::from(h.number())].results(ep)
    }

    /// How many of a name's transfers are in callbacks at an endpoint.
    pub fn callbacks(&self, h: Name, ep: EpAddr) -> usize
        ensures { result ≡ callbacks_at self.now h (endpoint_id ep) }
    {
        self.callers[usize::from(h.number())].callbacks(ep)
    }

    /// One more of a name's results waits at an endpoint, where fewer than 16 do.
    pub fn result_made(&mut self, h: Name, ep: EpAddr)
        requires { results_at self.old h (endpoint_id ep) < 16 }
        ensures results { (g id : ℕ) → results_at self.new g id ≡
            (if is_there h (endpoint_id ep) g id then results_at self.old g id + 1 else results_at self.old g id) }
        ensures numbers { SameNumbers self.old self.new }
        ensures callbacks { SameCallbacks self.old self.new }
        ensures counts { SameCounts self.old self.new }
        ensures rooms { SameRooms self.old self.new }
    {
        let caller = &mut self.callers[usize::from(h.number())];
        caller.result_made(ep);
    }

    /// One of a name's results at an endpoint was taken; one waits before.
    pub fn result_taken(&mut self, h: Name, ep: EpAddr)
        requires { 0 < results_at self.old h (endpoint_id ep) }
        ensures results { (g id : ℕ) → results_at self.new g id ≡
            (if is_there h (endpoint_id ep) g id then results_at self.old g id - 1 else results_at self.old g id) }
        ensures numbers { SameNumbers self.old self.new }
        ensures callbacks { SameCallbacks self.old self.new }
        ensures counts { SameCounts self.old self.new }
        ensures rooms { SameRooms self.old self.new }
    {
        let caller = &mut self.callers[usize::from(h.number())];
        caller.result_taken(ep);
    }

    /// A name's transfer of this number, where it is in its callback.
    pub fn callback(&self, h: Name, n: u64) -> Option<&InCallback>
        ensures { option_copied result ≡ callback_at self.now h n }
    {
        self.callers[usize::from(h.number())].callback(n)
    }

    /// Whether a transfer of any name is in its callback.
    pub fn is_any_out(&self) -> bool
        ensures some { result ≡ true → IsOut self.now }
        ensures none { result ≡ false → (h n : ℕ) → callback_at self.now h n ≡ None }
    {
        for caller in &self.callers {
            if !caller.has_none_out() {
                return true;
            }
        }
        false
    }

    /// Asks for room for one more of a name's callbacks. No look-up answers otherwise than before, whether there is memory or not.
    pub fn reserve_callback(&mut self, h: Name) -> Result<(), AllocError>
        ensures ok { OnOk result (has_room self.new h) }
        ensures rooms { (g : ℕ) → room_of self.old g ≤ room_of self.new g }
        ensures numbers { SameNumbers self.old self.new }
        ensures callbacks { SameCallbacks self.old self.new }
        ensures results { SameResults self.old self.new }
        ensures counts { SameCounts self.old self.new }
    {
        let caller = &mut self.callers[usize::from(h.number())];
        caller.reserve_callback()
    }

    /// A name's transfer is in its callback; none of its number was, and there is room for it. Takes no memory.
    pub fn put_callback(&mut self, h: Name, x: InCallback)
        requires room { has_room self.old h }
        requires absent { callback_at self.old h x.n ≡ None }
        ensures callbacks { (g k : ℕ) → callback_at self.new g k ≡ (if is_there h x.n g k then Some x else callback_at self.old g k) }
        ensures counts { (g id : ℕ) → callbacks_at self.new g id ≡
            (if is_there h (endpoint_id x.request.ep) g id then callbacks_at self.old g id + 1 else callbacks_at self.old g id) }
        ensures numbers { SameNumbers self.old self.new }
        ensures results { SameResults self.old self.new }
        ensures rooms { (g : ℕ) → room_of self.old g ≤ room_of self.new g + (if h == g then 1 else 0) }
    {
        let caller = &mut self.callers[usize::from(h.number())];
        caller.put_callback(x);
    }

    /// Takes out a name's transfer of this number, where it is in its callback; nothing changes where it isn't.
    pub fn remove_callback(&mut self, h: Name, n: u64) -> Option<InCallback>
        ensures value { result ≡ callback_at self.old h n }
        ensures callbacks { (g k : ℕ) → callback_at self.new g k ≡ (if is_there h n g k then None else callback_at self.old g k) }
        ensures counts { (g id : ℕ) → callbacks_at self.old g id ≡ callbacks_at self.new g id + (if (h == g) && is_one_of id result then 1 else 0) }
        ensures numbers { SameNumbers self.old self.new }
        ensures results { SameResults self.old self.new }
        ensures rooms { (g : ℕ) → room_of self.old g ≤ room_of self.new g }
    {
        let caller = &mut self.callers[usize::from(h.number())];
        caller.remove_callback(n)
    }
}
