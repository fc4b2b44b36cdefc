//! How many TRBs each item has.

ghost use Rattle.std.specs.Prelude.{◌≡◌, ◌+◌, ◌<◌, ◌≤◌, ◌++◌, ◌∷◌, [], ℕ, length, take, drop, get_or, IfOk, IfSome, slice_index};
ghost use Rattle.usb_rings.specs.Line.{capacity};
ghost use Rattle.usb_rings.specs.View.{total, Holds};

use crate::size::CAPACITY;
use std::alloc::{AllocError, Global};
use std::collections::VecDeque;
use std::marker::Model;

/// Numbers, as many as a ring holds TRBs at most, for which there is room from the start. Contracts see the list of them.
#[derive(Drop)]
pub struct Counts {
    items: VecDeque<u8>,
}

impl Model for Counts {
    ghost use Rattle.std.specs.Prelude.{List, ℕ, ◌≤◌};
    ghost use Rattle.std.specs.VecDeque.{deque_capacity};
    ghost use Rattle.usb_rings.specs.Line.{capacity};

    ghost Value = { List ℕ };

    ghost view = { λ q. q.items.items };

    ghost invariant = { λ q. capacity ≤ deque_capacity q.items };
}

impl Counts {
    /// None.
    pub fn new(alloc: Global) -> Result<Counts, AllocError>
        ensures { IfOk result (λ q. q ≡ []) }
    {
        Ok(Counts {
            items: VecDeque::with_capacity(alloc, CAPACITY)?,
        })
    }

    /// How many numbers.
    pub fn len(&self) -> usize
        ensures { result ≡ length self.now }
    {
        self.items.len()
    }

    /// The number of this index.
    pub fn get(&self, i: usize) -> u8
        requires { i < length self.now }
        ensures { result ≡ slice_index self.now i }
    {
        self.items[i]
    }

    /// How many TRBs the items before this one have.
    pub fn before(&self, i: usize) -> usize
        requires item { i ≤ length self.now }
        requires few { total self.now ≤ capacity }
        ensures { result ≡ total (take i self.now) }
    {
        let mut all: usize = 0;
        for k in 0..i {
            all += usize::from(self.get(k));
        }
        all
    }

    /// Which item has a TRB, and which of its TRBs that is, given how many TRBs of items stand before it.
    pub fn holder(&self, ahead: usize) -> Option<(usize, usize)>
        requires { total self.now ≤ capacity }
        ensures found { (i j : ℕ) → i < length self.now → j < get_or self.now i 0 → total (take i self.now) + j ≡ ahead → result ≡ Some (i, j) }
        ensures known { IfSome result (λ x. Holds self.now ahead x.0 x.1) }
    {
        let mut rest = ahead;
        for i in 0..self.len() {
            let count = usize::from(self.get(i));
            if rest < count {
                return Some((i, rest));
            }
            rest -= count;
        }
        None
    }

    /// Puts a number behind all others.
    pub fn push(&mut self, count: u8)
        requires { length self.old < capacity }
        ensures { self.new ≡ self.old ++ count ∷ [] }
    {
        self.items.push_back_reserved(count);
    }

    /// Takes the first number.
    pub fn pop(&mut self) -> u8
        requires { 0 < length self.old }
        ensures { self.old ≡ result ∷ self.new }
    {
        match self.items.pop_front() {
            Some(count) => count,
            None => 0,
        }
    }

    /// Takes the first numbers.
    pub fn drop_front(&mut self, count: usize)
        requires { count ≤ length self.old }
        ensures { self.new ≡ drop count self.old }
    {
        let mut rest = count;
        while rest > 0 {
            let _first = self.pop();
            rest -= 1;
        }
    }

    /// No number is left.
    pub fn clear(&mut self)
        ensures { self.new ≡ [] }
    {
        self.items.clear();
    }
}
