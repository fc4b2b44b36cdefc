//! The line of an endpoint.

ghost use Rattle.std.specs.Prelude.{◌≡◌, ◌<◌, ◌≤◌, ◌++◌, ◌∷◌, [], Some, None, IfOk, length, drop, slice_index_or, slice_set};

use std::alloc::{AllocError, Global};
use std::collections::VecDeque;
use std::marker::Model;

/// The most items of a line.
pub(crate) const MOST: usize = 16;

/// At most 16 items, for which there is room from the start: of each the key of its transfer, or none where it is a blank.
/// Contracts see the list of them.
#[derive(Drop)]
pub(crate) struct Line {
    keys: VecDeque<Option<usize>>,
}

impl Model for Line {
    ghost use Rattle.std.specs.Prelude.{ℕ, List, Option, ◌≤◌, length};
    ghost use Rattle.std.specs.VecDeque.{deque_capacity};

    ghost Value = { List (Option ℕ) };

    ghost view = { λ l. l.keys.items };

    ghost invariant = { λ l. (length l.keys.items ≤ 16) × (16 ≤ deque_capacity l.keys) };
}

impl Line {
    /// No item.
    pub(crate) fn new(alloc: Global) -> Result<Line, AllocError>
        ensures { IfOk result (λ l. l ≡ []) }
    {
        Ok(Line {
            keys: VecDeque::with_capacity(alloc, MOST)?,
        })
    }

    /// How many items, 0 to 16.
    #[inline(always)]
    pub(crate) fn len(&self) -> usize
        ensures value { result ≡ length self.now }
        ensures most { result ≤ 16 }
    {
        self.keys.len()
    }

    /// The key of an item; None where it is a blank, or behind the line.
    #[inline(always)]
    pub(crate) fn get(&self, item: usize) -> Option<usize>
        ensures { result ≡ slice_index_or self.now item None }
    {
        *self.keys.get(item)?
    }

    /// Puts a key behind all others. Takes no memory.
    pub(crate) fn push(&mut self, key: usize)
        requires { length self.old < 16 }
        ensures { self.new ≡ self.old ++ Some key ∷ [] }
    {
        self.keys.push_back_reserved(Some(key));
    }

    /// Makes an item a blank, and gives the key that it had.
    pub(crate) fn blank(&mut self, item: usize) -> Option<usize>
        ensures key { result ≡ slice_index_or self.old item None }
        ensures line { self.new ≡ slice_set self.old item None }
    {
        self.keys.get_mut(item)?.take()
    }

    /// Takes so many items from the front.
    pub(crate) fn leave(&mut self, count: usize)
        requires { count ≤ length self.old }
        ensures { self.new ≡ drop count self.old }
    {
        for _ in 0..count {
            let _first = self.keys.pop_front();
        }
    }
}
