//! What lasts: transfers with their callbacks, orders, events; and how many places of an endpoint are taken.

use crate::lane::Lane;
use crate::words::Words;

/// Something that lasts: a transfer and then its callback, an order or an event.
#[derive(Clone, Copy)]
pub struct Bar {
    /// Its lane.
    pub lane: Lane,
    /// What it is.
    pub name: Words,
    /// The column in which it begins.
    pub from: u64,
    /// The column in which a transfer's callback is called, once it is.
    pub called: Option<u64>,
    /// The column in which it ends; None while it lasts.
    pub to: Option<u64>,
}

/// A time in which as many places of an endpoint are taken.
#[derive(Clone, Copy)]
pub struct Fill {
    /// The endpoint's lane.
    pub lane: Lane,
    /// How many places are taken.
    pub count: u64,
    /// The column in which it begins.
    pub from: u64,
    /// The column in which it ends; None while it lasts.
    pub to: Option<u64>,
}

/// What happens to a bar in some columns.
#[derive(Clone, Copy, PartialEq, Eq)]
pub enum Course {
    /// It isn't seen there.
    Elsewhere,
    /// It begins there, ends, or its callback is called.
    Changes,
    /// It goes all through them.
    Lasts,
    /// It goes all through them while its callback runs.
    Runs,
}

/// Whether what ends in one column, if it does, lasts at another.
fn lasts_at(to: Option<u64>, column: u64) -> bool {
    match to {
        Some(to) => to >= column,
        None => true,
    }
}

impl Bar {
    /// Whether it is seen in the columns from one on, and before another.
    pub fn is_in(&self, first: u64, end: u64) -> bool {
        self.from < end && lasts_at(self.to, first)
    }

    /// What happens to it in these columns, in all of which it is seen or not.
    pub fn course(&self, first: u64, end: u64) -> Course {
        if !self.is_in(first, end) {
            return Course::Elsewhere;
        }
        if first <= self.from || !lasts_at(self.to, end) {
            return Course::Changes;
        }
        match self.called {
            None => Course::Lasts,
            Some(called) if called < first => Course::Runs,
            Some(called) if called >= end => Course::Lasts,
            Some(_) => Course::Changes,
        }
    }
}

impl Fill {
    /// Whether it is seen in the columns from one on, and before another.
    pub fn is_in(&self, first: u64, end: u64) -> bool {
        self.count > 0 && self.from < end && lasts_at(self.to, first)
    }
}
