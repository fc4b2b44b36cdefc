//! A transfer in the line of its endpoint.

ghost use Rattle.std.specs.Prelude.{◌≡◌, ◌==◌, ◌||◌, ◌&&◌, not, is_some};
ghost use Rattle.usb_model.specs.Endpoint.{new_item, is_waiting, is_blank, is_transfer};
ghost use Rattle.usb_model.specs.Endpoint.Deliver.{is_withdrawn};

use crate::request::Request;
use crate::share::Share;
use std::alloc::Global;

/// Where a transfer stands in its line.
#[derive(Clone, Copy, PartialEq, Eq, Debug)]
pub enum ItemState {
    /// The device may still use it.
    Waiting,
    /// It ended with this completion code (xHCI 1.2, 6.4.5); its event isn't handled yet.
    Served(u8),
    /// It was withdrawn; its place in the line is left.
    Blank,
}

/// Why a transfer was asked to end.
#[derive(Clone, Copy, PartialEq, Eq, Debug)]
pub enum Ask {
    /// It was cancelled.
    Cancel,
    /// Its time was over.
    Time,
}

/// A transfer in the line of its endpoint.
#[derive(Debug, Drop)]
pub struct Item {
    /// Its number, of its handle.
    pub n: u64,
    /// What was asked.
    pub request: Request,
    /// How often it was submitted before.
    pub round: u64,
    /// The answers of the device that it took.
    pub share: Share,
    /// Where it stands.
    pub state: ItemState,
    /// The first ask that it end, if there was one.
    pub ask: Option<Ask>,
}

impl Item {
    /// A transfer as it joins the line.
    pub fn new(alloc: Global, n: u64, request: Request, round: u64) -> Item
        ensures { result ≡ new_item n request round }
    {
        Item {
            n,
            request,
            round,
            share: Share::new(alloc),
            state: ItemState::Waiting,
            ask: None,
        }
    }

    /// Whether the device may still use it.
    pub fn is_waiting(&self) -> bool
        ensures { result ≡ is_waiting self.now }
    {
        matches!(self.state, ItemState::Waiting)
    }

    /// Whether it was withdrawn.
    pub fn is_blank(&self) -> bool
        ensures { result ≡ is_blank self.now }
    {
        matches!(self.state, ItemState::Blank)
    }

    /// Whether it is the transfer of this number, in progress.
    pub fn is_transfer(&self, n: u64) -> bool
        ensures { result ≡ is_transfer n self.now }
    {
        self.n == n && !self.is_blank()
    }

    /// Whether it was asked to end, and the device may no more use it once the endpoint stands.
    pub fn is_withdrawn(&self) -> bool
        ensures { result ≡ is_withdrawn self.now }
    {
        self.is_waiting() && self.ask.is_some()
    }

    /// Whether it may be asked to end: it wasn't yet, and the end of its time can come only if it has one.
    pub fn may_be_asked(&self, timed: bool) -> bool
        ensures { result ≡ not (is_some self.now.ask || (timed && (self.now.request.timeout == 0))) }
    {
        if self.ask.is_some() {
            return false;
        }
        !timed || self.request.timeout != 0
    }
}
