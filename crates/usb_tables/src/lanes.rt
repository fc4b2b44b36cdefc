//! The lines of all endpoints.

ghost use Rattle.std.specs.Prelude.{◌≡◌, ◌<◌, ◌≤◌, ◌++◌, ◌∷◌, [], Some, None, IfOk, length, drop, replicate, slice_index_or, slice_set};
ghost use Rattle.usb_tables.specs.ByEndpoint.{lane_at};
ghost use Rattle.usb_tables.specs.TransfersInFlight.{keys_at, with_keys};

use crate::by_endpoint::{ByEndpoint, ENDPOINTS};
use crate::line::Line;
use std::alloc::{AllocError, Global};
use std::marker::Model;
use usb_model::{DeviceNo, EpAddr};

/// The line of each endpoint, by its lane, 0 to 127. Contracts see the list of them.
#[derive(Drop)]
pub(crate) struct EndpointQueues {
    lines: ByEndpoint<Line>,
}

impl Model for EndpointQueues {
    ghost use Rattle.std.specs.Prelude.{ℕ, List, Option};

    ghost Value = { List (List (Option ℕ)) };

    ghost view = { λ l. l.lines };
}

impl EndpointQueues {
    /// No item at any endpoint.
    pub(crate) fn new(alloc: Global) -> Result<EndpointQueues, AllocError>
        ensures { IfOk result (λ l. l ≡ replicate 128 []) }
    {
        let mut lines = Vec::with_capacity(alloc, ENDPOINTS)?;
        for _ in 0..ENDPOINTS {
            lines.push_reserved(Line::new(alloc)?);
        }
        Ok(EndpointQueues {
            lines: ByEndpoint::of(lines),
        })
    }

    /// The line of an endpoint.
    #[inline(always)]
    pub(crate) fn line(&self, dev: DeviceNo, ep: EpAddr) -> &Line
        ensures value { result.now ≡ keys_at self.now dev ep }
        ensures lane { lane_at dev ep < length self.now }
    {
        self.lines.get(dev, ep)
    }

    /// Puts a key behind all others of a line. Takes no memory.
    pub(crate) fn push(&mut self, dev: DeviceNo, ep: EpAddr, key: usize)
        requires { length (keys_at self.old dev ep) < 16 }
        ensures value { self.new ≡ with_keys self.old dev ep (keys_at self.old dev ep ++ Some key ∷ []) }
        ensures lane { lane_at dev ep < length self.old }
    {
        self.lines.get_mut(dev, ep).push(key);
    }

    /// Makes an item a blank, and gives the key that it had.
    pub(crate) fn blank(&mut self, dev: DeviceNo, ep: EpAddr, item: usize) -> Option<usize>
        ensures key { result ≡ slice_index_or (keys_at self.old dev ep) item None }
        ensures line { self.new ≡ with_keys self.old dev ep (slice_set (keys_at self.old dev ep) item None) }
        ensures lane { lane_at dev ep < length self.old }
    {
        self.lines.get_mut(dev, ep).blank(item)
    }

    /// Takes so many items from the front of a line.
    pub(crate) fn leave(&mut self, dev: DeviceNo, ep: EpAddr, count: usize)
        requires { count ≤ length (keys_at self.old dev ep) }
        ensures value { self.new ≡ with_keys self.old dev ep (drop count (keys_at self.old dev ep)) }
        ensures lane { lane_at dev ep < length self.old }
    {
        self.lines.get_mut(dev, ep).leave(count);
    }
}
