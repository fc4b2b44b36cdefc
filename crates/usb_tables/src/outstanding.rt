//! The errands that are outstanding at each endpoint of each device.

ghost use Rattle.std.specs.Prelude.{◌≡◌, ℕ, IfOk, None, length, slice_set};
ghost use Rattle.usb_tables.specs.ByEndpoint.{lane_at};
ghost use Rattle.usb_tables.specs.Outstanding.{sent_at};

use crate::by_endpoint::{ByEndpoint, ENDPOINTS};
use std::alloc::{AllocError, Global};
use std::marker::Model;
use usb_model::{DeviceNo, EpAddr, Errand};

/// An errand that is outstanding.
#[derive(Clone, Copy, PartialEq, Eq, Debug)]
pub struct Sent {
    /// What the controller was asked to do.
    pub errand: Errand,
    /// The index of its order in the command ring, 0 to 254.
    pub index: usize,
}

/// The errand that is outstanding, or none, for each device, 0 to 3, and each endpoint id, 0 to 31 (xHCI 1.2, 4.5.1);
/// contracts see the list of them, and read it by `sent_at`.
#[derive(Drop)]
pub struct Outstanding {
    errands: ByEndpoint<Option<Sent>>,
}

impl Model for Outstanding {
    ghost use Rattle.std.specs.Prelude.{List, Option};
    ghost use Rattle.usb_tables.specs.declared.outstanding.Sent.{Sent};

    ghost Value = { List (Option Sent) };

    ghost view = { λ t. t.errands };
}

impl Outstanding {
    /// No errand is outstanding.
    pub fn new(alloc: Global) -> Result<Outstanding, AllocError>
        ensures none { IfOk result (λ t. (d e : ℕ) → sent_at t d e ≡ None) }
        ensures whole { IfOk result (λ t. length t ≡ 128) }
    {
        let mut errands = Vec::with_capacity(alloc, ENDPOINTS)?;
        for _ in 0..ENDPOINTS {
            errands.push(None)?;
        }
        Ok(Outstanding {
            errands: ByEndpoint::of(errands),
        })
    }

    /// The errand that is outstanding at a device's endpoint.
    #[inline(always)]
    pub fn get(&self, dev: DeviceNo, ep: EpAddr) -> Option<Sent>
        ensures { result ≡ sent_at self.now dev ep }
    {
        *self.errands.get(dev, ep)
    }

    /// This errand is outstanding at a device's endpoint, or none.
    pub fn set(&mut self, dev: DeviceNo, ep: EpAddr, sent: Option<Sent>)
        ensures written { self.new ≡ slice_set self.old (lane_at dev ep) sent }
        ensures found { sent_at self.new dev ep ≡ sent }
        ensures whole { length self.new ≡ 128 }
    {
        *self.errands.get_mut(dev, ep) = sent;
    }
}
