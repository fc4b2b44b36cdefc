//! A value for each endpoint of each device.

ghost use Rattle.std.specs.Prelude.{◌≡◌, ◌<◌, Some, length, slice_get};
ghost use Rattle.std.specs.Borrow.{sem};
ghost use Rattle.usb_tables.specs.ByEndpoint.{lane_at};

use std::marker::Model;
use usb_model::{DeviceNo, EpAddr};

/// How many endpoints there are: 4 devices have 32 endpoint ids each (xHCI 1.2, 4.5.1).
pub(crate) const ENDPOINTS: usize = 128;

/// A value for each endpoint of each device. Contracts see the list of them, each at its endpoint's lane.
#[derive(Drop)]
pub(crate) struct ByEndpoint<T> {
    values: Vec<T>,
}

impl<T> Model for ByEndpoint<T> {
    ghost use Rattle.std.specs.Prelude.{◌≡◌, List, length};

    ghost Value = { List T };

    ghost view = { λ t. t.values.items };

    ghost invariant = { λ t. length t.values.items ≡ 128 };
}

/// The lane of a device's endpoint.
#[inline(always)]
fn lane_of(dev: DeviceNo, ep: EpAddr) -> usize
    ensures value { result ≡ lane_at dev ep }
    ensures below { result < 128 }
{
    32 * usize::from(dev.number()) + usize::from(ep.id())
}

impl<T> ByEndpoint<T> {
    ghost use Rattle.usb_tables.specs.LendsValue.{lends_value};

    /// These values, each at its lane: 128 of them.
    pub(crate) fn of(values: Vec<T>) -> ByEndpoint<T>
        requires { length values.items ≡ 128 }
        ensures { result ≡ values.items }
    {
        ByEndpoint { values }
    }

    /// The value of an endpoint.
    #[inline(always)]
    pub(crate) fn get(&self, dev: DeviceNo, ep: EpAddr) -> &T
        ensures value { slice_get self.now (lane_at dev ep) ≡ Some result.now }
        ensures whole { length self.now ≡ 128 }
    {
        &self.values[lane_of(dev, ep)]
    }

    /// The value of an endpoint, to be changed.
    #[inline(always)]
    pub(crate) fn get_mut(&mut self, dev: DeviceNo, ep: EpAddr) -> &mut T
        ensures* writes_back { sem 𝓛 (lends_value T.row self.entry dev ep result) }
        ensures value { slice_get self.old (lane_at dev ep) ≡ Some result.now }
        ensures whole { length self.old ≡ 128 }
    {
        &mut self.values[lane_of(dev, ep)]
    }
}
