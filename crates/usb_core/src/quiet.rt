//! Whether something is under way at an endpoint.

ghost use Rattle.std.specs.Prelude.{◌≡◌};
ghost use Rattle.refine_core.specs.Handles.{AreQuiet, IsQuiet, is_among, rests_at};

use crate::parts::Parts;
use usb_device::Device;
use usb_model::{DeviceNo, EndpointInfo, EpAddr, Name};

impl<P, D: Device> Parts<P, D> {
    /// Whether each of the name's endpoints of its device is quiet, or of one interface.
    pub(crate) fn are_quiet(&self, h: Name, dev: DeviceNo, among: Option<u8>) -> bool
        ensures { AreQuiet self.now h dev among result }
    {
        let Some(config) = self.claims.config(dev) else {
            return true;
        };
        for info in config.endpoints() {
            if is_among(among, info) && !self.is_quiet(h, dev, info.address) {
                return false;
            }
        }
        true
    }

    /// Whether an endpoint is quiet, if it is the name's: no transfer is in its line, no errand is outstanding, no
    /// result of it waits, and none of its transfers is in a callback.
    pub(crate) fn is_quiet(&self, h: Name, dev: DeviceNo, ep: EpAddr) -> bool
        ensures { IsQuiet self.now h dev ep result }
    {
        if !h.is_its(self.claims.holder(dev, ep)) {
            return true;
        }
        self.rests_at(h, dev, ep)
    }

    /// Whether nothing of the name is under way at an endpoint.
    fn rests_at(&self, h: Name, dev: DeviceNo, ep: EpAddr) -> bool
        ensures { result ≡ rests_at self.now h dev ep }
    {
        self.flights.len(dev, ep) == 0
            && self.outstanding.get(dev, ep).is_none()
            && self.callers.results(h, ep) == 0
            && self.callers.callbacks(h, ep) == 0
    }
}

/// Whether an endpoint is of this interface, where one is asked for.
fn is_among(among: Option<u8>, info: &EndpointInfo) -> bool
    ensures { result ≡ is_among among info.now }
{
    match among {
        Some(i) => info.interface == i,
        None => true,
    }
}
