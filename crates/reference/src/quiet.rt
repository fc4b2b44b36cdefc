//! Whether nothing of a name is under way at an endpoint.

ghost use Rattle.std.specs.Prelude.{◌≡◌, ◌==◌, ◌&&◌, ◌||◌, not, is_none, length, Some};
ghost use Rattle.std.specs.List.{count_by, list_any};
ghost use Rattle.usb_model.specs.Machine.{are_quiet, is_callback_at, is_quiet, is_result_at};
ghost use Rattle.usb_model.specs.World.Shared.{pieces_of};
ghost use Rattle.reference.specs.Call.{machine_in};
ghost use Rattle.reference.specs.System.{is_chosen};

use crate::call::Call;
use crate::system::System;
use usb_model::{DeviceNo, Endpoint, EndpointInfo, EpAddr, Handle, Name, Tagged, TransferResult};

/// How many of these results are the name's, of this endpoint.
pub(crate) fn results_at(results: &[Tagged<TransferResult>], h: Name, ep: EpAddr) -> usize
    ensures { result ≡ count_by (is_result_at ep) (pieces_of h results.now) }
{
    results.iter().filter(|x| x.is_at(h, ep)).count()
}

/// Whether one of these tagged results is the name's, of this endpoint.
fn is_any_at(results: &[Tagged<TransferResult>], h: Name, ep: EpAddr) -> bool
    ensures { result ≡ list_any (λ x. (x.name == h) && is_result_at ep x.piece) results.now }
{
    results.iter().any(|x| x.is_at(h, ep))
}

/// Whether one of these results is the name's, of this endpoint.
pub(crate) fn has_result_at(results: &[Tagged<TransferResult>], h: Name, ep: EpAddr) -> bool
    ensures { result ≡ list_any (is_result_at ep) (pieces_of h results.now) }
{
    is_any_at(results, h, ep)
}

/// Whether an endpoint belongs to this interface, or to any.
fn is_chosen(only: Option<u8>, info: &EndpointInfo) -> bool
    ensures { result ≡ is_chosen only info.now }
{
    match only {
        None => true,
        Some(i) => info.interface == i,
    }
}

impl System {
    /// The same of this endpoint.
    fn is_idle(&self, h: Name, handle: &Handle, ep: EpAddr, endpoint: &Endpoint) -> bool
        ensures { result ≡ ((length endpoint.now.line == 0) && (is_none endpoint.now.errand && (not (list_any (is_result_at ep) (pieces_of h self.now.results)) && not (list_any (is_callback_at ep) handle.now.in_callbacks)))) }
    {
        if !endpoint.is_empty() || endpoint.errand.is_some() {
            return false;
        }
        !has_result_at(self.results.as_slice(), h, ep) && !handle.has_callback_at(ep)
    }
}

impl<'a> Call<'a> {
    /// Whether no transfer stands in the line of a name's endpoint, no result of it waits, none is in its callback, and no errand is under way.
    pub fn is_quiet(&self, handle: &Handle, dev: DeviceNo, ep: EpAddr) -> bool
        ensures { let m = machine_in self.now handle.now in result ≡ is_quiet m ep (m.endpoints dev ep) }
    {
        match self.system.endpoint_of(self.setup, self.name, dev, ep) {
            None => true,
            Some(endpoint) => self.system.is_idle(self.name, handle, ep, endpoint),
        }
    }

    /// Whether an endpoint isn't meant, or is quiet.
    fn is_free(&self, handle: &Handle, dev: DeviceNo, only: Option<u8>, info: &EndpointInfo) -> bool
        ensures { let m = machine_in self.now handle.now in result ≡ (not (is_chosen only info.now) || is_quiet m info.now.address (m.endpoints dev info.now.address)) }
    {
        if is_chosen(only, info) {
            self.is_quiet(handle, dev, info.address)
        } else {
            true
        }
    }

    /// Whether each of a name's endpoints of a device, or of one interface, is quiet.
    pub fn are_quiet(&self, handle: &Handle, dev: DeviceNo, only: Option<u8>) -> bool
        requires { handle.now.device ≡ Some dev }
        ensures { result ≡ are_quiet self.now.setup.now (machine_in self.now handle.now) (is_chosen only) }
    {
        self.setup
            .endpoints_of(dev)
            .iter()
            .all(|info| self.is_free(handle, dev, only, info))
    }
}
