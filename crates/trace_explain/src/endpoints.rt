//! The endpoints that a device has, as a reason names them.

ghost use Rattle.std.specs.Prelude.{◌≡◌, Some, map, take};
ghost use Rattle.trace_explain.specs.Endpoints.{addresses_in, listed, most_named, no_endpoints, with_endpoint};
ghost use Rattle.trace_explain.specs.Text.{between, endpoints_text};

use std::fmt;
use usb_model::{EndpointInfo, EpAddr};

/// How many endpoints are named at most. A device can't have more: each number from 1 to 15 twice.
const MOST_NAMED: usize = 32;

/// A device's endpoints, in the order of their descriptors.
#[derive(Clone, Copy, PartialEq, Eq, Debug)]
pub struct EndpointList {
    /// Their addresses, and behind them 0s.
    addresses: [EpAddr; MOST_NAMED],
    /// How many there are.
    count: usize,
}

impl EndpointList {
    /// No endpoint so far.
    pub(crate) fn new() -> EndpointList
        ensures { result ≡ no_endpoints }
    {
        EndpointList {
            addresses: [EpAddr::new(0); MOST_NAMED],
            count: 0,
        }
    }

    /// Adds an endpoint, where there is room for it.
    fn add(&mut self, info: &EndpointInfo)
        ensures { self.new ≡ with_endpoint self.old info.now }
    {
        if self.count < MOST_NAMED {
            self.addresses[self.count] = info.address;
            self.count += 1;
        }
    }

    /// The endpoints of a configuration.
    pub(crate) fn of(infos: &[EndpointInfo]) -> EndpointList
        ensures list { result ≡ listed infos.now }
        ensures addresses { addresses_in result ≡ take most_named (map (λ info. info.address) infos.now) }
    {
        let mut list = EndpointList::new();
        for info in infos {
            list.add(info);
        }
        list
    }

    /// Their addresses.
    pub fn addresses(&self) -> &[EpAddr]
        ensures { result.now ≡ addresses_in self.now }
    {
        &self.addresses[..self.count.min(MOST_NAMED)]
    }
}

/// What stands behind a word of a list of which so many follow.
fn between(more: usize) -> &'static str
    ensures { result.now ≡ between more }
{
    match more {
        0 => "",
        1 => " and ",
        _ => ", ",
    }
}

/// The addresses in words, as `81, 02 and 83`, or `none`.
impl fmt::Display for EndpointList {
    ghost output = { λ list. Some (endpoints_text (addresses_in list)) };

    fn fmt<W: fmt::Write>(&self, f: &mut fmt::Formatter<W>) -> fmt::Result {
        let addresses = self.addresses();
        if addresses.is_empty() {
            return f.write_str("none");
        }
        let mut more = addresses.len();
        for ep in addresses {
            more -= 1;
            let behind = between(more);
            write!(f, "{ep}{behind}")?;
        }
        Ok(())
    }
}
