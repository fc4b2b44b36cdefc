//! Lanes: the rows of the picture, one for each thing to which something happens.

use crate::words::Words;
use usb_model::{DeviceNo, EpAddr, Name};

/// A lane. They stand from the top to the bottom in this order.
#[derive(Clone, Copy, PartialEq, Eq, PartialOrd, Ord)]
pub enum Lane {
    /// The plugs of all devices.
    Plugs,
    /// The calls and callbacks of the handle of this number.
    Handle(u8),
    /// The packets of an endpoint: its device's number, and its address.
    Endpoint(u8, u8),
    /// The command ring.
    Commands,
    /// The event ring.
    Events,
}

impl Lane {
    /// The lane of a handle.
    pub fn of_handle(h: Name) -> Lane {
        Lane::Handle(h.number())
    }

    /// The lane of an endpoint.
    pub fn of_endpoint(dev: DeviceNo, ep: EpAddr) -> Lane {
        Lane::Endpoint(dev.number(), ep.address())
    }

    /// Its name, as `h1`, or `0:81` for the endpoint 81 of device 0.
    pub fn name(self) -> Words {
        match self {
            Lane::Plugs => Words::Text("plugs"),
            Lane::Handle(number) => Words::handle(number),
            Lane::Endpoint(device, address) => Words::Endpoint(device, address),
            Lane::Commands => Words::Text("commands"),
            Lane::Events => Words::Text("events"),
        }
    }

    /// What stands below its name.
    pub fn hint(self) -> &'static str {
        match self {
            Lane::Plugs => "of devices",
            Lane::Handle(_) => "handle",
            Lane::Endpoint(_, address) if address >= 128 => "endpoint, in",
            Lane::Endpoint(_, _) => "endpoint, out",
            Lane::Commands | Lane::Events => "ring",
        }
    }

    /// The height of its head, where signs of no bar stand.
    pub fn head(self) -> u64 {
        match self {
            Lane::Plugs | Lane::Handle(_) => 24,
            Lane::Endpoint(_, _) => 40,
            Lane::Commands | Lane::Events => 12,
        }
    }

    /// The height of its foot, where the places of an endpoint are counted.
    pub fn foot(self) -> u64 {
        match self {
            Lane::Endpoint(_, _) => 20,
            _ => 6,
        }
    }

    /// The class of its bars.
    pub fn bar_class(self) -> &'static str {
        match self {
            Lane::Commands => "order",
            Lane::Events => "event",
            _ => "transfer",
        }
    }
}
