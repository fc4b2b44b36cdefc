//! What later steps refer back to: the devices that handles opened, transfers by their numbers, and what is under way at
//! each endpoint.

use crate::lane::Lane;
use crate::spot::Spot;
use std::alloc::{AllocError, Global};
use std::collections::BTreeMap;
use usb_model::{EndpointInfo, EpAddr, Kind, Name};

/// The name of a transfer: its handle's number, and its own.
type Transfer = (u8, u64);

/// What a configuration says of an endpoint: its kind, and its packet size in bytes.
#[derive(Clone, Copy)]
pub struct Endpoint {
    /// Its kind.
    pub kind: Kind,
    /// Its packet size.
    pub packet_size: u16,
}

/// What is known of a transfer.
#[derive(Clone, Copy)]
pub struct Flight {
    /// The lane of its endpoint.
    pub lane: Lane,
    /// Its bar.
    pub bar: usize,
    /// The bar of the event of its end, once that is posted.
    pub event: Option<usize>,
    /// Whether its end halted the endpoint.
    pub halts: bool,
}

/// What is known of the orders of an endpoint.
#[derive(Clone, Copy)]
pub struct Trace {
    /// The first accepted ask since an order was last settled: a Stop is ordered there.
    pub asked: Option<Spot>,
    /// The last event that may have ordered something: a Reset or a Move is ordered there.
    pub handled: Option<Spot>,
    /// Where an order was last carried out.
    pub ran: Option<Spot>,
    /// The bar of the event of that order, until it is handled.
    pub event: Option<usize>,
}

/// What is known of the places of an endpoint.
#[derive(Clone, Copy)]
pub struct Taken {
    /// How many are taken.
    pub count: u64,
    /// Since when: the number of its time in the picture, if any.
    pub fill: Option<usize>,
}

/// What is known.
#[derive(Drop)]
pub struct Known {
    endpoints: BTreeMap<Lane, Endpoint>,
    devices: BTreeMap<u8, u8>,
    flights: BTreeMap<Transfer, Flight>,
    traces: BTreeMap<Lane, Trace>,
    places: BTreeMap<Lane, Taken>,
}

impl Known {
    /// Nothing is known.
    pub fn new(alloc: Global) -> Known {
        Known {
            endpoints: BTreeMap::new(alloc),
            devices: BTreeMap::new(alloc),
            flights: BTreeMap::new(alloc),
            traces: BTreeMap::new(alloc),
            places: BTreeMap::new(alloc),
        }
    }

    /// The device of this number has this endpoint.
    pub fn note_endpoint(&mut self, device: u8, info: &EndpointInfo) -> Result<(), AllocError> {
        let lane = Lane::Endpoint(device, info.address.address());
        let endpoint = Endpoint {
            kind: info.kind,
            packet_size: info.packet_size,
        };
        self.endpoints.insert(lane, endpoint)?;
        Ok(())
    }

    /// What the configurations say of an endpoint.
    pub fn endpoint(&self, lane: Lane) -> Option<Endpoint> {
        self.endpoints.get(&lane).copied()
    }

    /// A handle opened the device of this number.
    pub fn note_device(&mut self, h: Name, device: u8) -> Result<(), AllocError> {
        self.devices.insert(h.number(), device)?;
        Ok(())
    }

    /// The lane of an endpoint of the device that the handle opened last; of device 0 where it opened none.
    pub fn lane(&self, h: Name, ep: EpAddr) -> Lane {
        let device = self.devices.get(&h.number()).copied().unwrap_or(0);
        Lane::Endpoint(device, ep.address())
    }

    /// This is known of a transfer from now on.
    pub fn note_flight(&mut self, h: Name, n: u64, flight: Flight) -> Result<(), AllocError> {
        self.flights.insert((h.number(), n), flight)?;
        Ok(())
    }

    /// What is known of a transfer.
    pub fn flight(&self, h: Name, n: u64) -> Option<Flight> {
        self.flights.get(&(h.number(), n)).copied()
    }

    /// This is known of an endpoint from now on.
    pub fn note_trace(&mut self, lane: Lane, trace: Trace) -> Result<(), AllocError> {
        self.traces.insert(lane, trace)?;
        Ok(())
    }

    /// What is known of an endpoint.
    pub fn trace(&self, lane: Lane) -> Trace {
        let unknown = Trace {
            asked: None,
            handled: None,
            ran: None,
            event: None,
        };
        self.traces.get(&lane).copied().unwrap_or(unknown)
    }

    /// As many places of an endpoint are taken from now on.
    pub fn note_places(&mut self, lane: Lane, taken: Taken) -> Result<(), AllocError> {
        self.places.insert(lane, taken)?;
        Ok(())
    }

    /// How many places of an endpoint are taken.
    pub fn places(&self, lane: Lane) -> Taken {
        let none = Taken {
            count: 0,
            fill: None,
        };
        self.places.get(&lane).copied().unwrap_or(none)
    }
}
