//! What devices, the controller and the core do: packets, orders, events and callbacks.

use crate::drawing::Drawing;
use crate::known::{Flight, Trace};
use crate::lane::Lane;
use crate::sign::Sign;
use crate::spot::{Side, Spot};
use crate::words::Words;
use std::alloc::AllocError;
use usb_model::completion::halts;
use usb_model::{EpAddr, Errand, Name, Returned, Step};

/// How many columns a bar lasts at least whose number is told again at its end.
const LONG: u64 = 5;

/// The head of the lane of the endpoint that a step serves.
fn served(step: &Step, column: u64) -> Option<Spot> {
    match step {
        Step::Serve { dev, ep } => Some(Spot::head(Lane::of_endpoint(*dev, *ep), column)),
        _ => None,
    }
}

impl Drawing {
    /// Puts a sign at the lane of an endpoint, and the transfer's number above it.
    fn packet(&mut self, spot: Spot, sign: Sign, n: u64) -> Result<(), AllocError> {
        self.picture
            .tell(spot, sign, Side::Above, Words::transfer(n))
    }

    /// The device wasn't ready.
    pub(crate) fn nak(&mut self, column: u64, step: &Step, n: u64) -> Result<(), AllocError> {
        match served(step, column) {
            Some(spot) => self.packet(spot, Sign::Nak, n),
            None => Ok(()),
        }
    }

    /// A packet of so many bytes moved.
    pub(crate) fn moved(
        &mut self,
        column: u64,
        step: &Step,
        n: u64,
        bytes: u32,
    ) -> Result<(), AllocError> {
        let Some(spot) = served(step, column) else {
            return Ok(());
        };
        self.packet(spot, Sign::Packet, n)?;
        let words = Words::bytes(u64::from(bytes));
        self.picture.label(spot, Side::Below, words)
    }

    /// A transfer ended with this code: an event is posted.
    pub(crate) fn ended(
        &mut self,
        column: u64,
        h: Name,
        n: u64,
        code: u8,
    ) -> Result<(), AllocError> {
        let Some(flight) = self.known.flight(h, n) else {
            return Ok(());
        };
        let spot = Spot::head(flight.lane, column);
        self.packet(spot, Sign::Ended, n)?;
        self.picture.label(
            spot,
            Side::Below,
            Words::Numbered("code ", u64::from(code), ""),
        )?;
        let event = self.posted(spot, Words::Transfer(h.number(), n))?;
        let flight = Flight {
            event: Some(event),
            halts: halts(code),
            ..flight
        };
        self.known.note_flight(h, n, flight)
    }

    /// Begins the bar of an order or an event in the lane of its ring, and joins it to the place where it comes from.
    fn begun(&mut self, lane: Lane, name: Words, from: Spot) -> Result<usize, AllocError> {
        let bar = self.picture.begin_bar(lane, name, from.column)?;
        self.picture
            .join(from, Spot::at_bar(lane, bar, from.column))?;
        Ok(bar)
    }

    /// Begins the bar of an event that is posted from a place.
    fn posted(&mut self, from: Spot, name: Words) -> Result<usize, AllocError> {
        self.begun(Lane::Events, name, from)
    }

    /// The bar of an event: this one, where there is one.
    fn event_bar(
        &mut self,
        known: Option<usize>,
        name: Words,
        column: u64,
    ) -> Result<usize, AllocError> {
        match known {
            Some(event) => Ok(event),
            None => self.picture.begin_bar(Lane::Events, name, column),
        }
    }

    /// The bar of an order that is carried out in this column, from where it was ordered.
    fn order_bar(
        &mut self,
        cause: Option<Spot>,
        name: Words,
        column: u64,
    ) -> Result<usize, AllocError> {
        match cause {
            Some(cause) => self.begun(Lane::Commands, name, cause),
            None => self.picture.begin_bar(Lane::Commands, name, column),
        }
    }

    /// An order was carried out, or failed: an event is posted.
    pub(crate) fn ran(
        &mut self,
        column: u64,
        h: Name,
        ep: EpAddr,
        errand: Errand,
        ok: bool,
    ) -> Result<(), AllocError> {
        let lane = self.known.lane(h, ep);
        let trace = self.known.trace(lane);
        let cause = match errand {
            Errand::Stop => trace.asked,
            Errand::Reset | Errand::Move => trace.handled,
        };
        let name = Words::Errand(errand, ep.address());
        let order = self.order_bar(cause, name, column)?;
        let spot = self.picture.end_bar(order, Lane::Commands, column);
        self.outcome(spot, name, ok)?;
        let event = self.posted(spot, name)?;
        let trace = Trace {
            ran: Some(spot),
            event: Some(event),
            ..trace
        };
        self.known.note_trace(lane, trace)
    }

    /// Puts the sign of an outcome at a place, and the order's name beside it.
    fn outcome(&mut self, spot: Spot, name: Words, ok: bool) -> Result<(), AllocError> {
        let sign = if ok { Sign::Success } else { Sign::Failure };
        self.picture.tell(spot, sign, Side::Right, name)
    }

    /// The event of an order was handled.
    pub(crate) fn settled(
        &mut self,
        column: u64,
        h: Name,
        ep: EpAddr,
        errand: Errand,
        ok: bool,
    ) -> Result<(), AllocError> {
        let lane = self.known.lane(h, ep);
        let trace = self.known.trace(lane);
        let name = Words::Errand(errand, ep.address());
        let event = self.event_bar(trace.event, name, column)?;
        let spot = self.picture.end_bar(event, Lane::Events, column);
        self.outcome(spot, name, ok)?;
        let trace = Trace {
            asked: None,
            handled: Some(spot),
            ran: trace.ran,
            event: None,
        };
        self.known.note_trace(lane, trace)
    }

    /// Ends the bar of an event, with a sign and the transfer's name.
    fn handled(
        &mut self,
        event: usize,
        column: u64,
        sign: Sign,
        name: Words,
    ) -> Result<Spot, AllocError> {
        let spot = self.picture.end_bar(event, Lane::Events, column);
        self.picture.tell(spot, sign, Side::Right, name)?;
        Ok(spot)
    }

    /// The event of an ended transfer was handled.
    pub(crate) fn finished(&mut self, column: u64, h: Name, n: u64) -> Result<(), AllocError> {
        let Some(flight) = self.known.flight(h, n) else {
            return Ok(());
        };
        let name = Words::Transfer(h.number(), n);
        let event = self.event_bar(flight.event, name, column)?;
        let spot = self.handled(event, column, Sign::Finished, name)?;
        if !flight.halts {
            return Ok(());
        }
        let trace = Trace {
            handled: Some(spot),
            ..self.known.trace(flight.lane)
        };
        self.known.note_trace(flight.lane, trace)
    }

    /// The event of a paused transfer was handled.
    pub(crate) fn paused(&mut self, column: u64, h: Name, n: u64) -> Result<(), AllocError> {
        let Some(flight) = self.known.flight(h, n) else {
            return Ok(());
        };
        let name = Words::Transfer(h.number(), n);
        let event = match self.known.trace(flight.lane).ran {
            Some(ran) => self.posted(ran, name)?,
            None => self.picture.begin_bar(Lane::Events, name, column)?,
        };
        self.handled(event, column, Sign::Paused, name)?;
        Ok(())
    }

    /// A callback is called, and frees a place of the endpoint.
    pub(crate) fn called(&mut self, column: u64, returned: &Returned) -> Result<(), AllocError> {
        let (h, n, actual) = (returned.h, returned.n, returned.actual);
        let Some(flight) = self.known.flight(h, n) else {
            return Ok(());
        };
        let count = self.known.places(flight.lane).count.saturating_sub(1);
        self.places(column, flight.lane, count)?;
        let spot = self
            .picture
            .call_bar(flight.bar, Lane::of_handle(h), column);
        let (sign, words) = (
            Sign::Called(returned.status),
            Words::bytes(u64::from(actual)),
        );
        self.picture.tell(spot, sign, Side::Right, words)?;
        if self.picture.age(flight.bar, column) < LONG {
            return Ok(());
        }
        self.picture.label(spot, Side::Left, Words::transfer(n))
    }
}
