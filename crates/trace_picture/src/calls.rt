//! Calls of a handle: submissions, asks, verdicts, refusals and all others.

use crate::drawing::Drawing;
use crate::known::{Flight, Taken};
use crate::lane::Lane;
use crate::sign::Sign;
use crate::spot::{Side, Spot};
use crate::words::Words;
use std::alloc::AllocError;
use usb_model::{Name, Refused, Step};

/// The handle that makes this call; None where it is no call of a handle.
fn caller(step: &Step) -> Option<Name> {
    match step {
        Step::Open { h, .. } | Step::Close { h } | Step::Claim { h, .. } => Some(*h),
        Step::Release { h, .. } | Step::Reset { h } | Step::ClearHalt { h, .. } => Some(*h),
        Step::Submit { h, .. } | Step::Cancel { h, .. } => Some(*h),
        Step::Expire { h, .. } | Step::Answer { h, .. } => Some(*h),
        Step::Serve { .. } | Step::Command | Step::Deliver => None,
        Step::Take | Step::Unplug { .. } => None,
    }
}

/// The lane of whom a step is: a handle's, or that of the plugs.
fn caller_lane(step: &Step) -> Lane {
    match caller(step) {
        Some(h) => Lane::of_handle(h),
        None => Lane::Plugs,
    }
}

/// The lane at which a step finds nothing to do.
fn idle_lane(step: &Step) -> Option<Lane> {
    match step {
        Step::Serve { dev, ep } => Some(Lane::of_endpoint(*dev, *ep)),
        Step::Command => Some(Lane::Commands),
        Step::Deliver | Step::Take => Some(Lane::Events),
        _ => None,
    }
}

impl Drawing {
    /// A call is done.
    pub(crate) fn done(&mut self, column: u64, step: &Step) -> Result<(), AllocError> {
        match step {
            Step::Cancel { h, n } | Step::Expire { h, n } => self.asked(column, *h, *n),
            Step::Answer { h, n, .. } => self.answered(column, *h, *n),
            Step::Unplug { dev } => self.unplugged(column, dev.number()),
            Step::Open { h, dev } => self.opened(column, *h, dev.number()),
            _ => self
                .picture
                .mark(Spot::head(caller_lane(step), column), Sign::Call),
        }
    }

    /// A handle opened a device.
    fn opened(&mut self, column: u64, h: Name, device: u8) -> Result<(), AllocError> {
        self.known.note_device(h, device)?;
        self.picture
            .mark(Spot::head(Lane::of_handle(h), column), Sign::Call)
    }

    /// A device went.
    fn unplugged(&mut self, column: u64, device: u8) -> Result<(), AllocError> {
        self.picture.unplug(column);
        self.picture.tell(
            Spot::head(Lane::Plugs, column),
            Sign::Unplug,
            Side::Right,
            Words::number(u64::from(device)),
        )
    }

    /// A transfer is asked to end.
    fn asked(&mut self, column: u64, h: Name, n: u64) -> Result<(), AllocError> {
        let spot = Spot::head(Lane::of_handle(h), column);
        self.picture
            .tell(spot, Sign::Ask, Side::Right, Words::transfer(n))?;
        let Some(flight) = self.known.flight(h, n) else {
            return Ok(());
        };
        let mut trace = self.known.trace(flight.lane);
        if trace.asked.is_none() {
            trace.asked = Some(spot);
        }
        self.known.note_trace(flight.lane, trace)
    }

    /// A callback returned its verdict: its bar ends.
    fn answered(&mut self, column: u64, h: Name, n: u64) -> Result<(), AllocError> {
        let lane = Lane::of_handle(h);
        let spot = match self.known.flight(h, n) {
            Some(flight) => self.picture.end_bar(flight.bar, lane, column),
            None => Spot::head(lane, column),
        };
        self.picture.mark(spot, Sign::Verdict)
    }

    /// A step is refused.
    pub(crate) fn refused(
        &mut self,
        column: u64,
        step: &Step,
        why: Refused,
    ) -> Result<(), AllocError> {
        let spot = Spot::head(caller_lane(step), column);
        let words = Words::number(u64::from(why.number()));
        self.picture.tell(spot, Sign::Refusal, Side::Right, words)
    }

    /// A step found nothing to do.
    pub(crate) fn idle(&mut self, column: u64, step: &Step) -> Result<(), AllocError> {
        match idle_lane(step) {
            Some(lane) => self.picture.mark(Spot::head(lane, column), Sign::Idle),
            None => Ok(()),
        }
    }

    /// A transfer is accepted under this number.
    pub(crate) fn numbered(&mut self, column: u64, step: &Step, n: u64) -> Result<(), AllocError> {
        match step {
            Step::Submit { h, request } => {
                let lane = self.known.lane(*h, request.ep);
                self.submitted(column, *h, n, lane)
            }
            Step::Answer { h, n: before, .. } => {
                self.answered(column, *h, *before)?;
                match self.known.flight(*h, *before) {
                    Some(flight) => self.submitted(column, *h, n, flight.lane),
                    None => Ok(()),
                }
            }
            _ => Ok(()),
        }
    }

    /// A transfer is in the line of the endpoint of this lane.
    fn submitted(&mut self, column: u64, h: Name, n: u64, lane: Lane) -> Result<(), AllocError> {
        let own = Lane::of_handle(h);
        let name = Words::Transfer(h.number(), n);
        let bar = self.picture.begin_bar(own, name, column)?;
        let start = Spot::at_bar(own, bar, column);
        self.picture
            .tell(start, Sign::Submission, Side::Right, Words::transfer(n))?;
        let arrival = Spot::head(lane, column);
        self.picture.join(start, arrival)?;
        self.picture.mark(arrival, Sign::Arrival)?;
        let count = self.known.places(lane).count.saturating_add(1);
        self.places(column, lane, count)?;
        let flight = Flight {
            lane,
            bar,
            event: None,
            halts: false,
        };
        self.known.note_flight(h, n, flight)
    }

    /// From this column on as many places of an endpoint are taken.
    pub(crate) fn places(&mut self, column: u64, lane: Lane, count: u64) -> Result<(), AllocError> {
        let before = self.known.places(lane).fill;
        let fill = Some(self.picture.fill(before, lane, count, column)?);
        self.known.note_places(lane, Taken { count, fill })?;
        self.picture
            .label(Spot::head(lane, column), Side::Foot, Words::Places(count))
    }
}
