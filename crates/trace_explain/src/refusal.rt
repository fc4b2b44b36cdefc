//! The sentence of a refusal.

ghost use Rattle.std.specs.Prelude.{Some};
ghost use Rattle.trace_explain.specs.Text.{missing_text, misfit_text, obstacle_text, part_text, places_text, refusal_text, unplug_text};

use crate::endpoints::EndpointList;
use crate::names::{DeviceName, HandleName, KindName, TransferName};
use std::fmt;
use usb_model::{DeviceNo, Misfit, Missing, Name, Obstacle, Places, Refusal};

/// Why a call of a handle is refused, with what its sentence names.
#[derive(Clone, Copy, PartialEq, Eq, Debug)]
pub struct CallRefusal {
    /// Whose call it is.
    pub h: Name,
    /// The endpoints of the device that it has open.
    pub endpoints: EndpointList,
    /// The test that refuses.
    pub refusal: Refusal,
}

/// Why a device can't be unplugged.
#[derive(Clone, Copy, PartialEq, Eq, Debug)]
pub enum UnplugRefusal {
    /// There is no such device.
    NoSuchDevice { dev: DeviceNo },
    /// It was unplugged before.
    Unplugged { dev: DeviceNo },
}

/// What isn't there, or isn't the handle's.
#[derive(Clone, Copy)]
struct MissingSaid<'a> {
    h: Name,
    endpoints: &'a EndpointList,
    missing: Missing,
}

/// What of the handle's own is in the way.
#[derive(Clone, Copy)]
struct ObstacleSaid {
    h: Name,
    obstacle: Obstacle,
}

/// So many of something, where there are some; `behind`: another part stands in front.
#[derive(Clone, Copy)]
struct PartSaid<'a> {
    behind: bool,
    count: usize,
    what: &'a str,
}

/// What keeps the places of an endpoint.
#[derive(Clone, Copy)]
struct PlacesSaid(Places);

/// What of a request is wrong for its endpoint.
#[derive(Clone, Copy)]
struct MisfitSaid(Misfit);

impl<'a> fmt::Display for MissingSaid<'a> {
    ghost output = { λ x. Some (missing_text x.h x.endpoints.now x.missing) };

    fn fmt<W: fmt::Write>(&self, f: &mut fmt::Formatter<W>) -> fmt::Result {
        let (h, list) = (HandleName(self.h), self.endpoints);
        match &self.missing {
            Missing::Device { dev } => {
                let dev = DeviceName(*dev);
                write!(f, "there is no {dev}")
            }
            Missing::Open => write!(f, "{h} has no device open"),
            Missing::Interface { dev, i } => {
                let dev = DeviceName(*dev);
                write!(f, "{dev} has no interface {i}")
            }
            Missing::Endpoint { dev, ep } => {
                let dev = DeviceName(*dev);
                write!(f, "{dev} has no endpoint {ep}; it has {list}")
            }
            Missing::Claim { i } => write!(f, "{h} doesn't hold interface {i}"),
            Missing::ClaimFor { i, ep } => write!(
                f,
                "{h} doesn't hold interface {i}, which endpoint {ep} belongs to"
            ),
            Missing::Number { n } => write!(f, "{h} was never given number {n}"),
            Missing::Progress { n } => {
                let n = TransferName(*n);
                write!(f, "{n} isn't in progress any more")
            }
            Missing::Ask { n } => {
                let n = TransferName(*n);
                write!(f, "{n} was asked to end already")
            }
            Missing::Timeout { n } => {
                let n = TransferName(*n);
                write!(f, "{n} has no timeout")
            }
            Missing::Callback { n } => {
                let n = TransferName(*n);
                write!(f, "{n} isn't in its callback")
            }
        }
    }
}

impl<'a> fmt::Display for PartSaid<'a> {
    ghost output = { λ x. Some (part_text x.behind x.count x.what.now) };

    fn fmt<W: fmt::Write>(&self, f: &mut fmt::Formatter<W>) -> fmt::Result {
        let (count, what) = (self.count, self.what);
        if count == 0 {
            Ok(())
        } else if self.behind {
            write!(f, ", {count}{what}")
        } else {
            write!(f, "{count}{what}")
        }
    }
}

impl fmt::Display for PlacesSaid {
    ghost output = { λ x. Some (places_text x.0) };

    fn fmt<W: fmt::Write>(&self, f: &mut fmt::Formatter<W>) -> fmt::Result {
        let by = self.0;
        let waiting = PartSaid {
            behind: false,
            count: by.waiting,
            what: " in progress",
        };
        let blank = PartSaid {
            behind: 0 < by.waiting,
            count: by.blank,
            what: " withdrawn until move",
        };
        let untaken = PartSaid {
            behind: 0 < by.waiting || 0 < by.blank,
            count: by.untaken,
            what: " not taken",
        };
        write!(f, "{waiting}{blank}{untaken}")
    }
}

impl fmt::Display for ObstacleSaid {
    ghost output = { λ x. Some (obstacle_text x.h x.obstacle) };

    fn fmt<W: fmt::Write>(&self, f: &mut fmt::Formatter<W>) -> fmt::Result {
        let h = HandleName(self.h);
        match &self.obstacle {
            Obstacle::Open { dev } => {
                let dev = DeviceName(*dev);
                write!(f, "{h} has {dev} open already")
            }
            Obstacle::Waits { n, ep } => {
                let n = TransferName(*n);
                write!(f, "{n} is in the line of {ep}")
            }
            Obstacle::Blank { ep } => write!(f, "a withdrawn transfer keeps its place at {ep}"),
            Obstacle::Order { ep } => write!(f, "an order is under way at {ep}"),
            Obstacle::Result { n, ep } => {
                let n = TransferName(*n);
                write!(f, "the result of {n} at {ep} isn't taken")
            }
            Obstacle::Callback { n, ep } => {
                let n = TransferName(*n);
                write!(f, "{n} of {ep} is in its callback")
            }
            Obstacle::Full { ep, by } => {
                let by = PlacesSaid(*by);
                write!(f, "{ep} has no place left: {by}")
            }
            Obstacle::Numbers => write!(f, "{h} has no number left for a transfer"),
        }
    }
}

impl fmt::Display for MisfitSaid {
    ghost output = { λ x. Some (misfit_text x.0) };

    fn fmt<W: fmt::Write>(&self, f: &mut fmt::Formatter<W>) -> fmt::Result {
        match &self.0 {
            Misfit::Kind { ep, kind, asked } => {
                let (kind, asked) = (KindName(*kind), KindName(*asked));
                write!(f, "endpoint {ep} is {kind}, and the request {asked}")
            }
            Misfit::Reads { ep } => write!(f, "endpoint {ep} is OUT, and the request reads"),
            Misfit::Writes { ep } => write!(f, "endpoint {ep} is IN, and the request writes"),
            Misfit::Bytes { bytes } => {
                write!(f, "{bytes} bytes are more than the 262144 of a transfer")
            }
        }
    }
}

impl fmt::Display for UnplugRefusal {
    ghost output = { λ x. Some (unplug_text x) };

    fn fmt<W: fmt::Write>(&self, f: &mut fmt::Formatter<W>) -> fmt::Result {
        match self {
            UnplugRefusal::NoSuchDevice { dev } => {
                let dev = DeviceName(*dev);
                write!(f, "there is no {dev}")
            }
            UnplugRefusal::Unplugged { dev } => {
                let dev = DeviceName(*dev);
                write!(f, "{dev} was unplugged")
            }
        }
    }
}

impl fmt::Display for CallRefusal {
    ghost output = { λ x. Some (refusal_text x.h x.endpoints x.refusal) };

    fn fmt<W: fmt::Write>(&self, f: &mut fmt::Formatter<W>) -> fmt::Result {
        let (h, endpoints) = (self.h, &self.endpoints);
        match &self.refusal {
            Refusal::NotFound(missing) => {
                let missing = *missing;
                let said = MissingSaid {
                    h,
                    endpoints,
                    missing,
                };
                write!(f, "{said}")
            }
            Refusal::NoDevice { dev } => {
                let dev = DeviceName(*dev);
                write!(f, "{dev} was unplugged")
            }
            Refusal::Busy(obstacle) => {
                let obstacle = *obstacle;
                let said = ObstacleSaid { h, obstacle };
                write!(f, "{said}")
            }
            Refusal::HeldElsewhere { holder, i } => {
                let holder = HandleName(*holder);
                write!(f, "{holder} holds interface {i}")
            }
            Refusal::InvalidParam(misfit) => {
                let said = MisfitSaid(*misfit);
                write!(f, "{said}")
            }
            Refusal::NotSupported { ep, kind } => {
                let kind = KindName(*kind);
                write!(
                    f,
                    "endpoint {ep} is {kind}, and only bulk and interrupt transfers are submitted"
                )
            }
        }
    }
}
