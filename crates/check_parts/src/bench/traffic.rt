//! Whole transfers through the core: submitted, served, delivered, taken, ended.

use super::calls::Calls;
use super::shape::{Shape, Target, holder};
use bitflags::Flags as _;
use std::alloc::Global;
use usb_model::{Body, Bytes, Flags, Kind, Name, Request};

/// The core, and what is asked of it. A turn is one transfer; as many as are in their callbacks at once are made together.
#[derive(Drop)]
pub struct Traffic {
    calls: Calls,
    alloc: Global,
    shape: Shape,
    targets: Vec<Target>,
    numbers: Vec<(Name, u64)>,
    payload: u64,
    left: u32,
}

impl Traffic {
    /// A core in which a name holds each device. None where memory is refused, or there is no such shape.
    pub fn new(alloc: Global, shape: Shape) -> Option<Traffic> {
        let mut traffic = Traffic {
            calls: Calls::new(alloc, shape.setup(alloc)?).ok()?,
            alloc,
            shape,
            targets: shape.targets(alloc)?,
            numbers: Vec::new(alloc),
            payload: 0,
            left: shape.answers,
        };
        traffic.hold()?;
        Some(traffic)
    }

    /// Each name opens its device, and claims its interface.
    fn hold(&mut self) -> Option<()> {
        for device in 0..self.shape.devices {
            let (name, device) = holder(device)?;
            self.calls.open(name, device);
            self.calls.claim(name);
        }
        Some(())
    }

    /// So many transfers.
    pub fn turn(&mut self, turns: u64) -> u64 {
        let rounds = turns.checked_div(self.shape.round()).unwrap_or(0);
        let answers = self.answers();
        let mut sum: u64 = 0;
        for _ in 0..rounds {
            self.make_ready(answers);
            sum = sum.wrapping_add(self.round());
        }
        sum
    }

    /// So many resets of the first device.
    pub fn reset(&mut self, turns: u64) -> u64 {
        let mut sum: u64 = 0;
        if let Some(target) = self.targets.first() {
            for turn in 0..turns {
                self.calls.reset(target.name);
                sum = sum.wrapping_add(turn);
            }
        }
        sum
    }

    /// How many answers a round takes from each endpoint that is used.
    fn answers(&self) -> u32 {
        let others = (self.targets.len() as u64).saturating_sub(self.shape.first);
        let used = self.shape.at_once.min(others).max(1);
        let each = self.shape.round().checked_div(used).unwrap_or(0);
        self.shape.packets().saturating_mul(each.min(65_536) as u32)
    }

    /// The devices are reset where their scripts are too short for so many answers more.
    fn make_ready(&mut self, answers: u32) {
        if self.left < answers {
            for device in 0..self.shape.devices {
                if let Some((name, _)) = holder(device) {
                    self.calls.reset(name);
                }
            }
            self.left = self.shape.answers;
        }
        self.left = self.left.wrapping_sub(answers);
    }

    /// As many transfers as are in their callbacks at once, to their ends.
    fn round(&mut self) -> u64 {
        let mut sum: u64 = 0;
        for _ in 0..self.shape.groups {
            sum = sum.wrapping_add(self.group());
        }
        for (name, n) in self.numbers.iter() {
            self.calls.stop(*name, *n);
        }
        self.numbers.clear();
        sum
    }

    /// As many transfers as are in flight at once, up to their callbacks.
    fn group(&mut self) -> u64 {
        let mut sum: u64 = 0;
        for at in 0..self.shape.at_once {
            let _ = self.submit(at);
        }
        for at in 0..self.shape.at_once {
            self.serve(at);
        }
        for _ in 0..self.shape.at_once {
            self.calls.deliver();
        }
        for _ in 0..self.shape.at_once {
            sum = sum.wrapping_add(self.calls.take());
        }
        sum
    }

    /// The endpoint of a transfer.
    fn target(&self, at: u64) -> Option<Target> {
        let at = self.shape.first.wrapping_add(at) as usize;
        match self.targets.get(at) {
            Some(target) => Some(*target),
            None => self.targets.get(self.shape.first as usize).copied(),
        }
    }

    /// What is asked of an endpoint.
    fn request(&self, target: &Target) -> Option<Request> {
        let length = self.shape.length;
        let body = if target.ep.is_in() {
            Body::In(length)
        } else {
            let bytes = Vec::from_elem(self.alloc, 7, length as usize).ok()?;
            Body::Out(Bytes::from_vec(bytes))
        };
        Some(Request {
            ep: target.ep,
            kind: Kind::Bulk,
            flags: Flags::from_bits_retain(0),
            timeout: 0,
            body,
        })
    }

    fn submit(&mut self, at: u64) -> Option<()> {
        let target = self.target(at)?;
        let request = self.request(&target)?;
        self.payload = self.payload.wrapping_add(1);
        let n = self.calls.submit(target.name, request, self.payload)?;
        self.numbers.push((target.name, n)).ok()
    }

    fn serve(&mut self, at: u64) {
        if let Some(target) = self.target(at) {
            match self.shape.packets() {
                1 => self.calls.serve(target.device, target.ep),
                packets => self.calls.serve_row(target.device, target.ep, packets),
            }
        }
    }
}
