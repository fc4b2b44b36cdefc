//! The gates of a scene.

use crate::signals::{Mark, Signals};
use std::sync::Wait;
use usb_workers::{Gate, Gates, WorkerStep};

/// Where a worker is held: at this point, when it comes there for the nth time, counted from 1; 0 holds nobody.
#[derive(Clone, Copy)]
pub struct Stop(pub WorkerStep, pub u64);

/// No worker is held.
pub const NOWHERE: Stop = Stop(WorkerStep::Take, 0);

/// The gate of a worker, which is held at its stop.
#[derive(Drop)]
pub struct Turnstile<'a> {
    at: WorkerStep,
    /// How many times the point is still to be passed.
    nth: u64,
    /// How many steps may follow one pass.
    burst: u32,
    signals: &'a Signals,
}

impl<'a> Turnstile<'a> {
    /// The gates of both workers, which hold the one that comes to this stop, and let so many steps by at each pass.
    pub fn both(stop: Stop, burst: u32, signals: &'a Signals) -> Gates<Turnstile<'a>> {
        let Stop(at, nth) = stop;
        Gates {
            controller: Turnstile {
                at,
                nth,
                burst,
                signals,
            },
            events: Turnstile {
                at,
                nth,
                burst,
                signals,
            },
        }
    }
}

impl<'a> Gate for Turnstile<'a> {
    fn pass<R: Wait>(&mut self, _rt: &R, at: WorkerStep) {
        if at != self.at || self.nth == 0 {
            return;
        }
        self.nth -= 1;
        if self.nth == 0 {
            self.signals.say(Mark::AtGate);
            self.signals.hold();
        }
    }

    fn burst(&self) -> u32 {
        self.burst
    }
}
