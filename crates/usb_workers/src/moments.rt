//! Moments by a clock, for those who want one.
//!
//! Nothing is promised of time. The library knows no clock: a transfer is due by the moments that `Library::tick` is told
//! (libusb 1.0, `libusb_handle_events_timeout`), and whoever tells them chooses where they come from. Here they are
//! milliseconds of the system's clock, which may stand still while a machine sleeps; and a thread that read it may be
//! late with what it read.

ghost use Rattle.std.specs.Prelude.{◌≡◌, ◌-◌, ◌/◌, ◌^◌, min};
ghost use Rattle.std.specs.Time.{instant_nanos};

use std::io;
use std::marker::Model;
use std::time::{Clock, Instant};

/// Counts the milliseconds since it was made.
#[derive(Drop)]
pub struct Moments {
    start: Instant,
}

/// Contracts see the nanoseconds of the clock when it was made.
impl Model for Moments {
    ghost use Rattle.std.specs.Prelude.{ℕ};
    ghost use Rattle.std.specs.Time.{instant_nanos};

    ghost Value = { ℕ };

    ghost view = { λ m. instant_nanos m.start };
}

impl Moments {
    /// From an instant on, whose moment is 0.
    pub fn since(start: Instant) -> Moments
        ensures { result ≡ instant_nanos start }
    {
        Moments { start }
    }

    /// From now on. An error where the clock can't be read.
    pub fn start(clock: &impl Clock) -> io::Result<Moments> {
        Ok(Moments::since(Instant::now(clock)?))
    }

    /// The moment of an instant: whole milliseconds, 0 for an earlier one, and 2^64 - 1 for one that is later than that.
    pub fn at(&self, instant: Instant) -> u64
        ensures { result ≡ min ((instant_nanos instant - self.now) / 1000000) (2 ^ 64 - 1) }
    {
        let past = instant.duration_since(self.start).as_millis();
        u64::try_from(past).unwrap_or(u64::MAX)
    }

    /// The moment now, as `Library::tick` takes it. An error where the clock can't be read.
    pub fn now(&self, clock: &impl Clock) -> io::Result<u64> {
        Ok(self.at(Instant::now(clock)?))
    }
}
