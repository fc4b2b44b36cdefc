//! The levels of a lane: bars that last at the same time stand in different ones.

use crate::bar::Bar;
use crate::lane::Lane;
use std::alloc::{AllocError, Global};

/// The height of a level.
const LEVEL: u64 = 18;

/// The height of a slim level.
const SLIM_LEVEL: u64 = 10;

/// What is left free above what stands at the lane's head.
const MARGIN: u64 = 6;

/// The least height of a lane: its name needs it.
const LEAST_HEIGHT: u64 = 38;

/// A level of a lane. The slim ones stand above the others.
#[derive(Clone, Copy)]
pub enum Level {
    /// One of a bar to which nothing happens in the strip.
    Slim(u64),
    /// One of other bars.
    Full(u64),
}

/// A lane with its levels.
#[derive(Drop)]
pub struct Track {
    /// The lane.
    pub lane: Lane,
    /// Its upper edge.
    pub top: u64,
    /// How many callbacks run all the time, and aren't drawn.
    pub running: u64,
    /// How many slim levels there are.
    slim: u64,
    /// The column in which the last bar of each other level ends.
    ends: Vec<u64>,
}

impl Track {
    /// A lane with no level.
    pub fn new(alloc: Global, lane: Lane) -> Track {
        Track {
            lane,
            top: 0,
            running: 0,
            slim: 0,
            ends: Vec::new(alloc),
        }
    }

    /// One more callback runs all the time.
    pub fn count_running(&mut self) {
        self.running = self.running.saturating_add(1);
    }

    /// Gives a slim level.
    pub fn place_slim(&mut self) -> Level {
        let level = Level::Slim(self.slim);
        self.slim = self.slim.saturating_add(1);
        level
    }

    /// Puts a bar into the first full level that is free where it begins, and gives that level.
    pub fn place(&mut self, bar: &Bar) -> Result<Level, AllocError> {
        let (from, to) = (bar.from, bar.to.unwrap_or(u64::MAX));
        let mut level = 0u64;
        for end in self.ends.iter_mut() {
            if *end < from {
                *end = to;
                return Ok(Level::Full(level));
            }
            level = level.saturating_add(1);
        }
        self.ends.push(to)?;
        Ok(Level::Full(level))
    }

    /// The height of its head and its slim levels.
    fn above(&self) -> u64 {
        let slim = self.slim.saturating_mul(SLIM_LEVEL);
        self.lane.head().saturating_add(slim)
    }

    /// Its height.
    pub fn height(&self) -> u64 {
        let levels = self.ends.len() as u64;
        let below = levels
            .saturating_mul(LEVEL)
            .saturating_add(self.lane.foot());
        self.above().saturating_add(below).max(LEAST_HEIGHT)
    }

    /// Its lower edge.
    pub fn bottom(&self) -> u64 {
        self.top.saturating_add(self.height())
    }

    /// The middle of a level; of its head where there is none.
    pub fn middle(&self, level: Option<Level>) -> u64 {
        let below = match level {
            Some(Level::Slim(level)) => self
                .lane
                .head()
                .saturating_add(level.saturating_mul(SLIM_LEVEL))
                .saturating_add(SLIM_LEVEL / 2),
            Some(Level::Full(level)) => self
                .above()
                .saturating_add(level.saturating_mul(LEVEL))
                .saturating_add(LEVEL / 2),
            None => (self.lane.head() / 2).saturating_add(MARGIN / 2),
        };
        self.top.saturating_add(below)
    }
}
