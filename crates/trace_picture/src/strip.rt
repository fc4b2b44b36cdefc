//! A strip of a picture: some columns beside one another, with the lanes in which something is there. Strips stand below one another, like
//! the lines of a score.

use crate::bar::{Bar, Course};
use crate::column::Column;
use crate::lane::Lane;
use crate::picture::Picture;
use crate::seen::Seen;
use crate::spot::Spot;
use crate::track::{Level, Track};
use std::alloc::{AllocError, Global};
use std::collections::{BTreeMap, BTreeSet};

/// How many columns a strip has at most.
const MOST_COLUMNS: u64 = 24;

/// The width of a column.
pub const COLUMN: u64 = 56;

/// The room for the lanes' names.
pub const LEFT: u64 = 124;

/// The room between them and the first column, where what comes from the strip above enters.
const ENTRY: u64 = 22;

/// The room behind the last column, where what goes on in the strip below leaves.
const EXIT: u64 = 26;

/// The room for the columns' numbers.
pub const NUMBERS: u64 = 26;

/// The room for the captions.
const CAPTIONS: u64 = 48;

/// Some columns, and where everything stands there.
#[derive(Drop)]
pub struct Strip {
    /// The number of its first column.
    pub first: u64,
    /// The number of the first column behind it.
    pub end: u64,
    /// Its lanes, from the top to the bottom.
    pub tracks: Vec<Track>,
    /// The levels of the bars that are drawn, by their numbers.
    levels: BTreeMap<usize, Level>,
    /// The upper edge of the first lane.
    pub top: u64,
    /// The lower edge of the last lane.
    pub bottom: u64,
}

/// How many columns each strip has: as nearly the same as can be.
pub fn columns_of(width: u64) -> u64 {
    let strips = width.div_ceil(MOST_COLUMNS).max(1);
    width.div_ceil(strips)
}

/// The columns of a picture from one on, and before another.
pub fn columns_in<'a>(picture: &'a Picture, first: u64, end: u64) -> &'a [Column] {
    let columns = picture.columns.as_slice();
    let from = index_of(picture, first);
    let to = index_of(picture, end);
    match columns.get(from..to) {
        Some(some) => some,
        None => &[],
    }
}

/// At which place a picture has a column.
fn index_of(picture: &Picture, column: u64) -> usize {
    let index = column.saturating_sub(picture.first) as usize;
    index.min(picture.columns.len())
}

/// Gives a bar a level of its lane, or counts it there.
fn level_of(track: &mut Track, course: Course, bar: &Bar) -> Result<Option<Level>, AllocError> {
    match course {
        Course::Elsewhere => Ok(None),
        Course::Changes => Ok(Some(track.place(bar)?)),
        Course::Lasts => Ok(Some(track.place_slim())),
        Course::Runs => {
            track.count_running();
            Ok(None)
        }
    }
}

impl Strip {
    /// The columns from one on and before another, with their lanes below this height.
    pub fn of(
        alloc: Global,
        picture: &Picture,
        seen: &Seen,
        columns: (u64, u64),
        above: u64,
    ) -> Result<Strip, AllocError> {
        let (first, end) = columns;
        let top = above.saturating_add(NUMBERS);
        let mut strip = Strip {
            first,
            end,
            tracks: Vec::new(alloc),
            levels: BTreeMap::new(alloc),
            top,
            bottom: top,
        };
        let lanes = strip.lanes(alloc, picture, seen)?;
        for lane in lanes.iter() {
            strip.tracks.push(Track::new(alloc, *lane))?;
        }
        for (number, bar) in seen.bars.iter() {
            strip.add(*number, bar)?;
        }
        strip.stack();
        Ok(strip)
    }

    /// The lanes in which something is there: a sign, a count of places, or a bar.
    fn lanes(
        &self,
        alloc: Global,
        picture: &Picture,
        seen: &Seen,
    ) -> Result<BTreeSet<Lane>, AllocError> {
        let mut lanes = BTreeSet::new(alloc);
        for column in columns_in(picture, self.first, self.end) {
            for mark in column.marks.iter() {
                lanes.insert(mark.spot.lane)?;
            }
            for label in column.labels.iter() {
                lanes.insert(label.spot.lane)?;
            }
        }
        for (_, bar) in seen.bars.iter() {
            if self.draws(bar) {
                lanes.insert(bar.lane)?;
            }
        }
        Ok(lanes)
    }

    /// What happens to a bar in this strip.
    pub fn course(&self, bar: &Bar) -> Course {
        bar.course(self.first, self.end)
    }

    /// Whether a bar is drawn: those of callbacks that run all the time are only counted.
    fn draws(&self, bar: &Bar) -> bool {
        match self.course(bar) {
            Course::Changes | Course::Lasts => true,
            Course::Elsewhere | Course::Runs => false,
        }
    }

    /// Puts a bar into a level of its lane, or counts it.
    fn add(&mut self, number: usize, bar: &Bar) -> Result<(), AllocError> {
        let course = self.course(bar);
        if course == Course::Elsewhere {
            return Ok(());
        }
        for track in self.tracks.iter_mut() {
            if track.lane == bar.lane {
                if let Some(level) = level_of(track, course, bar)? {
                    self.levels.insert(number, level)?;
                }
            }
        }
        Ok(())
    }

    /// Puts the lanes below one another.
    fn stack(&mut self) {
        for track in self.tracks.iter_mut() {
            track.top = self.bottom;
            self.bottom = track.bottom();
        }
    }

    /// The lower edge of the captions.
    pub fn below(&self) -> u64 {
        self.bottom.saturating_add(CAPTIONS)
    }

    /// The left edge of a column.
    pub fn edge(&self, column: u64) -> u64 {
        let behind = column.saturating_sub(self.first);
        LEFT.saturating_add(ENTRY)
            .saturating_add(behind.saturating_mul(COLUMN))
    }

    /// The middle of a column.
    pub fn middle(&self, column: u64) -> u64 {
        self.edge(column).saturating_add(COLUMN / 2)
    }

    /// The right edge of the strip.
    pub fn right(&self) -> u64 {
        self.edge(self.end).saturating_add(EXIT)
    }

    /// From where to where something goes that begins in one column and ends in another, if it does.
    pub fn reach(&self, from: u64, to: Option<u64>) -> (u64, u64) {
        let left = if from < self.first {
            LEFT
        } else {
            self.middle(from)
        };
        match to {
            Some(to) if to < self.end => (left, self.middle(to)),
            _ => (left, self.right()),
        }
    }

    /// The lane, if something is there.
    pub fn track(&self, lane: Lane) -> Option<&Track> {
        self.tracks.iter().find(|track| track.lane == lane)
    }

    /// The height at which a place of this lane stands: in the level of its bar, or at the lane's head.
    pub fn height(&self, lane: Lane, bar: Option<usize>) -> u64 {
        let level = match bar {
            Some(number) => self.levels.get(&number).copied(),
            None => None,
        };
        match self.track(lane) {
            Some(track) => track.middle(level),
            None => self.top,
        }
    }

    /// A place's point.
    pub fn point(&self, spot: Spot) -> (u64, u64) {
        (self.middle(spot.column), self.height(spot.lane, spot.bar))
    }
}
