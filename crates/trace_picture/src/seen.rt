//! What lasts across columns, as far as it is seen in those that are drawn.

use crate::bar::{Bar, Fill};
use crate::picture::Picture;
use std::alloc::{AllocError, Global};

/// Bars with their numbers, and counts of places.
#[derive(Drop)]
pub struct Seen {
    /// The bars.
    pub bars: Vec<(usize, Bar)>,
    /// The counts of places.
    pub fills: Vec<Fill>,
}

impl Seen {
    /// What is seen of a picture.
    pub fn of(alloc: Global, picture: &Picture) -> Result<Seen, AllocError> {
        let mut seen = Seen {
            bars: Vec::new(alloc),
            fills: Vec::new(alloc),
        };
        let end = picture.first.saturating_add(picture.columns.len() as u64);
        seen.add_bars(picture.bars.as_slice(), picture.first, end)?;
        seen.add_fills(picture.fills.as_slice(), picture.first, end)?;
        Ok(seen)
    }

    /// Adds the bars that are seen in the columns from one on, and before another.
    fn add_bars(&mut self, bars: &[Bar], first: u64, end: u64) -> Result<(), AllocError> {
        let mut number = 0usize;
        for bar in bars {
            if bar.is_in(first, end) {
                self.bars.push((number, *bar))?;
            }
            number = number.saturating_add(1);
        }
        Ok(())
    }

    /// Adds the counts of places that are seen there.
    fn add_fills(&mut self, fills: &[Fill], first: u64, end: u64) -> Result<(), AllocError> {
        for fill in fills {
            if fill.is_in(first, end) {
                self.fills.push(*fill)?;
            }
        }
        Ok(())
    }
}
