//! What is to be drawn: columns with their signs, words and lines, and what lasts across columns.

use crate::bar::{Bar, Fill};
use crate::column::Column;
use crate::lane::Lane;
use crate::sign::Sign;
use crate::spot::{Join, Label, Mark, Side, Spot};
use crate::words::Words;
use std::alloc::{AllocError, Global};
use usb_model::{Entry, Step};

/// How many columns are kept at most: the others are counted.
const MOST_KEPT: usize = 2_000;

/// All that is drawn. Columns are numbered through the whole run, but kept only where their lines are drawn.
#[derive(Drop)]
pub struct Picture {
    alloc: Global,
    /// The first line of the scenario that is drawn.
    from: u64,
    /// The last that is drawn.
    to: u64,
    /// How many columns the run has so far.
    told: u64,
    /// How many of them are drawn.
    width: u64,
    /// How many stand before the first that is drawn.
    pub first: u64,
    /// Those that are drawn.
    pub columns: Vec<Column>,
    /// What lasts.
    pub bars: Vec<Bar>,
    /// How many places of endpoints are taken.
    pub fills: Vec<Fill>,
}

impl Picture {
    /// An empty picture, of these lines of a scenario.
    pub fn new(alloc: Global, from: u64, to: u64) -> Picture {
        Picture {
            alloc,
            from,
            to,
            told: 0,
            width: 0,
            first: 0,
            columns: Vec::new(alloc),
            bars: Vec::new(alloc),
            fills: Vec::new(alloc),
        }
    }

    /// How many columns are to be drawn.
    pub fn width(&self) -> u64 {
        self.width
    }

    /// Begins the column of a step of this line, and gives its number.
    pub fn begin_column(
        &mut self,
        line: u64,
        text: &[u8],
        step: &Step,
        entry: &Entry,
    ) -> Result<u64, AllocError> {
        let number = self.told;
        self.told = self.told.saturating_add(1);
        if line < self.from {
            self.first = self.told;
        } else if line <= self.to {
            self.keep(line, text, step, entry)?;
        }
        Ok(number)
    }

    /// Keeps a column that is drawn, while there is room.
    fn keep(
        &mut self,
        line: u64,
        text: &[u8],
        step: &Step,
        entry: &Entry,
    ) -> Result<(), AllocError> {
        self.width = self.width.saturating_add(1);
        if self.columns.len() < MOST_KEPT {
            let column = Column::new(self.alloc, line, text, step, entry)?;
            self.columns.push(column)?;
        }
        Ok(())
    }

    /// A column by its number, if it is kept.
    fn column(&mut self, number: u64) -> Option<&mut Column> {
        let index = number.checked_sub(self.first)?;
        let index = usize::try_from(index).ok()?;
        self.columns.get_mut(index)
    }

    /// Begins a bar, and gives its number.
    pub fn begin_bar(&mut self, lane: Lane, name: Words, from: u64) -> Result<usize, AllocError> {
        let number = self.bars.len();
        self.bars.push(Bar {
            lane,
            name,
            from,
            called: None,
            to: None,
        })?;
        Ok(number)
    }

    /// A transfer's callback is called: its bar goes on as the callback's. Gives the place.
    pub fn call_bar(&mut self, number: usize, lane: Lane, column: u64) -> Spot {
        if let Some(bar) = self.bars.get_mut(number) {
            bar.called = Some(column);
        }
        Spot::at_bar(lane, number, column)
    }

    /// Ends a bar, and gives its place in that column.
    pub fn end_bar(&mut self, number: usize, lane: Lane, column: u64) -> Spot {
        if let Some(bar) = self.bars.get_mut(number) {
            bar.to = Some(column);
        }
        Spot::at_bar(lane, number, column)
    }

    /// How many columns a bar has lasted at this one.
    pub fn age(&self, number: usize, column: u64) -> u64 {
        match self.bars.get(number) {
            Some(bar) => column.saturating_sub(bar.from),
            None => 0,
        }
    }

    /// From this column on as many places of an endpoint are taken. Ends the time before, if any, and gives the number of the new one.
    pub fn fill(
        &mut self,
        before: Option<usize>,
        lane: Lane,
        count: u64,
        column: u64,
    ) -> Result<usize, AllocError> {
        if let Some(number) = before {
            if let Some(fill) = self.fills.get_mut(number) {
                fill.to = Some(column);
            }
        }
        let number = self.fills.len();
        self.fills.push(Fill {
            lane,
            count,
            from: column,
            to: None,
        })?;
        Ok(number)
    }

    /// A device goes in this column.
    pub fn unplug(&mut self, number: u64) {
        if let Some(column) = self.column(number) {
            column.unplugs = true;
        }
    }

    /// Puts a sign at a place.
    pub fn mark(&mut self, spot: Spot, sign: Sign) -> Result<(), AllocError> {
        if let Some(column) = self.column(spot.column) {
            column.marks.push(Mark { spot, sign })?;
        }
        Ok(())
    }

    /// Draws a line from a place to another of the same column.
    pub fn join(&mut self, from: Spot, to: Spot) -> Result<(), AllocError> {
        if let Some(column) = self.column(from.column) {
            column.joins.push(Join { from, to })?;
        }
        Ok(())
    }

    /// Puts words beside a place.
    pub fn label(&mut self, spot: Spot, side: Side, words: Words) -> Result<(), AllocError> {
        if let Some(column) = self.column(spot.column) {
            column.labels.push(Label { spot, side, words })?;
        }
        Ok(())
    }

    /// Puts a sign at a place, and words beside it.
    pub fn tell(
        &mut self,
        spot: Spot,
        sign: Sign,
        side: Side,
        words: Words,
    ) -> Result<(), AllocError> {
        self.mark(spot, sign)?;
        self.label(spot, side, words)
    }
}
