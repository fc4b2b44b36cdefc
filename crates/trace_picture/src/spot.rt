//! Places in a picture, and what stands at them: signs, words, and lines from one to another.

use crate::lane::Lane;
use crate::sign::Sign;
use crate::words::Words;

/// A place in a picture.
#[derive(Clone, Copy)]
pub struct Spot {
    /// Its lane.
    pub lane: Lane,
    /// The bar in whose level it is, if any; else it is at the lane's head.
    pub bar: Option<usize>,
    /// Its column.
    pub column: u64,
}

/// A sign at a place.
#[derive(Clone, Copy)]
pub struct Mark {
    /// Where.
    pub spot: Spot,
    /// Which.
    pub sign: Sign,
}

/// What belongs together within a column.
#[derive(Clone, Copy)]
pub struct Join {
    /// Where it comes from.
    pub from: Spot,
    /// Where it leads to.
    pub to: Spot,
}

/// Where a label stands, seen from its place.
#[derive(Clone, Copy)]
pub enum Side {
    /// To the right, at the same height.
    Right,
    /// To the right, above.
    Above,
    /// To the right, below.
    Below,
    /// To the left, at the same height.
    Left,
    /// At the foot of the lane.
    Foot,
}

/// Words at a place.
#[derive(Clone, Copy)]
pub struct Label {
    /// Where.
    pub spot: Spot,
    /// On which side.
    pub side: Side,
    /// The words.
    pub words: Words,
}

impl Spot {
    /// A place at a bar.
    pub fn at_bar(lane: Lane, bar: usize, column: u64) -> Spot {
        Spot {
            lane,
            bar: Some(bar),
            column,
        }
    }

    /// The head of a lane.
    pub fn head(lane: Lane, column: u64) -> Spot {
        Spot {
            lane,
            bar: None,
            column,
        }
    }
}
