//! The legend: what each sign, bar and number means.

use crate::svg::Svg;
use crate::words::Words;
use std::alloc::AllocError;

/// The width of a place of the legend.
const PLACE: u64 = 102;

/// The width of a place for a bar.
const WIDE_PLACE: u64 = 164;

/// The height of a line of the legend.
const LINE: u64 = 20;

/// The left edge of the first place.
const LEFT: u64 = 22;

/// Signs by their names in the document, and their meanings: a status each.
const STATUSES: [(&str, &str); 7] = [
    ("completed", "COMPLETED"),
    ("error", "ERROR"),
    ("timed-out", "TIMED_OUT"),
    ("cancelled", "CANCELLED"),
    ("stall", "STALL"),
    ("no-device", "NO_DEVICE"),
    ("overflow", "OVERFLOW"),
];

/// The same of calls.
const CALLS: [(&str, &str); 7] = [
    ("submission", "submitted"),
    ("arrival", "in its line"),
    ("call", "another call"),
    ("ask", "asked to end"),
    ("verdict", "returned"),
    ("refusal", "refused"),
    ("unplug", "unplugged"),
];

/// The same of what devices and the controller do.
const TURNS: [(&str, &str); 8] = [
    ("packet", "packet moved"),
    ("nak", "not ready"),
    ("ended", "transfer ended"),
    ("success", "order: ok"),
    ("failure", "order: failed"),
    ("finished", "end handled"),
    ("paused", "pause handled"),
    ("idle", "nothing to do"),
];

/// Bars by their classes, and what they are.
const BARS: [(&str, &str); 5] = [
    ("transfer", "transfer, until called"),
    ("callback", "callback, until returned"),
    ("order", "order, until carried out"),
    ("event", "event, until handled"),
    ("places", "places taken, of 16"),
];

/// What the numbers beside signs mean.
const NOTES: [&str; 3] = [
    "above a column: the number of the scenario's line. #3: transfer 3 of its handle",
    "refused: 1 invalid parameter, 2 no device, 3 not found, 4 busy, 5 held elsewhere, 6 no memory, 7 not supported",
    "code: 1 success, 3 babble, 4 transaction error, 6 stall, 13 short packet, 26 stopped",
];

/// Where the next piece of the legend stands, in a document of this width.
#[derive(Clone, Copy)]
struct Pen {
    width: u64,
    x: u64,
    y: u64,
}

impl Pen {
    /// Goes to the next line.
    fn next_line(&mut self) {
        self.x = LEFT;
        self.y = self.y.saturating_add(LINE);
    }

    /// Gives the next place of this width, in the next line where this one has no room for it.
    fn place(&mut self, wide: u64) -> (u64, u64) {
        if self.x.saturating_add(wide) > self.width {
            self.next_line();
        }
        let at = (self.x, self.y);
        self.x = self.x.saturating_add(wide);
        at
    }
}

/// Words to the right of a place.
fn meaning(
    svg: &mut Svg,
    at: (u64, u64),
    right: u64,
    words: &'static str,
) -> Result<(), AllocError> {
    let (x, y) = at;
    let at = (x.saturating_add(right), y.saturating_add(4));
    svg.words("meaning", at, Words::Text(words))
}

/// Signs with their meanings.
fn signs(
    svg: &mut Svg,
    pen: &mut Pen,
    signs: &[(&'static str, &'static str)],
) -> Result<(), AllocError> {
    pen.next_line();
    for (id, words) in signs {
        let at = pen.place(PLACE);
        svg.shape(id, at)?;
        meaning(svg, at, 12, words)?;
    }
    Ok(())
}

/// Bars with their meanings.
fn bars(svg: &mut Svg, pen: &mut Pen) -> Result<(), AllocError> {
    pen.next_line();
    for (class, words) in BARS {
        let (x, y) = pen.place(WIDE_PLACE);
        let corner = (x.saturating_sub(8), y.saturating_sub(5));
        svg.block(class, corner, (22, 10))?;
        meaning(svg, (x, y), 20, words)?;
    }
    Ok(())
}

/// The legend, below this height, in a document of this width.
pub fn legend(svg: &mut Svg, top: u64, width: u64) -> Result<(), AllocError> {
    let mut pen = Pen {
        width,
        x: LEFT,
        y: top,
    };
    for some in [STATUSES.as_slice(), CALLS.as_slice(), TURNS.as_slice()] {
        signs(svg, &mut pen, some)?;
    }
    bars(svg, &mut pen)?;
    for words in NOTES {
        pen.next_line();
        let at = (LEFT.saturating_sub(8), pen.y.saturating_add(4));
        svg.words("hint", at, Words::Text(words))?;
    }
    Ok(())
}

/// How many lines so many pieces of one width take.
fn lines(width: u64, count: usize, wide: u64) -> u64 {
    let in_line = width.saturating_sub(LEFT).div_euclid(wide.max(1)).max(1);
    (count as u64).div_ceil(in_line)
}

/// The height of the legend in a document of this width.
pub fn height(width: u64) -> u64 {
    let lines = lines(width, STATUSES.len(), PLACE)
        .saturating_add(lines(width, CALLS.len(), PLACE))
        .saturating_add(lines(width, TURNS.len(), PLACE))
        .saturating_add(lines(width, BARS.len(), WIDE_PLACE))
        .saturating_add(NOTES.len() as u64);
    lines.saturating_add(1).saturating_mul(LINE)
}
