//! What lies below the signs of a strip: its lanes with their names, its columns, and what lasts.

use crate::bar::{Bar, Course, Fill};
use crate::column::Column;
use crate::known::Known;
use crate::lane::Lane;
use crate::picture::Picture;
use crate::seen::Seen;
use crate::strip::{COLUMN, LEFT, NUMBERS, Strip, columns_in};
use crate::svg::Svg;
use crate::track::Track;
use crate::words::Words;
use std::alloc::AllocError;
use usb_model::Kind;

/// The height of a bar.
const BAR: u64 = 14;

/// The height of a bar to which nothing happens in the strip.
const SLIM_BAR: u64 = 8;

/// Draws all that lies below the signs of a strip.
pub fn ground(
    svg: &mut Svg,
    picture: &Picture,
    known: &Known,
    seen: &Seen,
    strip: &Strip,
) -> Result<(), AllocError> {
    let mut is_shaded = true;
    for track in strip.tracks.iter() {
        lane(svg, known, strip.right(), track, is_shaded)?;
        is_shaded = !is_shaded;
    }
    svg.line("edge", (0, strip.bottom), (strip.right(), strip.bottom))?;
    let mut number = strip.first;
    for column in columns_in(picture, strip.first, strip.end) {
        grid(svg, picture, strip, number, column)?;
        number = number.saturating_add(1);
    }
    for fill in seen.fills.iter() {
        places(svg, strip, fill)?;
    }
    for (number, bar) in seen.bars.iter() {
        lasting(svg, strip, *number, bar)?;
    }
    Ok(())
}

/// A lane with its name.
fn lane(
    svg: &mut Svg,
    known: &Known,
    width: u64,
    track: &Track,
    is_shaded: bool,
) -> Result<(), AllocError> {
    let (lane, top) = (track.lane, track.top);
    if is_shaded {
        svg.block("lane", (0, top), (width, track.height()))?;
    }
    svg.line("edge", (0, top), (width, top))?;
    svg.words("name", (12, top.saturating_add(17)), lane.name())?;
    if let Some(endpoint) = known.endpoint(lane) {
        let words = Words::Numbered(
            kind_words(endpoint.kind),
            u64::from(endpoint.packet_size),
            "",
        );
        svg.words("kind", (50, top.saturating_add(17)), words)?;
    }
    svg.words("hint", (12, top.saturating_add(30)), hint(track))
}

/// The name of a kind of endpoint, in front of its packet size.
fn kind_words(kind: Kind) -> &'static str {
    match kind {
        Kind::Control => "control ",
        Kind::Isochronous => "iso ",
        Kind::Bulk => "bulk ",
        Kind::Interrupt => "int ",
    }
}

/// What stands below a lane's name: how many callbacks run all the time, if any; else what it is.
fn hint(track: &Track) -> Words {
    if track.running > 0 {
        return Words::Numbered("callbacks running: ", track.running, "");
    }
    Words::Text(track.lane.hint())
}

/// A column's ground and line, and the line of a device that went.
fn grid(
    svg: &mut Svg,
    picture: &Picture,
    strip: &Strip,
    number: u64,
    column: &Column,
) -> Result<(), AllocError> {
    let x = strip.middle(number);
    let top = strip.top.saturating_sub(NUMBERS);
    let corner = (strip.edge(number), top);
    let size = (COLUMN, strip.below().saturating_sub(top));
    let step = number.saturating_sub(picture.first).saturating_add(1);
    svg.band(step, corner, size)?;
    let class = if column.unplugs { "gone" } else { "grid" };
    svg.line(class, (x, strip.top), (x, strip.bottom))
}

/// How many places of an endpoint are taken: a low block at its lane's foot, as high as they are many.
fn places(svg: &mut Svg, strip: &Strip, fill: &Fill) -> Result<(), AllocError> {
    let Some(track) = strip.track(fill.lane) else {
        return Ok(());
    };
    if !fill.is_in(strip.first, strip.end) {
        return Ok(());
    }
    let (from, to) = strip.reach(fill.from, fill.to);
    let corner = (from, track.bottom().saturating_sub(fill.count));
    svg.block("places", corner, (to.saturating_sub(from), fill.count))?;
    if fill.from >= strip.first {
        return Ok(());
    }
    let at = (LEFT.saturating_add(3), track.bottom().saturating_sub(5));
    svg.count(at, Words::Places(fill.count))
}

/// A bar; where it comes from the strip above, with its name at its left end.
fn lasting(svg: &mut Svg, strip: &Strip, number: usize, bar: &Bar) -> Result<(), AllocError> {
    let (height, class) = match strip.course(bar) {
        Course::Elsewhere | Course::Runs => return Ok(()),
        Course::Changes => (BAR, "label"),
        Course::Lasts => (SLIM_BAR, "slim"),
    };
    let middle = strip.height(bar.lane, Some(number));
    whole(svg, strip, bar, (middle.saturating_sub(height / 2), height))?;
    if bar.from >= strip.first {
        return Ok(());
    }
    let at = (LEFT.saturating_add(3), middle.saturating_add(3));
    svg.words(class, at, short_name(bar))
}

/// What a bar is, in its lane: of a handle's transfer the number alone.
fn short_name(bar: &Bar) -> Words {
    match (bar.lane, bar.name) {
        (Lane::Handle(_), Words::Transfer(_, n)) => Words::transfer(n),
        (_, name) => name,
    }
}

/// A bar with this upper edge and height: a transfer until its callback is called and then the callback, or another as one.
fn whole(svg: &mut Svg, strip: &Strip, bar: &Bar, tall: (u64, u64)) -> Result<(), AllocError> {
    let Some(called) = bar.called else {
        let reach = strip.reach(bar.from, bar.to);
        return piece(svg, bar.lane.bar_class(), reach, tall, bar.name);
    };
    if called >= strip.first {
        let reach = strip.reach(bar.from, Some(called));
        piece(svg, "transfer", reach, tall, bar.name)?;
    }
    if called < strip.end {
        let reach = strip.reach(called, bar.to);
        piece(svg, "callback", reach, tall, bar.name)?;
    }
    Ok(())
}

/// A piece of a bar, from one place of its level to another.
fn piece(
    svg: &mut Svg,
    class: &str,
    reach: (u64, u64),
    tall: (u64, u64),
    name: Words,
) -> Result<(), AllocError> {
    let ((from, to), (top, height)) = (reach, tall);
    svg.bar(class, (from, top), (to.saturating_sub(from), height), name)
}
