//! The signs and words of a strip, column by column.

use crate::caption::Caption;
use crate::column::Column;
use crate::picture::Picture;
use crate::spot::{Label, Side};
use crate::strip::{Strip, columns_in};
use crate::svg::Svg;
use crate::words::Words;
use std::alloc::AllocError;

/// Draws the signs and words of a strip.
pub fn marks(svg: &mut Svg, picture: &Picture, strip: &Strip) -> Result<(), AllocError> {
    let mut number = strip.first;
    for column in columns_in(picture, strip.first, strip.end) {
        for join in column.joins.iter() {
            svg.line("join", strip.point(join.from), strip.point(join.to))?;
        }
        step(svg, picture, strip, number, column)?;
        number = number.saturating_add(1);
    }
    Ok(())
}

/// The signs and words of the column of this number.
fn step(
    svg: &mut Svg,
    picture: &Picture,
    strip: &Strip,
    number: u64,
    column: &Column,
) -> Result<(), AllocError> {
    let x = strip.middle(number);
    svg.begin_step(
        number.saturating_sub(picture.first).saturating_add(1),
        column,
    )?;
    svg.words(
        "number",
        (x, strip.top.saturating_sub(9)),
        Words::number(column.line),
    )?;
    for mark in column.marks.iter() {
        svg.shape(mark.sign.id(), strip.point(mark.spot))?;
    }
    for label in column.labels.iter() {
        words(svg, strip, label)?;
    }
    caption(svg, x, strip.bottom, &column.caption)?;
    svg.end_step()
}

/// A caption round this middle, below this height.
fn caption(svg: &mut Svg, x: u64, bottom: u64, caption: &Caption) -> Result<(), AllocError> {
    svg.words(
        "verb",
        (x, bottom.saturating_add(15)),
        Words::Text(caption.verb),
    )?;
    if let Some(words) = caption.objects {
        svg.words("objects", (x, bottom.saturating_add(28)), words)?;
    }
    if let Some(words) = caption.outcome {
        let class = if caption.is_refused {
            "refused"
        } else {
            "outcome"
        };
        svg.words(class, (x, bottom.saturating_add(40)), words)?;
    }
    Ok(())
}

/// A label beside its place.
fn words(svg: &mut Svg, strip: &Strip, label: &Label) -> Result<(), AllocError> {
    let (x, y) = strip.point(label.spot);
    let (right, left) = (x.saturating_add(10), x.saturating_sub(11));
    let foot = (x.saturating_add(4), foot_of(strip, label).saturating_sub(5));
    let (class, at) = match label.side {
        Side::Right => ("label", (right, y.saturating_add(4))),
        Side::Above => ("label", (right, y.saturating_sub(4))),
        Side::Below => ("detail", (right, y.saturating_add(9))),
        Side::Left => ("left", (left, y.saturating_add(4))),
        Side::Foot => return svg.count(foot, label.words),
    };
    svg.words(class, at, label.words)
}

/// The lower edge of a label's lane.
fn foot_of(strip: &Strip, label: &Label) -> u64 {
    match strip.track(label.spot.lane) {
        Some(track) => track.bottom(),
        None => strip.bottom,
    }
}
