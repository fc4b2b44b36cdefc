//! A picture as a document: its strips, and the legend below them.

use crate::ground::ground;
use crate::known::Known;
use crate::legend;
use crate::marks::marks;
use crate::picture::Picture;
use crate::seen::Seen;
use crate::strip::{Strip, columns_of};
use crate::svg::Svg;
use crate::words::Words;
use std::alloc::{AllocError, Global};

/// The least width of a document: the legend needs it.
const LEAST_WIDTH: u64 = 600;

/// What is left free between two strips.
const GAP: u64 = 20;

/// The document of a picture.
pub fn paint(alloc: Global, picture: &Picture, known: &Known) -> Result<String, AllocError> {
    let seen = Seen::of(alloc, picture)?;
    let strips = strips(alloc, picture, &seen)?;
    let (mut width, mut bottom) = (LEAST_WIDTH, GAP);
    for strip in strips.iter() {
        width = width.max(strip.right());
        bottom = strip.below();
    }
    let height = bottom.saturating_add(legend::height(width));
    let mut svg = Svg::new(alloc, width, height)?;
    for strip in strips.iter() {
        ground(&mut svg, picture, known, &seen, strip)?;
        marks(&mut svg, picture, strip)?;
    }
    if strips.is_empty() {
        svg.words("name", (12, GAP), Words::Text("no steps"))?;
    }
    legend::legend(&mut svg, bottom, width)?;
    svg.finish()
}

/// The strips of a picture, from the top to the bottom.
fn strips(alloc: Global, picture: &Picture, seen: &Seen) -> Result<Vec<Strip>, AllocError> {
    let mut strips = Vec::new(alloc);
    let width = picture.columns.len() as u64;
    let columns = columns_of(width);
    let behind = picture.first.saturating_add(width);
    let (mut first, mut above) = (picture.first, 0);
    for _ in 0..width {
        if first >= behind {
            return Ok(strips);
        }
        let end = first.saturating_add(columns).min(behind);
        let strip = Strip::of(alloc, picture, seen, (first, end), above)?;
        above = strip.below().saturating_add(GAP);
        strips.push(strip)?;
        first = end;
    }
    Ok(strips)
}
