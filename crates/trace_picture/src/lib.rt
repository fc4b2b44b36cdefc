//! A run of the core as a picture (SVG 1.1), or as a page with the picture and the steps (HTML): lanes for handles, endpoints and rings, and a
//! column for each step.
//!
//! The one promise: none but safety. It draws what it is told.
//!
//! # Files
//!
//! - `drawing.rt`, `calls.rt`, `turns.rt`, `known.rt`: what a step and its entry add, by what was told before
//! - `picture.rt`, `column.rt`, `bar.rt`, `spot.rt`, `lane.rt`, `sign.rt`, `caption.rt`, `words.rt`, `escape.rt`: what stands in a picture
//! - `strip.rt`, `track.rt`, `seen.rt`: where it stands: strips of columns below one another, and the lanes of each
//! - `paint.rt`, `ground.rt`, `marks.rt`, `legend.rt`: what is written of it, from the lanes to the signs
//! - `svg.rt`, `style.rt`, `room.rt`: how it is written (SVG 1.1), and how long a number may be there
//! - `form.rt`, `html.rt`, `look.rt`: the picture alone, or a page that has it
#![tactic(auto)]

mod bar;
mod calls;
mod caption;
mod column;
mod drawing;
mod escape;
mod form;
mod ground;
mod html;
mod known;
mod lane;
mod legend;
mod look;
mod marks;
mod paint;
mod picture;
mod room;
mod seen;
mod sign;
mod spot;
mod strip;
mod style;
mod svg;
mod track;
mod turns;
mod words;

pub use drawing::Drawing;
pub use form::Form;
