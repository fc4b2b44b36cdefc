//! A document of SVG 1.1, written shape by shape.

use crate::column::Column;
use crate::room::room_of;
use crate::style::{SHAPES, STYLE};
use crate::words::Words;
use std::alloc::{AllocError, Global};

/// A document that is being written.
#[derive(Drop)]
pub struct Svg {
    text: String,
}

impl Svg {
    /// An empty document of this size.
    pub fn new(alloc: Global, width: u64, height: u64) -> Result<Svg, AllocError> {
        let mut svg = Svg {
            text: String::new(alloc),
        };
        svg.open(width, height)?;
        Ok(svg)
    }

    /// Begins the document, with its style and the shapes of all signs.
    fn open(&mut self, width: u64, height: u64) -> Result<(), AllocError> {
        write!(
            self.text,
            "<svg xmlns='http://www.w3.org/2000/svg' xmlns:xlink='http://www.w3.org/1999/xlink' version='1.1' width='{width}' height='{height}' viewBox='0 0 {width} {height}'>\n"
        )?;
        self.text.push_str(STYLE)?;
        self.text.push_str(SHAPES)?;
        self.block("page", (0, 0), (width, height))
    }

    /// Begins an element of this class.
    fn begin(&mut self, element: &str, class: &str) -> Result<(), AllocError> {
        write!(self.text, "<{element} class='{class}'")
    }

    /// Writes two attributes of an element.
    fn pair(&mut self, first: &str, second: &str, pair: (u64, u64)) -> Result<(), AllocError> {
        let (x, y) = pair;
        write!(self.text, " {first}='{x}' {second}='{y}'")
    }

    /// Ends an element that has nothing in it.
    fn end(&mut self) -> Result<(), AllocError> {
        self.text.push_str("/>\n")
    }

    /// Begins a rectangle, by its upper left corner and its size.
    fn begin_block(
        &mut self,
        class: &str,
        corner: (u64, u64),
        size: (u64, u64),
    ) -> Result<(), AllocError> {
        self.begin("rect", class)?;
        self.pair("x", "y", corner)?;
        self.pair("width", "height", size)
    }

    /// A rectangle, by its upper left corner and its size.
    pub fn block(
        &mut self,
        class: &str,
        corner: (u64, u64),
        size: (u64, u64),
    ) -> Result<(), AllocError> {
        self.begin_block(class, corner, size)?;
        self.end()
    }

    /// The ground of the step of this number: a rectangle that is lit with it.
    pub fn band(
        &mut self,
        number: u64,
        corner: (u64, u64),
        size: (u64, u64),
    ) -> Result<(), AllocError> {
        self.begin_block("band", corner, size)?;
        write!(self.text, " id='b{number}'")?;
        self.end()
    }

    /// A bar: a rectangle that says its name where it is pointed at.
    pub fn bar(
        &mut self,
        class: &str,
        corner: (u64, u64),
        size: (u64, u64),
        name: Words,
    ) -> Result<(), AllocError> {
        self.begin_block(class, corner, size)?;
        self.text.push_str("><title>")?;
        self.text.push_str(class)?;
        self.text.push_str(" ")?;
        name.write(&mut self.text)?;
        self.text.push_str("</title></rect>\n")
    }

    /// A line from a point to another.
    pub fn line(
        &mut self,
        class: &str,
        from: (u64, u64),
        to: (u64, u64),
    ) -> Result<(), AllocError> {
        self.begin("line", class)?;
        self.pair("x1", "y1", from)?;
        self.pair("x2", "y2", to)?;
        self.end()
    }

    /// A shape of this name, at a point.
    pub fn shape(&mut self, id: &str, at: (u64, u64)) -> Result<(), AllocError> {
        write!(self.text, "<use xlink:href='#{id}'")?;
        self.pair("x", "y", at)?;
        self.end()
    }

    /// Words at a point, of which a number is shortened to their room.
    pub fn words(&mut self, class: &str, at: (u64, u64), words: Words) -> Result<(), AllocError> {
        self.begin("text", class)?;
        self.pair("x", "y", at)?;
        self.text.push_str(">")?;
        words.write_in(room_of(class), &mut self.text)?;
        self.text.push_str("</text>\n")
    }

    /// How many places are taken, at a point: it stands out where none is free.
    pub fn count(&mut self, at: (u64, u64), words: Words) -> Result<(), AllocError> {
        let class = if words.is_full() { "full" } else { "count" };
        self.words(class, at, words)
    }

    /// Begins what belongs to the step of this number: its marks, each of which says the step's line and entry where it is pointed at.
    pub fn begin_step(&mut self, number: u64, column: &Column) -> Result<(), AllocError> {
        let line = column.line;
        write!(
            self.text,
            "<g class='step' id='s{number}'><title>line {line}: "
        )?;
        self.text.push_str(column.text.as_str())?;
        self.text.push_str("\n")?;
        self.text.push_str(column.entry.as_str())?;
        self.text.push_str("</title>\n")
    }

    /// Ends what belongs to a step.
    pub fn end_step(&mut self) -> Result<(), AllocError> {
        self.text.push_str("</g>\n")
    }

    /// The whole text of the document.
    pub fn finish(self) -> Result<String, AllocError> {
        let Svg { mut text } = self;
        text.push_str("</svg>\n")?;
        Ok(text)
    }
}
