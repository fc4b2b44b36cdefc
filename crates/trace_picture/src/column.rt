//! A column of a picture: a step, and all that stands in its column.

use crate::caption::Caption;
use crate::escape::escaped;
use crate::spot::{Join, Label, Mark};
use std::alloc::{AllocError, Global};
use usb_model::{Entry, Step};

/// A step and its entry, with the signs, words and lines of its column. The texts are escaped.
#[derive(Drop)]
pub struct Column {
    /// The number of its line in the scenario.
    pub line: u64,
    /// That line.
    pub text: String,
    /// The printed line of its entry.
    pub entry: String,
    /// What stands below it.
    pub caption: Caption,
    /// Its signs.
    pub marks: Vec<Mark>,
    /// Its words.
    pub labels: Vec<Label>,
    /// The lines between its signs.
    pub joins: Vec<Join>,
    /// Whether a device went.
    pub unplugs: bool,
}

impl Column {
    /// A column without signs: a step that this line of the scenario says, and its entry.
    pub fn new(
        alloc: Global,
        line: u64,
        text: &[u8],
        step: &Step,
        entry: &Entry,
    ) -> Result<Column, AllocError> {
        let printed = format!(in alloc; "{entry}")?;
        Ok(Column {
            line,
            text: escaped(alloc, text)?,
            entry: escaped(alloc, printed.as_bytes())?,
            caption: Caption::of(step, entry),
            marks: Vec::new(alloc),
            labels: Vec::new(alloc),
            joins: Vec::new(alloc),
            unplugs: false,
        })
    }
}
