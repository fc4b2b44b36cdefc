//! The worked rows of standard input whose scenario is run to its end, each by the plain program. What that prints is compared by
//! whoever runs this: it knows nothing of what a row has to print.
//!
//! A row is a line of `=== ` and its name, a line of its words, and its input. Its lines are written by tools/rows.py from rows/, never
//! from a program.
//!
//! - `row.rt`: a row, read from the text
//! - `plain.rt`: what the plain program prints of it

mod plain;
mod row;

use anyhow::{Result, anyhow};
use bstr::ByteSlice;
use plain::print_plain;
use row::{MARK, read_row};
use std::alloc::Global;
use std::io::Write;

/// Prints the name of a text's row, and what the plain program prints of it. An error where the text isn't a row's.
fn run_row<W: Write>(alloc: Global, text: &[u8], out: &mut W) -> Result<()> {
    let Some(row) = read_row(text) else {
        return Err(anyhow!("a row has a name, words and an input"));
    };
    writeln!(out, "=== {}", row.name)?;
    print_plain(alloc, &row, out)
}

/// Runs the rows of a text, one after another.
pub fn run<W: Write>(alloc: Global, text: &[u8], out: &mut W) -> Result<()> {
    for row in text.split_str(MARK) {
        if !row.is_empty() {
            run_row(alloc, row, out)?;
        }
    }
    out.flush()?;
    Ok(())
}
