//! What is told, in lines.

use anyhow::Result;
use std::alloc::{AllocError, Global};
use usb_model::Entry;

/// The line of an entry, with its line feed, behind these.
pub fn add_line(alloc: Global, lines: &mut String, entry: &Entry) -> Result<(), AllocError> {
    let line = format!(in alloc; "{entry}\n")?;
    lines.push_str(line.as_str())
}

/// Prints entries, a line each.
pub fn print_entries<P: Print>(rt: &P, entries: &[Entry]) -> Result<()> {
    for entry in entries {
        println!(rt; "{entry}")?;
    }
    Ok(())
}
