//! An entry behind the line that it comes from.

ghost use Rattle.std.specs.Prelude.{◌≡◌, ◌++◌, IfOk};
ghost use Rattle.trace_io.specs.Output.{behind_line};

use crate::entry_line::{add_decimal, add_line};
use std::alloc::{AllocError, Global};
use usb_model::Entry;

/// Puts an entry behind a line's number and text, and all of it behind another text.
pub fn add_behind(
    alloc: Global,
    text: &mut Vec<u8>,
    number: u64,
    line: &[u8],
    entry: &Entry,
) -> Result<(), AllocError>
    ensures { IfOk result (λ _. text.new.items ≡ text.old.items ++ behind_line (number, line.now) entry.now) }
{
    add_decimal(text, number)?;
    text.push(b' ')?;
    text.extend_from_slice(line)?;
    text.extend_from_slice(b" | ")?;
    add_line(alloc, text, entry)
}
