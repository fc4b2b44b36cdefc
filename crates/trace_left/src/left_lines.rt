//! The printed lines of what is left behind.

ghost use Rattle.std.specs.Prelude.{◌≡◌, ◌++◌, IfOk};
ghost use Rattle.trace_left.specs.LeftText.{left_line, lines_left};

use crate::left::Left;
use std::alloc::{AllocError, Global};

/// Adds the line of one thing.
fn add_line(alloc: Global, lines: &mut Vec<u8>, left: &Left) -> Result<(), AllocError>
    ensures { IfOk result (λ _. lines.new.items ≡ lines.old.items ++ left_line left.now) }
{
    let line = format!(in alloc; "{left}\n")?;
    lines.extend_from_slice(line.as_bytes())
}

/// The lines of what is left behind, one each. An error where memory is refused.
pub fn lines_of(alloc: Global, left: &[Left]) -> Result<Vec<u8>, AllocError>
    ensures { IfOk result (λ lines. lines.items ≡ lines_left left.now) }
{
    let mut lines = Vec::new(alloc);
    for one in left {
        add_line(alloc, &mut lines, one)?;
    }
    Ok(lines)
}
