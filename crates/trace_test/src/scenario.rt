//! The scenario that a test stands for, by the lines of the test.

ghost use Rattle.std.specs.Prelude.{◌≡◌, IfOk, map};
ghost use Rattle.trace_test.specs.Expanded.{origin_of};
ghost use Rattle.trace_test.specs.Tests.{StandsAs};

use crate::expanded::{Expanded, expand};
use crate::macros::unroll;
use std::alloc::{AllocError, Global};

/// For each line that comes from one of what a test stands for without macros, the number of the line of the test that this comes from.
fn first_origins(
    alloc: Global,
    unrolled: &Expanded,
    origins: &[u64],
) -> Result<Vec<u64>, AllocError>
    ensures { IfOk result (λ first. first.items ≡ map (origin_of unrolled.now) origins.now) }
{
    let mut first = Vec::new(alloc);
    for origin in origins {
        first.push(unrolled.origin(*origin))?;
    }
    Ok(first)
}

/// The scenario that a test stands for, without macros and lines that expect something; of each of its lines the number of the line of the
/// test that it comes from. An error where memory is refused.
pub fn scenario_text(alloc: Global, text: &[u8]) -> Result<Expanded, AllocError>
    ensures { IfOk result (λ e. StandsAs text.now e) }
{
    let unrolled = unroll(alloc, text)?;
    let Expanded { text, origins } = expand(alloc, unrolled.text.as_slice())?;
    let origins = first_origins(alloc, &unrolled, origins.as_slice())?;
    Ok(Expanded { text, origins })
}
