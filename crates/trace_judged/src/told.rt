//! What a run wrote that isn't as expected, as lines that are comments of a scenario.

ghost use Rattle.std.specs.Prelude.{◌≡◌, ◌++◌, IfOk};
ghost use Rattle.std.specs.List.{flat_map};
ghost use Rattle.trace_judged.specs.Report.{difference_line, first_line, missing_line, total_line, unexpected_text};

use crate::difference::Difference;
use crate::expected::bytes_expected;
use crate::missing::MissingPackets;
use crate::sentence::{
    bytes_around, bytes_begun, came_text, head_text, length_text, never_text, plural_end,
};
use crate::unexpected::Unexpected;
use std::alloc::{AllocError, Global};

/// Puts the line of a packet that differs behind a text.
fn put_difference(alloc: Global, text: &mut Vec<u8>, d: &Difference) -> Result<(), AllocError>
    ensures { IfOk result (λ _. text.new.items ≡ text.old.items ++ difference_line d.now) }
{
    let (head, came) = (head_text(alloc, d)?, came_text(alloc, d)?);
    let bytes = bytes_around(alloc, bytes_expected(&d.expected), d.offset)?;
    let length = length_text(alloc, &d.expected)?;
    let line = format!(in alloc; "{head}{came}{bytes}{length}\n")?;
    text.extend_from_slice(line.as_bytes())
}

/// Puts the line of the first packet that differs behind a text, if there is one.
fn put_first(
    alloc: Global,
    text: &mut Vec<u8>,
    first: &Option<Difference>,
) -> Result<(), AllocError>
    ensures { IfOk result (λ _. text.new.items ≡ text.old.items ++ first_line first.now) }
{
    match first {
        Some(first) => put_difference(alloc, text, first),
        None => Ok(()),
    }
}

/// Puts the line of what never came at an endpoint behind a text.
fn put_missing(alloc: Global, text: &mut Vec<u8>, m: &MissingPackets) -> Result<(), AllocError>
    ensures { IfOk result (λ _. text.new.items ≡ text.old.items ++ missing_line m.now) }
{
    let never = never_text(alloc, m)?;
    let bytes = bytes_begun(alloc, bytes_expected(&m.expected))?;
    let length = length_text(alloc, &m.expected)?;
    let line = format!(in alloc; "{never}{bytes}{length}\n")?;
    text.extend_from_slice(line.as_bytes())
}

/// Puts these lines of all endpoints behind a text.
fn put_all_missing(
    alloc: Global,
    text: &mut Vec<u8>,
    missing: &[MissingPackets],
) -> Result<(), AllocError>
    ensures { IfOk result (λ _. text.new.items ≡ text.old.items ++ flat_map missing_line missing.now) }
{
    for m in missing {
        put_missing(alloc, text, m)?;
    }
    Ok(())
}

/// Puts the line of how many packets differ or never came behind a text.
fn put_total(alloc: Global, text: &mut Vec<u8>, total: usize) -> Result<(), AllocError>
    ensures { IfOk result (λ _. text.new.items ≡ text.old.items ++ total_line total) }
{
    let s = plural_end(total);
    let line = format!(in alloc;
        "# what was written isn't what the scenario expects: {total} difference{s}\n"
    )?;
    text.extend_from_slice(line.as_bytes())
}

impl Unexpected {
    /// Its lines: of the first packet that differs, of what never came, and of how many packets that are.
    pub fn lines(&self, alloc: Global) -> Result<Vec<u8>, AllocError>
        ensures { IfOk result (λ text. text.items ≡ unexpected_text self.now) }
    {
        let mut text = Vec::new(alloc);
        put_first(alloc, &mut text, &self.first)?;
        put_all_missing(alloc, &mut text, self.missing.as_slice())?;
        put_total(alloc, &mut text, self.total)?;
        Ok(text)
    }
}
