//! What is told of a run that wrote something else than its scenario expects.

ghost use Rattle.std.specs.Prelude.{◌≡◌, IfOk, sum_by};
ghost use Rattle.trace_judged.specs.Report.{first_of, total_of, unexpected_of};

use crate::difference::Difference;
use crate::expected::{copy_expected, copy_of};
use crate::judged::Judged;
use crate::missing::MissingPackets;
use std::alloc::{AllocError, Global};
use usb_model::Sequence;

/// What is told of a run that wrote something else than its scenario expects.
#[derive(Debug, Drop)]
pub struct Unexpected {
    /// The first packet that differs, if one does.
    pub first: Option<Difference>,
    /// What never came, of each endpoint.
    pub missing: Sequence<MissingPackets>,
    /// How many packets differ or never came.
    pub total: usize,
}

/// A copy of a packet that differs.
fn copy_difference(alloc: Global, d: &Difference) -> Result<Difference, AllocError>
    ensures { IfOk result (λ copy. copy ≡ d.now) }
{
    Ok(Difference {
        line: d.line,
        dev: d.dev,
        ep: d.ep,
        index: d.index,
        came: copy_of(alloc, d.came.as_slice())?,
        expected: copy_expected(alloc, &d.expected)?,
        offset: d.offset,
    })
}

/// The first of some packets that differ.
fn first_of(alloc: Global, differences: &[Difference]) -> Result<Option<Difference>, AllocError>
    ensures { IfOk result (λ first. first ≡ first_of differences.now) }
{
    match differences {
        [first, ..] => Ok(Some(copy_difference(alloc, first)?)),
        [] => Ok(None),
    }
}

/// How many packets never came. An error where that is no number.
fn missing_in_all(missing: &[MissingPackets]) -> Result<usize, AllocError>
    ensures { IfOk result (λ count. count ≡ sum_by (λ m. m.count) missing.now) }
{
    let mut count: usize = 0;
    for m in missing {
        count = count.checked_add(m.count).ok_or(AllocError)?;
    }
    Ok(count)
}

/// How many packets differ or never came. An error where that is no number.
fn total_of(differences: &[Difference], missing: &[MissingPackets]) -> Result<usize, AllocError>
    ensures { IfOk result (λ total. total ≡ total_of differences.now missing.now) }
{
    let never = missing_in_all(missing)?;
    differences.len().checked_add(never).ok_or(AllocError)
}

impl Judged {
    /// What is told of the run; nothing where each packet is as expected and none is missing.
    pub fn into_unexpected(self, alloc: Global) -> Result<Option<Unexpected>, AllocError>
        ensures { IfOk result (λ u. u ≡ unexpected_of self.differences.items self.missing.items) }
    {
        let Judged {
            differences,
            missing,
        } = self;
        let total = total_of(differences.as_slice(), missing.as_slice())?;
        if total == 0 {
            return Ok(None);
        }
        Ok(Some(Unexpected {
            first: first_of(alloc, differences.as_slice())?,
            missing: Sequence::from_vec(missing),
            total,
        }))
    }
}
