//! Where a test differs.

use trace_judged::Unexpected;
use usb_model::Bytes;

/// A line that expects something else than there is.
#[derive(Drop)]
pub struct Difference {
    /// Its number, from 1.
    pub line: u64,
    /// What it expects.
    pub wanted: Bytes,
    /// What there is; `NOTHING` where there is nothing.
    pub got: Bytes,
}

/// What came of a test.
#[derive(Drop)]
pub enum TestOutcome {
    /// Each line that expects something found it.
    Passed,
    /// This is the first that didn't.
    Differs(Difference),
    /// Each found it, but the run wrote something else than its scripts expect.
    Unexpected(Unexpected),
}
