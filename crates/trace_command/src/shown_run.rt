//! The run of a test, as `explain` and `draw` tell it.

use std::alloc::{AllocError, Global};
use trace_main::trace;
use trace_suite::{Showing, ShownRun};
use trace_threads::Nobody;

/// What the program prints over a text with these words, which ask for no threads; None where it doesn't end well.
fn traced(alloc: Global, words: &[&str], text: &[u8]) -> Option<Vec<u8>> {
    let (mut input, mut out, mut err) = (text, Vec::new(alloc), Vec::new(alloc));
    let status = trace(&Nobody, alloc, words, &mut input, &mut out, &mut err);
    (status == 0).then_some(out)
}

/// What `explain` prints; None where it doesn't read the text.
fn explained(alloc: Global, text: &[u8]) -> Option<Vec<u8>> {
    traced(alloc, &["usbtrace", "explain"], text)
}

/// A picture of some lines; nothing where there is none.
fn picture(alloc: Global, text: &[u8], lines: (u64, u64)) -> Result<Vec<u8>, AllocError> {
    let (from, to) = lines;
    let (from, to) = (format!(in alloc; "{from}")?, format!(in alloc; "{to}")?);
    let words = [
        "usbtrace",
        "draw",
        "--from",
        from.as_str(),
        "--to",
        to.as_str(),
    ];
    Ok(traced(alloc, &words, text).unwrap_or(Vec::new(alloc)))
}

/// Shows runs as `explain` and `draw` tell them.
#[derive(Drop)]
pub struct TracedRuns;

impl Showing for TracedRuns {
    fn shown_run(
        &self,
        alloc: Global,
        text: &[u8],
        lines: (u64, u64),
    ) -> Result<ShownRun, AllocError> {
        Ok(ShownRun {
            explained: explained(alloc, text).unwrap_or(Vec::new(alloc)),
            picture: picture(alloc, text, lines)?,
        })
    }
}
