//! Pages of the tests that failed.

ghost use Rattle.std.specs.Prelude.{◌≡◌};

use super::Testing;
use crate::page::{FailedTest, Showing, page};
use std::alloc::{AllocError, Global};
use std::io::Write;
use std::rt::Files;
use std::{fs, io};
use trace_test::TestOutcome;

/// The number of the line that differs, or that took the first packet which isn't as expected; None where there is none.
fn line_of(outcome: &TestOutcome) -> Option<u64> {
    match outcome {
        TestOutcome::Passed => None,
        TestOutcome::Differs(difference) => Some(difference.line),
        TestOutcome::Unexpected(unexpected) => match &unexpected.first {
            Some(first) => Some(first.line),
            None => None,
        },
    }
}

/// The path of the page of a file's test: the file's own below the folder of all. What leads up or nowhere, `..`, `.` and nothing between two
/// slashes, leads nowhere there.
fn path_of(alloc: Global, folder: &str, file: &str) -> Result<String, AllocError> {
    let mut path = String::from_str(alloc, folder.strip_suffix('/').unwrap_or(folder))?;
    for name in file.split('/') {
        if !matches!(name, "" | "." | "..") {
            path.push('/')?;
            path.push_str(name)?;
        }
    }
    path.push_str(".html")?;
    Ok(path)
}

/// Writes a page into its folder, which is made if it isn't there.
fn write_page_to<R: Files>(rt: &R, path: &str, page: &[u8]) -> io::Result<()> {
    if let Some((folder, _name)) = path.rsplit_once('/') {
        fs::create_dir_all(rt, folder)?;
    }
    fs::write(rt, path, page)
}

impl<S: Showing, W: Write, E: Write> Testing<'_, '_, '_, S, W, E> {
    /// Writes the page of a test that failed, where pages are wanted. One that can't be written is told on standard error.
    pub(super) fn write_page<R: Files>(
        &mut self,
        rt: &R,
        file: &str,
        text: &[u8],
        outcome: &TestOutcome,
        told: &[u8],
    ) -> io::Result<()>
        ensures { self.new.counting ≡ self.old.counting }
    {
        let Some(folder) = self.pages else {
            return Ok(());
        };
        let line = line_of(outcome);
        let failed = FailedTest {
            file,
            text,
            told,
            line,
        };
        let run = self.shows.shown_run(self.alloc, text, failed.lines())?;
        let page = page(self.alloc, &failed, &run)?;
        let path = path_of(self.alloc, folder, file)?;
        if write_page_to(rt, path.as_str(), page.as_slice()).is_err() {
            let _ = write!(self.err, "usbtrace: {path} can't be written\n");
        }
        Ok(())
    }
}
