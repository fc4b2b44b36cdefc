//! Tests of files whose lines are made to expect what there is.

use super::{Testing, is_passed, whole_of};
use crate::corrected::{Corrected, with_corrections};
use crate::page::Showing;
use std::io::Write;
use std::rt::Files;
use std::{fs, io};
use trace_options::{folder_of, inserted};
use trace_test::{Correction, corrections, test};

/// What stands at the end of a noun for so many.
fn plural_end(count: u64) -> &'static str {
    if count == 1 { "" } else { "s" }
}

impl<S: Showing, W: Write, E: Write> Testing<'_, '_, '_, S, W, E> {
    /// Rewrites the lines of a test that differ, and tells how many they are; tests it where none does. Its text has the bytes of the files that the
    /// given one names.
    pub(super) fn update_text<R: Files>(
        &mut self,
        rt: &R,
        file: &str,
        given: &[u8],
        text: &[u8],
    ) -> io::Result<()> {
        let found = match corrections(self.alloc, text) {
            Ok(found) => found,
            Err(fault) => return self.refuse_text(file, text, fault),
        };
        if found.is_empty() {
            return self.test_text(rt, file, text);
        }
        self.update_lines(rt, file, given, found.as_slice())
    }

    /// Rewrites the lines of a test by their corrections, of which there are some.
    fn update_lines<R: Files>(
        &mut self,
        rt: &R,
        file: &str,
        text: &[u8],
        found: &[Correction],
    ) -> io::Result<()> {
        let corrected: Corrected = with_corrections(self.alloc, text, found)?;
        if corrected.count > 0 && fs::write(rt, file, corrected.text.as_slice()).is_err() {
            let _ = write!(self.err, "usbtrace: {file} can't be written\n");
            self.counting.tally.count(false);
            return write!(self.out, "{file}: not updated\n");
        }
        self.tell_updated(file, &corrected)?;
        if corrected.staying.is_empty() {
            self.test_written(rt, file, corrected.text.as_slice())
        } else {
            self.counting.tally.count(false);
            Ok(())
        }
    }

    /// Tells which lines differ and stay, and how many are others now.
    fn tell_updated(&mut self, file: &str, corrected: &Corrected) -> io::Result<()> {
        for staying in corrected.staying.iter() {
            let (line, words) = (staying.line, staying.cause.words());
            write!(
                self.out,
                "{file}: line {line} differs {words}: not updated\n"
            )?;
        }
        let count = corrected.count;
        if count == 0 {
            return Ok(());
        }
        let end = plural_end(count);
        write!(self.out, "{file}: {count} line{end} updated\n")
    }

    /// Tests what was written, with the bytes of the files that it names.
    fn test_written<R: Files>(&mut self, rt: &R, file: &str, given: &[u8]) -> io::Result<()> {
        match inserted(rt, self.alloc, folder_of(file), given) {
            Ok(whole) => self.test_updated(rt, file, whole_of(given, &whole)),
            Err(fault) => self.refuse_fault(file, &fault),
        }
    }

    /// Tests a text, and tells what came of it where it still isn't passed.
    fn test_updated<R: Files>(&mut self, rt: &R, file: &str, text: &[u8]) -> io::Result<()> {
        let outcome = match test(self.alloc, text) {
            Ok(outcome) => outcome,
            Err(fault) => return self.refuse_text(file, text, fault),
        };
        if is_passed(&outcome, self.counting.is_lenient) {
            self.counting.tally.count(true);
            return Ok(());
        }
        self.tell(rt, file, text, &outcome)
    }
}
