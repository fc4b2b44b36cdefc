//! Tests of files, and of the files in folders.

ghost use Rattle.std.specs.Prelude.{◌≡◌, false, IfOk, OnOk};
ghost use Rattle.trace_options.specs.Status.{tests_status};
ghost use Rattle.trace_suite.specs.Tests.{CountsFile, CountsFiles, CountsFolder, CountsPath, CountsPaths, CountsTest, IsStatusOf, counted, no_tests, passes, with_one};

use crate::bad_line::first_bad_line;
use crate::expecting::expects_nothing;
use crate::folders::{is_folder, tests_in};
use crate::junit::{CaseEnd, TestCases};
use crate::page::Showing;
use std::alloc::Global;
use std::io::Write;
use std::rt::Files;
use std::{fs, io};
use trace_io::{Fault, read_whole};
use trace_options::{
    CommandLine, FAILED, InsertedFault, folder_of, inserted, tell_failure, tests_status,
};
use trace_test::{TestOutcome, report, test};

mod paging;
mod updating;

/// How many tests are passed, and how many failed.
#[derive(Clone, Copy)]
struct Tally {
    passed: u64,
    failed: u64,
}

impl Tally {
    /// Of no test.
    fn new() -> Tally
        ensures { result ≡ no_tests }
    {
        Tally {
            passed: 0,
            failed: 0,
        }
    }

    /// Counts a test.
    fn count(&mut self, is_passed: bool)
        ensures { self.new ≡ counted is_passed self.old }
    {
        if is_passed {
            self.passed = self.passed.saturating_add(1);
        } else {
            self.failed = self.failed.saturating_add(1);
        }
    }

    /// The status of these tests.
    fn status(&self) -> u8
        ensures { result ≡ tests_status self.now.failed }
    {
        tests_status(self.failed)
    }
}

/// How tests are counted, and how they are.
#[derive(Clone, Copy)]
struct Counting {
    /// Whether a test is passed whose packets aren't as expected.
    is_lenient: bool,
    /// Whether the lines that differ are rewritten.
    is_update: bool,
    tally: Tally,
}

/// Tests that are being made: the streams on which is told what comes of them.
struct Testing<'a, 'p, 's, S, W, E> {
    alloc: Global,
    counting: Counting,
    /// Whether it is told on standard output too why a file isn't tested.
    tells_why: bool,
    /// The tests, if they are wanted in a file too.
    cases: Option<TestCases>,
    /// The folder of the pages, if these are wanted.
    pages: Option<&'p str>,
    /// What shows the runs of the pages.
    shows: &'s S,
    out: &'a mut W,
    err: &'a mut E,
}

impl<S, W, E> Drop for Testing<'_, '_, '_, S, W, E> {
    fn drop(self) {
        let Testing {
            alloc: _,
            counting: _,
            tells_why: _,
            cases: _,
            pages: _,
            shows: _,
            out: _,
            err: _,
        } = self;
    }
}

/// Whether a test is passed.
fn is_passed(outcome: &TestOutcome, is_lenient: bool) -> bool
    ensures { result ≡ passes is_lenient outcome.now }
{
    match outcome {
        TestOutcome::Passed => true,
        TestOutcome::Differs(_) => false,
        TestOutcome::Unexpected(_) => is_lenient,
    }
}

/// A text with the bytes of the files that it names.
fn whole_of<'a>(given: &'a [u8], whole: &'a Option<Vec<u8>>) -> &'a [u8] {
    match whole {
        Some(whole) => whole.as_slice(),
        None => given,
    }
}

impl<S: Showing, W: Write, E: Write> Testing<'_, '_, '_, S, W, E> {
    /// Notes a test for the file of all, where that is wanted.
    fn note(&mut self, file: &str, end: CaseEnd, told: &[u8]) -> io::Result<()>
        ensures { self.new.counting ≡ self.old.counting }
    {
        if let Some(cases) = &mut self.cases {
            cases.add(file, end, told)?;
        }
        Ok(())
    }

    /// Tells on standard error why a file isn't tested, behind its name and this, and on standard output that it failed.
    fn refuse(&mut self, file: &str, join: &str, why: &str) -> io::Result<()>
        ensures { OnOk result (self.new.counting ≡ with_one false self.old.counting) }
    {
        let _ = write!(self.err, "usbtrace: {file}{join}{why}\n");
        self.counting.tally.count(false);
        self.note(file, CaseEnd::Error, why.as_bytes())?;
        write!(self.out, "{file}: not tested\n")?;
        if self.tells_why {
            write!(self.out, "  reason {why}\n")?;
        }
        Ok(())
    }

    /// The same, where a fault ended it.
    fn refuse_fault(&mut self, file: &str, fault: &InsertedFault) -> io::Result<()>
        ensures { OnOk result (self.new.counting ≡ with_one false self.old.counting) }
    {
        let why = format!(in self.alloc; "{fault}")?;
        self.refuse(file, ": ", why.as_str())
    }

    /// The same, where a fault ended a test of this text; behind a bad line stands why that is bad.
    fn refuse_text(&mut self, file: &str, text: &[u8], fault: Fault) -> io::Result<()>
        ensures { OnOk result (self.new.counting ≡ with_one false self.old.counting) }
    {
        let Some(bad) = first_bad_line(self.alloc, text)? else {
            return self.refuse_fault(file, &InsertedFault::from(fault));
        };
        let why = format!(in self.alloc; "{fault}\n    {}", bad.why)?;
        self.refuse(file, ": ", why.as_str())
    }

    /// Tells what came of a test, behind the name of its file; and if it is passed and expects nothing, that on standard error. Of one that failed
    /// its page is written, where pages are wanted.
    fn tell<R: Files>(
        &mut self,
        rt: &R,
        file: &str,
        text: &[u8],
        outcome: &TestOutcome,
    ) -> io::Result<()>
        ensures { OnOk result (self.new.counting ≡ with_one (passes self.old.counting.is_lenient outcome.now) self.old.counting) }
    {
        let told = report(self.alloc, outcome)?;
        let is_passed = is_passed(outcome, self.counting.is_lenient);
        if is_passed && expects_nothing(self.alloc, text)? {
            let _ = write!(self.err, "usbtrace: {file} expects nothing\n");
        }
        self.counting.tally.count(is_passed);
        let end = if is_passed {
            CaseEnd::Passed
        } else {
            CaseEnd::Failure
        };
        self.note(file, end, told.as_slice())?;
        write!(self.out, "{file}: ")?;
        self.out.write_all(told.as_slice())?;
        if is_passed {
            return Ok(());
        }
        self.write_page(rt, file, text, outcome, told.as_slice())
    }

    /// Tests the text of a file, and tells what came of it behind its name.
    fn test_text<R: Files>(&mut self, rt: &R, file: &str, text: &[u8]) -> io::Result<()>
        ensures { OnOk result (CountsTest text.now self.old.counting self.new.counting) }
    {
        match test(self.alloc, text) {
            Ok(outcome) => self.tell(rt, file, text, &outcome),
            Err(fault) => self.refuse_text(file, text, fault),
        }
    }

    /// Tests the text of a file, which has the bytes of the files that it names, or rewrites the file's lines where that is asked for.
    fn test_or_update<R: Files>(
        &mut self,
        rt: &R,
        file: &str,
        given: &[u8],
        text: &[u8],
    ) -> io::Result<()>
        ensures { OnOk result (self.old.counting.is_update ≡ false → CountsTest text.now self.old.counting self.new.counting) }
    {
        if self.counting.is_update {
            self.update_text(rt, file, given, text)
        } else {
            self.test_text(rt, file, text)
        }
    }

    /// Tests a file, or rewrites its lines, and tells what came of it behind its name.
    fn test_file<R: Files>(&mut self, rt: &R, file: &str) -> io::Result<()>
        ensures { OnOk result (self.old.counting.is_update ≡ false → CountsFile self.old.counting self.new.counting) }
    {
        let Ok(mut input) = fs::open(rt, file) else {
            return self.refuse(file, " ", "can't be read");
        };
        let given = match read_whole(self.alloc, &mut input) {
            Ok(given) => given,
            Err(fault) => return self.refuse_fault(file, &InsertedFault::from(fault)),
        };
        match inserted(rt, self.alloc, folder_of(file), given.as_slice()) {
            Ok(whole) => {
                let text = whole_of(given.as_slice(), &whole);
                self.test_or_update(rt, file, given.as_slice(), text)
            }
            Err(fault) => self.refuse_fault(file, &fault),
        }
    }

    /// Tests files, one behind the other.
    fn test_files<R: Files>(&mut self, rt: &R, files: &[String]) -> io::Result<()>
        ensures { OnOk result (self.old.counting.is_update ≡ false → CountsFiles files.now self.old.counting self.new.counting) }
    {
        for file in files {
            self.test_file(rt, file.as_str())?;
        }
        Ok(())
    }

    /// Tests the files of a folder.
    fn test_folder<R: Files + Alloc + Clone + Drop>(
        &mut self,
        rt: &R,
        folder: &str,
    ) -> io::Result<()>
        ensures { OnOk result (self.old.counting.is_update ≡ false → CountsFolder self.old.counting self.new.counting) }
    {
        let Ok(files) = tests_in(rt, self.alloc, folder) else {
            return self.refuse(folder, " ", "can't be read");
        };
        if files.is_empty() {
            return self.refuse(folder, " ", "has no file whose name ends in .txt");
        }
        self.test_files(rt, files.as_slice())
    }

    /// Tests a file, or the files of a folder.
    fn test_path<R: Files + Alloc + Clone + Drop>(&mut self, rt: &R, path: &str) -> io::Result<()>
        ensures { OnOk result (self.old.counting.is_update ≡ false → CountsPath self.old.counting self.new.counting) }
    {
        if is_folder(rt, path) {
            return self.test_folder(rt, path);
        }
        self.test_file(rt, path)
    }

    /// Tests files and folders, and tells how many tests are passed.
    fn test_all<R: Files + Alloc + Clone + Drop>(
        &mut self,
        rt: &R,
        files: &[&str],
    ) -> io::Result<()>
        ensures { OnOk result (self.old.counting.is_update ≡ false → CountsPaths files.now self.old.counting self.new.counting) }
    {
        for file in files {
            self.test_path(rt, file)?;
        }
        let Tally { passed, failed } = self.counting.tally;
        write!(self.out, "{passed} passed, {failed} failed\n")?;
        self.out.flush()
    }

    /// Writes the tests into a file; whether it could be written.
    fn write_cases<R: Files>(&mut self, rt: &R, file: &str) -> io::Result<bool>
        ensures { self.new.counting ≡ self.old.counting }
    {
        let Some(cases) = &self.cases else {
            return Ok(true);
        };
        let text = cases.text()?;
        if fs::write(rt, file, text.as_slice()).is_ok() {
            return Ok(true);
        }
        let _ = write!(self.err, "usbtrace: {file} can't be written\n");
        Ok(false)
    }

    /// Tests files and folders, and writes what came of them into a file where that is wanted: the status.
    fn test_and_write<R: Files + Alloc + Clone + Drop>(
        &mut self,
        rt: &R,
        files: &[&str],
        junit: Option<&str>,
    ) -> io::Result<u8>
        ensures { IfOk result (λ status. self.old.counting.is_update ≡ false → IsStatusOf files.now self.old.counting status) }
    {
        self.test_all(rt, files)?;
        if let Some(file) = junit {
            if !self.write_cases(rt, file)? {
                return Ok(FAILED);
            }
        }
        Ok(self.counting.tally.status())
    }
}

/// Tests the files of a command line, and those in folders; tells what came of each, and how many are passed, and writes it into a file of
/// JUnit's form, and pages into a folder, where these are named.
pub fn run_tests<T: Files + Alloc + Clone + Drop, S: Showing, W: Write, E: Write>(
    rt: &T,
    alloc: Global,
    shows: &S,
    line: &CommandLine<'_>,
    junit: Option<&str>,
    pages: Option<&str>,
    out: &mut W,
    err: &mut E,
) -> u8
    ensures { line.now.is_update ≡ false → IsStatusOf line.now.files.items (record { is_lenient = line.now.is_lenient; is_update = false; tally = no_tests }) result }
{
    let cases = match junit {
        Some(_) => Some(TestCases::new(alloc)),
        None => None,
    };
    let mut testing = Testing {
        alloc,
        counting: Counting {
            is_lenient: line.is_lenient,
            is_update: line.is_update,
            tally: Tally::new(),
        },
        tells_why: line.is_json,
        cases,
        pages,
        shows,
        out,
        err,
    };
    match testing.test_and_write(rt, line.files.as_slice(), junit) {
        Ok(status) => status,
        Err(error) => {
            tell_failure(&error, testing.err);
            FAILED
        }
    }
}
