//! The tests that a command line asks for.

ghost use Rattle.std.specs.Prelude.{◌≡◌, ◌⊎◌, false};
ghost use Rattle.trace_suite.specs.Tests.{HasBadOption, IsStatusOf, no_tests};

use crate::page::Showing;
use crate::testing::run_tests;
use std::alloc::Global;
use std::io::Write;
use std::rt::Files;
use trace_options::{CommandLine, OutputOption, refuse_html, refuse_junit, refuse_update};

/// Tests the files of a command line, and those in its folders, and answers the status. Where its options don't fit, says so and tests none.
pub fn test_line<T: Files + Alloc + Clone + Drop, S: Showing, W: Write, E: Write>(
    rt: &T,
    alloc: Global,
    shows: &S,
    line: &CommandLine<'_>,
    out: &mut W,
    err: &mut E,
) -> u8
    ensures { line.now.is_update ≡ false
        → IsStatusOf line.now.files.items (record { is_lenient = line.now.is_lenient; is_update = false; tally = no_tests }) result ⊎ ((result ≡ 2) × HasBadOption line.now) }
{
    let junit = match line.junit {
        OutputOption::Unasked => None,
        OutputOption::Into(file) => Some(file),
        OutputOption::Bad => return refuse_junit(err),
    };
    let pages = match line.html {
        OutputOption::Unasked => None,
        OutputOption::Into(folder) => Some(folder),
        OutputOption::Bad => return refuse_html(err),
    };
    if line.is_update && (junit.is_some() || pages.is_some()) {
        return refuse_update(err);
    }
    run_tests(rt, alloc, shows, line, junit, pages, out, err)
}
