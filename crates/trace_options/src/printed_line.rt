//! The lines that `run`, `explain`, `check` and `test` print, read again.

/// Whose lines are read.
#[derive(Clone, Copy, PartialEq, Eq)]
pub enum PrintedBy {
    /// Those of `run`, `explain` and `check`.
    Run,
    /// Those of a test.
    Test,
    /// Those of tests, each behind the name of its file.
    Tests,
}

/// An entry's line.
#[derive(Clone, Copy)]
pub struct EntryLine<'a> {
    /// The number and the text of its step's line, where they stand before it.
    pub step: Option<(&'a str, &'a str)>,
    /// The number of its handle.
    pub handle: Option<&'a str>,
    /// Its reply.
    pub reply: &'a str,
}

/// What came of a test.
#[derive(Clone, Copy)]
pub enum TestResult<'a> {
    /// It is passed.
    Passed,
    /// It wasn't made.
    Untested,
    /// The line of this number differs.
    Differs(&'a str),
    /// A packet isn't as expected: the first sentence of a report.
    Unexpected(&'a str),
}

/// A printed line.
#[derive(Clone, Copy)]
pub enum PrintedLine<'a> {
    /// An entry.
    Entry(EntryLine<'a>),
    /// The packet of the entry above: its endpoint, and so on.
    Packet(&'a str),
    /// Why the entry above came.
    Reason(&'a str),
    /// A sentence of the report of packets that aren't as expected.
    Report(&'a str),
    /// The number of a bad line, and what is wrong with it.
    Bad(&'a str, &'a str),
    /// How many more bad lines there are.
    More(&'a str),
    /// How many devices, scripts and steps there are.
    Counts(&'a str, &'a str, &'a str),
    /// The file of a test, if there are several, and what came of it.
    Result(Option<&'a str>, TestResult<'a>),
    /// What the line above wants.
    Wanted(&'a str),
    /// What came in its place.
    Got(&'a str),
    /// Why the file above isn't tested.
    Why(&'a str),
    /// How many tests are passed, and how many failed.
    Tally(&'a str, &'a str),
    /// None of these.
    Other,
}

/// Whether a word is a decimal number as it is printed.
pub fn is_number(word: &str) -> bool {
    let digits = word.as_bytes();
    !digits.is_empty()
        && digits.iter().all(u8::is_ascii_digit)
        && (word == "0" || !word.starts_with('0'))
}

/// A number, if a word is one.
fn number(word: &str) -> Option<&str> {
    if is_number(word) { Some(word) } else { None }
}

/// The number in front of a noun, which may stand for one or several.
fn counted<'a>(part: &'a str, noun: &str) -> Option<&'a str> {
    let (count, word) = part.split_once(' ')?;
    if word.strip_suffix('s').unwrap_or(word) != noun {
        return None;
    }
    number(count)
}

/// The counts of a check.
fn counts(line: &str) -> Option<PrintedLine<'_>> {
    let (devices, rest) = line.split_once(", ")?;
    let (scripts, steps) = rest.split_once(", ")?;
    Some(PrintedLine::Counts(
        counted(devices, "device")?,
        counted(scripts, "script")?,
        counted(steps, "step")?,
    ))
}

/// A bad line.
fn bad(line: &str) -> Option<PrintedLine<'_>> {
    let (at, problem) = line.strip_prefix("line ")?.split_once(": ")?;
    Some(PrintedLine::Bad(number(at)?, problem))
}

/// How many more bad lines there are.
fn more(line: &str) -> Option<PrintedLine<'_>> {
    let count = line.strip_prefix("more bad lines: ")?;
    Some(PrintedLine::More(number(count)?))
}

/// The number of an entry's handle; None where it is nobody's. An outer None where a word is neither.
fn handle(owner: &str) -> Option<Option<&str>> {
    if owner == "-" {
        return Some(None);
    }
    Some(Some(number(owner.strip_prefix('h')?)?))
}

/// An entry behind its step, if that stands there.
fn entry<'a>(step: Option<(&'a str, &'a str)>, entry: &'a str) -> Option<PrintedLine<'a>> {
    let (owner, reply) = entry.split_once(' ')?;
    let handle = handle(owner)?;
    Some(PrintedLine::Entry(EntryLine {
        step,
        handle,
        reply,
    }))
}

/// A line of an entry, behind its step or alone.
fn entry_line(line: &str) -> Option<PrintedLine<'_>> {
    let Some((front, behind)) = line.rsplit_once(" | ") else {
        return entry(None, line);
    };
    let (at, step) = front.split_once(' ')?;
    entry(Some((number(at)?, step)), behind)
}

/// What stands below an entry.
fn below(line: &str) -> Option<PrintedLine<'_>> {
    let told = line.strip_prefix("    ")?;
    match told.strip_prefix("packet ep ") {
        Some(packet) => Some(PrintedLine::Packet(packet)),
        None => Some(PrintedLine::Reason(told)),
    }
}

/// A sentence of a report.
fn report(line: &str) -> Option<PrintedLine<'_>> {
    Some(PrintedLine::Report(line.strip_prefix("# ")?))
}

/// A line of `run`, `explain` or `check`.
fn run_line(line: &str) -> PrintedLine<'_> {
    below(line)
        .or(entry_line(line))
        .or(report(line))
        .or(bad(line))
        .or(more(line))
        .or(counts(line))
        .unwrap_or(PrintedLine::Other)
}

/// What came of a test.
fn test_end(told: &str) -> Option<TestResult<'_>> {
    match told {
        "passed" => return Some(TestResult::Passed),
        "not tested" => return Some(TestResult::Untested),
        _ => {}
    }
    if let Some(sentence) = told.strip_prefix("# ") {
        return Some(TestResult::Unexpected(sentence));
    }
    let at = told.strip_prefix("line ")?.strip_suffix(" differs")?;
    Some(TestResult::Differs(number(at)?))
}

/// What came of a test, alone.
fn alone(line: &str) -> Option<PrintedLine<'_>> {
    Some(PrintedLine::Result(None, test_end(line)?))
}

/// What came of a test, behind the name of its file.
fn named(line: &str) -> Option<PrintedLine<'_>> {
    let (file, told) = line.rsplit_once(": ")?;
    if let Some(end) = test_end(told) {
        return Some(PrintedLine::Result(Some(file), end));
    }
    let (file, sentence) = line.split_once(": # ")?;
    Some(PrintedLine::Result(Some(file), TestResult::Unexpected(sentence)))
}

/// What stands below the result of a test.
fn told_below(line: &str) -> Option<PrintedLine<'_>> {
    if let Some(wanted) = line.strip_prefix("  wanted ") {
        return Some(PrintedLine::Wanted(wanted));
    }
    if let Some(got) = line.strip_prefix("  got    ") {
        return Some(PrintedLine::Got(got));
    }
    Some(PrintedLine::Why(line.strip_prefix("  reason ")?))
}

/// How many tests are passed, and how many failed.
fn tally(line: &str) -> Option<PrintedLine<'_>> {
    let (passed, rest) = line.split_once(" passed, ")?;
    let failed = rest.strip_suffix(" failed")?;
    Some(PrintedLine::Tally(number(passed)?, number(failed)?))
}

/// A line of a test.
fn test_line(line: &str) -> PrintedLine<'_> {
    told_below(line)
        .or(alone(line))
        .unwrap_or(PrintedLine::Other)
}

/// A line of tests.
fn tests_line(line: &str) -> PrintedLine<'_> {
    told_below(line)
        .or(tally(line))
        .or(named(line))
        .or(report(line))
        .unwrap_or(PrintedLine::Other)
}

/// Reads a line, which has no line feed.
pub fn read_line(by: PrintedBy, line: &str) -> PrintedLine<'_> {
    match by {
        PrintedBy::Run => run_line(line),
        PrintedBy::Test => test_line(line),
        PrintedBy::Tests => tests_line(line),
    }
}
