//! A test that failed, as a page of HTML: what differs, the lines around it with what their steps printed, and a picture of these steps.

use crate::junit::Xml;
use std::alloc::{AllocError, Global};

/// How many lines of a test are shown on either side of the one that differs.
const AROUND: u64 = 10;

/// What stands in front of the page's title.
const HEAD: &str = "<!DOCTYPE html>
<html lang='en'>
<head>
<meta charset='utf-8'/>
<title>";

/// What stands between the page's title and its heading.
const LOOK: &str = "</title>
<style>
:root { color-scheme: light; }
body { margin: 2em; background: #ffffff; color: #222a33; font: 14px/1.5 'DejaVu Sans', Verdana, Arial, sans-serif; }
pre, td { font: 13px/1.5 ui-monospace, 'DejaVu Sans Mono', Consolas, monospace; }
pre { margin: 0; white-space: pre-wrap; }
table { border-collapse: collapse; margin: 1em 0; }
td { padding: 1px 12px; vertical-align: top; }
td:first-child, pre.told { color: #6d7886; }
tr.differs { background: #fbe3dd; }
</style>
</head>
<body>
<h1>";

/// A test that failed.
#[derive(Drop)]
pub struct FailedTest<'a> {
    /// The path of its file.
    pub file: &'a str,
    /// Its lines.
    pub text: &'a [u8],
    /// What differs, in words.
    pub told: &'a [u8],
    /// The number of the line that differs, if one does.
    pub line: Option<u64>,
}

/// What is shown of its run.
#[derive(Drop)]
pub struct ShownRun {
    /// What `explain` prints, by the lines of the test.
    pub explained: Vec<u8>,
    /// A picture of the steps around the line that differs, an SVG document; nothing where there is none.
    pub picture: Vec<u8>,
}

/// Shows the run of a test, for its page.
pub trait Showing {
    /// What `explain` prints of a test, and a picture of some of its lines; nothing where the test can't be read.
    fn shown_run(
        &self,
        alloc: Global,
        text: &[u8],
        lines: (u64, u64),
    ) -> Result<ShownRun, AllocError>;
}

/// A line of `explain`, and the number of the line of the test that it is about.
#[derive(Clone, Copy)]
struct ToldLine<'a> {
    at: u64,
    text: &'a [u8],
}

/// The lines of a text, without the line feed at its end.
fn body(text: &[u8]) -> &[u8] {
    text.strip_suffix(b"\n").unwrap_or(text)
}

/// How many lines a text has.
fn line_count(text: &[u8]) -> u64 {
    let mut count: u64 = 0;
    for _ in body(text).split(|byte| *byte == b'\n') {
        count = count.saturating_add(1);
    }
    count
}

/// The number with which a line begins, in front of a space; None where it begins otherwise.
pub fn number_before(line: &[u8]) -> Option<u64> {
    let digits = line.split(|byte| *byte == b' ').next()?;
    str::from_utf8(digits).ok()?.parse::<u64>().ok()
}

impl FailedTest<'_> {
    /// The first and the last line that are shown: those around the line that differs; the last of the test where there is none.
    pub fn lines(&self) -> (u64, u64) {
        let Some(line) = self.line else {
            let count = line_count(self.text);
            return (count.saturating_sub(2 * AROUND).max(1), count);
        };
        (
            line.saturating_sub(AROUND).max(1),
            line.saturating_add(AROUND),
        )
    }
}

/// The lines of `explain` that are about some lines of a test. A reason is about the line of the entry above it.
fn told_lines<'a>(
    alloc: Global,
    explained: &'a [u8],
    lines: (u64, u64),
) -> Result<Vec<ToldLine<'a>>, AllocError> {
    let (from, to) = lines;
    let mut told = Vec::new(alloc);
    let mut at: u64 = 0;
    for text in body(explained).split(|byte| *byte == b'\n') {
        at = number_before(text).unwrap_or(at);
        if from <= at && at <= to {
            told.push(ToldLine { at, text })?;
        }
    }
    Ok(told)
}

/// Puts a line of a test, and below it what its steps printed.
fn put_line(
    alloc: Global,
    xml: &mut Xml,
    at: u64,
    line: &[u8],
    is_marked: bool,
    told: &[ToldLine<'_>],
) -> Result<(), AllocError> {
    xml.put(if is_marked {
        "<tr class='differs'><td>"
    } else {
        "<tr><td>"
    })?;
    xml.put(at.to_string(alloc)?.as_str())?;
    xml.put("</td><td><pre>")?;
    xml.put_bytes(line)?;
    xml.put("</pre><pre class='told'>")?;
    for one in told.iter().filter(|one| one.at == at) {
        xml.put_bytes(one.text)?;
        xml.put("\n")?;
    }
    xml.put("</pre></td></tr>\n")
}

/// Puts the lines of a test that are shown.
fn put_lines(
    alloc: Global,
    xml: &mut Xml,
    failed: &FailedTest<'_>,
    explained: &[u8],
) -> Result<(), AllocError> {
    let (from, to) = failed.lines();
    let told = told_lines(alloc, explained, (from, to))?;
    let mut at: u64 = 0;
    for line in body(failed.text).split(|byte| *byte == b'\n') {
        at = at.saturating_add(1);
        if from <= at && at <= to {
            let is_marked = failed.line == Some(at);
            put_line(alloc, xml, at, line, is_marked, told.as_slice())?;
        }
    }
    Ok(())
}

/// The page of a test that failed.
pub fn page(alloc: Global, failed: &FailedTest<'_>, run: &ShownRun) -> Result<Vec<u8>, AllocError> {
    let mut xml = Xml::new(alloc);
    xml.put(HEAD)?;
    xml.put_name(failed.file)?;
    xml.put(LOOK)?;
    xml.put_name(failed.file)?;
    xml.put("</h1>\n<pre>")?;
    xml.put_bytes(failed.told)?;
    xml.put("</pre>\n<table>\n")?;
    put_lines(alloc, &mut xml, failed, run.explained.as_slice())?;
    xml.put("</table>\n")?;
    xml.put_document(run.picture.as_slice())?;
    xml.put("</body>\n</html>\n")?;
    let Xml { bytes } = xml;
    Ok(bytes)
}
