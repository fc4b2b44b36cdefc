//! Printed lines as objects of JSON, one a line.

use crate::json::JsonText;
use crate::json_entry::{packet_member, reply_members};
use crate::printed_line::{EntryLine, PrintedLine, TestResult};
use std::alloc::{AllocError, Global};

/// What the object that is open may have yet.
#[derive(Clone, Copy, PartialEq, Eq)]
enum OpenObject {
    /// None is open.
    Nothing,
    /// Nothing more.
    Whole,
    /// A packet or a reason.
    Entry,
    /// What was wanted, and what came.
    Difference,
    /// Why a file isn't tested.
    Untested,
    /// More sentences.
    Report,
}

/// The objects of printed lines.
#[derive(Drop)]
pub struct JsonLines {
    alloc: Global,
    /// Those that are whole, as far as they aren't taken.
    whole: JsonText,
    /// The one that is open.
    text: JsonText,
    open: OpenObject,
}

impl JsonLines {
    /// None.
    pub fn new(alloc: Global) -> JsonLines {
        JsonLines {
            alloc,
            whole: JsonText::new(alloc),
            text: JsonText::new(alloc),
            open: OpenObject::Nothing,
        }
    }

    /// Those that are whole, as far as they aren't taken.
    pub fn as_bytes(&self) -> &[u8] {
        self.whole.as_bytes()
    }

    /// Takes those that are whole.
    pub fn clear(&mut self) {
        self.whole.clear();
    }

    /// Ends the object that is open.
    pub fn end(&mut self) -> Result<(), AllocError> {
        let end = match self.open {
            OpenObject::Nothing => "",
            OpenObject::Report => "]}\n",
            _ => "}\n",
        };
        self.text.put(end)?;
        self.whole.put_all(&self.text)?;
        self.text.clear();
        self.open = OpenObject::Nothing;
        Ok(())
    }

    /// Begins an object.
    fn begin(&mut self, open: OpenObject) -> Result<(), AllocError> {
        self.end()?;
        self.open = open;
        self.text.put("{")
    }

    /// Puts an object that has one string.
    fn put_alone(&mut self, key: &str, text: &str) -> Result<(), AllocError> {
        self.begin(OpenObject::Whole)?;
        self.text.put_text(key, text)
    }

    /// Puts an object of numbers.
    fn put_numbers(&mut self, numbers: &[(&str, &str)]) -> Result<(), AllocError> {
        self.begin(OpenObject::Whole)?;
        for (key, number) in numbers {
            self.text.put_number(key, number)?;
        }
        Ok(())
    }

    /// Puts an object of a bad line.
    fn put_bad(&mut self, number: &str, problem: &str) -> Result<(), AllocError> {
        self.put_numbers(&[("line", number)])?;
        self.text.put_text("problem", problem)
    }

    /// Puts the step of an entry, and its handle.
    fn put_place(&mut self, entry: &EntryLine<'_>) -> Result<(), AllocError> {
        if let Some((number, step)) = entry.step {
            self.text.put_number("line", number)?;
            self.text.put_text("step", step)?;
        }
        match entry.handle {
            Some(handle) => self.text.put_number("handle", handle),
            None => self.text.put_null("handle"),
        }
    }

    /// Puts an object of an entry; the line itself where its reply isn't known.
    fn put_entry(&mut self, entry: &EntryLine<'_>, line: &str) -> Result<(), AllocError> {
        let Some(members) = reply_members(self.alloc, entry.reply)? else {
            return self.put_alone("text", line);
        };
        self.begin(OpenObject::Entry)?;
        self.put_place(entry)?;
        self.text.put_all(&members)
    }

    /// Puts the packet of the entry that is open; the line itself where its form isn't known.
    fn put_packet(&mut self, packet: &str, line: &str) -> Result<(), AllocError> {
        let Some(member) = packet_member(self.alloc, packet)? else {
            return self.put_alone("text", line);
        };
        self.open = OpenObject::Whole;
        self.text.put_all(&member)
    }

    /// Puts a member of the object that is open.
    fn put_below(&mut self, open: OpenObject, key: &str, text: &str) -> Result<(), AllocError> {
        self.open = open;
        self.text.put_text(key, text)
    }

    /// Puts one more sentence of the report that is open.
    fn put_sentence(&mut self, sentence: &str) -> Result<(), AllocError> {
        self.text.put(",")?;
        self.text.put_string(sentence)
    }

    /// Begins an object of a test.
    fn begin_test(
        &mut self,
        open: OpenObject,
        file: Option<&str>,
        end: &str,
    ) -> Result<(), AllocError> {
        self.begin(open)?;
        if let Some(file) = file {
            self.text.put_text("file", file)?;
        }
        self.text.put_text("result", end)
    }

    /// Puts an object of a test.
    fn put_test(&mut self, file: Option<&str>, end: TestResult<'_>) -> Result<(), AllocError> {
        match end {
            TestResult::Passed => self.begin_test(OpenObject::Whole, file, "passed"),
            TestResult::Untested => self.begin_test(OpenObject::Untested, file, "not tested"),
            TestResult::Differs(line) => {
                self.begin_test(OpenObject::Difference, file, "failed")?;
                self.text.put_number("line", line)
            }
            TestResult::Unexpected(sentence) => {
                self.begin_test(OpenObject::Report, file, "unexpected")?;
                self.text.put_key("report")?;
                self.text.put("[")?;
                self.text.put_string(sentence)
            }
        }
    }

    /// Puts a line that may belong to the object that is open; whether it does.
    fn is_put_below(&mut self, read: &PrintedLine<'_>, line: &str) -> Result<bool, AllocError> {
        match (self.open, read) {
            (OpenObject::Entry, PrintedLine::Packet(packet)) => self.put_packet(packet, line)?,
            (OpenObject::Entry, PrintedLine::Reason(reason)) => {
                self.put_below(OpenObject::Whole, "reason", reason)?;
            }
            (OpenObject::Difference, PrintedLine::Wanted(text)) => {
                self.put_below(OpenObject::Difference, "wanted", text)?;
            }
            (OpenObject::Difference, PrintedLine::Got(text)) => {
                self.put_below(OpenObject::Whole, "got", text)?;
            }
            (OpenObject::Untested, PrintedLine::Why(text)) => {
                self.put_below(OpenObject::Whole, "reason", text)?;
            }
            (
                OpenObject::Report,
                PrintedLine::Report(sentence)
                | PrintedLine::Result(None, TestResult::Unexpected(sentence)),
            ) => self.put_sentence(sentence)?,
            _ => return Ok(false),
        }
        Ok(true)
    }

    /// Puts a line, as it is read, behind them.
    pub fn put(&mut self, read: &PrintedLine<'_>, line: &str) -> Result<(), AllocError> {
        if self.is_put_below(read, line)? {
            return Ok(());
        }
        match read {
            PrintedLine::Entry(entry) => self.put_entry(entry, line),
            PrintedLine::Report(sentence) => self.put_alone("report", sentence),
            PrintedLine::Bad(number, problem) => self.put_bad(number, problem),
            PrintedLine::More(count) => self.put_numbers(&[("more", count)]),
            PrintedLine::Counts(devices, scripts, steps) => self.put_numbers(&[
                ("devices", devices),
                ("scripts", scripts),
                ("steps", steps),
            ]),
            PrintedLine::Result(file, end) => self.put_test(*file, *end),
            PrintedLine::Tally(passed, failed) => {
                self.put_numbers(&[("passed", passed), ("failed", failed)])
            }
            _ => self.put_alone("text", line),
        }
    }
}
