//! What is printed, in the form that is asked for.

use crate::colours::{colour_of, put_coloured};
use crate::json_lines::JsonLines;
use crate::printed_line::{PrintedBy, read_line};
use std::alloc::{AllocError, Global};
use std::io;
use std::io::Write;

/// The form of what is printed.
#[derive(Clone, Copy, PartialEq, Eq)]
pub enum PrintedForm {
    /// Lines as they are.
    Lines,
    /// With colours.
    Coloured,
    /// As objects of JSON.
    Json,
}

/// Takes what is printed, and writes it in a form.
pub struct Printed<'a, W> {
    alloc: Global,
    form: PrintedForm,
    by: PrintedBy,
    /// The beginning of a line that isn't whole.
    line: Vec<u8>,
    /// What isn't written yet: of one of these forms.
    coloured: Vec<u8>,
    objects: JsonLines,
    /// Whether it could not be written or had no room.
    is_failed: bool,
    out: &'a mut W,
}

impl<W> Drop for Printed<'_, W> {
    fn drop(self) {
        let Printed {
            alloc: _,
            form: _,
            by: _,
            line: _,
            coloured: _,
            objects: _,
            is_failed: _,
            out: _,
        } = self;
    }
}

/// A line's text, with a question mark in the place of what is none.
fn readable(alloc: Global, line: &[u8]) -> Result<String, AllocError> {
    let mut text = String::new(alloc);
    for chunk in line.utf8_chunks() {
        text.push_str(chunk.valid())?;
        if !chunk.invalid().is_empty() {
            text.push_str("?")?;
        }
    }
    Ok(text)
}

impl<'a, W: Write> Printed<'a, W> {
    /// What is printed so is written there in this form.
    pub fn new(alloc: Global, form: PrintedForm, by: PrintedBy, out: &'a mut W) -> Printed<'a, W> {
        Printed {
            alloc,
            form,
            by,
            line: Vec::new(alloc),
            coloured: Vec::new(alloc),
            objects: JsonLines::new(alloc),
            is_failed: false,
            out,
        }
    }

    /// Ends the line.
    fn end_line(&mut self) -> Result<(), AllocError> {
        let text = readable(self.alloc, self.line.as_slice())?;
        let read = read_line(self.by, text.as_str());
        if self.form == PrintedForm::Json {
            self.objects.put(&read, text.as_str())?;
        } else {
            put_coloured(&mut self.coloured, colour_of(&read), self.line.as_slice())?;
        }
        self.line.clear();
        Ok(())
    }

    /// Writes what isn't written yet.
    fn write_rest(&mut self) -> io::Result<()> {
        self.out.write_all(self.coloured.as_slice())?;
        self.coloured.clear();
        self.out.write_all(self.objects.as_bytes())?;
        self.objects.clear();
        Ok(())
    }

    /// Takes bytes, and writes the lines that they end.
    fn take(&mut self, bytes: &[u8]) -> io::Result<()> {
        for byte in bytes {
            if *byte == b'\n' {
                self.end_line()?;
            } else {
                self.line.push(*byte)?;
            }
        }
        self.write_rest()
    }

    /// Ends what is printed.
    fn end_all(&mut self) -> io::Result<()> {
        if !self.line.is_empty() {
            self.end_line()?;
        }
        self.objects.end()?;
        self.write_rest()?;
        self.out.flush()
    }

    /// Ends what is printed, where nothing failed before.
    pub fn end(&mut self) -> io::Result<()> {
        if self.is_failed || self.form == PrintedForm::Lines {
            return Ok(());
        }
        self.end_all()
    }
}

impl<W: Write> Write for Printed<'_, W> {
    fn write(&mut self, buf: &[u8]) -> io::Result<usize> {
        if self.form == PrintedForm::Lines {
            return self.out.write(buf);
        }
        match self.take(buf) {
            Ok(()) => Ok(buf.len()),
            Err(error) => {
                self.is_failed = true;
                Err(error)
            }
        }
    }

    fn flush(&mut self) -> io::Result<()> {
        self.out.flush()
    }
}
