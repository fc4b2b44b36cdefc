//! A test whose lines expect what there is.

use std::alloc::{AllocError, Global};
use trace_test::Correction;

/// Why a line that differs stays.
#[derive(Clone, Copy, PartialEq, Eq)]
pub enum StayCause {
    /// It stands in the body of a macro, which may be called elsewhere too.
    Macro,
    /// It is right but for the carriage return at its end.
    CarriageReturn,
}

impl StayCause {
    /// How it is told, behind `differs`.
    pub fn words(self) -> &'static str {
        match self {
            StayCause::Macro => "within its macro",
            StayCause::CarriageReturn => "by its carriage return",
        }
    }
}

/// A line that differs and stays.
#[derive(Clone, Copy)]
pub struct StayingLine {
    /// Its number, or that of the line that calls its macro.
    pub line: u64,
    /// Why it stays.
    pub cause: StayCause,
}

/// A test whose lines expect what there is, where they can.
#[derive(Drop)]
pub struct Corrected {
    /// Its text.
    pub text: Vec<u8>,
    /// How many of its lines are others now.
    pub count: u64,
    /// Those that differ and stay.
    pub staying: Vec<StayingLine>,
}

/// How many bytes of a line stand in front of what it expects.
fn front_length(line: &[u8]) -> usize {
    if line.starts_with(b"expect left ") {
        return 12;
    }
    if line.starts_with(b"expect ") {
        return 7;
    }
    match line.windows(4).position(|part| part == b" -> ".as_slice()) {
        Some(at) => at.saturating_add(4),
        None => line.len(),
    }
}

/// A line that expects what there is. A carriage return at its end stays.
fn corrected_line(alloc: Global, line: &[u8], got: &[u8]) -> Result<Vec<u8>, AllocError> {
    let (said, end) = match line.strip_suffix(b"\r") {
        Some(said) => (said, b"\r".as_slice()),
        None => (line, b"".as_slice()),
    };
    let front = said.get(..front_length(said)).unwrap_or(said);
    let mut text = front.to_vec(alloc)?;
    text.extend_from_slice(got)?;
    text.extend_from_slice(end)?;
    Ok(text)
}

impl Corrected {
    /// No line.
    fn new(alloc: Global) -> Corrected {
        Corrected {
            text: Vec::new(alloc),
            count: 0,
            staying: Vec::new(alloc),
        }
    }

    /// Adds a line that differs and stays, once.
    fn stay(&mut self, line: u64, cause: StayCause) -> Result<(), AllocError> {
        let last: Option<&StayingLine> = self.staying.last();
        if let Some(last) = last {
            if last.line == line {
                return Ok(());
            }
        }
        self.staying.push(StayingLine { line, cause })?;
        Ok(())
    }

    /// Adds a line with its correction.
    fn put(
        &mut self,
        alloc: Global,
        line: &[u8],
        correction: &Correction,
    ) -> Result<(), AllocError> {
        let right = corrected_line(alloc, line, correction.got.as_slice())?;
        if right.as_slice() == line {
            self.stay(correction.line, StayCause::CarriageReturn)?;
        } else {
            self.count = self.count.saturating_add(1);
        }
        self.text.extend_from_slice(right.as_slice())
    }

    /// Adds the lines of a text, and to each its correction. These are in the order of the lines, at most one for each.
    fn put_lines(
        &mut self,
        alloc: Global,
        text: &[u8],
        corrections: &[&Correction],
    ) -> Result<(), AllocError> {
        let mut corrections = corrections.iter();
        let mut next = corrections.next();
        let mut at: u64 = 0;
        for line in text.split(|byte| *byte == b'\n') {
            if at > 0 {
                self.text.push(b'\n')?;
            }
            at = at.saturating_add(1);
            match next {
                Some(correction) if correction.line == at => {
                    self.put(alloc, line, correction)?;
                    next = corrections.next();
                }
                _ => self.text.extend_from_slice(line)?,
            }
        }
        Ok(())
    }
}

/// A test with its corrections, which are those of its text.
pub fn with_corrections(
    alloc: Global,
    text: &[u8],
    corrections: &[Correction],
) -> Result<Corrected, AllocError> {
    let mut corrected = Corrected::new(alloc);
    let mut own = Vec::new(alloc);
    for correction in corrections {
        if correction.is_within {
            corrected.stay(correction.line, StayCause::Macro)?;
        } else {
            own.push(correction)?;
        }
    }
    corrected.put_lines(alloc, text, own.as_slice())?;
    Ok(corrected)
}
