//! The colours of printed lines.

ghost use Rattle.std.specs.Prelude.{◌≡◌};
ghost use Rattle.trace_options.specs.declared.colours.ColourOption.TheVariants.{Unsaid};

use crate::printed_line::{PrintedLine, TestResult};
use std::alloc::AllocError;

/// What a terminal is sent before a text that is good, that isn't, and that is said aside.
const GREEN: &str = "\x1b[32m";

const RED: &str = "\x1b[31m";

const DIM: &str = "\x1b[2m";

/// What it is sent behind that.
const RESET: &str = "\x1b[0m";

/// When colours are wanted.
#[derive(Clone, Copy, PartialEq, Eq)]
pub enum ColourOption {
    /// It isn't said: on a terminal.
    Unsaid,
    /// On a terminal.
    Auto,
    /// Always.
    Always,
    /// Never.
    Never,
    /// None of these stands behind the option, or it stands there twice.
    Bad,
}

impl ColourOption {
    /// The option with one more word behind it.
    pub fn with(self, word: Option<&str>) -> ColourOption {
        match (self, word) {
            (ColourOption::Unsaid, Some("auto")) => ColourOption::Auto,
            (ColourOption::Unsaid, Some("always")) => ColourOption::Always,
            (ColourOption::Unsaid, Some("never")) => ColourOption::Never,
            _ => ColourOption::Bad,
        }
    }

    /// Whether there are colours, on a terminal that has some or elsewhere.
    pub fn is_on(self, is_terminal: bool) -> bool
        ensures unsaid { self ≡ Unsaid → result ≡ is_terminal }
    {
        match self {
            ColourOption::Always => true,
            ColourOption::Unsaid | ColourOption::Auto => is_terminal,
            ColourOption::Never | ColourOption::Bad => false,
        }
    }
}

/// The colour of a line; nothing where it has none.
pub fn colour_of(line: &PrintedLine<'_>) -> &'static str {
    match line {
        PrintedLine::Entry(entry) if entry.reply.starts_with("refused ") => RED,
        PrintedLine::Reason(_) => DIM,
        PrintedLine::Result(_, TestResult::Passed) | PrintedLine::Tally(_, "0") => GREEN,
        PrintedLine::Result(_, _)
        | PrintedLine::Tally(_, _)
        | PrintedLine::Report(_)
        | PrintedLine::Bad(_, _)
        | PrintedLine::More(_) => RED,
        _ => "",
    }
}

/// Puts a line in a colour behind a text.
pub fn put_coloured(text: &mut Vec<u8>, colour: &str, line: &[u8]) -> Result<(), AllocError> {
    text.extend_from_slice(colour.as_bytes())?;
    text.extend_from_slice(line)?;
    if !colour.is_empty() {
        text.extend_from_slice(RESET.as_bytes())?;
    }
    text.push(b'\n')?;
    Ok(())
}
