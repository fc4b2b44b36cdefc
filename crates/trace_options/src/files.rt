//! The words of a command line, and the files that it names.

ghost use Rattle.std.specs.Prelude.{◌≡◌, false, true, IfErr, IfOk, IfSome};
ghost use Rattle.trace_io.specs.CommandLine.{AskFor};
ghost use Rattle.trace_io.specs.declared.fault.Fault.TheVariants.{Memory};
ghost use Rattle.usb_scripttext.specs.Words.{words_of};
ghost use Rattle.trace_options.specs.CommandLine.{IsInLines, IsPlain, is_version};
ghost use Rattle.trace_options.specs.declared.files.OutputOption.TheVariants.{Unasked};
ghost use Rattle.trace_options.specs.declared.printed.PrintedForm.TheVariants.{Lines};

use crate::colours::ColourOption;
use crate::device_options::DeviceOptions;
use crate::printed::PrintedForm;
use crate::printed_line::PrintedBy;
use clap::error::ErrorKind;
use std::alloc::{AllocError, Global};
use trace_io::{Fault, Task, read_words};

/// The option of `test` that has what came of the tests written into a file.
const JUNIT: &str = "--junit";

/// The option of `test` that has a page written of each test that fails, into a folder.
const HTML: &str = "--html";

/// The option of `test` that has the lines of tests rewritten.
const UPDATE: &str = "--update";

/// The option that says when colours are wanted.
const COLOUR: &str = "--color";

/// Whether what came of tests is to be written, and into which file or folder.
#[derive(Clone, Copy)]
pub enum OutputOption<'a> {
    /// It isn't.
    Unasked,
    /// Into this one.
    Into(&'a str),
    /// The option has no word behind it, or stands there twice.
    Bad,
}

impl<'a> OutputOption<'a> {
    /// Whether it is asked for.
    pub fn is_asked(&self) -> bool
        ensures unasked { self.now ≡ Unasked → result ≡ false }
    {
        !matches!(self, OutputOption::Unasked)
    }

    /// The option with one more word behind it.
    fn with(self, word: Option<&'a str>) -> OutputOption<'a> {
        match (self, word) {
            (OutputOption::Unasked, Some(file)) => OutputOption::Into(file),
            _ => OutputOption::Bad,
        }
    }
}

/// The words of a command line, and the files that it names.
#[derive(Drop)]
pub struct CommandLine<'a> {
    /// The words that name no file, the program's name first.
    pub words: Vec<&'a str>,
    /// The files.
    pub files: Vec<&'a str>,
    /// Whether it is only told what a run wrote that its scripts don't expect: its status is then as if there were nothing to tell.
    pub is_lenient: bool,
    /// Which device of a capture is meant, and which file says what that lacks.
    pub devices: DeviceOptions<'a>,
    /// Into which file it is written what came of tests.
    pub junit: OutputOption<'a>,
    /// Into which folder a page is written of each test that fails.
    pub html: OutputOption<'a>,
    /// Whether the lines of tests that differ are rewritten.
    pub is_update: bool,
    /// Whether it is printed as objects of JSON.
    pub is_json: bool,
    /// When it is printed with colours.
    pub colours: ColourOption,
    /// Whether it is printed on a terminal that has colours.
    pub is_on_terminal: bool,
}

/// Whether a word names a file: it has a dot or a slash in it, and is no option.
pub fn names_a_file(word: &str) -> bool {
    !word.starts_with('-') && (word.contains('.') || word.contains('/'))
}

/// Whether words ask for a run that is judged by what its scripts expect.
fn ask_for_judged(words: &[&str]) -> bool {
    matches!(words, [_, "run" | "left" | "test", ..])
}

/// Whether words ask for what may be printed as JSON, and with colours.
fn ask_for_forms(words: &[&str]) -> bool {
    matches!(words, [_, "run" | "explain" | "check" | "test", ..])
}

/// Whether a word is an option with a word behind it, of what the words before ask for.
fn takes_a_word(words: &[&str], text: &str) -> bool {
    match words {
        [_, "devices", ..] => DeviceOptions::is_option(text),
        [_, "test", ..] if text == JUNIT || text == HTML => true,
        _ => text == COLOUR && ask_for_forms(words),
    }
}

impl<'a> CommandLine<'a> {
    /// A line without words.
    fn new(alloc: Global) -> CommandLine<'a> {
        CommandLine {
            words: Vec::new(alloc),
            files: Vec::new(alloc),
            is_lenient: false,
            devices: DeviceOptions::new(),
            junit: OutputOption::Unasked,
            html: OutputOption::Unasked,
            is_update: false,
            is_json: false,
            colours: ColourOption::Unsaid,
            is_on_terminal: false,
        }
    }

    /// Puts an option with the word behind it, if there is one.
    fn put_option(&mut self, option: &'a str, word: Option<&'a str>) {
        match option {
            JUNIT => self.junit = self.junit.with(word),
            HTML => self.html = self.html.with(word),
            COLOUR => self.colours = self.colours.with(word),
            _ => self.devices.put(option, word),
        }
    }

    /// Puts a word that has no option before it.
    fn put(&mut self, text: &'a str) -> Result<(), AllocError> {
        if !self.words.is_empty() && names_a_file(text) {
            self.files.push(text)?;
        } else if text == "--lenient" && ask_for_judged(self.words.as_slice()) {
            self.is_lenient = true;
        } else if text == UPDATE && matches!(self.words.as_slice(), [_, "test", ..]) {
            self.is_update = true;
        } else if text == "--json" && ask_for_forms(self.words.as_slice()) {
            self.is_json = true;
        } else {
            self.words.push(text)?;
        }
        Ok(())
    }

    /// In which form it is printed.
    pub fn form(&self) -> PrintedForm
        ensures lines { IsInLines self.now → result ≡ Lines }
    {
        if self.is_json {
            return PrintedForm::Json;
        }
        if ask_for_forms(self.words.as_slice()) && self.colours.is_on(self.is_on_terminal) {
            return PrintedForm::Coloured;
        }
        PrintedForm::Lines
    }

    /// By whom it is printed, where that isn't in lines as they are.
    pub fn printed_by(&self) -> PrintedBy {
        match self.words.as_slice() {
            [_, "test", ..] if self.files.is_empty() => PrintedBy::Test,
            [_, "test", ..] => PrintedBy::Tests,
            _ => PrintedBy::Run,
        }
    }
}

/// Tells words and files apart, `--lenient` behind a word for a run that is judged, `--json` behind one that prints lines, and the options with
/// the words behind them. The first word is the program's name, whatever is in it.
pub fn command_line<'a>(alloc: Global, texts: &[&'a str]) -> Result<CommandLine<'a>, AllocError> {
    let mut line = CommandLine::new(alloc);
    let mut option = None;
    for text in texts {
        if let Some(before) = option.take() {
            line.put_option(before, Some(*text));
        } else if takes_a_word(line.words.as_slice(), text) {
            option = Some(*text);
        } else {
            line.put(text)?;
        }
    }
    if let Some(before) = option {
        line.put_option(before, None);
    }
    Ok(line)
}

/// What the words ask for; None where they are bad or ask for help, which `trace` tells. A fault where memory is refused.
pub fn task_of(alloc: Global, words: &[&str]) -> Result<Option<Task>, Fault>
    ensures task { IfOk result (λ task. IfSome task (AskFor (words_of words.now))) }
    ensures fault { IfErr result (λ fault. fault ≡ Memory) }
{
    match read_words(alloc, words) {
        Ok(task) => Ok(Some(task)),
        Err(error) => match error.kind() {
            ErrorKind::OutOfMemory => Err(Fault::Memory),
            _ => Ok(None),
        },
    }
}

/// Whether words ask for the version.
pub fn is_version(words: &[&str]) -> bool
    ensures { result ≡ is_version (words_of words.now) }
{
    match words {
        [_, word] => *word == "--version" || *word == "-V",
        _ => false,
    }
}

/// Whether there are words alone, of which `trace` knows what they ask for: no file, and no option that says what is done with files.
pub fn are_words_alone(line: &CommandLine<'_>) -> bool
    ensures { IsPlain line.now → result ≡ true }
{
    line.files.is_empty()
        && !line.devices.is_any()
        && !line.junit.is_asked()
        && !line.html.is_asked()
        && !line.is_update
        && !is_version(line.words.as_slice())
}

/// The form of what is printed: help is printed as it is.
pub fn form_of(line: &CommandLine<'_>) -> PrintedForm
    ensures { IsInLines line.now → result ≡ Lines }
{
    if line
        .words
        .iter()
        .any(|word| matches!(*word, "-h" | "--help"))
    {
        PrintedForm::Lines
    } else {
        line.form()
    }
}
