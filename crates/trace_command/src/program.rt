//! What the words ask for, over standard input or files.

ghost use Rattle.std.specs.Prelude.{◌≡◌, false};
ghost use Rattle.usb_scripttext.specs.Words.{words_of};
ghost use Rattle.trace_options.specs.CommandLine.{IsPlain};
ghost use Rattle.trace_command.specs.Layer.{LeavesInput, TracesInput};

use crate::device::print_device;
use crate::scenarios::perform_over;
use crate::shown_run::TracedRuns;
use crate::tasks::record_one;
use std::alloc::Global;
use std::fs;
use std::io::{Read, Write};
use std::rt::Files;
use trace_faults::TextReader;
use trace_io::Task;
use trace_main::trace;
use trace_options::{
    ColourOption, CommandLine, DeviceOptions, FAILED, Printed, PrintedForm, are_words_alone,
    folder_of, form_of, is_version, print_version, refuse_colours, refuse_file, refuse_files,
    refuse_html, refuse_junit, refuse_update, status_of, task_of, tell_failure, tell_fault,
};
use trace_recorded::DeviceChoice;
use trace_suite::test_line;
use trace_threads::Performer;

/// Does what words ask for over an input. Files that a scenario names are looked for in this folder.
fn run_words<T: Files, P: Performer, R: Read, W: Write, E: Write>(
    rt: &T,
    performer: &P,
    alloc: Global,
    words: &[&str],
    folder: Option<&str>,
    input: &mut R,
    out: &mut W,
    err: &mut E,
) -> u8
    requires ready { P.ready performer.now }
    ensures traced { TracesInput (words_of words.now) (R.remaining input.old) (W.contents out.old) (W.contents out.new) (E.contents err.old) (E.contents err.new) result }
    ensures unread { LeavesInput (words_of words.now) input.old input.new }
{
    match task_of(alloc, words) {
        Ok(Some(task)) => perform_over(rt, performer, alloc, words, &task, folder, input, out, err),
        Ok(None) => trace(performer, alloc, words, input, out, err),
        Err(fault) => tell_fault(fault, err),
    }
}

/// Runs the program on its words and an input. Files that a scenario names are looked for in this folder.
fn run_input<T: Files, P: Performer, R: Read, W: Write, E: Write>(
    rt: &T,
    performer: &P,
    alloc: Global,
    line: &CommandLine<'_>,
    folder: Option<&str>,
    input: &mut R,
    out: &mut W,
    err: &mut E,
) -> u8
    requires ready { P.ready performer.now }
    ensures traced { line.now.is_lenient ≡ false
        → TracesInput (words_of line.now.words.items) (R.remaining input.old) (W.contents out.old) (W.contents out.new) (E.contents err.old) (E.contents err.new) result }
    ensures unread { LeavesInput (words_of line.now.words.items) input.old input.new }
{
    let status = run_words(
        rt,
        performer,
        alloc,
        line.words.as_slice(),
        folder,
        input,
        out,
        err,
    );
    status_of(status, line.is_lenient)
}

/// Runs the program on its words and a file. Where the words ask for no task it isn't opened, and no other input is read.
fn run_file<T: Files, P: Performer, R: Read, W: Write, E: Write>(
    rt: &T,
    performer: &P,
    alloc: Global,
    line: &CommandLine<'_>,
    file: &str,
    input: &mut R,
    out: &mut W,
    err: &mut E,
) -> u8
    requires ready { P.ready performer.now }
{
    let words = line.words.as_slice();
    let task = match task_of(alloc, words) {
        Ok(Some(task)) => task,
        Ok(None) => return run_input(rt, performer, alloc, line, None, input, out, err),
        Err(fault) => return tell_fault(fault, err),
    };
    let Ok(mut text) = fs::open(rt, file) else {
        return refuse_file(file, err);
    };
    if matches!(task, Task::Device) {
        return print_device(rt, performer, alloc, words, file, &mut text, out, err);
    }
    run_input(
        rt,
        performer,
        alloc,
        line,
        folder_of(file),
        &mut text,
        out,
        err,
    )
}

/// Prints the one device of a capture that is meant. Where a file is named, the capture is read from there.
fn run_described<T: Files, R: Read, W: Write, E: Write>(
    rt: &T,
    alloc: Global,
    reader: TextReader,
    choice: &DeviceChoice,
    files: &[&str],
    input: &mut R,
    out: &mut W,
    err: &mut E,
) -> u8 {
    match files {
        [] => record_one(alloc, reader, choice, input, out, err),
        [file] => match fs::open(rt, *file) {
            Ok(mut capture) => record_one(alloc, reader, choice, &mut capture, out, err),
            Err(_) => refuse_file(file, err),
        },
        _ => refuse_files(err),
    }
}

/// Does what the words ask for, of one device; None where they ask for something else.
fn perform_described<T: Files, R: Read, W: Write, E: Write>(
    rt: &T,
    alloc: Global,
    line: &CommandLine<'_>,
    input: &mut R,
    out: &mut W,
    err: &mut E,
) -> Option<u8> {
    let devices: DeviceOptions<'_> = line.devices;
    if !devices.is_any() {
        return None;
    }
    let reader = match task_of(alloc, line.words.as_slice()) {
        Ok(Some(Task::Devices(reader))) => reader,
        Ok(_) => return None,
        Err(fault) => return Some(tell_fault(fault, err)),
    };
    match devices.tell_choice(rt, alloc, err) {
        Ok(Some(choice)) => Some(run_described(
            rt,
            alloc,
            reader,
            &choice,
            line.files.as_slice(),
            input,
            out,
            err,
        )),
        Ok(None) => None,
        Err(status) => Some(status),
    }
}

/// Does what the words ask for, and answers the status. Where they name no file, standard input is read.
fn perform_words<T: Files + Alloc + Clone + Drop, P: Performer, R: Read, W: Write, E: Write>(
    rt: &T,
    performer: &P,
    alloc: Global,
    line: &CommandLine<'_>,
    input: &mut R,
    out: &mut W,
    err: &mut E,
) -> u8
    requires ready { P.ready performer.now }
    ensures traced { IsPlain line.now
        → TracesInput (words_of line.now.words.items) (R.remaining input.old) (W.contents out.old) (W.contents out.new) (E.contents err.old) (E.contents err.new) result }
    ensures unread { IsPlain line.now → LeavesInput (words_of line.now.words.items) input.old input.new }
{
    if are_words_alone(line) {
        return run_input(rt, performer, alloc, line, None, input, out, err);
    }
    if let Some(status) = perform_described(rt, alloc, line, input, out, err) {
        return status;
    }
    let (words, files) = (line.words.as_slice(), line.files.as_slice());
    match (words, files) {
        (words, []) if is_version(words) => print_version(out, err),
        ([_, "test"], [_, ..]) => test_line(rt, alloc, &TracedRuns, line, out, err),
        _ if line.junit.is_asked() => refuse_junit(err),
        _ if line.html.is_asked() => refuse_html(err),
        _ if line.is_update => refuse_update(err),
        (_, []) => run_input(rt, performer, alloc, line, None, input, out, err),
        (_, [file]) => run_file(rt, performer, alloc, line, file, input, out, err),
        _ => refuse_files(err),
    }
}

/// Does what the words ask for, prints in this form, which isn't lines as they are, and answers the status.
fn perform_in_form<T: Files + Alloc + Clone + Drop, P: Performer, R: Read, W: Write, E: Write>(
    rt: &T,
    performer: &P,
    alloc: Global,
    line: &CommandLine<'_>,
    form: PrintedForm,
    input: &mut R,
    out: &mut W,
    err: &mut E,
) -> u8
    requires ready { P.ready performer.now }
{
    let mut printed = Printed::new(alloc, form, line.printed_by(), out);
    let status = perform_words(rt, performer, alloc, line, input, &mut printed, err);
    match printed.end() {
        Ok(()) => status,
        Err(error) => {
            tell_failure(&error, err);
            FAILED
        }
    }
}

/// Does what the words ask for, prints in the form that they ask for, and answers the status. Words without files and options come to what
/// `trace` promises of them.
pub fn perform<T: Files + Alloc + Clone + Drop, P: Performer, R: Read, W: Write, E: Write>(
    rt: &T,
    performer: &P,
    alloc: Global,
    line: &CommandLine<'_>,
    input: &mut R,
    out: &mut W,
    err: &mut E,
) -> u8
    requires ready { P.ready performer.now }
    ensures traced { IsPlain line.now
        → TracesInput (words_of line.now.words.items) (R.remaining input.old) (W.contents out.old) (W.contents out.new) (E.contents err.old) (E.contents err.new) result }
    ensures unread { IsPlain line.now → LeavesInput (words_of line.now.words.items) input.old input.new }
{
    if line.colours == ColourOption::Bad {
        return refuse_colours(err);
    }
    let form = form_of(line);
    if form == PrintedForm::Lines {
        return perform_words(rt, performer, alloc, line, input, out, err);
    }
    perform_in_form(rt, performer, alloc, line, form, input, out, err)
}
