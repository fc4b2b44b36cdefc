//! The program's body, over any reader and writers.

ghost use Rattle.std.specs.Prelude.{◌≡◌, ◌≢◌, ◌≤◌, ◌⊎◌, ◌++◌, [], IfSome, IfErr, IfOk, Ok, OnOk, length};
ghost use Rattle.std.specs.Io.KnownBytes.{Keeps};
ghost use Rattle.trace_scenario.specs.Findings.{bad_lines};
ghost use Rattle.usb_scripttext.specs.Words.{words_of};
ghost use Rattle.trace_io.specs.CommandLine.{AreBad, AskFor, AskForHelp};
ghost use Rattle.clap.specs.Values.{kind_of};
ghost use Rattle.clap.specs.declared.error.kind.ErrorKind.TheVariants as ErrorKind;
ghost use Rattle.trace_io.specs.Faults.{message_of, IsOfRun};
ghost use Rattle.trace_io.specs.declared.fault.Fault.{Fault};
ghost use Rattle.trace_io.specs.Input.{longest_input};
ghost use Rattle.trace_io.specs.Output.{AppendsSome};
ghost use Rattle.trace_main.specs.Program.{status_of, AskForOther, AskForThreads, Begins, FindsUnexpected, IsAlone, IsSilentAtBad, IsThreaded, Performs, ReadsOther, TellsRest, TellsWhy};
ghost use Rattle.trace_main.specs.Source.{IsReadFirst, OfSource, Stands, text_in};
ghost use Rattle.trace_io.specs.declared.words.Task.{Task};
ghost use Rattle.trace_run.specs.declared.tasks.TaskEnd.TheVariants.{BadLines, Differs, NoDevices};
ghost use Rattle.trace_io.specs.declared.words.Task.TheVariants.{Capture, Check, Devices};

use crate::checked::report;
use crate::descriptor::{describe, device};
use crate::judged::{alone, entries, left, steps};
use crate::live::live;
use crate::picture::drawn;
use crate::recorded::devices;
use crate::source::{Opened, Source};
use crate::tested::run_test;
use crate::told::{explain, packets};
use clap::Error;
use clap::error::ErrorKind;
use std::alloc::Global;
use std::io::{Read, Write};
use trace_io::{Fault, Task, read_whole, read_words, write_bytes};
use trace_picture::Form;
use trace_run::{TaskEnd, capture_run};
use trace_scenario::Lined;
use trace_threads::Performer;

/// The status of a run that ended early, of a check that found bad lines, and of a capture without devices.
const FAILED: u8 = 1;

/// The status of bad words.
const BAD_WORDS: u8 = 2;

/// The status of a run that wrote something else than its scenario expects.
const UNEXPECTED: u8 = 3;

/// Runs the program on its words, of which the first is its name, and its input, and answers its status: 0, or 1 where
/// it ended early, a check found bad lines or a capture has no device that is kept, or 2 for bad words, or 3 where a run wrote something else than its scenario expects. However a task ends, what it wrote is a beginning of
/// its text. Of a fault that ended it, the message stands on standard error, as far as that takes it; and behind it, or alone, what
/// handles hadn't finished of a run in threads. Threads are the performer's.
pub fn trace<P: Performer, R: Read, W: Write, E: Write>(
    performer: &P,
    alloc: Global,
    words: &[&str],
    input: &mut R,
    out: &mut W,
    err: &mut E,
) -> u8
    requires ready { P.ready performer.now }
    ensures status { result ≤ 3 }
    ensures unexpected { result ≡ 3 → (task : Task) × AskFor (words_of words.now) task
        × IfSome (R.remaining input.old) (λ text. FindsUnexpected task text (W.contents out.old) (W.contents out.new)) }
    ensures done { result ≡ 0 → ((task : Task) × AskFor (words_of words.now) task
        × IfSome (R.remaining input.old) (λ text. TellsRest task text (W.contents out.old) (W.contents out.new) (E.contents err.old) (E.contents err.new)))
        ⊎ (AskForHelp (words_of words.now) × (input.new ≡ input.old)) }
    ensures quiet { result ≡ 0 → AskForThreads (words_of words.now) ⊎ Keeps (E.contents err.old) (E.contents err.new) }
    ensures refused { result ≡ 2 → AreBad (words_of words.now)
        × Keeps (W.contents out.old) (W.contents out.new) × (input.new ≡ input.old) }
    ensures silent { IfSome (R.remaining input.old) (λ text.
        IsSilentAtBad text (W.contents out.old) (W.contents out.new) ⊎ AskForHelp (words_of words.now)
        ⊎ AskForOther (words_of words.now)) }
    ensures bad { AskFor (words_of words.now) Check → IfSome (R.remaining input.old) (λ text. result ≡ 0 → OfSource text (λ src. bad_lines (text_in src) ≡ [])) }
    ensures unfinished { (task : Task) → AskFor (words_of words.now) task
        → IfSome (R.remaining input.old) (λ text. Begins task text (W.contents out.old) (W.contents out.new)) }
    ensures told { result ≡ 1 → TellsWhy (words_of words.now) (R.remaining input.old)
        (W.contents out.old) (W.contents out.new) (E.contents err.old) (E.contents err.new) }
    ensures judged { ((task : Task) × AskFor (words_of words.now) task) ⊎ (input.new ≡ input.old) }
{
    match read_words(alloc, words) {
        Ok(task) => {
            let mut notes = Vec::new(alloc);
            let ended = perform(performer, alloc, task, input, out, &mut notes);
            status_of(ended, notes.as_slice(), err)
        }
        Err(error) => answer(&error, out, err),
    }
}

/// The status of words that ask for no task: help is given where they ask for it; else it is said why not.
#[tactic(auto, using(crate::proofs::Begun::told_alone))]
fn answer<W: Write, E: Write>(error: &Error, out: &mut W, err: &mut E) -> u8
    ensures status { result ≤ 2 }
    ensures helped { result ≡ 0 → (kind_of error.now ≡ ErrorKind.DisplayHelp) × Keeps (E.contents err.old) (E.contents err.new) }
    ensures refused { result ≡ 2 → (kind_of error.now ≢ ErrorKind.DisplayHelp) × (kind_of error.now ≢ ErrorKind.OutOfMemory) }
    ensures silent { (kind_of error.now ≡ ErrorKind.DisplayHelp) ⊎ (out.new ≡ out.old) }
    ensures told { result ≡ 1 → (fault : Fault) × IsOfRun fault × AppendsSome (message_of fault) (E.contents err.old) (E.contents err.new) }
{
    match error.kind() {
        ErrorKind::OutOfMemory => status_of(Err(Fault::Memory), &[], err),
        ErrorKind::DisplayHelp => status_of(help(out, error), &[], err),
        _ => refuse(err, error),
    }
}

/// The status of a task that ended so. A fault is told, and the notes behind it, or alone where there is none.
pub fn status_of<E: Write>(ended: Result<TaskEnd, Fault>, notes: &[u8], err: &mut E) -> u8
    ensures status { result ≡ status_of ended }
    ensures noted { OnOk ended (AppendsSome notes.now (E.contents err.old) (E.contents err.new)) }
    ensures quiet { OnOk ended (notes.now ≡ [] → Keeps (E.contents err.old) (E.contents err.new)) }
    ensures told { IfErr ended (λ fault. AppendsSome (message_of fault ++ notes.now) (E.contents err.old) (E.contents err.new)) }
{
    match ended {
        Ok(TaskEnd::Good) => {
            tell_notes(notes, err);
            0
        }
        Ok(TaskEnd::BadLines | TaskEnd::NoDevices | TaskEnd::Differs) => {
            tell_notes(notes, err);
            FAILED
        }
        Ok(TaskEnd::Unexpected) => {
            tell_notes(notes, err);
            UNEXPECTED
        }
        Err(fault) => {
            if let Ok(()) = fault.tell(err) {
                tell_notes(notes, err);
            }
            FAILED
        }
    }
}

/// Tells the notes, if there are any. The status is the same where they can't be told.
fn tell_notes<E: Write>(notes: &[u8], err: &mut E)
    ensures told { AppendsSome notes.now (E.contents err.old) (E.contents err.new) }
    ensures quiet { notes.now ≡ [] → Keeps (E.contents err.old) (E.contents err.new) }
{
    if !notes.is_empty() {
        let _ = write_bytes(err, notes);
    }
}

/// Reads the input and does the task. What is to be told behind all else is put into the notes.
#[tactic(auto, using(crate::proofs::Begun::nothing_begun))]
fn perform<P: Performer, R: Read, W: Write>(
    performer: &P,
    alloc: Global,
    task: Task,
    input: &mut R,
    out: &mut W,
    notes: &mut Vec<u8>,
) -> Result<TaskEnd, Fault>
    requires ready { P.ready performer.now }
    requires none { notes.old.items ≡ [] }
    ensures ends { IfSome (R.remaining input.old) (λ text. Performs task text notes.new.items (W.contents out.old) (W.contents out.new) result) }
    ensures quiet { IsThreaded task ⊎ (notes.new.items ≡ []) }
    ensures alone { IfErr result (IsAlone notes.new.items) }
    ensures bad_lines { result ≡ Ok BadLines → notes.new.items ≡ [] }
    ensures no_devices { result ≡ Ok NoDevices → notes.new.items ≡ [] }
    ensures differs { result ≡ Ok Differs → notes.new.items ≡ [] }
    ensures silent { IfSome (R.remaining input.old) (λ text. ReadsOther task ⊎ IsSilentAtBad text (W.contents out.old) (W.contents out.new)) }
    ensures begun { IfSome (R.remaining input.old) (λ text. Begins task text (W.contents out.old) (W.contents out.new)) }
{
    let text = read_whole(alloc, input)?;
    match task {
        Task::Run => entries(alloc, text.as_slice(), out),
        Task::Steps => steps(alloc, text.as_slice(), out),
        Task::Packets { steps } => packets(alloc, steps, text.as_slice(), out),
        Task::Alone(h) => alone(alloc, text.as_slice(), h, out),
        Task::Live(rounds) => live(performer, alloc, text.as_slice(), rounds, out, notes),
        Task::Left => left(alloc, text.as_slice(), out),
        Task::Check => report(alloc, text.as_slice(), out),
        Task::Draw { from, to } => drawn(alloc, text.as_slice(), Form::Picture, from, to, out),
        Task::Page { from, to } => drawn(alloc, text.as_slice(), Form::Page, from, to, out),
        Task::Capture => capture(alloc, text.as_slice(), out),
        Task::Devices(reader) => devices(alloc, reader, text.as_slice(), out),
        Task::Explain => explain(alloc, text.as_slice(), out),
        Task::Test => run_test(alloc, text.as_slice(), out),
        Task::Device => device(alloc, text.as_slice(), out),
        Task::Describe => describe(alloc, text.as_slice(), out),
    }
}

/// Writes the run of a scenario as a capture.
#[tactic(auto, using(crate::proofs::Begun::nothing_of, crate::proofs::Words::silent_same, crate::proofs::Words::silent_of, crate::proofs::JudgedRuns::begins_said))]
fn capture_of<W: Write>(
    alloc: Global,
    source: &Source<'_>,
    first: Option<Lined<'_>>,
    out: &mut W,
) -> Result<TaskEnd, Fault>
    requires short { length source.now.given ≤ longest_input }
    requires stands { Stands source.now }
    requires first { IsReadFirst source.now first }
    ensures ends { Performs Capture source.now.given [] (W.contents out.old) (W.contents out.new) result }
    ensures silent { IsSilentAtBad source.now.given (W.contents out.old) (W.contents out.new) }
    ensures begun { Begins Capture source.now.given (W.contents out.old) (W.contents out.new) }
{
    let Lined {
        scenario,
        lines,
        devices,
    } = source.read(alloc, first)?;
    capture_run(alloc, scenario, devices.as_slice(), lines.as_slice(), out)
}

/// Writes the run of a text's scenario as a capture.
#[tactic(auto, using(crate::proofs::Begun::nothing_of, crate::proofs::Words::silent_same))]
fn capture<W: Write>(alloc: Global, text: &[u8], out: &mut W) -> Result<TaskEnd, Fault>
    requires { length text.now ≤ longest_input }
    ensures ends { Performs Capture text.now [] (W.contents out.old) (W.contents out.new) result }
    ensures silent { IsSilentAtBad text.now (W.contents out.old) (W.contents out.new) }
    ensures begun { Begins Capture text.now (W.contents out.old) (W.contents out.new) }
{
    let Opened { source, first } = Source::open(alloc, text)?;
    capture_of(alloc, &source, first, out)
}

/// Prints the help that the words ask for.
fn help<W: Write>(out: &mut W, error: &Error) -> Result<TaskEnd, Fault>
    ensures good { IfOk result (λ ending. ending ≡ TaskEnd.Good) }
    ensures fault { IfErr result (λ fault. IsOfRun fault) }
{
    write!(out, "{error}")?;
    out.flush()?;
    Ok(TaskEnd::Good)
}

/// Says why the words are bad. The status is the same where that can't be said.
fn refuse<E: Write>(err: &mut E, error: &Error) -> u8
    ensures { result ≡ 2 }
{
    let _ = write!(err, "{error}");
    BAD_WORDS
}
