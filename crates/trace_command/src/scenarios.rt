//! Scenarios whose lines name files: the words that take one get it with the bytes of the files.

ghost use Rattle.std.specs.Prelude.{◌≡◌, false, IfOk, IsOk};
ghost use Rattle.trace_io.specs.CommandLine.{AskFor};
ghost use Rattle.trace_io.specs.declared.words.Task.{Task};
ghost use Rattle.usb_scripttext.specs.Words.{words_of};
ghost use Rattle.trace_options.specs.Inputs.{is_half, may_name_files};
ghost use Rattle.trace_command.specs.Layer.{Traces, TracesInput};

use crate::tasks::perform_task;
use std::alloc::Global;
use std::io::{Read, Write};
use std::rt::Files;
use trace_io::{Task, read_whole};
use trace_options::{FAILED, InsertedFault, inserted, tell_fault};
use trace_threads::Performer;

/// Whether a task takes a scenario.
fn takes_scenario(task: &Task) -> bool {
    !matches!(task, Task::Devices(_) | Task::Device | Task::Describe)
}

/// Does a task over a scenario, with the bytes of the files that it names in a folder.
fn perform_scenario<T: Files, P: Performer, W: Write, E: Write>(
    rt: &T,
    performer: &P,
    alloc: Global,
    words: &[&str],
    task: &Task,
    folder: Option<&str>,
    text: &[u8],
    out: &mut W,
    err: &mut E,
) -> Result<u8, InsertedFault>
    requires ready { P.ready performer.now }
    ensures done { may_name_files text.now ≡ false → IsOk result }
    ensures traced { IfOk result (λ status. is_half task.now ≡ false → ((t : Task) → AskFor (words_of words.now) t → is_half t ≡ false) → may_name_files text.now ≡ false
        → Traces (words_of words.now) text.now (W.contents out.old) (W.contents out.new) (E.contents err.old) (E.contents err.new) status) }
{
    let whole = inserted(rt, alloc, folder, text)?;
    let mut input = match &whole {
        Some(whole) => whole.as_slice(),
        None => text,
    };
    Ok(perform_task(performer, alloc, words, task, &mut input, out, err))
}

/// Says why a text has no bytes of files, and answers the status.
fn refuse<E: Write>(fault: &InsertedFault, err: &mut E) -> u8 {
    match fault {
        InsertedFault::Other(fault) => {
            let _ = (*fault).tell(err);
        }
        InsertedFault::File(..) => {
            let _ = write!(err, "usbtrace: {fault}\n");
        }
    }
    FAILED
}

/// Does a task over an input, and answers the status. Files that a scenario names are looked for in this folder.
pub fn perform_over<T: Files, P: Performer, R: Read, W: Write, E: Write>(
    rt: &T,
    performer: &P,
    alloc: Global,
    words: &[&str],
    task: &Task,
    folder: Option<&str>,
    input: &mut R,
    out: &mut W,
    err: &mut E,
) -> u8
    requires ready { P.ready performer.now }
    requires asked { AskFor (words_of words.now) task.now }
    ensures { TracesInput (words_of words.now) (R.remaining input.old) (W.contents out.old) (W.contents out.new) (E.contents err.old) (E.contents err.new) result }
{
    if !takes_scenario(task) {
        return perform_task(performer, alloc, words, task, input, out, err);
    }
    let text = match read_whole(alloc, input) {
        Ok(text) => text,
        Err(fault) => return tell_fault(fault, err),
    };
    match perform_scenario(
        rt,
        performer,
        alloc,
        words,
        task,
        folder,
        text.as_slice(),
        out,
        err,
    ) {
        Ok(status) => status,
        Err(fault) => refuse(&fault, err),
    }
}
