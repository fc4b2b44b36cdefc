//! A test that isn't in a file by name: what is told behind what came of it.

ghost use Rattle.std.specs.Prelude.{◌≡◌, ◌≤◌, ◌⊎◌, length};
ghost use Rattle.trace_command.specs.Layer.{EndsTest};
ghost use Rattle.trace_io.specs.Input.{longest_input};
ghost use Rattle.trace_main.specs.Program.{status_of};

use std::alloc::{AllocError, Global};
use std::io::Write;
use trace_io::Fault;
use trace_main::{run_test, status_of};
use trace_run::TaskEnd;
use trace_suite::{expects_nothing, first_bad_line};

/// What is told of a test that is passed and expects nothing.
const EXPECTS_NOTHING: &[u8] = b"usbtrace: the test expects nothing\n";

/// Why the first bad line of a text is bad, below the message that it is; no text where none is bad.
fn why_bad(alloc: Global, text: &[u8]) -> Result<Vec<u8>, AllocError> {
    match first_bad_line(alloc, text)? {
        Some(bad) => {
            let why = bad.why.as_str();
            let line = format!(in alloc; "    {why}\n")?;
            line.as_bytes().to_vec(alloc)
        }
        None => Ok(Vec::new(alloc)),
    }
}

/// Tells what ended a test at a bad line, and why that is bad; or that memory was refused to know this: the status.
fn tell_bad<E: Write>(alloc: Global, text: &[u8], ended: Result<TaskEnd, Fault>, err: &mut E) -> u8
    ensures { (result ≡ status_of ended) ⊎ (result ≡ 1) }
{
    match why_bad(alloc, text) {
        Ok(why) => status_of(ended, why.as_slice(), err),
        Err(_) => status_of(Err(Fault::Memory), &[], err),
    }
}

/// Tests a text, and answers the status. Behind a bad line it is told why that is bad; and of a test that is passed, if it expects nothing,
/// which is known before it is made: where memory is refused to know it, nothing is printed.
pub fn test_input<W: Write, E: Write>(alloc: Global, text: &[u8], out: &mut W, err: &mut E) -> u8
    requires { length text.now ≤ longest_input }
    ensures { EndsTest text.now (W.contents out.old) (W.contents out.new) result }
{
    let Ok(is_empty) = expects_nothing(alloc, text) else {
        return status_of(Err(Fault::Memory), &[], err);
    };
    let ended = run_test(alloc, text, out);
    match ended {
        Err(Fault::Line(_)) => tell_bad(alloc, text, ended, err),
        Ok(TaskEnd::Good) if is_empty => status_of(ended, EXPECTS_NOTHING, err),
        _ => status_of(ended, &[], err),
    }
}
