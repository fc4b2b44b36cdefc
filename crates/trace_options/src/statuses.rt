//! The statuses with which the program ends.

ghost use Rattle.std.specs.Prelude.{◌≡◌};
ghost use Rattle.trace_io.specs.Faults.{message_of};
ghost use Rattle.trace_io.specs.Output.{AppendsSome};
ghost use Rattle.trace_options.specs.Status.{half_status, lenient_status, tests_status};

use std::io;
use std::io::{ErrorKind, Write};
use trace_io::Fault;

/// The status of a run that ended early.
pub const FAILED: u8 = 1;

/// The status of bad words.
pub const BAD_WORDS: u8 = 2;

/// The status of a run that wrote something else than its scripts expect.
const UNEXPECTED: u8 = 3;

/// The status of a run that ended well over an input that ends early.
const CUT: u8 = 4;

/// The status, where what a run wrote is only told.
pub fn status_of(status: u8, is_lenient: bool) -> u8
    ensures { result ≡ lenient_status status is_lenient }
{
    if status == UNEXPECTED && is_lenient {
        0
    } else {
        status
    }
}

/// The status of a run over an input that may end early.
pub fn half_status(status: u8, is_cut: bool) -> u8
    ensures { result ≡ half_status status is_cut }
{
    if status == 0 && is_cut { CUT } else { status }
}

/// The status of tests, of which so many failed.
pub fn tests_status(failed: u64) -> u8
    ensures { result ≡ tests_status failed }
{
    if failed == 0 { 0 } else { FAILED }
}

/// Says that a stream failed; nothing where nobody reads the output any more: he has what he wanted.
pub fn tell_failure<E: Write>(error: &io::Error, err: &mut E) {
    let told: &[u8] = match error.kind() {
        ErrorKind::BrokenPipe => return,
        ErrorKind::OutOfMemory => b"usbtrace: out of memory\n",
        _ => b"usbtrace: input or output failed\n",
    };
    let _ = err.write_all(told);
}

/// Tells a fault that ended a run early, and answers the status.
pub fn tell_fault<E: Write>(fault: Fault, err: &mut E) -> u8
    ensures status { result ≡ 1 }
    ensures told { AppendsSome (message_of fault) (E.contents err.old) (E.contents err.new) }
{
    let _ = fault.tell(err);
    FAILED
}

/// Prints a text, all of it. Where that fails it is told, and the status is given.
pub fn print_all<W: Write, E: Write>(text: &[u8], out: &mut W, err: &mut E) -> Result<(), u8> {
    let printed = match out.write_all(text) {
        Ok(()) => out.flush(),
        Err(error) => Err(error),
    };
    match printed {
        Ok(()) => Ok(()),
        Err(error) => {
            tell_failure(&error, err);
            Err(FAILED)
        }
    }
}
