//! Bytes that are written whole, or as far as it goes.

ghost use Rattle.std.specs.Prelude.{IfErr, OnOk};
ghost use Rattle.std.specs.Io.KnownBytes.{Appends};
ghost use Rattle.trace_io.specs.Faults.{IsOfRun};
ghost use Rattle.trace_io.specs.Output.{AppendsSome};

use crate::fault::Fault;
use std::io::{ErrorKind, Write};

/// Writes all of these bytes; a write that is interrupted is tried again. Where writing fails, a beginning of them is
/// written.
pub fn write_bytes<W: Write>(out: &mut W, bytes: &[u8]) -> Result<(), Fault>
    ensures whole { OnOk result (Appends (W.contents out.old) (W.contents out.new) bytes.now) }
    ensures begun { AppendsSome bytes.now (W.contents out.old) (W.contents out.new) }
    ensures fault { IfErr result (λ fault. IsOfRun fault) }
{
    let mut rest = bytes;
    for _ in 0..u64::MAX {
        if rest.is_empty() {
            return Ok(());
        }
        match out.write(rest) {
            Ok(0) => break,
            Ok(count) => rest = &rest[count..],
            Err(error) if error.kind() == ErrorKind::Interrupted => {}
            Err(error) => return Err(Fault::from(error)),
        }
    }
    Err(Fault::InputOutput)
}
