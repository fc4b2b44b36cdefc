//! The whole input.

ghost use Rattle.std.specs.Prelude.{◌≡◌, ◌≤◌, IfOk, IfErr, IfSome, vec_len};
ghost use Rattle.trace_io.specs.Faults.{IsOfInput};
ghost use Rattle.trace_io.specs.Input.{longest_input};

use crate::fault::Fault;
use std::alloc::Global;
use std::io::{ErrorKind, Read};

/// How many bytes an input may have.
const LONGEST_INPUT: usize = 67_108_864;

/// How often an input is read at most: a byte each time, and then its end. A read that is interrupted counts too.
const MOST_READS: u64 = LONGEST_INPUT as u64 + 1;

/// How many bytes are asked for at a time.
const CHUNK: usize = 16_384;

/// All bytes of an input; a read that is interrupted is made again. An error where it is longer than an input may be, or can't be
/// read, or needs more reads than are made.
pub fn read_whole<R: Read>(alloc: Global, input: &mut R) -> Result<Vec<u8>, Fault>
    ensures whole { IfOk result (λ bytes. IfSome (R.remaining input.old) (λ given. bytes.items ≡ given)) }
    ensures fault { IfErr result (IsOfInput (R.remaining input.old)) }
    ensures room { IfOk result (λ bytes. vec_len bytes ≤ longest_input) }
{
    let mut bytes = Vec::new(alloc);
    let mut chunk = [0u8; CHUNK];
    for _ in 0..MOST_READS {
        match input.read(&mut chunk) {
            Ok(0) => return Ok(bytes),
            Ok(count) if count > LONGEST_INPUT - bytes.len() => return Err(Fault::TooLong),
            Ok(count) => bytes.extend_from_slice(&chunk[..count])?,
            Err(error) if error.kind() == ErrorKind::Interrupted => {}
            Err(error) => return Err(Fault::from(error)),
        }
    }
    Err(Fault::InputOutput)
}
