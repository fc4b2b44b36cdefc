//! A device as its file of descriptors has it, with its strings.

use std::alloc::Global;
use std::io::{Read, Write};
use std::rt::Files;
use trace_io::{Fault, read_whole};
use trace_main::trace;
use trace_options::{FAILED, put_strings, write_lines};
use trace_threads::Performer;

/// Prints the lines of a device's file of descriptors, and behind them those of the strings beside it. Nothing is printed where the
/// descriptors are refused.
fn print_whole<T: Files, P: Performer, W: Write, E: Write>(
    rt: &T,
    performer: &P,
    alloc: Global,
    words: &[&str],
    file: &str,
    bytes: &[u8],
    out: &mut W,
    err: &mut E,
) -> Result<u8, Fault>
    requires ready { P.ready performer.now }
{
    let mut input = bytes;
    let mut lines = Vec::new(alloc);
    let status = trace(performer, alloc, words, &mut input, &mut lines, err);
    if status == 0 {
        put_strings(rt, alloc, file, bytes, &mut lines)?;
    }
    Ok(write_lines(lines.as_slice(), status, out, err))
}

/// Prints the lines of a device of the file of its descriptors, with the strings that stand beside it.
pub fn print_device<T: Files, P: Performer, R: Read, W: Write, E: Write>(
    rt: &T,
    performer: &P,
    alloc: Global,
    words: &[&str],
    file: &str,
    input: &mut R,
    out: &mut W,
    err: &mut E,
) -> u8
    requires ready { P.ready performer.now }
{
    let printed = match read_whole(alloc, input) {
        Ok(bytes) => print_whole(
            rt,
            performer,
            alloc,
            words,
            file,
            bytes.as_slice(),
            out,
            err,
        ),
        Err(fault) => Err(fault),
    };
    match printed {
        Ok(status) => status,
        Err(fault) => {
            let _ = fault.tell(err);
            FAILED
        }
    }
}
