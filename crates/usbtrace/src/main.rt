//! The program `usbtrace`: runs and checks scenarios of USB transfers. What its words ask for `trace_command` does; plans in threads `trace_live`
//! performs. Whole runs of the built program are tried by tools/usbtrace_test.py.
//!
//! # Files
//!
//! - `main.rt`: the process's words and streams
#![tactic(auto)]

ghost use Rattle.std.specs.Prelude.{◌≡◌, ℕ, List, map, IfOk, string_bytes};
ghost use denote.Ref.{Bor};

use std::alloc::{AllocError, Global};
use std::io::{IsTerminal, Stdout};
use std::process::ExitCode;
use std::{env, io};
use trace_command::{BAD_WORDS, command_line, perform};
use trace_live::Live;

/// The texts of the words.
fn texts<'a>(alloc: Global, words: &'a [String]) -> Result<Vec<&'a str>, AllocError>
    ensures { IfOk result (λ texts. map (λ (text : Bor (List ℕ)). text.now) texts.items ≡ map (λ word. string_bytes word) words.entry.now) }
{
    let mut texts = Vec::new(alloc);
    for word in words {
        texts.push(word.as_str())?;
    }
    Ok(texts)
}

/// The process's words.
fn words(rt: &HostRuntime) -> io::Result<Vec<String>> {
    Ok(env::args(rt)?.collect(rt.alloc())?)
}

/// Whether this is a terminal that has colours: no text NO_COLOR is set.
fn has_colours(rt: &HostRuntime, out: &Stdout) -> bool {
    let is_set = match env::var(rt, "NO_COLOR") {
        Ok(text) => !text.is_empty(),
        Err(_) => false,
    };
    out.is_terminal() && !is_set
}

/// Says why there are no words.
fn refuse(rt: &HostRuntime, error: &io::Error) -> ExitCode {
    if error.kind() == io::ErrorKind::OutOfMemory {
        let _ = eprintln!(rt; "usbtrace: out of memory");
        return ExitCode::FAILURE;
    }
    let _ = eprintln!(rt; "usbtrace: a word isn't UTF-8");
    ExitCode::from(BAD_WORDS)
}

fn main(rt: HostRuntime) -> ExitCode {
    let alloc = rt.alloc();
    let words = match words(&rt) {
        Ok(words) => words,
        Err(error) => return refuse(&rt, &error),
    };
    let Ok(texts) = texts(alloc, words.as_slice()) else {
        let _ = eprintln!(rt; "usbtrace: out of memory");
        return ExitCode::FAILURE;
    };
    let Ok(mut line) = command_line(alloc, texts.as_slice()) else {
        let _ = eprintln!(rt; "usbtrace: out of memory");
        return ExitCode::FAILURE;
    };
    let (mut input, mut out, mut err) = (rt.stdin(), rt.stdout(), rt.stderr());
    line.is_on_terminal = has_colours(&rt, &out);
    let live = Live::new(&rt);
    let status = perform(&rt, &live, alloc, &line, &mut input, &mut out, &mut err);
    ExitCode::from(status)
}
