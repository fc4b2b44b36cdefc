//! Lines of entries, gathered and written many at a time.

ghost use Rattle.std.specs.Prelude.{◌≡◌, ◌++◌, [], IfErr, OnErr, OnOk};
ghost use Rattle.std.specs.Io.KnownBytes.{Appends};
ghost use Rattle.trace_io.specs.Faults.{IsOfRun};
ghost use Rattle.trace_io.specs.Output.{line_text, AppendsAllBut, AppendsSome};

use crate::entry_line::add_line;
use crate::fault::Fault;
use crate::write::write_bytes;
use std::alloc::Global;
use std::io::Write;
use std::marker::Model;
use usb_model::Entry;

/// How many bytes of lines are gathered before they are written.
const CHUNK: usize = 16_384;

/// Lines that were put and aren't written yet; contracts see their bytes. Behind a fault they are to be dropped.
#[derive(Drop)]
pub struct Lines {
    bytes: Vec<u8>,
    // The line that is put: its memory is used again for each.
    line: Vec<u8>,
    alloc: Global,
}

impl Model for Lines {
    ghost use Rattle.std.specs.Prelude.{ℕ, List};

    ghost Value = { List ℕ };

    ghost view = { λ l. l.bytes.items };
}

impl Lines {
    /// No line. Takes no memory.
    pub fn new(alloc: Global) -> Lines
        ensures { result ≡ [] }
    {
        Lines {
            bytes: Vec::new(alloc),
            line: Vec::new(alloc),
            alloc,
        }
    }

    /// Puts the line of an entry behind the others. Where they are many, or no memory is had for one more, they are
    /// written first. Behind an error a beginning of them and of the line is written.
    pub fn put<W: Write>(&mut self, out: &mut W, entry: &Entry) -> Result<(), Fault>
        ensures line { OnOk result (AppendsAllBut (self.old ++ line_text entry.now) self.new (W.contents out.old) (W.contents out.new)) }
        ensures begun { OnErr result (AppendsSome (self.old ++ line_text entry.now) (W.contents out.old) (W.contents out.new)) }
        ensures fault { IfErr result (λ fault. IsOfRun fault) }
    {
        self.line.clear();
        match add_line(self.alloc, &mut self.line, entry) {
            Ok(()) => gather(&mut self.bytes, out, self.line.as_slice()),
            Err(_) => {
                write_bytes(out, self.bytes.as_slice())?;
                Err(Fault::Memory)
            }
        }
    }

    /// Puts a text of whole lines behind the others. Where they are many, or no memory is had for the text, they are
    /// written first. Behind an error a beginning of them and of the text is written.
    pub fn put_text<W: Write>(&mut self, out: &mut W, text: &[u8]) -> Result<(), Fault>
        ensures line { OnOk result (AppendsAllBut (self.old ++ text.now) self.new (W.contents out.old) (W.contents out.new)) }
        ensures begun { OnErr result (AppendsSome (self.old ++ text.now) (W.contents out.old) (W.contents out.new)) }
        ensures fault { IfErr result (λ fault. IsOfRun fault) }
    {
        gather(&mut self.bytes, out, text)
    }

    /// Writes those that aren't written yet. Where that fails, a beginning of them is written.
    pub fn end<W: Write>(self, out: &mut W) -> Result<(), Fault>
        ensures written { OnOk result (Appends (W.contents out.old) (W.contents out.new) self) }
        ensures begun { AppendsSome self (W.contents out.old) (W.contents out.new) }
        ensures fault { IfErr result (λ fault. IsOfRun fault) }
    {
        write_bytes(out, self.bytes.as_slice())?;
        out.flush()?;
        Ok(())
    }
}

/// Puts a text behind those that were gathered. Where they are many, or no memory is had for the text, they are written
/// first. Behind an error a beginning of them and of the text is written.
fn gather<W: Write>(bytes: &mut Vec<u8>, out: &mut W, text: &[u8]) -> Result<(), Fault>
    ensures line { OnOk result (AppendsAllBut (bytes.old.items ++ text.now) bytes.new.items (W.contents out.old) (W.contents out.new)) }
    ensures begun { OnErr result (AppendsSome (bytes.old.items ++ text.now) (W.contents out.old) (W.contents out.new)) }
    ensures fault { IfErr result (λ fault. IsOfRun fault) }
{
    if bytes.len() < CHUNK && bytes.extend_from_slice(text).is_ok() {
        return Ok(());
    }
    write_bytes(out, bytes.as_slice())?;
    bytes.clear();
    bytes.extend_from_slice(text)?;
    Ok(())
}
