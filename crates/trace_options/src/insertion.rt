//! Bytes of files, in the place of words of a text that name the files.

ghost use Rattle.std.specs.Prelude.{◌≡◌, false, None, Ok};
ghost use Rattle.trace_options.specs.Inputs.{may_name_files};

use crate::beside::read_file;
use std::alloc::{AllocError, Global};
use std::fmt;
use std::rt::Files;
use trace_io::Fault;

/// How many bytes of files a text may have in all: half of what an input may have, since each is two digits.
const MOST_BYTES: usize = 33_554_432;

/// How many bytes an answer may have.
const LONGEST_ANSWER: usize = 2_048;

/// What is wrong with a file that a text names.
#[derive(Clone, Copy)]
pub enum FileFault {
    /// It can't be read.
    Unread,
    /// With it the text has more bytes of files than it may have.
    TooLong,
}

impl fmt::Display for FileFault {
    fn fmt<W: fmt::Write>(&self, f: &mut fmt::Formatter<W>) -> fmt::Result {
        f.write_str(match self {
            FileFault::Unread => "can't be read",
            FileFault::TooLong => "is too long",
        })
    }
}

/// Why a text has no bytes of files.
#[derive(Drop)]
pub enum InsertedFault {
    /// The line of this number, from 1, names a file of which this is wrong.
    File(u64, String, FileFault),
    /// Something else ended the run.
    Other(Fault),
}

impl fmt::Display for InsertedFault {
    fn fmt<W: fmt::Write>(&self, f: &mut fmt::Formatter<W>) -> fmt::Result {
        match self {
            InsertedFault::File(line, name, fault) => write!(f, "line {line}: {name} {fault}"),
            InsertedFault::Other(fault) => write!(f, "{fault}"),
        }
    }
}

impl From<AllocError> for InsertedFault {
    fn from(_error: AllocError) -> Self {
        InsertedFault::Other(Fault::Memory)
    }
}

impl From<Fault> for InsertedFault {
    fn from(fault: Fault) -> Self {
        InsertedFault::Other(fault)
    }
}

/// Which words of a line may name a file.
#[derive(Clone, Copy)]
enum NamingLine {
    /// `d:@NAME` and `a:@NAME`, both with a size behind it or without.
    Answers,
    /// `x:@NAME`.
    Written,
    /// `@NAME`, the last word: a configuration.
    Configuration,
    /// `@NAME`, the last word: a device descriptor.
    Device,
}

/// A file that a word names, and what stands before its bytes.
#[derive(Clone, Copy)]
struct NamedFile<'a> {
    front: &'static str,
    name: &'a str,
    /// How many bytes each answer has; None for one answer with all.
    size: Option<usize>,
}

/// Which words of a line may name a file; None where none may, or the line ends as no line may.
fn naming_line(line: &[u8]) -> Option<NamingLine> {
    if !line.contains(&b'@') || line.ends_with(b"\r") {
        return None;
    }
    match line.split(|byte| *byte == b' ').next()? {
        b"script" | b"feed" | b"control" => Some(NamingLine::Answers),
        b"submit" => Some(NamingLine::Written),
        b"device" => Some(NamingLine::Configuration),
        b"descriptor" => Some(NamingLine::Device),
        _ => None,
    }
}

/// The size that stands behind a name: 1 to 2048, in decimal digits without leading zeros.
fn size_in(digits: &str) -> Option<usize> {
    if digits.starts_with('0') || !digits.as_bytes().iter().all(|digit| digit.is_ascii_digit()) {
        return None;
    }
    let size = digits.parse::<usize>().ok()?;
    if size <= LONGEST_ANSWER {
        Some(size)
    } else {
        None
    }
}

impl<'a> NamedFile<'a> {
    /// One whose bytes stand behind this.
    fn whole(front: &'static str, name: &'a [u8]) -> Option<NamedFile<'a>> {
        let name = str::from_utf8(name).ok()?;
        if name.is_empty() {
            return None;
        }
        Some(NamedFile {
            front,
            name,
            size: None,
        })
    }

    /// The same, where a size may stand behind the name.
    fn of_answers(front: &'static str, word: &'a [u8]) -> Option<NamedFile<'a>> {
        let whole = NamedFile::whole(front, word)?;
        let Some((name, digits)) = whole.name.rsplit_once('/') else {
            return Some(whole);
        };
        match size_in(digits) {
            Some(size) if !name.is_empty() => Some(NamedFile {
                front,
                name,
                size: Some(size),
            }),
            _ => Some(whole),
        }
    }

    /// The file that a word names, in a line of this form; None where it names none.
    fn in_word(line: NamingLine, is_last: bool, word: &'a [u8]) -> Option<NamedFile<'a>> {
        match line {
            NamingLine::Answers => match word.strip_prefix(b"d:@") {
                Some(name) => NamedFile::of_answers("d:", name),
                None => NamedFile::of_answers("a:", word.strip_prefix(b"a:@")?),
            },
            NamingLine::Written => NamedFile::whole("x:", word.strip_prefix(b"x:@")?),
            NamingLine::Configuration | NamingLine::Device => {
                if is_last {
                    NamedFile::whole("", word.strip_prefix(b"@")?)
                } else {
                    None
                }
            }
        }
    }
}

/// Bytes without a device descriptor in front (USB 2.0, 9.6.1).
fn behind_device(bytes: &[u8]) -> &[u8] {
    if bytes.starts_with(&[18, 1]) {
        bytes.get(18..).unwrap_or(bytes)
    } else {
        bytes
    }
}

/// The folder of a file; None for the current one.
pub fn folder_of(file: &str) -> Option<&str> {
    let (folder, _name) = file.rsplit_once('/')?;
    Some(folder)
}

/// A text in which files are being put in the place of their names.
#[derive(Drop)]
struct InsertedText<'a> {
    alloc: Global,
    /// Where the files are looked for; None for the current folder.
    folder: Option<&'a str>,
    /// The number of the line, from 1.
    line: u64,
    /// How many bytes of files may come yet.
    left: usize,
    text: Vec<u8>,
}

impl<'a> InsertedText<'a> {
    /// An empty one.
    fn new(alloc: Global, folder: Option<&'a str>) -> InsertedText<'a> {
        InsertedText {
            alloc,
            folder,
            line: 0,
            left: MOST_BYTES,
            text: Vec::new(alloc),
        }
    }

    /// Why a file isn't taken.
    fn fault(&self, name: &str, fault: FileFault) -> InsertedFault {
        match String::from_str(self.alloc, name) {
            Ok(name) => InsertedFault::File(self.line, name, fault),
            Err(_) => InsertedFault::Other(Fault::Memory),
        }
    }

    /// Where a file is.
    fn path(&self, name: &str) -> Result<String, AllocError> {
        match self.folder {
            Some(folder) if !name.starts_with('/') => format!(in self.alloc; "{folder}/{name}"),
            _ => String::from_str(self.alloc, name),
        }
    }

    /// All bytes of a file.
    fn read<R: Files>(&mut self, rt: &R, name: &str) -> Result<Vec<u8>, InsertedFault> {
        let path = self.path(name)?;
        let bytes = match read_file(rt, self.alloc, path.as_str()) {
            Ok(bytes) => bytes,
            Err(Fault::Memory) => return Err(InsertedFault::Other(Fault::Memory)),
            Err(Fault::TooLong) => return Err(self.fault(name, FileFault::TooLong)),
            Err(_) => return Err(self.fault(name, FileFault::Unread)),
        };
        if bytes.len() > self.left {
            return Err(self.fault(name, FileFault::TooLong));
        }
        self.left -= bytes.len();
        Ok(bytes)
    }

    /// Puts bytes behind this, as hexadecimal digits.
    fn put_bytes(&mut self, front: &str, bytes: &[u8]) -> Result<(), AllocError> {
        let digits = hex::encode(self.alloc, bytes)?;
        self.text.extend_from_slice(front.as_bytes())?;
        self.text.extend_from_slice(digits.as_str().as_bytes())
    }

    /// The same, as words of so many bytes; one word where there are none.
    fn put_answers(&mut self, front: &str, bytes: &[u8], size: usize) -> Result<(), AllocError> {
        if bytes.is_empty() {
            return self.put_bytes(front, bytes);
        }
        for (place, answer) in bytes.chunks(size.max(1)).enumerate() {
            if place > 0 {
                self.text.extend_from_slice(b" ")?;
            }
            self.put_bytes(front, answer)?;
        }
        Ok(())
    }

    /// Puts a word there, or the bytes of the file that it names.
    fn put_word<R: Files>(
        &mut self,
        rt: &R,
        line: NamingLine,
        is_last: bool,
        word: &[u8],
    ) -> Result<(), InsertedFault> {
        let Some(file) = NamedFile::in_word(line, is_last, word) else {
            return Ok(self.text.extend_from_slice(word)?);
        };
        let bytes = self.read(rt, file.name)?;
        match (line, file.size) {
            (NamingLine::Configuration, _) => {
                self.put_bytes("", behind_device(bytes.as_slice()))?;
            }
            (_, Some(size)) => self.put_answers(file.front, bytes.as_slice(), size)?,
            (_, None) => self.put_bytes(file.front, bytes.as_slice())?,
        }
        Ok(())
    }

    /// Puts a line there, with the bytes of the files that its words name.
    fn put_line<R: Files>(&mut self, rt: &R, line: &[u8]) -> Result<(), InsertedFault> {
        let Some(naming) = naming_line(line) else {
            return Ok(self.text.extend_from_slice(line)?);
        };
        let last = line.iter().filter(|byte| **byte == b' ').count();
        for (place, word) in line.split(|byte| *byte == b' ').enumerate() {
            if place > 0 {
                self.text.extend_from_slice(b" ")?;
            }
            self.put_word(rt, naming, place == last, word)?;
        }
        Ok(())
    }
}

/// A text with the bytes of files in the place of their names; None where it names none. Files are looked for in this folder, or in the
/// current one. Lines stay lines.
pub fn inserted<R: Files>(
    rt: &R,
    alloc: Global,
    folder: Option<&str>,
    text: &[u8],
) -> Result<Option<Vec<u8>>, InsertedFault>
    ensures none { may_name_files text.now ≡ false → result ≡ Ok None }
{
    if !text.contains(&b'@') {
        return Ok(None);
    }
    let mut whole = InsertedText::new(alloc, folder);
    for line in text.split(|byte| *byte == b'\n') {
        if whole.line > 0 {
            whole.text.extend_from_slice(b"\n")?;
        }
        whole.line = whole.line.saturating_add(1);
        whole.put_line(rt, line)?;
    }
    let InsertedText { text, .. } = whole;
    Ok(Some(text))
}
