//! Why a run of the program ends early.

ghost use Rattle.std.specs.Prelude.{◌≡◌, OnOk, Some};
ghost use Rattle.std.specs.Io.KnownBytes.{Appends};
ghost use Rattle.std.specs.IoError.{error_kind};
ghost use Rattle.trace_io.specs.Faults.{fault_of_capture, fault_of_descriptor, fault_of_kind, fault_of_text, fault_text, is_closed, message_of, refusal_head, sentence_of};
ghost use Rattle.trace_io.specs.Output.{AppendsSome};
ghost use Rattle.trace_io.specs.declared.fault.Fault.TheVariants as Fault;

use crate::write::write_bytes;
use arrayvec::ArrayString;
use std::alloc::AllocError;
use std::fmt::Write;
use std::{fmt, io};
use thiserror::Error;
use trace_faults::{CaptureFault, DescriptorFault};
use usb_scripttext::TextFault;

/// How many bytes a message may have. The longest, of a descriptor at an offset of 20 digits, has 130.
const ROOM: usize = 160;

/// What ends a run, in the words of its message.
#[derive(Clone, Copy, PartialEq, Eq, Debug, Error)]
pub enum Fault {
    /// The line of this number, from 1, is none that may stand there.
    Line(u64),
    /// No memory was to be had.
    Memory,
    /// The input can't be read, or the output not written.
    InputOutput,
    /// Nobody reads the output any more, as behind `| head -1`. He has what he wanted, so nothing is told.
    Closed,
    /// The input has more bytes than one may have; it counts as one that can't be read.
    TooLong,
    /// More callbacks than so many were called.
    Rounds(u64),
    /// So many steps were to be drawn, more than a picture has.
    Wide(u64),
    /// The input is no capture that is read, for this reason, which isn't want of memory.
    Capture(CaptureFault),
    /// The input is no descriptor that is read, for this reason, which isn't want of memory.
    Descriptor(DescriptorFault),
}

/// How a sentence begins that says why a capture isn't read.
fn refusal_head(fault: CaptureFault) -> &'static str
    ensures { result.now ≡ refusal_head fault }
{
    match fault {
        CaptureFault::NoDevice(_) => "the capture has ",
        _ => "the capture is refused: ",
    }
}

/// The fault in words. They are written here, and not by the derive, whose text no contract knows.
impl fmt::Display for Fault {
    ghost output = { λ fault. Some (fault_text fault) };

    fn fmt<W: fmt::Write>(&self, f: &mut fmt::Formatter<W>) -> fmt::Result {
        match self {
            Fault::Line(line) => write!(f, "line {line} refused"),
            Fault::Memory => f.write_str("out of memory"),
            Fault::InputOutput => f.write_str("input or output failed"),
            Fault::Closed => f.write_str("nobody reads the output any more"),
            Fault::TooLong => f.write_str(
                "the input is longer than 67108864 bytes\nusbtrace: input or output failed",
            ),
            Fault::Rounds(rounds) => write!(
                f,
                "more than {rounds} callbacks are called: --rounds sets how many may be"
            ),
            Fault::Wide(steps) => write!(
                f,
                "{steps} steps are too many for a picture, which has 2000: choose some by --from and --to"
            ),
            Fault::Capture(fault) => {
                let head = refusal_head(*fault);
                write!(f, "{head}{fault}")
            }
            Fault::Descriptor(fault) => write!(f, "{fault}"),
        }
    }
}

impl Fault {
    /// Whether it is that nobody reads the output any more.
    fn is_closed(&self) -> bool
        ensures { result ≡ is_closed self.now }
    {
        matches!(self, Fault::Closed)
    }

    /// Says what ended the run, on standard error; nothing, where nobody reads the output any more. Where writing fails, a beginning of
    /// the message is written. No memory is taken.
    pub fn tell<E: io::Write>(self, err: &mut E) -> Result<(), Fault>
        ensures whole { OnOk result (Appends (E.contents err.old) (E.contents err.new) (message_of self)) }
        ensures begun { AppendsSome (message_of self) (E.contents err.old) (E.contents err.new) }
    {
        if self.is_closed() {
            return Ok(());
        }
        self.tell_sentence(err)
    }

    /// Says it in words, whatever it is. Where writing fails, a beginning is written.
    fn tell_sentence<E: io::Write>(&self, err: &mut E) -> Result<(), Fault>
        ensures whole { OnOk result (Appends (E.contents err.old) (E.contents err.new) (sentence_of self.now)) }
        ensures begun { AppendsSome (sentence_of self.now) (E.contents err.old) (E.contents err.new) }
    {
        let mut message: ArrayString<ROOM> = ArrayString::new();
        match write!(message, "usbtrace: {self}\n") {
            Ok(()) => write_bytes(err, message.as_bytes()),
            Err(_) => Err(Fault::InputOutput),
        }
    }
}

impl From<TextFault> for Fault {
    ghost from_gives = { λ error fault. fault ≡ fault_of_text error };

    fn from(error: TextFault) -> Fault {
        match error {
            TextFault::Line(line) => Fault::Line(line),
            TextFault::Memory => Fault::Memory,
        }
    }
}

impl From<CaptureFault> for Fault {
    ghost from_gives = { λ error fault. fault ≡ fault_of_capture error };

    fn from(error: CaptureFault) -> Fault {
        match error {
            CaptureFault::Memory => Fault::Memory,
            _ => Fault::Capture(error),
        }
    }
}

impl From<DescriptorFault> for Fault {
    ghost from_gives = { λ error fault. fault ≡ fault_of_descriptor error };

    fn from(error: DescriptorFault) -> Fault {
        match error {
            DescriptorFault::Memory => Fault::Memory,
            _ => Fault::Descriptor(error),
        }
    }
}

impl From<AllocError> for Fault {
    ghost from_gives = { λ _ fault. fault ≡ Fault.Memory };

    fn from(_error: AllocError) -> Fault {
        Fault::Memory
    }
}

impl From<io::Error> for Fault {
    ghost from_gives = { λ error fault. fault ≡ fault_of_kind (error_kind error) };

    fn from(error: io::Error) -> Fault {
        match error.kind() {
            io::ErrorKind::OutOfMemory => Fault::Memory,
            io::ErrorKind::BrokenPipe => Fault::Closed,
            _ => Fault::InputOutput,
        }
    }
}
