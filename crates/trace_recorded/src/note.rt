//! What an endpoint's script leaves unsaid.

ghost use Rattle.std.specs.Prelude.{◌≡◌, Some};
ghost use Rattle.trace_recorded.specs.Endpoints.{no_note, with_noted};
ghost use Rattle.trace_recorded.specs.Lines.{is_due, note_text};

use crate::request::MOST_DATA;
use std::fmt;
use usb_model::limits::{LONGEST_SCRIPT, MOST_BYTES};

/// How many of something there are; the count stays at the largest number of 64 bits.
#[derive(Clone, Copy)]
pub(crate) struct Noted {
    /// How many.
    pub(crate) count: u64,
    /// The packet of the capture that has the first.
    pub(crate) frame: u64,
}

impl Noted {
    /// None.
    pub(crate) fn new() -> Noted
        ensures { result ≡ no_note }
    {
        Noted { count: 0, frame: 0 }
    }

    /// So many more, in the packet of this number.
    pub(crate) fn with(self, frame: u64, more: u64) -> Noted
        ensures { result ≡ with_noted frame more self }
    {
        if more == 0 {
            return self;
        }
        Noted {
            count: self.count.saturating_add(more),
            frame: if self.count == 0 { frame } else { self.frame },
        }
    }
}

/// What is noted of an endpoint.
#[derive(Clone, Copy)]
pub(crate) enum EndpointNote {
    /// Bytes that were read and not recorded.
    Lost(Noted),
    /// Packets that were too long for what was asked.
    TooLong(Noted),
    /// Transfers that were too large for a request.
    TooLarge(Noted),
    /// Control requests that were too large for an answer.
    Requests(Noted),
    /// Answers, more than a script has, with the packet that has the first of the others.
    TooMany(Noted),
    /// Transfers of an endpoint that has no script.
    Others(Noted),
}

impl EndpointNote {
    /// Whether there is something to note.
    pub(crate) fn is_due(self) -> bool
        ensures { result ≡ is_due self }
    {
        match self {
            EndpointNote::Lost(n)
            | EndpointNote::TooLong(n)
            | EndpointNote::TooLarge(n)
            | EndpointNote::Requests(n)
            | EndpointNote::Others(n) => n.count > 0,
            EndpointNote::TooMany(n) => n.count > LONGEST_SCRIPT as u64,
        }
    }
}

impl fmt::Display for EndpointNote {
    ghost output = { λ note. Some (note_text note) };

    fn fmt<W: fmt::Write>(&self, f: &mut fmt::Formatter<W>) -> fmt::Result {
        match self {
            EndpointNote::Lost(n) => {
                let (count, frame) = (n.count, n.frame);
                write!(
                    f,
                    "{count} bytes were not recorded; they are 00 here (first in frame {frame})"
                )
            }
            EndpointNote::TooLong(n) => {
                let (count, frame) = (n.count, n.frame);
                write!(
                    f,
                    "{count} packets were too long; their bytes are 00 here (first in frame {frame})"
                )
            }
            EndpointNote::TooLarge(n) => {
                let (count, frame, most) = (n.count, n.frame, MOST_BYTES);
                write!(
                    f,
                    "{count} transfers of more than {most} bytes are left out (first in frame {frame})"
                )
            }
            EndpointNote::Requests(n) => {
                let (count, frame, most) = (n.count, n.frame, MOST_DATA);
                write!(
                    f,
                    "{count} requests of more than {most} bytes are left out (first in frame {frame})"
                )
            }
            EndpointNote::TooMany(n) => {
                let (count, frame, longest) = (n.count, n.frame, LONGEST_SCRIPT);
                write!(
                    f,
                    "the first {longest} of {count} answers (the next is in frame {frame})"
                )
            }
            EndpointNote::Others(n) => {
                let (count, frame) = (n.count, n.frame);
                write!(
                    f,
                    "{count} transfers are left out: not a bulk or interrupt endpoint of this configuration (first in frame {frame})"
                )
            }
        }
    }
}
