//! A transfer that was recorded.

ghost use Rattle.std.specs.Prelude.{◌≡◌};
ghost use Rattle.trace_recorded.specs.Answers.{end_of};
ghost use Rattle.trace_recorded.specs.Endpoints.{bytes_lost, is_stalled, is_too_large, is_too_long, is_withdrawn, reads_too_long};

use usb_model::limits::MOST_BYTES;
use usb_model::{Bytes, EpAddr};

/// How a recorded transfer ended (Linux, Documentation/driver-api/usb/error-codes.rst).
#[derive(Clone, Copy, PartialEq, Eq, Debug)]
pub enum RecordedEnd {
    /// As it was asked for, or with fewer bytes: 0, and -121, EREMOTEIO.
    Done,
    /// The endpoint is halted: -32, EPIPE.
    Stalled,
    /// A transaction failed all its retries: -71, EPROTO; -84, EILSEQ; -62, ETIME; -70, ECOMM; -63, ENOSR.
    Failed,
    /// The device sent more than there was room for: -75, EOVERFLOW.
    TooLong,
    /// The host made it end: -2, ENOENT, and -104, ECONNRESET.
    Withdrawn,
    /// Its device is gone, or another error: any other.
    Cut,
}

/// A transfer of a bulk or an interrupt endpoint, as its submission and its callback were recorded.
#[derive(Debug, Drop)]
pub struct RecordedTransfer {
    /// Its endpoint.
    pub ep: EpAddr,
    /// How many bytes were asked for.
    pub asked: u32,
    /// Whether an empty packet was asked for behind whole ones; of OUT alone.
    pub zero_packet: bool,
    /// How many bytes moved; a working host records no more than were asked for.
    pub moved: u32,
    /// How it ended.
    pub end: RecordedEnd,
    /// The bytes that were read, or written, as far as they were recorded. Of a read those behind them count as zeros.
    pub bytes: Bytes,
}

impl RecordedEnd {
    /// By the status, 32 bits in two's complement.
    pub fn of(status: u32) -> RecordedEnd
        ensures { result ≡ end_of status }
    {
        match status.wrapping_neg() {
            0 | 121 => RecordedEnd::Done,
            32 => RecordedEnd::Stalled,
            62 | 63 | 70 | 71 | 84 => RecordedEnd::Failed,
            75 => RecordedEnd::TooLong,
            2 | 104 => RecordedEnd::Withdrawn,
            _ => RecordedEnd::Cut,
        }
    }
}

impl RecordedEnd {
    /// Whether it is a stall.
    pub(crate) fn is_stalled(self) -> bool
        ensures { result ≡ is_stalled self }
    {
        matches!(self, RecordedEnd::Stalled)
    }

    /// Whether the host made it end.
    pub(crate) fn is_withdrawn(self) -> bool
        ensures { result ≡ is_withdrawn self }
    {
        matches!(self, RecordedEnd::Withdrawn)
    }

    /// Whether a packet was too long.
    pub(crate) fn is_too_long(self) -> bool
        ensures { result ≡ is_too_long self }
    {
        matches!(self, RecordedEnd::TooLong)
    }
}

impl RecordedTransfer {
    /// Whether it is too large for a request.
    pub(crate) fn is_too_large(&self) -> bool
        ensures { result ≡ is_too_large self.now }
    {
        self.asked as usize > MOST_BYTES || self.moved as usize > MOST_BYTES
    }

    /// How many of the bytes that it read weren't recorded.
    pub(crate) fn bytes_lost(&self) -> u64
        ensures { result ≡ bytes_lost self.now }
    {
        if self.ep.is_in() {
            (self.moved as u64).saturating_sub(self.bytes.len() as u64)
        } else {
            0
        }
    }

    /// 1 where it read a packet that was too long.
    pub(crate) fn reads_too_long(&self) -> u64
        ensures { result ≡ reads_too_long self.now }
    {
        if self.ep.is_in() && self.end.is_too_long() {
            1
        } else {
            0
        }
    }
}
