//! The TDs of a transfer, by their lengths.

ghost use Rattle.std.specs.Prelude.{◌≡◌, ◌≤◌, ◌<◌, ◌+◌, length, take};
ghost use Rattle.usb_model.specs.Limits.{most_bytes};
ghost use Rattle.usb_model.specs.Requests.{length_of};
ghost use Rattle.usb_tables.specs.Tds.{tds_of, lengths};
ghost use Rattle.usb_model.specs.Kept.{is_extra, trbs_of};
ghost use Rattle.usb_model.specs.Stands.{length_at, total};

use std::marker::Model;
use usb_model::{Body, Request};

/// The most bytes that a TRB moves (xHCI 1.2, 6.4.1.1).
pub(crate) const PIECE: u32 = 65536;

/// A TRB of a transfer: which of its bytes it moves.
#[derive(Clone, Copy, PartialEq, Eq, Debug)]
pub struct Span {
    /// How many bytes the TRBs before it move, at most 262,144.
    pub before: u32,
    /// How many it moves, at most 65,536.
    pub length: u32,
}

/// What a transfer moves, as its TDs (xHCI 1.2, 4.11.3): at most 262,144 bytes in one TD of 1 to 4 TRBs, and behind whole
/// packets, where the request says so, an empty packet in a TD of its own (`LIBUSB_TRANSFER_ADD_ZERO_PACKET`).
#[derive(Clone, Copy, PartialEq, Eq, Debug)]
pub struct Tds {
    pub(crate) length: u32,
    pub(crate) extra: bool,
    pub(crate) inward: bool,
}

impl Model for Tds {
    ghost use Rattle.usb_tables.specs.Tds.{Tds as Lengths, IsTds};

    ghost Value = { Lengths };

    ghost view = { λ t. record { length = t.length; extra = t.extra; inward = t.inward } };

    ghost invariant = { λ t. IsTds (record { length = t.length; extra = t.extra; inward = t.inward }) };

    ghost inverse = { λ v. record { length = v.length; extra = v.extra; inward = v.inward } };
}

impl Tds {
    /// Those of a request of at most 262,144 bytes, as is each that isn't refused, at an endpoint of this packet size in
    /// bytes.
    pub fn of(size: u16, request: &Request) -> Tds
        requires { length_of request.now.body ≤ most_bytes }
        ensures { result ≡ tds_of size request.now }
    {
        Tds {
            length: request.body.length() as u32,
            extra: is_extra(size, request),
            inward: matches!(request.body, Body::In(_)),
        }
    }

    /// How many bytes, at most 262,144.
    pub fn length(self) -> u32
        ensures value { result ≡ self.length }
        ensures most { result ≤ most_bytes }
    {
        self.length
    }

    /// How many TRBs, 1 to 5.
    pub fn count(self) -> usize
        ensures value { result ≡ length (lengths self) }
        ensures least { 1 ≤ result }
        ensures most { result ≤ 5 }
    {
        let whole = self.length.saturating_sub(1) / PIECE;
        whole as usize + 1 + usize::from(self.extra)
    }

    /// Its TRB of this number, from 0 on.
    pub fn span(self, trb: usize) -> Span
        requires { trb < length (lengths self) }
        ensures value { result ≡ record { before = total (take trb (lengths self)); length = length_at (lengths self) trb } }
        ensures within { result.before + result.length ≤ self.length }
    {
        let first = trb as u32;
        let before = self.length.min(first * PIECE);
        let end = self.length.min((first + 1) * PIECE);
        Span {
            before,
            length: end - before,
        }
    }
}

/// Whether an empty packet comes behind whole ones: bytes are sent, and the last of their packets is full.
fn is_extra(size: u16, request: &Request) -> bool
    ensures { result ≡ is_extra size request.now request.now.body }
{
    match &request.body {
        Body::In(_) => false,
        Body::Out(bytes) => {
            request.adds_zero_packet()
                && !bytes.is_empty()
                && bytes.len().is_multiple_of(usize::from(size))
        }
    }
}
