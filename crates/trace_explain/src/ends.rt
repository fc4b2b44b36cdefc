//! How a transfer ends, read off its answers, whose bytes aren't copied.

ghost use Rattle.std.specs.Prelude.{◌≡◌, ◌-◌, ◌*◌, ◌/◌, ◌≤◌, drop, length};
ghost use Rattle.std.specs.Option.{option_and_then};
ghost use Rattle.trace_explain.specs.Answers.{answers_in};
ghost use Rattle.trace_explain.specs.Endings.{answer_end, end_of, ending_of};
ghost use Rattle.trace_explain.specs.Ends.{last_end, read_end};
ghost use Rattle.usb_model.specs.declared.request.Body.TheVariants.{In};
ghost use Rattle.usb_model.specs.Endpoint.Packets.{acks, full_packets, moved_by, packets, sent_with, without_naks};

use crate::answers::Answers;
use crate::sentence::TransferEnd;
use reference::progress::stays_open;
use usb_model::{Body, Endpoint, EpAddr, Item, Request, Response};

/// How a transfer ended.
#[derive(Clone, Copy)]
pub(crate) enum End {
    /// All its bytes moved.
    Whole,
    /// A short packet came when so many bytes had moved, its own included.
    Short(usize),
    /// It was stalled.
    Stall,
    /// A packet was broken.
    Broken,
    /// A packet had too many bytes.
    Babble,
}

impl End {
    /// In words that name the endpoint.
    pub fn ending(self, ep: EpAddr, endpoint: &Endpoint, item: &Item) -> TransferEnd
        ensures { result ≡ ending_of ep endpoint.now item.now self }
    {
        let bytes = item.request.body.length();
        match self {
            End::Whole => TransferEnd::Whole { bytes },
            End::Short(moved) => TransferEnd::Short { moved, bytes },
            End::Stall => {
                if endpoint.device_halted {
                    TransferEnd::Halted { ep }
                } else {
                    TransferEnd::Stall { ep }
                }
            }
            End::Broken => TransferEnd::Broken { ep },
            End::Babble => TransferEnd::Babble { ep },
        }
    }
}

/// How many full packets leave room in so many bytes. Where the size is 0, none does.
fn most_full(n: usize, size: usize) -> usize
    ensures { result ≡ (n - 1) / size }
{
    if size == 0 {
        0
    } else {
        n.saturating_sub(1) / size
    }
}

/// A packet of so many bytes behind full packets: too much, all that was asked for, short, or none of these.
fn last_end(n: usize, size: usize, full: usize, length: usize) -> Option<End>
    requires { full * size ≤ n }
    ensures { result ≡ last_end n size full length }
{
    let moved = full * size;
    if length > size.min(n - moved) {
        Some(End::Babble)
    } else if moved + length == n {
        Some(End::Whole)
    } else if length < size {
        Some(End::Short(moved + length))
    } else {
        None
    }
}

/// What stands behind full packets, with room for `n` bytes in all.
fn behind_full(n: usize, size: usize, full: usize, rest: &Answers<'_>) -> Option<End>
    requires { full * size ≤ n }
    ensures { result ≡ read_end n size full (without_naks (answers_in rest.now)) }
{
    let (answer, behind) = rest.first()?;
    if behind.first().is_some() {
        return None;
    }
    match answer {
        Response::Stall => Some(End::Stall),
        Response::Broken => Some(End::Broken),
        Response::Data(bytes) => last_end(n, size, full, bytes.len()),
        Response::Ack | Response::Nak => None,
    }
}

/// How a read of so many bytes ends, if it does.
#[tactic(auto, using(crate::proofs::FullFronts::full_fits))]
fn read_end(request: &Request, n: usize, size: usize, answers: &Answers<'_>) -> Option<End>
    ensures { result ≡ option_and_then end_of (moved_by request.now size (In n) (without_naks (answers_in answers.now))) }
{
    let (full, rest) = answers.full_front(size, most_full(n, size));
    behind_full(n, size, full, &rest)
}

/// How many packets a request sends.
#[tactic(auto, using(usb_model::proofs::CutPackets::length_cut, usb_model::proofs::CutPackets::few_full_packets), unfolding(usb_model::specs::Endpoint::Packets::pieces))]
fn packet_count(request: &Request, size: usize) -> usize
    ensures { result ≡ length (packets request.now size) }
{
    match &request.body {
        Body::In(_) => 0,
        Body::Out(bytes) => {
            let n = bytes.as_slice().len();
            full_packets(request.adds_zero_packet(), n, size) + 1
        }
    }
}

/// How many packets stand before the last. Where the size is 0, none does.
fn full_packets(adds_zero: bool, n: usize, size: usize) -> usize
    ensures { result ≡ full_packets adds_zero n size }
{
    if size == 0 {
        return 0;
    }
    if adds_zero && n % size == 0 {
        n / size
    } else {
        n.saturating_sub(1) / size
    }
}

/// What stands behind so many acknowledgements.
fn behind_acks(request: &Request, size: usize, sent: usize, rest: &Answers<'_>) -> Option<End>
    ensures { result ≡ option_and_then end_of (sent_with (packets request.now size) sent (without_naks (answers_in rest.now))) }
{
    let all = packet_count(request, size);
    let Some((answer, behind)) = rest.first() else {
        return if sent == all { Some(End::Whole) } else { None };
    };
    if all <= sent || behind.first().is_some() {
        return None;
    }
    match answer {
        Response::Stall => Some(End::Stall),
        Response::Broken => Some(End::Broken),
        Response::Data(_) | Response::Ack | Response::Nak => None,
    }
}

/// How a write ends, if it does.
fn sent_end(request: &Request, size: usize, answers: &Answers<'_>) -> Option<End>
    ensures { let xs = without_naks (answers_in answers.now) in result ≡ option_and_then end_of (sent_with (packets request.now size) (acks xs) (drop (acks xs) xs)) }
{
    let (sent, rest) = answers.acks();
    behind_acks(request, size, sent, &rest)
}

/// How a transfer ends by the answer that it takes now, if it does.
#[tactic(auto, using(crate::proofs::TellsEnds::no_end), unfolding(crate::specs::Endings::answer_end, usb_model::specs::Endpoint::Packets::outcome))]
pub(crate) fn answer_end(size: u16, endpoint: &Endpoint, item: &Item) -> Option<End>
    ensures { result ≡ answer_end size endpoint.now item.now }
{
    if stays_open(endpoint, size, item) {
        return None;
    }
    let answers = Answers::of(endpoint, item);
    if endpoint.device_halted && answers.is_empty() {
        return Some(End::Stall);
    }
    let size = usize::from(size);
    match &item.request.body {
        Body::In(n) => read_end(&item.request, *n as usize, size, &answers),
        Body::Out(_) => sent_end(&item.request, size, &answers),
    }
}
