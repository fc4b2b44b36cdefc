//! The bytes of an OUT transfer, cut into packets (USB 2.0, 5.8.3).

ghost use Rattle.std.specs.Prelude.{◌≡◌, ◌≤◌, ℕ, suc, length, take, drop, IfOk};
ghost use Rattle.usb_model.specs.Endpoint.Packets.{cut, full_packets, packets};

use std::alloc::{AllocError, Global};
use usb_model::{Body, Bytes, Request, Sequence};

/// How many packets a request sends.
#[tactic(auto, using(usb_model::proofs::CutPackets::length_cut, usb_model::proofs::CutPackets::few_full_packets), unfolding(usb_model::specs::Endpoint::Packets::pieces))]
pub(crate) fn packet_count(request: &Request, size: usize) -> usize
    ensures { result ≡ length (packets request.now size) }
{
    match &request.body {
        Body::In(_) => 0,
        Body::Out(bytes) => {
            let n = bytes.as_slice().len();
            full_packets(request.adds_zero_packet(), n, size) + 1
        }
    }
}

/// The first so many of the packets that a request sends.
#[tactic(auto, using(usb_model::proofs::CutPackets::length_cut), unfolding(usb_model::specs::Endpoint::Packets::pieces))]
pub(crate) fn first_packets(
    alloc: Global,
    request: &Request,
    size: usize,
    count: usize,
) -> Result<Vec<Bytes>, AllocError>
    requires { count ≤ length (packets request.now size) }
    ensures { IfOk result (λ v. v.items ≡ take count (packets request.now size)) }
{
    match &request.body {
        Body::In(_) => Ok(Vec::new(alloc)),
        Body::Out(bytes) => first_pieces(alloc, size, count, bytes.as_slice()),
    }
}

/// How many packets stand before the last. Where the size is 0, none does.
fn full_packets(adds_zero: bool, n: usize, size: usize) -> usize
    ensures { result ≡ full_packets adds_zero n size }
{
    if size == 0 {
        return 0;
    }
    if adds_zero && n % size == 0 {
        n / size
    } else {
        n.saturating_sub(1) / size
    }
}

/// The first so many pieces of this size, where the bytes are cut into no fewer.
fn first_pieces(
    alloc: Global,
    size: usize,
    count: usize,
    bytes: &[u8],
) -> Result<Vec<Bytes>, AllocError>
    ensures { IfOk result (λ v. (k : ℕ) → count ≤ suc k → v.items ≡ take count (cut size k bytes.now)) }
{
    let mut pieces = Vec::new(alloc);
    let mut rest = bytes;
    for _ in 0..count {
        pieces.push(first_piece(alloc, size, rest)?)?;
        rest = past(rest, size);
    }
    Ok(pieces)
}

/// The pieces between two of their number.
#[tactic(auto, using(crate::proofs::Pieces::between))]
pub(crate) fn pieces_between(
    alloc: Global,
    size: usize,
    from: usize,
    to: usize,
    bytes: &[u8],
) -> Result<Vec<Bytes>, AllocError>
    ensures { (k : ℕ) → to ≤ suc k → IfOk result (λ v. v.items ≡ drop from (take to (cut size k bytes.now))) }
{
    let front = from.checked_mul(size).ok_or(AllocError)?;
    first_pieces(alloc, size, to.saturating_sub(from), past(bytes, front))
}

/// A copy of the first bytes, up to this many.
fn first_piece(alloc: Global, size: usize, bytes: &[u8]) -> Result<Bytes, AllocError>
    ensures { IfOk result (λ piece. piece ≡ take size bytes.now) }
{
    let front = bytes.get(..size).unwrap_or(bytes);
    Ok(Sequence::from_vec(Vec::from_slice(alloc, front)?))
}

/// The values behind the first so many.
pub(crate) fn past<T>(values: &[T], count: usize) -> &[T]
    ensures { result.now ≡ drop count values.now }
{
    values.get(count..).unwrap_or(&[])
}
