//! The answers of a device that a transfer took.

ghost use Rattle.std.specs.Prelude.{◌≡◌, ◌<◌, ℕ, suc, List, [], ◌∷◌, length, drop, IfOk, IfSome, MatchOption};
ghost use Rattle.usb_model.specs.declared.response.Response.{Response};
ghost use Rattle.usb_model.specs.Endpoint.Packets.{without_naks, acks, full_front};

use std::alloc::{AllocError, Global};
use usb_model::{Bytes, Response};

/// The first answer but for naks, which move nothing and end nothing, and what stands behind it.
pub(crate) fn first_answer(share: &[Response]) -> Option<(&Response, &[Response])>
    ensures first { MatchOption result
        (without_naks share.now ≡ [])
        (λ p. without_naks share.now ≡ p.0.now ∷ without_naks p.1.now) }
    ensures shorter { IfSome result (λ p. length p.1.now < length share.now) }
{
    for (i, answer) in share.iter().enumerate() {
        if !answer.is_nak() {
            return Some((answer, &share[i + 1..]));
        }
    }
    None
}

/// OUT: how many acknowledgements stand in front, and what stands behind them.
pub(crate) fn acks(share: &[Response]) -> (usize, &[Response])
    ensures count { result.0 ≡ acks (without_naks share.now) }
    ensures behind { without_naks result.1.now ≡ drop result.0 (without_naks share.now) }
{
    let mut count = 0_usize;
    let mut rest = share;
    while let Some((Response::Ack, behind)) = first_answer(rest) {
        count += 1;
        rest = behind;
    }
    (count, rest)
}

/// IN: the packets of exactly this size that stand in front, and no more than so many; and what stands behind them.
pub(crate) fn full_front(
    alloc: Global,
    size: usize,
    most: usize,
    share: &[Response],
) -> Result<(Vec<Bytes>, &[Response]), AllocError>
    ensures front { IfOk result (λ p. p.0.items ≡ full_front size most (without_naks share.now)) }
    ensures behind { IfOk result (λ p. without_naks p.1.now ≡ drop (length p.0.items) (without_naks share.now)) }
{
    let mut front = Vec::new(alloc);
    let mut rest = share;
    while front.len() < most {
        let Some((answer, behind)) = first_answer(rest) else {
            return Ok((front, rest));
        };
        let Some(bytes) = full_packet(size, answer) else {
            return Ok((front, rest));
        };
        front.push(bytes.clone()?)?;
        rest = behind;
    }
    Ok((front, rest))
}

/// The packet, where it is one of exactly this size.
fn full_packet(size: usize, answer: &Response) -> Option<&Bytes>
    ensures { MatchOption result
        ((k : ℕ) (xs : List Response) → full_front size (suc k) (answer.now ∷ xs) ≡ [])
        (λ b. (k : ℕ) (xs : List Response) → full_front size (suc k) (answer.now ∷ xs) ≡ b.now ∷ full_front size k xs) }
{
    match answer {
        Response::Data(bytes) if bytes.len() == size => Some(bytes),
        _ => None,
    }
}
