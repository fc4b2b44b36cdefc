//! The packets of a transfer, and the answers that they are.

ghost use Rattle.std.specs.Prelude.{◌≡◌, map, take, drop, replicate, IfOk, ◌++◌};
ghost use Rattle.std.specs.Option.{option_to_list};
ghost use Rattle.usb_model.specs.declared.response.Response.TheVariants.{Ack, Data};
ghost use Rattle.trace_recorded.specs.Answers.{front_packets};
ghost use Rattle.trace_recorded.specs.declared.answer.RecordedAnswer.TheVariants.{Given, Taken};
ghost use Rattle.trace_recorded.specs.Written.{written_bytes, written_packets};

use crate::answer::{RecordedAnswer, WrittenBytes};
use std::alloc::{AllocError, Global};
use usb_model::{Response, Script, Sequence};

/// The first so many packets of this size, each an answer; behind the bytes they are empty.
#[tactic(auto, using(crate::proofs::Loops::cut_none, crate::proofs::Loops::cut_more, crate::proofs::Loops::cut_all))]
pub(crate) fn packets(
    alloc: Global,
    size: usize,
    count: usize,
    bytes: &[u8],
) -> Result<Script, AllocError>
    ensures { IfOk result (λ answers. answers ≡ map Data (front_packets size count bytes.now)) }
{
    let mut answers = Sequence::new(alloc);
    let mut rest = bytes;
    for _ in 0..count {
        answers.push(packet(alloc, size, rest)?)?;
        rest = past(rest, size);
    }
    Ok(answers)
}

/// The first of the bytes as a packet, up to this many.
fn packet(alloc: Global, size: usize, bytes: &[u8]) -> Result<Response, AllocError>
    ensures { IfOk result (λ answer. answer ≡ Data (take size bytes.now)) }
{
    let front = bytes.get(..size).unwrap_or(bytes);
    Ok(Response::Data(Sequence::from_vec(Vec::from_slice(alloc, front)?)))
}

/// The bytes behind the first so many.
pub(crate) fn past(bytes: &[u8], count: usize) -> &[u8]
    ensures { result.now ≡ drop count bytes.now }
{
    bytes.get(count..).unwrap_or(&[])
}

/// So many acknowledgements.
#[tactic(auto, using(crate::proofs::Loops::ack_more))]
pub(crate) fn acknowledgements(alloc: Global, count: usize) -> Result<Script, AllocError>
    ensures { IfOk result (λ answers. answers ≡ replicate count Ack) }
{
    let mut answers = Sequence::new(alloc);
    for _ in 0..count {
        answers.push(Response::Ack)?;
    }
    Ok(answers)
}

/// What is known of the first so many bytes that were written, by those that were recorded.
pub(crate) fn written_bytes(
    alloc: Global,
    count: usize,
    bytes: &[u8],
) -> Result<WrittenBytes, AllocError>
    ensures { IfOk result (λ written. written ≡ written_bytes count bytes.now) }
{
    let front = bytes.get(..count).unwrap_or(bytes);
    Ok(WrittenBytes {
        bytes: Sequence::from_vec(Vec::from_slice(alloc, front)?),
        is_whole: count <= bytes.len(),
    })
}

/// The first so many packets of a write of `asked` bytes, each an answer; behind these they are empty.
#[tactic(auto, using(crate::proofs::Loops::written_none, crate::proofs::Loops::written_more, crate::proofs::Loops::written_all))]
pub(crate) fn written_packets(
    alloc: Global,
    size: usize,
    count: usize,
    asked: usize,
    bytes: &[u8],
) -> Result<Sequence<RecordedAnswer>, AllocError>
    ensures { IfOk result (λ answers. answers ≡ written_packets size count asked bytes.now) }
{
    let mut answers = Sequence::new(alloc);
    let mut rest = bytes;
    let mut left = asked;
    for _ in 0..count {
        let written = written_bytes(alloc, size.min(left), rest)?;
        answers.push(RecordedAnswer::Taken(written))?;
        rest = past(rest, size);
        left = left.saturating_sub(size);
    }
    Ok(answers)
}

/// Answers, whatever was written.
pub(crate) fn given(alloc: Global, script: Script) -> Result<Sequence<RecordedAnswer>, AllocError>
    ensures { IfOk result (λ answers. answers ≡ map Given script) }
{
    let mut answers = Sequence::new(alloc);
    for response in script.into_vec() {
        answers.push(RecordedAnswer::Given(response))?;
    }
    Ok(answers)
}

/// Answers, and the last behind them, if there is one.
pub(crate) fn with_last(answers: Script, last: Option<Response>) -> Result<Script, AllocError>
    ensures { IfOk result (λ all. all ≡ answers ++ option_to_list last) }
{
    let mut all = answers;
    if let Some(last) = last {
        all.push(last)?;
    }
    Ok(all)
}
