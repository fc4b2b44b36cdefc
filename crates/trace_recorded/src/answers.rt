//! The answers that a recorded transfer stands for.

ghost use Rattle.std.specs.Prelude.{◌≡◌, ◌<◌, IfOk, length, replicate};
ghost use Rattle.std.specs.Option.{option_to_list};
ghost use Rattle.usb_model.specs.Endpoint.Packets.{full_packets};
ghost use Rattle.trace_recorded.specs.Answers.{answers_in, answers_of, answers_out, last_read, last_reads, last_writes, last_written, packets_acknowledged, packets_read, recorded_bytes, room_behind};
ghost use Rattle.trace_recorded.specs.Written.{recorded_answers};

use crate::answer::RecordedAnswer;
use crate::packets::{acknowledgements, given, packets, with_last, written_packets};
use crate::transfer::{RecordedEnd, RecordedTransfer};
use std::alloc::{AllocError, Global};
use usb_model::{Bytes, Response, Script, Sequence};

/// The answers of a recorded transfer, one a packet, at an endpoint of this packet size, in bytes: at least 1. Takes memory for
/// as many bytes as moved.
#[tactic(auto, unfolding(crate::specs::Answers::answers_of))]
pub fn answers_of(
    alloc: Global,
    size: u16,
    transfer: &RecordedTransfer,
) -> Result<Script, AllocError>
    requires { 0 < size }
    ensures { IfOk result (λ answers. answers ≡ answers_of size transfer.now) }
{
    if transfer.ep.is_in() {
        answers_in(alloc, usize::from(size), transfer)
    } else {
        answers_out(alloc, usize::from(size), transfer)
    }
}

/// The same, each with what was written for it. Takes memory for as many bytes more as were written.
#[tactic(auto, unfolding(crate::specs::Written::recorded_answers))]
pub(crate) fn recorded_answers(
    alloc: Global,
    size: u16,
    transfer: &RecordedTransfer,
) -> Result<Sequence<RecordedAnswer>, AllocError>
    requires { 0 < size }
    ensures { IfOk result (λ answers. answers ≡ recorded_answers size transfer.now) }
{
    let size = usize::from(size);
    if transfer.ep.is_in() {
        return given(alloc, answers_in(alloc, size, transfer)?);
    }
    let count = transfer.packets_acknowledged(size);
    let asked = transfer.asked as usize;
    let front = written_packets(alloc, size, count, asked, transfer.bytes.as_slice())?;
    front.append(given(alloc, transfer.script_written(alloc)?)?)
}

/// How many they are. Takes no memory.
pub(crate) fn answer_count(size: u16, transfer: &RecordedTransfer) -> usize
    requires { 0 < size }
    ensures { result ≡ length (answers_of size transfer.now) }
{
    let size = usize::from(size);
    if transfer.ep.is_in() {
        transfer.packets_read(size) + transfer.end.last_reads()
    } else {
        transfer.packets_acknowledged(size) + transfer.end.last_writes()
    }
}

/// Those of one that read.
fn answers_in(alloc: Global, size: usize, transfer: &RecordedTransfer) -> Result<Script, AllocError>
    requires some { 0 < size }
    requires fits { size < 65536 }
    ensures { IfOk result (λ answers. answers ≡ answers_in size transfer.now) }
{
    let bytes = recorded_bytes(alloc, transfer)?;
    let front = packets(alloc, size, transfer.packets_read(size), bytes.as_slice())?;
    with_last(front, transfer.last_read(alloc, size)?)
}

/// Those of one that wrote.
fn answers_out(
    alloc: Global,
    size: usize,
    transfer: &RecordedTransfer,
) -> Result<Script, AllocError>
    requires { 0 < size }
    ensures { IfOk result (λ answers. answers ≡ answers_out size transfer.now) }
{
    let front = acknowledgements(alloc, transfer.packets_acknowledged(size))?;
    with_last(front, transfer.last_written())
}

/// The bytes that were read; those that weren't recorded are zeros.
fn recorded_bytes(alloc: Global, transfer: &RecordedTransfer) -> Result<Vec<u8>, AllocError>
    ensures { IfOk result (λ bytes. bytes.items ≡ recorded_bytes transfer.now) }
{
    let mut bytes = Vec::from_slice(alloc, transfer.bytes.as_slice())?;
    bytes.resize(transfer.moved as usize, 0)?;
    Ok(bytes)
}

/// Zeros, so many.
fn zeros(alloc: Global, count: usize) -> Result<Bytes, AllocError>
    ensures { IfOk result (λ bytes. bytes ≡ replicate count 0) }
{
    let mut bytes = Vec::new(alloc);
    bytes.resize(count, 0)?;
    Ok(Sequence::from_vec(bytes))
}

/// How many packets stand before the last of a write.
fn full_packets(zero_packet: bool, asked: usize, size: usize) -> usize
    requires { 0 < size }
    ensures { result ≡ full_packets zero_packet asked size }
{
    if zero_packet && asked % size == 0 {
        asked / size
    } else {
        asked.saturating_sub(1) / size
    }
}

impl RecordedEnd {
    /// How many answers stand behind the packets of a read that ended so.
    fn last_reads(self) -> usize
        ensures { result ≡ last_reads self }
    {
        match self {
            RecordedEnd::Stalled | RecordedEnd::Failed | RecordedEnd::TooLong => 1,
            RecordedEnd::Done | RecordedEnd::Withdrawn | RecordedEnd::Cut => 0,
        }
    }

    /// And of a write.
    fn last_writes(self) -> usize
        ensures { result ≡ last_writes self }
    {
        match self {
            RecordedEnd::Stalled | RecordedEnd::Failed => 1,
            _ => 0,
        }
    }
}

impl RecordedTransfer {
    /// How many of its packets moved whole, or ended it as it was asked for.
    fn packets_read(&self, size: usize) -> usize
        requires { 0 < size }
        ensures { result ≡ packets_read size self.now }
    {
        let moved = self.moved as usize;
        match self.end {
            RecordedEnd::Done if self.moved < self.asked => moved / size + 1,
            RecordedEnd::Done => moved.saturating_sub(1) / size + 1,
            _ => moved / size,
        }
    }

    /// What ended it instead, if anything did.
    fn last_read(&self, alloc: Global, size: usize) -> Result<Option<Response>, AllocError>
        requires some { 0 < size }
        requires fits { size < 65536 }
        ensures { IfOk result (λ last. last ≡ last_read size self.now) }
    {
        match self.end {
            RecordedEnd::Stalled => Ok(Some(Response::Stall)),
            RecordedEnd::Failed => Ok(Some(Response::Broken)),
            RecordedEnd::TooLong => {
                let packet = zeros(alloc, self.room_behind(size).min(size) + 1)?;
                Ok(Some(Response::Data(packet)))
            }
            RecordedEnd::Done | RecordedEnd::Withdrawn | RecordedEnd::Cut => Ok(None),
        }
    }

    /// How many bytes there was room for behind the whole packets that moved.
    fn room_behind(&self, size: usize) -> usize
        requires { 0 < size }
        ensures { result ≡ room_behind size self.now }
    {
        let moved = self.moved as usize;
        (self.asked as usize).saturating_sub(moved / size * size)
    }

    /// How many of its packets were acknowledged.
    pub(crate) fn packets_acknowledged(&self, size: usize) -> usize
        requires { 0 < size }
        ensures { result ≡ packets_acknowledged size self.now }
    {
        let before_last = full_packets(self.zero_packet, self.asked as usize, size);
        match self.end {
            RecordedEnd::Done => before_last + 1,
            _ => before_last.min(self.moved as usize / size),
        }
    }

    /// The same, as answers.
    fn script_written(&self, alloc: Global) -> Result<Script, AllocError>
        ensures { IfOk result (λ answers. answers ≡ option_to_list (last_written self.now.end)) }
    {
        with_last(Sequence::new(alloc), self.last_written())
    }

    /// What ended it instead, if anything did.
    fn last_written(&self) -> Option<Response>
        ensures { result ≡ last_written self.now.end }
    {
        match self.end {
            RecordedEnd::Stalled => Some(Response::Stall),
            RecordedEnd::Failed => Some(Response::Broken),
            _ => None,
        }
    }
}
