//! A place of the journal, read back.

ghost use Rattle.std.specs.Prelude.{◌≡◌, ◌+◌, ◌≤◌, [], IfOk, IfSome, length, slice_get};
ghost use Rattle.usb_model.specs.declared.step.Step.TheVariants.{Answer, Submit};
ghost use Rattle.usb_recorder.specs.declared.kept.CompactStep.TheVariants.{Read};
ghost use Rattle.usb_recorder.specs.Kept.{AreAmong, AreWithin, ending_place, found, nothing, of_name, packet_place, part, place_in, place_of, reply_of, step_of, submitted_place};

use crate::kept::{CompactReply, CompactStep, LongEntry};
use crate::place::Place;
use crate::short::{PackedEntry, ResultTail};
use std::alloc::{AllocError, Global};
use usb_model::{
    Body, Bytes, BytesRead, Entry, EpAddr, Flags, Kind, Name, Reply, Request, Returned, Step,
    Verdict,
};

/// So many of the bytes, from this one on.
fn part(bytes: &[u8], from: usize, count: usize) -> &[u8]
    requires { from + count ≤ length bytes.now }
    ensures { result.now ≡ part bytes.now from count }
{
    &bytes[from..from + count]
}

/// A copy of bytes.
fn copied(alloc: Global, bytes: &[u8]) -> Result<Bytes, AllocError>
    ensures { IfOk result (λ b. b ≡ bytes.now) }
{
    let mut copy = Vec::with_capacity(alloc, bytes.len())?;
    copy.extend_from_slice(bytes)?;
    Ok(Bytes::from_vec(copy))
}

/// A submission.
fn submission(h: Name, ep: EpAddr, kind: Kind, flags: Flags, timeout: u32, body: Body) -> Step
    ensures { result ≡ Submit h (record { ep = ep; kind = kind; flags = flags; timeout = timeout; body = body }) }
{
    Step::Submit {
        h,
        request: Request {
            ep,
            kind,
            flags,
            timeout,
            body,
        },
    }
}

/// The submission of a read.
fn read(h: Name, ep: EpAddr, kind: Kind, flags: Flags, length: u32, timeout: u32) -> Step
    ensures { result ≡ step_of (Read h ep kind flags length timeout) [] }
{
    submission(h, ep, kind, flags, timeout, Body::In(length))
}

/// A callback's answer.
fn answer(h: Name, n: u64, verdict: Verdict) -> Step
    ensures { result ≡ Answer h n verdict }
{
    Step::Answer { h, n, verdict }
}

/// A step with its bytes.
fn step_of(alloc: Global, asked: CompactStep, bytes: &[u8]) -> Result<Step, AllocError>
    ensures { IfOk result (λ step. step ≡ step_of asked bytes.now) }
{
    Ok(match asked {
        CompactStep::Open { h, dev } => Step::Open { h, dev },
        CompactStep::Close { h } => Step::Close { h },
        CompactStep::Claim { h, i } => Step::Claim { h, i },
        CompactStep::Release { h, i } => Step::Release { h, i },
        CompactStep::Reset { h } => Step::Reset { h },
        CompactStep::ClearHalt { h, ep } => Step::ClearHalt { h, ep },
        CompactStep::Read {
            length,
            timeout,
            h,
            ep,
            kind,
            flags,
        } => read(h, ep, kind, flags, length, timeout),
        CompactStep::Write {
            timeout,
            h,
            ep,
            kind,
            flags,
        } => submission(
            h,
            ep,
            kind,
            flags,
            timeout,
            Body::Out(copied(alloc, bytes)?),
        ),
        CompactStep::Cancel { n, h } => Step::Cancel { h, n },
        CompactStep::Expire { n, h } => Step::Expire { h, n },
        CompactStep::Serve { dev, ep } => Step::Serve { dev, ep },
        CompactStep::Command => Step::Command,
        CompactStep::Deliver => Step::Deliver,
        CompactStep::Take => Step::Take,
        CompactStep::Stop { n, h } => answer(h, n, Verdict::Stop),
        CompactStep::Again { n, h } => answer(h, n, Verdict::Again),
        CompactStep::AgainWith { n, h } => answer(h, n, Verdict::AgainWith(copied(alloc, bytes)?)),
        CompactStep::Unplug { dev } => Step::Unplug { dev },
    })
}

/// A reply with its bytes.
fn reply_of(alloc: Global, replied: CompactReply, bytes: &[u8]) -> Result<Reply, AllocError>
    ensures { IfOk result (λ reply. reply ≡ reply_of replied bytes.now) }
{
    Ok(match replied {
        CompactReply::Done => Reply::Done,
        CompactReply::Number(n) => Reply::Number(n),
        CompactReply::Refused(why) => Reply::Refused(why),
        CompactReply::Idle => Reply::Idle,
        CompactReply::Nak { n } => Reply::Nak { n },
        CompactReply::Moved { n, count } => Reply::Moved { n, bytes: count },
        CompactReply::Ended { n, code } => Reply::Ended { n, code },
        CompactReply::Ran { ep, errand, ok } => Reply::Ran { ep, errand, ok },
        CompactReply::Finished { n } => Reply::Finished { n },
        CompactReply::Paused { n } => Reply::Paused { n },
        CompactReply::Settled { ep, errand, ok } => Reply::Settled { ep, errand, ok },
        CompactReply::Called {
            n,
            round,
            actual,
            h,
            ep,
            status,
        } => Reply::Called(Returned {
            h,
            n,
            ep,
            round,
            status,
            actual,
            bytes: BytesRead::from_bytes(copied(alloc, bytes)?),
        }),
    })
}

/// The place that is kept so, with its bytes among these.
pub(crate) fn place_of(alloc: Global, kept: &LongEntry, bytes: &[u8]) -> Result<Place, AllocError>
    requires { kept.now.from + kept.now.sent + kept.now.given ≤ length bytes.now }
    ensures { IfOk result (λ place. place ≡ place_of bytes.now kept.now) }
{
    let step = step_of(alloc, kept.asked, part(bytes, kept.from, kept.sent))?;
    let given = part(bytes, kept.from + kept.sent, kept.given);
    let reply = reply_of(alloc, kept.replied, given)?;
    Ok(Place {
        step,
        caller: kept.caller,
        entry: Entry {
            owner: kept.owner,
            reply,
        },
        moment: kept.moment,
    })
}

/// A place of a name.
fn owned(h: Name, step: Step, reply: Reply, caller: u32, moment: u64) -> Place
    ensures { result ≡ record { step = step; caller = caller; entry = of_name h reply; moment = moment } }
{
    Place {
        step,
        caller,
        entry: Entry {
            owner: Some(h),
            reply,
        },
        moment,
    }
}

/// What is read where nothing stands.
fn nothing() -> Place
    ensures { result ≡ nothing }
{
    Place {
        step: Step::Command,
        caller: 0,
        entry: Entry {
            owner: None,
            reply: Reply::Idle,
        },
        moment: 0,
    }
}

/// What stands there among these, if there is anything.
fn item<T: Copy>(items: &[T], at: usize) -> Option<T>
    ensures { result ≡ slice_get items.now at }
{
    if at < items.len() {
        return Some(items[at]);
    }
    None
}

/// The place that is found, with its bytes among these.
fn found(alloc: Global, kept: Option<LongEntry>, bytes: &[u8]) -> Result<Place, AllocError>
    requires { IfSome kept (λ k. k.from + k.sent + k.given ≤ length bytes.now) }
    ensures { IfOk result (λ place. place ≡ found bytes.now kept) }
{
    match kept {
        Some(kept) => place_of(alloc, &kept, bytes),
        None => Ok(nothing()),
    }
}

/// The bytes of a result's rest.
fn bytes_of(alloc: Global, rest: ResultTail, bytes: &[u8]) -> Result<Bytes, AllocError>
    requires { rest.from + rest.count ≤ length bytes.now }
    ensures { IfOk result (λ b. b ≡ part bytes.now rest.from rest.count) }
{
    copied(alloc, part(bytes, rest.from, rest.count as usize))
}

/// The place of a submission that was given a number.
fn submitted_place(short: &PackedEntry) -> Place
    ensures { result ≡ submitted_place short.now }
{
    match *short {
        PackedEntry::Bulk {
            h,
            ep,
            flags,
            length,
            timeout,
            caller,
            moment,
            n,
        } => {
            let step = read(h, ep, Kind::Bulk, flags, length, timeout);
            owned(h, step, Reply::Number(n), caller, moment)
        }
        PackedEntry::Interrupt {
            h,
            ep,
            flags,
            length,
            timeout,
            caller,
            moment,
            n,
        } => {
            let step = read(h, ep, Kind::Interrupt, flags, length, timeout);
            owned(h, step, Reply::Number(n), caller, moment)
        }
        _ => nothing(),
    }
}

/// The place of a packet.
fn packet_place(short: &PackedEntry) -> Place
    ensures { result ≡ packet_place short.now }
{
    match *short {
        PackedEntry::Moved {
            h,
            dev,
            ep,
            count,
            caller,
            moment,
            n,
        } => {
            let reply = Reply::Moved { n, bytes: count };
            owned(h, Step::Serve { dev, ep }, reply, caller, moment)
        }
        PackedEntry::Ended {
            h,
            dev,
            ep,
            code,
            caller,
            moment,
            n,
        } => {
            let reply = Reply::Ended { n, code };
            owned(h, Step::Serve { dev, ep }, reply, caller, moment)
        }
        _ => nothing(),
    }
}

/// The place of a transfer's end, or of its callback's answer.
fn ending_place(short: &PackedEntry) -> Place
    ensures { result ≡ ending_place short.now }
{
    match *short {
        PackedEntry::Finished {
            h,
            caller,
            moment,
            n,
        } => owned(h, Step::Deliver, Reply::Finished { n }, caller, moment),
        PackedEntry::Stopped {
            h,
            caller,
            moment,
            n,
        } => owned(h, answer(h, n, Verdict::Stop), Reply::Done, caller, moment),
        PackedEntry::Renewed {
            h,
            caller,
            moment,
            n,
            number,
        } => {
            let step = answer(h, n, Verdict::Again);
            owned(h, step, Reply::Number(number), caller, moment)
        }
        _ => nothing(),
    }
}

/// The place that is kept so, with these rests and long ones, and its bytes among these.
pub(crate) fn place_in(
    alloc: Global,
    short: &PackedEntry,
    rests: &[ResultTail],
    longs: &[LongEntry],
    bytes: &[u8],
) -> Result<Place, AllocError>
    requires rests { AreAmong (length bytes.now) rests.now }
    requires longs { AreWithin (length bytes.now) longs.now }
    ensures { IfOk result (λ place. place ≡ place_in bytes.now rests.now longs.now short.now) }
{
    Ok(match *short {
        PackedEntry::Bulk { .. } => submitted_place(short),
        PackedEntry::Interrupt { .. } => submitted_place(short),
        PackedEntry::Moved { .. } => packet_place(short),
        PackedEntry::Ended { .. } => packet_place(short),
        PackedEntry::Finished { .. } => ending_place(short),
        PackedEntry::Stopped { .. } => ending_place(short),
        PackedEntry::Renewed { .. } => ending_place(short),
        PackedEntry::Called {
            h,
            ep,
            status,
            caller,
            moment,
            n,
            at,
        } => {
            let Some(rest) = item(rests, at) else {
                return Ok(nothing());
            };
            let bytes = bytes_of(alloc, rest, bytes)?;
            let reply = Reply::Called(Returned {
                h,
                n,
                ep,
                round: rest.round,
                status,
                actual: rest.actual,
                bytes: BytesRead::from_bytes(bytes),
            });
            owned(h, Step::Take, reply, caller, moment)
        }
        PackedEntry::Long(at) => found(alloc, item(longs, at), bytes)?,
    })
}
