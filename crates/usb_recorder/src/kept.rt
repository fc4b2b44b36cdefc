//! A place of any kind as the journal keeps it, with its bytes elsewhere.

ghost use Rattle.std.specs.Prelude.{◌≡◌};
ghost use Rattle.usb_model.specs.declared.step.Step.TheVariants.{Submit};
ghost use Rattle.usb_recorder.specs.Kept.{reply_of, step_of};
ghost use Rattle.usb_recorder.specs.Records.{given_by, sent_by};

use usb_model::{
    Body, DeviceNo, EpAddr, Errand, Flags, Kind, Name, Refused, Reply, Request, Status, Step,
    Verdict,
};

/// A step without its bytes.
#[derive(Clone, Copy)]
pub(crate) enum CompactStep {
    Open {
        h: Name,
        dev: DeviceNo,
    },
    Close {
        h: Name,
    },
    Claim {
        h: Name,
        i: u8,
    },
    Release {
        h: Name,
        i: u8,
    },
    Reset {
        h: Name,
    },
    ClearHalt {
        h: Name,
        ep: EpAddr,
    },
    /// A submission of room for so many bytes.
    Read {
        h: Name,
        ep: EpAddr,
        kind: Kind,
        flags: Flags,
        length: u32,
        timeout: u32,
    },
    /// A submission of bytes.
    Write {
        h: Name,
        ep: EpAddr,
        kind: Kind,
        flags: Flags,
        timeout: u32,
    },
    Cancel {
        h: Name,
        n: u64,
    },
    Expire {
        h: Name,
        n: u64,
    },
    Serve {
        dev: DeviceNo,
        ep: EpAddr,
    },
    Command,
    Deliver,
    Take,
    Stop {
        h: Name,
        n: u64,
    },
    Again {
        h: Name,
        n: u64,
    },
    AgainWith {
        h: Name,
        n: u64,
    },
    Unplug {
        dev: DeviceNo,
    },
}

/// A reply without its bytes.
#[derive(Clone, Copy)]
pub(crate) enum CompactReply {
    Done,
    Number(u64),
    Refused(Refused),
    Idle,
    Nak {
        n: u64,
    },
    Moved {
        count: u32,
        n: u64,
    },
    Ended {
        code: u8,
        n: u64,
    },
    Ran {
        ep: EpAddr,
        errand: Errand,
        ok: bool,
    },
    Finished {
        n: u64,
    },
    Paused {
        n: u64,
    },
    Settled {
        ep: EpAddr,
        errand: Errand,
        ok: bool,
    },
    Called {
        h: Name,
        ep: EpAddr,
        status: Status,
        actual: u32,
        n: u64,
        round: u64,
    },
}

/// A place. Its bytes stand together in the journal's buffer: those of the step, and behind them those of the reply.
#[derive(Clone, Copy)]
pub(crate) struct LongEntry {
    /// Where its bytes begin.
    pub(crate) from: usize,
    /// How many the step has.
    pub(crate) sent: usize,
    /// How many the reply has.
    pub(crate) given: usize,
    /// When it was made, in milliseconds.
    pub(crate) moment: u64,
    pub(crate) asked: CompactStep,
    pub(crate) replied: CompactReply,
    /// Who asked for it.
    pub(crate) caller: u32,
    /// Whose it was.
    pub(crate) owner: Option<Name>,
}

/// A submission without its bytes.
fn submission(h: Name, request: &Request) -> CompactStep
    ensures { step_of result (sent_by (Submit h request.now)) ≡ Submit h request.now }
{
    let Request {
        ep,
        kind,
        flags,
        timeout,
        body,
    } = request;
    match body {
        Body::In(length) => CompactStep::Read {
            length: *length,
            timeout: *timeout,
            h,
            ep: *ep,
            kind: *kind,
            flags: *flags,
        },
        Body::Out(_) => CompactStep::Write {
            timeout: *timeout,
            h,
            ep: *ep,
            kind: *kind,
            flags: *flags,
        },
    }
}

impl CompactStep {
    /// A step without its bytes. Inlined where the step is known, so that nothing is left of the match.
    #[inline(always)]
    pub(crate) fn of(step: &Step) -> CompactStep
        ensures { step_of result (sent_by step.now) ≡ step.now }
    {
        match step {
            Step::Open { h, dev } => CompactStep::Open { h: *h, dev: *dev },
            Step::Close { h } => CompactStep::Close { h: *h },
            Step::Claim { h, i } => CompactStep::Claim { h: *h, i: *i },
            Step::Release { h, i } => CompactStep::Release { h: *h, i: *i },
            Step::Reset { h } => CompactStep::Reset { h: *h },
            Step::ClearHalt { h, ep } => CompactStep::ClearHalt { h: *h, ep: *ep },
            Step::Submit { h, request } => submission(*h, request),
            Step::Cancel { h, n } => CompactStep::Cancel { n: *n, h: *h },
            Step::Expire { h, n } => CompactStep::Expire { n: *n, h: *h },
            Step::Serve { dev, ep } => CompactStep::Serve { dev: *dev, ep: *ep },
            Step::Command => CompactStep::Command,
            Step::Deliver => CompactStep::Deliver,
            Step::Take => CompactStep::Take,
            Step::Answer { h, n, verdict } => match verdict {
                Verdict::Stop => CompactStep::Stop { n: *n, h: *h },
                Verdict::Again => CompactStep::Again { n: *n, h: *h },
                Verdict::AgainWith(_) => CompactStep::AgainWith { n: *n, h: *h },
            },
            Step::Unplug { dev } => CompactStep::Unplug { dev: *dev },
        }
    }
}

impl CompactReply {
    /// A reply without its bytes. Inlined where the reply is known, as that of a submission is.
    #[inline(always)]
    pub(crate) fn of(reply: &Reply) -> CompactReply
        ensures { reply_of result (given_by reply.now) ≡ reply.now }
    {
        match reply {
            Reply::Done => CompactReply::Done,
            Reply::Number(n) => CompactReply::Number(*n),
            Reply::Refused(why) => CompactReply::Refused(*why),
            Reply::Idle => CompactReply::Idle,
            Reply::Nak { n } => CompactReply::Nak { n: *n },
            Reply::Moved { n, bytes } => CompactReply::Moved {
                n: *n,
                count: *bytes,
            },
            Reply::Ended { n, code } => CompactReply::Ended { n: *n, code: *code },
            Reply::Ran { ep, errand, ok } => CompactReply::Ran {
                ep: *ep,
                errand: *errand,
                ok: *ok,
            },
            Reply::Finished { n } => CompactReply::Finished { n: *n },
            Reply::Paused { n } => CompactReply::Paused { n: *n },
            Reply::Settled { ep, errand, ok } => CompactReply::Settled {
                ep: *ep,
                errand: *errand,
                ok: *ok,
            },
            Reply::Called(returned) => CompactReply::Called {
                n: returned.n,
                round: returned.round,
                actual: returned.actual,
                h: returned.h,
                ep: returned.ep,
                status: returned.status,
            },
        }
    }
}

/// The bytes of a step. Inlined where the step is known.
#[inline(always)]
pub fn sent_by(step: &Step) -> &[u8]
    ensures { result.now ≡ sent_by step.now }
{
    match step {
        Step::Submit { request, .. } => match &request.body {
            Body::In(_) => &[],
            Body::Out(bytes) => bytes.as_slice(),
        },
        Step::Answer { verdict, .. } => match verdict {
            Verdict::AgainWith(bytes) => bytes.as_slice(),
            _ => &[],
        },
        _ => &[],
    }
}

/// The bytes of a reply. Inlined where the reply is known.
#[inline(always)]
pub(crate) fn given_by(reply: &Reply) -> &[u8]
    ensures { result.now ≡ given_by reply.now }
{
    match reply {
        Reply::Called(returned) => returned.bytes.as_slice(),
        _ => &[],
    }
}
