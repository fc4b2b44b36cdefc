//! A place that transfers make again and again, in few bytes.

ghost use Rattle.std.specs.Prelude.{◌≡◌, ℕ, List, IfSome, Some};
ghost use Rattle.usb_recorder.specs.declared.kept.LongEntry.{LongEntry};
ghost use Rattle.usb_recorder.specs.declared.short.ResultTail.{ResultTail};
ghost use Rattle.usb_recorder.specs.Kept.{IsThere, place_in, step_of};

use crate::kept::CompactStep;
use usb_model::{DeviceNo, Entry, EpAddr, Flags, Kind, Name, Reply, Status};

/// A place in 32 bytes: whole where it is one that each transfer has and no bytes go or come, else by where it stands among the long
/// ones. What takes one byte stands first, and what takes eight last, so that no kind is wider.
#[derive(Clone, Copy)]
pub(crate) enum PackedEntry {
    /// A read from a bulk endpoint was accepted.
    Bulk {
        h: Name,
        ep: EpAddr,
        flags: Flags,
        length: u32,
        timeout: u32,
        caller: u32,
        moment: u64,
        n: u64,
    },
    /// A read from an interrupt endpoint was accepted.
    Interrupt {
        h: Name,
        ep: EpAddr,
        flags: Flags,
        length: u32,
        timeout: u32,
        caller: u32,
        moment: u64,
        n: u64,
    },
    /// A packet moved.
    Moved {
        h: Name,
        dev: DeviceNo,
        ep: EpAddr,
        count: u32,
        caller: u32,
        moment: u64,
        n: u64,
    },
    /// A packet ended its transfer.
    Ended {
        h: Name,
        dev: DeviceNo,
        ep: EpAddr,
        code: u8,
        caller: u32,
        moment: u64,
        n: u64,
    },
    /// The event of a transfer that ended was handled.
    Finished {
        h: Name,
        caller: u32,
        moment: u64,
        n: u64,
    },
    /// A callback ended.
    Stopped {
        h: Name,
        caller: u32,
        moment: u64,
        n: u64,
    },
    /// A callback ended, and its transfer was submitted once more.
    Renewed {
        h: Name,
        caller: u32,
        moment: u64,
        n: u64,
        number: u64,
    },
    /// A result went out to its callback. The rest of it stands there among the rests.
    Called {
        h: Name,
        ep: EpAddr,
        status: Status,
        caller: u32,
        moment: u64,
        n: u64,
        at: usize,
    },
    /// Whatever else: it stands there among the long ones.
    Long(usize),
}

/// What a result has that its short place has no room for.
#[derive(Clone, Copy)]
pub(crate) struct ResultTail {
    pub(crate) round: u64,
    /// Where its bytes begin in the journal's buffer.
    pub(crate) from: usize,
    /// How many they are.
    pub(crate) count: u32,
    /// How many moved.
    pub(crate) actual: u32,
}

impl PackedEntry {
    /// The place of a step with this entry, if it is one that is kept whole. Inlined where the step is known, so that nothing is left of
    /// the match.
    #[inline(always)]
    pub(crate) fn of(
        asked: &CompactStep,
        caller: u32,
        entry: &Entry,
        moment: u64,
    ) -> Option<PackedEntry>
        ensures here { IfSome result (λ s. (rests longs : ℕ) → IsThere rests longs s) }
        ensures place { IfSome result (λ s. (bytes sent : List ℕ) (rests : List ResultTail) (longs : List LongEntry) → place_in bytes rests longs s ≡ record { step = step_of asked.now sent; caller = caller; entry = entry.now; moment = moment }) }
    {
        let h = entry.owner?;
        match asked {
            CompactStep::Read { .. } => PackedEntry::read(asked, h, caller, entry, moment),
            CompactStep::Serve { dev, ep } => match &entry.reply {
                Reply::Moved { n, bytes } => Some(PackedEntry::Moved {
                    h,
                    dev: *dev,
                    ep: *ep,
                    count: *bytes,
                    caller,
                    moment,
                    n: *n,
                }),
                Reply::Ended { n, code } => Some(PackedEntry::Ended {
                    h,
                    dev: *dev,
                    ep: *ep,
                    code: *code,
                    caller,
                    moment,
                    n: *n,
                }),
                _ => None,
            },
            CompactStep::Deliver => match &entry.reply {
                Reply::Finished { n } => Some(PackedEntry::Finished {
                    h,
                    caller,
                    moment,
                    n: *n,
                }),
                _ => None,
            },
            CompactStep::Stop { h: of, n } => match &entry.reply {
                Reply::Done if *of == h => Some(PackedEntry::Stopped {
                    h,
                    caller,
                    moment,
                    n: *n,
                }),
                _ => None,
            },
            CompactStep::Again { h: of, n } => match &entry.reply {
                Reply::Number(number) if *of == h => Some(PackedEntry::Renewed {
                    h,
                    caller,
                    moment,
                    n: *n,
                    number: *number,
                }),
                _ => None,
            },
            _ => None,
        }
    }

    /// The place of a read that was accepted, if its endpoint's kind is one of these.
    #[inline(always)]
    fn read(
        asked: &CompactStep,
        owner: Name,
        caller: u32,
        entry: &Entry,
        moment: u64,
    ) -> Option<PackedEntry>
        requires { entry.now.owner ≡ Some owner }
        ensures here { IfSome result (λ s. (rests longs : ℕ) → IsThere rests longs s) }
        ensures place { IfSome result (λ s. (bytes sent : List ℕ) (rests : List ResultTail) (longs : List LongEntry) → place_in bytes rests longs s ≡ record { step = step_of asked.now sent; caller = caller; entry = entry.now; moment = moment }) }
    {
        let CompactStep::Read {
            h,
            ep,
            kind,
            flags,
            length,
            timeout,
        } = *asked
        else {
            return None;
        };
        match &entry.reply {
            Reply::Number(n) if owner == h => match kind {
                Kind::Bulk => Some(PackedEntry::Bulk {
                    h,
                    ep,
                    flags,
                    length,
                    timeout,
                    caller,
                    moment,
                    n: *n,
                }),
                Kind::Interrupt => Some(PackedEntry::Interrupt {
                    h,
                    ep,
                    flags,
                    length,
                    timeout,
                    caller,
                    moment,
                    n: *n,
                }),
                _ => None,
            },
            _ => None,
        }
    }
}
