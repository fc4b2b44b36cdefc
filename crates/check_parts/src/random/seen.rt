//! Which kinds of replies were seen: a scenario in which nothing happens says nothing.

use usb_model::{Entry, Refused, Reply};

/// The kinds of replies.
pub const KINDS: usize = 18;

/// Whether a reply of each kind was seen.
#[derive(Clone, Copy, Default, Debug)]
pub struct Seen {
    kinds: [bool; KINDS],
}

/// The kind of a reply; want of memory is none.
fn kind(reply: &Reply) -> Option<usize> {
    Some(match reply {
        Reply::Done => 0,
        Reply::Number(_) => 1,
        Reply::Idle => 2,
        Reply::Nak { .. } => 3,
        Reply::Moved { .. } => 4,
        Reply::Ended { .. } => 5,
        Reply::Ran { ok, .. } => 6 + usize::from(*ok),
        Reply::Finished { .. } => 8,
        Reply::Paused { .. } => 9,
        Reply::Settled { ok, .. } => 10 + usize::from(*ok),
        Reply::Called(_) => 12,
        Reply::Refused(refused) => match refused {
            Refused::InvalidParam => 13,
            Refused::NoDevice => 14,
            Refused::NotFound => 15,
            Refused::Busy => 16,
            Refused::HeldElsewhere => 17,
            Refused::NoMem | Refused::NotSupported => return None,
        },
    })
}

impl Seen {
    /// Notes the replies of these entries.
    pub fn note(&mut self, entries: &[Entry]) {
        for entry in entries {
            if let Some(kind) = kind(&entry.reply) {
                if let Some(seen) = self.kinds.get_mut(kind) {
                    *seen = true;
                }
            }
        }
    }

    /// How many kinds were seen.
    pub fn count(&self) -> usize {
        self.kinds.iter().filter(|seen| **seen).count()
    }
}
