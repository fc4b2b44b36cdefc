//! The moments at which transfers were submitted.

ghost use Rattle.std.specs.Prelude.{◌≡◌, ◌++◌, ◌+◌, ◌<◌, ◌≤◌, IfSome, IfNone, drop, length, take, vec_capacity, vec_len};
ghost use Rattle.usb_model.specs.World.Due.{deadline};
ghost use Rattle.usb_journal.specs.Timers.{is_timer_of, started_again_if, started_if, stopped, stopped_if, timeout_in};

use usb_core::SubmitError;
use usb_model::{Entry, Name, Reply};

/// Of a transfer, from its submission on until its callback ends: when it was submitted, and its timeout.
#[derive(Clone, Copy)]
pub(crate) struct Timer {
    /// Whose it is.
    pub(crate) h: Name,
    /// Its number.
    pub(crate) n: u64,
    /// After how many milliseconds its time is over; 0 for never.
    pub(crate) timeout: u32,
    /// The moment of its submission, in milliseconds.
    pub(crate) given: u64,
}

impl Timer {
    /// Whether it is of this transfer.
    fn is_of(&self, h: Name, n: u64) -> bool
        ensures { result ≡ is_timer_of h n self.now }
    {
        self.h == h && self.n == n
    }

    /// The moment from which on its time is over: the largest there is at the latest.
    pub(crate) fn deadline(&self) -> u64
        ensures { result ≡ deadline self.now.given self.now.timeout }
    {
        self.given.saturating_add(u64::from(self.timeout))
    }
}

/// The timeout of a transfer; 0 where none is kept.
pub(crate) fn timeout_of(timers: &[Timer], h: Name, n: u64) -> u32
    ensures { result ≡ timeout_in h n timers.now }
{
    for timer in timers {
        if timer.is_of(h, n) {
            return timer.timeout;
        }
    }
    0
}

/// Where the timer of a transfer stands.
fn position(timers: &[Timer], h: Name, n: u64) -> Option<usize>
    ensures found { IfSome result (λ i. (i < length timers.now) × (stopped h n timers.now ≡ take i timers.now ++ drop (i + 1) timers.now)) }
    ensures none { IfNone result (stopped h n timers.now ≡ timers.now) }
{
    let mut index = 0;
    for timer in timers {
        if timer.is_of(h, n) {
            return Some(index);
        }
        index += 1;
    }
    None
}

/// A transfer's callback has ended.
fn stop(timers: &mut Vec<Timer>, h: Name, n: u64)
    ensures items { timers.new.items ≡ stopped h n timers.old.items }
    ensures capacity { vec_capacity timers.new ≡ vec_capacity timers.old }
    ensures less { vec_len timers.new ≤ vec_len timers.old }
{
    if let Some(index) = position(timers, h, n) {
        let _ = timers.remove(index);
    }
}

/// A callback has ended, if that was done.
pub(crate) fn stop_if(timers: &mut Vec<Timer>, ending: Option<(Name, u64)>, entry: &Entry)
    ensures { timers.new.items ≡ stopped_if ending entry.now.reply timers.old.items }
{
    if let Some((h, n)) = ending {
        if matches!(entry.reply, Reply::Done) {
            stop(timers, h, n);
        }
    }
}

/// A transfer was submitted, if it was accepted.
pub(crate) fn start_if<G, P>(
    timers: &mut Vec<Timer>,
    h: Name,
    answer: &Result<u64, SubmitError<G, P>>,
    timeout: u32,
    given: u64,
)
    requires room { vec_len timers.old < vec_capacity timers.old }
    ensures { timers.new.items ≡ started_if h timeout given answer.now timers.old.items }
{
    if let Ok(n) = answer {
        timers.push_reserved(Timer {
            h,
            n: *n,
            timeout,
            given,
        });
    }
}

/// The transfer of a callback was submitted once more, if it was accepted.
pub(crate) fn start_again_if<G, P>(
    timers: &mut Vec<Timer>,
    h: Name,
    n: u64,
    answer: &Result<u64, SubmitError<G, P>>,
    given: u64,
)
    requires room { vec_len timers.old < vec_capacity timers.old }
    ensures { timers.new.items ≡ started_again_if h n given answer.now timers.old.items }
{
    if let Ok(k) = answer {
        let timeout = timeout_of(timers, h, n);
        stop(timers, h, n);
        timers.push_reserved(Timer {
            h,
            n: *k,
            timeout,
            given,
        });
    }
}
