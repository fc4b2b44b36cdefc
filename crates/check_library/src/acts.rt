//! What a thread of a scene does, put down one act after the other.

use crate::call::Ask;
use crate::callback::Manner;
use crate::signals::Mark;

/// A call of a thread's handle, which reads from one endpoint.
#[derive(Clone, Copy)]
pub enum Deed {
    /// One that submits nothing.
    Ask(Ask),
    /// Reads so many bytes, with a callback of this manner.
    Read(u32, Manner),
}

/// What a thread waits for.
#[derive(Clone, Copy)]
pub enum Event {
    /// This is said.
    Said(Mark),
    /// So many callbacks of its own were called.
    Called(u64),
}

/// What a thread does.
#[derive(Clone, Copy)]
pub enum Act {
    /// Makes a call.
    Once(Deed),
    /// Makes it again and again, until it isn't refused as busy.
    InTime(Deed),
    /// Reads one byte so many times, each again where it is refused as busy.
    Reads(u64),
    /// Reads 8 bytes so many times, of which at most the second number is in line, and waits until each was called back.
    Stream(u64, u64),
    /// Says something to all.
    Say(Mark),
    /// Waits for an event.
    Await(Event),
    /// Waits for either.
    AwaitEither(Event, Event),
    /// Gives way to other threads so many times.
    Yield(u64),
    /// Does nothing for so many milliseconds.
    Rest(u64),
    /// Looks whether there is something to serve, which there isn't, and is woken by changes from then on.
    WatchAndLook,
    /// Parks until it is woken.
    Park,
    /// Waits until the thread that parks was woken.
    Rescue,
}

/// A handle's first act.
pub const OPEN: Act = Act::Once(Deed::Ask(Ask::Open));

/// Its second.
pub const CLAIM: Act = Act::Once(Deed::Ask(Ask::Claim));

/// Its last but one, once it can.
pub const RELEASE_IN_TIME: Act = Act::InTime(Deed::Ask(Ask::Release));

/// Its last, once it can.
pub const CLOSE_IN_TIME: Act = Act::InTime(Deed::Ask(Ask::Close));

/// A read of one byte.
pub const READ_1: Deed = Deed::Read(1, Manner::Stops);

/// A read of 8 bytes.
pub const READ_8: Deed = Deed::Read(8, Manner::Stops);
