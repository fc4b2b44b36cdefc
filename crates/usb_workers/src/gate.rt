//! What a worker passes before each of its acts.

ghost use Rattle.std.specs.Prelude.{◌≡◌};

use std::sync::Wait;

/// What a worker is about to do.
#[derive(Clone, Copy, PartialEq, Eq, Debug)]
pub enum WorkerStep {
    /// A device answers packets in a row.
    Serve,
    /// The controller carries out an order.
    Command,
    /// Events are handled in a row.
    Deliver,
    /// Results go out in a row.
    Take,
    /// A callback is called; no lock is held.
    Call,
    /// The callback's verdict is told.
    Answer,
}

/// So many packets, events or results a worker makes under one hold of the lock, so that no caller waits behind more.
pub const BURST: u32 = 64;

/// Lets a worker pass, now or later. A test holds one worker by it until another did something; what is run for its own
/// sake has `Open`. No lock of the library is held when a gate is asked.
pub trait Gate {
    /// Comes back when the worker may do this.
    fn pass<R: Wait>(&mut self, rt: &R, at: WorkerStep);

    /// How many steps the worker may make behind one pass. One it makes in any case.
    fn burst(&self) -> u32;
}

/// A gate that is always open.
#[derive(Drop)]
pub struct Open;

impl Gate for Open {
    fn pass<R: Wait>(&mut self, _rt: &R, _at: WorkerStep) {}

    fn burst(&self) -> u32
        ensures { result ≡ BURST }
    {
        BURST
    }
}
