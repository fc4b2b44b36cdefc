//! A caller of the library.

ghost use Rattle.std.specs.Prelude.{◌≡◌, OnErr, OnOk};
ghost use Rattle.usb_library.specs.Calls.{misses};

use std::marker::Model;
use usb_journal::{Naming, Position};

/// Makes calls: each thread has one of its own. Contracts see its number, which no other has; the journal as it was after its last call
/// or look; the places of its calls, in order; and how many of its calls have none. It has no bytes but its two numbers, and whether it is
/// a worker's.
#[derive(Drop)]
pub struct Caller<L: Naming> {
    pub(crate) position: Position<L>,
    pub(crate) missed: u64,
    /// Whether it is a worker's, who looks again behind each call (`Library::enter`).
    pub(crate) looks_again: bool,
}

impl<L: Naming> Model for Caller<L> {
    ghost use Rattle.usb_library.specs.Calls.{Calling};

    ghost Value = { Calling };

    ghost view = { λ c. record { number = c.position.number; seen = c.position.seen; position = c.position.position; own = c.position.own; missed = c.missed } };
}

impl<L: Naming> Caller<L> {
    /// From 0 on, in the order in which callers were made. It names the caller of a place of the journal.
    pub fn number(&self) -> u32
        ensures { result ≡ self.now.number }
    {
        self.position.number()
    }

    /// How many of its calls weren't made, since memory was refused; 2^64 - 1 stands for any number from there on.
    pub fn missed(&self) -> u64
        ensures { result ≡ self.now.missed }
    {
        self.missed
    }

    /// What a call came to; that memory was refused to it is counted.
    pub(crate) fn counted<T, E>(&mut self, made: Result<T, E>) -> Result<T, E>
        ensures given { result ≡ made }
        ensures made { OnOk made (self.new ≡ self.old) }
        ensures missed { OnErr made (self.new ≡ misses self.old) }
    {
        if made.is_err() {
            self.missed = self.missed.saturating_add(1);
        }
        made
    }
}
