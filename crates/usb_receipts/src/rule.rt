//! The rule of a log: what its tokens know, and what each step tells them.

use crate::borne::Borne;
use crate::image::Image;
use atomic_table::{Join, Play, Seat, Split, Table, TableRule};
use std::alloc::Global;
use std::collections::LinkedList;

/// What a token knows. No value of it is made.
pub struct Known<E> {
    /// Whether it knows the list whole.
    pub keeps: bool,
    /// Whether it knows that the slot lies in the table.
    pub home: bool,
    /// The list, where it does.
    pub entries: LinkedList<E>,
    /// The number that the next bearer is given, where it does.
    pub next: u64,
    /// Places, each with what stands there.
    pub claims: LinkedList<(u64, E)>,
    /// Numbers of bearers, each with the beginning of the list that was seen for it last.
    pub positions: LinkedList<(u64, LinkedList<E>)>,
    /// Beginnings of the list that were seen once.
    pub pasts: LinkedList<LinkedList<E>>,
}

/// There is one list, which one token knows whole; what all others know of it is so, no place is claimed twice, and no number is
/// given twice.
pub struct LogRule;

impl<E: Borne> TableRule<Slot<E>, Known<E>, LogRule> for LogRule {
    ghost use Rattle.usb_receipts.specs.Rule.{Kept, opener};

    ghost holds = { λ _. Kept E.bearer };

    ghost first = { λ _. opener };
}

/// The first token takes the slot.
pub struct TakesSlot;

impl<E> Play<Slot<E>, Known<E>> for TakesSlot {
    ghost use Rattle.usb_receipts.specs.Rule.{Slotted};

    ghost then = { Slotted };
}

/// What is known is compared with the list; then the entry that the slot says is put behind it, with a claim to its place, and the
/// positions stand behind that.
pub struct Appends;

impl<E: Borne> Play<Slot<E>, Known<E>> for Appends {
    ghost use Rattle.usb_receipts.specs.Rule.{Appended};

    ghost then = { Appended E.bearer };
}

/// What is known is compared with the list, and the positions stand at its end.
pub struct Checks;

impl<E: Borne> Play<Slot<E>, Known<E>> for Checks {
    ghost use Rattle.usb_receipts.specs.Rule.{Seen};

    ghost then = { Seen E.bearer };
}

/// The claims go to a token of their own.
pub struct CutsClaims;

impl<E> Split<Known<E>> for CutsClaims {
    ghost use Rattle.std.specs.Prelude.{[]};
    ghost use Rattle.usb_receipts.specs.Rule.{bearer, cut};

    ghost left = { cut };

    ghost right = { λ v. bearer v.claims [] };
}

/// The positions go to a token of their own.
pub struct CutsPositions;

impl<E> Split<Known<E>> for CutsPositions {
    ghost use Rattle.std.specs.Prelude.{[]};
    ghost use Rattle.usb_receipts.specs.Rule.{bare, bearer};

    ghost left = { bare };

    ghost right = { λ v. bearer [] v.positions };
}

/// A token is made with a number of its own, and a position at the end.
pub struct GivesNumber;

impl<E> Split<Known<E>> for GivesNumber {
    ghost use Rattle.std.specs.Prelude.{[], ◌∷◌};
    ghost use Rattle.usb_receipts.specs.Rule.{bearer, numbered};

    ghost left = { numbered };

    ghost right = { λ v. bearer [] ((v.next, v.entries) ∷ []) };
}

/// What was seen for positions goes to a token of its own too.
pub struct Remembers;

impl<E> Split<Known<E>> for Remembers {
    ghost use Rattle.usb_receipts.specs.Rule.{past_of, seen_for};

    ghost left = { λ v. v };

    ghost right = { λ v. past_of (seen_for v.positions) };
}

/// A token takes in what another knows.
pub struct TakesIn;

impl<E> Join<Known<E>> for TakesIn {
    ghost use Rattle.std.specs.Prelude.{[]};
    ghost use Rattle.usb_receipts.specs.Rule.{bearer, taken_in};

    ghost both = { taken_in };

    ghost spent = { bearer [] [] };
}

/// What the keeper says before it appends: the entry. It has no bytes.
pub type Slot<E> = Image<Option<E>>;

/// The table that a log stands on: one word, which stays 0, and one slot, which the keeper has.
pub type Word<E> = Table<Slot<E>, Known<E>, LogRule, LogRule, Global>;

/// What one token is: its knowledge of that table. It has no bytes.
pub type Token<E> = Seat<Slot<E>, Known<E>>;
