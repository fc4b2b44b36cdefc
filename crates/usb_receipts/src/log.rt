//! A log, and what is done with it.

ghost use Rattle.std.specs.Prelude.{IfOk, length, ℕ, List, [], ◌+◌, ◌++◌, ◌∷◌, ◌≡◌, ◌≤◌};
ghost use Rattle.usb_receipts.specs.Rule.{AllBegin, claimed, moved, owned, seen_for, Stand, Stood};
ghost use Rattle.usb_receipts.specs.Tokens.{all_moved, claim_to, position_at, new_keeper, with_back, with_entry, with_number, with_taken};

use crate::borne::Borne;
use crate::rule::Word;
use crate::seats;
use crate::tokens::{Claim, Keeper, Past, Position};
use std::alloc::{AllocError, Global};
use std::marker::Model;
use std::mem;

/// The log as threads share it. A call of it takes no memory, whatever the length of the list, and never waits.
#[derive(Drop)]
pub struct Log<E: Borne> {
    word: Word<E>,
}

/// Contracts see which log it is.
impl<E: Borne> Model for Log<E> {
    ghost use Rattle.atomic_table.specs.Seated.{TableId};
    ghost use Rattle.std.specs.Prelude.{◌≡◌};

    ghost Value = { TableId };

    ghost view = { λ r. r.word.shared.table_id };

    ghost invariant = { λ r. r.word.shared.table_id.words ≡ 1 };
}

impl<E: Borne> Log<E> {
    /// A new log with nothing in it, and its keeper. An error where memory is wanting.
    pub fn open(alloc: Global) -> Result<(Log<E>, Keeper<E>), AllocError>
    where
        E: Drop,
        ensures { IfOk result (λ r. r.1 ≡ new_keeper r.0) }
    {
        let (word, token) = seats::open(alloc)?;
        Ok((Log { word }, Keeper { token }))
    }

    /// A position at the end of the list, for a bearer of a number of its own: the next one. Nothing was entered for it.
    pub fn position(&self, keeper: &mut Keeper<E>) -> Position<E>
        requires here { keeper.old.log ≡ self.now }
        requires none { keeper.old.back ≡ [] }
        ensures numbered { keeper.new ≡ with_number keeper.old }
        ensures position { result ≡ position_at self.now keeper.old.next keeper.old.entries }
        ensures empty { owned E.bearer keeper.old.next keeper.old.entries ≡ [] }
    {
        seats::check(&self.word, &mut keeper.token);
        Position {
            token: seats::give_number(&self.word, &mut keeper.token),
        }
    }

    /// Puts an entry behind the list for the bearer of the position, whose number it names, and who gets a claim to its place. The
    /// position moves behind it. Told is what the position knew: the list began with what was seen there, and nothing was entered for
    /// its bearer since.
    pub fn enter(&self, keeper: &mut Keeper<E>, position: &mut Position<E>, entry: E) -> Claim<E>
    where
        E: Drop,
        requires here { (keeper.old.log ≡ self.now) × (position.old.log ≡ self.now) }
        requires none { (keeper.old.taken ≡ []) × (keeper.old.back ≡ []) }
        requires bearer { (seen : List E) × (position.old.positions ≡ (E.bearer entry, seen) ∷ []) }
        ensures appended { keeper.new ≡ with_entry keeper.old entry }
        ensures claim { result ≡ claim_to self.now (length keeper.old.entries) entry }
        ensures moved { position.new ≡ position_at self.now (E.bearer entry) (keeper.old.entries ++ entry ∷ []) }
        ensures stood { Stood E.bearer keeper.old.entries keeper.old.next position.old.positions }
    {
        let nothing = seats::cut_claims(&self.word, &mut keeper.token);
        let before = mem::replace(&mut position.token, nothing);
        seats::take_in(&self.word, &mut keeper.token, before);
        seats::append(&self.word, &mut keeper.token, entry);
        let token = seats::cut_claims(&self.word, &mut keeper.token);
        position.token = seats::cut_positions(&self.word, &mut keeper.token);
        Claim { token }
    }

    /// Moves a position to the end of the list. Told is what it knew, as by `enter`.
    pub fn look(&self, keeper: &mut Keeper<E>, position: &mut Position<E>)
        requires here { (keeper.old.log ≡ self.now) × (position.old.log ≡ self.now) }
        requires none { keeper.old.back ≡ [] }
        ensures same { keeper.new ≡ keeper.old }
        ensures moved { (position.new.log ≡ self.now) × (position.new.positions ≡ moved keeper.old.entries position.old.positions) }
        ensures stood { Stood E.bearer keeper.old.entries keeper.old.next position.old.positions }
    {
        let claims = seats::cut_claims(&self.word, &mut keeper.token);
        let before = mem::replace(&mut position.token, claims);
        seats::take_in(&self.word, &mut keeper.token, before);
        seats::check(&self.word, &mut keeper.token);
        let after = seats::cut_positions(&self.word, &mut keeper.token);
        let claims = mem::replace(&mut position.token, after);
        seats::take_in(&self.word, &mut keeper.token, claims);
    }

    /// What was seen for a position. It is left as it was.
    pub fn remember(&self, position: &mut Position<E>) -> Past<E>
        requires here { position.old.log ≡ self.now }
        ensures same { position.new ≡ position.old }
        ensures past { (result.log ≡ self.now) × (result.pasts ≡ seen_for position.old.positions) }
    {
        Past {
            token: seats::remember(&self.word, &mut position.token),
        }
    }

    /// Moves a position to the end of the list, as `look` does. Told is besides that the list begins with what was seen once by whoever
    /// it may be: with all of it, however much that is.
    pub fn look_behind(
        &self,
        keeper: &mut Keeper<E>,
        position: &mut Position<E>,
        past: &mut Past<E>,
    )
        requires here { (keeper.old.log ≡ self.now) × (position.old.log ≡ self.now) × (past.old.log ≡ self.now) }
        requires none { keeper.old.back ≡ [] }
        ensures same { keeper.new ≡ keeper.old }
        ensures moved { (position.new.log ≡ self.now) × (position.new.positions ≡ moved keeper.old.entries position.old.positions) }
        ensures stood { Stood E.bearer keeper.old.entries keeper.old.next position.old.positions }
        ensures behind { AllBegin keeper.old.entries past.old.pasts }
        ensures past { (past.new.log ≡ self.now) × (past.new.pasts ≡ seen_for position.new.positions) }
    {
        let claims = seats::cut_claims(&self.word, &mut keeper.token);
        let before = mem::replace(&mut position.token, claims);
        seats::take_in(&self.word, &mut keeper.token, before);
        let nothing = seats::cut_claims(&self.word, &mut keeper.token);
        let seen = mem::replace(&mut past.token, nothing);
        seats::take_in(&self.word, &mut keeper.token, seen);
        seats::check(&self.word, &mut keeper.token);
        let mut after = seats::cut_positions(&self.word, &mut keeper.token);
        past.token = seats::remember(&self.word, &mut after);
        let claims = mem::replace(&mut position.token, after);
        seats::take_in(&self.word, &mut keeper.token, claims);
    }

    /// The keeper takes in a claim, whose bearer gives it up.
    pub fn take_in(&self, keeper: &mut Keeper<E>, claim: Claim<E>)
        requires here { (keeper.old.log ≡ self.now) × (claim.log ≡ self.now) }
        ensures { keeper.new ≡ with_taken keeper.old claim.claims }
    {
        let Claim { token } = claim;
        seats::take_in(&self.word, &mut keeper.token, token);
    }

    /// The keeper takes in a position, whose bearer gives it up.
    pub fn take_back(&self, keeper: &mut Keeper<E>, position: Position<E>)
        requires here { (keeper.old.log ≡ self.now) × (position.log ≡ self.now) }
        ensures { keeper.new ≡ with_back keeper.old position.positions }
    {
        let Position { token } = position;
        seats::take_in(&self.word, &mut keeper.token, token);
    }

    /// The keeper compares what it took in with the list: each claim says what stands at its place, and no two have one place; each
    /// position knew a beginning of the list and all that was entered for its bearer, and no two have one number. The positions then
    /// stand at the end.
    pub fn check(&self, keeper: &mut Keeper<E>)
        requires here { keeper.old.log ≡ self.now }
        ensures moved { keeper.new ≡ all_moved keeper.old }
        ensures stand { Stand keeper.old.entries keeper.old.taken }
        ensures apart { (p : ℕ) → claimed p keeper.old.taken ≤ 1 }
        ensures stood { Stood E.bearer keeper.old.entries keeper.old.next keeper.old.back }
        ensures numbers { (n : ℕ) → claimed n keeper.old.back ≤ 1 }
    {
        seats::check(&self.word, &mut keeper.token);
    }
}
