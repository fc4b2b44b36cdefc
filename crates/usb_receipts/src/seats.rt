//! The steps of a log's tokens, in terms of what each of them knows.

ghost use Rattle.std.specs.Prelude.{IfOk, length, ℕ, List, [], true, ◌+◌, ◌++◌, ◌∷◌, ◌≡◌, ◌≤◌};
ghost use Rattle.usb_receipts.specs.Rule.{appended, bare, bearer, Checked, cut, HasSlot, keeper, numbered, past_of, seen_for, settled, taken_in};

use crate::borne::Borne;
use crate::image::Image;
use crate::rule::{
    Appends, Checks, CutsClaims, CutsPositions, GivesNumber, LogRule, Remembers, TakesIn,
    TakesSlot, Token, Word,
};
use atomic_table::Table;
use std::alloc::{AllocError, Global};

/// The word, and a token that knows the empty list whole.
pub fn open<E: Borne + Drop>(alloc: Global) -> Result<(Word<E>, Token<E>), AllocError>
    ensures log { IfOk result (λ r. (r.0.shared.table_id.words ≡ 1) × (r.1.table_id ≡ r.0.shared.table_id)) }
    ensures keeper { IfOk result (λ r. (r.1.me.0 ≡ keeper [] 0) × HasSlot r.1.me.1) }
{
    let mut slots = Vec::new(alloc);
    slots.push(Image::of(&None))?;
    let Ok((word, mut token)) = Table::new(alloc, &[0], slots, &LogRule) else {
        return Err(AllocError);
    };
    let _found = word.shared.load::<TakesSlot>(&mut token, 0);
    Ok((word, token))
}

/// The keeper, who has the position of the entry's bearer alone, compares what it has with the list, as by `check`, in the same step in which
/// the entry is put behind it; then it has a claim to the entry's place.
pub fn append<E: Borne + Drop>(word: &Word<E>, token: &mut Token<E>, entry: E)
    requires one { word.now.shared.table_id.words ≡ 1 }
    requires log { (token.old.table_id ≡ word.now.shared.table_id) × HasSlot token.old.me.1 }
    requires keeper { token.old.me.0.keeps ≡ true }
    requires position { (seen : List E) × (token.old.me.0.positions ≡ (E.bearer entry, seen) ∷ []) }
    ensures appended { (token.new.table_id ≡ token.old.table_id) × (token.new.me.0 ≡ appended token.old.me.0 entry) × HasSlot token.new.me.1 }
    ensures checked { Checked E.bearer token.old.me.0 }
{
    let entry = Some(entry);
    let _before = word.shared.exchange(token, 0, Image::of(&entry));
    let _found = word.shared.load::<Appends>(token, 0);
}

/// Cuts off the claims.
pub fn cut_claims<E: Borne>(word: &Word<E>, token: &mut Token<E>) -> Token<E>
    requires one { word.now.shared.table_id.words ≡ 1 }
    requires log { (token.old.table_id ≡ word.now.shared.table_id) × HasSlot token.old.me.1 }
    ensures kept { (token.new.table_id ≡ token.old.table_id) × (token.new.me ≡ (cut token.old.me.0, token.old.me.1)) }
    ensures given { (result.table_id ≡ token.old.table_id) × (result.me ≡ (bearer token.old.me.0.claims [], [])) }
{
    word.shared.split_seat::<CutsClaims>(token)
}

/// Cuts off the positions.
pub fn cut_positions<E: Borne>(word: &Word<E>, token: &mut Token<E>) -> Token<E>
    requires one { word.now.shared.table_id.words ≡ 1 }
    requires log { (token.old.table_id ≡ word.now.shared.table_id) × HasSlot token.old.me.1 }
    ensures kept { (token.new.table_id ≡ token.old.table_id) × (token.new.me ≡ (bare token.old.me.0, token.old.me.1)) }
    ensures given { (result.table_id ≡ token.old.table_id) × (result.me ≡ (bearer [] token.old.me.0.positions, [])) }
{
    word.shared.split_seat::<CutsPositions>(token)
}

/// A position at the end of the list, under the next number.
pub fn give_number<E: Borne>(word: &Word<E>, token: &mut Token<E>) -> Token<E>
    requires one { word.now.shared.table_id.words ≡ 1 }
    requires log { (token.old.table_id ≡ word.now.shared.table_id) × HasSlot token.old.me.1 }
    requires keeper { token.old.me.0.keeps ≡ true }
    ensures kept { (token.new.table_id ≡ token.old.table_id) × (token.new.me ≡ (numbered token.old.me.0, token.old.me.1)) }
    ensures given { (result.table_id ≡ token.old.table_id) × (result.me ≡ (bearer [] ((token.old.me.0.next, token.old.me.0.entries) ∷ []), [])) }
{
    word.shared.split_seat::<GivesNumber>(token)
}

/// What was seen for a token's positions, in a token of its own; it is left as it was.
pub fn remember<E: Borne>(word: &Word<E>, token: &mut Token<E>) -> Token<E>
    requires one { word.now.shared.table_id.words ≡ 1 }
    requires log { token.old.table_id ≡ word.now.shared.table_id }
    ensures same { (token.new.table_id ≡ token.old.table_id) × (token.new.me ≡ token.old.me) }
    ensures given { (result.table_id ≡ token.old.table_id) × (result.me ≡ (past_of (seen_for token.old.me.0.positions), [])) }
{
    word.shared.split_seat::<Remembers>(token)
}

/// The keeper takes in another token's claims and positions.
pub fn take_in<E: Borne>(word: &Word<E>, token: &mut Token<E>, other: Token<E>)
    requires one { word.now.shared.table_id.words ≡ 1 }
    requires log { (token.old.table_id ≡ word.now.shared.table_id) × HasSlot token.old.me.1 }
    requires other { (other.table_id ≡ word.now.shared.table_id) × (other.me.1 ≡ []) }
    ensures { (token.new.table_id ≡ token.old.table_id) × (token.new.me ≡ (taken_in token.old.me.0 other.me.0, token.old.me.1)) }
{
    word.shared.join_seat::<TakesIn>(token, other)
}

/// The keeper compares its claims and its positions with the list; the positions stand at its end then.
pub fn check<E: Borne>(word: &Word<E>, token: &mut Token<E>)
    requires one { word.now.shared.table_id.words ≡ 1 }
    requires log { (token.old.table_id ≡ word.now.shared.table_id) × HasSlot token.old.me.1 }
    requires keeper { token.old.me.0.keeps ≡ true }
    ensures settled { (token.new.table_id ≡ token.old.table_id) × (token.new.me ≡ (settled token.old.me.0, token.old.me.1)) }
    ensures checked { Checked E.bearer token.old.me.0 }
{
    let _found = word.shared.load::<Checks>(token, 0);
}
