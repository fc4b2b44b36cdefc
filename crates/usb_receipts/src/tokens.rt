//! The tokens of a log. None of them has any bytes.

use crate::rule::Token;
use std::marker::Model;

/// The token that knows the list whole. Each log has one, and only its bearer appends.
#[derive(Drop)]
pub struct Keeper<E> {
    pub(crate) token: Token<E>,
}

/// Contracts see the log, the list, the number that is given next, and the claims and positions that were taken in.
impl<E> Model for Keeper<E> {
    ghost use Rattle.usb_receipts.specs.Tokens.{IsKeeper, Keeps};

    ghost Value = { Keeps E };

    ghost view = { λ k. record { log = k.token.table_id; entries = k.token.me.0.entries; next = k.token.me.0.next; taken = k.token.me.0.claims; back = k.token.me.0.positions } };

    ghost invariant = { λ k. IsKeeper k.token.me };
}

/// A claim to a place: what stands there, for as long as the claim lasts.
#[derive(Drop)]
pub struct Claim<E> {
    pub(crate) token: Token<E>,
}

/// Contracts see the log, and the place with its entry as a list of one.
impl<E> Model for Claim<E> {
    ghost use Rattle.usb_receipts.specs.Tokens.{Claims, IsClaim};

    ghost Value = { Claims E };

    ghost view = { λ c. record { log = c.token.table_id; claims = c.token.me.0.claims } };

    ghost invariant = { λ c. IsClaim c.token.me };
}

/// A position: the number of its bearer, which no other has, and the beginning of the list that was seen for it last. Nothing was
/// entered for that number since.
#[derive(Drop)]
pub struct Position<E> {
    pub(crate) token: Token<E>,
}

/// Contracts see the log, and the number with what was seen as a list of one.
impl<E> Model for Position<E> {
    ghost use Rattle.usb_receipts.specs.Tokens.{IsPosition, Positions};

    ghost Value = { Positions E };

    ghost view = { λ m. record { log = m.token.table_id; positions = m.token.me.0.positions } };

    ghost invariant = { λ m. IsPosition m.token.me };
}

/// Beginnings of the list that were seen once. It has no bytes, and so whoever is lent it can't tell how long they are.
#[derive(Drop)]
pub struct Past<E> {
    pub(crate) token: Token<E>,
}

/// Contracts see the log, and what was seen.
impl<E> Model for Past<E> {
    ghost use Rattle.usb_receipts.specs.Tokens.{IsPast, Pasts};

    ghost Value = { Pasts E };

    ghost view = { λ p. record { log = p.token.table_id; pasts = p.token.me.0.pasts } };

    ghost invariant = { λ p. IsPast p.token.me };
}
