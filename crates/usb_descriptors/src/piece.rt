//! The cut of a configuration's bytes into descriptors, each of the length that its first byte says (USB 2.0, 9.5).

ghost use Rattle.std.specs.Prelude.{◌≡◌, ◌+◌, ◌<◌, ◌^◌, length, take, drop, is_some, IfSome};
ghost use Rattle.std.specs.Iterator.{YieldsFirst, item_count};
ghost use Rattle.usb_descriptors.specs.Pieces.{byte, begins_with_piece};
ghost use Rattle.usb_descriptors.specs.Items.{items};

use crate::fault::DescFault;
use std::marker::Model;

/// A descriptor: its offset, and its bytes.
#[derive(Drop)]
pub(crate) struct Piece<'a> {
    at: usize,
    bytes: &'a [u8],
}

impl<'a> Model for Piece<'a> {
    ghost use Rattle.usb_descriptors.specs.Pieces.{Piece as Cut};

    ghost Value = { Cut };

    ghost view = { λ p. record { at = p.at; bytes = p.bytes.now } };
}

/// The descriptors that are still to come.
#[derive(Drop)]
pub(crate) struct Pieces<'a> {
    at: usize,
    rest: &'a [u8],
}

impl<'a> Model for Pieces<'a> {
    ghost use Rattle.std.specs.Prelude.{◌+◌, ◌<◌, ◌^◌, List, Result, length};
    ghost use Rattle.usb_descriptors.specs.declared.fault.DescFault.{DescFault};
    ghost use Rattle.usb_descriptors.specs.Pieces.{Piece};
    ghost use Rattle.usb_descriptors.specs.Items.{items};

    ghost Value = { List (Result Piece DescFault) };

    ghost view = { λ p. items p.at p.rest.now };

    ghost invariant = { λ p. p.at + length p.rest.now < 2 ^ 64 };
}

impl<'a> Piece<'a> {
    /// Its offset.
    pub(crate) fn at(&self) -> usize
        ensures { result ≡ self.now.at }
    {
        self.at
    }

    /// Its bytes.
    pub(crate) fn bytes(&self) -> &'a [u8]
        ensures { result.now ≡ self.now.bytes }
    {
        self.bytes
    }
}

impl<'a> Pieces<'a> {
    /// The descriptors in these bytes, of which the first stands at this offset.
    pub(crate) fn new(at: usize, bytes: &'a [u8]) -> Pieces<'a>
        requires { at + length bytes.now < 2 ^ 64 }
        ensures { result ≡ items at bytes.now }
    {
        Pieces { at, rest: bytes }
    }
}

impl<'a> Iterator for Pieces<'a> {
    type Item = Result<Piece<'a>, DescFault>;

    ghost next_gives = { YieldsFirst (λ rest. rest) };

    ghost remaining = { item_count (λ rest. rest) };

    /// The next descriptor, or BadLength where the bytes that are left begin none; after that, nothing.
    fn next(&mut self) -> Option<Result<Piece<'a>, DescFault>> {
        if self.rest.is_empty() {
            return None;
        }
        let at = self.at;
        let Some((bytes, rest)) = split_first(self.rest) else {
            self.rest = &[];
            return Some(Err(DescFault::BadLength(at)));
        };
        self.at += bytes.len();
        self.rest = rest;
        Some(Ok(Piece { at, bytes }))
    }
}

/// The first descriptor's bytes, and what stands behind them; None where the bytes begin no descriptor.
fn split_first(bytes: &[u8]) -> Option<(&[u8], &[u8])>
    ensures found { is_some result ≡ begins_with_piece bytes.now }
    ensures front { IfSome result (λ p. p.0.now ≡ take (byte 0 bytes.now) bytes.now) }
    ensures back { IfSome result (λ p. p.1.now ≡ drop (byte 0 bytes.now) bytes.now) }
{
    let length = usize::from(*bytes.first()?);
    if length < 2 {
        return None;
    }
    bytes.split_at_checked(length)
}
