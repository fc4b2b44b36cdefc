//! Lists that all handles share.

ghost use Rattle.std.specs.Prelude.{◌≡◌, ◌++◌, IfOk};
ghost use Rattle.usb_model.specs.World.Shared.{first_name, tagged};

use crate::name::Name;
use crate::sequence::Sequence;
use std::alloc::AllocError;

/// A piece and the name of its handle.
#[derive(Debug, Drop)]
pub struct Tagged<T> {
    /// The handle whose piece it is.
    pub name: Name,
    /// The piece.
    pub piece: T,
}

impl<T: Drop> Sequence<Tagged<T>> {
    /// Whose the first piece is.
    pub fn first_name(&self) -> Option<Name>
        ensures { result ≡ first_name self.now }
    {
        match self.as_slice() {
            [] => None,
            [first, ..] => Some(first.name),
        }
    }

    /// Puts these pieces behind the others, as the name's.
    pub fn join(&mut self, h: Name, pieces: Sequence<T>) -> Result<(), AllocError>
        ensures { IfOk result (λ _. self.new ≡ self.old ++ tagged h pieces) }
    {
        for piece in pieces.into_vec() {
            self.push(Tagged { name: h, piece })?;
        }
        Ok(())
    }
}
