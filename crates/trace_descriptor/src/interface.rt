//! Interface descriptors (USB 2.0, 9.6.5).

ghost use Rattle.std.specs.Prelude.{◌≡◌, ◌++◌, ℕ, IfOk};
ghost use Rattle.std.specs.List.{find};
ghost use Rattle.std.specs.Option.{option_copied};
ghost use Rattle.trace_descriptor.specs.Interfaces.{class_of, is_used_of, settings_in, settings_of};

use crate::piece::{begins_with_piece, byte_at, front, past, piece_size};
use std::alloc::{AllocError, Global};

/// The type of an interface descriptor (USB 2.0, table 9-5).
const INTERFACE: u8 = 4;

/// What an interface descriptor says, of what is printed.
#[derive(Clone, Copy, PartialEq, Eq, Debug)]
pub(crate) struct InterfaceSetting {
    /// bInterfaceNumber.
    pub(crate) number: u8,
    /// bAlternateSetting.
    pub(crate) setting: u8,
    /// bInterfaceClass.
    pub(crate) class: u8,
}

/// Puts what a descriptor says behind the others, where it is an interface's.
fn put_setting(found: &mut Vec<InterfaceSetting>, piece: &[u8]) -> Result<(), AllocError>
    ensures { IfOk result (λ _. (at : ℕ) → found.new.items ≡ found.old.items ++ settings_in (record { at = at; bytes = piece.now })) }
{
    if byte_at(piece, 1) != INTERFACE {
        return Ok(());
    }
    let setting = InterfaceSetting {
        number: byte_at(piece, 2),
        setting: byte_at(piece, 3),
        class: byte_at(piece, 5),
    };
    Ok(found.push(setting)?)
}

/// What the interface descriptors of a configuration say, in order.
pub(crate) fn settings_of(
    alloc: Global,
    configuration: &[u8],
) -> Result<Vec<InterfaceSetting>, AllocError>
    ensures { IfOk result (λ found. found.items ≡ settings_of configuration.now) }
{
    let mut found = Vec::new(alloc);
    let mut rest = past(configuration, piece_size(configuration));
    'pieces: while begins_with_piece(rest) {
        let size = piece_size(rest);
        put_setting(&mut found, front(rest, size))?;
        rest = past(rest, size);
    }
    Ok(found)
}

/// What the descriptor of an interface says in which it is used.
fn used_setting(settings: &[InterfaceSetting], number: u8) -> Option<&InterfaceSetting>
    ensures { option_copied result ≡ find (is_used_of number) settings.now }
{
    settings
        .iter()
        .find(|s| s.number == number && s.setting == 0)
}

/// The class of an interface that is used.
pub(crate) fn class_of(settings: &[InterfaceSetting], number: u8) -> u8
    ensures { result ≡ class_of number settings.now }
{
    match used_setting(settings, number) {
        Some(setting) => setting.class,
        None => 0,
    }
}
