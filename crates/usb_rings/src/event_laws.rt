//! Laws over the definitions, as functions that do nothing.

ghost use Rattle.usb_rings.specs.Chain.{LinkStaysUnchained};

/// The Link of a ring has no CH where nothing that was posted has one, as no command has (xHCI 1.2, 4.11.5.1 and 6.4.3).
pub fn a_link_behind_commands_has_no_chain_bit()
    ensures { LinkStaysUnchained }
{}
