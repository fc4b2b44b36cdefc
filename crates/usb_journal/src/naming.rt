//! Which library a value is of.

ghost use Rattle.usb_model.specs.Setup.{Setup};
ghost use Rattle.atomic_table.specs.Seated.{TableId};

use std::marker::Brand;
use std::sync::ledger::Ledger;

/// Names one library: the ledger that counts the places, the log of its journal, and its devices.
pub trait Naming: Ledger {
    ghost use Rattle.usb_model.specs.Setup.{Setup};
    ghost use Rattle.atomic_table.specs.Seated.{TableId};

    ghost table: { TableId };

    ghost setup: { Setup };
}

impl Naming for Brand {
    ghost use Rattle.std.specs.Prelude.{[]};
    ghost use Rattle.usb_journal.specs.Seen.{no_table};

    ghost table = { no_table };

    ghost setup = { [] };
}
