//! What a library is made of.

ghost use Rattle.std.specs.Prelude.{◌≡◌, IfErr, IfOk};
ghost use Rattle.usb_core.specs.Public.{setup_of};

use std::alloc::Global;
use std::marker::Model;
use std::sync::ledger::Blank;
use usb_core::Setup;
use usb_device::Device;
use usb_journal::PlaceImage;
use usb_receipts::{Keeper, Log};

/// What a library is made of, which no type names yet: its devices, the log of its journal, and the ledger of its
/// callers. A function that is generic in a name (`usb_journal::Naming`) makes the library of it, and whoever calls
/// that function has the name made for it: `std::marker::Brand`.
#[derive(Drop)]
pub struct Opening<D: Device> {
    pub(crate) log: Log<PlaceImage>,
    pub(crate) keeper: Keeper<PlaceImage>,
    pub(crate) blank: Blank,
    pub(crate) setup: Setup<D>,
}

/// Contracts see the ledger's name and parts, the log, and what the definitions read of the devices.
impl<D: Device> Model for Opening<D> {
    ghost use Rattle.std.specs.Prelude.{◌≡◌};
    ghost use Rattle.usb_library.specs.Calls.{Opened};
    ghost use Rattle.usb_receipts.specs.Tokens.{new_keeper};
    ghost use Rattle.usb_core.specs.Public.{setup_of};

    ghost Value = { Opened };

    ghost view = { λ o. record { name = o.blank.name; parts = o.blank.parts; table = o.log; setup = setup_of o.setup } };

    ghost invariant = { λ o. o.keeper ≡ new_keeper o.log };
}

impl<D: Device> Opening<D> {
    /// For a library over these devices, of at most 1,024 callers. Where memory is refused the devices come back.
    pub fn new(alloc: Global, setup: Setup<D>) -> Result<Opening<D>, Setup<D>>
        ensures setup { IfOk result (λ o. o.setup ≡ setup_of setup) }
        ensures parts { IfOk result (λ o. o.parts ≡ 1025) }
        ensures back { IfErr result (λ s. s ≡ setup) }
    {
        let Ok((log, keeper)) = Log::open(alloc) else {
            return Err(setup);
        };
        Ok(Opening {
            log,
            keeper,
            blank: Blank::new(1025),
            setup,
        })
    }
}
