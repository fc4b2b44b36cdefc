//! The store of transfers in flight.

ghost use Rattle.std.specs.Prelude.{◌≡◌, ◌+◌, ◌==◌, [], None, Some, IfOk, IfErr, OnOk, OnErr, OnSome, IfNone, option_copied};
ghost use Rattle.std.specs.Borrow.{sem};
ghost use Rattle.std.specs.Option.{option_copied_mut};
ghost use Rattle.usb_tables.specs.Store.{transfer_at, count, Updates};

use crate::transfer::Transfer;
use slab::Slab;
use std::alloc::Global;
use std::marker::Model;

/// The transfers in flight, each under a key. A key is used again once its transfer is removed. Contracts see the
/// transfer at each key (`transfer_at`), and the key of the next one.
#[derive(Drop)]
pub struct Store<P> {
    transfers: Slab<Transfer<P>>,
}

impl<P> Model for Store<P> {
    ghost use Rattle.usb_tables.specs.Store.{Slots};
    ghost use Rattle.usb_tables.specs.declared.transfer.Transfer.{Transfer as InFlight};

    ghost Value = { Slots (InFlight P) };

    ghost view = { λ s. record { slots = s.transfers.slots; vacant_key = s.transfers.vacant_key } };
}

impl<P> Store<P> {
    ghost use Rattle.usb_tables.specs.LendsTransfer.{lends_transfer};

    /// No transfer; the first has key 0. Takes no memory.
    pub fn new(alloc: Global) -> Store<P>
        ensures { result ≡ record { slots = []; vacant_key = 0 } }
    {
        Store {
            transfers: Slab::new(alloc),
        }
    }

    /// How many transfers there are.
    pub fn len(&self) -> usize
        ensures { result ≡ count self.now }
    {
        self.transfers.len()
    }

    /// Whether there is none.
    pub fn is_empty(&self) -> bool
        ensures { result ≡ (count self.now == 0) }
    {
        self.transfers.is_empty()
    }

    /// Stores a transfer under the next key, that of the transfer removed last or one never used. Hands it back, with
    /// nothing changed, where memory is refused.
    pub fn insert(&mut self, transfer: Transfer<P>) -> Result<usize, Transfer<P>>
        ensures key { IfOk result (λ key. key ≡ self.old.vacant_key) }
        ensures was_vacant { IfOk result (λ key. transfer_at self.old key ≡ None) }
        ensures updates { IfOk result (λ key. Updates self.old self.new key (Some transfer)) }
        ensures len { OnOk result (count self.new ≡ count self.old + 1) }
        ensures back { IfErr result (λ t. t ≡ transfer) }
        ensures kept { OnErr result (self.new ≡ self.old) }
    {
        let stored = self.transfers.insert(transfer);
        stored.map_err(|failed| failed.value)
    }

    /// The transfer with this key.
    pub fn get(&self, key: usize) -> Option<&Transfer<P>>
        ensures { option_copied result ≡ transfer_at self.now key }
    {
        self.transfers.get(key)
    }

    /// The transfer with this key, to be changed.
    pub fn get_mut(&mut self, key: usize) -> Option<&mut Transfer<P>>
        ensures* writes_back { sem 𝓛 (lends_transfer P.row self.entry key result) }
        ensures value { option_copied_mut result ≡ transfer_at self.old key }
    {
        self.transfers.get_mut(key)
    }

    /// Takes the transfer with this key out. Its key is the next one. Nothing changes where there is none.
    pub fn remove(&mut self, key: usize) -> Option<Transfer<P>>
        ensures value { result ≡ transfer_at self.old key }
        ensures updates { Updates self.old self.new key None }
        ensures next { OnSome result (self.new.vacant_key ≡ key) }
        ensures len { OnSome result (count self.new + 1 ≡ count self.old) }
        ensures absent { IfNone result (self.new ≡ self.old) }
    {
        self.transfers.try_remove(key)
    }
}
