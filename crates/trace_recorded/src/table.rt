//! Values by number.

ghost use Rattle.std.specs.Prelude.{◌≡◌, [], IfOk};
ghost use Rattle.std.specs.Option.{option_copied};
ghost use Rattle.trace_recorded.specs.Tables.{value_at, with_value, without};

use std::alloc::{AllocError, Global};
use std::collections::BTreeMap;
use std::marker::Model;

/// Values by number. Contracts see the list of both, by rising number.
#[derive(Drop)]
pub(crate) struct ByNumber<V> {
    values: BTreeMap<u64, V>,
}

impl<V> Model for ByNumber<V> {
    ghost use Rattle.std.specs.Prelude.{ℕ, List};

    ghost Value = { List (ℕ × V) };

    ghost view = { λ t. t.values.entries };
}

impl<V: Drop> ByNumber<V> {
    /// No value. Takes no memory.
    pub(crate) fn new(alloc: Global) -> ByNumber<V>
        ensures { result ≡ [] }
    {
        ByNumber {
            values: BTreeMap::new(alloc),
        }
    }

    /// Puts a value at a number, in place of any other.
    pub(crate) fn put(&mut self, number: u64, value: V) -> Result<(), AllocError>
        ensures { IfOk result (λ _. self.new ≡ with_value number value self.old) }
    {
        let _ = self.values.insert(number, value)?;
        Ok(())
    }

    /// The value of a number, where there is one.
    pub(crate) fn get(&self, number: u64) -> Option<&V>
        ensures { option_copied result ≡ value_at number self.now }
    {
        self.values.get(&number)
    }

    /// Takes the value of a number out, where there is one.
    pub(crate) fn take(&mut self, number: u64) -> Option<V>
        ensures value { result ≡ value_at number self.old }
        ensures left { self.new ≡ without number self.old }
    {
        self.values.remove(&number)
    }

    /// The values as a map.
    pub(crate) fn into_map(self) -> BTreeMap<u64, V>
        ensures { result.entries ≡ self }
    {
        let ByNumber { values } = self;
        values
    }
}
