//! The callbacks that run: they came out with their transfers, and their verdicts aren't made yet.

ghost use Rattle.std.specs.Prelude.{◌≡◌, ℕ, ◌<◌, ◌==◌, None, Some, IfOk, IsOk, OnOk, if◌then◌else◌};
ghost use Rattle.usb_plans.specs.PlanRuns.{room_of, running_at, running_in};
ghost use Rattle.proof_laws.specs.InCallbacks.{is_there};

use std::alloc::{AllocError, Global};
use std::collections::HashMap;
use std::marker::Model;
use usb_core::Taken;
use usb_model::Name;

/// The callbacks of one name that run, by the numbers of their transfers, each with what it is told.
#[derive(Drop)]
struct NameCallbacks<C> {
    by_number: HashMap<u64, Taken<C>>,
}

impl<C> Model for NameCallbacks<C> {
    ghost use Rattle.std.specs.HashMap.{spare};
    ghost use Rattle.usb_plans.specs.PlanRuns.{NameRuns};

    ghost Value = { NameRuns C };

    ghost view = { λ c. record { callbacks = c.by_number.entries; room = spare c.by_number } };
}

impl<C: Drop> NameCallbacks<C> {
    /// None runs. Takes no memory.
    fn new(alloc: Global) -> NameCallbacks<C>
        ensures { (n : ℕ) → running_in result n ≡ None }
    {
        NameCallbacks {
            by_number: HashMap::new(alloc),
        }
    }

    /// Asks for room for one more. Those run that ran, whether there is memory or not.
    fn reserve(&mut self) -> Result<(), AllocError>
        ensures ok { OnOk result (0 < self.new.room) }
        ensures same { (k : ℕ) → running_in self.new k ≡ running_in self.old k }
    {
        self.by_number.reserve(1)
    }

    /// A callback runs. Where there is room for one more, it takes no memory.
    fn put(&mut self, taken: Taken<C>) -> Result<(), AllocError>
        ensures runs { IfOk result (λ _. (k : ℕ) → running_in self.new k ≡ (if taken.returned.n == k then Some taken else running_in self.old k)) }
        ensures succeeds { 0 < self.old.room → IsOk result }
    {
        self.by_number.insert(taken.returned.n, taken)?;
        Ok(())
    }

    /// Takes out the callback of this number, where it runs.
    fn remove(&mut self, n: u64) -> Option<Taken<C>>
        ensures value { result ≡ running_in self.old n }
        ensures others { (k : ℕ) → running_in self.new k ≡ (if n == k then None else running_in self.old k) }
    {
        self.by_number.remove(&n)
    }
}

/// The callbacks of each name that run; contracts see what each look-up answers (`running_at`).
#[derive(Drop)]
pub(crate) struct RunningCallbacks<C> {
    names: Vec<NameCallbacks<C>>,
}

impl<C> Model for RunningCallbacks<C> {
    ghost use Rattle.std.specs.Prelude.{◌≡◌, List, length};
    ghost use Rattle.usb_plans.specs.PlanRuns.{NameRuns};

    ghost Value = { List (NameRuns C) };

    ghost view = { λ t. t.names.items };

    ghost invariant = { λ t. length t.names.items ≡ 64 };
}

impl<C: Drop> RunningCallbacks<C> {
    /// None runs.
    pub(crate) fn new(alloc: Global) -> Result<RunningCallbacks<C>, AllocError>
        ensures { IfOk result (λ t. (h n : ℕ) → running_at t h n ≡ None) }
    {
        let mut names = Vec::with_capacity(alloc, 64)?;
        for _ in 0..64_usize {
            names.push(NameCallbacks::new(alloc))?;
        }
        Ok(RunningCallbacks { names })
    }

    /// Asks for room for one more of this name. Those run that ran, whether there is memory or not.
    pub(crate) fn reserve(&mut self, h: Name) -> Result<(), AllocError>
        ensures ok { OnOk result (0 < room_of self.new h) }
        ensures same { (g k : ℕ) → running_at self.new g k ≡ running_at self.old g k }
    {
        let callbacks = &mut self.names[usize::from(h.number())];
        callbacks.reserve()
    }

    /// A callback of this name runs. Where there is room for one more of the name, it takes no memory.
    pub(crate) fn put(&mut self, h: Name, taken: Taken<C>) -> Result<(), AllocError>
        ensures runs { IfOk result (λ _. (g k : ℕ) → running_at self.new g k ≡ (if is_there h taken.returned.n g k then Some taken else running_at self.old g k)) }
        ensures succeeds { 0 < room_of self.old h → IsOk result }
    {
        let callbacks = &mut self.names[usize::from(h.number())];
        callbacks.put(taken)
    }

    /// Takes out the callback of this name and number, where it runs.
    pub(crate) fn remove(&mut self, h: Name, n: u64) -> Option<Taken<C>>
        ensures value { result ≡ running_at self.old h n }
        ensures others { (g k : ℕ) → running_at self.new g k ≡ (if is_there h n g k then None else running_at self.old g k) }
    {
        let callbacks = &mut self.names[usize::from(h.number())];
        callbacks.remove(n)
    }
}
