//! What is promised of the threads: what comes back of each, by what went into it.

ghost use Rattle.std.specs.Prelude.{◌≡◌};
ghost use Rattle.usb_workers.specs.Rounds.{MayAnswer};
ghost use Rattle.usb_workers.specs.Life.{ControlsAll, HandlesAll};

use crate::driver::Driver;
use crate::seat::{Home, Seat};
use std::marker::PhantomData;
use std::snapshot::Snapshot;
use std::thread::Promise;
use usb_core::Callback;
use usb_journal::Naming;
use usb_library::{Caller, Payload};

/// The caller that went out with the controller's part. It comes back moved on, look by look, until nothing of that part was left.
#[derive(Drop)]
pub(crate) struct Controlling<L: Naming> {
    pub(crate) caller: Snapshot<Caller<L>>,
}

impl<L: Naming> Controlling<L> {
    /// This one.
    pub(crate) fn of(caller: &Caller<L>) -> Controlling<L>
        ensures { result.caller.value ≡ caller.now }
    {
        Controlling {
            caller: Snapshot::of(caller),
        }
    }
}

impl<L: Naming> Promise<Caller<L>> for Controlling<L> {
    ghost kept_by = { λ p c. ControlsAll L.setup p.caller.value c };
}

/// The caller that went out with events and callbacks of this type, of which so many may answer as they like. It comes back moved on, look by
/// look, until nothing of that part was left.
#[derive(Drop)]
pub(crate) struct Handling<L: Naming, C: Callback + Payload> {
    pub(crate) caller: Snapshot<Caller<L>>,
    pub(crate) rounds: u64,
    callback: PhantomData<C>,
}

impl<L: Naming, C: Callback + Payload> Handling<L, C> {
    /// This one.
    pub(crate) fn of(caller: &Caller<L>, rounds: u64) -> Handling<L, C>
        ensures { (result.caller.value ≡ caller.now) × (result.rounds ≡ rounds) }
    {
        Handling {
            caller: Snapshot::of(caller),
            rounds,
            callback: PhantomData,
        }
    }
}

impl<L: Naming, C: Callback + Payload> Promise<Caller<L>> for Handling<L, C> {
    ghost kept_by = { λ p c. HandlesAll L.setup (MayAnswer p.rounds C.Whom.suits C.may_answer C.rule) p.caller.value c };
}

/// The driver that went out with its caller. What comes home is what it may make, and leave.
#[derive(Drop)]
pub(crate) struct Driving<L: Naming, C: Payload, T: Driver<C>> {
    pub(crate) seat: Snapshot<Seat<L, T>>,
    callback: PhantomData<C>,
}

impl<L: Naming, C: Payload, T: Driver<C>> Driving<L, C, T> {
    /// This one.
    pub(crate) fn of(seat: &Seat<L, T>) -> Driving<L, C, T>
        ensures { result.seat.value ≡ seat.now }
    {
        Driving {
            seat: Snapshot::of(seat),
            callback: PhantomData,
        }
    }
}

impl<L: Naming, C: Payload, T: Driver<C>> Promise<Home<L, T::Left>> for Driving<L, C, T> {
    ghost kept_by = { λ p h. T.makes p.seat.value.driver L.setup p.seat.value.caller h.caller h.left };
}
