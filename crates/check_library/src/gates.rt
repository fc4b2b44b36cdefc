//! Scenes in which a worker or a callback is held, and those of workers that wait and are woken.

use crate::acts::{Act, CLAIM, CLOSE_IN_TIME, Deed, Event, OPEN, READ_1, READ_8};
use crate::call::Ask;
use crate::callback::Manner;
use crate::scene::{Answers, Look, Scene};
use crate::signals::Mark;
use crate::turnstile::{NOWHERE, Stop};
use usb_workers::WorkerStep;

/// A read of 8 bytes, once it isn't refused as busy.
const READ_8_IN_TIME: Act = Act::InTime(READ_8);

/// A wait for a worker that comes to its stop.
const AWAIT_WORKER: Act = Act::Await(Event::Said(Mark::AtGate));

/// A wait for the first callback.
const AWAIT_CALLBACK: Act = Act::Await(Event::Called(1));

/// Whoever is held goes on.
const GO_ON: Act = Act::Say(Mark::GoOn);

/// How often a thread gives way before it takes a worker to be parked.
const PARKING_TURNS: u64 = 10_000;

/// A callback is held until a submission of another thread was answered: it is called with no lock held.
const HELD_CALLBACK: Scene = Scene {
    name: "held callback: a submission while a callback is held",
    sizes: &[8, 8],
    stops: &[NOWHERE],
    threads: &[&[
        OPEN,
        CLAIM,
        Act::InTime(Deed::Read(8, Manner::WaitsAndStops)),
        AWAIT_CALLBACK,
        READ_8_IN_TIME,
        GO_ON,
    ]],
    answers: Answers::All,
    callbacks: Look::Told,
};

/// The controller's second packet waits until the other worker has called a callback: the two run beside each other.
const TWO_LOOPS: Scene = Scene {
    name: "two loops: a callback while the controller waits",
    sizes: &[8, 8],
    stops: &[Stop(WorkerStep::Serve, 2)],
    threads: &[&[
        OPEN,
        CLAIM,
        Act::InTime(Deed::Read(8, Manner::LetsGo)),
        READ_8_IN_TIME,
    ]],
    answers: Answers::All,
    callbacks: Look::Told,
};

/// A transfer is cancelled when a worker first comes to a point, or its callback was called: it is called back once, the
/// bytes are the first of its device's, and the endpoint is at rest in the end.
const CANCEL_POINTS: Scene = Scene {
    name: "cancel points: a transfer is cancelled at each",
    sizes: &[8, 8, 3],
    stops: &[
        Stop(WorkerStep::Serve, 1),
        Stop(WorkerStep::Command, 1),
        Stop(WorkerStep::Deliver, 1),
        Stop(WorkerStep::Take, 1),
        Stop(WorkerStep::Call, 1),
        Stop(WorkerStep::Answer, 1),
    ],
    threads: &[&[
        OPEN,
        CLAIM,
        Act::InTime(Deed::Read(20, Manner::Stops)),
        Act::AwaitEither(Event::Said(Mark::AtGate), Event::Called(1)),
        Act::Once(Deed::Ask(Ask::Cancel(0))),
        GO_ON,
        CLOSE_IN_TIME,
    ]],
    answers: Answers::Last,
    callbacks: Look::OneOf(&[
        "h1 called 0 ep 81 round 0 COMPLETED 19 data 0102030405060708090a0b0c0d0e0f10111213\n",
        "h1 called 0 ep 81 round 0 CANCELLED 0 data -\n",
        "h1 called 0 ep 81 round 0 CANCELLED 8 data 0102030405060708\n",
        "h1 called 0 ep 81 round 0 CANCELLED 16 data 0102030405060708090a0b0c0d0e0f10\n",
    ]),
};

/// While a callback's answer is held, close and release are refused; after the last of four rounds close is done.
const CLOSE_AMID_ROUNDS: Scene = Scene {
    name: "close amid rounds: while a callback is out, and after the last",
    sizes: &[1, 1, 1, 1],
    stops: &[Stop(WorkerStep::Answer, 1)],
    threads: &[&[
        OPEN,
        CLAIM,
        Act::InTime(Deed::Read(1, Manner::Repeats)),
        AWAIT_WORKER,
        Act::Once(Deed::Ask(Ask::Close)),
        Act::Once(Deed::Ask(Ask::Release)),
        GO_ON,
        CLOSE_IN_TIME,
    ]],
    answers: Answers::All,
    callbacks: Look::Told,
};

/// A callback asks for one more round when its thread has taken the last of the endpoint's 16 places: it is told so, the
/// library counts it, and the library ends though sixteen transfers stay in flight at a device that says no more.
const CUT_SHORT: Scene = Scene {
    name: "cut short: a callback whose next round finds no place",
    sizes: &[1],
    stops: &[NOWHERE],
    threads: &[&[
        OPEN,
        CLAIM,
        Act::InTime(Deed::Read(1, Manner::WaitsAndRepeats)),
        AWAIT_CALLBACK,
        Act::Reads(16),
        GO_ON,
        Act::Await(Event::Said(Mark::CutShort)),
    ]],
    answers: Answers::All,
    callbacks: Look::Told,
};

/// A packet that is too long halts its endpoint, and the controller's worker has nothing to do. Then an event is
/// handled, of the transfer or of one of the two orders that set the endpoint going again: it wakes that worker.
const EVENTS_AFTER_REST: Scene = Scene {
    name: "events after rest: each comes when the controller's worker has parked",
    sizes: &[8, 8],
    stops: &[
        Stop(WorkerStep::Deliver, 1),
        Stop(WorkerStep::Deliver, 2),
        Stop(WorkerStep::Deliver, 3),
    ],
    threads: &[&[
        OPEN,
        CLAIM,
        Act::InTime(READ_1),
        READ_8_IN_TIME,
        AWAIT_WORKER,
        Act::Yield(PARKING_TURNS),
        GO_ON,
        CLOSE_IN_TIME,
    ]],
    answers: Answers::All,
    callbacks: Look::Told,
};

/// A thread looks and finds nothing to do; then another submits a transfer, and no worker touches it; then the first
/// parks: it is woken.
const LOOK_THEN_PARK: Scene = Scene {
    name: "look then park: a submission in between",
    sizes: &[8],
    stops: &[Stop(WorkerStep::Serve, 1)],
    threads: &[
        &[
            OPEN,
            CLAIM,
            Act::WatchAndLook,
            Act::Say(Mark::Looked),
            Act::Await(Event::Said(Mark::Submitted)),
            Act::Park,
            GO_ON,
        ],
        &[
            Act::Await(Event::Said(Mark::Looked)),
            READ_8_IN_TIME,
            Act::Say(Mark::Submitted),
            Act::Rescue,
        ],
    ],
    answers: Answers::All,
    callbacks: Look::Told,
};

/// How many transfers are submitted one after the other.
const ROUNDS: u64 = 1_000;

/// A thousand transfers, each submitted once the one before was called back: as the workers come to rest, or while they
/// do. A transfer that isn't called back in time is an error of the thread.
const EACH_WAKES: Scene = Scene {
    name: "each wakes: transfers, each after the last was called back",
    sizes: &[8; ROUNDS as usize],
    stops: &[NOWHERE],
    threads: &[&[OPEN, CLAIM, Act::Stream(ROUNDS, 1), CLOSE_IN_TIME]],
    answers: Answers::All,
    callbacks: Look::Count,
};

/// All of them.
pub const SCENES: &[Scene] = &[
    HELD_CALLBACK,
    TWO_LOOPS,
    CANCEL_POINTS,
    CLOSE_AMID_ROUNDS,
    CUT_SHORT,
    EVENTS_AFTER_REST,
    LOOK_THEN_PARK,
    EACH_WAKES,
];
