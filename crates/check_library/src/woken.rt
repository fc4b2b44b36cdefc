//! A scene of one caller: which workers each of its calls wakes.

ghost use Rattle.std.specs.Prelude.{◌≡◌};

use crate::board::Board;
use crate::call::{Ask, Call};
use crate::life::{Shared, opening};
use crate::single::{One, Single};
use anyhow::Result;
use crossbeam_utils::sync::Parker;
use std::alloc::Global;
use std::marker::Brand;
use std::sync::Wait;
use usb_device::TableDevice;
use usb_journal::Naming;
use usb_library::{Caller, Library, Opening, WorkerPart};

/// A call, and what it is called here.
type Named = (&'static str, Call);

/// The sizes of the packets that the endpoint 81 has: a read of 16 bytes ends with the second, one of 8 with the third, and the next finds
/// none.
const SIZES: [u16; 3] = [8, 1, 8];

/// Before the workers are asked to stop: each is woken where its part has work that wasn't there.
const WORKING: [Named; 13] = [
    ("a handle opens its device", Call::Ask(Ask::Open)),
    ("it claims an interface", Call::Ask(Ask::Claim)),
    ("it submits a read", Call::Read(16, 0)),
    ("a packet moves bytes", Call::Serve(0x81)),
    ("a packet ends the read", Call::Serve(0x81)),
    ("its event is handled", Call::Deliver),
    ("its result goes out", Call::Take),
    ("its callback ends", Call::Stop(0)),
    ("another read is submitted", Call::Read(8, 0)),
    ("a packet ends the read", Call::Serve(0x81)),
    ("its event is handled", Call::Deliver),
    ("its result goes out", Call::Take),
    ("its callback submits it again", Call::Again(1)),
];

/// Behind that: whatever changes something may be the last that is done.
const STOPPING: [Named; 3] = [
    ("a packet isn't ready", Call::Serve(0x81)),
    ("no event is handled", Call::Deliver),
    ("another read is submitted", Call::Read(8, 0)),
];

/// By a worker, behind that: it looks again behind each.
const LOOKING_AGAIN: [Named; 9] = [
    ("a packet isn't ready", Call::Serve(0x81)),
    ("the read is cancelled", Call::Ask(Ask::Cancel(2))),
    ("its endpoint stops", Call::Command),
    ("that is handled", Call::Deliver),
    ("its result goes out", Call::Take),
    ("the endpoint is moved", Call::Command),
    ("that is handled", Call::Deliver),
    ("its callback ends", Call::Stop(2)),
    ("a packet isn't ready", Call::Serve(0x81)),
];

/// By the same caller, which is no worker's any more.
const LEFT: [Named; 1] = [("a packet isn't ready", Call::Serve(0x81))];

/// How often the workers of each part were woken.
#[derive(Clone, Copy)]
struct Wakes {
    controller: u64,
    events: u64,
}

impl Wakes {
    /// As often until now.
    fn of<L: Naming>(library: &Shared<L>) -> Wakes {
        Wakes {
            controller: library.wakes(WorkerPart::Controller),
            events: library.wakes(WorkerPart::Events),
        }
    }

    /// Who was woken since then.
    fn since(self, before: Wakes) -> &'static str {
        match (
            self.controller != before.controller,
            self.events != before.events,
        ) {
            (false, false) => "nobody",
            (true, false) => "the controller's worker",
            (false, true) => "the worker of events",
            (true, true) => "both",
        }
    }
}

/// A library with a caller, who looks whom it wakes.
#[derive(Drop)]
struct Watched<'a, R, L: Naming> {
    rt: &'a R,
    library: &'a Shared<L>,
    board: One<'a, R, L>,
    single: Single,
}

impl<'a, R: Wait + Print, L: Naming> Watched<'a, R, L> {
    /// Prints who was woken by something.
    fn show(&self, what: &str, before: Wakes) -> Result<()> {
        println!(self.rt; "{what}: {}", Wakes::of(self.library).since(before))?;
        Ok(())
    }

    /// Makes these calls, and prints whom each wakes.
    fn make_all(&mut self, calls: &[Named]) -> Result<()> {
        for (name, call) in calls {
            let before = Wakes::of(self.library);
            self.single.make_all(&mut self.board, &[*call])?;
            self.show(name, before)?;
        }
        Ok(())
    }

    /// All of the scene.
    fn play(&mut self) -> Result<()> {
        self.make_all(&WORKING)?;
        let before = Wakes::of(self.library);
        self.library.stop_workers(self.rt);
        self.show("the workers are asked to stop", before)?;
        self.make_all(&STOPPING)?;
        let before = Wakes::of(self.library);
        self.library.enter(self.board.caller);
        self.show("a worker begins", before)?;
        self.make_all(&LOOKING_AGAIN)?;
        let before = Wakes::of(self.library);
        self.library.leave(self.rt, self.board.caller);
        self.show("it leaves", before)?;
        self.make_all(&LEFT)
    }
}

/// Somebody waits for a worker's part. What is given keeps the place where it would be woken.
fn waiting<L: Naming, R: Wait>(
    rt: &R,
    alloc: Global,
    library: &Shared<L>,
    part: WorkerPart,
) -> Result<Parker> {
    let parker = Parker::new(alloc)?;
    library.watch_part(rt, part, parker.unparker().clone()?)?;
    Ok(parker)
}

/// The scene, by a caller of this library.
fn play_in<L: Naming, R: Wait + Print>(
    rt: &R,
    alloc: Global,
    library: &Shared<L>,
    caller: &mut Caller<L>,
) -> Result<()> {
    let _controller = waiting(rt, alloc, library, WorkerPart::Controller)?;
    let _events = waiting(rt, alloc, library, WorkerPart::Events)?;
    let mut watched = Watched {
        rt,
        library,
        board: Board::new(rt, library, caller),
        single: Single::new(alloc)?,
    };
    watched.play()
}

/// The same, in a library that is made of this.
fn play_over<L: Naming, R: Wait + Print>(
    rt: &R,
    alloc: Global,
    opening: Opening<TableDevice>,
) -> Result<()>
    requires name { opening.name ≡ L.name }
    requires parts { (L.parts ≡ 1025) × (opening.parts ≡ L.parts) }
    requires table { opening.table ≡ L.table }
    requires setup { opening.setup ≡ L.setup }
{
    let library = Library::new(alloc, opening)?;
    let mut caller = library.caller(rt)?;
    play_in::<L, R>(rt, alloc, &library, &mut caller)
}

/// Plays the scene, and prints whom each call woke.
pub fn play_woken<R: Wait + Print>(rt: &R, alloc: Global) -> Result<()> {
    println!(rt;
        "who is woken: by each call, before the workers are asked to stop, behind that, and by a worker"
    )?;
    play_over::<Brand, R>(rt, alloc, opening(alloc, 1, &SIZES)?)
}
