//! What is proved of the definitions in specs/. Each is the contract of a function with an empty body.

ghost use Rattle.std.specs.Prelude.{ℕ, ◌≤◌, length};
ghost use Rattle.usb_model.specs.Setup.{Setup};
ghost use Rattle.refine_world.specs.Calls.{StepsWhole};
ghost use Rattle.refine_world.specs.Known.{FewPlaces, NeverStray, NotYetCalled, NumbersOnce, OrdersFit};
ghost use Rattle.refine_world.specs.Lively.{IsFine, ends_of};
ghost use Rattle.refine_world.specs.Laws.{FewEverywhere, FewUnderWay, FreshWhileRunning, LivelyAll, NearEverywhere, ReadsSoFar, StepsOfCore, AcceptsAsks, AcceptsSubmissions, CarriesOrders, DeliversFinished, DeliversPaused, DeliversSettled, FewAtEndpoint, KeepsOrder, ReadsBack, ServesPackets};

/// The residual of an event gives the bytes moved, over all TRBs of the transfer.
pub fn reads_back()
    ensures { ReadsBack }
{}

/// The event of a transfer's end finds its item by the pointer, and handling it leaves what the definitions leave.
pub fn finished()
    ensures { DeliversFinished }
{}

/// So does that of a pause.
pub fn paused()
    ensures { DeliversPaused }
{}

/// A completion is that of the endpoint's errand; withdrawals have the bytes that the pause told.
pub fn settled()
    ensures { DeliversSettled }
{}

/// A packet at the place where the controller stands is one of the first waiting transfer.
pub fn served()
    ensures { ServesPackets }
{}

/// An order that is carried out tells what the definitions tell, and leaves the controller at the first transfer that waits.
pub fn carried()
    ensures { CarriesOrders }
{}

/// A submission's TRBs join behind the others.
pub fn submitted()
    ensures { AcceptsSubmissions }
{}

/// An ask orders Stop where there is no errand.
pub fn asked()
    ensures { AcceptsAsks }
{}

/// At most 18 events and one order wait for an endpoint.
pub fn few()
    ensures { FewAtEndpoint }
{}

/// What more is known of a reachable world's endpoints is kept by each kind of work.
pub fn ordered()
    ensures { (size : ℕ) → KeepsOrder size }
{}

/// Each endpoint of a reachable world is orderly.
pub fn lively()
    ensures { (setup : Setup) → IsFine setup → LivelyAll setup }
{}

/// The whole core: new, and Serve, Command, Deliver, Take and Unplug.
pub fn stepped()
    ensures { (setup : Setup) → IsFine setup → StepsOfCore setup }
{}

/// What waits in the two rings is bounded.
pub fn bounded()
    ensures { (setup : Setup) → IsFine setup → FewEverywhere setup }
{}

/// The whole core, every step: the calls with their refusals too.
pub fn stepped_whole()
    ensures { (setup : Setup) → IsFine setup → StepsWhole setup }
{}

/// A running endpoint's controller stands at the line's end, or in a transfer in progress.
pub fn fresh_running()
    ensures { (setup : Setup) → IsFine setup → FreshWhileRunning setup }
{}

/// Of the transfer there no more bytes were read than moved.
pub fn reads_so_far()
    ensures { (setup : Setup) → IsFine setup → ReadsSoFar setup }
{}

/// No more orders and completions are under way than there are endpoints.
pub fn few_under_way()
    ensures { (setup : Setup) → IsFine setup → FewUnderWay setup }
{}

/// Of a ring at most 80 places are in use by a line, and at most 5 before it.
pub fn near()
    ensures { (setup : Setup) → IsFine setup → NearEverywhere setup }
{}

/// No event is stray. An index of the command ring names one errand where there are no more endpoints than the ring has orders.
pub fn never_stray()
    ensures { (setup : Setup) → IsFine setup → length (ends_of setup) ≤ 255 → NeverStray setup }
{}

/// The first order is that of its endpoint's errand, and stands so many places before the next as orders wait.
pub fn orders_fit()
    ensures { (setup : Setup) → IsFine setup → OrdersFit setup }
{}

/// A number names one transfer in progress of its endpoint.
pub fn numbers_once()
    ensures { (setup : Setup) → IsFine setup → NumbersOnce setup }
{}

/// The transfer of a result that waits is not in its callback.
pub fn not_yet_called()
    ensures { (setup : Setup) → IsFine setup → NotYetCalled setup }
{}

/// A line has at most 16 transfers; those in progress and the results that wait are at most 16 together.
pub fn few_places()
    ensures { (setup : Setup) → IsFine setup → FewPlaces setup }
{}
