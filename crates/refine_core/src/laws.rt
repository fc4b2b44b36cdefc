//! What is proved of the definitions in specs/. Each is the contract of a function with an empty body.

ghost use Rattle.refine_core.specs.Feeds.{FeedsFeedable, FeedsOnlyFeedable, FeedsWorlds};
ghost use Rattle.refine_core.specs.Offers.{OffersNext};
ghost use Rattle.refine_core.specs.Laws.{AsksTransfers, FinishesTransfers, JoinsSteps, LeavesBlanks, MovesPackets, OrdersErrands, PausesTransfers, ResumesEndpoints, RunsWorlds, ServesSafely, SkimsPackets, SkimsSafely, StartsTransfers, TurnsWorlds, WithdrawsTransfers};

/// An errand that is ordered is ordered in the core.
pub fn posts<P>()
    ensures { OrdersErrands P }
{}

/// An endpoint that goes on goes on in the core.
pub fn resumes<P>()
    ensures { ResumesEndpoints P }
{}

/// Blanks that leave a line leave the core's.
pub fn leaves<P>()
    ensures { LeavesBlanks P }
{}

/// A transfer that is withdrawn is withdrawn in the core, and its result is made.
pub fn withdraws<P>()
    ensures { WithdrawsTransfers P }
{}

/// A transfer that ended leaves the core's line, and its result is made.
pub fn finishes<P>()
    ensures { FinishesTransfers P }
{}

/// What is told of a pause is told in the core.
pub fn pauses<P>()
    ensures { PausesTransfers P }
{}

/// An ask that a transfer end is kept in the core.
pub fn asks<P>()
    ensures { AsksTransfers P }
{}

/// A transfer that is accepted joins the core's line.
pub fn starts<P>()
    ensures { StartsTransfers P }
{}

/// Of the item where the controller works one packet can be served: there is room for it, or there are bytes.
pub fn can_serve<P>()
    ensures { ServesSafely P }
{}

/// A packet is the core's: what is told of it, and what it leaves.
pub fn moves<P>()
    ensures { MovesPackets P }
{}

/// A step that is the core's is the world's, and leaves parts that show a world.
pub fn turns<P>()
    ensures { TurnsWorlds P }
{}

/// Steps that are the core's, and steps behind them, are the core's together.
pub fn joins<P>()
    ensures { JoinsSteps P }
{}

/// Whole packets in a row are the core's: of each what is told, and what the last leaves.
pub fn skims<P>()
    ensures { SkimsPackets P }
{}

/// Of the item where the controller works whole packets in a row can be served: there is room for them, or there are bytes.
pub fn can_skim<P>()
    ensures { SkimsSafely P }
{}

/// Steps that are the core's are the world's, one behind another, and leave parts that show a world.
pub fn runs<P>()
    ensures { RunsWorlds P }
{}

/// Parts that are fed show the world where more is left.
pub fn feeds<P>()
    ensures { FeedsWorlds P }
{}

/// An endpoint where transfers can go may have each answer of its direction that isn't too long, until its script is full.
pub fn feeds_feedable<P>()
    ensures { FeedsFeedable P }
{}

/// No endpoint may have another one.
pub fn feeds_only_feedable<P>()
    ensures { FeedsOnlyFeedable P }
{}

/// What the controller makes next of a transfer is the packet that is next in the world.
pub fn offers<P>()
    ensures { OffersNext P }
{}
