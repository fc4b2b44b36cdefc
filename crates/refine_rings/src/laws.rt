//! What is proved of the definitions in specs/. Each is the contract of a function with an empty body.

ghost use Rattle.refine_rings.specs.Feeds.{FeedsCore};
ghost use Rattle.refine_rings.specs.Laws.{AddsSlot, HostsAll, IsFineRead, IsOfHeld, IsLawfulByScripts, MakesCore, PostsCore, RunsCore, ServesCore, TakesCore, UnplugsCore};

/// The slot of a device as it is added is one of its configuration.
pub fn adds()
    ensures { AddsSlot }
{}

/// A controller of a setup's devices holds a new core once it is made new.
pub fn made()
    ensures { MakesCore }
{}

/// A controller that holds a core is of that core's setup, with its scripts.
pub fn is_of()
    ensures { IsOfHeld }
{}

/// A setup of configurations that were read, and of devices that keep the law, is fine, with plain addresses that have numbers.
pub fn fine()
    ensures { IsFineRead }
{}

/// What a device promises of its endpoints' scripts.
pub fn lawful()
    ensures { IsLawfulByScripts }
{}

/// A packet at an endpoint that is held is the core's: what is told of it, its event, and what is left.
pub fn serves()
    ensures { ServesCore }
{}

/// The oldest order is the core's, and so are its code, its events, and what it leaves.
pub fn runs()
    ensures { RunsCore }
{}

/// An order that is posted is the core's last.
pub fn posts()
    ensures { PostsCore }
{}

/// The oldest event that is taken is the core's.
pub fn takes()
    ensures { TakesCore }
{}

/// The host's work at an endpoint leaves the controller with the core's endpoint.
pub fn hosts()
    ensures { HostsAll }
{}

/// A device that is gone is gone for both.
pub fn unplugs()
    ensures { UnplugsCore }
{}

/// A controller that is fed holds the core where more is left.
pub fn feeds()
    ensures { FeedsCore }
{}
