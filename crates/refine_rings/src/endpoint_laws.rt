//! What is proved of the definitions in specs/. Each is the contract of a function with an empty body.

ghost use Rattle.refine_rings.specs.EndpointLaws.{BlanksKept, CarriesKept, DropsKept, FindsKept, KeepsKept, MadeKept, PushesKept, RingsKept, ServesKept};

/// A packet that the controller moves is the kept endpoint's: reply, event, state, bytes.
pub fn serves()
    ensures { ServesKept }
{}

/// So is an order that it carries out.
pub fn carries()
    ensures { CarriesKept }
{}

/// A transfer's TRBs join the line.
pub fn pushes()
    ensures { PushesKept }
{}

/// The No Ops of a withdrawn transfer stand in its place.
pub fn blanks()
    ensures { BlanksKept }
{}

/// The first items leave.
pub fn drops()
    ensures { DropsKept }
{}

/// The doorbell makes a stopped endpoint run.
pub fn rings()
    ensures { RingsKept }
{}

/// An endpoint that is made new is a new one.
pub fn made()
    ensures { MadeKept }
{}

/// What changes no TRB changes nothing for the controller.
pub fn keeps()
    ensures { KeepsKept }
{}

/// An item is found by the address of its place.
pub fn finds()
    ensures { FindsKept }
{}
