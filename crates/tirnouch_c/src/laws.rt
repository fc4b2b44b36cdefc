//! What holds of a session by any calls in a row. It is the contract of a function with an empty body.

ghost use Rattle.tirnouch_c.specs.Living.{FedSessionsAreAsIfKnown};

/// A session whose devices are fed, each packet of which had an answer, is as if their scripts had been known from the start.
pub fn fed_sessions()
    ensures { FedSessionsAreAsIfKnown }
{}
