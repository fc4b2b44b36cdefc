//! What is told of a run.

ghost use Rattle.std.specs.Prelude.{◌≡◌};
ghost use Rattle.trace_explain.specs.Explained.{is_told};

use crate::Reason;

/// What is told of a run: which entries, and what stands below them.
#[derive(Clone, Copy, PartialEq, Eq, Debug)]
pub enum Telling {
    /// Each entry behind its line, with its reason.
    Reasons,
    /// The same of those lines alone whose first step is refused.
    Refusals,
    /// Each entry, with the packets that its step moved.
    Packets,
    /// The same, each entry behind its line.
    StepPackets,
}

impl Telling {
    /// Whether a piece is told whose first step has this reason.
    pub(crate) fn tells(self, reason: &Option<Reason>) -> bool
        ensures { result ≡ is_told self reason.now }
    {
        match self {
            Telling::Refusals => matches!(
                reason,
                Some(Reason::Refused(_) | Reason::UnplugRefused(_))
            ),
            Telling::Reasons | Telling::Packets | Telling::StepPackets => true,
        }
    }
}
