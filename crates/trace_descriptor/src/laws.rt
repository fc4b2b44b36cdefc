//! What the text is to a scenario. A law is the contract of a function with an empty body.

ghost use Rattle.trace_descriptor.specs.Laws.{TextsAreScenarios};

/// The text that `device_lines` gives is that of a scenario, but for the lines that begin with `ids ` or `class `: its one device has
/// the configuration that the taken bytes say, and its plan is empty.
pub fn texts()
    ensures { TextsAreScenarios }
{}
