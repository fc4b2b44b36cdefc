//! What the bad lines of a text are to its scenario, and what every scenario is. A law is the contract of a function with
//! an empty body.

ghost use Rattle.std.specs.Prelude.{◌≡◌, ◌∷◌, [], ℕ, List, Ok, Err};
ghost use Rattle.trace_scenario.specs.Feeds.{IsFedAlone, IsFedLater};
ghost use Rattle.trace_scenario.specs.Findings.{bad_lines, good_lines};
ghost use Rattle.trace_scenario.specs.Runnable.{IsRunnable};
ghost use Rattle.trace_scenario.specs.Scenario.{scenario_of};
ghost use Rattle.trace_scenario.specs.declared.scenario.Scenario.{Scenario};

/// A text has no bad line exactly where it is that of a scenario, which then is what its good lines say; and where it is
/// none, the line that is named is its first bad one.
pub fn bad_lines()
    ensures none { (text : List ℕ) → bad_lines text ≡ [] → scenario_of text ≡ Ok (good_lines text) }
    ensures scenario { (text : List ℕ) (s : Scenario) → scenario_of text ≡ Ok s → bad_lines text ≡ [] }
    ensures first { (text : List ℕ) (line : ℕ) → scenario_of text ≡ Err line
        → (others : List ℕ) × (bad_lines text ≡ line ∷ others) }
{}

/// The scenario of a text can be run by any program: it has four devices at most, each of which can be made, and a plan
/// that says no verdict itself, with a rule for each of its submissions that says what its callback answers.
pub fn scenarios()
    ensures { (text : List ℕ) (s : Scenario) → scenario_of text ≡ Ok s → IsRunnable s }
{}

/// Answers that a line feeds are as if they had stood in the script from the beginning, wherever the line stands: the text says the same
/// scenario, or has the same first bad line, as the text where they stand at the end of the endpoint's script line; and where the
/// endpoint has no such line, as the text where they are its script, right behind its device. An empty line stands in the place of the
/// other, so that lines have the same numbers.
pub fn feeds()
    ensures later { (text other : List ℕ) → IsFedLater text other → scenario_of text ≡ scenario_of other }
    ensures alone { (text other : List ℕ) → IsFedAlone text other → scenario_of text ≡ scenario_of other }
{}
