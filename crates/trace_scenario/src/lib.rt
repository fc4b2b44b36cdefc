//! Scenarios as text, in the form that docs/FORMATS.md gives: what a line says (a device, a script, answers behind one, a
//! submission with its options, or another piece of a plan), and the whole. What words say of devices is `usb_scripttext`'s.
//!
//! The one promise: what `Line::from_text` gives is what the definition `line_of_text` makes of the text, what
//! `read_scenario` gives is what `scenario_of` makes of it, and the lines that `check` finds bad are those that
//! `bad_lines` names.
//!
//! # Files
//!
//! - `handles.rt`, `names.rt`, `option.rt`: handles, and the numbers of transfers; sets of names; the options of a submission
//! - `verb.rt`, `line.rt`: first words; one line
//! - `submit.rt`, `step.rt`: the lines of submissions, of other pieces of a plan
//! - `expectations.rt`: what the lines of a text expect of the packets that devices take
//! - `sentence.rt`, `slip.rt`: what is wrong with a line, in a sentence; slips of editors and other notations
//! - `draft.rt`, `scenario.rt`: what the lines so far say; a scenario
//! - `lined.rt`, specs/StepLines: a scenario with the line of each piece of its plan, and of each device
//! - `described.rt`, specs/DeviceLines: a device's line, with the bytes of its configuration
//! - `findings.rt`: the bad lines of a text, and how much the others say
//! - `culprit.rt`, `shown.rt`, `near.rt`: the word that a problem is about; how it is shown; words that are almost another
//! - `laws.rt`: a text has no bad line exactly where it is that of a scenario, and each scenario can be run; answers that are fed
//!   are as if they had stood in the script
//! - specs/Feeds: texts in which answers stand in a line of their own, and in the script
//! - specs/Runnable: what a program needs of a scenario to run it: devices that can be made, a plan without verdicts,
//!   a rule for each submission
//! - proofs/ Lines, Runnables, Feeds: what a line that is taken always says; that each leaves a scenario runnable; that answers may stand
//!   before the lines that leave their endpoint alone
//!
//! # Contracts
//!
//! - handles, names between plus signs, options in their order: taken exactly where they are what specs/Handle, Names and
//!   Option say
//! - `trace_scenario::Line::from_text`: the line of the text as specs/Line says, or that it is bad. Want of memory
//!   leaves both open
//! - `read_scenario`: the scenario that the lines say together (`scenario_of`), or the number of the first bad line;
//!   what it gives can be run (`IsRunnable`). Want of memory leaves both open
//! - `read_lined`: the same with the line of each piece of the plan: its number and its bytes (`step_lines`), as many
//!   lines as pieces; and the line of each device: its number and the bytes of its configuration (`device_lines`)
//! - `read_expected`: what the lines of a text expect of packets that are taken (`expected_of`), one for each line
//!   `script` or `feed`, with an entry for each answer that takes a packet, as often as the answer stands; none for what `..`
//!   adds. Want of memory leaves it open. The scenario of a text is the same, whatever is expected
//! - `check`: the numbers of the bad lines, each line judged by what the good ones before it say, and the counts of
//!   what the good ones say
//! - `laws::bad_lines`: a text has no bad line exactly where it is that of a scenario; where it is none, the line
//!   that `read_scenario` names is the first of them
//! - `laws::feeds`: a text with a line that feeds answers (`IsFedLater`, `IsFedAlone`) says the same scenario, or has the same first bad
//!   line, as the text in which they stand in the endpoint's script, with an empty line in the place of the other
//! - `laws::scenarios`: the scenario of any text is runnable (`IsRunnable`): it has four devices at most; each has 32
//!   scripts, by endpoint id, that a `TableDevice` of its configuration may have (none longer than 65,536 answers, no
//!   packet over 2,048 bytes, each answer of its endpoint's direction, none where there is no endpoint); its plan
//!   says no verdict itself; and it has a rule for each submission, none of which is Free
#![tactic(auto)]

mod culprit;
mod described;
mod draft;
mod expectations;
mod findings;
mod handles;
pub mod laws;
mod line;
mod lined;
mod names;
mod near;
mod option;
mod scenario;
mod sentence;
mod shown;
mod slip;
mod step;
mod submit;
mod verb;

pub use described::DescribedDevice;
pub use expectations::{ExpectedPackets, read_expected};
pub use findings::{Counts, Finding, Findings, check};
pub use handles::handle;
pub use line::Line;
pub use lined::{Lined, NumberedLine, read_lined};
pub use option::Options;
pub use scenario::{Scenario, read_scenario};
pub use shown::ShownWord;
pub use slip::Slip;
pub use verb::Verb;
