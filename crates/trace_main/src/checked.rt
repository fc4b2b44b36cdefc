//! What is wrong with a scenario, line by line, and what its run refuses.

ghost use Rattle.std.specs.Prelude.{◌≡◌, ◌++◌, ◌∷◌, ◌≤◌, [], IfOk, length, map};
ghost use Rattle.trace_explain.specs.Explained.{explained_text};
ghost use Rattle.trace_explain.specs.declared.telling.Telling.TheVariants.{Refusals};
ghost use Rattle.trace_io.specs.Input.{longest_input};
ghost use Rattle.trace_io.specs.Output.{counts_line};
ghost use Rattle.trace_io.specs.declared.words.Task.TheVariants.{Check};
ghost use Rattle.trace_scenario.specs.Counts.{counts_of};
ghost use Rattle.trace_scenario.specs.Findings.{bad_lines, good_lines};
ghost use Rattle.trace_scenario.specs.StepLines.{numbered};
ghost use Rattle.trace_main.specs.Program.{Begins, Performs};
ghost use Rattle.trace_main.specs.Source.{IsReadFirst, Stands, text_in, told_number};

use crate::source::{Opened, Source};
use crate::told::write_all;
use std::alloc::{AllocError, Global};
use std::io::Write;
use trace_explain::{Telling, explained_run};
use trace_io::Fault;
use trace_io::print::print_findings;
use trace_run::TaskEnd;
use trace_scenario::{Counts, Finding, Findings, Lined, NumberedLine, Scenario, check};
use usb_device::into_setups;

/// Adds a bad line by this number.
fn add<'a>(told: &mut Vec<Finding<'a>>, line: u64, finding: &Finding<'a>) -> Result<(), AllocError>
    ensures { IfOk result (λ _. map (λ finding. finding.line) told.new.items ≡ map (λ finding. finding.line) told.old.items ++ line ∷ []) }
{
    let told_finding = Finding { line, ..*finding };
    match told.push(told_finding) {
        Ok(()) => Ok(()),
        Err(_) => Err(AllocError),
    }
}

/// Bad lines with the numbers by which they are told.
fn told_findings<'a>(
    alloc: Global,
    source: &Source<'_>,
    bad: &[Finding<'a>],
) -> Result<Vec<Finding<'a>>, AllocError>
    ensures { IfOk result (λ told. map (λ finding. finding.line) told.items ≡ map (told_number source.now) (map (λ finding. finding.line) bad.now)) }
{
    let mut told = Vec::new(alloc);
    for finding in bad {
        add(&mut told, source.number(finding.line), finding)?;
    }
    Ok(told)
}

/// Checks a text: prints its bad lines, and how much the good ones say; and of a text without a bad line which lines its run refuses, and why.
#[tactic(auto, using(crate::proofs::Begun::nothing_of, crate::proofs::Words::check_of, crate::proofs::Words::check_begun_of))]
pub(crate) fn report<W: Write>(alloc: Global, text: &[u8], out: &mut W) -> Result<TaskEnd, Fault>
    requires { length text.now ≤ longest_input }
    ensures ends { Performs Check text.now [] (W.contents out.old) (W.contents out.new) result }
    ensures begun { Begins Check text.now (W.contents out.old) (W.contents out.new) }
{
    let Opened { source, first } = Source::open(alloc, text)?;
    let Findings { bad, counts } = check(alloc, source.text())?;
    if bad.is_empty() {
        return report_good(alloc, &source, first, &counts, out);
    }
    let bad = told_findings(alloc, &source, bad.as_slice())?;
    print_findings(alloc, out, &Findings { bad, counts })?;
    Ok(TaskEnd::BadLines)
}

/// How much a scenario says, and which lines its run refuses. An error where memory is refused.
fn said(
    alloc: Global,
    counts: &Counts,
    scenario: Scenario,
    lines: &[NumberedLine<'_>],
) -> Result<Vec<u8>, AllocError>
    requires each { length lines.now ≡ length scenario.plan }
    ensures text { IfOk result (λ text. text.items ≡ counts_line counts.now ++ explained_text Refusals scenario.setup scenario.plan scenario.rules (map numbered lines.now)) }
{
    let Scenario { setup, plan, rules } = scenario;
    let setup = into_setups(alloc, setup)?;
    let (plan, rules) = (plan.as_slice(), rules.as_slice());
    let refused = explained_run(alloc, Telling::Refusals, &setup, plan, rules, lines)?;
    let mut text = Vec::new(alloc);
    let front = format!(in alloc; "{counts}\n")?;
    text.extend_from_slice(front.as_bytes())?;
    text.extend_from_slice(refused.as_slice())?;
    Ok(text)
}

/// Prints how much a scenario without a bad line says, and which lines its run refuses.
#[tactic(auto, using(crate::proofs::Begun::nothing_of))]
fn report_good<W: Write>(
    alloc: Global,
    source: &Source<'_>,
    first: Option<Lined<'_>>,
    counts: &Counts,
    out: &mut W,
) -> Result<TaskEnd, Fault>
    requires first { IsReadFirst source.now first }
    requires short { length source.now.given ≤ longest_input }
    requires stands { Stands source.now }
    requires good { bad_lines (text_in source.now) ≡ [] }
    requires counts { counts.now ≡ counts_of (good_lines (text_in source.now)) }
    ensures ends { Performs Check source.now.given [] (W.contents out.old) (W.contents out.new) result }
    ensures begun { Begins Check source.now.given (W.contents out.old) (W.contents out.new) }
{
    let Ok(
        Lined {
            scenario,
            lines,
            ..
        },
    ) = source.read(alloc, first)
    else {
        return Err(Fault::Memory);
    };
    let lines = source.told(alloc, lines.as_slice())?;
    let said = said(alloc, counts, scenario, lines.as_slice())?;
    write_all(out, said.as_slice())?;
    Ok(TaskEnd::Good)
}
