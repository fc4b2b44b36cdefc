//! A scenario's run as a picture, or as a page with one.

ghost use Rattle.std.specs.Prelude.{◌≡◌, ◌≤◌, [], length};
ghost use Rattle.trace_io.specs.Input.{longest_input};
ghost use Rattle.trace_io.specs.declared.words.Task.TheVariants.{Draw, Page};
ghost use Rattle.trace_main.specs.Program.{Begins, IsSilentAtBad, Performs};
ghost use Rattle.trace_main.specs.Source.{IsReadFirst, Stands};

use crate::source::{Opened, Source};
use std::alloc::Global;
use std::io::Write;
use trace_io::Fault;
use trace_picture::Form;
use trace_run::{TaskEnd, draw_run};
use trace_scenario::Lined;

/// Prints a picture of the run of a scenario, or a page with one.
#[tactic(auto, using(crate::proofs::Begun::nothing_of, crate::proofs::Words::silent_same, crate::proofs::Words::silent_of, crate::proofs::Words::picture_ends, crate::proofs::Words::picture_begun))]
fn drawn_of<W: Write>(
    alloc: Global,
    source: &Source<'_>,
    first: Option<Lined<'_>>,
    form: Form,
    from: u64,
    to: u64,
    out: &mut W,
) -> Result<TaskEnd, Fault>
    requires short { length source.now.given ≤ longest_input }
    requires stands { Stands source.now }
    requires first { IsReadFirst source.now first }
    ensures picture { Performs (Draw from to) source.now.given [] (W.contents out.old) (W.contents out.new) result }
    ensures page { Performs (Page from to) source.now.given [] (W.contents out.old) (W.contents out.new) result }
    ensures silent { IsSilentAtBad source.now.given (W.contents out.old) (W.contents out.new) }
    ensures begun { Begins (Draw from to) source.now.given (W.contents out.old) (W.contents out.new) }
    ensures begun_page { Begins (Page from to) source.now.given (W.contents out.old) (W.contents out.new) }
{
    let Lined {
        scenario,
        lines,
        ..
    } = source.read(alloc, first)?;
    let lines = source.told(alloc, lines.as_slice())?;
    draw_run(alloc, scenario, lines.as_slice(), from, to, form, out)
}

/// Prints a picture of the run of a text's scenario, or a page with one.
#[tactic(auto, using(crate::proofs::Begun::nothing_of, crate::proofs::Words::silent_same))]
pub(crate) fn drawn<W: Write>(
    alloc: Global,
    text: &[u8],
    form: Form,
    from: u64,
    to: u64,
    out: &mut W,
) -> Result<TaskEnd, Fault>
    requires { length text.now ≤ longest_input }
    ensures picture { Performs (Draw from to) text.now [] (W.contents out.old) (W.contents out.new) result }
    ensures page { Performs (Page from to) text.now [] (W.contents out.old) (W.contents out.new) result }
    ensures silent { IsSilentAtBad text.now (W.contents out.old) (W.contents out.new) }
    ensures begun { Begins (Draw from to) text.now (W.contents out.old) (W.contents out.new) }
    ensures begun_page { Begins (Page from to) text.now (W.contents out.old) (W.contents out.new) }
{
    let Opened { source, first } = Source::open(alloc, text)?;
    drawn_of(alloc, &source, first, form, from, to, out)
}
