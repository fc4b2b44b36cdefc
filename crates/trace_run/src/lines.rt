//! The entries of a run, printed as they arise.

ghost use Rattle.std.specs.Prelude.{◌≡◌, ◌≢◌, ◌++◌, true, false, length, map, is_some, IfErr, IfOk, OnErr, OnOk};
ghost use Rattle.std.specs.Io.KnownBytes.{Appends};
ghost use Rattle.std.specs.List.{AllByRecursion, count_by};
ghost use Rattle.std.specs.Vec.Iter.{into_iter_items};
ghost use Rattle.usb_model.specs.declared.verdict.Rule.TheVariants.{Free};
ghost use Rattle.usb_model.specs.Text.{lines_text};
ghost use Rattle.usb_model.specs.World.Plans.{is_submission};
ghost use Rattle.usb_core.specs.Public.{setup_of};
ghost use Rattle.usb_plans.specs.Alone.{AreLeft, Begins, CanStartBoth};
ghost use Rattle.usb_plans.specs.PlanRuns.{entries_of, is_verdict};
ghost use Rattle.trace_io.specs.Faults.{IsOfRun};
ghost use Rattle.trace_io.specs.Output.{AppendsAllBut, AppendsSome};
ghost use Rattle.trace_run.specs.Printed.{BeginsFrom, BeginsOwn, BeginsOwnPiece, BeginsPiece, CanStart, PrintsFrom, PrintsOwn, PrintsOwnPiece, PrintsPiece, PrintsTo, own_entries, plan_entries};

use std::alloc::{AllocError, Global};
use std::io::Write;
use std::vec::IntoIter;
use trace_io::{Fault, Lines};
use usb_core::{Callback, Setup};
use usb_device::Device;
use usb_model::{Name, Plan, Sequence};
use usb_plans::{Performed, PlanRun, Twins, next_callback};

/// How far a run comes.
#[derive(Clone, Copy, PartialEq, Eq, Debug)]
pub enum Reach {
    /// To its end.
    End,
    /// To a step that finds no memory.
    NoMemory,
}

/// What a run over a core is made of.
#[derive(Drop)]
pub struct Parts<C: Callback, D: Device> {
    /// The devices.
    pub setup: Setup<D>,
    /// A callback for each submission, in order.
    pub callbacks: Vec<C>,
}

/// Two runs side by side, one for either parts.
fn both_runs<C: Callback, D: Device>(
    alloc: Global,
    parts: Parts<C, D>,
    other_parts: Parts<C, D>,
) -> Result<Twins<C, D>, AllocError>
    ensures { IfOk result (λ twins. Begins C.rule (setup_of parts.setup) (setup_of other_parts.setup) parts.callbacks.items other_parts.callbacks.items twins) }
{
    let Parts { setup, callbacks } = parts;
    let other = other_parts;
    Twins::new(alloc, setup, other.setup, callbacks, other.callbacks)
}

/// Puts the lines of a piece's entries behind the others: one, or two where a resubmission was refused.
fn put_performed<C, W: Write>(
    lines: &mut Lines,
    out: &mut W,
    performed: &Performed<C>,
) -> Result<(), Fault>
    ensures lines { OnOk result (AppendsAllBut (lines.old ++ lines_text (entries_of performed.now)) lines.new (W.contents out.old) (W.contents out.new)) }
    ensures begun { OnErr result (AppendsSome (lines.old ++ lines_text (entries_of performed.now)) (W.contents out.old) (W.contents out.new)) }
    ensures fault { IfErr result (λ fault. IsOfRun fault) }
{
    lines.put(out, &performed.entry)?;
    match &performed.stop {
        None => Ok(()),
        Some(stop) => lines.put(out, stop),
    }
}

/// Performs a piece of a plan, and puts its lines behind the others. Nothing is put where memory is refused.
fn print_piece<C: Callback, D: Device, W: Write>(
    run: &mut PlanRun<C, D>,
    piece: Plan,
    callback: Option<C>,
    lines: &mut Lines,
    out: &mut W,
) -> Result<Reach, Fault>
    requires submits { is_submission piece ≡ true → is_some callback ≡ true }
    requires no_verdict { is_verdict piece ≡ false }
    ensures printed { IfOk result (λ reach. PrintsPiece C.rule lines_text reach run.old piece callback run.new lines.old lines.new (W.contents out.old) (W.contents out.new)) }
    ensures begun { OnErr result (BeginsPiece C.rule lines_text run.old piece callback run.new lines.old (W.contents out.old) (W.contents out.new)) }
    ensures fault { IfErr result (λ fault. IsOfRun fault) }
{
    match run.perform(piece, callback) {
        Err(_) => Ok(Reach::NoMemory),
        Ok(performed) => {
            put_performed(lines, out, &performed)?;
            Ok(Reach::End)
        }
    }
}

/// Performs a piece of a plan by both runs, and puts the lines of what came of it alone behind the others; none where
/// it isn't the handle's own. Nothing is put where memory is refused.
fn print_own_piece<C: Callback, D: Device, W: Write>(
    twins: &mut Twins<C, D>,
    h: Name,
    piece: &Plan,
    lines: &mut Lines,
    out: &mut W,
) -> Result<Reach, Fault>
    requires submits { is_submission piece.now ≡ true → AreLeft twins.old }
    requires no_verdict { is_verdict piece.now ≡ false }
    ensures printed { IfOk result (λ reach. PrintsOwnPiece C.rule reach h twins.old piece.now twins.new lines.old lines.new (W.contents out.old) (W.contents out.new)) }
    ensures begun { OnErr result (BeginsOwnPiece C.rule h twins.old piece.now twins.new lines.old (W.contents out.old) (W.contents out.new)) }
    ensures fault { IfErr result (λ fault. IsOfRun fault) }
{
    match twins.advance(h, piece) {
        Err(_) => Ok(Reach::NoMemory),
        Ok(None) => Ok(Reach::End),
        Ok(Some(told)) => {
            put_performed(lines, out, &told.alone)?;
            Ok(Reach::End)
        }
    }
}

/// Writes the lines that were gathered, where a run came so far.
pub fn write_rest<W: Write>(lines: Lines, out: &mut W, reach: Reach) -> Result<Reach, Fault>
    ensures reach { IfOk result (λ r. r ≡ reach) }
    ensures written { OnOk result (Appends (W.contents out.old) (W.contents out.new) lines) }
    ensures begun { AppendsSome lines (W.contents out.old) (W.contents out.new) }
    ensures fault { IfErr result (λ fault. IsOfRun fault) }
{
    lines.end(out)?;
    Ok(reach)
}

/// Performs the pieces of a plan that stands at its beginning, and prints their entries as far as the run comes.
fn print_run<C: Callback, D: Device, W: Write>(
    alloc: Global,
    run: &mut PlanRun<C, D>,
    left: &mut IntoIter<C>,
    plan: Sequence<Plan>,
    out: &mut W,
) -> Result<Reach, Fault>
    requires { CanStart C.rule plan run.old (into_iter_items left.old) }
    ensures lines { IfOk result (λ reach. PrintsFrom C.rule reach plan run.old (into_iter_items left.old) (W.contents out.old) (W.contents out.new)) }
    ensures begun { BeginsFrom C.rule plan run.old (into_iter_items left.old) (W.contents out.old) (W.contents out.new) }
    ensures fault { IfErr result (λ fault. IsOfRun fault) }
{
    let mut lines = Lines::new(alloc);
    for piece in plan.into_vec() {
        let callback = next_callback(&piece, left);
        match print_piece(run, piece, callback, &mut lines, out)? {
            Reach::End => {}
            Reach::NoMemory => return write_rest(lines, out, Reach::NoMemory),
        }
    }
    write_rest(lines, out, Reach::End)
}

/// Performs the pieces of a plan by two runs that stand at its beginning, and prints the entries of the handle's own
/// run as far as they come.
fn print_twins<C: Callback, D: Device, W: Write>(
    alloc: Global,
    twins: &mut Twins<C, D>,
    h: Name,
    plan: &[Plan],
    out: &mut W,
) -> Result<Reach, Fault>
    requires { CanStartBoth C.rule plan.now twins.old }
    ensures lines { IfOk result (λ reach. PrintsOwn C.rule reach plan.now h twins.old (W.contents out.old) (W.contents out.new)) }
    ensures begun { BeginsOwn C.rule plan.now h twins.old (W.contents out.old) (W.contents out.new) }
    ensures fault { IfErr result (λ fault. IsOfRun fault) }
{
    let mut lines = Lines::new(alloc);
    for piece in plan {
        match print_own_piece(twins, h, piece, &mut lines, out)? {
            Reach::End => {}
            Reach::NoMemory => return write_rest(lines, out, Reach::NoMemory),
        }
    }
    write_rest(lines, out, Reach::End)
}

/// Prints the entries of a plan as far as its run over the core comes. Each line is gathered as its step is made, and
/// no entry is kept.
pub fn print_plan<C: Callback, D: Device, W: Write>(
    alloc: Global,
    parts: Parts<C, D>,
    plan: Sequence<Plan>,
    out: &mut W,
) -> Result<Reach, Fault>
    requires callbacks { length parts.callbacks.items ≡ count_by is_submission plan }
    requires not_free { AllByRecursion (λ rule. rule ≢ Free) (map C.rule parts.callbacks.items) }
    requires no_verdict { AllByRecursion (λ piece. is_verdict piece ≡ false) plan }
    ensures lines { IfOk result (λ reach. PrintsTo reach (plan_entries (setup_of parts.setup) plan (map C.rule parts.callbacks.items)) (W.contents out.old) (W.contents out.new)) }
    ensures begun { AppendsSome (lines_text (plan_entries (setup_of parts.setup) plan (map C.rule parts.callbacks.items))) (W.contents out.old) (W.contents out.new) }
    ensures fault { IfErr result (λ fault. IsOfRun fault) }
{
    let Parts { setup, callbacks } = parts;
    let mut run = PlanRun::new(alloc, setup)?;
    let mut left = callbacks.into_iter();
    print_run(alloc, &mut run, &mut left, plan, out)
}

/// Prints a handle's entries alone over its own pieces of a plan, as far as two runs over cores come: one amid the
/// others, which says what is the handle's own, and that of the handle. Each has parts of its own.
pub fn print_alone<C: Callback, D: Device, W: Write>(
    alloc: Global,
    parts: Parts<C, D>,
    other_parts: Parts<C, D>,
    plan: &[Plan],
    h: Name,
    out: &mut W,
) -> Result<Reach, Fault>
    requires same_devices { setup_of other_parts.setup ≡ setup_of parts.setup }
    requires callbacks { length parts.callbacks.items ≡ count_by is_submission plan.now }
    requires same_rules { map C.rule other_parts.callbacks.items ≡ map C.rule parts.callbacks.items }
    requires not_free { AllByRecursion (λ rule. rule ≢ Free) (map C.rule parts.callbacks.items) }
    requires no_verdict { AllByRecursion (λ piece. is_verdict piece ≡ false) plan.now }
    ensures lines { IfOk result (λ reach. PrintsTo reach (own_entries (setup_of parts.setup) plan.now (map C.rule parts.callbacks.items) h) (W.contents out.old) (W.contents out.new)) }
    ensures begun { AppendsSome (lines_text (own_entries (setup_of parts.setup) plan.now (map C.rule parts.callbacks.items) h)) (W.contents out.old) (W.contents out.new) }
    ensures fault { IfErr result (λ fault. IsOfRun fault) }
{
    let mut twins = both_runs(alloc, parts, other_parts)?;
    print_twins(alloc, &mut twins, h, plan, out)
}
