//! A run, written as a capture of usbmon.

ghost use Rattle.std.specs.Prelude.{◌≡◌, ◌≢◌, ◌++◌, true, false, length, map, is_some, IfErr, IfOk, OnErr, OnOk};
ghost use Rattle.std.specs.List.{AllByRecursion, count_by};
ghost use Rattle.std.specs.Vec.Iter.{into_iter_items};
ghost use Rattle.usb_model.specs.declared.verdict.Rule.TheVariants.{Free};
ghost use Rattle.usb_model.specs.World.Plans.{is_submission};
ghost use Rattle.usb_core.specs.Public.{setup_of};
ghost use Rattle.usb_plans.specs.PlanRuns.{entries_of, is_verdict};
ghost use Rattle.trace_capture.specs.Control.{device_events};
ghost use Rattle.trace_capture.specs.Event.{events_bytes, file_bytes};
ghost use Rattle.trace_capture.specs.Events.{device_after, devices_after, entry_after, entry_events};
ghost use Rattle.trace_io.specs.Faults.{IsOfRun};
ghost use Rattle.trace_io.specs.Output.{AppendsAllBut, AppendsSome};
ghost use Rattle.trace_scenario.specs.StepLines.{numbered};
ghost use Rattle.trace_run.specs.Printed.{CanStart};
ghost use Rattle.trace_run.specs.Capture.{device_line, devices_events, plan_events, told_after, told_events, told_step, BeginsCapture, BeginsCapturedPiece, CapturesFrom, CapturesPiece, PrintsFile, PutsRecords};

use crate::lines::{Parts, Reach, write_rest};
use std::alloc::{AllocError, Global};
use std::io::Write;
use std::vec::IntoIter;
use trace_capture::{CaptureRecorder, append_all, file_header};
use trace_io::{Fault, Lines};
use trace_scenario::{DescribedDevice, NumberedLine};
use usb_core::Callback;
use usb_device::Device;
use usb_model::{Entry, Plan, Sequence, Step, Verdict};
use usb_plans::{Performed, PlanRun, next_callback};

/// Puts the records of a device's line behind the bytes.
fn add_device(
    recorder: &mut CaptureRecorder,
    bytes: &mut Vec<u8>,
    described: &DescribedDevice,
) -> Result<(), AllocError>
    ensures records { OnOk result (bytes.new.items ≡ bytes.old.items ++ events_bytes (device_events described.now.line described.now.device described.now.descriptor)) }
    ensures after { OnOk result (recorder.new ≡ device_after recorder.old described.now.device described.now.descriptor) }
{
    let DescribedDevice {
        line,
        device,
        descriptor,
    } = described;
    let events = recorder.device(*line, *device, descriptor.as_slice())?;
    append_all(events.as_slice(), bytes)
}

/// The file header, and the records of the devices' lines.
fn front_of(
    alloc: Global,
    recorder: &mut CaptureRecorder,
    devices: &[DescribedDevice],
) -> Result<Vec<u8>, AllocError>
    ensures bytes { IfOk result (λ bytes. bytes.items ≡ file_bytes (devices_events (map device_line devices.now))) }
    ensures after { OnOk result (recorder.new ≡ devices_after recorder.old (map device_line devices.now)) }
{
    let mut bytes = Vec::from_slice(alloc, &file_header())?;
    for described in devices {
        add_device(recorder, &mut bytes, described)?;
    }
    Ok(bytes)
}

/// Puts the file header and the records of the devices' lines behind the others. Behind an error a beginning of all is
/// written.
fn put_front<W: Write>(
    alloc: Global,
    recorder: &mut CaptureRecorder,
    devices: &[DescribedDevice],
    lines: &mut Lines,
    out: &mut W,
) -> Result<(), Fault>
    ensures put { OnOk result (AppendsAllBut (lines.old ++ file_bytes (devices_events (map device_line devices.now))) lines.new (W.contents out.old) (W.contents out.new)) }
    ensures after { OnOk result (recorder.new ≡ devices_after recorder.old (map device_line devices.now)) }
    ensures begun { OnErr result (AppendsSome (lines.old ++ file_bytes (devices_events (map device_line devices.now))) (W.contents out.old) (W.contents out.new)) }
    ensures fault { IfErr result (λ fault. IsOfRun fault) }
{
    let front = front_of(alloc, recorder, devices)?;
    lines.put_text(out, front.as_slice())
}

/// Puts the records of an entry behind the bytes.
fn add_entry(
    recorder: &mut CaptureRecorder,
    bytes: &mut Vec<u8>,
    line: u64,
    step: &Step,
    entry: &Entry,
) -> Result<(), AllocError>
    ensures records { OnOk result (bytes.new.items ≡ bytes.old.items ++ events_bytes (entry_events recorder.old line step.now entry.now)) }
    ensures after { OnOk result (recorder.new ≡ entry_after recorder.old step.now entry.now) }
{
    let events = recorder.entry(line, step, entry)?;
    append_all(events.as_slice(), bytes)
}

/// The records of what came of a piece of a plan: of one entry, or of two where a resubmission was refused.
#[tactic(auto, unfolding(crate::specs::Capture::told_events, crate::specs::Capture::told_after))]
fn records_of<C>(
    alloc: Global,
    recorder: &mut CaptureRecorder,
    line: u64,
    step: &Step,
    performed: &Performed<C>,
) -> Result<Vec<u8>, AllocError>
    ensures records { IfOk result (λ bytes. bytes.items ≡ events_bytes (told_events recorder.old line step.now (entries_of performed.now))) }
    ensures after { OnOk result (recorder.new ≡ told_after recorder.old step.now (entries_of performed.now)) }
{
    let mut bytes = Vec::new(alloc);
    add_entry(recorder, &mut bytes, line, step, &performed.entry)?;
    if let Some(stop) = &performed.stop {
        add_entry(recorder, &mut bytes, line, step, stop)?;
    }
    Ok(bytes)
}

/// Puts the records of what came of a piece behind the others. Nothing is put where memory is refused.
fn put_records<C, W: Write>(
    alloc: Global,
    recorder: &mut CaptureRecorder,
    line: u64,
    step: &Step,
    performed: &Performed<C>,
    lines: &mut Lines,
    out: &mut W,
) -> Result<Reach, Fault>
    ensures put { IfOk result (λ reach. PutsRecords reach line step.now (entries_of performed.now) recorder.old recorder.new lines.old lines.new (W.contents out.old) (W.contents out.new)) }
    ensures begun { OnErr result (AppendsSome (lines.old ++ events_bytes (told_events recorder.old line step.now (entries_of performed.now))) (W.contents out.old) (W.contents out.new)) }
    ensures fault { IfErr result (λ fault. IsOfRun fault) }
{
    let Ok(records) = records_of(alloc, recorder, line, step, performed) else {
        return Ok(Reach::NoMemory);
    };
    lines.put_text(out, records.as_slice())?;
    Ok(Reach::End)
}

/// The step by which a piece's entries are told: of a callback's return the same is told by either verdict that a rule gives.
fn told_step(piece: &Plan) -> Result<Step, AllocError>
    ensures { IfOk result (λ step. step ≡ told_step piece.now) }
{
    match piece {
        Plan::Do(step) => step.clone(),
        Plan::Return { h, n } => Ok(Step::Answer {
            h: *h,
            n: *n,
            verdict: Verdict::Stop,
        }),
    }
}

/// Performs a piece of a plan, which came from this line, and puts the records of its entries behind the others. Nothing is
/// put where memory is refused.
fn capture_piece<C: Callback, D: Device, W: Write>(
    alloc: Global,
    run: &mut PlanRun<C, D>,
    piece: Plan,
    callback: Option<C>,
    recorder: &mut CaptureRecorder,
    line: u64,
    lines: &mut Lines,
    out: &mut W,
) -> Result<Reach, Fault>
    requires submits { is_submission piece ≡ true → is_some callback ≡ true }
    requires no_verdict { is_verdict piece ≡ false }
    ensures put { IfOk result (λ reach. CapturesPiece C.rule reach line recorder.old recorder.new run.old piece callback run.new lines.old lines.new (W.contents out.old) (W.contents out.new)) }
    ensures begun { OnErr result (BeginsCapturedPiece C.rule line recorder.old run.old piece callback run.new lines.old (W.contents out.old) (W.contents out.new)) }
    ensures fault { IfErr result (λ fault. IsOfRun fault) }
{
    let Ok(step) = told_step(&piece) else {
        return Ok(Reach::NoMemory);
    };
    let Ok(performed) = run.perform(piece, callback) else {
        return Ok(Reach::NoMemory);
    };
    put_records(alloc, recorder, line, &step, &performed, lines, out)
}

/// Performs the pieces of a plan that stands at its beginning, and writes the capture of the run as far as it comes: the
/// devices' lines, and each piece's entries from its line. The run is lent, since each way out of its owner drops the core,
/// which is dear to prove.
fn capture_steps<C: Callback, D: Device, W: Write>(
    alloc: Global,
    run: &mut PlanRun<C, D>,
    left: &mut IntoIter<C>,
    plan: Sequence<Plan>,
    devices: &[DescribedDevice],
    step_lines: &[NumberedLine<'_>],
    out: &mut W,
) -> Result<Reach, Fault>
    requires each { length step_lines.now ≡ length plan }
    requires start { CanStart C.rule plan run.old (into_iter_items left.old) }
    ensures file { IfOk result (λ reach. CapturesFrom C.rule reach devices.now plan (map numbered step_lines.now) run.old (into_iter_items left.old) (W.contents out.old) (W.contents out.new)) }
    ensures begun { BeginsCapture C.rule devices.now plan (map numbered step_lines.now) run.old (into_iter_items left.old) (W.contents out.old) (W.contents out.new) }
    ensures fault { IfErr result (λ fault. IsOfRun fault) }
{
    let mut recorder = CaptureRecorder::new(alloc);
    let mut lines = Lines::new(alloc);
    put_front(alloc, &mut recorder, devices, &mut lines, out)?;
    for (piece, line) in plan.into_vec().into_iter().zip(step_lines) {
        let callback = next_callback(&piece, left);
        match capture_piece(
            alloc,
            run,
            piece,
            callback,
            &mut recorder,
            line.number,
            &mut lines,
            out,
        )? {
            Reach::End => {}
            Reach::NoMemory => return write_rest(lines, out, Reach::NoMemory),
        }
    }
    write_rest(lines, out, Reach::End)
}

/// Writes the capture of a plan as far as its run over the core comes: there is a line for each piece, in order. Where a
/// step finds no memory, it ends with a whole record.
pub fn capture_plan<C: Callback, D: Device, W: Write>(
    alloc: Global,
    parts: Parts<C, D>,
    plan: Sequence<Plan>,
    devices: &[DescribedDevice],
    step_lines: &[NumberedLine<'_>],
    out: &mut W,
) -> Result<Reach, Fault>
    requires each { length step_lines.now ≡ length plan }
    requires callbacks { length parts.callbacks.items ≡ count_by is_submission plan }
    requires not_free { AllByRecursion (λ rule. rule ≢ Free) (map C.rule parts.callbacks.items) }
    requires no_verdict { AllByRecursion (λ piece. is_verdict piece ≡ false) plan }
    ensures file { IfOk result (λ reach. PrintsFile reach (plan_events devices.now (setup_of parts.setup) plan (map C.rule parts.callbacks.items) (map numbered step_lines.now)) (W.contents out.old) (W.contents out.new)) }
    ensures begun { AppendsSome (file_bytes (plan_events devices.now (setup_of parts.setup) plan (map C.rule parts.callbacks.items) (map numbered step_lines.now))) (W.contents out.old) (W.contents out.new) }
    ensures fault { IfErr result (λ fault. IsOfRun fault) }
{
    let Parts { setup, callbacks } = parts;
    let mut run = PlanRun::new(alloc, setup)?;
    let mut left = callbacks.into_iter();
    capture_steps(alloc, &mut run, &mut left, plan, devices, step_lines, out)
}
