//! Pieces of plans, performed over the core: steps are made, and callbacks that return are called.

ghost use Rattle.std.specs.Prelude.{◌≡◌, ℕ, ◌<◌, true, false, List, [], None, Some, IfOk, IfSome, IsOk, OnErr, is_some, length, if◌then◌else◌, option_map};
ghost use Rattle.usb_core.specs.Callbacks.{Fits};
ghost use Rattle.usb_model.specs.declared.step.Step.TheVariants.{Answer, Take};
ghost use Rattle.usb_model.specs.declared.plan.Plan.TheVariants.{Return};
ghost use Rattle.usb_model.specs.declared.verdict.Rule.{Rule};
ghost use Rattle.usb_model.specs.Numbers.{takes_payload};
ghost use Rattle.usb_model.specs.World.Plans.{first_stage, is_submission};
ghost use Rattle.usb_core.specs.Public.{Carries, Kept, StillCarries, TurnsWorld, setup_of};
ghost use Rattle.usb_core.specs.Steps.{GoesOut, first_payload, handed_out, kept_after, left_over};
ghost use Rattle.proof_laws.specs.InCallbacks.{is_answer};
ghost use Rattle.usb_plans.specs.PlanRuns.{Calls, CallsThere, FindsNone, HasRoom, MakesAnswer, MakesStep, Performs, Returns, RunBehind, RunBehindReturn, RunBehindStep, RunsToo, ShowsStage, StaysWith, StillShows, TellsOf, entries_of, given_back, is_verdict, room_of, running_at};

use crate::running_callbacks::RunningCallbacks;
use std::alloc::{AllocError, Global};
use std::marker::Model;
use usb_core::{Callback, Core, Setup, Stepped, Taken};
use usb_device::Device;
use usb_model::{Buffer, BytesRead, Entry, Name, Plan, Reply, Returned, Step, Verdict};

/// What came of a piece of a plan.
#[derive(Drop)]
pub struct Performed<C> {
    /// The entry of its step.
    pub entry: Entry,
    /// Of a return whose resubmission was refused, the entry of the Stop behind it; None where there is none.
    pub stop: Option<Entry>,
    /// The callback that was given with the piece; None where a transfer was submitted with it.
    pub back: Option<C>,
}

/// A run amid a plan: the core, and the callbacks that came out with their transfers and whose verdicts aren't made yet.
/// Contracts see both, and say of it which stage of a plan it shows (`ShowsStage`).
#[derive(Drop)]
pub struct PlanRun<C: Callback, D: Device> {
    pub(crate) core: Core<C, D>,
    running: RunningCallbacks<C>,
    alloc: Global,
}

impl<C: Callback, D: Device> Model for PlanRun<C, D> {
    ghost use Rattle.usb_plans.specs.PlanRuns.{PlanState};

    ghost Value = { PlanState C };

    ghost view = { λ r. record { core = r.core; running = r.running } };
}

/// A copy of what a callback is told, with the bytes in this memory; None where they have no room there. Takes no memory.
fn copied(returned: &Returned, mut memory: Buffer) -> Option<Returned>
    requires { memory.items ≡ [] }
    ensures copy { IfSome result (λ copy. copy ≡ returned.now) }
    ensures none { result ≡ None → memory.capacity < length returned.now.bytes }
{
    let bytes = returned.bytes.as_slice();
    if memory.capacity() < bytes.len() {
        return None;
    }
    memory.append(bytes);
    Some(Returned {
        h: returned.h,
        n: returned.n,
        ep: returned.ep,
        round: returned.round,
        status: returned.status,
        actual: returned.actual,
        bytes: BytesRead::from_buffer(memory),
    })
}

/// What a step gave, with what is due to the callback that went out by it.
#[derive(Drop)]
struct MadeStep<C> {
    /// The entry of the step.
    entry: Entry,
    /// What went out.
    taken: Option<Taken<C>>,
    /// The callback that was given with the step; None where a transfer was submitted with it.
    back: Option<C>,
}

/// Makes a step. What goes out by it comes with what is due to its callback, of which the entry has a copy: its bytes stand in
/// this memory.
fn make_step<C: Drop, D: Device>(
    core: &mut Core<C, D>,
    step: Step,
    callback: Option<C>,
    memory: Buffer,
) -> Result<MadeStep<C>, AllocError>
    requires submits { takes_payload step ≡ true → is_some callback ≡ true }
    requires empty { memory.items ≡ [] }
    ensures turned { IfOk result (λ x. TurnsWorld core.old step x.entry core.new) }
    ensures out { IfOk result (λ x. option_map (λ t. t.payload) x.taken ≡ handed_out core.old step) }
    ensures told { IfOk result (λ x. TellsOf x.entry.reply x.taken) }
    ensures back { IfOk result (λ x. x.back ≡ left_over (takes_payload step) x.entry.reply callback) }
    ensures carries { IfOk result (λ x. (kept : Kept C) → Carries kept core.old → Carries (kept_after kept step x.entry callback) core.new) }
    ensures goes_out { IfOk result (λ x. (kept : Kept C) → Carries kept core.old → GoesOut kept (option_map (λ t. t.payload) x.taken) x.entry.reply) }
    ensures stays { OnErr result (StaysWith step memory.capacity core.old core.new) }
{
    match step {
        Step::Take => take_step(core, callback, memory),
        _ => {
            let Ok(Stepped { entry, back, .. }) = core.step(step, callback) else {
                return Err(AllocError);
            };
            Ok(MadeStep {
                entry,
                taken: None,
                back,
            })
        }
    }
}

/// The oldest result goes out. The bytes of the entry stand in this memory.
fn take_step<C: Drop, D: Device>(
    core: &mut Core<C, D>,
    back: Option<C>,
    memory: Buffer,
) -> Result<MadeStep<C>, AllocError>
    requires empty { memory.items ≡ [] }
    ensures turned { IfOk result (λ x. TurnsWorld core.old Take x.entry core.new) }
    ensures out { IfOk result (λ x. option_map (λ t. t.payload) x.taken ≡ first_payload core.old) }
    ensures told { IfOk result (λ x. TellsOf x.entry.reply x.taken) }
    ensures back { IfOk result (λ x. x.back ≡ back) }
    ensures carries { IfOk result (λ x. StillCarries core.old core.new) }
    ensures goes_out { IfOk result (λ x. (kept : Kept C) → Carries kept core.old → GoesOut kept (option_map (λ t. t.payload) x.taken) x.entry.reply) }
    ensures stays { OnErr result (StaysWith Take memory.capacity core.old core.new) }
{
    match core.take() {
        Ok(Some(taken)) => {
            let Some(told) = copied(&taken.returned, memory) else {
                return Err(AllocError);
            };
            let entry = Entry {
                owner: Some(told.h),
                reply: Reply::Called(told),
            };
            Ok(MadeStep {
                entry,
                taken: Some(taken),
                back,
            })
        }
        Ok(None) => Ok(MadeStep {
            entry: Entry {
                owner: None,
                reply: Reply::Idle,
            },
            taken: None,
            back,
        }),
        Err(error) => Err(error),
    }
}

/// A copy of a piece of a plan, which can be performed where the piece itself is still needed.
pub fn copy_of(piece: &Plan) -> Result<Plan, AllocError>
    ensures { IfOk result (λ copy. copy ≡ piece.now) }
{
    match piece {
        Plan::Do(step) => Ok(Plan::Do(step.clone()?)),
        Plan::Return { h, n } => Ok(Plan::Return { h: *h, n: *n }),
    }
}

/// Whether a callback has to be told that it ends all the same: its resubmission was refused.
fn needs_stop(stops: bool, refused: bool) -> bool
    ensures { result ≡ (if stops then false else refused) }
{
    !stops && refused
}

impl<C: Callback, D: Device> PlanRun<C, D> {
    /// No name has a device open, and no callback runs.
    pub fn new(alloc: Global, setup: Setup<D>) -> Result<PlanRun<C, D>, AllocError>
        ensures { IfOk result (λ r. (rules : List Rule) → ShowsStage C.rule (setup_of setup) r (first_stage (setup_of setup) rules)) }
    {
        Ok(PlanRun {
            core: Core::new(alloc, setup)?,
            running: RunningCallbacks::new(alloc)?,
            alloc,
        })
    }

    /// Performs a piece of a plan. A step is made: with its callback, where it submits. A return calls the very callback
    /// that came out with its transfer, with the result that came out, and makes the Answer of the verdict that it gives;
    /// where a resubmission is refused its callback ends by a Stop, with an entry of its own, and is dropped. A return of a
    /// number that isn't out is refused NotFound. Where memory is refused the stage before the piece is still shown, but for
    /// the callback of a return: it was called, and is dropped.
    pub fn perform(&mut self, piece: Plan, callback: Option<C>) -> Result<Performed<C>, AllocError>
        requires submits { is_submission piece ≡ true → is_some callback ≡ true }
        requires no_verdict { is_verdict piece ≡ false }
        ensures performs { IfOk result (λ x. Performs C.rule self.old piece callback (entries_of x) self.new) }
        ensures called { IfOk result (λ x. Calls C.rule C.may_answer self.old piece (entries_of x)) }
        ensures out { IfOk result (λ x. RunBehind piece x.entry.reply self.old self.new) }
        ensures back { IfOk result (λ x. x.back ≡ given_back piece x.entry.reply callback) }
        ensures none { OnErr result (FindsNone C.rule self.old piece self.new) }
    {
        match piece {
            Plan::Do(step) => self.make(step, callback),
            Plan::Return { h, n } => self.return_callback(h, n, callback),
        }
    }

    /// Makes a step that is no verdict. A callback that goes out with its transfer runs from then on.
    fn make(&mut self, step: Step, callback: Option<C>) -> Result<Performed<C>, AllocError>
        requires submits { takes_payload step ≡ true → is_some callback ≡ true }
        requires no_verdict { is_answer step ≡ false }
        ensures made { IfOk result (λ x. MakesStep C.rule self.old step callback x.entry self.new) }
        ensures once { IfOk result (λ x. x.stop ≡ None) }
        ensures out { IfOk result (λ x. RunBehindStep x.entry.reply self.old self.new) }
        ensures back { IfOk result (λ x. x.back ≡ left_over (takes_payload step) x.entry.reply callback) }
        ensures stays { OnErr result (StillShows C.rule self.old self.new) }
    {
        let memory = self.make_room(&step)?;
        let MadeStep { entry, taken, back } = make_step(&mut self.core, step, callback, memory)?;
        // There is room for the callback, so that this can't fail.
        self.keep(&entry, taken)?;
        Ok(Performed {
            entry,
            stop: None,
            back,
        })
    }

    /// Asks for what a step needs by which a result goes out: room for its callback, and memory for a copy of its bytes.
    fn make_room(&mut self, step: &Step) -> Result<Buffer, AllocError>
        ensures core { self.new.core ≡ self.old.core }
        ensures same { (h n : ℕ) → running_at self.new.running h n ≡ running_at self.old.running h n }
        ensures empty { IfOk result (λ memory. memory.items ≡ []) }
        ensures room { IfOk result (λ memory. step.now ≡ Take → HasRoom self.new memory.capacity) }
    {
        match step {
            Step::Take => self.room_for_next(),
            _ => Ok(Buffer::new(self.alloc)),
        }
    }

    /// The same of the oldest result, if one waits.
    fn room_for_next(&mut self) -> Result<Buffer, AllocError>
        ensures core { self.new.core ≡ self.old.core }
        ensures same { (h n : ℕ) → running_at self.new.running h n ≡ running_at self.old.running h n }
        ensures empty { IfOk result (λ memory. memory.items ≡ []) }
        ensures room { IfOk result (λ memory. HasRoom self.new memory.capacity) }
    {
        let Some(next) = self.core.result_at(0) else {
            return Ok(Buffer::new(self.alloc));
        };
        self.running.reserve(next.h)?;
        Buffer::with_capacity(self.alloc, self.core.next_len())
    }

    /// A callback that went out with its transfer, which this entry tells of, runs. Where there is room for one more of its
    /// name, it takes no memory.
    fn keep(&mut self, entry: &Entry, taken: Option<Taken<C>>) -> Result<(), AllocError>
        requires told { TellsOf entry.now.reply taken }
        ensures core { IfOk result (λ _. self.new.core ≡ self.old.core) }
        ensures runs { IfOk result (λ _. RunsToo entry.now.reply (option_map (λ t. t.payload) taken) self.old.running self.new.running) }
        ensures full { OnErr result (is_some taken ≡ true) }
        ensures succeeds { IfSome taken (λ t. 0 < room_of self.old.running t.returned.h → IsOk result) }
    {
        let Some(taken) = taken else {
            return Ok(());
        };
        let h = taken.returned.h;
        self.running.put(h, taken)
    }

    /// Makes the verdict of a callback that was called.
    fn answer(
        &mut self,
        h: Name,
        n: u64,
        verdict: Verdict,
        callback: Option<C>,
    ) -> Result<Entry, AllocError>
        requires { takes_payload (Answer h n verdict) ≡ true → is_some callback ≡ true }
        ensures made { IfOk result (λ entry. MakesAnswer C.rule self.old h n (Answer h n verdict) callback entry self.new) }
        ensures same { IfOk result (λ _. self.new.running ≡ self.old.running) }
        ensures stays { OnErr result (StillShows C.rule self.old self.new) }
        ensures memory { OnErr result (takes_payload (Answer h n verdict) ≡ true) }
    {
        match self.core.step(Step::Answer { h, n, verdict }, callback) {
            Ok(stepped) => Ok(stepped.entry),
            Err(_) => Err(AllocError),
        }
    }

    /// A callback returns.
    fn return_callback(
        &mut self,
        h: Name,
        n: u64,
        callback: Option<C>,
    ) -> Result<Performed<C>, AllocError>
        ensures performs { IfOk result (λ x. Performs C.rule self.old (Return h n) callback (entries_of x) self.new) }
        ensures called { IfOk result (λ x. CallsThere C.rule C.may_answer self.old h n (entries_of x)) }
        ensures out { IfOk result (λ _. RunBehindReturn h n self.old self.new) }
        ensures back { IfOk result (λ x. x.back ≡ callback) }
        ensures none { OnErr result (FindsNone C.rule self.old (Return h n) self.new) }
    {
        match self.running.remove(h, n) {
            None => Ok(Performed {
                entry: self.answer(h, n, Verdict::Stop, None)?,
                stop: None,
                back: callback,
            }),
            Some(taken) => self.call_back(h, n, taken, callback),
        }
    }

    /// Calls a callback, and makes its verdict; where that submits once more and is refused, it is to stop.
    fn call_back(
        &mut self,
        h: Name,
        n: u64,
        taken: Taken<C>,
        callback: Option<C>,
    ) -> Result<Performed<C>, AllocError>
        ensures returns { IfOk result (λ x. Returns C.rule C.may_answer self.old h n taken (entries_of x) self.new) }
        ensures back { IfOk result (λ x. x.back ≡ callback) }
        ensures stays { OnErr result (StillShows C.rule self.old self.new) }
    {
        let (verdict, again) = taken.payload.call(taken.returned);
        let stops = verdict.is_stop();
        let entry = self.answer(h, n, verdict, again)?;
        if !needs_stop(stops, entry.reply.is_other_refusal()) {
            return Ok(Performed {
                entry,
                stop: None,
                back: callback,
            });
        }
        let stop = self.answer(h, n, Verdict::Stop, None)?;
        Ok(Performed {
            entry,
            stop: Some(stop),
            back: callback,
        })
    }
}
