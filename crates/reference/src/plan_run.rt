//! A system in the midst of a plan, and the rules of the numbers that were given.

ghost use Rattle.std.specs.Prelude.{◌≡◌, ℕ, ◌+◌, ◌<◌, ◌⊎◌, ◌++◌, ◌∷◌, [], length, take, IfOk, OnErr, List, false, IfErr, if◌then◌else◌};
ghost use Rattle.usb_model.specs.World.Plans.{is_other_refusal, noted, expand, first_rule, first_stage, is_submit, needs_stop, rules_after, stage_after, steps_of, verdict_by, verdict_of};
ghost use Rattle.usb_model.specs.World.{turn};
ghost use Rattle.reference.specs.RuleBooks.{book_at};
ghost use Rattle.reference.specs.System.{world_of};
ghost use Rattle.std.specs.Option.{option_copied};
ghost use Rattle.usb_model.specs.World.Journal.{entries, own, world_run, IsBeginning, run_from};
ghost use Rattle.usb_model.specs.Machine.Turns.{alone};
ghost use Rattle.usb_model.specs.Machine.Calls.{callback_of};
ghost use Rattle.reference.specs.PlanRuns.{Made, kept_with, stage_of};
ghost use Rattle.usb_model.specs.Numbers.{is_stop};
ghost use Rattle.usb_model.specs.declared.verdict.Rule.{Rule};
ghost use Rattle.reference.specs.Tables.{handle_at};
ghost use Rattle.usb_model.specs.declared.plan.Plan.TheVariants.{Do, Return};
ghost use Rattle.usb_model.specs.declared.step.Step.TheVariants.{Answer};

use crate::System;
use crate::callback::callback_of;
use crate::comparison::{Comparison, compare};
use crate::journal::{Stopped, advance};
use crate::rule_book::RuleBook;
use std::alloc::{AllocError, Global};
use usb_model::{
    Entry, InCallback, Name, Plan, Refused, Reply, Rule, Sequence, Setup, Status, Step, Verdict,
};

/// What is kept in the midst of a plan.
#[derive(Drop)]
pub struct PlanRun {
    /// The system.
    pub system: System,
    /// The rule of each number that was given.
    pub book: RuleBook,
    /// The steps that were made, where they are kept.
    pub made: Option<Sequence<Step>>,
}

/// Keeps a step behind the others, where they are kept.
fn keep(made: &mut Option<Sequence<Step>>, step: &Step) -> Result<(), AllocError>
    ensures { IfOk result (λ _. made.new ≡ kept_with made.old (step.now ∷ [])) }
{
    if let Some(steps) = made {
        steps.push(step.clone()?)?;
    }
    Ok(())
}

impl PlanRun {
    /// Makes a step, whose entry may give a number under this rule. Whether its reply refuses for another cause than that there is no such thing.
    pub fn step(
        &mut self,
        alloc: Global,
        setup: &Setup,
        step: &Step,
        rule: Rule,
        out: &mut Sequence<Entry>,
    ) -> Result<bool, AllocError>
        ensures made { IfOk result (λ refused. let t = turn setup.now (world_of setup.now self.old.system) step.now in
            (refused ≡ is_other_refusal t.entry.reply)
            × (out.new ≡ out.old ++ t.entry ∷ [])
            × (world_of setup.now self.new.system ≡ t.world)
            × ((h n : ℕ) → book_at self.new.book h n ≡ noted (λ h n. book_at self.old.book h n) t.entry rule h n)) }
        ensures noted { IfOk result (λ _. self.new.made ≡ kept_with self.old.made (step.now ∷ [])) }
        ensures kept { OnErr result (out.new ≡ out.old) }
    {
        let entry = self.system.turn(alloc, setup, step)?;
        self.book.note_entry(alloc, &entry, rule)?;
        keep(&mut self.made, step)?;
        let refused = entry.reply.is_other_refusal();
        out.push(entry)?;
        Ok(refused)
    }
}

/// Whether a callback has to be told that it ends all the same: its resubmission was refused.
fn needs_stop(stops: bool, refused: bool) -> bool
    ensures { result ≡ (if stops then false else refused) }
{
    !stops && refused
}

/// The rule that a Submit takes: the first of those that are left.
fn first_rule(rules: &[Rule]) -> Rule
    ensures { result ≡ first_rule rules.now }
{
    match rules {
        [] => Rule::once_only(),
        [first, ..] => *first,
    }
}

impl PlanRun {
    /// A step of a plan.
    #[tactic(auto, unfolding(usb_model::specs::World::Journal::journal_from, usb_model::specs::World::world_from, usb_model::specs::World::Plans::stage_after))]
    fn do_step(
        &mut self,
        alloc: Global,
        setup: &Setup,
        step: &Step,
        rules: &[Rule],
        out: &mut Sequence<Entry>,
    ) -> Result<(), AllocError>
        ensures made { IfOk result (λ _. Made setup.now (stage_of setup.now self.old rules.now) (Do step.now) (step.now ∷ []) out.old out.new (stage_of setup.now self.new (rules_after (Do step.now) rules.now))) }
        ensures noted { IfOk result (λ _. self.new.made ≡ kept_with self.old.made (step.now ∷ [])) }
        ensures kept { OnErr result (out.new ≡ out.old) }
    {
        let rule = if step.is_submit() {
            first_rule(rules)
        } else {
            Rule::once_only()
        };
        let _ = self.step(alloc, setup, step, rule, out)?;
        Ok(())
    }

    /// The verdict of a transfer that returns from its callback.
    pub fn verdict_of(&self, h: Name, n: u64) -> Verdict
        ensures { result ≡ verdict_by (callback_of n (handle_at self.now.system.names h).in_callbacks) (book_at self.now.book h n) }
    {
        let rule = self.book.get(h, n);
        rule.verdict_by(callback_of(self.system.names.get(h), n))
    }

    /// A callback's verdict is answered. Whether it has to be told that it ends all the same.
    fn answer(
        &mut self,
        alloc: Global,
        setup: &Setup,
        h: Name,
        n: u64,
        out: &mut Sequence<Entry>,
    ) -> Result<bool, AllocError>
        ensures made { IfOk result (λ ends. let v = verdict_by (callback_of n (handle_at self.old.system.names h).in_callbacks) (book_at self.old.book h n) in
            let t = turn setup.now (world_of setup.now self.old.system) (Answer h n v) in
            (ends ≡ needs_stop v t.entry.reply)
            × (out.new ≡ out.old ++ t.entry ∷ [])
            × (world_of setup.now self.new.system ≡ t.world)
            × ((g k : ℕ) → book_at self.new.book g k ≡ noted (λ g k. book_at self.old.book g k) t.entry (book_at self.old.book h n) g k)) }
        ensures noted { IfOk result (λ _. let v = verdict_by (callback_of n (handle_at self.old.system.names h).in_callbacks) (book_at self.old.book h n) in self.new.made ≡ kept_with self.old.made (Answer h n v ∷ [])) }
        ensures kept { OnErr result (out.new ≡ out.old) }
    {
        let rule = self.book.get(h, n);
        let verdict = self.verdict_of(h, n);
        let stops = verdict.is_stop();
        let answer = Step::Answer { h, n, verdict };
        let refused = self.step(alloc, setup, &answer, rule, out)?;
        Ok(needs_stop(stops, refused))
    }

    /// A callback's return. Where its resubmission is refused, but not since there is no such thing, it ends all the same.
    fn return_callback(
        &mut self,
        alloc: Global,
        setup: &Setup,
        h: Name,
        n: u64,
        rules: &[Rule],
        out: &mut Sequence<Entry>,
    ) -> Result<(), AllocError>
        ensures made { IfOk result (λ _. let s = stage_of setup.now self.old rules.now in Made setup.now s (Return h n) (steps_of setup.now s (Return h n)) out.old out.new (stage_of setup.now self.new rules.now)) }
        ensures noted { IfOk result (λ _. self.new.made ≡ kept_with self.old.made (steps_of setup.now (stage_of setup.now self.old rules.now) (Return h n))) }
        ensures stopped { let s = stage_of setup.now self.old rules.now in OnErr result (IsBeginning out.new (out.old ++ run_from setup.now s.world (steps_of setup.now s (Return h n)))) }
        ensures left { let s = stage_of setup.now self.old rules.now in OnErr result (length out.new < length out.old + length (steps_of setup.now s (Return h n))) }
    {
        if !self.answer(alloc, setup, h, n, out)? {
            return Ok(());
        }
        let stop = Step::Answer {
            h,
            n,
            verdict: Verdict::Stop,
        };
        let Ok(()) = keep(&mut self.made, &stop) else {
            return Err(AllocError);
        };
        match advance(alloc, setup, &mut self.system, &stop, out) {
            Ok(()) => Ok(()),
            Err(e) => Err(e),
        }
    }
}

impl PlanRun {
    /// No number was given; steps are kept behind these, where there are any.
    #[tactic(auto, unfolding(usb_model::specs::World::Plans::expand_from))]
    pub fn new(
        alloc: Global,
        setup: &Setup,
        made: Option<Sequence<Step>>,
    ) -> Result<PlanRun, AllocError>
        ensures stage { IfOk result (λ d. (rules : List Rule) → stage_of setup.now d rules ≡ first_stage setup.now rules) }
        ensures kept { IfOk result (λ d. d.made ≡ made) }
    {
        Ok(PlanRun {
            system: System::new(alloc, setup)?,
            book: RuleBook::new(alloc)?,
            made,
        })
    }

    /// A piece of a plan. Where no memory is found, the entries are those of a beginning of its steps.
    pub fn perform(
        &mut self,
        alloc: Global,
        setup: &Setup,
        piece: &Plan,
        rules: &[Rule],
        out: &mut Sequence<Entry>,
    ) -> Result<(), AllocError>
        ensures made { IfOk result (λ _. let s = stage_of setup.now self.old rules.now in Made setup.now s piece.now (steps_of setup.now s piece.now) out.old out.new (stage_of setup.now self.new (rules_after piece.now rules.now))) }
        ensures noted { IfOk result (λ _. self.new.made ≡ kept_with self.old.made (steps_of setup.now (stage_of setup.now self.old rules.now) piece.now)) }
        ensures stopped { let s = stage_of setup.now self.old rules.now in OnErr result (IsBeginning out.new (out.old ++ run_from setup.now s.world (steps_of setup.now s piece.now))) }
        ensures left { let s = stage_of setup.now self.old rules.now in OnErr result (length out.new < length out.old + length (steps_of setup.now s piece.now)) }
    {
        match piece {
            Plan::Do(step) => self.do_step(alloc, setup, step, rules, out),
            Plan::Return { h, n } => self.return_callback(alloc, setup, *h, *n, rules, out),
        }
    }
}

/// The entries of a plan under rules, of which the first Submit takes the first, from a system in which no name is open.
/// Where no memory is found, those of the first so many of the steps that the plan stands for.
pub fn drive(
    alloc: Global,
    setup: &Setup,
    plan: &[Plan],
    rules: &[Rule],
) -> Result<Sequence<Entry>, Stopped>
    ensures entries { IfOk result (λ entries. entries ≡ world_run setup.now (expand setup.now plan.now rules.now)) }
    ensures stopped { IfErr result (λ stopped. IsBeginning stopped.entries (world_run setup.now (expand setup.now plan.now rules.now))) }
    ensures reached { IfErr result (λ stopped. stopped.entries ≡ world_run setup.now (take (length stopped.entries) (expand setup.now plan.now rules.now))) }
    ensures left { IfErr result (λ stopped. (stopped.entries ≡ []) ⊎ (length stopped.entries < length (expand setup.now plan.now rules.now))) }
{
    let PlanSteps { entries, .. } = drive_on(alloc, setup, plan, rules, None)?;
    Ok(entries)
}

/// A handle's entries of a plan amid the others, and alone over its own steps of the plan, in a system of their own. They
/// are the same.
pub fn drive_alone(
    alloc: Global,
    setup: &Setup,
    plan: &[Plan],
    rules: &[Rule],
    h: Name,
) -> Result<Comparison, AllocError>
    ensures shared { IfOk result (λ b. b.shared ≡ entries setup.now (expand setup.now plan.now rules.now) h) }
    ensures alone { IfOk result (λ b. b.alone ≡ alone setup.now (own setup.now (expand setup.now plan.now rules.now) h) h) }
    ensures runs { IfOk result (λ b. b.alone ≡ world_run setup.now (own setup.now (expand setup.now plan.now rules.now) h)) }
    ensures same { IfOk result (λ b. b.shared ≡ b.alone) }
{
    let made = Some(Sequence::new(alloc));
    match drive_on(alloc, setup, plan, rules, made) {
        Ok(PlanSteps { steps, entries }) => {
            compare(alloc, setup, steps.unwrap().as_slice(), entries, h)
        }
        Err(_) => Err(AllocError),
    }
}

/// What came of a plan: the steps that it stood for, where they were kept, and their entries.
#[derive(Drop)]
struct PlanSteps {
    steps: Option<Sequence<Step>>,
    entries: Sequence<Entry>,
}

/// The entries of a plan, and its steps behind these, where there are any.
fn drive_on(
    alloc: Global,
    setup: &Setup,
    plan: &[Plan],
    rules: &[Rule],
    made: Option<Sequence<Step>>,
) -> Result<PlanSteps, Stopped>
    ensures steps { IfOk result (λ driven. driven.steps ≡ kept_with made (expand setup.now plan.now rules.now)) }
    ensures entries { IfOk result (λ driven. driven.entries ≡ world_run setup.now (expand setup.now plan.now rules.now)) }
    ensures stopped { IfErr result (λ stopped. IsBeginning stopped.entries (world_run setup.now (expand setup.now plan.now rules.now))) }
    ensures reached { IfErr result (λ stopped. stopped.entries ≡ world_run setup.now (take (length stopped.entries) (expand setup.now plan.now rules.now))) }
    ensures left { IfErr result (λ stopped. (stopped.entries ≡ []) ⊎ (length stopped.entries < length (expand setup.now plan.now rules.now))) }
{
    let mut entries = Sequence::new(alloc);
    let Ok(mut run) = PlanRun::new(alloc, setup, made) else {
        return Err(Stopped { entries });
    };
    let mut left = rules;
    for piece in plan {
        let Ok(()) = run.perform(alloc, setup, piece, left, &mut entries) else {
            return Err(Stopped { entries });
        };
        left = piece.rules_after(left);
    }
    let PlanRun { made, .. } = run;
    Ok(PlanSteps {
        steps: made,
        entries,
    })
}
