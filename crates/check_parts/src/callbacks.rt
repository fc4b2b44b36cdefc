//! Callbacks that are called: two that repeat and one that is called once, by code that knows no box.

ghost use Rattle.std.specs.Prelude.{IfSome, is_some, ◌≡◌};
ghost use Rattle.usb_core.specs.Callbacks.{Fits};
ghost use Rattle.usb_model.specs.World.Plans.{verdict_of};

use crate::completions::completed;
use crate::expect::present;
use anyhow::Result;
use std::alloc::Global;
use std::fmt;
use std::sync::Arc;
use std::sync::atomic::{AtomicU64, Ordering};
use usb_core::{Callback, Due, End, Once, Repeat, StoredCallback, Told};
use usb_model::{Refused, Returned, Rule, StatusSet, Verdict};

/// What a callback answered in a round, printed as `round 1 Stop, comes back`.
#[derive(Drop)]
struct Round {
    number: u64,
    verdict: Verdict,
    is_back: bool,
}

impl fmt::Display for Round {
    fn fmt<W: fmt::Write>(&self, f: &mut fmt::Formatter<W>) -> fmt::Result {
        let Round {
            number,
            verdict,
            is_back,
        } = self;
        let end = if *is_back { "comes back" } else { "is used up" };
        write!(f, "round {number} {verdict:?}, {end}")
    }
}

/// Plays the scenes of callbacks.
pub fn play<P: Print>(rt: &P, alloc: Global) -> Result<()> {
    let (first, second) = repeating(alloc)?;
    println!(rt; "a repeating callback: {first}; {second}")?;
    let (first, second) = under_no_rule(alloc)?;
    println!(rt; "a callback under no rule: {first}; {second}")?;
    let (round, added) = called_once(alloc)?;
    println!(rt; "a callback that is called once: {round}; it added {added}")?;
    for end in [End::ByVerdict, End::Refused(Refused::Busy), End::NoMemory] {
        let told = name_of(told_of(alloc, end)?);
        println!(rt; "a callback that isn't called again: it is told of {told}")?;
    }
    Ok(())
}

/// Callbacks cross threads.
fn crosses<T: Send>(value: T) -> T
    ensures { result ≡ value }
{
    value
}

/// What any callback answers.
fn answer<C: Callback>(callback: C, due: Due) -> (Verdict, Option<C>)
    ensures fits { Fits (C.rule callback) due result.0 }
    ensures back { is_some result.1 ≡ C.repeats callback }
    ensures same { IfSome result.1 (λ c. c ≡ callback) }
{
    callback.call(due)
}

/// What a callback answers to what is due, and the callback, if it comes back.
fn answered<C: Callback>(callback: C, due: Due) -> (Round, Option<C>) {
    let number = due.round;
    let (verdict, back) = answer(callback, due);
    let is_back = back.is_some();
    let round = Round {
        number,
        verdict,
        is_back,
    };
    (round, back)
}

/// What a repeating callback answers in each of these rounds. An error where it doesn't come back from the first.
fn answered_twice<C: Callback>(
    alloc: Global,
    callback: C,
    rounds: [u64; 2],
) -> Result<(Round, Round)> {
    let [earlier, later] = rounds;
    let (first, back) = answered(callback, completed(alloc, earlier)?);
    let back = present(back, "callback that comes back")?;
    let (second, _back) = answered(back, completed(alloc, later)?);
    Ok((first, second))
}

/// A repeating callback answers twice, as its rule says.
fn repeating(alloc: Global) -> Result<(Round, Round)> {
    let rule = Rule::Again {
        on: StatusSet::COMPLETED,
        rounds: 1,
    };
    let code: Repeat = Box::new(
        alloc,
        move |returned: &Returned| -> Verdict
            ensures { result ≡ verdict_of rule returned.now.status returned.now.round }
        { rule.verdict(returned.status, returned.round) },
    )?;
    let callback = StoredCallback::repeat(rule, code);
    answered_twice(alloc, callback, [0, 1])
}

/// A callback under no rule stops at the last round.
fn under_no_rule(alloc: Global) -> Result<(Round, Round)> {
    let code: Repeat = Box::new(alloc, |returned: &Returned| -> Verdict {
        if returned.round < 2 {
            Verdict::Again
        } else {
            Verdict::Stop
        }
    })?;
    let callback = StoredCallback::repeat(Rule::Free, code);
    answered_twice(alloc, callback, [1, 2])
}

/// A callback that is called once adds the number of its transfer, and is used up: what it answers, and what it added.
fn called_once(alloc: Global) -> Result<(Round, u64)> {
    let sum = Arc::new(alloc, AtomicU64::new(0))?;
    let counted = sum.clone()?;
    let code: Once = Box::new(alloc, move |returned: Returned| {
        let _before = counted.fetch_add(returned.n, Ordering::SeqCst);
    })?;
    let callback = crosses(StoredCallback::once(code));
    let (round, _back) = answered(callback, completed(alloc, 1)?);
    Ok((round, sum.load(Ordering::SeqCst)))
}

/// What a callback is told of its end, as a number.
fn number_of(end: End) -> u64 {
    match end {
        End::ByVerdict => 1,
        End::Refused(Refused::Busy) => 2,
        End::Refused(_) => 3,
        End::NoMemory => 4,
    }
}

/// What a callback was told of that has this number.
fn name_of(number: u64) -> &'static str {
    match number {
        0 => "nothing",
        1 => "its verdict",
        2 => "a refusal as busy",
        3 => "another refusal",
        4 => "no memory",
        _ => "several ends",
    }
}

/// The number of what a callback is told that isn't called again, by this end; 0 where it is told nothing.
fn told_of(alloc: Global, end: End) -> Result<u64> {
    let heard = Arc::new(alloc, AtomicU64::new(0))?;
    let hearing = heard.clone()?;
    let code: Repeat = Box::new(alloc, |_: &Returned| -> Verdict { Verdict::Again })?;
    let told: Told = Box::new(alloc, move |end: End| {
        let _before = hearing.fetch_add(number_of(end), Ordering::SeqCst);
    })?;
    let callback = crosses(StoredCallback::repeat(Rule::Free, code).telling(told));
    let (_round, back) = answered(callback, completed(alloc, 0)?);
    present(back, "callback that comes back")?.ended(end);
    Ok(heard.load(Ordering::SeqCst))
}
