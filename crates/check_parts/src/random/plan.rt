//! A plan over the core, whose callbacks are called: one that submits once more, and one that is called once.

ghost use Rattle.std.specs.Prelude.{◌≡◌, false, length};
ghost use Rattle.std.specs.List.{AllByRecursion, count_by};
ghost use Rattle.usb_model.specs.World.Plans.{is_submission, verdict_of};
ghost use Rattle.usb_plans.specs.PlanRuns.{is_verdict};

use super::drives::print_entries;
use super::scene;
use anyhow::{Result, anyhow};
use bitflags::Flags as _;
use std::alloc::Global;
use std::sync::Arc;
use std::sync::atomic::{AtomicU64, Ordering};
use usb_core::{Callback, Once, Repeat, StoredCallback};
use usb_model::{
    Body, DeviceNo, Entry, EpAddr, Flags, Kind, Name, Plan, Request, Returned, Rule, Sequence,
    StatusSet, Step, Verdict,
};
use usb_plans::drive;

/// A read of 8 bytes.
fn read(ep: EpAddr) -> Request {
    Request {
        ep,
        kind: Kind::Bulk,
        flags: Flags::from_bits_retain(0),
        timeout: 0,
        body: Body::In(8),
    }
}

/// What is told of a plan. A function of its own, since `drive` says much of a plan, which is dear where that is known.
fn driven<C: Callback>(alloc: Global, plan: Vec<Plan>, callbacks: Vec<C>) -> Result<Sequence<Entry>>
    requires count { length callbacks.items ≡ count_by is_submission plan.items }
    requires no_verdict { AllByRecursion (λ piece. is_verdict piece ≡ false) plan.items }
{
    match drive(alloc, scene::three_packets(alloc)?, plan, callbacks) {
        Ok(entries) => Ok(entries),
        Err(_) => Err(anyhow!("the plan stopped")),
    }
}

/// What is told of two reads at an endpoint of a device, which have these callbacks.
fn told<C: Callback>(
    alloc: Global,
    h: Name,
    dev: DeviceNo,
    callbacks: Vec<C>,
) -> Result<Sequence<Entry>>
    requires count { length callbacks.items ≡ 2 }
{
    let ep = EpAddr::new(0x81);
    let plan = [
        Plan::Do(Step::Open { h, dev }),
        Plan::Do(Step::Claim { h, i: 0 }),
        Plan::Do(Step::Submit {
            h,
            request: read(ep),
        }),
        Plan::Do(Step::Submit {
            h,
            request: read(ep),
        }),
        Plan::Do(Step::Serve { dev, ep }),
        Plan::Do(Step::Serve { dev, ep }),
        Plan::Do(Step::Deliver),
        Plan::Do(Step::Deliver),
        Plan::Do(Step::Take),
        Plan::Do(Step::Take),
        Plan::Return { h, n: 0 },
        Plan::Return { h, n: 1 },
    ];
    driven(alloc, Vec::from_array(alloc, plan)?, callbacks)
}

/// What is told of the plan, where each callback adds one to the calls.
fn counted(
    alloc: Global,
    h: Name,
    dev: DeviceNo,
    calls: &Arc<AtomicU64>,
) -> Result<Sequence<Entry>> {
    let rule = Rule::Again {
        on: StatusSet::COMPLETED,
        rounds: 1,
    };
    let (first, second) = (calls.clone()?, calls.clone()?);
    let again_once: Repeat = Box::new(
        alloc,
        move |returned: &Returned| -> Verdict
            ensures { result ≡ verdict_of rule returned.now.status returned.now.round }
        {
            let _before = first.fetch_add(1, Ordering::SeqCst);
            rule.verdict(returned.status, returned.round)
        },
    )?;
    let once: Once = Box::new(alloc, move |_returned: Returned| {
        let _before = second.fetch_add(1, Ordering::SeqCst);
    })?;
    let mut callbacks = Vec::new(alloc);
    callbacks.push(StoredCallback::repeat(rule, again_once))?;
    callbacks.push(StoredCallback::once(once))?;
    told(alloc, h, dev, callbacks)
}

/// Runs the plan, and prints how often its callbacks are called and what is told of it: of three short packets the first two are
/// read; the first callback submits once more, the second ends.
pub fn play<R: Print>(rt: &R, alloc: Global) -> Result<()> {
    let (Some(h), Some(dev)) = (Name::new(1), DeviceNo::new(0)) else {
        return Err(anyhow!("a name and a device"));
    };
    let calls = Arc::new(alloc, AtomicU64::new(0))?;
    let entries = counted(alloc, h, dev, &calls)?;
    let count = calls.load(Ordering::SeqCst);
    println!(rt; "a plan whose callbacks are called: {count} times")?;
    print_entries(rt, entries.as_slice())
}
