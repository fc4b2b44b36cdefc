//! What waits in the core, whosever it is: orders come out as they are carried out, and events as they are handled.

ghost use Rattle.std.specs.Prelude.{◌≡◌, ◌++◌, ℕ, IfOk, map, take};
ghost use Rattle.usb_model.specs.declared.step.Step.TheVariants.{Command, Deliver};
ghost use Rattle.usb_model.specs.Setup.{Setup as ModelSetup};
ghost use Rattle.usb_model.specs.World.{World, turn};
ghost use Rattle.usb_core.specs.Public.{ShowsWorld};
ghost use Rattle.trace_left.specs.Gathered.{TakesOrders, all_waiting, event_of, event_told, first_of, of_option, order_of, order_told, result_of, result_told, thing_told};

use crate::left::{Left, Thing};
use std::alloc::{AllocError, Global};
use usb_core::{Core, Delivered, WaitingResult};
use usb_device::Device;
use usb_model::{Entry, EpAddr, Name, Reply, Step};

/// A result that waits.
fn result_left(waiting: WaitingResult) -> Left
    ensures { result ≡ result_told waiting }
{
    let WaitingResult { h, ep, n, status } = waiting;
    let thing = Thing::Result { n, status };
    Left::At { h, ep, thing }
}

/// Adds the results that wait, the oldest first.
fn add_results<P, D: Device>(core: &Core<P, D>, left: &mut Vec<Left>) -> Result<(), AllocError>
    ensures { (setup : ModelSetup) (w : World) → ShowsWorld setup core.now w → IfOk result (λ _. left.new.items ≡ left.old.items ++ map result_of w.results) }
{
    for i in 0..usize::MAX {
        let Some(waiting) = core.result_at(i) else {
            return Ok(());
        };
        left.push(result_left(waiting))?;
    }
    Err(AllocError)
}

/// The order that was carried out, as its entry tells; None where none was.
fn order_left(entry: &Entry) -> Option<Left>
    ensures { result ≡ order_told entry.now.owner entry.now.reply }
{
    let h = entry.owner?;
    match entry.reply {
        Reply::Ran { ep, errand, .. } => Some(Left::At {
            h,
            ep,
            thing: Thing::Order { errand },
        }),
        _ => None,
    }
}

/// What the entry of an event tells; None where none waited.
fn thing_told(reply: &Reply) -> Option<Thing>
    ensures { result ≡ thing_told reply.now }
{
    match reply {
        Reply::Finished { n } => Some(Thing::Finished { n: *n }),
        Reply::Paused { n } => Some(Thing::Paused { n: *n }),
        Reply::Settled { errand, ok, .. } => Some(Thing::Settled {
            errand: *errand,
            ok: *ok,
        }),
        _ => None,
    }
}

/// The event that was handled, at its endpoint; None where none was.
fn event_left(entry: &Entry, at: Option<EpAddr>) -> Option<Left>
    ensures { result ≡ event_told entry.now.owner at entry.now.reply }
{
    let h = entry.owner?;
    let ep = at?;
    let thing = thing_told(&entry.reply)?;
    Some(Left::At { h, ep, thing })
}

/// Carries out the first order that waits, and adds it.
fn add_order<P, D: Device>(core: &mut Core<P, D>, left: &mut Vec<Left>) -> Result<(), AllocError>
    ensures world { (setup : ModelSetup) (w : World) → ShowsWorld setup core.old w → ShowsWorld setup core.new (turn setup w Command).world }
    ensures order { (setup : ModelSetup) (w : World) → ShowsWorld setup core.old w → IfOk result (λ _. left.new.items ≡ left.old.items ++ of_option (first_of order_of w.orders)) }
{
    let entry = core.call(Step::Command);
    add_if_any(order_left(&entry), left)
}

/// Handles the first event that waits, and adds it.
fn add_event<P, D: Device>(core: &mut Core<P, D>, left: &mut Vec<Left>) -> Result<(), AllocError>
    ensures world { (setup : ModelSetup) (w : World) → ShowsWorld setup core.old w → ShowsWorld setup core.new (turn setup w Deliver).world }
    ensures event { (setup : ModelSetup) (w : World) → ShowsWorld setup core.old w → IfOk result (λ _. left.new.items ≡ left.old.items ++ of_option (first_of event_of w.news)) }
{
    let Delivered { entry, ep } = core.deliver_at();
    add_if_any(event_left(&entry, ep), left)
}

/// Adds this, if it is there.
fn add_if_any(one: Option<Left>, left: &mut Vec<Left>) -> Result<(), AllocError>
    ensures { IfOk result (λ _. left.new.items ≡ left.old.items ++ of_option one) }
{
    if let Some(one) = one {
        left.push(one)?;
    }
    Ok(())
}

/// Carries out so many orders that wait, and adds them.
fn add_orders<P, D: Device>(
    core: &mut Core<P, D>,
    count: usize,
    left: &mut Vec<Left>,
) -> Result<(), AllocError>
    ensures { (setup : ModelSetup) (w : World) → ShowsWorld setup core.old w → IfOk result (λ _. TakesOrders setup w core.new count left.old.items left.new.items) }
{
    for turn in 0..count {
        add_order(core, left)?;
    }
    Ok(())
}

/// Handles so many events that wait, and adds them.
fn add_events<P, D: Device>(
    core: &mut Core<P, D>,
    count: usize,
    left: &mut Vec<Left>,
) -> Result<(), AllocError>
    ensures { (setup : ModelSetup) (w : World) → ShowsWorld setup core.old w → IfOk result (λ _. left.new.items ≡ left.old.items ++ map event_of (take count w.news)) }
{
    for turn in 0..count {
        add_event(core, left)?;
    }
    Ok(())
}

/// The orders, the events and the results that wait. The orders are carried out, and the events handled.
pub(crate) fn all_waiting<P, D: Device>(
    alloc: Global,
    core: &mut Core<P, D>,
) -> Result<Vec<Left>, AllocError>
    ensures { (setup : ModelSetup) (w : World) → ShowsWorld setup core.old w → IfOk result (λ left. left.items ≡ all_waiting w) }
{
    let mut results = Vec::new(alloc);
    add_results(core, &mut results)?;
    let (orders, events) = (core.orders_waiting(), core.events_waiting());
    let mut left = Vec::new(alloc);
    add_orders(core, orders, &mut left)?;
    add_events(core, events, &mut left)?;
    left.append(&mut results)?;
    Ok(left)
}
