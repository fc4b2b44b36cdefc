//! Lines that are pieces of a plan, but for submissions: a function for each first word, over the words behind it.

ghost use Rattle.trace_scenario.specs.LineResults.{ReadsPiece};
ghost use Rattle.trace_scenario.specs.Step.{bare_of, open_of, close_of, claim_of, release_of, reset_of, clear_of, cancel_of, expire_of, serve_of, unplug_of, return_of};
ghost use Rattle.usb_scripttext.specs.Words.{words_of};

use crate::handles::{handle, number};
use usb_model::{Plan, Step};
use usb_scripttext::number::{address, device, interface};
use usb_scripttext::{LineFault, Problem};

/// A step that names nothing.
#[tactic(auto, unfolding(crate::specs::Step::bare_of))]
pub(crate) fn bare(words: &[&str], step: Step) -> Result<Plan, LineFault>
    ensures { ReadsPiece result (bare_of step (words_of words.now)) }
{
    let [] = words else {
        return Err(LineFault::Bad(Problem::Form));
    };
    Ok(Plan::Do(step))
}

/// A handle opens a device.
#[tactic(auto, unfolding(crate::specs::Step::open_of))]
pub(crate) fn open(words: &[&str]) -> Result<Plan, LineFault>
    ensures { ReadsPiece result (open_of (words_of words.now)) }
{
    let [h, dev] = words else {
        return Err(LineFault::Bad(Problem::Form));
    };
    Ok(Plan::Do(Step::Open {
        h: handle(h)?,
        dev: device(dev)?,
    }))
}

/// A handle is closed.
#[tactic(auto, unfolding(crate::specs::Step::close_of))]
pub(crate) fn close(words: &[&str]) -> Result<Plan, LineFault>
    ensures { ReadsPiece result (close_of (words_of words.now)) }
{
    let [h] = words else {
        return Err(LineFault::Bad(Problem::Form));
    };
    Ok(Plan::Do(Step::Close { h: handle(h)? }))
}

/// A handle claims an interface.
#[tactic(auto, unfolding(crate::specs::Step::claim_of))]
pub(crate) fn claim(words: &[&str]) -> Result<Plan, LineFault>
    ensures { ReadsPiece result (claim_of (words_of words.now)) }
{
    let [h, i] = words else {
        return Err(LineFault::Bad(Problem::Form));
    };
    Ok(Plan::Do(Step::Claim {
        h: handle(h)?,
        i: interface(i)?,
    }))
}

/// A handle releases an interface.
#[tactic(auto, unfolding(crate::specs::Step::release_of))]
pub(crate) fn release(words: &[&str]) -> Result<Plan, LineFault>
    ensures { ReadsPiece result (release_of (words_of words.now)) }
{
    let [h, i] = words else {
        return Err(LineFault::Bad(Problem::Form));
    };
    Ok(Plan::Do(Step::Release {
        h: handle(h)?,
        i: interface(i)?,
    }))
}

/// A handle resets its device.
#[tactic(auto, unfolding(crate::specs::Step::reset_of))]
pub(crate) fn reset(words: &[&str]) -> Result<Plan, LineFault>
    ensures { ReadsPiece result (reset_of (words_of words.now)) }
{
    let [h] = words else {
        return Err(LineFault::Bad(Problem::Form));
    };
    Ok(Plan::Do(Step::Reset { h: handle(h)? }))
}

/// A handle clears the halt of an endpoint.
#[tactic(auto, unfolding(crate::specs::Step::clear_of))]
pub(crate) fn clear(words: &[&str]) -> Result<Plan, LineFault>
    ensures { ReadsPiece result (clear_of (words_of words.now)) }
{
    let [h, ep] = words else {
        return Err(LineFault::Bad(Problem::Form));
    };
    Ok(Plan::Do(Step::ClearHalt {
        h: handle(h)?,
        ep: address(ep)?,
    }))
}

/// A handle cancels a transfer.
#[tactic(auto, unfolding(crate::specs::Step::cancel_of))]
pub(crate) fn cancel(words: &[&str]) -> Result<Plan, LineFault>
    ensures { ReadsPiece result (cancel_of (words_of words.now)) }
{
    let [h, n] = words else {
        return Err(LineFault::Bad(Problem::Form));
    };
    Ok(Plan::Do(Step::Cancel {
        h: handle(h)?,
        n: number(n)?,
    }))
}

/// A transfer's time is over.
#[tactic(auto, unfolding(crate::specs::Step::expire_of))]
pub(crate) fn expire(words: &[&str]) -> Result<Plan, LineFault>
    ensures { ReadsPiece result (expire_of (words_of words.now)) }
{
    let [h, n] = words else {
        return Err(LineFault::Bad(Problem::Form));
    };
    Ok(Plan::Do(Step::Expire {
        h: handle(h)?,
        n: number(n)?,
    }))
}

/// An endpoint of a device is served.
#[tactic(auto, unfolding(crate::specs::Step::serve_of))]
pub(crate) fn serve(words: &[&str]) -> Result<Plan, LineFault>
    ensures { ReadsPiece result (serve_of (words_of words.now)) }
{
    let [dev, ep] = words else {
        return Err(LineFault::Bad(Problem::Form));
    };
    Ok(Plan::Do(Step::Serve {
        dev: device(dev)?,
        ep: address(ep)?,
    }))
}

/// A device is unplugged.
#[tactic(auto, unfolding(crate::specs::Step::unplug_of))]
pub(crate) fn unplug(words: &[&str]) -> Result<Plan, LineFault>
    ensures { ReadsPiece result (unplug_of (words_of words.now)) }
{
    let [dev] = words else {
        return Err(LineFault::Bad(Problem::Form));
    };
    Ok(Plan::Do(Step::Unplug { dev: device(dev)? }))
}

/// A callback is called, and its verdict answered.
#[tactic(auto, unfolding(crate::specs::Step::return_of))]
pub(crate) fn callback(words: &[&str]) -> Result<Plan, LineFault>
    ensures { ReadsPiece result (return_of (words_of words.now)) }
{
    let [h, n] = words else {
        return Err(LineFault::Bad(Problem::Form));
    };
    Ok(Plan::Return {
        h: handle(h)?,
        n: number(n)?,
    })
}
