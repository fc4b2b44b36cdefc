//! One packet of a core whose devices compute their answers.

ghost use Rattle.std.specs.Prelude.{IfErr, IfOk, OnErr, ◌≡◌};
ghost use Rattle.usb_core.specs.Public.{StillCarries};
ghost use Rattle.usb_living.specs.Asks.{Asks, RefusesAnswer};

use crate::living::Living;
use usb_core::Core;
use usb_device::Feed;
use usb_model::{DeviceNo, Entry, EpAddr, Refused, Reply};

/// A device answers one packet (USB 2.0, 8.5), which it is asked for where its script has no answer left: as `Core::serve`, over the
/// script with its answer. Where it isn't ready no step is made, and the entry says that it isn't. An answer that the endpoint can't
/// have is refused with InvalidParam, and want of memory with NoMem: the core is as it was, and the answer is lost.
pub fn ask<P, D: Feed, L: Living>(
    core: &mut Core<P, D>,
    living: &mut L,
    dev: DeviceNo,
    ep: EpAddr,
) -> Result<Entry, Refused>
    ensures asked { IfOk result (λ entry. Asks (L.may_answer) core.old core.new living.old living.new dev ep entry) }
    ensures refused { IfErr result (λ why. RefusesAnswer (L.may_answer) core.old living.old living.new dev ep why) }
    ensures stays { OnErr result (core.new ≡ core.old) }
    ensures carries { StillCarries core.old core.new }
{
    let Some(offer) = core.offer(dev, ep) else {
        return Ok(core.serve(dev, ep));
    };
    if !offer.wants {
        return Ok(core.serve(dev, ep));
    }
    let Some(answer) = living.answer(dev, ep, offer.out, offer.room) else {
        return Ok(Entry {
            owner: Some(offer.owner),
            reply: Reply::Nak { n: offer.n },
        });
    };
    match core.feed(dev, ep, answer) {
        Ok(()) => Ok(core.serve(dev, ep)),
        Err(why) => Err(why),
    }
}
