//! Packets at an endpoint.

ghost use Rattle.std.specs.Prelude.{◌≡◌, ◌<◌, Bool};
ghost use Rattle.tirnouch_c.specs.Packets.{Serves, ServesRow, goes_on};

use crate::replies::StepReply;
use crate::session::Session;
use usb_model::{DeviceNo, EpAddr, Reply};

/// Whether a device has an answer left at an endpoint, or is halted there.
fn is_ready(session: &Session, dev: DeviceNo, ep: EpAddr) -> bool {
    match session.core.controller().slot(dev) {
        None => false,
        Some(slot) => slot.ready(ep),
    }
}

/// Whether a device that replied so may be served once more: its packet ended no transfer. Where it wasn't ready, it may go on
/// in its script.
fn goes_on(session: &Session, dev: DeviceNo, ep: EpAddr, reply: &Reply) -> bool
    ensures { (ready : Bool) × (result ≡ goes_on ready reply.now) }
{
    match reply {
        Reply::Moved { .. } => true,
        Reply::Nak { .. } => is_ready(session, dev, ep),
        _ => false,
    }
}

/// A device answers packets in a row at an endpoint, at most so many: the reply of the last one, with how many they were, and whether
/// the endpoint may be served once more.
fn serve_row(session: &mut Session, dev: DeviceNo, ep: EpAddr, most: u32) -> (StepReply, bool)
    requires { 0 < most }
    ensures { ServesRow dev ep most result session.old session.new }
{
    let burst = session.core.serve_burst(dev, ep, most);
    let further = goes_on(session, dev, ep, &burst.last.reply);
    let reply = StepReply {
        packets: burst.full + 1,
        ..StepReply::of(&burst.last)
    };
    (reply, further)
}

/// A device answers packets at an endpoint, at most so many: until one ends a transfer, or it has no answer. The reply is that of the
/// last one, with how many they were.
pub fn serve(session: &mut Session, dev: DeviceNo, ep: EpAddr, most: u32, reply: &mut StepReply)
    ensures { Serves dev ep most reply.new session.old session.new }
{
    *reply = StepReply::nothing();
    let mut done = 0;
    while done < most {
        let (row, further) = serve_row(session, dev, ep, most - done);
        done += row.packets;
        *reply = StepReply {
            packets: done,
            ..row
        };
        if !further {
            return;
        }
    }
}
