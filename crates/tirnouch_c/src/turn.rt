//! A packet's way in one call.

ghost use Rattle.std.specs.Prelude.{◌≡◌};
ghost use Rattle.tirnouch_c.specs.Turn.{Works};

use crate::LentMemory;
use crate::packets::serve;
use crate::replies::StepReply;
use crate::results::{TakenResult, take};
use crate::session::Session;
use crate::settling::{SettleProgress, settle};
use std::alloc::Global;
use usb_model::{DeviceNo, EpAddr};

/// Packets at an endpoint, at most so many; what is to be done behind them, without other packets, at most so many steps; and the
/// oldest result. Memory that C lent for it goes back.
pub fn work(
    alloc: Global,
    session: &mut Session,
    dev: DeviceNo,
    ep: EpAddr,
    packets: u32,
    steps: u32,
    back: &mut LentMemory,
    out: &mut TakenResult,
) -> i32
    ensures { Works dev ep packets steps result out.new back.old back.new session.old session.new }
{
    let mut served = StepReply::nothing();
    let mut settled = SettleProgress::new(0, false);
    serve(session, dev, ep, packets, &mut served);
    settle(session, false, steps, &mut settled);
    take(alloc, session, back, out)
}
