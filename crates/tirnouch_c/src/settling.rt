//! What is to be done, until nothing is.

ghost use Rattle.std.specs.Prelude.{◌≡◌, option_map};
ghost use Rattle.usb_model.specs.declared.step.Step.TheVariants.{Serve};
ghost use Rattle.usb_core.specs.Public.{ShowsWorld};
ghost use Rattle.usb_model.specs.Setup.{Setup};
ghost use Rattle.usb_model.specs.World.{World};
ghost use Rattle.tirnouch_c.specs.Replies.{bit};
ghost use Rattle.tirnouch_c.specs.Settling.{Advances, ServesNext, Settles, is_something, next_packet, next_step};

use crate::session::Session;
use usb_core::Core;
use usb_device::TableDevice;
use usb_model::{DeviceNo, EpAddr, Step};

/// How far `tirnouch_settle` came.
#[repr(C)]
#[derive(Clone, Copy, Drop)]
pub struct SettleProgress {
    /// How many steps were made.
    pub steps: u32,
    /// 1 where nothing is left to be done, else 0.
    pub is_settled: u8,
}

impl SettleProgress {
    /// So many steps were made; whether nothing is left.
    pub fn new(steps: u32, is_settled: bool) -> SettleProgress
        ensures { result ≡ record { steps = steps; is_settled = bit is_settled } }
    {
        SettleProgress {
            steps,
            is_settled: u8::from(is_settled),
        }
    }
}

/// Where the packet is that is to be served next.
fn next_packet(core: &Core<u64, TableDevice>) -> Option<(DeviceNo, EpAddr)>
    ensures { (setup : Setup) (w : World) → ShowsWorld setup core.now w → option_map (λ x. Serve x.0 x.1) result ≡ next_packet setup w }
{
    core.pending(None).serve
}

/// Makes the step that is to be made next, if there is one: an event is handled before an order runs, and an order runs before a
/// packet is served. Whether there was one.
fn advance(core: &mut Core<u64, TableDevice>, packets: bool) -> bool
    ensures { Advances packets result core.old core.new }
{
    if core.has_event() {
        let _ = core.deliver();
        return true;
    }
    if core.has_order() {
        let _ = core.call(Step::Command);
        return true;
    }
    packets && serve_next(core)
}

/// Serves the packet that is to be served next, if there is one; whether there was.
fn serve_next(core: &mut Core<u64, TableDevice>) -> bool
    ensures { ServesNext result core.old core.new }
{
    match next_packet(core) {
        None => false,
        Some(at) => {
            let _ = core.serve(at.0, at.1);
            true
        }
    }
}

/// Whether something is to be done.
fn is_left(core: &Core<u64, TableDevice>, packets: bool) -> bool
    ensures { (setup : Setup) (w : World) → ShowsWorld setup core.now w → result ≡ is_something (next_step setup packets w) }
{
    core.has_event() || core.has_order() || packets && next_packet(core).is_some()
}

/// Makes what is to be done, at most so many steps, with packets or without; how many they were, and whether nothing is left.
pub fn settle(session: &mut Session, packets: bool, most: u32, progress: &mut SettleProgress)
    ensures { Settles packets most progress.new session.old session.new }
{
    for done in 0..most {
        if !advance(&mut session.core, packets) {
            *progress = SettleProgress::new(done, true);
            return;
        }
    }
    let left = is_left(&session.core, packets);
    *progress = SettleProgress::new(most, !left);
}
