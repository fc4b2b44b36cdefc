//! Steps that carry nothing.

ghost use Rattle.std.specs.Prelude.{◌≡◌, false, IfSome};
ghost use Rattle.usb_core.specs.Public.{takes_memory};
ghost use Rattle.tirnouch_c.specs.Calls.{Makes, step_by};

use crate::replies::{StepReply, code_of};
use crate::session::Session;
use usb_model::{DeviceNo, EpAddr, Name, Step};

/// The step of a verb: 0 open (a: device), 1 close, 2 claim (a: interface), 3 release, 4 reset, 5 clear halt (a: endpoint),
/// 6 cancel, 7 expire, 11 unplug (a: device).
#[tactic(auto, unfolding(crate::specs::Calls::step_by))]
pub fn step_by(verb: u8, h: Name, a: u8, n: u64) -> Option<Step>
    ensures step { result ≡ step_by verb h a n }
    ensures free { IfSome result (λ x. takes_memory x ≡ false) }
{
    Some(match verb {
        0 => Step::Open {
            h,
            dev: DeviceNo::new(a)?,
        },
        1 => Step::Close { h },
        2 => Step::Claim { h, i: a },
        3 => Step::Release { h, i: a },
        4 => Step::Reset { h },
        5 => Step::ClearHalt {
            h,
            ep: EpAddr::new(a),
        },
        6 => Step::Cancel { h, n },
        7 => Step::Expire { h, n },
        11 => Step::Unplug {
            dev: DeviceNo::new(a)?,
        },
        _ => return None,
    })
}

/// Makes a step that takes no memory; its answer is libusb's number of a refusal, else 0.
pub fn make(session: &mut Session, step: Step, reply: &mut StepReply) -> i32
    requires { takes_memory step ≡ false }
    ensures { Makes step result reply.new session.old session.new }
{
    let entry = session.core.call(step);
    *reply = StepReply::of(&entry);
    code_of(&entry.reply)
}
