//! A step that takes no memory, whichever it is.

ghost use Rattle.std.specs.Prelude.{◌≡◌, Some, false};
ghost use Rattle.refine_core.specs.Payloads.{StillCarries};
ghost use Rattle.refine_core.specs.State.{IsState};
ghost use Rattle.refine_core.specs.Steps.{DoesCoreStep};
ghost use Rattle.usb_core.specs.Calls.{takes_memory};

use crate::parts::Parts;
use usb_device::Device;
use usb_model::{Entry, Name, Reply, Step, Verdict};

/// The entry of a name's step.
fn entry_of(h: Name, reply: Reply) -> Entry
    ensures { result ≡ record { owner = Some h; reply = reply } }
{
    Entry {
        owner: Some(h),
        reply,
    }
}

impl<P, D: Device> Parts<P, D> {
    /// Makes a step that takes no memory: any but a submission, from within a callback or not, and a result that goes out.
    pub fn call(&mut self, step: Step) -> Entry
        requires shows { IsState self.old }
        requires plain { takes_memory step ≡ false }
        ensures done { DoesCoreStep self.old step result self.new }
        ensures carries { StillCarries self.old self.new }
    {
        match step {
            Step::Open { h, dev } => entry_of(h, self.open(h, dev)),
            Step::Close { h } => entry_of(h, self.close(h)),
            Step::Claim { h, i } => entry_of(h, self.claim(h, i)),
            Step::Release { h, i } => entry_of(h, self.release(h, i)),
            Step::Reset { h } => entry_of(h, self.reset(h)),
            Step::ClearHalt { h, ep } => entry_of(h, self.clear_halt(h, ep)),
            Step::Cancel { h, n } => entry_of(h, self.cancel(h, n)),
            Step::Expire { h, n } => entry_of(h, self.expire(h, n)),
            Step::Serve { dev, ep } => self.serve(dev, ep),
            Step::Command => self.command(),
            Step::Deliver => self.deliver(),
            Step::Answer { h, n, verdict } => match verdict {
                Verdict::Stop => entry_of(h, self.stop(h, n)),
                _ => unreachable!(),
            },
            Step::Unplug { dev } => Entry {
                owner: None,
                reply: self.unplug(dev),
            },
            Step::Submit { .. } | Step::Take => unreachable!(),
        }
    }
}
