//! Answers that are made while the run goes on.

ghost use Rattle.std.specs.Prelude.{◌≡◌, true, IfErr, OnErr, OnOk, if◌then◌else◌};
ghost use Rattle.usb_model.specs.declared.refused.Refused.TheVariants.{InvalidParam, NoMem};
ghost use Rattle.refine_core.specs.Feeds.{may_be_fed_at, state_fed};
ghost use Rattle.refine_core.specs.Payloads.{StillCarries};

use crate::parts::Parts;
use usb_device::Feed;
use usb_model::{DeviceNo, EpAddr, Refused, Response};

impl<P, D: Feed> Parts<P, D> {
    /// One more answer behind the script of a device's endpoint, as if it had stood there from the beginning. InvalidParam where the
    /// endpoint can't have it: there is none, it is of the other direction or too long, or the script is full. NoMem where memory is
    /// refused. Then nothing changed. No step is made.
    pub fn feed(&mut self, dev: DeviceNo, ep: EpAddr, answer: Response) -> Result<(), Refused>
        ensures fed { OnOk result (self.new ≡ state_fed dev ep answer self.old) }
        ensures may { OnOk result (may_be_fed_at dev ep answer self.old ≡ true) }
        ensures stays { OnErr result (self.new ≡ self.old) }
        ensures why { IfErr result (λ why. why ≡ (if may_be_fed_at dev ep answer self.old then NoMem else InvalidParam)) }
        ensures carries { StillCarries self.old self.new }
    {
        self.controller.feed(dev, ep, answer)
    }
}
