//! Answers that are made while the run goes on.

ghost use Rattle.std.specs.Prelude.{◌≡◌, ◌<◌, None, true, IfErr, IfSome, OnErr, OnOk, if◌then◌else◌};
ghost use Rattle.usb_model.specs.Setup.{Setup as ModelSetup};
ghost use Rattle.usb_model.specs.World.{World};
ghost use Rattle.usb_model.specs.declared.refused.Refused.TheVariants.{InvalidParam, NoMem};
ghost use Rattle.refine_core.specs.Feeds.{FeedsWorld, may_be_fed_at};
ghost use Rattle.refine_core.specs.Offers.{HasNone, IsNext};
ghost use Rattle.refine_core.specs.Payloads.{StillCarries};
ghost use Rattle.refine_core.specs.State.{ShowsWorld};

use crate::Offer;
use crate::calls::Core;
use usb_device::{Feed, Scripted};
use usb_model::{DeviceNo, EpAddr, Refused, Response};

impl<P, D: Scripted> Core<P, D> {
    /// The packet that a device is to answer next at an endpoint: that of the first transfer that waits there, where the endpoint runs
    /// and somebody holds it, and whether the device is asked, since its script has no answer left (`IsNext`). None where a Serve would
    /// be idle. Takes no memory, and no step is made.
    pub fn offer(&self, dev: DeviceNo, ep: EpAddr) -> Option<Offer<'_>>
        ensures next { (setup : ModelSetup) (w : World) → ShowsWorld setup self.now w → IfSome result (λ o. IsNext setup w dev ep o.owner o.n o.out.now o.room o.wants) }
        ensures none { (setup : ModelSetup) (w : World) → ShowsWorld setup self.now w → result ≡ None → HasNone setup w dev ep }
        ensures below { IfSome result (λ o. o.room < 65536) }
    {
        self.parts.offer(dev, ep)
    }
}

impl<P, D: Feed> Core<P, D> {
    /// One more answer behind the script of a device's endpoint, held or not, as if it had stood there from the beginning: whatever
    /// was served before, the core then shows the world of these longer scripts where it stands (`FeedsWorld`), and no step is made.
    /// InvalidParam where the endpoint can't have it (laws `feeds_feedable`, `feeds_only_feedable` of refine_core): there is none, the
    /// answer is of the other direction, its packet is longer than `LARGEST_PACKET`, or the script has `LONGEST_SCRIPT` answers.
    /// Else NoMem where memory is refused. Then nothing changed.
    pub fn feed(&mut self, dev: DeviceNo, ep: EpAddr, answer: Response) -> Result<(), Refused>
        ensures fed { OnOk result (FeedsWorld self.old dev ep answer self.new) }
        ensures may { OnOk result (may_be_fed_at dev ep answer self.old ≡ true) }
        ensures stays { OnErr result (self.new ≡ self.old) }
        ensures why { IfErr result (λ why. why ≡ (if may_be_fed_at dev ep answer self.old then NoMem else InvalidParam)) }
        ensures carries { StillCarries self.old self.new }
    {
        self.parts.feed(dev, ep, answer)
    }
}
