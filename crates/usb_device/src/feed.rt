//! Devices whose scripts go on while they run.

ghost use Rattle.std.specs.Prelude.{◌≡◌, true, IfErr, OnErr, OnOk, if◌then◌else◌, slice_set};
ghost use Rattle.usb_model.specs.Setup.{endpoint_id};
ghost use Rattle.usb_model.specs.declared.refused.Refused.TheVariants.{InvalidParam, NoMem};
ghost use Rattle.usb_device.specs.Feeds.{may_be_fed, pipe_fed};
ghost use Rattle.usb_device.specs.Pipe.{IsLawful, pipe_at};

use crate::scripted::Scripted;
use usb_model::{EpAddr, Refused, Response};

/// A device whose scripts go on while it runs, as if it had known each answer from its beginning.
pub trait Feed: Scripted {
    /// One more answer behind an endpoint's script. InvalidParam where there is no such endpoint, where the answer isn't one of its
    /// direction (an Ack for IN, Data for OUT) or its packet is longer than `LARGEST_PACKET`, and where the script has
    /// `LONGEST_SCRIPT` answers; else NoMem where memory is refused. Then nothing changed.
    fn feed(&mut self, ep: EpAddr, answer: Response) -> Result<(), Refused>
        ensures fed { OnOk result (Self.pipes self.new ≡ slice_set (Self.pipes self.old) (endpoint_id ep) (pipe_fed answer (pipe_at (Self.pipes self.old) ep))) }
        ensures may { OnOk result (may_be_fed ep answer (pipe_at (Self.pipes self.old) ep) ≡ true) }
        ensures stays { OnErr result (Self.pipes self.new ≡ Self.pipes self.old) }
        ensures why { IfErr result (λ why. why ≡ (if may_be_fed ep answer (pipe_at (Self.pipes self.old) ep) then NoMem else InvalidParam)) }
        ensures lawful { IsLawful (Self.pipes self.new) };
}
