//! A device that computes its answers.

use usb_model::{DeviceNo, EpAddr, Response};

/// A device that is asked just before a packet is served for which its script has no answer.
pub trait Living: Drop {
    ghost use Rattle.std.specs.Prelude.{ℕ, List, Option};
    ghost use Rattle.usb_model.specs.declared.response.Response.{Response};

    /// What it may answer, being the first and becoming the last: to a packet at an endpoint of a device, of these bytes where the host
    /// sends, and of at most so many where it reads.
    ghost may_answer: { Self → ℕ → ℕ → List ℕ → ℕ → Option Response → Self → Type 0 };

    /// What it answers to the packet that is next at an endpoint: `out` has the bytes that the host sends, none where it reads; `room` is
    /// how many bytes the packet has, or may have. Data where the host reads, Ack where it sends, a Stall, a broken transaction; None
    /// where it isn't ready: it is asked again.
    fn answer(&mut self, dev: DeviceNo, ep: EpAddr, out: &[u8], room: usize) -> Option<Response>
        ensures { may_answer self.old dev ep out.now room result self.new };
}
