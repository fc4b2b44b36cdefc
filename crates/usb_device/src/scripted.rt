//! A device of which one can ask how far it is.

ghost use Rattle.std.specs.Prelude.{◌≡◌, length};
ghost use Rattle.usb_device.specs.Pipe.{pipe_at};

use crate::device::Device;
use usb_model::EpAddr;

/// A device that tells how far it is in its scripts.
pub trait Scripted: Device {
    /// How many answers are left in an endpoint's script.
    fn answers_left(&self, ep: EpAddr) -> usize
        ensures { result ≡ length (pipe_at (Self.pipes self.now) ep).left };

    /// Whether the device has an endpoint halted (USB 2.0, 9.4.5, ENDPOINT_HALT).
    fn is_halted(&self, ep: EpAddr) -> bool
        ensures { result ≡ (pipe_at (Self.pipes self.now) ep).halted };
}
