//! Events and orders in a row: the event loop's part of a burst.

ghost use Rattle.std.specs.Prelude.{◌≡◌, length};
ghost use Rattle.usb_model.specs.Setup.{Setup};
ghost use Rattle.usb_model.specs.World.{World};
ghost use Rattle.refine_world.specs.Shows.{Core, Shows};
ghost use Rattle.refine_core.specs.Payloads.{StillCarries};
ghost use Rattle.refine_core.specs.State.{IsState, Keeps};
ghost use Rattle.refine_core.specs.Steps.{core_behind};
ghost use Rattle.usb_core.specs.Drains.{DrainsOne, drained_steps};

use crate::parts::Parts;
use usb_device::Device;

impl<P, D: Device> Parts<P, D> {
    /// Events are handled and orders carried out, at most so many, until a result waits or neither is left: an event comes
    /// before an order. How many they were. Takes no memory.
    pub fn drain(&mut self, most: u32) -> u32
        requires { IsState self.old }
        ensures drained { (setup : Setup) (w : World) (c : Core) → Keeps setup self.old c → Shows setup w c → (result ≡ length (drained_steps most setup w)) × Keeps setup self.new (core_behind setup c (drained_steps most setup w)) }
        ensures carries { StillCarries self.old self.new }
    {
        for done in 0..most {
            if !self.drain_one() {
                return done;
            }
        }
        most
    }

    /// The oldest event is handled, or else the oldest order carried out, where no result waits; whether there was one.
    fn drain_one(&mut self) -> bool
        requires { IsState self.old }
        ensures drained { (setup : Setup) (w : World) (c : Core) → Keeps setup self.old c → Shows setup w c → DrainsOne setup w c result self.new }
        ensures carries { StillCarries self.old self.new }
    {
        if self.has_result() {
            return false;
        }
        if self.has_event() {
            let _ = self.deliver();
            return true;
        }
        if self.has_order() {
            let _ = self.command();
            return true;
        }
        false
    }
}
