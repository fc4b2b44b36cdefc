//! The end of a transfer is told: its result is made, and it leaves its line.

ghost use Rattle.std.specs.Prelude.{◌≡◌, ◌≤◌};
ghost use Rattle.refine_core.specs.Payloads.{StillCarries};
ghost use Rattle.refine_core.specs.Deliveries.{CanFinish, leaving};
ghost use Rattle.refine_core.specs.Works.{Finishes};

use crate::parts::Parts;
use usb_device::Device;
use usb_model::completion::halts;
use usb_model::{DeviceNo, EpAddr};
use usb_tables::{Ending, HeldEndpoint};

impl<P, D: Device> Parts<P, D> {
    /// A transfer ended with this code: its result is made, and it leaves the line with the blanks before it, and with
    /// those behind it where the endpoint goes on.
    pub(crate) fn finish(&mut self, at: HeldEndpoint, item: usize, ending: Ending, code: u8)
        requires { CanFinish self.old at.name at.dev at.ep item (leaving self.old at.dev at.ep item code) }
        ensures done { Finishes self.old self.new at.name at.dev at.ep item ending (leaving self.old at.dev at.ep item code) }
        ensures carries { StillCarries self.old self.new }
    {
        let HeldEndpoint { dev, ep, name } = at;
        let count = self.leaving(dev, ep, item, code);
        self.flights.end(dev, ep, item, ending);
        self.callers.result_made(name, ep);
        self.flights.leave(dev, ep, count);
        self.controller.drop_front(dev, ep, count);
    }

    /// How many items leave a line where the transfer of an item ended with this code.
    fn leaving(&self, dev: DeviceNo, ep: EpAddr, item: usize, code: u8) -> usize
        requires { leaving self.now dev ep item code ≤ 16 }
        ensures { result ≡ leaving self.now dev ep item code }
    {
        let behind = if halts(code) {
            0
        } else {
            self.flights.blanks_from(dev, ep, item + 1)
        };
        item + 1 + behind
    }
}
