//! Of which errand a completion is (xHCI 1.2, 6.4.2.2).

ghost use Rattle.std.specs.Prelude.{◌≡◌, ℕ};
ghost use Rattle.usb_model.specs.Setup.{Setup};
ghost use Rattle.usb_trb.specs.declared.kind.TrbKind.TheVariants.{CommandCompletion};
ghost use Rattle.refine_world.specs.Shows.{Core};
ghost use Rattle.refine_core.specs.Deliveries.{IsTaken, stands_at};
ghost use Rattle.usb_core.specs.Senders.{EndIs, SenderIs};

use crate::parts::Parts;
use usb_device::Device;
use usb_model::{DeviceNo, EpAddr, Errand, Name};
use usb_tables::HeldEndpoint;
use usb_trb::{Pointer, Slot};

impl<P, D: Device> Parts<P, D> {
    /// The endpoint whose errand a Command Completion TRB that was taken is of, and the errand.
    pub(crate) fn sender(&self, pointer: Pointer, slot: Slot) -> Option<(HeldEndpoint, Errand)>
        ensures { (setup : Setup) (c : Core) (code : ℕ) → IsTaken setup self.now c (CommandCompletion pointer code slot) → SenderIs setup self.now c code result }
    {
        let dev = DeviceNo::new(slot.number() - 1)?;
        let config = self.claims.config(dev)?;
        for info in config.endpoints() {
            let ep = info.address;
            if let Some((name, errand)) = self.errand_at(dev, ep, pointer) {
                return Some((HeldEndpoint { dev, ep, name }, errand));
            }
        }
        None
    }

    /// The name that holds an endpoint, and its errand, if the errand's order stands at this place of the command ring.
    fn errand_at(&self, dev: DeviceNo, ep: EpAddr, pointer: Pointer) -> Option<(Name, Errand)>
        ensures { (setup : Setup) (c : Core) (code slot : ℕ) → IsTaken setup self.now c (CommandCompletion pointer code slot) → EndIs setup self.now c pointer code slot dev ep result }
    {
        let name = self.claims.holder(dev, ep)?;
        let sent = self.outstanding.get(dev, ep)?;
        if self.stands_at(sent.index, pointer) {
            Some((name, sent.errand))
        } else {
            None
        }
    }

    /// Whether the order of this index stands at this place of the command ring.
    fn stands_at(&self, index: usize, pointer: Pointer) -> bool
        ensures { result ≡ stands_at self.now.controller index pointer }
    {
        index < 255 && self.controller.command_ring().address(index).address() == pointer.address()
    }
}
