//! Errands at an endpoint: one is ordered, or the endpoint goes on without.

ghost use Rattle.std.specs.Prelude.{◌≡◌, ◌≤◌, ℕ, IfSome, length, option_map};
ghost use Rattle.usb_tables.specs.Outstanding.{sent_at};
ghost use Rattle.refine_core.specs.Payloads.{StillCarries};
ghost use Rattle.refine_core.specs.Steps.{CanPost};
ghost use Rattle.refine_core.specs.Works.{Posts, context_in, order_by};

use crate::parts::Parts;
use usb_device::Device;
use usb_model::{DeviceNo, EpAddr, Errand};
use usb_tables::Sent;
use usb_trb::TrbKind;

impl<P, D: Device> Parts<P, D> {
    /// Orders an errand at an endpoint (xHCI 1.2, 4.6): it is then outstanding, under its order's index.
    pub(crate) fn post(&mut self, dev: DeviceNo, ep: EpAddr, errand: Errand)
        requires { CanPost self.old dev ep }
        ensures done { (h : ℕ) → Posts self.old self.new h dev ep errand }
        ensures carries { StillCarries self.old self.new }
    {
        let blanks = self.flights.blanks_from(dev, ep, 0);
        if let Some(order) = self.order_of(dev, ep, errand, blanks) {
            let index = self.controller.order(order);
            self.outstanding.set(dev, ep, Some(Sent { errand, index }));
        }
    }

    /// The errand that is outstanding at an endpoint.
    pub(crate) fn errand(&self, dev: DeviceNo, ep: EpAddr) -> Option<Errand>
        ensures { result ≡ option_map (λ x. x.errand) (sent_at self.now.outstanding dev ep) }
    {
        match self.outstanding.get(dev, ep) {
            Some(sent) => Some(sent.errand),
            None => None,
        }
    }

    /// The order of an errand, where so many blanks lead the line; None at an endpoint without a ring.
    fn order_of(&self, dev: DeviceNo, ep: EpAddr, errand: Errand, blanks: usize) -> Option<TrbKind>
        requires { IfSome (context_in self.now.controller dev ep) (λ x. blanks ≤ length x.ring.line.items) }
        ensures { result ≡ option_map (λ x. order_by x blanks errand) (context_in self.now.controller dev ep) }
    {
        let context = self.controller.slot(dev)?.context(ep)?;
        let (slot, id) = (context.slot(), context.id());
        Some(match errand {
            Errand::Stop => TrbKind::StopEndpoint { slot, id },
            Errand::Reset => TrbKind::ResetEndpoint { slot, id },
            Errand::Move => {
                let (pointer, state) = context.ring().pointer_to(blanks);
                TrbKind::SetDequeue {
                    pointer,
                    state,
                    slot,
                    id,
                }
            }
        })
    }
}
