//! What an event tells of a transfer (xHCI 1.2, 4.11.3 and 6.4.2.1).

ghost use Rattle.std.specs.Prelude.{◌≡◌, ◌<◌, ◌≤◌, ◌+◌, ◌^◌, ℕ, length, option_copied};
ghost use Rattle.usb_model.specs.Limits.{most_bytes};
ghost use Rattle.usb_model.specs.Requests.{length_of};
ghost use Rattle.usb_model.specs.Setup.{Setup};
ghost use Rattle.usb_tables.specs.Tds.{lengths, tds_of};
ghost use Rattle.usb_trb.specs.declared.kind.TrbKind.TheVariants.{TransferEvent};
ghost use Rattle.refine_world.specs.Shows.{Core};
ghost use Rattle.refine_core.specs.Deliveries.{IsEvent, IsTaken, is_gone};
ghost use Rattle.refine_core.specs.Works.{context_in};
ghost use Rattle.usb_core.specs.Reports.{ToldIs, target_of};

use crate::parts::Parts;
use usb_device::Device;
use usb_model::{DeviceNo, EpAddr};
use usb_tables::{HeldEndpoint, Reading, Target, Tds, Transfer};
use usb_trb::{EndpointId, Pointer, Residual, Slot};
use usb_xhc::EndpointContext;

/// A transfer in progress, as an event tells of it.
#[derive(Clone, Copy, PartialEq, Eq, Debug)]
pub(crate) struct Report {
    /// Its endpoint, and the name that holds it.
    pub(crate) at: HeldEndpoint,
    /// Its number.
    pub(crate) n: u64,
    /// What the event says of it.
    pub(crate) reading: Reading,
}

/// A transfer, at the TRB of which an event points, as the event is read. gone: whether its device is; size: the packet
/// size of its endpoint, in bytes.
fn target<P>(gone: bool, size: u16, item: usize, trb: usize, transfer: &Transfer<P>) -> Target
    requires few { length_of transfer.now.request.body ≤ most_bytes }
    requires inside { trb < length (lengths (tds_of size transfer.now.request)) }
    ensures value { result ≡ target_of gone size item trb transfer.now }
    ensures small { result.before + result.here < 2 ^ 32 }
{
    let tds = Tds::of(size, &transfer.request);
    let span = tds.span(trb);
    Target {
        item,
        gone,
        flags: transfer.request.flags,
        length: tds.length(),
        ask: transfer.ask,
        before: span.before,
        here: span.length,
    }
}

impl<P, D: Device> Parts<P, D> {
    /// What the event of a Transfer Event TRB that was taken tells, and of which transfer.
    pub(crate) fn told(
        &self,
        pointer: Pointer,
        residual: Residual,
        code: u8,
        slot: Slot,
        id: EndpointId,
    ) -> Option<Report>
        requires { IsEvent self.now (TransferEvent pointer residual code slot id) }
        ensures { (setup : Setup) (c : Core) → IsTaken setup self.now c (TransferEvent pointer residual code slot id) → ToldIs setup self.now c code result }
    {
        let at = self.claims.held_at(slot.number(), id.number())?;
        let (dev, ep) = (at.dev, at.ep);
        let context = self.context(dev, ep)?;
        let (item, trb) = context.ring().place_at(pointer.address())?;
        let transfer = self.flights.get(dev, ep, item)?;
        let target = target(self.is_gone(dev), context.size(), item, trb, transfer);
        Some(Report {
            at,
            n: transfer.n,
            reading: target.read(residual, code),
        })
    }

    /// What the controller keeps of an endpoint.
    pub(crate) fn context(&self, dev: DeviceNo, ep: EpAddr) -> Option<&EndpointContext>
        ensures { option_copied result ≡ context_in self.now.controller dev ep }
    {
        self.controller.slot(dev)?.context(ep)
    }
}
