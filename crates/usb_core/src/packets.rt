//! The device answers one packet (USB 2.0, 8.5).

ghost use Rattle.std.specs.Prelude.{◌≡◌, ◌<◌, IfSome, IsSome, Some, length, option_map};
ghost use Rattle.usb_tables.specs.TransfersInFlight.{item_at};
ghost use Rattle.usb_model.specs.declared.step.Step.TheVariants.{Serve};
ghost use Rattle.usb_tables.specs.declared.transfer.Transfer.{Transfer as InFlight};
ghost use Rattle.usb_xhc.specs.Controller.{served_at, told_at};
ghost use Rattle.refine_rings.specs.Reports.{reply_of};
ghost use Rattle.refine_core.specs.Packets.{CanServe, IsServed, Serves, out_of};
ghost use Rattle.refine_core.specs.Payloads.{StillCarries};
ghost use Rattle.refine_core.specs.State.{IsState};
ghost use Rattle.refine_core.specs.Steps.{DoesCoreStep};
ghost use Rattle.refine_core.specs.Works.{IsFront};

use crate::parts::Parts;
use usb_device::Device;
use usb_model::{Body, DeviceNo, Entry, EpAddr, Reply};
use usb_tables::{Transfer, TransfersInFlight};
use usb_xhc::{Controller, PacketResult};

impl<P, D: Device> Parts<P, D> {
    /// One packet of the transfer where the controller works at an endpoint. Nobody's and Idle where nobody holds the
    /// endpoint; Idle where there is nothing to serve: it isn't running, or no transfer is left.
    pub fn serve(&mut self, dev: DeviceNo, ep: EpAddr) -> Entry
        requires { IsState self.old }
        ensures done { DoesCoreStep self.old (Serve dev ep) result self.new }
        ensures carries { StillCarries self.old self.new }
    {
        let Some(name) = self.claims.holder(dev, ep) else {
            return Entry {
                owner: None,
                reply: Reply::Idle,
            };
        };
        let owner = Some(name);
        let Some(item) = self.front(dev, ep) else {
            return Entry {
                owner,
                reply: Reply::Idle,
            };
        };
        let Some(served) = serve_item(&mut self.flights, dev, ep, item, &mut self.controller) else {
            unreachable!();
        };
        Entry {
            owner,
            reply: reply_of(served.0, served.1),
        }
    }

    /// The item where the controller works at an endpoint, if it works there.
    pub(crate) fn front(&self, dev: DeviceNo, ep: EpAddr) -> Option<usize>
        ensures { IsFront self.now dev ep result }
    {
        let context = self.controller.slot(dev)?.context(ep)?;
        let first = context.working()?;
        context.ring().item_at(first.pointer.address())
    }
}

/// One packet of the transfer at a place of an endpoint's line, at the controller: the bytes that come join those read
/// before, or the next ones of those to be sent are sent. The transfer's number, and what the host is told; None where
/// there is nothing to serve.
fn serve_item<P, D: Device>(
    flights: &mut TransfersInFlight<P>,
    dev: DeviceNo,
    ep: EpAddr,
    item: usize,
    controller: &mut Controller<D>,
) -> Option<(u64, PacketResult)>
    requires item { IsSome (item_at flights.old dev ep item) }
    requires serves { IfSome (item_at flights.old dev ep item) (λ t. CanServe controller.old dev ep t.request.body t) }
    requires room { length controller.old.events.waits < 4095 }
    ensures packet { option_map (λ x. x.1) result ≡ told_at controller.old dev ep }
    ensures number { IfSome result (λ x. (t : InFlight P) → item_at flights.old dev ep item ≡ Some t → t.n ≡ x.0) }
    ensures controller { (t : InFlight P) → item_at flights.old dev ep item ≡ Some t → controller.new ≡ served_at controller.old dev ep (out_of ep t.request.body) }
    ensures transfer { (t : InFlight P) → item_at flights.old dev ep item ≡ Some t → Serves flights.old flights.new controller.old dev ep item t }
{
    let transfer = flights.get_mut(dev, ep, item)?;
    let n = transfer.n;
    let packet = exchange(transfer, dev, ep, controller)?;
    Some((n, packet))
}

/// One packet of this transfer at the controller, which borrows the transfer's bytes: IN reads, OUT sends. None where there
/// is nothing to serve.
fn exchange<P, D: Device>(
    transfer: &mut Transfer<P>,
    dev: DeviceNo,
    ep: EpAddr,
    controller: &mut Controller<D>,
) -> Option<PacketResult>
    requires served { CanServe controller.old dev ep transfer.old.request.body transfer.old }
    requires room { length controller.old.events.waits < 4095 }
    ensures packet { result ≡ told_at controller.old dev ep }
    ensures controller { controller.new ≡ served_at controller.old dev ep (out_of ep transfer.old.request.body) }
    ensures transfer { IsServed controller.old dev ep transfer.old transfer.new }
{
    match &transfer.request.body {
        Body::In(_) => controller.serve_in(dev, ep, &mut transfer.bytes),
        Body::Out(bytes) => controller.serve_out(dev, ep, bytes.as_slice()),
    }
}

/// What a packet of the transfer of this number is replied with.
fn reply_of(n: u64, told: PacketResult) -> Reply
    ensures { result ≡ reply_of n told }
{
    match told {
        PacketResult::Nak => Reply::Nak { n },
        PacketResult::Moved(bytes) => Reply::Moved { n, bytes },
        PacketResult::Ended(code) => Reply::Ended { n, code },
    }
}
