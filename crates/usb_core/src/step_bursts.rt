//! Packets in a row at an endpoint, in one call.

ghost use Rattle.std.specs.Prelude.{◌≡◌, ◌+◌, ◌≤◌, ◌<◌, ◌∷◌, [], ◌++◌, ℕ, max, replicate, false, true, IfNone, IfSome, IsSome, None, Some};
ghost use Rattle.usb_tables.specs.TransfersInFlight.{item_at};
ghost use Rattle.usb_model.specs.declared.step.Step.TheVariants.{Serve};
ghost use Rattle.usb_tables.specs.declared.transfer.Transfer.{Transfer as InFlight};
ghost use Rattle.usb_xhc.specs.declared.packet.PacketResult.TheVariants.{Moved};
ghost use Rattle.usb_xhc.specs.Controller.{told_at};
ghost use Rattle.usb_xhc.specs.Skims.{controller_skimmed, size_at};
ghost use Rattle.refine_core.specs.Packets.{CanSkim, IsSkimmed, Skims, out_of};
ghost use Rattle.refine_core.specs.Payloads.{StillCarries};
ghost use Rattle.refine_core.specs.State.{IsState};
ghost use Rattle.refine_core.specs.Steps.{DoesCoreSteps};
ghost use Rattle.usb_core.specs.StepBursts.{Differs, IsWholeAt, burst_entries, whole_entry};

use crate::parts::Parts;
use usb_device::Device;
use usb_model::{Body, DeviceNo, Entry, EpAddr, Name, Reply};
use usb_tables::{Transfer, TransfersInFlight};
use usb_xhc::Controller;

/// A packet that moved so many bytes of a transfer, which goes on.
#[derive(Clone, Copy, PartialEq, Eq, Debug)]
pub struct Whole {
    /// Whose the transfer is.
    pub owner: Name,
    /// Its number.
    pub n: u64,
    /// The bytes that moved.
    pub size: u32,
}

impl Whole {
    /// The entry of such a packet.
    pub fn entry(&self) -> Entry
        ensures { result ≡ whole_entry self.now }
    {
        Entry {
            owner: Some(self.owner),
            reply: Reply::Moved {
                n: self.n,
                bytes: self.size,
            },
        }
    }
}

/// Packets in a row at an endpoint: so many that each did the same, and what the one behind them did.
#[derive(Debug, Drop)]
pub struct Burst {
    /// What each of the first did; None where there were none.
    pub each: Option<Whole>,
    /// How many these were.
    pub full: u32,
    /// The entry of the one behind them.
    pub last: Entry,
}

impl<P, D: Device> Parts<P, D> {
    /// Packets in a row where the controller works at an endpoint, each as one of `serve`: at most so many, and at least
    /// one. They end with the first that doesn't do what the one before it did: move as many bytes of the same transfer,
    /// which goes on.
    pub fn serve_burst(&mut self, dev: DeviceNo, ep: EpAddr, most: u32) -> Burst
        requires { IsState self.old }
        ensures turns { DoesCoreSteps self.old (replicate (result.full + 1) (Serve dev ep)) (burst_entries result) self.new }
        ensures carries { StillCarries self.old self.new }
        ensures few { result.full + 1 ≤ max 1 most }
        ensures ends { result.full + 1 < most → Differs result.each result.last }
        ensures none { result.full ≡ 0 → result.each ≡ None }
    {
        let first = self.serve(dev, ep);
        let Some(each) = whole_of(&first) else {
            return Burst {
                each: None,
                full: 0,
                last: first,
            };
        };
        if most < 2 {
            return Burst {
                each: None,
                full: 0,
                last: first,
            };
        }
        let rest = self.serve_on(dev, ep, &each, most - 1);
        Burst {
            each: Some(each),
            full: rest.0 + 1,
            last: rest.1,
        }
    }

    /// Packets in a row of which all but the last do this: how many those were, and the entry of the last.
    fn serve_on(&mut self, dev: DeviceNo, ep: EpAddr, each: &Whole, most: u32) -> (u32, Entry)
        requires state { IsState self.old }
        requires some { 0 < most }
        ensures turns { DoesCoreSteps self.old (replicate (result.0 + 1) (Serve dev ep)) (replicate result.0 (whole_entry each.now) ++ result.1 ∷ []) self.new }
        ensures carries { StillCarries self.old self.new }
        ensures few { result.0 + 1 ≤ most }
        ensures ends { result.0 + 1 < most → Differs (Some each.now) result.1 }
    {
        let mut full = 0;
        loop {
            let row = self.serve_row(dev, ep, each, most - full);
            full += row.0;
            if full + 1 == most || !is_it(&row.1, each) {
                return (full, row.1);
            }
            full += 1;
        }
    }

    /// Packets in a row inside a TRB that each do this, and one behind them: how many those were, and the entry of the one.
    fn serve_row(&mut self, dev: DeviceNo, ep: EpAddr, each: &Whole, most: u32) -> (u32, Entry)
        requires state { IsState self.old }
        requires some { 0 < most }
        ensures turns { DoesCoreSteps self.old (replicate (result.0 + 1) (Serve dev ep)) (replicate result.0 (whole_entry each.now) ++ result.1 ∷ []) self.new }
        ensures carries { StillCarries self.old self.new }
        ensures few { result.0 + 1 ≤ most }
        ensures state { IsState self.new }
    {
        let full = self.skim(dev, ep, each, most - 1);
        let last = self.serve(dev, ep);
        (full, last)
    }

    /// Packets in a row that each do this: at most so many, and none that ends a TRB. How many they were.
    fn skim(&mut self, dev: DeviceNo, ep: EpAddr, each: &Whole, most: u32) -> u32
        requires { IsState self.old }
        ensures turns { DoesCoreSteps self.old (replicate result (Serve dev ep)) (replicate result (whole_entry each.now)) self.new }
        ensures carries { StillCarries self.old self.new }
        ensures few { result ≤ most }
    {
        let Some(item) = self.whole_at(dev, ep, each) else {
            return 0;
        };
        skim_item(
            &mut self.flights,
            dev,
            ep,
            item,
            most as usize,
            &mut self.controller,
        ) as u32
    }

    /// The item where the controller works at an endpoint, where it is a transfer of this name and number, and a packet of
    /// this size is a whole one.
    fn whole_at(&self, dev: DeviceNo, ep: EpAddr, each: &Whole) -> Option<usize>
        ensures { IfSome result (λ item. IsWholeAt self.now dev ep each.now item) }
    {
        let owner = self.claims.holder(dev, ep)?;
        let item = self.front(dev, ep)?;
        let transfer = self.flights.get(dev, ep, item)?;
        let size = self.size_of(dev, ep)?;
        if owner == each.owner && transfer.n == each.n && u32::from(size) == each.size {
            Some(item)
        } else {
            None
        }
    }

    /// The bytes of a whole packet of an endpoint that has a ring.
    fn size_of(&self, dev: DeviceNo, ep: EpAddr) -> Option<u16>
        ensures { IfSome result (λ size. size_at self.now.controller dev ep ≡ size) }
    {
        let context = self.controller.slot(dev)?.context(ep)?;
        Some(context.size())
    }
}

/// Packets in a row of the transfer at a place of an endpoint's line, at the controller: at most so many, each whole, and
/// none that ends a TRB. The bytes that come join those read before, or the next ones of those to be sent are sent. How
/// many they were.
fn skim_item<P, D: Device>(
    flights: &mut TransfersInFlight<P>,
    dev: DeviceNo,
    ep: EpAddr,
    item: usize,
    most: usize,
    controller: &mut Controller<D>,
) -> usize
    requires item { IsSome (item_at flights.old dev ep item) }
    requires skims { IfSome (item_at flights.old dev ep item) (λ t. CanSkim controller.old dev ep t.request.body t) }
    ensures few { result ≤ most }
    ensures whole { (t : InFlight P) → item_at flights.old dev ep item ≡ Some t → (i : ℕ) → i < result → told_at (controller_skimmed dev ep (out_of ep t.request.body) i controller.old) dev ep ≡ Some (Moved (size_at controller.old dev ep)) }
    ensures controller { (t : InFlight P) → item_at flights.old dev ep item ≡ Some t → controller.new ≡ controller_skimmed dev ep (out_of ep t.request.body) result controller.old }
    ensures transfer { (t : InFlight P) → item_at flights.old dev ep item ≡ Some t → Skims flights.old flights.new controller.old dev ep item result t }
{
    let Some(transfer) = flights.get_mut(dev, ep, item) else {
        unreachable!();
    };
    skim(transfer, dev, ep, most, controller)
}

/// Packets in a row of this transfer at the controller, which borrows the transfer's bytes: at most so many, each whole,
/// and none that ends a TRB. How many they were.
fn skim<P, D: Device>(
    transfer: &mut Transfer<P>,
    dev: DeviceNo,
    ep: EpAddr,
    most: usize,
    controller: &mut Controller<D>,
) -> usize
    requires { CanSkim controller.old dev ep transfer.old.request.body transfer.old }
    ensures few { result ≤ most }
    ensures whole { (i : ℕ) → i < result → told_at (controller_skimmed dev ep (out_of ep transfer.old.request.body) i controller.old) dev ep ≡ Some (Moved (size_at controller.old dev ep)) }
    ensures controller { controller.new ≡ controller_skimmed dev ep (out_of ep transfer.old.request.body) result controller.old }
    ensures transfer { IsSkimmed controller.old dev ep result transfer.old transfer.new }
{
    match &transfer.request.body {
        Body::In(_) => controller.skim_in(dev, ep, most, &mut transfer.bytes),
        Body::Out(bytes) => controller.skim_out(dev, ep, most, bytes.as_slice()),
    }
}

/// What a packet did, where it moved bytes of a transfer that goes on.
fn whole_of(entry: &Entry) -> Option<Whole>
    ensures whole { IfSome result (λ x. entry.now ≡ whole_entry x) }
    ensures other { IfNone result (Differs None entry.now) }
{
    let owner = entry.owner?;
    match entry.reply {
        Reply::Moved { n, bytes } => Some(Whole {
            owner,
            n,
            size: bytes,
        }),
        _ => None,
    }
}

/// Whether a packet did this.
fn is_it(entry: &Entry, each: &Whole) -> bool
    ensures whole { result ≡ true → entry.now ≡ whole_entry each.now }
    ensures other { result ≡ false → Differs (Some each.now) entry.now }
{
    match whole_of(entry) {
        Some(x) => x == *each,
        None => false,
    }
}
