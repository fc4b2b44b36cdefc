//! What handles haven't finished, part by part.

ghost use Rattle.std.specs.Prelude.{◌≡◌, ℕ, Some, length, option_map, slice_get};
ghost use Rattle.std.specs.Option.{option_copied};
ghost use Rattle.usb_model.specs.declared.step.Step.TheVariants.{Deliver};
ghost use Rattle.usb_model.specs.Machine.Calls.{callback_of};
ghost use Rattle.usb_model.specs.Setup.{Setup as ModelSetup};
ghost use Rattle.usb_model.specs.World.{World, holder};
ghost use Rattle.refine_core.specs.Payloads.{StillCarries};
ghost use Rattle.refine_core.specs.State.{ShowsWorld};
ghost use Rattle.refine_core.specs.Steps.{TurnsWorld};
ghost use Rattle.usb_core.specs.Inventory.{halted, number_in, waiting_result};

use crate::Delivered;
use crate::calls::Core;
use usb_descriptors::Config;
use usb_device::{Device, Scripted};
use usb_model::{DeviceNo, EpAddr, Name, Status};

/// A result that waits for its callback.
#[derive(Clone, Copy, PartialEq, Eq, Debug)]
pub struct WaitingResult {
    /// The handle.
    pub h: Name,
    /// The endpoint.
    pub ep: EpAddr,
    /// The transfer's number.
    pub n: u64,
    /// Its status.
    pub status: Status,
}

impl<P, D: Device> Core<P, D> {
    /// The device that a handle has open.
    pub fn device_of(&self, h: Name) -> Option<DeviceNo>
        ensures { (setup : ModelSetup) (w : World) → ShowsWorld setup self.now w → result ≡ (w.names h).device }
    {
        self.parts.device_of(h)
    }

    /// The handle that holds an interface of a device.
    pub fn owner(&self, dev: DeviceNo, i: u8) -> Option<Name>
        ensures { (setup : ModelSetup) (w : World) → ShowsWorld setup self.now w → result ≡ w.claims dev i }
    {
        self.parts.owner(dev, i)
    }

    /// The handle that holds the interface of an endpoint; None where nobody does, or no endpoint has just this address.
    pub fn holder(&self, dev: DeviceNo, ep: EpAddr) -> Option<Name>
        ensures { (setup : ModelSetup) (w : World) → ShowsWorld setup self.now w → result ≡ holder setup w.claims dev ep }
    {
        self.parts.holder(dev, ep)
    }

    /// A device's configuration; None where there is no such device.
    pub fn config(&self, dev: DeviceNo) -> Option<&Config>
        ensures { (setup : ModelSetup) (w : World) → ShowsWorld setup self.now w → option_copied result ≡ option_map (λ x. x.config) (slice_get setup dev) }
    {
        self.parts.config(dev)
    }

    /// The number of a handle's next transfer.
    pub fn next_number(&self, h: Name) -> u64
        ensures { (setup : ModelSetup) (w : World) → ShowsWorld setup self.now w → result ≡ (w.names h).next_number }
    {
        self.parts.next_number(h)
    }

    /// The endpoint of a handle's transfer of this number that is in its callback; None where none is.
    pub fn callback_at(&self, h: Name, n: u64) -> Option<EpAddr>
        ensures { (setup : ModelSetup) (w : World) → ShowsWorld setup self.now w → result ≡ option_map (λ x. x.request.ep) (callback_of n (w.names h).in_callbacks) }
    {
        match self.parts.callback(h, n) {
            Some(callback) => Some(callback.request.ep),
            None => None,
        }
    }

    /// The result of index `i`, from 0 on, of those that wait for their callbacks, the oldest first; None past the last.
    pub fn result_at(&self, i: usize) -> Option<WaitingResult>
        ensures { (setup : ModelSetup) (w : World) → ShowsWorld setup self.now w → result ≡ option_map waiting_result (slice_get w.results i) }
    {
        match self.parts.ended_at(i) {
            Some((transfer, ending)) => Some(WaitingResult {
                h: transfer.name,
                ep: transfer.request.ep,
                n: transfer.n,
                status: ending.status,
            }),
            None => None,
        }
    }

    /// How many places a held endpoint's line has, 0 to 16: those of its transfers, and those that withdrawn ones left.
    pub fn line_len(&self, dev: DeviceNo, ep: EpAddr) -> usize
        ensures { (setup : ModelSetup) (w : World) (h : ℕ) → ShowsWorld setup self.now w → holder setup w.claims dev ep ≡ Some h → result ≡ length (w.endpoints dev ep).line }
    {
        self.parts.line_len(dev, ep)
    }

    /// The number of the transfer at a place, from 0 on, of a held endpoint's line; None at a place that a withdrawn one
    /// left, and past the end.
    pub fn number_at(&self, dev: DeviceNo, ep: EpAddr, item: usize) -> Option<u64>
        ensures { (setup : ModelSetup) (w : World) (h : ℕ) → ShowsWorld setup self.now w → holder setup w.claims dev ep ≡ Some h → result ≡ number_in (slice_get (w.endpoints dev ep).line item) }
    {
        self.parts.number_at(dev, ep, item)
    }

    /// How many orders wait for the controller (xHCI 1.2, 4.6).
    pub fn orders_waiting(&self) -> usize
        ensures { (setup : ModelSetup) (w : World) → ShowsWorld setup self.now w → result ≡ length w.orders }
    {
        self.parts.orders_waiting()
    }

    /// How many events wait to be handled (xHCI 1.2, 4.11.3).
    pub fn events_waiting(&self) -> usize
        ensures { (setup : ModelSetup) (w : World) → ShowsWorld setup self.now w → result ≡ length w.news }
    {
        self.parts.events_waiting()
    }

    /// The oldest event is handled, as by `deliver`, and the endpoint that it was of is told; None where none waits.
    pub fn deliver_at(&mut self) -> Delivered
        ensures turned { TurnsWorld self.old Deliver result.entry self.new }
        ensures carries { StillCarries self.old self.new }
        ensures at { (setup : ModelSetup) (w : World) → ShowsWorld setup self.old w → result.ep ≡ option_map (λ x. x.piece.ep) (slice_get w.news 0) }
    {
        self.parts.deliver_at()
    }
}

impl<P, D: Scripted> Core<P, D> {
    /// Whether a held endpoint is halted, at its device (USB 2.0, 9.4.5) or at the controller (xHCI 1.2, 4.8.3).
    pub fn is_halted(&self, dev: DeviceNo, ep: EpAddr) -> bool
        ensures { (setup : ModelSetup) (w : World) (h : ℕ) → ShowsWorld setup self.now w → holder setup w.claims dev ep ≡ Some h → result ≡ halted (w.endpoints dev ep) }
    {
        self.parts.is_halted(dev, ep)
    }

    /// How many answers a device has left for a held endpoint.
    pub fn answers_left(&self, dev: DeviceNo, ep: EpAddr) -> usize
        ensures { (setup : ModelSetup) (w : World) (h : ℕ) → ShowsWorld setup self.now w → holder setup w.claims dev ep ≡ Some h → result ≡ length (w.endpoints dev ep).script_left }
    {
        self.parts.answers_left(dev, ep)
    }
}
