//! What handles haven't finished, as it can be asked of the parts.

ghost use Rattle.std.specs.Prelude.{◌≡◌, length, option_map, slice_get};
ghost use Rattle.std.specs.Option.{option_copied};
ghost use Rattle.usb_model.specs.Setup.{Setup};
ghost use Rattle.usb_model.specs.World.{holder};
ghost use Rattle.usb_tables.specs.Holders.{IsSetup, device_of, owner_of};
ghost use Rattle.usb_tables.specs.HandleStates.{callback_at, number_of};
ghost use Rattle.usb_tables.specs.TransfersInFlight.{item_at, line_at};
ghost use Rattle.usb_core.specs.StepInventory.{answers_in, halted_in, stalled_in};

use crate::parts::Parts;
use usb_descriptors::Config;
use usb_device::{Device, Scripted};
use usb_model::{DeviceNo, EndpointState, EpAddr, InCallback, Name};
use usb_tables::{Ending, Transfer};

impl<P, D: Device> Parts<P, D> {
    /// The device that a name has open.
    pub fn device_of(&self, h: Name) -> Option<DeviceNo>
        ensures { result ≡ device_of self.now.claims h }
    {
        self.claims.device_of(h)
    }

    /// The name that holds an interface of a device.
    pub fn owner(&self, dev: DeviceNo, i: u8) -> Option<Name>
        ensures { result ≡ owner_of self.now.claims dev i }
    {
        self.claims.owner(dev, i)
    }

    /// The name that holds the interface of an endpoint; None where nobody does, or no endpoint has just this address.
    pub fn holder(&self, dev: DeviceNo, ep: EpAddr) -> Option<Name>
        ensures { (setup : Setup) → IsSetup self.now.claims setup → result ≡ holder setup (λ d i. owner_of self.now.claims d i) dev ep }
    {
        self.claims.holder(dev, ep)
    }

    /// A device's configuration; None where there is no such device.
    pub fn config(&self, dev: DeviceNo) -> Option<&Config>
        ensures { option_copied result ≡ slice_get self.now.claims.configs dev }
    {
        self.claims.config(dev)
    }

    /// The number of a name's next transfer.
    pub fn next_number(&self, h: Name) -> u64
        ensures { result ≡ number_of self.now.callers h }
    {
        self.callers.next_number(h)
    }

    /// A name's transfer of this number, where it is in its callback.
    pub fn callback(&self, h: Name, n: u64) -> Option<&InCallback>
        ensures { option_copied result ≡ callback_at self.now.callers h n }
    {
        self.callers.callback(h, n)
    }

    /// The transfer of index `i`, from 0 on, of those that ended and wait for their callbacks, the oldest first, and what
    /// came of it; None past the last.
    pub fn ended_at(&self, i: usize) -> Option<(&Transfer<P>, Ending)>
        ensures { option_map (λ x. record { transfer = x.0.now; ending = x.1 }) result ≡ slice_get self.now.flights.ended i }
    {
        self.flights.ended_at(i)
    }

    /// How many items an endpoint's line has, 0 to 16.
    pub fn line_len(&self, dev: DeviceNo, ep: EpAddr) -> usize
        ensures { result ≡ length (line_at self.now.flights dev ep) }
    {
        self.flights.len(dev, ep)
    }

    /// The number of the transfer at a place of an endpoint's line; None at a blank, and behind the line.
    pub fn number_at(&self, dev: DeviceNo, ep: EpAddr, item: usize) -> Option<u64>
        ensures { result ≡ option_map (λ t. t.n) (item_at self.now.flights dev ep item) }
    {
        match self.flights.get(dev, ep, item) {
            Some(transfer) => Some(transfer.n),
            None => None,
        }
    }

    /// How many orders wait for the controller.
    pub fn orders_waiting(&self) -> usize
        ensures { result ≡ length self.now.controller.commands.waits }
    {
        self.controller.orders_waiting()
    }

    /// How many events wait to be handled.
    pub fn events_waiting(&self) -> usize
        ensures { result ≡ length self.now.controller.events.waits }
    {
        self.controller.events_waiting()
    }

    /// Whether the controller has an endpoint halted (xHCI 1.2, 4.8.3); false where it has no ring.
    fn is_stalled(&self, dev: DeviceNo, ep: EpAddr) -> bool
        ensures { result ≡ stalled_in self.now.controller dev ep }
    {
        match self.context(dev, ep) {
            Some(context) => matches!(context.state(), EndpointState::Halted),
            None => false,
        }
    }
}

impl<P, D: Scripted> Parts<P, D> {
    /// Whether an endpoint is halted, at its device or at the controller; false where there is no such device.
    pub fn is_halted(&self, dev: DeviceNo, ep: EpAddr) -> bool
        ensures { result ≡ halted_in self.now.controller dev ep }
    {
        match self.controller.slot(dev) {
            Some(slot) => slot.is_halted(ep) || self.is_stalled(dev, ep),
            None => false,
        }
    }

    /// How many answers a device has left for an endpoint; 0 where there is no such device.
    pub fn answers_left(&self, dev: DeviceNo, ep: EpAddr) -> usize
        ensures { result ≡ answers_in self.now.controller dev ep }
    {
        match self.controller.slot(dev) {
            Some(slot) => slot.answers_left(ep),
            None => 0,
        }
    }
}
