//! Who has which device open, and who holds which interface.

ghost use Rattle.std.specs.Prelude.{◌≡◌, ℕ, suc, Some, None, ◌<◌, ◌==◌, MatchOption, IfOk, IfSome, OnOk, OnErr, slice_get, if◌then◌else◌};
ghost use Rattle.std.specs.Option.{option_copied};
ghost use Rattle.usb_model.specs.declared.effect.Change.TheVariants.{Frees, Gains, Drops};
ghost use Rattle.usb_model.specs.Setup.{Setup, endpoint_id, is_device};
ghost use Rattle.usb_model.specs.World.{claims_after, holder};
ghost use Rattle.usb_tables.specs.Holders.{IsSetup, device_of, owner_of, has_device, has_interface, interfaces_of, holds, others_hold, open_refusal, close_refusal, claim_refusal, release_refusal, answer_of};

use crate::endpoint_table::{EndpointTable, endpoint_of_id};
use crate::held::HeldEndpoint;
use crate::open_table::OpenTable;
use crate::owner_table::OwnerTable;
use arrayvec::ArrayVec;
use std::alloc::{AllocError, Global};
use std::marker::Model;
use usb_descriptors::Config;
use usb_model::{DeviceNo, EpAddr, Name, Refused};

/// The configurations of at most 4 devices; the device that each of 64 names has open; and the name that holds each
/// interface. Contracts see the three lists, by `device_of` and `owner_of`.
///
/// A name holds interfaces of the device that it has open, each at most one name's. `new` makes all tables; no other call
/// takes memory.
#[derive(Drop)]
pub struct Claims {
    configs: ArrayVec<Config, 4>,
    endpoints: EndpointTable,
    opened: OpenTable,
    owners: OwnerTable,
}

impl Model for Claims {
    ghost use Rattle.usb_tables.specs.Tables.{IsIndex};
    ghost use Rattle.usb_tables.specs.Holders.{Holding};

    ghost Value = { Holding };

    ghost view = { λ c. record { configs = c.configs.items; opened = c.opened; owners = c.owners } };

    ghost invariant = { λ c. IsIndex c.configs.items c.endpoints };
}

impl Claims {
    /// No name has a device open, and nobody holds an interface.
    pub fn new(alloc: Global, configs: ArrayVec<Config, 4>) -> Result<Claims, AllocError>
        ensures configs { IfOk result (λ c. c.configs ≡ configs.items) }
        ensures closed { IfOk result (λ c. (h : ℕ) → device_of c h ≡ None) }
        ensures free { IfOk result (λ c. (d i : ℕ) → owner_of c d i ≡ None) }
    {
        Ok(Claims {
            endpoints: EndpointTable::new(alloc, configs.as_slice())?,
            opened: OpenTable::new(alloc)?,
            owners: OwnerTable::new(alloc)?,
            configs,
        })
    }

    /// The configurations as they came.
    pub fn into_configs(self) -> ArrayVec<Config, 4>
        ensures { result.items ≡ self.configs }
    {
        let Claims { configs, .. } = self;
        configs
    }

    /// The configuration of a device; None where there is no such device.
    pub fn config(&self, dev: DeviceNo) -> Option<&Config>
        ensures { option_copied result ≡ slice_get self.now.configs dev }
    {
        self.configs.as_slice().get(usize::from(dev.number()))
    }

    /// Whether there is such a device.
    pub fn is_device(&self, dev: DeviceNo) -> bool
        ensures value { result ≡ has_device self.now dev }
        ensures setup { (setup : Setup) → IsSetup self.now setup → result ≡ is_device setup dev }
    {
        self.config(dev).is_some()
    }

    /// Whether a device has an interface of this number.
    fn has_interface(&self, dev: DeviceNo, i: u8) -> bool
        ensures { result ≡ has_interface self.now dev i }
    {
        self.interfaces_of(dev).contains(&i)
    }

    /// The numbers of a device's interfaces; none where there is no such device.
    fn interfaces_of(&self, dev: DeviceNo) -> &[u8]
        ensures { result.now ≡ interfaces_of self.now dev }
    {
        match self.config(dev) {
            Some(config) => config.interfaces(),
            None => &[],
        }
    }

    /// The device that a name has open.
    pub fn device_of(&self, h: Name) -> Option<DeviceNo>
        ensures { result ≡ device_of self.now h }
    {
        self.opened.get(h)
    }

    /// The name that holds an interface of a device.
    pub fn owner(&self, dev: DeviceNo, i: u8) -> Option<Name>
        ensures { result ≡ owner_of self.now dev i }
    {
        self.owners.get(dev, i)
    }

    /// The name that holds the interface of an endpoint; None where nobody does, or no endpoint has just this address.
    pub fn holder(&self, dev: DeviceNo, ep: EpAddr) -> Option<Name>
        ensures { (setup : Setup) → IsSetup self.now setup → result ≡ holder setup (λ d i. owner_of self.now d i) dev ep }
    {
        let i = self.endpoints.get(dev, ep)?;
        self.owners.get(dev, i)
    }

    /// The endpoint of a slot, device + 1, and an endpoint id (xHCI 1.2, 4.5.1), where a name holds it.
    pub fn held_at(&self, slot: u8, id: u8) -> Option<HeldEndpoint>
        ensures found { (setup : Setup) → IsSetup self.now setup → (d e h : ℕ) → slot ≡ suc d → id ≡ endpoint_id e → e < 256
            → holder setup (λ d i. owner_of self.now d i) d e ≡ Some h → result ≡ Some (record { dev = d; ep = e; name = h }) }
        ensures known { IfSome result (λ x. (slot ≡ suc x.dev) × (id ≡ endpoint_id x.ep)
            × ((setup : Setup) → IsSetup self.now setup → holder setup (λ d i. owner_of self.now d i) x.dev x.ep ≡ Some x.name)) }
    {
        let dev = DeviceNo::new(slot.checked_sub(1)?)?;
        if id >= 32 {
            return None;
        }
        let i = self.endpoints.at(dev, id)?;
        let name = self.owners.get(dev, i)?;
        Some(HeldEndpoint {
            dev,
            ep: endpoint_of_id(id),
            name,
        })
    }

    /// Whether the name holds this interface of its device.
    pub fn holds(&self, h: Name, i: u8) -> bool
        ensures { result ≡ holds self.now h i }
    {
        match self.device_of(h) {
            Some(dev) => h.is_its(self.owner(dev, i)),
            None => false,
        }
    }

    /// Whether another name holds an interface of the device (libusb_reset_device).
    pub fn others_hold(&self, h: Name, dev: DeviceNo) -> bool
        ensures { result ≡ others_hold self.now h dev }
    {
        self.interfaces_of(dev)
            .iter()
            .any(|i| h.is_others(self.owner(dev, *i)))
    }

    /// Opens a device (libusb_open): the name has it open, and holds no interface. NotFound where there is no such device,
    /// Busy where the name has one open.
    pub fn open(&mut self, h: Name, dev: DeviceNo) -> Result<(), Refused>
        ensures answer { result ≡ answer_of (open_refusal self.old h dev) }
        ensures devices { OnOk result ((g : ℕ) → device_of self.new g ≡ (if h == g then Some dev else device_of self.old g)) }
        ensures owners { OnOk result ((d i : ℕ) → owner_of self.new d i ≡ claims_after h (λ d i. owner_of self.old d i) Frees d i) }
        ensures configs { self.new.configs ≡ self.old.configs }
        ensures refused { OnErr result (self.new ≡ self.old) }
    {
        if !self.is_device(dev) {
            return Err(Refused::NotFound);
        }
        if self.device_of(h).is_some() {
            return Err(Refused::Busy);
        }
        self.opened.set(h, Some(dev));
        self.owners.free(h);
        Ok(())
    }

    /// Closes the device (libusb_close): the name has none open, and holds no interface. NotFound where it has none open.
    pub fn close(&mut self, h: Name) -> Result<(), Refused>
        ensures answer { result ≡ answer_of (close_refusal self.old h) }
        ensures devices { OnOk result ((g : ℕ) → device_of self.new g ≡ (if h == g then None else device_of self.old g)) }
        ensures owners { OnOk result ((d i : ℕ) → owner_of self.new d i ≡ claims_after h (λ d i. owner_of self.old d i) Frees d i) }
        ensures configs { self.new.configs ≡ self.old.configs }
        ensures refused { OnErr result (self.new ≡ self.old) }
    {
        if self.device_of(h).is_none() {
            return Err(Refused::NotFound);
        }
        self.opened.set(h, None);
        self.owners.free(h);
        Ok(())
    }

    /// Claims an interface of the name's device (libusb_claim_interface); nothing changes where the name holds it. NotFound
    /// where the name has no device open or the device no such interface, HeldElsewhere where another name holds it.
    pub fn claim(&mut self, h: Name, i: u8) -> Result<(), Refused>
        ensures answer { result ≡ answer_of (claim_refusal self.old h i) }
        ensures owners { OnOk result ((dev d k : ℕ) → device_of self.old h ≡ Some dev
            → owner_of self.new d k ≡ claims_after h (λ d i. owner_of self.old d i) (Gains dev i) d k) }
        ensures devices { self.new.opened ≡ self.old.opened }
        ensures configs { self.new.configs ≡ self.old.configs }
        ensures refused { OnErr result (self.new ≡ self.old) }
    {
        let Some(dev) = self.device_of(h) else {
            return Err(Refused::NotFound);
        };
        if !self.has_interface(dev, i) {
            return Err(Refused::NotFound);
        }
        if h.is_others(self.owner(dev, i)) {
            return Err(Refused::HeldElsewhere);
        }
        self.owners.set(dev, i, Some(h));
        Ok(())
    }

    /// Releases an interface of the name's device (libusb_release_interface). NotFound where the name doesn't hold it.
    pub fn release(&mut self, h: Name, i: u8) -> Result<(), Refused>
        ensures answer { result ≡ answer_of (release_refusal self.old h i) }
        ensures owners { OnOk result ((dev d k : ℕ) → device_of self.old h ≡ Some dev
            → owner_of self.new d k ≡ claims_after h (λ d i. owner_of self.old d i) (Drops dev i) d k) }
        ensures devices { self.new.opened ≡ self.old.opened }
        ensures configs { self.new.configs ≡ self.old.configs }
        ensures refused { OnErr result (self.new ≡ self.old) }
    {
        let Some(dev) = self.device_of(h) else {
            return Err(Refused::NotFound);
        };
        if !h.is_its(self.owner(dev, i)) {
            return Err(Refused::NotFound);
        }
        self.owners.set(dev, i, None);
        Ok(())
    }
}
