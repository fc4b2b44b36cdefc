//! The tables of a configuration: its interfaces and endpoints.

ghost use Rattle.std.specs.Prelude.{◌≡◌, ◌==◌, ◌<◌, ◌≤◌, [], ◌∷◌, ◌++◌, length, option_map, OnOk, OnErr, IfErr, MatchResult};
ghost use Rattle.std.specs.List.{list_any};
ghost use Rattle.std.specs.Option.{option_copied};
ghost use Rattle.usb_descriptors.specs.Grammar.{is_bad_size};
ghost use Rattle.usb_descriptors.specs.Table.{info_at, faults_beside, IsNumbered, IsTable};

use crate::fault::DescFault;
use arrayvec::ArrayVec;
use std::marker::Model;
use usb_model::{EndpointInfo, EpAddr, Kind};

/// A device's configuration (USB 2.0, 9.6.3): at most 32 interfaces and 30 endpoints, in its own room. Contracts see
/// usb_model's record of the lists `interfaces` and `endpoints`.
#[derive(Debug, Drop)]
pub struct Config {
    interfaces: ArrayVec<u8, 32>,
    endpoints: ArrayVec<EndpointInfo, 30>,
}

impl Model for Config {
    ghost use Rattle.usb_model.specs.declared.setup.Configuration.{Configuration};
    ghost use Rattle.usb_descriptors.specs.Table.{IsTable};

    ghost Value = { Configuration };

    ghost view = { λ c. record { interfaces = c.interfaces.items; endpoints = c.endpoints.items } };

    ghost invariant = { λ c. IsTable c.endpoints.items };
}

/// A configuration of no interfaces: what an unused place of a table of configurations holds.
impl Default for Config {
    fn default() -> Config {
        Config::new()
    }
}

impl Config {
    /// A configuration of no interfaces.
    pub(crate) fn new() -> Config
        ensures { result ≡ record { interfaces = []; endpoints = [] } }
    {
        Config {
            interfaces: ArrayVec::new(),
            endpoints: ArrayVec::new(),
        }
    }

    /// The numbers of its interfaces (USB 2.0, 9.6.5), in the order of their descriptors.
    pub fn interfaces(&self) -> &[u8]
        ensures value { result.now ≡ self.now.interfaces }
        ensures room { length result.now ≤ 32 }
    {
        self.interfaces.as_slice()
    }

    /// Its endpoints (USB 2.0, 9.6.6), in the order of their descriptors. Their addresses differ, have bits 6..4 as 0
    /// and a number other than 0; a bulk or interrupt endpoint has a packet size of 1 to 1,024 bytes.
    pub fn endpoints(&self) -> &[EndpointInfo]
        ensures value { result.now ≡ self.now.endpoints }
        ensures room { length result.now ≤ 30 }
        ensures table { IsTable self.now.endpoints }
    {
        self.endpoints.as_slice()
    }

    /// The number of the interface that an endpoint belongs to; None where no endpoint has just this address.
    pub fn interface_of(&self, ep: EpAddr) -> Option<u8>
        ensures { result ≡ option_map (λ x. x.interface) (info_at self.now ep) }
    {
        self.info(ep).map(|info| info.interface)
    }

    /// The kind and the packet size in bytes of an endpoint; None where no endpoint has just this address.
    pub fn endpoint(&self, ep: EpAddr) -> Option<(Kind, u16)>
        ensures { result ≡ option_map (λ x. (x.kind, x.packet_size)) (info_at self.now ep) }
    {
        self.info(ep).map(|info| (info.kind, info.packet_size))
    }

    /// What it says of an endpoint; None where no endpoint has just this address.
    fn info(&self, ep: EpAddr) -> Option<&EndpointInfo>
        ensures { option_copied result ≡ info_at self.now ep }
    {
        self.endpoints().iter().find(|info| info.address == ep)
    }

    /// Whether an interface has this number.
    pub(crate) fn has_interface(&self, number: u8) -> bool
        ensures { result ≡ list_any (λ k. k == number) self.now.interfaces }
    {
        self.interfaces().contains(&number)
    }

    /// Whether an endpoint has this address.
    fn has_endpoint(&self, address: EpAddr) -> bool
        ensures { result ≡ list_any (λ x. x.address == address) self.now.endpoints }
    {
        self.endpoints().iter().any(|info| info.address == address)
    }

    /// Adds an interface; TooMany where there are 32.
    pub(crate) fn add_interface(&mut self, number: u8) -> Result<(), DescFault>
        ensures room { OnOk result (length self.old.interfaces < 32) }
        ensures ok { OnOk result
            (self.new ≡ record self.old { interfaces = self.old.interfaces ++ number ∷ [] }) }
        ensures full { OnErr result (32 ≤ length self.old.interfaces) }
        ensures err { IfErr result (λ fault. fault ≡ DescFault.TooMany) }
    {
        self.interfaces
            .try_push(number)
            .map_err(|_| DescFault::TooMany)
    }

    /// Adds an endpoint, for which there is always room; SharedEndpoint where one has its address, else BadPacketSize
    /// where it is bulk or interrupt with a size outside 1 to 1,024.
    pub(crate) fn add_endpoint(&mut self, info: EndpointInfo) -> Result<(), DescFault>
        requires { IsNumbered info.address }
        ensures ok { OnOk result
            (self.new ≡ record self.old { endpoints = self.old.endpoints ++ info ∷ [] }) }
        ensures fault { MatchResult result
            (λ _. faults_beside self.old.endpoints info ≡ [])
            (λ fault. faults_beside self.old.endpoints info ≡ fault ∷ []) }
    {
        if self.has_endpoint(info.address) {
            return Err(DescFault::SharedEndpoint(info.address));
        }
        if has_bad_size(&info) {
            return Err(DescFault::BadPacketSize(info.address));
        }
        self.endpoints.push(info);
        Ok(())
    }
}

/// Whether a bulk or interrupt endpoint has a packet size outside 1 to 1,024.
fn has_bad_size(info: &EndpointInfo) -> bool
    ensures { result ≡ is_bad_size info.now }
{
    matches!(info.kind, Kind::Bulk | Kind::Interrupt) && !(1..=1024).contains(&info.packet_size)
}
