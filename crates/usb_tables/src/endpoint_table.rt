//! The interface of each endpoint.

ghost use Rattle.std.specs.Prelude.{◌≡◌, ℕ, ◌+◌, ◌*◌, IfOk, ◌<◌, None, false, option_map, slice_index_or};
ghost use Rattle.usb_descriptors.specs.Table.{info_at};
ghost use Rattle.usb_tables.specs.Tables.{interface_at, is_plain, address_of_id, indexed, IsIndex};

use std::alloc::{AllocError, Global};
use std::marker::Model;
use usb_descriptors::Config;
use usb_model::{DeviceNo, EpAddr};

/// The number of an interface, or none, for each device, 0 to 3, and each endpoint id, 0 to 31 (xHCI 1.2, 4.5.1);
/// contracts read the list of them by `indexed`.
#[derive(Drop)]
pub struct EndpointTable {
    interfaces: Vec<Option<u8>>,
}

impl Model for EndpointTable {
    ghost use Rattle.std.specs.Prelude.{◌≡◌, ℕ, List, Option, length};

    ghost Value = { List (Option ℕ) };

    ghost view = { λ t. t.interfaces.items };

    ghost invariant = { λ t. length t.interfaces.items ≡ 128 };
}

/// The endpoint of this id.
pub fn endpoint_of_id(id: u8) -> EpAddr
    requires { id < 32 }
    ensures { result ≡ address_of_id id }
{
    EpAddr::new(id / 2 + 128 * (id % 2))
}

/// The interface of an endpoint, as the configuration says; no endpoint has a bit of 6..4 in its address.
fn interface_in(config: &Config, ep: EpAddr) -> Option<u8>
    ensures value { result ≡ option_map (λ x. x.interface) (info_at config.now ep) }
    ensures plain { (e : ℕ) → is_plain e ≡ false → info_at config.now e ≡ None }
{
    config
        .endpoints()
        .iter()
        .find(|info| info.address == ep)
        .map(|info| info.interface)
}

/// The interface of an endpoint, as the configuration of its device says; none where there is no such device.
fn interface_at(configs: &[Config], dev: u8, ep: EpAddr) -> Option<u8>
    ensures value { result ≡ interface_at configs.now dev ep }
    ensures plain { (e : ℕ) → is_plain e ≡ false → interface_at configs.now dev e ≡ None }
{
    let config = configs.get(usize::from(dev))?;
    interface_in(config, ep)
}

impl EndpointTable {
    /// The interfaces of the endpoints of these configurations, by device.
    pub fn new(alloc: Global, configs: &[Config]) -> Result<EndpointTable, AllocError>
        ensures { IfOk result (λ t. IsIndex configs.now t) }
    {
        let mut interfaces = Vec::with_capacity(alloc, 128)?;
        for at in 0..128_u8 {
            interfaces.push(interface_at(configs, at / 32, endpoint_of_id(at % 32)))?;
        }
        Ok(EndpointTable { interfaces })
    }

    /// The interface of the endpoint of this id.
    pub fn at(&self, dev: DeviceNo, id: u8) -> Option<u8>
        requires { id < 32 }
        ensures { result ≡ slice_index_or self.now (32 * dev + id) None }
    {
        self.interfaces[32 * usize::from(dev.number()) + usize::from(id)]
    }

    /// The interface of the endpoint of this address; none where the address has a bit of 6..4.
    pub fn get(&self, dev: DeviceNo, ep: EpAddr) -> Option<u8>
        ensures { result ≡ indexed self.now dev ep }
    {
        if ep.address() % 128 >= 16 {
            return None;
        }
        self.at(dev, ep.id())
    }
}
