//! All handles over one system: what is kept, and how it is looked up.

ghost use Rattle.std.specs.Prelude.{◌≡◌, ℕ, None, false, slice_index_or, IfOk, is_some, true, Some};
ghost use Rattle.usb_model.specs.World.{holder, is_its, new_world};
ghost use Rattle.usb_model.specs.Machine.{unused};
ghost use Rattle.reference.specs.Tables.{cell_at};
ghost use Rattle.usb_model.specs.World.{own_endpoint};
ghost use Rattle.reference.specs.System.{TakesOwn, world_of, without_endpoint, no_endpoint};
ghost use Rattle.std.specs.Option.{option_copied, unwrap_or};

use crate::handles::Handles;
use crate::renewal::Renewed;
use crate::table::Table;
use std::alloc::{AllocError, Global};
use usb_model::{
    DeviceNo, Endpoint, EndpointState, EpAddr, Handle, Name, News, Order, ScriptLeft, Sequence,
    Setup, Tagged, TransferResult,
};

/// What is kept of all handles and devices; contracts see the definitions' world, by `world_of`.
#[derive(Drop)]
pub struct System {
    /// What is kept of each name.
    pub names: Handles,
    /// Who holds an interface, by device and number.
    pub claims: Table<Option<Name>>,
    /// The endpoints, by device and address.
    pub endpoints: Table<Endpoint>,
    /// The devices that were unplugged.
    pub gone: [bool; 4],
    /// The command ring.
    pub orders: Sequence<Tagged<Order>>,
    /// The event ring.
    pub news: Sequence<Tagged<News>>,
    /// The results that aren't taken.
    pub results: Sequence<Tagged<TransferResult>>,
}

impl System {
    /// No name is open.
    #[tactic(auto, unfolding(usb_model::specs::World::new_world))]
    pub fn new(alloc: Global, setup: &Setup) -> Result<System, AllocError>
        ensures { IfOk result (λ s. world_of setup.now s ≡ new_world setup.now) }
    {
        let claims = Table::unclaimed(alloc)?;
        let mut endpoints = Table::blank(alloc)?;
        endpoints.renew(alloc, setup, &claims, &Renewed::All)?;
        Ok(System {
            names: Handles::new(alloc)?,
            claims,
            endpoints,
            gone: [false; 4],
            orders: Sequence::new(alloc),
            news: Sequence::new(alloc),
            results: Sequence::new(alloc),
        })
    }

    /// Whether a device was unplugged.
    pub fn is_gone(&self, dev: DeviceNo) -> bool
        ensures { result ≡ slice_index_or self.now.gone dev false }
    {
        self.gone[usize::from(dev.number())]
    }

    /// Whether the device that a handle opened was unplugged; where it opened none, whether device 0 was.
    pub fn has_lost(&self, handle: &Handle) -> bool
        ensures { result ≡ slice_index_or self.now.gone (unwrap_or handle.now.device 0) false }
    {
        match handle.device {
            Some(dev) => self.is_gone(dev),
            None => self.gone[0],
        }
    }

    /// Who holds an interface.
    pub fn claimant(&self, dev: DeviceNo, i: u8) -> Option<Name>
        ensures { result ≡ cell_at None self.now.claims dev i }
    {
        *self.claims.get(dev, i)
    }

    /// Whether a name holds an interface.
    pub fn is_claimed(&self, h: Name, dev: DeviceNo, i: u8) -> bool
        ensures { result ≡ is_its h (cell_at None self.now.claims dev i) }
    {
        h.is_its(self.claimant(dev, i))
    }

    /// Who holds the interface of an endpoint.
    pub fn holder(&self, setup: &Setup, dev: DeviceNo, ep: EpAddr) -> Option<Name>
        ensures { result ≡ holder setup.now (world_of setup.now self.now).claims dev ep }
    {
        let i = setup.interface_of(dev, ep)?;
        self.claimant(dev, i)
    }

    /// Whether a name holds the interface of an endpoint.
    pub fn is_holder(&self, setup: &Setup, h: Name, dev: DeviceNo, ep: EpAddr) -> bool
        ensures { result ≡ is_its h (holder setup.now (world_of setup.now self.now).claims dev ep) }
    {
        h.is_its(self.holder(setup, dev, ep))
    }

    /// A name's endpoint, where it holds the interface.
    pub fn endpoint_of(
        &self,
        setup: &Setup,
        h: Name,
        dev: DeviceNo,
        ep: EpAddr,
    ) -> Option<&Endpoint>
        ensures { option_copied result ≡ own_endpoint setup.now h (world_of setup.now self.now) dev ep }
    {
        if self.is_holder(setup, h, dev, ep) {
            Some(self.endpoints.get(dev, ep.address()))
        } else {
            None
        }
    }

    /// Takes a name's endpoint out, where it holds the interface.
    pub fn take_endpoint(
        &mut self,
        alloc: Global,
        setup: &Setup,
        h: Name,
        dev: DeviceNo,
        ep: EpAddr,
    ) -> Option<Endpoint>
        ensures taken { result ≡ own_endpoint setup.now h (world_of setup.now self.old) dev ep }
        ensures left { world_of setup.now self.new ≡ without_endpoint setup.now h (world_of setup.now self.old) dev ep }
        ensures kept { result ≡ None → world_of setup.now self.new ≡ world_of setup.now self.old }
    {
        if self.is_holder(setup, h, dev, ep) {
            Some(
                self.endpoints
                    .replace(dev, ep.address(), placeholder(alloc)),
            )
        } else {
            None
        }
    }

    /// Takes a name's endpoint out, which was found to be its own: it isn't looked for again.
    pub fn take_found(
        &mut self,
        alloc: Global,
        setup: &Setup,
        h: Name,
        dev: DeviceNo,
        ep: EpAddr,
    ) -> Endpoint
        requires { is_some (own_endpoint setup.now h (world_of setup.now self.old) dev ep) ≡ true }
        ensures taken { own_endpoint setup.now h (world_of setup.now self.old) dev ep ≡ Some result }
        ensures left { world_of setup.now self.new ≡ without_endpoint setup.now h (world_of setup.now self.old) dev ep }
    {
        self.endpoints
            .replace(dev, ep.address(), placeholder(alloc))
    }

    /// Takes the endpoint of this address out of the device that a handle opened, where it holds the interface.
    pub fn take_own(
        &mut self,
        alloc: Global,
        setup: &Setup,
        h: Name,
        handle: &Handle,
        ep: EpAddr,
    ) -> Option<(DeviceNo, Endpoint)>
        ensures { TakesOwn setup.now h handle.now (world_of setup.now self.old) ep result (world_of setup.now self.new) }
    {
        let Some(dev) = handle.device else {
            return None;
        };
        match self.take_endpoint(alloc, setup, h, dev, ep) {
            None => None,
            Some(endpoint) => Some((dev, endpoint)),
        }
    }
}

/// What stands in the place of an endpoint that was taken out.
pub(crate) fn placeholder(alloc: Global) -> Endpoint
    ensures { result ≡ no_endpoint }
{
    Endpoint {
        line: Sequence::new(alloc),
        script_left: ScriptLeft::new(alloc),
        device_halted: false,
        packets_received: Sequence::new(alloc),
        state: EndpointState::Running,
        errand: None,
    }
}
