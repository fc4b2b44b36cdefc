//! A call of a handle, before anything of it is done.

ghost use Rattle.std.specs.Prelude.{◌≡◌};
ghost use Rattle.usb_model.specs.World.{machine_of as machine_in_world};
ghost use Rattle.reference.specs.System.{world_of};
ghost use Rattle.trace_explain.specs.Caller.{machine_of, setup_in, world_in};
ghost use Rattle.trace_explain.specs.Endpoints.{listed_of};
ghost use Rattle.trace_explain.specs.Reasons.{refusal_told};

use crate::endpoints::EndpointList;
use crate::refusal::CallRefusal;
use crate::sentence::Reason;
use reference::System;
use usb_model::{Handle, Name, Refusal, Setup};

/// What a call of a handle reads, with what is kept of the handle. Contracts see the world by `world_in`, and what it is
/// to the handle by `machine_of`.
#[derive(Clone, Copy)]
pub(crate) struct Caller<'a> {
    /// The devices as they were set up.
    pub setup: &'a Setup,
    /// The system.
    pub system: &'a System,
    /// Whose call it is.
    pub name: Name,
    /// What is kept of its handle.
    pub handle: &'a Handle,
}

impl<'a> Caller<'a> {
    /// The call of a name in a system.
    #[tactic(auto, unfolding(usb_model::specs::World::machine_of))]
    pub fn new(setup: &'a Setup, system: &'a System, name: Name) -> Caller<'a>
        ensures setup { setup_in result ≡ setup.now }
        ensures name { result.name ≡ name }
        ensures machine { machine_of result ≡ machine_in_world setup.now name (world_of setup.now system.now) }
        ensures world { world_in result ≡ world_of setup.now system.now }
    {
        Caller {
            setup,
            system,
            name,
            handle: system.names.get(name),
        }
    }
    /// The endpoints of its device, if it has one open.
    fn endpoints(&self) -> EndpointList
        ensures { result ≡ listed_of (setup_in self.now) (machine_of self.now).handle.device }
    {
        match self.handle.device {
            None => EndpointList::new(),
            Some(dev) => EndpointList::of(self.setup.endpoints_of(dev)),
        }
    }

    /// Its call is refused for this, if it is.
    pub fn told(&self, refusal: Option<Refusal>) -> Option<Reason>
        ensures { result ≡ refusal_told (setup_in self.now) self.now.name (machine_of self.now) refusal }
    {
        let (refusal, h, endpoints) = (refusal?, self.name, self.endpoints());
        Some(Reason::Refused(CallRefusal {
            h,
            endpoints,
            refusal,
        }))
    }
}
