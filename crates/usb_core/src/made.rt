//! The parts as they are made.

ghost use Rattle.std.specs.Prelude.{◌≡◌, IfOk};
ghost use Rattle.usb_model.specs.Setup.{Setup as ModelSetup};
ghost use Rattle.usb_model.specs.World.{World, new_world};
ghost use Rattle.refine_core.specs.Payloads.{Carries, Kept};
ghost use Rattle.refine_core.specs.Made.{setup_of};
ghost use Rattle.refine_core.specs.State.{IsState, ShowsWorld};

use crate::parts::Parts;
use crate::setup::Setup;
use std::alloc::{AllocError, Global};
use usb_device::Device;
use usb_tables::{Claims, HandleStates, Outstanding, TransfersInFlight};

impl<P, D: Device> Parts<P, D> {
    /// No name has a device open, nothing is submitted, and each device is there, at the beginning of its scripts. The
    /// setup is dropped where memory is refused.
    pub fn new(alloc: Global, setup: Setup<D>) -> Result<Parts<P, D>, AllocError>
        ensures shows { IfOk result (λ s. ShowsWorld (setup_of setup) s (new_world (setup_of setup))) }
        ensures carries { IfOk result (λ s. (kept : Kept P) → Carries kept s) }
    {
        let Setup {
            configs,
            mut controller,
        } = setup;
        controller.renew_all();
        let claims = Claims::new(alloc, configs)?;
        let callers = HandleStates::new(alloc)?;
        let outstanding = Outstanding::new(alloc)?;
        let flights = TransfersInFlight::new(alloc)?;
        Ok(Parts {
            claims,
            controller,
            flights,
            callers,
            outstanding,
            alloc,
        })
    }
}

impl<P: Drop, D: Device> Parts<P, D> {
    /// The devices as they are left, with their configurations. What callers keep with transfers is dropped.
    pub fn into_setup(self) -> Setup<D>
        requires { IsState self }
        ensures setup { (setup : ModelSetup) (w : World) → ShowsWorld setup self w → setup_of result ≡ setup }
        ensures controller { result.controller ≡ self.controller }
    {
        let Parts {
            claims,
            controller,
            ..
        } = self;
        Setup {
            configs: claims.into_configs(),
            controller,
        }
    }
}
