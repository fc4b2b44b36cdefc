//! What can be asked amid a plan, and how its devices or its core are handed back.

ghost use Rattle.std.specs.Prelude.{◌≡◌, ℕ, Some, slice_get};
ghost use Rattle.std.specs.Option.{option_copied};
ghost use Rattle.usb_model.specs.Setup.{Setup as ModelSetup, interface_of};
ghost use Rattle.usb_model.specs.World.Plans.{Stage};
ghost use Rattle.usb_core.specs.Public.{ShowsWorld, setup_of};
ghost use Rattle.usb_core.specs.Reads.{IsLeft};
ghost use Rattle.usb_plans.specs.PlanRuns.{ShowsStage};

use crate::plan_run::PlanRun;
use usb_core::{Callback, Core, Setup};
use usb_device::Device;
use usb_model::{DeviceNo, EpAddr};

impl<C: Callback, D: Device> PlanRun<C, D> {
    /// The core, to be asked amid the plan.
    pub fn core(&self) -> &Core<C, D>
        ensures { (setup : ModelSetup) (s : Stage) → ShowsStage C.rule setup self.now s → ShowsWorld setup result.now s.world }
    {
        &self.core
    }

    /// The packet of index `i`, from 0 on, of those that a device took at one of its endpoints, held or not, since it
    /// was made new; None past the last.
    pub fn taken(&self, dev: DeviceNo, ep: EpAddr, i: usize) -> Option<&[u8]>
        ensures { (setup : ModelSetup) (s : Stage) (k : ℕ) → ShowsStage C.rule setup self.now s → interface_of setup dev ep ≡ Some k → option_copied result ≡ slice_get (s.world.endpoints dev ep).packets_received i }
    {
        self.core.taken(dev, ep, i)
    }

    /// The devices as the pieces left them, with their configurations: what they took can be read, and a run that is made
    /// of them begins anew. The callbacks that are kept with transfers or run are dropped. Takes no memory.
    pub fn into_setup(self) -> Setup<D>
        ensures setup { (setup : ModelSetup) (s : Stage) → ShowsStage C.rule setup self s → setup_of result ≡ setup }
        ensures devices { (setup : ModelSetup) (s : Stage) (d e k : ℕ) → ShowsStage C.rule setup self s → interface_of setup d e ≡ Some k → IsLeft result.controller d e (s.world.endpoints d e) }
    {
        let PlanRun { core, .. } = self;
        core.into_setup()
    }

    /// The core as the pieces left it. The callbacks that run are dropped. Takes no memory.
    pub fn into_core(self) -> Core<C, D>
        ensures { (setup : ModelSetup) (s : Stage) → ShowsStage C.rule setup self s → ShowsWorld setup result s.world }
    {
        let PlanRun { core, .. } = self;
        core
    }
}
