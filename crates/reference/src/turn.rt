//! One step of the whole system.

ghost use Rattle.std.specs.Prelude.{◌≡◌, IfOk, None, Some};
ghost use Rattle.std.specs.List.{list_any};
ghost use Rattle.usb_model.specs.Setup.{interfaces_of};
ghost use Rattle.usb_model.specs.World.{is_blocked, is_others, owner_of, turn, turn_of, turn_of_nobody};
ghost use Rattle.usb_model.specs.Machine.Turns.{gone_after};
ghost use Rattle.usb_model.specs.declared.step.Step.TheVariants.{Unplug};
ghost use Rattle.reference.specs.Tables.{cell_at};
ghost use Rattle.reference.specs.System.{Turns, world_of};

use crate::system::System;
use std::alloc::{AllocError, Global};
use usb_model::{Change, DeviceNo, Entry, Handle, Name, Refused, Reply, Setup, Step};

impl System {
    /// Whether another name holds an interface of a device.
    fn is_any_others(&self, setup: &Setup, h: Name, dev: DeviceNo) -> bool
        ensures { result ≡ list_any (λ i. is_others h (cell_at None self.now.claims dev i)) (interfaces_of setup.now dev) }
    {
        setup
            .interfaces_of(dev)
            .iter()
            .any(|i| h.is_others(self.claimant(dev, *i)))
    }

    /// Whether another name is in the way: it holds the interface that is claimed, or one of the device that is reset.
    #[tactic(auto, unfolding(usb_model::specs::World::is_blocked))]
    fn is_blocked(&self, setup: &Setup, h: Name, change: &Change) -> bool
        ensures { result ≡ is_blocked setup.now h (world_of setup.now self.now) change.now }
    {
        match change {
            Change::Gains { dev, i } => h.is_others(self.claimant(*dev, *i)),
            Change::Renews { dev } => self.is_any_others(setup, h, *dev),
            Change::Keeps | Change::Frees | Change::Drops { .. } | Change::Sets { .. } => false,
        }
    }

    /// Whose a step is.
    fn owner_of(&self, setup: &Setup, step: &Step) -> Option<Name>
        ensures { result ≡ owner_of setup.now (world_of setup.now self.now) step.now }
    {
        match step {
            Step::Open { h, .. }
            | Step::Close { h }
            | Step::Claim { h, .. }
            | Step::Release { h, .. }
            | Step::Reset { h }
            | Step::ClearHalt { h, .. }
            | Step::Submit { h, .. }
            | Step::Cancel { h, .. }
            | Step::Expire { h, .. }
            | Step::Answer { h, .. } => Some(*h),
            Step::Serve { dev, ep } => self.holder(setup, *dev, *ep),
            Step::Command => self.orders.first_name(),
            Step::Deliver => self.news.first_name(),
            Step::Take => self.results.first_name(),
            Step::Unplug { .. } => None,
        }
    }

    /// The step of a name, which is no Unplug.
    fn turn_of(
        &mut self,
        alloc: Global,
        setup: &Setup,
        h: Name,
        step: &Step,
    ) -> Result<Entry, AllocError>
        requires { owner_of setup.now (world_of setup.now self.old) step.now ≡ Some h }
        ensures { IfOk result (λ entry. Turns (turn_of setup.now h (world_of setup.now self.old) step.now) entry (world_of setup.now self.new)) }
    {
        let handle = self.names.replace(h, Handle::unused(alloc));
        let effect = self.effect(alloc, setup, h, handle, step)?;
        if self.is_blocked(setup, h, &effect.change) {
            let _ = self.names.replace(h, effect.handle);
            return Ok(Entry {
                owner: Some(h),
                reply: Reply::Refused(Refused::HeldElsewhere),
            });
        }
        let reply = self.apply(alloc, setup, h, step, effect)?;
        Ok(Entry {
            owner: Some(h),
            reply,
        })
    }

    /// A device is gone, if there is such a one.
    fn lose(&mut self, setup: &Setup, dev: DeviceNo)
        ensures { world_of setup.now self.new ≡ record (world_of setup.now self.old) { gone = λ d. gone_after setup.now (world_of setup.now self.old).gone (Unplug dev) d } }
    {
        if setup.is_device(dev) {
            self.gone[usize::from(dev.number())] = true;
        }
    }

    /// The step of nobody: idle, but for an Unplug.
    #[tactic(auto, unfolding(usb_model::specs::World::turn_of_nobody))]
    fn turn_of_nobody(&mut self, setup: &Setup, step: &Step) -> Entry
        ensures { Turns (turn_of_nobody setup.now (world_of setup.now self.old) step.now) result (world_of setup.now self.new) }
    {
        let Step::Unplug { dev } = step else {
            return Entry {
                owner: None,
                reply: Reply::Idle,
            };
        };
        let reply = self.unplug_reply(setup, *dev);
        self.lose(setup, *dev);
        Entry { owner: None, reply }
    }

    /// One step: its entry.
    #[tactic(auto, unfolding(usb_model::specs::World::turn))]
    pub fn turn(&mut self, alloc: Global, setup: &Setup, step: &Step) -> Result<Entry, AllocError>
        ensures { IfOk result (λ entry. Turns (turn setup.now (world_of setup.now self.old) step.now) entry (world_of setup.now self.new)) }
    {
        match self.owner_of(setup, step) {
            None => Ok(self.turn_of_nobody(setup, step)),
            Some(h) => Ok(self.turn_of(alloc, setup, h, step)?),
        }
    }
}
