//! A step's change of interfaces and endpoints.

ghost use Rattle.std.specs.Prelude.{◌≡◌, IfOk, false};
ghost use Rattle.usb_model.specs.declared.effect.Change.TheVariants.{Drops, Frees, Gains, Renews, Sets};
ghost use Rattle.reference.specs.System.{changed, world_of};
ghost use Rattle.usb_model.specs.Machine.Turns.{takes_news, takes_order, takes_result};
ghost use Rattle.usb_model.specs.World.Shared.{past_first};
ghost use Rattle.usb_model.specs.World.Journal.{is_unplug};
ghost use Rattle.usb_model.specs.World.{world_after};

use crate::renewal::Renewed;
use crate::system::System;
use std::alloc::{AllocError, Global};
use usb_model::{Change, DeviceNo, Effect, Endpoint, EpAddr, Name, Reply, Setup, Step};

impl System {
    /// All interfaces of a name are free.
    fn free_all(&mut self, setup: &Setup, h: Name)
        ensures { world_of setup.now self.new ≡ changed setup.now h (world_of setup.now self.old) Frees }
    {
        self.claims.free(h);
    }

    /// An interface is the name's own, with endpoints made new.
    fn gain(
        &mut self,
        alloc: Global,
        setup: &Setup,
        h: Name,
        dev: DeviceNo,
        i: u8,
    ) -> Result<(), AllocError>
        ensures { IfOk result (λ _. world_of setup.now self.new ≡ changed setup.now h (world_of setup.now self.old) (Gains dev i)) }
    {
        let which = Renewed::Within { dev, i };
        self.endpoints.renew(alloc, setup, &self.claims, &which)?;
        let _ = self.claims.replace(dev, i, Some(h));
        Ok(())
    }

    /// An interface that the name holds is free.
    fn let_go(&mut self, setup: &Setup, h: Name, dev: DeviceNo, i: u8)
        ensures { world_of setup.now self.new ≡ changed setup.now h (world_of setup.now self.old) (Drops dev i) }
    {
        if self.is_claimed(h, dev, i) {
            let _ = self.claims.replace(dev, i, None);
        }
    }

    /// The endpoints of the name's interfaces are made new.
    fn renew(
        &mut self,
        alloc: Global,
        setup: &Setup,
        h: Name,
        dev: DeviceNo,
    ) -> Result<(), AllocError>
        ensures { IfOk result (λ _. world_of setup.now self.new ≡ changed setup.now h (world_of setup.now self.old) (Renews dev)) }
    {
        let which = Renewed::Held { h };
        self.endpoints.renew(alloc, setup, &self.claims, &which)?;
        Ok(())
    }

    /// An endpoint of the name's own is this one.
    fn put_endpoint(
        &mut self,
        setup: &Setup,
        h: Name,
        dev: DeviceNo,
        ep: EpAddr,
        endpoint: Endpoint,
    )
        ensures { world_of setup.now self.new ≡ changed setup.now h (world_of setup.now self.old) (Sets dev ep endpoint) }
    {
        if self.is_holder(setup, h, dev, ep) {
            let _ = self.endpoints.replace(dev, ep.address(), endpoint);
        }
    }

    /// Makes a change.
    pub fn change(
        &mut self,
        alloc: Global,
        setup: &Setup,
        h: Name,
        change: Change,
    ) -> Result<(), AllocError>
        ensures { IfOk result (λ _. world_of setup.now self.new ≡ changed setup.now h (world_of setup.now self.old) change) }
    {
        match change {
            Change::Keeps => Ok(()),
            Change::Frees => {
                self.free_all(setup, h);
                Ok(())
            },
            Change::Gains { dev, i } => self.gain(alloc, setup, h, dev, i),
            Change::Drops { dev, i } => {
                self.let_go(setup, h, dev, i);
                Ok(())
            },
            Change::Renews { dev } => self.renew(alloc, setup, h, dev),
            Change::Sets { dev, ep, endpoint } => {
                self.put_endpoint(setup, h, dev, ep, endpoint);
                Ok(())
            },
        }
    }
}

impl System {
    /// Lets go what a step takes from the shared lists.
    fn let_first_go(&mut self, step: &Step)
        ensures { self.new ≡ record self.old { orders = past_first (takes_order step.now) self.old.orders; news = past_first (takes_news step.now) self.old.news; results = past_first (takes_result step.now) self.old.results } }
    {
        if step.takes_order() {
            self.orders.remove_first();
        }
        if step.takes_news() {
            self.news.remove_first();
        }
        if step.takes_result() {
            self.results.remove_first();
        }
    }

    /// Makes the effect of a name's step, which is no Unplug; the reply is the effect's.
    #[tactic(auto, using(proof_model::proofs::Handles::Isolation::gone_stays), unfolding(usb_model::specs::World::world_after))]
    pub fn apply(
        &mut self,
        alloc: Global,
        setup: &Setup,
        h: Name,
        step: &Step,
        effect: Effect,
    ) -> Result<Reply, AllocError>
        requires { is_unplug step.now ≡ false }
        ensures reply { IfOk result (λ r. r ≡ effect.reply) }
        ensures world { IfOk result (λ r. world_of setup.now self.new ≡ world_after setup.now h (world_of setup.now self.old) step.now effect) }
    {
        let Effect {
            reply,
            handle,
            change,
            orders,
            news,
            results,
        } = effect;
        self.change(alloc, setup, h, change)?;
        let _ = self.names.replace(h, handle);
        self.let_first_go(step);
        self.orders.join(h, orders)?;
        self.news.join(h, news)?;
        self.results.join(h, results)?;
        Ok(reply)
    }
}
