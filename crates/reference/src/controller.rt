//! The steps of the device, the controller and the event loop, at the machine of the handle whose they are.

ghost use Rattle.std.specs.Prelude.{◌≡◌, Some, IfOk};
ghost use Rattle.usb_model.specs.Machine.Turns.{command_order, deliver_news, serve_effect, take_effect, command_effect, deliver_effect};
ghost use Rattle.usb_model.specs.Machine.Calls.{clear_halt_effect};
ghost use Rattle.usb_model.specs.Machine.Calls.{clear_tests};
ghost use Rattle.reference.specs.Submit.{refused_by};
ghost use Rattle.usb_model.specs.declared.effect.Effect.{Effect};
ghost use Rattle.usb_model.specs.Machine.{endpoint_at, unless};
ghost use Rattle.usb_model.specs.World.{machine_with};
ghost use Rattle.reference.specs.Call.{machine_in};
ghost use Rattle.reference.specs.System.{with_endpoint_out, world_of};
ghost use Rattle.usb_model.specs.World.Shared.{first_name, pieces_of};

use crate::call::Call;
use crate::calls::unhalt;
use crate::device::serve;
use crate::endpoint_controller::command;
use crate::events::deliver;
use crate::system::System;
use std::alloc::{AllocError, Global};
use usb_model::{
    Change, DeviceNo, Effect, Endpoint, EpAddr, Handle, InCallback, Name, News, Order, Refused,
    Reply, Returned, Sequence, Setup, TransferResult,
};

impl<'a> Call<'a> {
    /// Why the halt of this endpoint of the handle's own can't be ended, if it can't.
    #[tactic(auto, unfolding(usb_model::specs::Machine::refused_if))]
    fn clear_refusal(&self, handle: &Handle, dev: DeviceNo, endpoint: &Endpoint) -> Option<Refused>
        requires { handle.now.device ≡ Some dev }
        ensures { let m = machine_in self.now handle.now in (rest : Effect) → unless m (clear_tests m endpoint.now) rest ≡ refused_by m result rest }
    {
        if self.system.is_gone(dev) {
            Some(Refused::NoDevice)
        } else if !endpoint.is_empty() {
            Some(Refused::Busy)
        } else {
            None
        }
    }
}

impl System {
    /// The device answers one packet (USB 2.0, 8.5).
    #[tactic(auto, unfolding(usb_model::specs::Machine::Turns::serve_effect, usb_model::specs::Machine::at_endpoint))]
    pub fn serve_effect(
        &mut self,
        alloc: Global,
        setup: &Setup,
        h: Name,
        handle: Handle,
        dev: DeviceNo,
        ep: EpAddr,
    ) -> Result<Effect, AllocError>
        ensures effect { IfOk result (λ x. let m = machine_with setup.now h handle (world_of setup.now self.old) in x ≡ serve_effect setup.now m dev ep (m.endpoints dev ep)) }
        ensures left { IfOk result (λ x. world_of setup.now self.new ≡ with_endpoint_out setup.now h (world_of setup.now self.old) x.change) }
    {
        let gone = self.is_gone(dev);
        let Some(endpoint) = self.take_endpoint(alloc, setup, h, dev, ep) else {
            return Ok(Effect::says(alloc, handle, Reply::Idle));
        };
        let done = serve(alloc, endpoint, setup.packet_size_of(dev, ep), gone)?;
        Ok(Effect::at_endpoint(alloc, handle, dev, ep, done)?)
    }

    /// The controller carries out an order (xHCI 1.2, 4.6).
    #[tactic(auto, unfolding(usb_model::specs::Machine::Turns::command_order, usb_model::specs::Machine::at_endpoint))]
    pub fn command_order(
        &mut self,
        alloc: Global,
        setup: &Setup,
        h: Name,
        handle: Handle,
        order: Order,
    ) -> Result<Effect, AllocError>
        ensures effect { IfOk result (λ x. let m = machine_with setup.now h handle (world_of setup.now self.old) in x ≡ command_order setup.now m order (endpoint_at m order.ep)) }
        ensures left { IfOk result (λ x. world_of setup.now self.new ≡ with_endpoint_out setup.now h (world_of setup.now self.old) x.change) }
    {
        let Some((dev, endpoint)) = self.take_own(alloc, setup, h, &handle, order.ep) else {
            return Ok(Effect::says(alloc, handle, Reply::Idle));
        };
        let done = command(
            alloc,
            endpoint,
            setup.packet_size_of(dev, order.ep),
            order.ep,
            order.errand,
        )?;
        Ok(Effect::at_endpoint(alloc, handle, dev, order.ep, done)?)
    }

    /// A piece of news is handled (xHCI 1.2, 4.11.3; `libusb_handle_events`).
    #[tactic(auto, unfolding(usb_model::specs::Machine::Turns::deliver_news, usb_model::specs::Machine::at_endpoint))]
    pub fn deliver_news(
        &mut self,
        alloc: Global,
        setup: &Setup,
        h: Name,
        handle: Handle,
        news: News,
    ) -> Result<Effect, AllocError>
        ensures effect { IfOk result (λ x. let m = machine_with setup.now h handle (world_of setup.now self.old) in x ≡ deliver_news setup.now m news (endpoint_at m news.ep)) }
        ensures left { IfOk result (λ x. world_of setup.now self.new ≡ with_endpoint_out setup.now h (world_of setup.now self.old) x.change) }
    {
        let gone = self.has_lost(&handle);
        let Some((dev, endpoint)) = self.take_own(alloc, setup, h, &handle, news.ep) else {
            return Ok(Effect::says(alloc, handle, Reply::Idle));
        };
        let done = deliver(
            alloc,
            endpoint,
            setup.packet_size_of(dev, news.ep),
            news.ep,
            gone,
            news.event,
        )?;
        Ok(Effect::at_endpoint(alloc, handle, dev, news.ep, done)?)
    }

    /// Ends the halt of the device's endpoint (`libusb_clear_halt`; USB 2.0, 9.4.1).
    pub fn clear_halt_effect(
        &mut self,
        alloc: Global,
        setup: &Setup,
        h: Name,
        handle: Handle,
        ep: EpAddr,
    ) -> Effect
        ensures effect { let m = machine_with setup.now h handle (world_of setup.now self.old) in result ≡ clear_halt_effect m ep (endpoint_at m ep) }
        ensures left { world_of setup.now self.new ≡ with_endpoint_out setup.now h (world_of setup.now self.old) result.change }
    {
        let Some(dev) = handle.device else {
            return Effect::refuses(alloc, handle, Refused::NotFound);
        };
        let Some(seen) = self.endpoint_of(setup, h, dev, ep) else {
            return Effect::refuses(alloc, handle, Refused::NotFound);
        };
        let call = Call {
            setup,
            system: self,
            name: h,
        };
        if let Some(why) = call.clear_refusal(&handle, dev, seen) {
            return Effect::refuses(alloc, handle, why);
        }
        let endpoint = self.take_found(alloc, setup, h, dev, ep);
        let endpoint = unhalt(endpoint);
        Effect::does(alloc, handle, Change::Sets { dev, ep, endpoint })
    }
}

impl System {
    /// The controller carries out the first order, which is the name's.
    #[tactic(auto, using(crate::proofs::Heads::head_of_name), unfolding(usb_model::specs::Machine::Turns::command_effect))]
    pub fn command_first(
        &mut self,
        alloc: Global,
        setup: &Setup,
        h: Name,
        handle: Handle,
    ) -> Result<Effect, AllocError>
        requires { first_name self.old.orders ≡ Some h }
        ensures effect { IfOk result (λ x. let m = machine_with setup.now h handle (world_of setup.now self.old) in x ≡ command_effect setup.now m m.orders) }
        ensures left { IfOk result (λ x. world_of setup.now self.new ≡ with_endpoint_out setup.now h (world_of setup.now self.old) x.change) }
    {
        let [first, ..] = self.orders.as_slice() else {
            return Ok(Effect::says(alloc, handle, Reply::Idle));
        };
        let order = first.piece;
        Ok(self.command_order(alloc, setup, h, handle, order)?)
    }

    /// The first piece of news is handled, which is the name's.
    #[tactic(auto, using(crate::proofs::Heads::head_of_name), unfolding(usb_model::specs::Machine::Turns::deliver_effect))]
    pub fn deliver_first(
        &mut self,
        alloc: Global,
        setup: &Setup,
        h: Name,
        handle: Handle,
    ) -> Result<Effect, AllocError>
        requires { first_name self.old.news ≡ Some h }
        ensures effect { IfOk result (λ x. let m = machine_with setup.now h handle (world_of setup.now self.old) in x ≡ deliver_effect setup.now m m.news) }
        ensures left { IfOk result (λ x. world_of setup.now self.new ≡ with_endpoint_out setup.now h (world_of setup.now self.old) x.change) }
    {
        let [first, ..] = self.news.as_slice() else {
            return Ok(Effect::says(alloc, handle, Reply::Idle));
        };
        let news = first.piece;
        Ok(self.deliver_news(alloc, setup, h, handle, news)?)
    }

    /// The oldest result, which is the name's, goes out to its callback.
    #[tactic(auto, using(crate::proofs::Heads::head_of_name), unfolding(usb_model::specs::Machine::Turns::take_effect))]
    pub fn take_first(
        &self,
        alloc: Global,
        setup: &Setup,
        h: Name,
        handle: Handle,
    ) -> Result<Effect, AllocError>
        requires { first_name self.now.results ≡ Some h }
        ensures effect { IfOk result (λ x. let m = machine_with setup.now h handle (world_of setup.now self.now) in x ≡ take_effect h m m.results) }
        ensures sets_nothing { IfOk result (λ x. with_endpoint_out setup.now h (world_of setup.now self.now) x.change ≡ world_of setup.now self.now) }
    {
        let [first, ..] = self.results.as_slice() else {
            return Ok(Effect::says(alloc, handle, Reply::Idle));
        };
        let returned = first.piece.returned(h)?;
        let mut out = handle.in_callbacks;
        out.push(first.piece.in_callback()?)?;
        Ok(Effect {
            reply: Reply::Called(returned),
            handle: Handle {
                device: handle.device,
                next_number: handle.next_number,
                in_callbacks: out,
            },
            change: Change::Keeps,
            orders: Sequence::new(alloc),
            news: Sequence::new(alloc),
            results: Sequence::new(alloc),
        })
    }
}
