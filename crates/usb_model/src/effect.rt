//! What a step does to the machine of one handle.

ghost use Rattle.std.specs.Prelude.{◌≡◌, [], IfOk};
ghost use Rattle.usb_model.specs.declared.effect.Change.TheVariants.{Keeps};
ghost use Rattle.usb_model.specs.declared.reply.Reply.TheVariants.{Done, Refused as Refuses};
ghost use Rattle.usb_model.specs.Machine.{does, at_endpoint, news_at, orders_at};

use crate::endpoint::Endpoint;
use crate::endpoint_effect::EndpointEffect;
use crate::errand::Errand;
use crate::handle::Handle;
use crate::name::{DeviceNo, EpAddr};
use crate::news::{Event, News};
use crate::order::Order;
use crate::refused::Refused;
use crate::reply::Reply;
use crate::result::TransferResult;
use crate::sequence::Sequence;
use std::alloc::{AllocError, Global};

/// How a step changes interfaces and endpoints.
#[derive(Debug, Drop)]
pub enum Change {
    /// Not at all.
    Keeps,
    /// All the handle's interfaces are free.
    Frees,
    /// Interface `i` is the handle's own, with endpoints made new.
    Gains {
        dev: DeviceNo,
        i: u8,
    },
    /// Interface `i` is free.
    Drops {
        dev: DeviceNo,
        i: u8,
    },
    /// The endpoints of the handle's interfaces are made new.
    Renews {
        dev: DeviceNo,
    },
    /// The endpoint is this one.
    Sets {
        dev: DeviceNo,
        ep: EpAddr,
        endpoint: Endpoint,
    },
}

/// All that a step does: what it leaves of the handle, how it changes the endpoints, and what joins the three lists.
/// Command, Deliver and Take also take the first of their list.
#[derive(Debug, Drop)]
pub struct Effect {
    /// The reply to the step.
    pub reply: Reply,
    /// What is left of the handle.
    pub handle: Handle,
    /// How its interfaces and endpoints change.
    pub change: Change,
    /// What joins its orders.
    pub orders: Sequence<Order>,
    /// What joins its news.
    pub news: Sequence<News>,
    /// What joins its results.
    pub results: Sequence<TransferResult>,
}

/// Errands as orders of an endpoint.
fn orders_at(
    alloc: Global,
    ep: EpAddr,
    errands: Sequence<Errand>,
) -> Result<Sequence<Order>, AllocError>
    ensures { IfOk result (λ xs. xs ≡ orders_at ep errands) }
{
    let mut orders = Sequence::new(alloc);
    for errand in errands.into_vec() {
        orders.push(Order { ep, errand })?;
    }
    Ok(orders)
}

/// Events as news of an endpoint.
fn news_at(alloc: Global, ep: EpAddr, events: Sequence<Event>) -> Result<Sequence<News>, AllocError>
    ensures { IfOk result (λ xs. xs ≡ news_at ep events) }
{
    let mut news = Sequence::new(alloc);
    for event in events.into_vec() {
        news.push(News { ep, event })?;
    }
    Ok(news)
}

impl Effect {
    /// Nothing but this reply.
    pub fn says(alloc: Global, handle: Handle, reply: Reply) -> Effect
        ensures { result ≡ record { reply = reply; handle = handle; change = Keeps; orders = []; news = []; results = [] } }
    {
        Effect {
            reply,
            handle,
            change: Change::Keeps,
            orders: Sequence::new(alloc),
            news: Sequence::new(alloc),
            results: Sequence::new(alloc),
        }
    }

    /// Nothing but this refusal.
    pub fn refuses(alloc: Global, handle: Handle, why: Refused) -> Effect
        ensures { result ≡ record { reply = Refuses why; handle = handle; change = Keeps; orders = []; news = []; results = [] } }
    {
        Effect::says(alloc, handle, Reply::Refused(why))
    }

    /// Done, with this change.
    pub fn does(alloc: Global, handle: Handle, change: Change) -> Effect
        ensures { result ≡ does handle change }
    {
        Effect {
            reply: Reply::Done,
            handle,
            change,
            orders: Sequence::new(alloc),
            news: Sequence::new(alloc),
            results: Sequence::new(alloc),
        }
    }

    /// What is done at one endpoint.
    #[tactic(auto, unfolding(crate::specs::Machine::at_endpoint))]
    pub fn at_endpoint(
        alloc: Global,
        handle: Handle,
        dev: DeviceNo,
        ep: EpAddr,
        doing: EndpointEffect,
    ) -> Result<Effect, AllocError>
        ensures { IfOk result (λ x. x ≡ at_endpoint handle dev ep doing) }
    {
        Ok(Effect {
            reply: doing.reply,
            handle,
            change: Change::Sets {
                dev,
                ep,
                endpoint: doing.endpoint,
            },
            orders: orders_at(alloc, ep, doing.orders)?,
            news: news_at(alloc, ep, doing.news)?,
            results: doing.results,
        })
    }
}
