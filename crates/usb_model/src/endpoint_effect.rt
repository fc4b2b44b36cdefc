//! What a step does to one endpoint.

ghost use Rattle.std.specs.Prelude.{◌≡◌};
ghost use Rattle.usb_model.specs.Endpoint.{only_says};

use crate::endpoint::Endpoint;
use crate::errand::Errand;
use crate::news::Event;
use crate::reply::Reply;
use crate::result::TransferResult;
use crate::sequence::Sequence;
use std::alloc::Global;

/// All that a step does to its endpoint, and what joins the three lists.
#[derive(Debug, Drop)]
pub struct EndpointEffect {
    /// The reply to the step.
    pub reply: Reply,
    /// The endpoint after the step.
    pub endpoint: Endpoint,
    /// What is ordered of the controller.
    pub orders: Sequence<Errand>,
    /// What the controller tells.
    pub news: Sequence<Event>,
    /// What came of transfers that left the line.
    pub results: Sequence<TransferResult>,
}

impl EndpointEffect {
    /// Nothing is done but this reply.
    pub fn only_says(alloc: Global, endpoint: Endpoint, reply: Reply) -> EndpointEffect
        ensures { result ≡ only_says endpoint reply }
    {
        EndpointEffect {
            reply,
            endpoint,
            orders: Sequence::new(alloc),
            news: Sequence::new(alloc),
            results: Sequence::new(alloc),
        }
    }
}
