//! What a device answers to one packet.

ghost use Rattle.std.specs.Prelude.{◌≡◌};
ghost use Rattle.usb_model.specs.Endpoint.Packets.{is_nak};

use crate::sequence::{Bytes, Sequence};
use std::alloc::AllocError;

/// One answer of a device's script, to one packet (USB 2.0, 8.4.5).
#[derive(Debug, Drop)]
pub enum Response {
    /// A packet for the host, of an IN endpoint.
    Data(Bytes),
    /// The packet was taken, by an OUT endpoint.
    Ack,
    /// Not ready.
    Nak,
    /// The endpoint is halted.
    Stall,
    /// A transaction that failed all its retries.
    Broken,
}

impl Response {
    /// Whether the packet wasn't ready.
    pub fn is_nak(&self) -> bool
        ensures { result ≡ is_nak self.now }
    {
        matches!(self, Response::Nak)
    }
}

/// A clone is the same answer.
impl Clone for Response {
    ghost is_clone = { λ v w. w ≡ v };

    fn clone(&self) -> Result<Response, AllocError> {
        match self {
            Response::Data(bytes) => Ok(Response::Data(bytes.clone()?)),
            Response::Ack => Ok(Response::Ack),
            Response::Nak => Ok(Response::Nak),
            Response::Stall => Ok(Response::Stall),
            Response::Broken => Ok(Response::Broken),
        }
    }
}

/// The answers of an endpoint, in order.
pub type Script = Sequence<Response>;
