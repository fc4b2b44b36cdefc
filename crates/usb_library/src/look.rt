//! Where the next packet is looked for.

use usb_core::Pending;
use usb_model::{DeviceNo, EpAddr};

/// The endpoint that was served last, and whether the last look found a packet. Nothing is promised of it: it decides
/// which packet comes next, of those that are to be served.
#[derive(Drop)]
pub(crate) struct Look {
    served: Option<(DeviceNo, EpAddr)>,
    /// Whether the last look found no packet.
    idle: bool,
}

impl Look {
    /// Nothing was served.
    pub(crate) fn new() -> Look {
        Look {
            served: None,
            idle: true,
        }
    }

    /// This endpoint is served.
    pub(crate) fn serve(&mut self, dev: DeviceNo, ep: EpAddr) {
        self.served = Some((dev, ep));
    }

    /// Behind which endpoint the next look begins: behind the one that was served last; from that one on where the last look
    /// found no packet, since it is the likeliest to have the next.
    pub(crate) fn after(&self) -> Option<(DeviceNo, EpAddr)> {
        let (dev, ep) = self.served?;
        if self.idle {
            Some((dev, before(ep)))
        } else {
            Some((dev, ep))
        }
    }

    /// What a look showed.
    pub(crate) fn keep(&mut self, pending: &Pending) {
        self.idle = pending.serve.is_none();
    }
}

/// The endpoint address behind which this one comes.
fn before(ep: EpAddr) -> EpAddr {
    EpAddr::new(ep.address().saturating_sub(1))
}
