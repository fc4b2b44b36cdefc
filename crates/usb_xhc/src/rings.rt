//! How a device's slot is made.

ghost use Rattle.std.specs.Prelude.{◌≡◌, ◌<◌, IfOk, length, ◌+◌, ◌^◌};
ghost use Rattle.usb_xhc.specs.Made.{context_made, context_for, contexts_for, ring_base};

use crate::EndpointContext;
use std::alloc::{AllocError, Global};
use usb_descriptors::Config;
use usb_device::info_by;
use usb_model::EndpointInfo;
use usb_trb::{EndpointId, Pointer, Slot};

/// The endpoint ids of a device: 0 to 31 (xHCI 1.2, 4.5.1).
const IDS: u8 = 32;

/// Where the transfer ring of a slot's endpoint begins.
fn ring_base(slot: Slot, id: EndpointId) -> Pointer
    ensures value { result ≡ ring_base slot id }
    ensures room { result + 2048 < 2 ^ 64 }
{
    let place = 32 * u64::from(slot.number()) + u64::from(id.number());
    Pointer::before(0x1000_0000 + place * 0x1000)
}

/// An endpoint of this id, of which the configuration says this; None where it has no ring.
fn make_context(
    alloc: Global,
    slot: Slot,
    id: u8,
    info: &EndpointInfo,
) -> Result<Option<EndpointContext>, AllocError>
    requires { id < 32 }
    ensures { IfOk result (λ c. c ≡ context_made slot id info.now) }
{
    if info.kind.is_unsupported() {
        return Ok(None);
    }
    match EndpointId::new(id) {
        Some(id) => {
            let base = ring_base(slot, id);
            let context = EndpointContext::new(alloc, slot, id, info.packet_size, base)?;
            Ok(Some(context))
        }
        None => Ok(None),
    }
}

/// The endpoints of a configuration, by their ids.
pub(crate) fn make_contexts(
    alloc: Global,
    slot: Slot,
    config: &Config,
) -> Result<Vec<Option<EndpointContext>>, AllocError>
    ensures made { IfOk result (λ cs. cs.items ≡ contexts_for slot config.now) }
    ensures ids { IfOk result (λ cs. length cs.items ≡ 32) }
{
    let mut contexts = Vec::with_capacity(alloc, usize::from(IDS))?;
    for id in 0..IDS {
        contexts.push(context_for(alloc, slot, id, config)?)?;
    }
    Ok(contexts)
}

/// The endpoint of this id, as the configuration has it.
fn context_for(
    alloc: Global,
    slot: Slot,
    id: u8,
    config: &Config,
) -> Result<Option<EndpointContext>, AllocError>
    requires { id < 32 }
    ensures { IfOk result (λ c. c ≡ context_for slot config.now id) }
{
    match info_by(config, usize::from(id)) {
        Some(info) => make_context(alloc, slot, id, info),
        None => Ok(None),
    }
}
