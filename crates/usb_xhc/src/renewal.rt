//! What a controller has is made new, piece by piece.

ghost use Rattle.std.specs.Prelude.{◌≡◌, map, option_map};
ghost use Rattle.usb_device.specs.Pipe.{IsLawful, rewound};
ghost use Rattle.usb_xhc.specs.Controller.{AreLawfulAll};
ghost use Rattle.usb_xhc.specs.Slots.{as_made, slot_renewed};

use crate::EndpointContext;
use crate::slot::DeviceSlot;
use usb_device::Device;
use usb_model::EpAddr;

/// A device goes back to the beginning of each endpoint's script.
pub(crate) fn rewind<D: Device>(device: &mut D)
    ensures pipes { D.pipes device.new ≡ map rewound (D.pipes device.old) }
    ensures lawful { IsLawful (D.pipes device.new) }
{
    for id in 0..32_u8 {
        device.rewind(EpAddr::new(id / 2 + 128 * (id % 2)));
    }
}

/// Each endpoint that has a ring runs, and its ring is empty.
pub(crate) fn renew_contexts(contexts: &mut [Option<EndpointContext>])
    ensures { contexts.new ≡ map (option_map as_made) contexts.old }
{
    for context in contexts.iter_mut() {
        renew_context(context);
    }
}

/// An endpoint runs, and its ring is empty, where it has one.
fn renew_context(context: &mut Option<EndpointContext>)
    ensures { context.new ≡ option_map as_made context.old }
{
    if let Some(context) = context {
        context.renew();
    }
}

/// Each slot is made new.
pub(crate) fn renew_slots<D: Device>(slots: &mut [DeviceSlot<D>])
    ensures slots { slots.new ≡ map slot_renewed slots.old }
    ensures lawful { AreLawfulAll slots.new }
{
    for slot in slots.iter_mut() {
        slot.renew_all();
    }
}
