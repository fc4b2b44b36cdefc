//! What a driver does in its thread.

ghost use Rattle.usb_model.specs.Setup.{Setup};
ghost use Rattle.usb_library.specs.Calls.{Calling};

use std::sync::Wait;
use usb_device::Device;
use usb_journal::{Naming, Recorder};
use usb_library::{Caller, Library, Payload};

/// A driver: what one thread does with the library, by calls of its own. The library's workers run beside it. It is not to wait
/// for ever: what it left in progress goes on after it, as far as its device lets it.
pub trait Driver<C: Payload> {
    ghost use Rattle.std.specs.Prelude.{⊤};
    ghost use Rattle.usb_model.specs.Setup.{Setup};
    ghost use Rattle.usb_library.specs.Calls.{Calling};

    /// What it leaves.
    type Left: Drop;

    /// What it makes over these devices, by its caller before and behind that, and by what it leaves: for contracts alone. Where an
    /// implementation leaves this out, nothing is said.
    ghost makes: { Self → Setup → Calling → Calling → Self.Left → Type 0 } = { λ driver setup old new left. ⊤ };

    /// Makes its calls.
    fn drive<L: Naming, D: Device, J: Recorder, R: Wait>(
        self,
        rt: &R,
        library: &Library<L, C, D, J>,
        caller: &mut Caller<L>,
    ) -> Self::Left
        ensures { makes self L.setup caller.old caller.new result };
}
