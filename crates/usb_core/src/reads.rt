//! What can be asked of the core without a step, and how its devices are handed back.

ghost use Rattle.std.specs.Prelude.{◌≡◌, ℕ, Some, length, slice_get};
ghost use Rattle.std.specs.Option.{option_copied, option_map_or};
ghost use Rattle.usb_model.specs.declared.step.Step.TheVariants.{Command, Deliver, Take};
ghost use Rattle.usb_model.specs.Setup.{Setup as ModelSetup, interface_of};
ghost use Rattle.usb_model.specs.World.{World};
ghost use Rattle.refine_core.specs.Made.{setup_of};
ghost use Rattle.refine_core.specs.State.{ShowsWorld};
ghost use Rattle.usb_core.specs.Pending.{IsPending, does_something, serves};
ghost use Rattle.usb_core.specs.Reads.{IsLeft, would_expire};

use crate::calls::Core;
use crate::{Pending, Setup};
use usb_device::Device;
use usb_model::{DeviceNo, EpAddr, Name};
use usb_xhc::Controller;

impl<P, D: Device> Core<P, D> {
    /// How many bytes the next result has that is taken; 0 where none waits.
    pub fn next_len(&self) -> usize
        ensures { (setup : ModelSetup) (w : World) → ShowsWorld setup self.now w → result ≡ option_map_or (λ t. length t.piece.bytes) (slice_get w.results 0) 0 }
    {
        self.parts.next_len()
    }

    /// Whether `expire` would be done.
    pub fn expires(&self, h: Name, n: u64) -> bool
        ensures { (setup : ModelSetup) (w : World) → ShowsWorld setup self.now w → result ≡ would_expire setup w h n }
    {
        self.parts.expires(h, n)
    }

    /// The packet of index `i`, from 0 on, of those that a device took at one of its endpoints, held or not, since it
    /// was made new; None past the last.
    pub fn taken(&self, dev: DeviceNo, ep: EpAddr, i: usize) -> Option<&[u8]>
        ensures { (setup : ModelSetup) (w : World) (k : ℕ) → ShowsWorld setup self.now w → interface_of setup dev ep ≡ Some k → option_copied result ≡ slice_get (w.endpoints dev ep).packets_received i }
    {
        self.parts.taken(dev, ep, i)
    }

    /// What is to be done next. Endpoints are looked at by device and address from behind this one on, in a circle; from the
    /// first one on where there is none. Takes no memory.
    pub fn pending(&self, after: Option<(DeviceNo, EpAddr)>) -> Pending
        ensures { (setup : ModelSetup) (w : World) → ShowsWorld setup self.now w → IsPending setup w after result }
    {
        self.parts.pending(after)
    }

    /// Whether a packet does something at an endpoint: there is a transfer to serve, and the device is ready or goes on in
    /// its script. Takes no memory.
    pub fn has_packet(&self, dev: DeviceNo, ep: EpAddr) -> bool
        ensures { (setup : ModelSetup) (w : World) → ShowsWorld setup self.now w → result ≡ serves setup w dev ep }
    {
        self.parts.has_packet(dev, ep)
    }

    /// Whether an order waits for the controller. Takes no memory.
    pub fn has_order(&self) -> bool
        ensures { (setup : ModelSetup) (w : World) → ShowsWorld setup self.now w → result ≡ does_something setup w Command }
    {
        self.parts.has_order()
    }

    /// Whether an event waits to be handled. Takes no memory.
    pub fn has_event(&self) -> bool
        ensures { (setup : ModelSetup) (w : World) → ShowsWorld setup self.now w → result ≡ does_something setup w Deliver }
    {
        self.parts.has_event()
    }

    /// Whether a result waits to go out. Takes no memory.
    pub fn has_result(&self) -> bool
        ensures { (setup : ModelSetup) (w : World) → ShowsWorld setup self.now w → result ≡ does_something setup w Take }
    {
        self.parts.has_result()
    }

    /// The controller, with its rings and the contexts of its endpoints: for those who look at bytes.
    pub fn controller(&self) -> &Controller<D>
        ensures { result.now ≡ self.now.controller }
    {
        self.parts.controller()
    }
}

impl<P: Drop, D: Device> Core<P, D> {
    /// The devices as the steps left them, with their configurations and scripts: what they took can be read, and a core
    /// that is made of them begins anew. What callers keep with transfers is dropped. Takes no memory.
    pub fn into_setup(self) -> Setup<D>
        ensures setup { (setup : ModelSetup) (w : World) → ShowsWorld setup self w → setup_of result ≡ setup }
        ensures devices { (setup : ModelSetup) (w : World) (d e k : ℕ) → ShowsWorld setup self w → interface_of setup d e ≡ Some k → IsLeft result.controller d e (w.endpoints d e) }
    {
        let Core { parts } = self;
        parts.into_setup()
    }
}
