//! The core, call by call.

ghost use Rattle.std.specs.Prelude.{◌≡◌, IfErr, IfOk, OnErr, OnOk, Some, false, option_map, slice_get};
ghost use Rattle.usb_model.specs.declared.refused.Refused.TheVariants.{NoMem};
ghost use Rattle.usb_model.specs.declared.reply.Reply.TheVariants.{Number, Refused as IsRefused};
ghost use Rattle.usb_model.specs.declared.step.Step.TheVariants.{Answer, Deliver, Expire, Serve, Submit, Take};
ghost use Rattle.usb_model.specs.declared.verdict.Verdict.TheVariants.{Again, AgainWith, Stop};
ghost use Rattle.usb_model.specs.World.{new_world};
ghost use Rattle.usb_tables.specs.Tds.{memory_left};
ghost use Rattle.refine_core.specs.Calls.{Stays, called_entry};
ghost use Rattle.refine_core.specs.Payloads.{Carries, CarriesMore, Kept, StillCarries};
ghost use Rattle.refine_core.specs.Made.{setup_of};
ghost use Rattle.refine_core.specs.State.{ShowsWorld};
ghost use Rattle.refine_core.specs.Steps.{TurnsWorld};
ghost use Rattle.usb_core.specs.Calls.{takes_memory};
ghost use Rattle.usb_core.specs.Results.{CarriesOut};

use crate::parts::Parts;
use crate::{Setup, SubmitError, Taken};
use std::alloc::{AllocError, Global};
use std::marker::Model;
use usb_device::Device;
use usb_model::{Buffer, Bytes, DeviceNo, Entry, EpAddr, Name, Refused, Reply, Request, Step};

/// The library's core: every step of every name is made here, over the memory of real rings. Contracts see what it
/// keeps, and say of it which world it shows (`ShowsWorld`); it always shows one. Each call is a turn of that world
/// (`TurnsWorld`). What a caller keeps with a transfer, its payload, stays with it: whatever is kept under names and numbers
/// (`Carries`) is what goes out with the transfer of that name and number.
///
/// Only `new`, `submit`, `submit_into`, `again`, `again_with` and `take` take memory.
///
/// The calls on a transfer's way, `submit`, `submit_into`, `serve`, `deliver`, `take` and `stop`, are inlined where they are
/// called, so that what they tell isn't copied once more.
#[derive(Drop)]
pub struct Core<P, D: Device> {
    pub(crate) parts: Parts<P, D>,
}

impl<P, D: Device> Model for Core<P, D> {
    ghost use Rattle.refine_core.specs.State.{IsState, State};

    ghost Value = { State P };

    ghost view = { λ c. c.parts };

    ghost invariant = { λ c. IsState c.parts };
}

impl<P, D: Device> Core<P, D> {
    /// No name has a device open, nothing is submitted, and each device is there, at the beginning of its scripts,
    /// whatever was done with it before. The setup is dropped where memory is refused.
    pub fn new(alloc: Global, setup: Setup<D>) -> Result<Core<P, D>, AllocError>
        ensures shows { IfOk result (λ s. ShowsWorld (setup_of setup) s (new_world (setup_of setup))) }
        ensures carries { IfOk result (λ s. (kept : Kept P) → Carries kept s) }
    {
        Ok(Core {
            parts: Parts::new(alloc, setup)?,
        })
    }

    /// Makes a step that takes no memory: any but a submission, from within a callback or not, and a result that goes out.
    /// It is the call that the step names (`Step`), with that call's refusals.
    pub fn call(&mut self, step: Step) -> Entry
        requires { takes_memory step ≡ false }
        ensures turned { TurnsWorld self.old step result self.new }
        ensures carries { StillCarries self.old self.new }
    {
        self.parts.call(step)
    }

    /// Submits a transfer (libusb 1.0, `libusb_submit_transfer`), and gives its number. Refused where the endpoint
    /// isn't the name's, the device is gone, the kind is not supported or another's, direction or length is wrong, or
    /// no place or number is left; NoMem, with nothing changed, where memory is refused. Request and payload then come
    /// back.
    #[inline(always)]
    pub fn submit(
        &mut self,
        h: Name,
        request: Request,
        payload: P,
    ) -> Result<u64, SubmitError<Request, P>>
        ensures accepted { IfOk result (λ n. TurnsWorld self.old (Submit h request) (record { owner = Some h; reply = Number n }) self.new) }
        ensures given { IfErr result (λ x. x.given ≡ request) }
        ensures back { IfErr result (λ x. x.payload ≡ payload) }
        ensures refused { IfErr result (λ x. (x.why ≡ NoMem → ⊥) → TurnsWorld self.old (Submit h request) (record { owner = Some h; reply = IsRefused x.why }) self.new) }
        ensures kept { OnErr result (Stays self.old self.new) }
        ensures carries { IfOk result (λ n. CarriesMore h n payload self.old self.new) }
        ensures still { OnErr result (StillCarries self.old self.new) }
    {
        let mut none = self.parts.no_memory();
        self.submit_into(h, request, payload, &mut none)
    }

    /// Submits a transfer that reads into `memory`, where that has room for just the bytes that it is to read: then no memory is taken
    /// for them, and `memory` is left without, until they come back with the result. Else it stays, and memory of the library's is
    /// taken. It comes back where the transfer is refused. All else is as of `submit`.
    #[inline(always)]
    pub fn submit_into(
        &mut self,
        h: Name,
        request: Request,
        payload: P,
        memory: &mut Buffer,
    ) -> Result<u64, SubmitError<Request, P>>
        ensures accepted { IfOk result (λ n. TurnsWorld self.old (Submit h request) (record { owner = Some h; reply = Number n }) self.new) }
        ensures given { IfErr result (λ x. x.given ≡ request) }
        ensures back { IfErr result (λ x. x.payload ≡ payload) }
        ensures refused { IfErr result (λ x. (x.why ≡ NoMem → ⊥) → TurnsWorld self.old (Submit h request) (record { owner = Some h; reply = IsRefused x.why }) self.new) }
        ensures kept { OnErr result (Stays self.old self.new) }
        ensures memory { OnOk result (memory.new ≡ memory_left request.body memory.old) }
        ensures room { OnErr result (memory.new ≡ record memory.old { items = memory.new.items }) }
        ensures carries { IfOk result (λ n. CarriesMore h n payload self.old self.new) }
        ensures still { OnErr result (StillCarries self.old self.new) }
    {
        let admission = match self.parts.admit(h, &request) {
            Ok(admission) => admission,
            Err(why) => {
                return Err(SubmitError {
                    why,
                    given: request,
                    payload,
                });
            }
        };
        match self
            .parts
            .start_into(h, admission, request, 0, payload, memory)
        {
            Ok(n) => Ok(n),
            Err(unmade) => Err(SubmitError {
                why: Refused::NoMem,
                given: unmade.request,
                payload: unmade.payload,
            }),
        }
    }

    /// Asks a transfer to end whose time is over (libusb 1.0, `libusb_transfer`, `timeout`). NotFound as for `cancel`,
    /// and where it has no timeout.
    pub fn expire(&mut self, h: Name, n: u64) -> Reply
        ensures turned { TurnsWorld self.old (Expire h n) (record { owner = Some h; reply = result }) self.new }
        ensures carries { StillCarries self.old self.new }
    {
        self.parts.expire(h, n)
    }

    /// A device answers one packet (USB 2.0, 8.5). Nobody's and Idle where nobody holds the endpoint; Idle where there
    /// is nothing to serve.
    #[inline(always)]
    pub fn serve(&mut self, dev: DeviceNo, ep: EpAddr) -> Entry
        ensures turned { TurnsWorld self.old (Serve dev ep) result self.new }
        ensures carries { StillCarries self.old self.new }
    {
        self.parts.serve(dev, ep)
    }

    /// The oldest event is handled (xHCI 1.2, 4.11.3; libusb 1.0, `libusb_handle_events`): a transfer stands or it
    /// ended, or the errand of an order ended. Nobody's and Idle where none waits.
    #[inline(always)]
    pub fn deliver(&mut self) -> Entry
        ensures turned { TurnsWorld self.old Deliver result self.new }
        ensures carries { StillCarries self.old self.new }
    {
        self.parts.deliver()
    }

    /// The oldest result goes out to its callback (libusb 1.0, `libusb_transfer_cb_fn`), with the payload of its
    /// transfer; None where none waits. Nothing changes where memory is refused.
    #[inline(always)]
    pub fn take(&mut self) -> Result<Option<Taken<P>>, AllocError>
        ensures taken { IfOk result (λ x. TurnsWorld self.old Take (called_entry (option_map (λ t. t.returned) x)) self.new) }
        ensures payload { IfOk result (λ x. option_map (λ t. t.payload) x ≡ option_map (λ y. y.transfer.payload) (slice_get self.old.flights.ended 0)) }
        ensures refused { OnErr result (Stays self.old self.new) }
        ensures carries { IfOk result (λ x. (kept : Kept P) → Carries kept self.old → CarriesOut kept x × Carries kept self.new) }
        ensures still { OnErr result (StillCarries self.old self.new) }
    {
        self.parts.take()
    }

    /// Ends the callback of a transfer, which isn't submitted once more (libusb 1.0, `libusb_transfer_cb_fn`). NotFound
    /// where the name has no such transfer in its callback.
    #[inline(always)]
    pub fn stop(&mut self, h: Name, n: u64) -> Reply
        ensures turned { TurnsWorld self.old (Answer h n Stop) (record { owner = Some h; reply = result }) self.new }
        ensures carries { StillCarries self.old self.new }
    {
        self.parts.stop(h, n)
    }

    /// Submits the transfer of a callback once more, under a new number, which it gives; the callback ends (libusb 1.0,
    /// `libusb_transfer_cb_fn`, `libusb_submit_transfer`). Refused as a submission is, and NotFound where the name has
    /// no such transfer in its callback: the callback then goes on. NoMem, with nothing changed, where memory is
    /// refused. The payload then comes back.
    pub fn again(&mut self, h: Name, n: u64, payload: P) -> Result<u64, SubmitError<(), P>>
        ensures accepted { IfOk result (λ k. TurnsWorld self.old (Answer h n Again) (record { owner = Some h; reply = Number k }) self.new) }
        ensures back { IfErr result (λ x. x.payload ≡ payload) }
        ensures refused { IfErr result (λ x. (x.why ≡ NoMem → ⊥) → TurnsWorld self.old (Answer h n Again) (record { owner = Some h; reply = IsRefused x.why }) self.new) }
        ensures kept { OnErr result (Stays self.old self.new) }
        ensures carries { IfOk result (λ k. CarriesMore h k payload self.old self.new) }
        ensures still { OnErr result (StillCarries self.old self.new) }
    {
        self.parts.again(h, n, payload)
    }

    /// The same with other bytes to be sent in the place of what the transfer had. Where it is refused they come back.
    pub fn again_with(
        &mut self,
        h: Name,
        n: u64,
        bytes: Bytes,
        payload: P,
    ) -> Result<u64, SubmitError<Bytes, P>>
        ensures accepted { IfOk result (λ k. TurnsWorld self.old (Answer h n (AgainWith bytes)) (record { owner = Some h; reply = Number k }) self.new) }
        ensures given { IfErr result (λ x. x.given ≡ bytes) }
        ensures back { IfErr result (λ x. x.payload ≡ payload) }
        ensures refused { IfErr result (λ x. (x.why ≡ NoMem → ⊥) → TurnsWorld self.old (Answer h n (AgainWith bytes)) (record { owner = Some h; reply = IsRefused x.why }) self.new) }
        ensures kept { OnErr result (Stays self.old self.new) }
        ensures carries { IfOk result (λ k. CarriesMore h k payload self.old self.new) }
        ensures still { OnErr result (StillCarries self.old self.new) }
    {
        self.parts.again_with(h, n, bytes, payload)
    }
}
