//! A transfer is submitted (libusb 1.0, `libusb_submit_transfer`).

ghost use Rattle.std.specs.Prelude.{◌≡◌, ◌<◌, ℕ, [], false, slice_get, IfErr, IfOk, OnErr, OnOk, Some};
ghost use Rattle.std.specs.Option.{option_map_or};
ghost use Rattle.usb_model.specs.Buffer.{no_memory};
ghost use Rattle.usb_model.specs.Setup.{Setup};
ghost use Rattle.usb_model.specs.World.{World};
ghost use Rattle.usb_tables.specs.Tds.{memory_left};
ghost use Rattle.usb_tables.specs.HandleStates.{number_of};
ghost use Rattle.refine_world.specs.Shows.{Core, Shows};
ghost use Rattle.refine_core.specs.Payloads.{CarriesMore};
ghost use Rattle.refine_core.specs.State.{IsState, Keeps};
ghost use Rattle.refine_core.specs.Submissions.{CanStart};
ghost use Rattle.refine_core.specs.Works.{Starts};
ghost use Rattle.usb_core.specs.Submissions.{IsAdmission};

use crate::parts::Parts;
use std::{fmt, mem};
use thiserror::Error;
use usb_device::Device;
use usb_model::limits::{LAST_NUMBER, MOST_PLACES};
use usb_model::{Buffer, DeviceNo, Name, Refused, Request};
use usb_tables::{MakeTransferError, Tds, Transfer, check};

/// What isn't accepted: all that was given comes back. As an error it says why.
#[derive(Drop, Error)]
#[error("{why}")]
pub struct SubmitError<G, P> {
    /// Why.
    pub why: Refused,
    /// What was to be sent: a request, or the bytes of one.
    pub given: G,
    /// What the caller keeps with it.
    pub payload: P,
}

/// Shows why: what comes back may have no form that can be shown.
impl<G, P> fmt::Debug for SubmitError<G, P> {
    fn fmt<W: fmt::Write>(&self, f: &mut fmt::Formatter<W>) -> fmt::Result {
        write!(f, "SubmitError({:?})", self.why)
    }
}

/// That a transfer is accepted: where it is to join a line, and as what.
#[derive(Clone, Copy, PartialEq, Eq, Debug)]
pub(crate) struct Admission {
    /// Its device.
    pub(crate) dev: DeviceNo,
    /// Its TDs.
    pub(crate) tds: Tds,
}

/// What a transfer was to be made of, where no place was had for it. `held` is the room that its caller's memory had, which goes back.
fn unmade_of<P>(transfer: Transfer<P>, held: usize, memory: &mut Buffer) -> MakeTransferError<P>
    ensures back { result ≡ record { request = transfer.request; payload = transfer.payload } }
    ensures given { transfer.bytes.capacity ≡ held → memory.new ≡ transfer.bytes }
    ensures kept { (transfer.bytes.capacity ≡ held → ⊥) → memory.new ≡ memory.old }
{
    let Transfer {
        request,
        payload,
        mut bytes,
        ..
    } = transfer;
    if bytes.capacity() == held {
        mem::swap(memory, &mut bytes);
    }
    MakeTransferError { request, payload }
}

impl<P, D: Device> Parts<P, D> {
    /// No memory for bytes, where a submission is to take its own.
    pub fn no_memory(&self) -> Buffer
        ensures { result ≡ no_memory }
    {
        Buffer::new(self.alloc)
    }

    /// Whether a transfer is accepted, where it is to join a line, or what it is refused for.
    pub(crate) fn admit(&self, h: Name, request: &Request) -> Result<Admission, Refused>
        requires { IsState self.now }
        ensures { (setup : Setup) (w : World) (c : Core) → Keeps setup self.now c → Shows setup w c → IsAdmission setup self.now c h request.now result }
    {
        let ep = request.ep;
        let Some(dev) = self.claims.device_of(h) else {
            return Err(Refused::NotFound);
        };
        if !h.is_its(self.claims.holder(dev, ep)) {
            return Err(Refused::NotFound);
        }
        if self.is_gone(dev) {
            return Err(Refused::NoDevice);
        }
        let Some(config) = self.claims.config(dev) else {
            unreachable!();
        };
        let tds = check(config, request)?;
        let free = MOST_PLACES.saturating_sub(self.callers.results(h, ep));
        if free <= self.flights.len(dev, ep) {
            return Err(Refused::Busy);
        }
        if self.callers.next_number(h) == LAST_NUMBER {
            return Err(Refused::Busy);
        }
        Ok(Admission { dev, tds })
    }

    /// A transfer joins a line, under the name's next number. Not made, with nothing changed, where memory is refused.
    pub(crate) fn start(
        &mut self,
        h: Name,
        admission: Admission,
        request: Request,
        round: u64,
        payload: P,
    ) -> Result<u64, MakeTransferError<P>>
        requires { CanStart self.old h admission.dev request admission.tds }
        ensures number { IfOk result (λ n. n ≡ number_of self.old.callers h) }
        ensures started { IfOk result (λ _. Starts self.old self.new h admission.dev request.ep request round) }
        ensures back { IfErr result (λ u. u ≡ record { request = request; payload = payload }) }
        ensures kept { OnErr result (self.new ≡ self.old) }
        ensures carries { IfOk result (λ n. CarriesMore h n payload self.old self.new) }
    {
        self.start_into(h, admission, request, round, payload, &mut self.no_memory())
    }

    /// The same; it reads into `memory`, where that has room for just its bytes.
    pub(crate) fn start_into(
        &mut self,
        h: Name,
        admission: Admission,
        request: Request,
        round: u64,
        payload: P,
        memory: &mut Buffer,
    ) -> Result<u64, MakeTransferError<P>>
        requires { CanStart self.old h admission.dev request admission.tds }
        ensures number { IfOk result (λ n. n ≡ number_of self.old.callers h) }
        ensures started { IfOk result (λ _. Starts self.old self.new h admission.dev request.ep request round) }
        ensures back { IfErr result (λ u. u ≡ record { request = request; payload = payload }) }
        ensures kept { OnErr result (self.new ≡ self.old) }
        ensures memory { OnOk result (memory.new ≡ memory_left request.body memory.old) }
        ensures room { OnErr result (memory.new ≡ record memory.old { items = memory.new.items }) }
        ensures carries { IfOk result (λ n. CarriesMore h n payload self.old self.new) }
    {
        let (dev, ep) = (admission.dev, request.ep);
        let n = self.callers.next_number(h);
        let held = memory.capacity();
        let transfer = Transfer::new(self.alloc, h, n, request, round, payload, memory)?;
        let key = match self.flights.push(dev, ep, transfer) {
            Ok(key) => key,
            Err(transfer) => return Err(unmade_of(transfer, held, memory)),
        };
        let trbs = admission.tds.trbs(key);
        self.controller.push(dev, ep, trbs.as_slice());
        self.callers.count_up(h);
        Ok(n)
    }
}
