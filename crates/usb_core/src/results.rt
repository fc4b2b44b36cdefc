//! The oldest result goes out to its callback (libusb 1.0, `libusb_transfer_cb_fn`).

ghost use Rattle.std.specs.Prelude.{◌≡◌, IfOk, OnErr, option_map, slice_get};
ghost use Rattle.usb_model.specs.declared.step.Step.TheVariants.{Take};
ghost use Rattle.usb_tables.specs.TransfersInFlight.{ended_of};
ghost use Rattle.refine_core.specs.Calls.{Stays, called_entry, returned_of};
ghost use Rattle.refine_core.specs.Payloads.{Carries, Kept, StillCarries};
ghost use Rattle.refine_core.specs.State.{IsState, result_of};
ghost use Rattle.refine_core.specs.Steps.{DoesCoreStep};
ghost use Rattle.usb_core.specs.Results.{CarriesOut, TakesDone};

use crate::due::Due;
use crate::parts::Parts;
use std::alloc::AllocError;
use usb_device::Device;
use usb_model::{BytesRead, EpAddr, InCallback, Name, Returned};
use usb_tables::{EndedTransfer, Transfer};

/// A transfer that ended, as it goes out to its callback.
#[derive(Drop)]
pub struct Taken<P> {
    /// What the callback is told.
    pub returned: Due,
    /// What the caller kept with it.
    pub payload: P,
}

impl<P, D: Device> Parts<P, D> {
    /// The transfer that ended first of those that wait goes out to its callback, with the bytes that it read and with what
    /// was kept with it from its submission on; None where none waits. Nothing changes where memory is refused.
    pub fn take(&mut self) -> Result<Option<Taken<P>>, AllocError>
        requires { IsState self.old }
        ensures taken { IfOk result (λ x. DoesCoreStep self.old Take (called_entry (option_map (λ t. t.returned) x)) self.new) }
        ensures payload { IfOk result (λ x. option_map (λ t. t.payload) x ≡ option_map (λ y. y.transfer.payload) (slice_get self.old.flights.ended 0)) }
        ensures refused { OnErr result (Stays self.old self.new) }
        ensures carries { IfOk result (λ x. (kept : Kept P) → Carries kept self.old → CarriesOut kept x × Carries kept self.new) }
        ensures still { OnErr result (StillCarries self.old self.new) }
    {
        let Some((first, _)) = self.flights.first_ended() else {
            return Ok(None);
        };
        let name = first.name;
        self.callers.reserve_callback(name)?;
        let Some(EndedTransfer { transfer, ending }) = self.flights.take() else {
            unreachable!();
        };
        let Transfer {
            n,
            round,
            request,
            bytes,
            payload,
            ..
        } = transfer;
        let (ep, status) = (request.ep, ending.status);
        self.callers.result_taken(name, ep);
        let x = InCallback {
            n,
            request,
            round,
            status,
        };
        self.callers.put_callback(name, x);
        let due = Due::new(Returned {
            h: name,
            n,
            ep,
            round,
            status,
            actual: ending.actual,
            bytes: BytesRead::from_buffer(bytes),
        });
        Ok(Some(Taken {
            returned: due,
            payload,
        }))
    }

    /// The same, and the callback ends at once, as `stop` ends it. Where none waits nothing changes. Takes no memory.
    pub fn take_done(&mut self) -> Option<Taken<P>>
        requires { IsState self.old }
        ensures taken { TakesDone self.old result self.new }
        ensures payload { option_map (λ t. t.payload) result ≡ option_map (λ y. y.transfer.payload) (slice_get self.old.flights.ended 0) }
        ensures carries { (kept : Kept P) → Carries kept self.old → CarriesOut kept result × Carries kept self.new }
    {
        let Some(ended) = self.flights.take() else {
            return None;
        };
        let (name, ep) = whose(&ended);
        self.callers.result_taken(name, ep);
        Some(taken_of(ended))
    }
}

/// Whose a transfer that ended is, and its endpoint.
fn whose<P>(ended: &EndedTransfer<P>) -> (Name, EpAddr)
    ensures name { result.0 ≡ ended.now.transfer.name }
    ensures ep { result.1 ≡ ended.now.transfer.request.ep }
{
    (ended.transfer.name, ended.transfer.request.ep)
}

/// What goes out of a transfer that ended.
fn taken_of<P>(ended: EndedTransfer<P>) -> Taken<P>
    ensures returned { result.returned ≡ returned_of (result_of (ended_of ended)) }
    ensures payload { result.payload ≡ ended.transfer.payload }
{
    let EndedTransfer { transfer, ending } = ended;
    let Transfer {
        name,
        n,
        round,
        request,
        bytes,
        payload,
        ..
    } = transfer;
    let due = Due::new(Returned {
        h: name,
        n,
        ep: request.ep,
        round,
        status: ending.status,
        actual: ending.actual,
        bytes: BytesRead::from_buffer(bytes),
    });
    Taken {
        returned: due,
        payload,
    }
}
