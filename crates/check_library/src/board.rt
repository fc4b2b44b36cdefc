//! A library and one of its callers. Each method makes one call, and gives a value or a refusal.
//!
//! None has a contract: whoever makes calls in a row has no promises of the library before it, which would make each further call
//! dear to prove. Its calls are kept out of line, so that a profile tells them apart.

ghost use Rattle.std.specs.Prelude.{◌≡◌, []};

use crossbeam_utils::sync::Unparker;
use example_devices::no_memory;
use std::alloc::AllocError;
use std::sync::Wait;
use usb_core::Taken;
use usb_device::Device;
use usb_journal::{Naming, Past, RecordError, Recorder, Row};
use usb_library::{Answered, Caller, Library, Payload, Submitted};
use usb_model::{Bytes, DeviceNo, EpAddr, Name, Refused, Request, Step};
use usb_workers::make;

/// A library, one of its callers, and the handle by which the lock is taken.
#[derive(Drop)]
pub struct Board<'a, R, L: Naming, P: Payload, D: Device, J: Recorder> {
    pub rt: &'a R,
    pub library: &'a Library<L, P, D, J>,
    pub caller: &'a mut Caller<L>,
    /// What was seen of the journal, which looks and rows have to begin with.
    past: Past<L>,
}

/// Whether a call was granted. No memory is a refusal as others are.
fn granted<L: Naming>(answered: Result<Answered<L>, AllocError>) -> Result<(), Refused> {
    answered.map_err(no_memory)?.granted()?;
    Ok(())
}

/// The number of a transfer that was submitted, or why it was refused.
fn number<L: Naming, G: Drop, P: Drop>(
    submitted: Result<Submitted<L, G, P>, RecordError<G, P>>,
) -> Result<u64, Refused> {
    match submitted {
        Ok(submitted) => submitted.number.map_err(|refused| refused.why),
        Err(_) => Err(Refused::NoMem),
    }
}

impl<'a, R: Wait, L: Naming, P: Payload, D: Device, J: Recorder> Board<'a, R, L, P, D, J> {
    /// A caller at a library.
    pub fn new(
        rt: &'a R,
        library: &'a Library<L, P, D, J>,
        caller: &'a mut Caller<L>,
    ) -> Board<'a, R, L, P, D, J> {
        let past = library.past(rt, caller);
        Board {
            rt,
            library,
            caller,
            past,
        }
    }

    /// Makes a step of a handle's that submits nothing.
    pub fn make(&mut self, step: Step) -> Result<(), Refused> {
        match make(self.rt, self.library, self.caller, step) {
            Ok(Some(answered)) => granted(Ok(answered)),
            _ => Err(Refused::NoMem),
        }
    }

    /// Submits a transfer: its number.
    #[inline(never)]
    pub fn submit(&mut self, h: Name, request: Request, payload: P) -> Result<u64, Refused>
        requires suits { P.Whom.suits payload h }
    {
        number(
            self.library
                .submit(self.rt, self.caller, h, request, payload),
        )
    }

    /// Submits the transfer of a callback once more: its new number.
    pub fn again(&mut self, h: Name, n: u64, payload: P) -> Result<u64, Refused>
        requires suits { P.Whom.suits payload h }
    {
        number(self.library.again(self.rt, self.caller, h, n, payload))
    }

    /// The same with other bytes.
    pub fn again_with(&mut self, h: Name, n: u64, bytes: Bytes, payload: P) -> Result<u64, Refused>
        requires suits { P.Whom.suits payload h }
    {
        number(
            self.library
                .again_with(self.rt, self.caller, h, n, bytes, payload),
        )
    }

    /// The device answers one packet.
    #[inline(never)]
    pub fn serve(&mut self, dev: DeviceNo, ep: EpAddr) -> Result<(), Refused> {
        granted(self.library.serve(self.rt, self.caller, dev, ep))
    }

    /// The controller carries out an order.
    pub fn command(&mut self) -> Result<(), Refused> {
        granted(self.library.command(self.rt, self.caller))
    }

    /// The oldest event is handled.
    #[inline(never)]
    pub fn deliver(&mut self) -> Result<(), Refused> {
        granted(self.library.deliver(self.rt, self.caller))
    }

    /// The oldest result goes out, if one waits.
    #[inline(never)]
    pub fn take(&mut self) -> Result<Option<Taken<P>>, Refused> {
        match self.library.take(self.rt, self.caller) {
            Ok((_receipt, taken)) => Ok(taken),
            Err(_) => Err(Refused::NoMem),
        }
    }

    /// The callback of a transfer ends.
    #[inline(never)]
    pub fn stop(&mut self, h: Name, n: u64) -> Result<(), Refused> {
        granted(self.library.stop(self.rt, self.caller, h, n))
    }

    /// The device is gone.
    pub fn unplug(&mut self, dev: DeviceNo) -> Result<(), Refused> {
        granted(self.library.unplug(self.rt, self.caller, dev))
    }

    /// It is so many milliseconds after the beginning.
    pub fn tick(&mut self, now: u64) -> Result<(), Refused> {
        match self.library.tick(self.rt, self.caller, &mut self.past, now) {
            Ok(_) => Ok(()),
            Err(_) => Err(Refused::NoMem),
        }
    }

    /// The device answers packets in a row, at most so many.
    pub fn serve_all(&mut self, dev: DeviceNo, ep: EpAddr, most: u32) -> Result<Row, Refused> {
        let row = self.library.serve_all(self.rt, self.caller, dev, ep, most);
        row.map_err(no_memory)
    }

    /// Events are handled in a row, at most so many.
    pub fn deliver_all(&mut self, most: u32) -> Result<Row, Refused> {
        let row = self
            .library
            .deliver_all(self.rt, self.caller, &mut self.past, most);
        row.map_err(no_memory)
    }

    /// Results go out in a row, at most so many, into a list that is empty.
    pub fn take_all(&mut self, most: u32, taken: &mut Vec<Taken<P>>) -> Result<Row, Refused>
        requires { taken.old.items ≡ [] }
    {
        match self
            .library
            .take_all(self.rt, self.caller, &mut self.past, most, taken)
        {
            Ok(outgoing) => Ok(outgoing.row),
            Err(_) => Err(Refused::NoMem),
        }
    }

    /// A thread is woken by changes from here on.
    pub fn watch(&self, unparker: Unparker) -> Result<(), AllocError> {
        self.library.watch(self.rt, unparker)
    }

    /// Whether there is something to serve.
    pub fn has_packet(&mut self) -> bool {
        let pending = self.library.pending(self.rt, self.caller, &mut self.past);
        pending.serve.is_some()
    }
}
