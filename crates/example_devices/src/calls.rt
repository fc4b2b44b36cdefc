//! What drivers ask of the library first: calls that give a value or a refusal, where want of memory is a refusal too.

use crate::reader::Reader;
use std::alloc::AllocError;
use std::sync::Wait;
use usb_device::Device;
use usb_journal::{Naming, Recorder};
use usb_library::{Answered, Caller, Library, Payload};
use usb_model::{Name, Refused, Request};

/// No memory is a refusal as others are.
pub fn no_memory(_error: AllocError) -> Refused {
    Refused::NoMem
}

/// Why a call was refused.
fn granted<L: Naming>(answered: Result<Answered<L>, AllocError>) -> Result<(), Refused> {
    answered.map_err(no_memory)?.granted()?;
    Ok(())
}

/// Opens the reader's device.
fn open<L: Naming, P: Payload, D: Device, J: Recorder, R: Wait>(
    rt: &R,
    library: &Library<L, P, D, J>,
    caller: &mut Caller<L>,
    reader: &Reader,
) -> Result<(), Refused> {
    granted(library.open(rt, caller, reader.h, reader.dev))
}

/// Claims the reader's interface.
fn claim<L: Naming, P: Payload, D: Device, J: Recorder, R: Wait>(
    rt: &R,
    library: &Library<L, P, D, J>,
    caller: &mut Caller<L>,
    reader: &Reader,
) -> Result<(), Refused> {
    granted(library.claim(rt, caller, reader.h, reader.i))
}

/// Opens the reader's device, and claims its interface.
pub fn open_and_claim<L: Naming, P: Payload, D: Device, J: Recorder, R: Wait>(
    rt: &R,
    library: &Library<L, P, D, J>,
    caller: &mut Caller<L>,
    reader: &Reader,
) -> Result<(), Refused> {
    open(rt, library, caller, reader)?;
    claim(rt, library, caller, reader)
}

/// Submits a transfer of a handle: its number.
pub fn submit<L: Naming, P: Payload, D: Device, J: Recorder, R: Wait>(
    rt: &R,
    library: &Library<L, P, D, J>,
    caller: &mut Caller<L>,
    h: Name,
    request: Request,
    callback: P,
) -> Result<u64, Refused>
    requires suits { P.Whom.suits callback h }
{
    match library.submit(rt, caller, h, request, callback) {
        Ok(submitted) => submitted.number.map_err(|refused| refused.why),
        Err(_) => Err(Refused::NoMem),
    }
}
