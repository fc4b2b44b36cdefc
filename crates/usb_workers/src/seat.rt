//! A driver on its way into a thread, and back.

ghost use Rattle.std.specs.Prelude.{◌≡◌, [], All, IfOk, map};

use crate::driver::Driver;
use std::alloc::{AllocError, Global};
use std::sync::Wait;
use usb_device::Device;
use usb_journal::{Naming, Recorder};
use usb_library::{Caller, Library, Payload};

/// A driver, with the caller of its calls.
#[derive(Drop)]
pub(crate) struct Seat<L: Naming, T> {
    pub(crate) caller: Caller<L>,
    pub(crate) driver: T,
}

/// What comes back of it.
#[derive(Drop)]
pub(crate) struct Home<L: Naming, X> {
    pub(crate) caller: Caller<L>,
    pub(crate) left: X,
}

/// One more caller, which has no places yet. An error where the library has as many as it may.
pub(crate) fn caller_of<L: Naming, C: Payload, D: Device, J: Recorder, R: Wait>(
    rt: &R,
    library: &Library<L, C, D, J>,
) -> Result<Caller<L>, AllocError>
    ensures { IfOk result (λ c. c.own ≡ []) }
{
    match library.caller(rt) {
        Ok(caller) => Ok(caller),
        Err(_) => Err(AllocError),
    }
}

/// A caller for each driver, in order. An error where memory is refused, or there are too many.
pub(crate) fn seated<L: Naming, C: Payload, D: Device, J: Recorder, T: Drop, R: Wait>(
    rt: &R,
    alloc: Global,
    library: &Library<L, C, D, J>,
    drivers: Vec<T>,
) -> Result<Vec<Seat<L, T>>, AllocError>
    ensures drivers { IfOk result (λ seats. map (λ s. s.driver) seats.items ≡ drivers.items) }
    ensures callers { IfOk result (λ seats. All (λ s. s.caller.own ≡ []) seats.items) }
{
    let mut seats = Vec::with_capacity(alloc, drivers.len())?;
    for driver in drivers {
        let caller = caller_of(rt, library)?;
        seats.push(Seat { caller, driver })?;
    }
    Ok(seats)
}

/// A driver makes its calls.
pub(crate) fn drive<L: Naming, C: Payload, D: Device, J: Recorder, T: Driver<C>, R: Wait>(
    rt: &R,
    library: &Library<L, C, D, J>,
    seat: Seat<L, T>,
) -> Home<L, T::Left>
    ensures { T.makes seat.driver L.setup seat.caller result.caller result.left }
{
    let Seat { mut caller, driver } = seat;
    let left = driver.drive(rt, library, &mut caller);
    Home { caller, left }
}
