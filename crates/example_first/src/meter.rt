//! The driver of docs/RATTLE.md.

use anyhow::Result;
use bitflags::Flags as _;
use std::sync::Wait;
use tirnouch::{
    Anyone, Body, Caller, Device, DeviceNo, Driver, EpAddr, Flags, Kind, Library, Name, Naming,
    Payload, Recorder, Request,
};

/// A meter that is read once.
#[derive(Drop)]
pub struct Meter<C> {
    /// The handle.
    pub h: Name,
    /// The device.
    pub dev: DeviceNo,
    /// The callback, which is told what came.
    pub told: C,
}

/// With each callback that may be kept with any handle's transfers: a closure, too.
impl<C: Payload<Whom = Anyone>> Driver<C> for Meter<C> {
    type Left = Result<u64>;

    /// Opens the meter, claims its interface 1, and reads 8 bytes from its interrupt endpoint: the transfer's number.
    fn drive<L: Naming, D: Device, J: Recorder, R: Wait>(
        self,
        rt: &R,
        library: &Library<L, C, D, J>,
        caller: &mut Caller<L>,
    ) -> Result<u64> {
        library.open(rt, caller, self.h, self.dev)?.granted()?;
        library.claim(rt, caller, self.h, 1)?.granted()?;
        let request = Request {
            ep: EpAddr::new(0x83),
            kind: Kind::Interrupt,
            flags: Flags::empty(),
            timeout: 0,
            body: Body::In(8),
        };
        let read = library.submit(rt, caller, self.h, request, self.told)?;
        Ok(read.number?)
    }
}
