//! A thread of the bench.

use crate::bench::report::{Report, Tally};
use example_devices::{Reader, no_memory, open_and_claim, submit};
use std::sync::{Arc, Wait};
use std::thread;
use tirnouch::{Caller, Device, Driver, Library, Naming, Recorder, Refused};

/// How many transfers a thread submits.
const TRANSFERS: u64 = 40;

/// How many bytes each reads.
const BYTES: u32 = 8;

/// How often a thread looks whether something was done, before it gives up.
const TURNS: u64 = 100_000_000;

/// What a thread does beside its transfers.
#[derive(Clone, Copy, PartialEq, Eq)]
pub enum Role {
    /// Opens the device and claims the interface, before the other thread of its handle begins.
    Opens,
    /// Waits for that.
    Follows,
    /// Waits for that, and takes the device away halfway through.
    Unplugs,
}

/// A thread of the bench. Two share a handle.
#[derive(Drop)]
pub struct Tester {
    /// The handle and its endpoint.
    pub reader: Reader,
    /// What the thread does beside.
    pub role: Role,
    /// What came of the handle's transfers.
    pub tally: Arc<Tally>,
}

impl Tester {
    /// Waits until the handle has its device and interface.
    fn wait(&self) -> Result<(), Refused> {
        for _ in 0..TURNS {
            if self.tally.is_ready() {
                return Ok(());
            }
            thread::yield_now();
        }
        Err(Refused::Busy)
    }

    /// Opens and claims, or waits until that is done.
    fn start<L: Naming, D: Device, J: Recorder, R: Wait>(
        &self,
        rt: &R,
        library: &Library<L, Report, D, J>,
        caller: &mut Caller<L>,
    ) -> Result<(), Refused> {
        if self.role != Role::Opens {
            return self.wait();
        }
        open_and_claim(rt, library, caller, &self.reader)?;
        self.tally.set_ready();
        Ok(())
    }

    /// Submits a transfer.
    fn submit_one<L: Naming, D: Device, J: Recorder, R: Wait>(
        &self,
        rt: &R,
        library: &Library<L, Report, D, J>,
        caller: &mut Caller<L>,
    ) -> Result<u64, Refused> {
        let report = Report::new(&self.tally).map_err(no_memory)?;
        let request = self.reader.read(BYTES, 0);
        submit(rt, library, caller, self.reader.h, request, report)
    }

    /// Submits a transfer, once the endpoint has a place: whether the device is still there.
    fn submit<L: Naming, D: Device, J: Recorder, R: Wait>(
        &self,
        rt: &R,
        library: &Library<L, Report, D, J>,
        caller: &mut Caller<L>,
    ) -> Result<bool, Refused> {
        for _ in 0..TURNS {
            match self.submit_one(rt, library, caller) {
                Ok(_) => return Ok(true),
                Err(Refused::Busy) => thread::yield_now(),
                Err(Refused::NoDevice) => return Ok(false),
                Err(why) => return Err(why),
            }
        }
        Err(Refused::Busy)
    }

    /// Takes the device away.
    fn unplug<L: Naming, D: Device, J: Recorder, R: Wait>(
        &self,
        rt: &R,
        library: &Library<L, Report, D, J>,
        caller: &mut Caller<L>,
    ) -> Result<(), Refused> {
        match library.unplug(rt, caller, self.reader.dev) {
            Ok(_) => Ok(()),
            Err(_) => Err(Refused::NoMem),
        }
    }
}

impl Driver<Report> for Tester {
    type Left = Result<u64, Refused>;

    /// Submits its transfers while the device is there: how many were accepted.
    fn drive<L: Naming, D: Device, J: Recorder, R: Wait>(
        self,
        rt: &R,
        library: &Library<L, Report, D, J>,
        caller: &mut Caller<L>,
    ) -> Result<u64, Refused> {
        self.start(rt, library, caller)?;
        for accepted in 0..TRANSFERS {
            if self.role == Role::Unplugs && accepted == TRANSFERS / 2 {
                self.unplug(rt, library, caller)?;
            }
            if !self.submit(rt, library, caller)? {
                return Ok(accepted);
            }
        }
        Ok(TRANSFERS)
    }
}
