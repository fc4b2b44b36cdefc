//! The scanner's driver.

use crate::scanner::strip::{Strip, Tally};
use example_devices::{Reader, no_memory, open_and_claim, submit};
use std::sync::{Arc, Wait};
use std::thread;
use tirnouch::{Caller, Device, Driver, Library, Naming, Recorder, Refused};

/// How many bytes a transfer reads.
const STRIP: u32 = 65_536;

/// How many transfers are in line, so that the scanner never waits for the host.
pub const IN_LINE: u64 = 4;

/// How often a thread looks whether something was done, before it gives up.
const TURNS: u64 = 100_000_000;

/// A driver that scans until a moment comes.
#[derive(Drop)]
pub struct Scanner {
    /// Its handle and endpoint.
    pub reader: Reader,
    /// What came so far.
    pub tally: Arc<Tally>,
    /// How often it gives way to other threads before it has enough.
    pub moment: u64,
}

impl Scanner {
    /// Submits a transfer, which goes round from its callback on.
    fn submit<L: Naming, D: Device, J: Recorder, R: Wait>(
        &self,
        rt: &R,
        library: &Library<L, Strip, D, J>,
        caller: &mut Caller<L>,
    ) -> Result<(), Refused> {
        let strip = Strip::new(&self.tally).map_err(no_memory)?;
        let request = self.reader.read(STRIP, 0);
        submit(rt, library, caller, self.reader.h, request, strip)?;
        Ok(())
    }

    /// Opens the device, claims its interface, and submits the transfers that go round.
    fn start<L: Naming, D: Device, J: Recorder, R: Wait>(
        &self,
        rt: &R,
        library: &Library<L, Strip, D, J>,
        caller: &mut Caller<L>,
    ) -> Result<(), Refused> {
        open_and_claim(rt, library, caller, &self.reader)?;
        for _ in 0..IN_LINE {
            self.submit(rt, library, caller)?;
        }
        Ok(())
    }

    /// Asks a transfer to end. One that has ended already isn't found, which is as good.
    fn cancel<L: Naming, D: Device, J: Recorder, R: Wait>(
        &self,
        rt: &R,
        library: &Library<L, Strip, D, J>,
        caller: &mut Caller<L>,
        n: u64,
    ) -> Result<(), Refused> {
        match library.cancel(rt, caller, self.reader.h, n) {
            Ok(_) => Ok(()),
            Err(_) => Err(Refused::NoMem),
        }
    }

    /// Asks each transfer to end that may be in progress, until all were called back: how many weren't in time.
    fn end<L: Naming, D: Device, J: Recorder, R: Wait>(
        &self,
        rt: &R,
        library: &Library<L, Strip, D, J>,
        caller: &mut Caller<L>,
    ) -> Result<u64, Refused> {
        self.tally.stop();
        let mut missing = IN_LINE;
        for _ in 0..TURNS {
            let (called, numbered) = self.tally.callbacks();
            missing = numbered.saturating_sub(called);
            if missing == 0 {
                break;
            }
            for n in called..numbered {
                self.cancel(rt, library, caller, n)?;
            }
            thread::yield_now();
        }
        Ok(missing)
    }
}

impl Driver<Strip> for Scanner {
    type Left = Result<u64, Refused>;

    /// Scans, and tells how many transfers weren't called back.
    fn drive<L: Naming, D: Device, J: Recorder, R: Wait>(
        self,
        rt: &R,
        library: &Library<L, Strip, D, J>,
        caller: &mut Caller<L>,
    ) -> Result<u64, Refused> {
        self.start(rt, library, caller)?;
        for _ in 0..self.moment {
            thread::yield_now();
        }
        self.end(rt, library, caller)
    }
}
