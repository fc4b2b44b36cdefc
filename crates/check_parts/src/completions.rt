//! Transfers that a core completes: nobody else makes what is due to a callback.
//!
//! Each method makes one call of the core and has no contract, so that whoever makes calls in a row doesn't have the promises of all of
//! them before it.

use anyhow::{Result, anyhow};
use example_devices::{Reader, devices};
use std::alloc::Global;
use usb_core::{Core, Due};
use usb_device::TableDevice;
use usb_model::{Refused, Step};

/// How many bytes each read asks for, and the device sends.
const BYTES: u16 = 8;

/// A core whose transfers keep nothing, and the handle that reads from its device.
#[derive(Drop)]
struct Bench {
    core: Core<(), TableDevice>,
    reader: Reader,
}

/// What is due to a callback whose transfer completed and was submitted so often before, three times at most. It has that number.
pub fn completed(alloc: Global, round: u64) -> Result<Due> {
    let mut bench = Bench::new(alloc)?;
    bench.due(round)
}

impl Bench {
    /// A device with a packet for each round, which nobody has opened.
    fn new(alloc: Global) -> Result<Bench> {
        let reader = Reader::new(0, 0, 0)?;
        Ok(Bench {
            core: Core::new(alloc, devices(alloc, 1, BYTES, &[BYTES; 4])?)?,
            reader,
        })
    }

    /// What is due of a read that was submitted so often before.
    fn due(&mut self, round: u64) -> Result<Due> {
        self.begin()?;
        for _ in 0..round {
            self.pass()?;
        }
        self.next()
    }

    /// A round, behind which the read is submitted once more.
    fn pass(&mut self) -> Result<()> {
        let n = self.next()?.n;
        self.again(n)?;
        Ok(())
    }

    /// A read is submitted by the handle that has the device's interface.
    fn begin(&mut self) -> Result<(), Refused> {
        self.open();
        self.claim();
        self.submit()
    }

    /// The device answers a packet, and the result goes out.
    fn next(&mut self) -> Result<Due> {
        self.serve();
        self.deliver();
        self.take()
    }

    /// The handle opens the device.
    fn open(&mut self) {
        let Reader { h, dev, .. } = self.reader;
        let _opened = self.core.call(Step::Open { h, dev });
    }

    /// It claims the interface.
    fn claim(&mut self) {
        let Reader { h, i, .. } = self.reader;
        let _claimed = self.core.call(Step::Claim { h, i });
    }

    /// It submits a read.
    fn submit(&mut self) -> Result<(), Refused> {
        let request = self.reader.read(u32::from(BYTES), 0);
        match self.core.submit(self.reader.h, request, ()) {
            Ok(_) => Ok(()),
            Err(unaccepted) => Err(unaccepted.why),
        }
    }

    /// The device answers a packet.
    fn serve(&mut self) {
        let _served = self.core.serve(self.reader.dev, self.reader.ep);
    }

    /// The oldest event is handled.
    fn deliver(&mut self) {
        let _handled = self.core.deliver();
    }

    /// The oldest result goes out.
    fn take(&mut self) -> Result<Due> {
        match self.core.take() {
            Ok(Some(taken)) => Ok(taken.returned),
            _ => Err(anyhow!("no result waits")),
        }
    }

    /// The read of a callback is submitted once more.
    fn again(&mut self, n: u64) -> Result<(), Refused> {
        match self.core.again(self.reader.h, n, ()) {
            Ok(_) => Ok(()),
            Err(unaccepted) => Err(unaccepted.why),
        }
    }
}
