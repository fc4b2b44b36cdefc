//! Devices of two kinds: one that answers by a table, and one that counts what it answers.

ghost use Rattle.std.specs.Prelude.{◌≡◌, IfOk};

use std::alloc::{AllocError, Global};
use std::sync::Arc;
use std::sync::atomic::{AtomicU64, Ordering};
use usb_device::{Act, Device, TableDevice};
use usb_model::{Buffer, EpAddr};

/// A device that counts its answers. It appends none itself: `answer` puts each packet into zeros behind the bytes.
#[derive(Drop)]
pub struct Counter {
    device: TableDevice,
    answers: Arc<AtomicU64>,
}

impl Counter {
    /// A device that answers as this one does, and counts its answers there.
    pub fn new(device: TableDevice, answers: Arc<AtomicU64>) -> Counter
        ensures { ⟦<Counter as Device>⟧.pipes result ≡ device }
    {
        Counter { device, answers }
    }

    /// How often it answered.
    pub fn answers(&self) -> u64 {
        self.answers.load(Ordering::SeqCst)
    }
}

impl Device for Counter {
    ghost pipes = { λ c. c.device };

    fn answer(&mut self, ep: EpAddr, out: Option<&[u8]>, buf: &mut [u8]) -> Act {
        self.answers.fetch_add(1, Ordering::SeqCst);
        self.device.answer(ep, out, buf)
    }

    fn ready(&self, ep: EpAddr) -> bool {
        self.device.ready(ep)
    }

    fn taken(&self, ep: EpAddr, i: usize) -> Option<&[u8]> {
        self.device.taken(ep, i)
    }

    fn rewind(&mut self, ep: EpAddr) {
        self.device.rewind(ep);
    }

    fn clear_halt(&mut self, ep: EpAddr) {
        self.device.clear_halt(ep);
    }
}

/// A device of either kind.
#[derive(Drop)]
pub enum EitherDevice {
    /// It answers by a table.
    Scripted(TableDevice),
    /// It counts what it answers.
    Counting(Counter),
}

impl EitherDevice {
    /// One that answers as this does. It counts its answers, if it is to.
    pub fn new(alloc: Global, device: TableDevice, counts: bool) -> Result<EitherDevice, AllocError>
        ensures { IfOk result (λ d. ⟦<EitherDevice as Device>⟧.pipes d ≡ device) }
    {
        if !counts {
            return Ok(EitherDevice::Scripted(device));
        }
        let answers = Arc::new(alloc, AtomicU64::new(0))?;
        Ok(EitherDevice::Counting(Counter::new(device, answers)))
    }
}

impl Device for EitherDevice {
    ghost use Rattle.check_parts.specs.declared.both.kinds.EitherDevice.TheVariants.{Counting, Scripted};

    ghost pipes = { elim [ Scripted d ↦ d | Counting c ↦ c.device ] };

    fn answer(&mut self, ep: EpAddr, out: Option<&[u8]>, buf: &mut [u8]) -> Act {
        match self {
            EitherDevice::Scripted(device) => device.answer(ep, out, buf),
            EitherDevice::Counting(counter) => counter.answer(ep, out, buf),
        }
    }

    fn answer_in(&mut self, ep: EpAddr, room: usize, bytes: &mut Buffer) -> Act {
        match self {
            EitherDevice::Scripted(device) => device.answer_in(ep, room, bytes),
            EitherDevice::Counting(counter) => counter.answer_in(ep, room, bytes),
        }
    }

    fn ready(&self, ep: EpAddr) -> bool {
        match self {
            EitherDevice::Scripted(device) => device.ready(ep),
            EitherDevice::Counting(counter) => counter.ready(ep),
        }
    }

    fn taken(&self, ep: EpAddr, i: usize) -> Option<&[u8]> {
        match self {
            EitherDevice::Scripted(device) => device.taken(ep, i),
            EitherDevice::Counting(counter) => counter.taken(ep, i),
        }
    }

    fn rewind(&mut self, ep: EpAddr) {
        match self {
            EitherDevice::Scripted(device) => device.rewind(ep),
            EitherDevice::Counting(counter) => counter.rewind(ep),
        }
    }

    fn clear_halt(&mut self, ep: EpAddr) {
        match self {
            EitherDevice::Scripted(device) => device.clear_halt(ep),
            EitherDevice::Counting(counter) => counter.clear_halt(ep),
        }
    }
}
