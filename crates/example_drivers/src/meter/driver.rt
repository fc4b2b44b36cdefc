//! The meter's two threads: one reads, one tells the library the time.

use crate::meter::reading::{Reading, Readings};
use example_devices::{Reader, no_memory, open_and_claim, submit};
use std::sync::{Arc, Wait};
use std::thread;
use std::time::{Clock, Duration};
use tirnouch::{Caller, Device, Driver, Library, Moments, Naming, Past, Recorder, Refused};

/// How many bytes a reading has.
const BYTES: u32 = 8;

/// The timeouts of the readings, in milliseconds: three that the meter answers at once, and one that it doesn't answer.
const TIMEOUTS: [u32; 4] = [60_000, 60_000, 60_000, 20];

/// How many milliseconds pass from one telling of the time to the next.
const TICK: u64 = 1;

/// How often the time is told at most: two minutes.
const TICKS: u64 = 120_000;

/// A thread of the meter.
#[derive(Drop)]
pub enum Meter<K> {
    /// Reads.
    Reads(Reader),
    /// Tells the time by a clock, until all readings were called back.
    Ticks(K),
}

/// A driver of the meter, with the count that its callbacks keep.
#[derive(Drop)]
pub struct Part<K> {
    /// What it does.
    pub meter: Meter<K>,
    /// The readings.
    pub readings: Arc<Readings>,
}

/// Submits a reading with this timeout.
fn submit_one<L: Naming, D: Device, J: Recorder, R: Wait>(
    rt: &R,
    library: &Library<L, Reading, D, J>,
    caller: &mut Caller<L>,
    reader: &Reader,
    readings: &Arc<Readings>,
    timeout: u32,
) -> Result<(), Refused> {
    let reading = Reading::new(readings).map_err(no_memory)?;
    let request = reader.read(BYTES, timeout);
    submit(rt, library, caller, reader.h, request, reading)?;
    Ok(())
}

/// Opens the meter, claims its interface, and submits the readings.
fn read<L: Naming, D: Device, J: Recorder, R: Wait>(
    rt: &R,
    library: &Library<L, Reading, D, J>,
    caller: &mut Caller<L>,
    reader: &Reader,
    readings: &Arc<Readings>,
) -> Result<(), Refused> {
    open_and_claim(rt, library, caller, reader)?;
    for timeout in TIMEOUTS {
        submit_one(rt, library, caller, reader, readings, timeout)?;
    }
    Ok(())
}

/// Tells the library that so many milliseconds have passed.
fn tell<L: Naming, D: Device, J: Recorder, R: Wait>(
    rt: &R,
    library: &Library<L, Reading, D, J>,
    caller: &mut Caller<L>,
    past: &mut Past<L>,
    now: u64,
) -> Result<(), Refused> {
    match library.tick(rt, caller, past, now) {
        Ok(_) => Ok(()),
        Err(_) => Err(Refused::NoMem),
    }
}

/// How many milliseconds have passed. A clock that can't be read is taken as one that stands still.
fn passed<K: Clock>(moments: &Moments, clock: &K) -> u64 {
    moments.now(clock).unwrap_or(0)
}

/// Tells the time, a millisecond after the other.
fn tick<L: Naming, D: Device, J: Recorder, K: Clock, R: Wait>(
    rt: &R,
    library: &Library<L, Reading, D, J>,
    caller: &mut Caller<L>,
    clock: &K,
    readings: &Arc<Readings>,
) -> Result<(), Refused> {
    let Ok(moments) = Moments::start(clock) else {
        return Err(Refused::NotSupported);
    };
    let mut past = library.past(rt, caller);
    for _ in 0..TICKS {
        if readings.called() == TIMEOUTS.len() as u64 {
            break;
        }
        tell(rt, library, caller, &mut past, passed(&moments, clock))?;
        thread::sleep(clock, Duration::from_millis(TICK));
    }
    Ok(())
}

impl<K: Clock + Drop> Driver<Reading> for Part<K> {
    type Left = Result<(), Refused>;

    fn drive<L: Naming, D: Device, J: Recorder, R: Wait>(
        self,
        rt: &R,
        library: &Library<L, Reading, D, J>,
        caller: &mut Caller<L>,
    ) -> Result<(), Refused> {
        let Part { meter, readings } = self;
        match meter {
            Meter::Reads(reader) => read(rt, library, caller, &reader, &readings),
            Meter::Ticks(clock) => tick(rt, library, caller, &clock, &readings),
        }
    }
}
