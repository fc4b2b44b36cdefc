//! Reads by a thread that makes all five calls of each itself, so that it waits for no worker: one thread, or two.

ghost use Rattle.std.specs.Prelude.{◌≡◌};

use crate::board::Board;
use crate::life::opening;
use crate::signals::TURNS;
use anyhow::{Result, anyhow};
use example_devices::{Reader, open_and_claim};
use std::alloc::Global;
use std::marker::Brand;
use std::sync::Wait;
use std::thread;
use std::thread::Threads;
use std::time::{Clock, Duration, Instant};
use usb_core::Taken;
use usb_device::{Device, TableDevice};
use usb_journal::{Naming, Recorder, Unrecorded};
use usb_library::{Caller, Library, Opening};
use usb_model::{Refused, Returned, Step};

/// How many answers a device has before it is reset.
const ANSWERS: u64 = 4_096;

/// How many reads one of a pair makes.
const EACH: u64 = 100_000;

/// A number that depends on what a callback is given.
fn weight(returned: &Returned, payload: u64) -> u64 {
    let bytes = returned.bytes.as_slice();
    let last = match bytes.last() {
        Some(last) => u64::from(*last),
        None => 0,
    };
    let ending = u64::from(returned.actual) << 8 | returned.status as u64;
    payload
        ^ ending
        ^ last << 40
        ^ (bytes.len() as u64).wrapping_mul(3)
        ^ returned.n.wrapping_mul(5)
        ^ returned.round
        ^ u64::from(returned.ep.address())
        ^ u64::from(returned.h.number())
}

impl<R: Wait, L: Naming, D: Device, J: Recorder> Board<'_, R, L, u64, D, J> {
    /// The oldest event is handled, if there is one; the oldest result goes out, if one waits, and its callback ends.
    fn end_one(&mut self) -> Result<u64, Refused> {
        self.deliver()?;
        match self.take()? {
            Some(taken) => self.end(&taken),
            None => Ok(0),
        }
    }

    /// The callback of a result ends.
    fn end(&mut self, taken: &Taken<u64>) -> Result<u64, Refused> {
        self.stop(taken.returned.h, taken.returned.n)?;
        Ok(weight(&taken.returned, taken.payload))
    }

    /// A read of 8 bytes, from its submission to its end.
    fn read(&mut self, reader: &Reader, payload: u64) -> Result<u64, Refused> {
        self.submit(reader.h, reader.read(8, 0), payload)?;
        self.serve(reader.dev, reader.ep)?;
        self.end_one()
    }

    /// Resets the device, once what another thread took of it has ended.
    fn renew(&mut self, reader: &Reader) -> Result<u64, Refused> {
        let mut sum: u64 = 0;
        for _ in 0..TURNS {
            match self.make(Step::Reset { h: reader.h }) {
                Err(Refused::Busy) => sum = sum.wrapping_add(self.end_one()?),
                Err(why) => return Err(why),
                Ok(()) => return Ok(sum),
            }
        }
        Err(Refused::Busy)
    }

    /// So many reads.
    fn reads(&mut self, reader: &Reader, turns: u64) -> Result<u64, Refused> {
        let mut sum: u64 = 0;
        for turn in 0..turns {
            if turn > 0 && turn % ANSWERS == 0 {
                sum = sum.wrapping_add(self.renew(reader)?);
            }
            sum = sum.wrapping_add(self.read(reader, turn.saturating_add(1))?);
        }
        Ok(sum)
    }

    /// The same of a device that is opened, and its interface claimed.
    fn all(&mut self, reader: &Reader, turns: u64) -> Result<u64, Refused> {
        open_and_claim(self.rt, self.library, self.caller, reader)?;
        self.reads(reader, turns)
    }
}

/// A thread: name 1 reads from device 0, name 2 from device 1.
fn thread<R: Wait, L: Naming, J: Recorder>(
    rt: &R,
    library: &Library<L, u64, TableDevice, J>,
    caller: Caller<L>,
    h: u8,
    turns: u64,
) -> Result<u64> {
    let mut caller = caller;
    let reader = Reader::new(h, h.saturating_sub(1), 0)?;
    let mut board = Board::new(rt, library, &mut caller);
    Ok(board.all(&reader, turns)?)
}

/// One more caller.
fn caller_of<R: Wait, L: Naming, J: Recorder>(
    rt: &R,
    library: &Library<L, u64, TableDevice, J>,
) -> Result<Caller<L>> {
    match library.caller(rt) {
        Ok(caller) => Ok(caller),
        Err(_) => Err(anyhow!("no caller")),
    }
}

/// The reads of two threads: what came out.
fn both<R: Threads + Wait + Sync, L: Naming + Send + Sync, J: Recorder + Send>(
    rt: &R,
    library: &Library<L, u64, TableDevice, J>,
    turns: u64,
) -> Result<u64>
where
    J::Draft: Send,
{
    let one = caller_of(rt, library)?;
    let other = caller_of(rt, library)?;
    let (left, right) = thread::join(
        rt,
        move || thread(rt, library, one, 1, turns),
        move || thread(rt, library, other, 2, turns),
    );
    Ok(left?.wrapping_add(right?))
}

/// One thread's reads, or those of two: what came out, and how long they took.
fn timed<L: Naming + Send + Sync, J: Recorder + Send, K: Clock, R: Threads + Wait + Sync>(
    rt: &R,
    clock: &K,
    library: &Library<L, u64, TableDevice, J>,
    two: bool,
    turns: u64,
) -> Result<(u64, Duration)>
where
    J::Draft: Send,
{
    let start = Instant::now(clock)?;
    let sum = if two {
        both(rt, library, turns)?
    } else {
        thread(rt, library, caller_of(rt, library)?, 1, turns)?
    };
    Ok((sum, start.elapsed(clock)?))
}

/// The same by a library that is opened.
fn opened<L: Naming + Send + Sync, J: Recorder + Send, K: Clock, R: Threads + Wait + Sync>(
    rt: &R,
    alloc: Global,
    clock: &K,
    opening: Opening<TableDevice>,
    two: bool,
    turns: u64,
) -> Result<(u64, Duration)>
where
    J::Draft: Send,
    requires name { opening.name ≡ L.name }
    requires parts { (L.parts ≡ 1025) × (opening.parts ≡ L.parts) }
    requires table { opening.table ≡ L.table }
    requires setup { opening.setup ≡ L.setup }
{
    let library = Library::<L, u64, TableDevice, J>::new(alloc, opening)?;
    timed(rt, clock, &library, two, turns)
}

/// What comes out of so many reads, or of twice as many by two threads, and how long they take.
fn of_library<J: Recorder + Send, K: Clock, R: Threads + Wait + Sync>(
    rt: &R,
    alloc: Global,
    clock: &K,
    two: bool,
    turns: u64,
) -> Result<(u64, Duration)>
where
    J::Draft: Send,
{
    let sizes = vec![in alloc; 8_u16; ANSWERS as usize]?;
    let opening = opening(alloc, 2, sizes.as_slice())?;
    opened::<Brand, J, K, R>(rt, alloc, clock, opening, two, turns)
}

/// So many reads by one thread, by this word: the sum of what came out, and the nanoseconds.
pub fn many<J: Recorder + Send, K: Clock, R: Threads + Wait + Sync>(
    rt: &R,
    alloc: Global,
    clock: &K,
    word: &str,
    turns: u64,
) -> Result<String>
where
    J::Draft: Send,
{
    let (sum, took) = of_library::<J, K, R>(rt, alloc, clock, false, turns)?;
    let ns = took.as_nanos();
    Ok(format!(in alloc; "{word}: {turns} reads, sum {sum}, {ns} ns")?)
}

/// One thread and two: the nanoseconds of a transfer, of all that they make together.
pub fn pair<K: Clock, R: Threads + Wait + Sync>(
    rt: &R,
    alloc: Global,
    clock: &K,
) -> Result<String> {
    let (_, one) = of_library::<Unrecorded, K, R>(rt, alloc, clock, false, EACH)?;
    let (_, two) = of_library::<Unrecorded, K, R>(rt, alloc, clock, true, EACH)?;
    let (one, two) = (one.as_nanos() / 100_000, two.as_nanos() / 200_000);
    Ok(format!(in alloc; "pair: {one} ns by one thread, {two} ns by two")?)
}
