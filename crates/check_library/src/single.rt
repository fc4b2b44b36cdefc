//! The one caller of a library, and the calls that it makes.

use crate::board::Board;
use crate::call::Call;
use anyhow::{Result, anyhow};
use example_devices::Reader;
use std::alloc::{AllocError, Global};
use std::result;
use std::sync::Wait;
use usb_core::Taken;
use usb_device::TableDevice;
use usb_journal::{Journal, Naming, Row};
use usb_model::{Bytes, EpAddr, Refused, Request};

/// What is kept with the first transfer; with each that is accepted behind it, one more.
const PAYLOAD: u64 = 77;

/// For how many rows and payloads there is room from the beginning.
const ROOM: usize = 64;

/// So often a call is made where memory is refused.
const TRIES: u32 = 3;

/// The board of a scene with one caller.
pub type One<'a, R, L> = Board<'a, R, L, u64, TableDevice, Journal>;

/// What the calls of a scene left with their caller.
#[derive(Drop)]
pub struct Single {
    alloc: Global,
    reader: Reader,
    payload: u64,
    /// The steps in a row that each call for such made.
    pub rows: Vec<Row>,
    /// What was kept with the results that went out.
    pub kept: Vec<u64>,
}

/// Bytes to be sent.
fn bytes(alloc: Global, text: &[u8]) -> result::Result<Bytes, AllocError> {
    Ok(Bytes::from_vec(Vec::from_slice(alloc, text)?))
}

impl Single {
    /// Nothing was called.
    pub fn new(alloc: Global) -> Result<Single> {
        Ok(Single {
            alloc,
            reader: Reader::new(1, 0, 0)?,
            payload: PAYLOAD,
            rows: Vec::with_capacity(alloc, ROOM)?,
            kept: Vec::with_capacity(alloc, ROOM)?,
        })
    }

    /// A transfer was accepted, or refused.
    fn count(&mut self, number: result::Result<u64, Refused>) -> result::Result<(), Refused> {
        number?;
        self.payload = self.payload.wrapping_add(1);
        Ok(())
    }

    /// A result went out, if there was one.
    fn keep(&mut self, taken: Option<Taken<u64>>) -> result::Result<(), Refused> {
        if let Some(taken) = taken {
            self.kept.push(taken.payload).map_err(|_| Refused::NoMem)?;
        }
        Ok(())
    }

    /// The transfer that a call submits.
    fn request(&self, call: Call) -> result::Result<Request, AllocError> {
        match call {
            Call::Read(bytes, timeout) => Ok(self.reader.read(bytes, timeout)),
            _ => Ok(self.reader.write(bytes(self.alloc, b"abc")?)),
        }
    }

    /// Submits a transfer.
    fn submit<L: Naming, R: Wait>(
        &mut self,
        board: &mut One<'_, R, L>,
        call: Call,
    ) -> result::Result<(), Refused> {
        let request = self.request(call).map_err(|_| Refused::NoMem)?;
        let number = board.submit(self.reader.h, request, self.payload);
        self.count(number)
    }

    /// Submits the transfer of a callback once more, with another byte to be sent.
    fn again_with<L: Naming, R: Wait>(
        &mut self,
        board: &mut One<'_, R, L>,
        n: u64,
    ) -> result::Result<(), Refused> {
        let bytes = bytes(self.alloc, b"z").map_err(|_| Refused::NoMem)?;
        let number = board.again_with(self.reader.h, n, bytes, self.payload);
        self.count(number)
    }

    /// Results go out in a row.
    fn take_all<L: Naming, R: Wait>(
        &mut self,
        board: &mut One<'_, R, L>,
        most: u32,
    ) -> result::Result<Row, Refused> {
        let mut taken = Vec::new(self.alloc);
        let row = board.take_all(most, &mut taken)?;
        for each in taken {
            self.keep(Some(each))?;
        }
        Ok(row)
    }

    /// Makes a call for steps in a row.
    fn row<L: Naming, R: Wait>(
        &mut self,
        board: &mut One<'_, R, L>,
        call: Call,
    ) -> result::Result<(), Refused> {
        let Reader { dev, ep, .. } = self.reader;
        let row = match call {
            Call::ServeAll(most) => board.serve_all(dev, ep, most)?,
            Call::DeliverAll(most) => board.deliver_all(most)?,
            Call::TakeAll(most) => self.take_all(board, most)?,
            _ => return Err(Refused::NotSupported),
        };
        self.rows.push(row).map_err(|_| Refused::NoMem)
    }

    /// Makes a call.
    fn call<L: Naming, R: Wait>(
        &mut self,
        board: &mut One<'_, R, L>,
        call: Call,
    ) -> result::Result<(), Refused> {
        let Reader { h, dev, .. } = self.reader;
        match call {
            Call::Ask(ask) => board.make(ask.step(&self.reader)),
            Call::Read(..) | Call::Write => self.submit(board, call),
            Call::Again(n) => {
                let number = board.again(h, n, self.payload);
                self.count(number)
            }
            Call::AgainWith(n) => self.again_with(board, n),
            Call::Serve(ep) => board.serve(dev, EpAddr::new(ep)),
            Call::Command => board.command(),
            Call::Deliver => board.deliver(),
            Call::Take => {
                let taken = board.take()?;
                self.keep(taken)
            }
            Call::Stop(n) => board.stop(h, n),
            Call::Tick(now) => board.tick(now),
            Call::Unplug => board.unplug(dev),
            Call::ServeAll(_) | Call::DeliverAll(_) | Call::TakeAll(_) => self.row(board, call),
        }
    }

    /// Makes a call, again where memory is refused. An error where that is often.
    fn make<L: Naming, R: Wait>(&mut self, board: &mut One<'_, R, L>, call: Call) -> Result<()> {
        for _ in 0..TRIES {
            if !matches!(self.call(board, call), Err(Refused::NoMem)) {
                return Ok(());
            }
        }
        Err(anyhow!("memory is refused again and again"))
    }

    /// Makes all calls.
    pub fn make_all<L: Naming, R: Wait>(
        &mut self,
        board: &mut One<'_, R, L>,
        calls: &[Call],
    ) -> Result<()> {
        for call in calls {
            self.make(board, *call)?;
        }
        Ok(())
    }
}
