//! A flash memory that computes what it answers.

use std::alloc::{AllocError, Global};
use usb_living::Living;
use usb_model::{Bytes, DeviceNo, EpAddr, Response};

/// How many bytes it has.
const SIZE: usize = 4096;

/// How many bytes are erased at once.
const SECTOR: usize = 256;

/// What it says that it is: manufacturer, type and capacity (JEDEC JEP106).
const IDENTITY: [u8; 3] = [0xef, 0x40, 0x0c];

/// A flash memory: a command at 02 does something, or makes an answer that is read at 81.
#[derive(Drop)]
pub struct Flash {
    alloc: Global,
    cells: Vec<u8>,
    /// The next command that writes is carried out.
    enabled: bool,
    answer: Option<Bytes>,
}

impl Flash {
    /// A memory that is erased.
    pub fn new(alloc: Global) -> Result<Flash, AllocError> {
        Ok(Flash {
            alloc,
            cells: Vec::from_elem(alloc, 0xff, SIZE)?,
            enabled: false,
            answer: None,
        })
    }

    /// The bytes from one on, at most so many.
    fn cells_at(&mut self, at: u8, count: usize) -> &mut [u8] {
        let first = usize::from(at) * 16;
        let end = first.saturating_add(count).min(SIZE);
        match self.cells.as_mut_slice().get_mut(first..end) {
            Some(cells) => cells,
            None => &mut [],
        }
    }

    /// Whether a command that writes is carried out: once for each that enables it.
    fn may_write(&mut self) -> bool {
        let enabled = self.enabled;
        self.enabled = false;
        enabled
    }

    /// Carries a command out: 9f who are you, 06 enable a write, 20 erase the sector at, 02 clear bits from there on, 03 read so many bytes
    /// from there on. A place counts sixteen bytes. A stall at any other.
    fn carry_out(&mut self, command: &[u8]) -> Result<Response, AllocError> {
        match command {
            [0x9f] => self.answer = Some(bytes(self.alloc, &IDENTITY)?),
            [0x06] => self.enabled = true,
            [0x20, at] => {
                if self.may_write() {
                    self.cells_at(*at, SECTOR).fill(0xff);
                }
            }
            [0x02, at, written @ ..] => {
                if self.may_write() {
                    for (cell, byte) in self.cells_at(*at, written.len()).iter_mut().zip(written) {
                        *cell &= *byte;
                    }
                }
            }
            [0x03, at, count] => {
                let alloc = self.alloc;
                let read = bytes(alloc, self.cells_at(*at, usize::from(*count)))?;
                self.answer = Some(read);
            }
            _ => return Ok(Response::Stall),
        }
        Ok(Response::Ack)
    }
}

/// These bytes.
fn bytes(alloc: Global, from: &[u8]) -> Result<Bytes, AllocError> {
    Ok(Bytes::from_vec(Vec::from_slice(alloc, from)?))
}

impl Living for Flash {
    /// Nothing is said of its answers.
    ghost may_answer = { λ before dev ep out room answer behind. Unit {0} };

    fn answer(&mut self, _dev: DeviceNo, ep: EpAddr, out: &[u8], _room: usize) -> Option<Response> {
        if ep.is_in() {
            return Some(Response::Data(self.answer.take()?));
        }
        match self.carry_out(out) {
            Ok(answer) => Some(answer),
            Err(_) => Some(Response::Broken),
        }
    }
}
