//! Results, and their bytes.

ghost use Rattle.std.specs.Prelude.{◌≡◌, ◌≤◌, length};
ghost use Rattle.tirnouch_c.specs.Buffers.{answer_of, filled, taken_count};
ghost use Rattle.tirnouch_c.specs.Results.{Fetches, Takes, no_result, result_numbers};

use crate::LentMemory;
use crate::lent::give_back;
use crate::replies::status_number;
use crate::session::Session;
use std::alloc::Global;
use usb_core::Taken;

/// A result that went out.
#[repr(C)]
#[derive(Clone, Copy, Drop)]
pub struct TakenResult {
    /// The handle, 0 to 63; TIRNOUCH_NOBODY where no result went out, and then all else is 0.
    pub handle: u8,
    /// The address of the endpoint.
    pub endpoint: u8,
    /// Its status (libusb 1.0, `libusb_transfer_status`).
    pub status: u8,
    /// How many bytes moved (libusb 1.0, `actual_length`).
    pub actual_length: u32,
    /// The transfer's number.
    pub number: u64,
    /// What C keeps with the transfer.
    pub payload: u64,
}

impl TakenResult {
    /// No result went out.
    pub fn none() -> TakenResult
        ensures { result ≡ no_result }
    {
        TakenResult {
            handle: 255,
            endpoint: 0,
            status: 0,
            actual_length: 0,
            number: 0,
            payload: 0,
        }
    }

    /// This one did.
    fn of(taken: &Taken<u64>) -> TakenResult
        ensures { result ≡ result_numbers taken.now }
    {
        let returned = &taken.returned;
        TakenResult {
            handle: returned.h.number(),
            endpoint: returned.ep.address(),
            status: status_number(returned.status),
            actual_length: returned.actual,
            number: returned.n,
            payload: taken.payload,
        }
    }
}

/// A count as an answer, as far as it fits.
pub fn answer_of(count: usize) -> i32
    ensures { result ≡ answer_of count }
{
    match i32::try_from(count) {
        Ok(count) => count,
        Err(_) => i32::MAX,
    }
}

/// Puts bytes into a buffer, as far as there is room; how many they were.
pub fn fill(buffer: &mut [u8], bytes: &[u8]) -> usize
    ensures count { result ≡ taken_count bytes.now buffer.old }
    ensures within { result ≤ length bytes.now }
    ensures filled { buffer.new ≡ filled bytes.now buffer.old }
{
    let count = bytes.len().min(buffer.len());
    buffer[..count].copy_from_slice(&bytes[..count]);
    count
}

/// The oldest result goes out, and its callback ends: 1; 0 where none waits. Memory that C lent for it goes back.
pub fn take(
    alloc: Global,
    session: &mut Session,
    back: &mut LentMemory,
    out: &mut TakenResult,
) -> i32
    ensures { Takes result out.new back.old back.new session.old session.new }
{
    match session.core.take_done() {
        None => {
            *out = TakenResult::none();
            0
        }
        Some(taken) => {
            *out = TakenResult::of(&taken);
            session.out = give_back(alloc, taken, back);
            1
        }
    }
}

/// The bytes of the result that went out last, as far as there is room, just once; how many they were.
pub fn fetch(session: &mut Session, buffer: &mut [u8]) -> i32
    ensures { Fetches result buffer.old buffer.new session.old session.new }
{
    match session.out.take() {
        Some(taken) => answer_of(fill(buffer, taken.returned.bytes.as_slice())),
        None => 0,
    }
}
