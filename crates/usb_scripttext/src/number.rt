//! Words that spell numbers, addresses and bytes.

ghost use Rattle.std.specs.Prelude.{◌≡◌, ◌≤◌, IfOk, IfSome};
ghost use Rattle.std.specs.Result.{result_ok};
ghost use Rattle.usb_scripttext.specs.Number.{number_of, device_of, u8_of, u32_of, u64_of, address_of, bytes_of, begins_plainly, TakesDecimals};

use crate::expected::Expected;
use hex::FromHexError;
use std::alloc::{AllocError, Global};
use usb_model::{Bytes, DeviceNo, EpAddr};

/// The last number of a device.
const LAST_DEVICE: u8 = 3;

/// The number of a decimal word; None where it has a sign, a leading zero or a byte that is no digit, or is above
/// the limit.
pub fn decimal(word: &str, limit: u64) -> Option<u64>
    ensures value { result ≡ number_of limit word.now }
    ensures within { IfSome result (λ n. n ≤ limit) }
    ensures decimals { TakesDecimals limit word.now }
{
    if !begins_plainly(word) {
        return None;
    }
    let number = word.parse::<u64>().ok()?;
    (number <= limit).then_some(number)
}

/// Whether a word begins as a decimal does: without a sign, and with 0 only where that is all.
fn begins_plainly(word: &str) -> bool
    ensures { result ≡ begins_plainly word.now }
{
    match word.as_bytes() {
        [] => false,
        [only] => *only != b'+',
        [first, ..] => *first != b'+' && *first != b'0',
    }
}

/// A decimal number of 8 bits within a limit.
pub fn decimal_u8(word: &str, limit: u8) -> Option<u8>
    ensures value { result ≡ number_of limit word.now }
    ensures within { IfSome result (λ n. n ≤ limit) }
{
    u8::try_from(decimal(word, u64::from(limit))?).ok()
}

/// A decimal number of 32 bits.
pub fn decimal_u32(word: &str) -> Option<u32>
    ensures { result ≡ u32_of word.now }
{
    u32::try_from(decimal(word, u64::from(u32::MAX))?).ok()
}

/// A decimal number of 64 bits.
pub fn decimal_u64(word: &str) -> Option<u64>
    ensures { result ≡ u64_of word.now }
{
    decimal(word, u64::MAX)
}

/// The number of a device.
pub fn device(word: &str) -> Result<DeviceNo, Expected>
    ensures { result_ok result ≡ device_of word.now }
{
    let number = decimal_u8(word, LAST_DEVICE).ok_or(Expected::Device)?;
    DeviceNo::new(number).ok_or(Expected::Device)
}

/// The number of an interface.
pub fn interface(word: &str) -> Result<u8, Expected>
    ensures { result_ok result ≡ u8_of word.now }
{
    decimal_u8(word, u8::MAX).ok_or(Expected::Interface)
}

/// The address of an endpoint: two hexadecimal digits, in either case.
pub fn address(word: &str) -> Result<EpAddr, Expected>
    ensures { result_ok result ≡ address_of word.now }
{
    let byte = hex_byte(word).ok_or(Expected::Endpoint)?;
    Ok(EpAddr::new(byte))
}

/// The byte of two hexadecimal digits.
#[tactic(auto, unfolding(crate::specs::Number::address_of))]
fn hex_byte(word: &str) -> Option<u8>
    ensures { result ≡ address_of word.now }
{
    let mut bytes = [0u8; 1];
    hex::decode_to_slice(word, &mut bytes).ok()?;
    Some(bytes[0])
}

/// Bytes: an even number of hexadecimal digits, in either case; None where the word is none of these.
#[tactic(auto, unfolding(crate::specs::Number::bytes_of))]
pub fn bytes(alloc: Global, word: &str) -> Result<Option<Bytes>, AllocError>
    ensures { IfOk result (λ said. said ≡ bytes_of word.now) }
{
    match hex::decode(alloc, word) {
        Ok(bytes) => Ok(Some(Bytes::from_vec(bytes))),
        Err(FromHexError::OutOfMemory) => Err(AllocError),
        Err(_) => Ok(None),
    }
}
