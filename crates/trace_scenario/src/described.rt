//! A device's line, with the bytes of its configuration.

ghost use Rattle.std.specs.Prelude.{◌≡◌, IfOk, slice_index, take};
ghost use Rattle.trace_scenario.specs.DeviceLines.{described, described_by, total_length};
ghost use Rattle.usb_scripttext.specs.Words.{words_of};

use std::alloc::{AllocError, Global};
use usb_model::{Bytes, DeviceNo};
use usb_scripttext::number::{bytes, device};
use usb_scripttext::words::ascii;

/// A device of a text.
#[derive(Drop)]
pub struct DescribedDevice {
    /// The number of its line, from 1.
    pub line: u64,
    /// Its own number.
    pub device: DeviceNo,
    /// The bytes of its configuration descriptor, as many as this says that it has.
    pub descriptor: Bytes,
}

/// A byte; 0 past the end.
fn byte_at(bytes: &[u8], place: usize) -> u8
    ensures { result ≡ slice_index bytes.now place }
{
    match bytes.get(place) {
        Some(byte) => *byte,
        None => 0,
    }
}

/// How many bytes a configuration has with all its descriptors, as it says itself (USB 2.0, 9.6.3).
fn total_length(descriptor: &[u8]) -> usize
    ensures { result ≡ total_length descriptor.now }
{
    usize::from(byte_at(descriptor, 2)) + 256 * usize::from(byte_at(descriptor, 3))
}

/// Those of some bytes that are a configuration's.
fn cut(descriptor: Bytes) -> Bytes
    ensures { result ≡ take (total_length descriptor) descriptor }
{
    let mut bytes = descriptor.into_vec();
    let total = total_length(bytes.as_slice());
    bytes.truncate(total);
    Bytes::from_vec(bytes)
}

/// The device of a line's words.
#[tactic(auto, unfolding(crate::specs::DeviceLines::described_by))]
fn described_by(
    alloc: Global,
    line: u64,
    words: &[&str],
) -> Result<Option<DescribedDevice>, AllocError>
    ensures { IfOk result (λ found. found ≡ described_by line (words_of words.now)) }
{
    let [_, number, descriptor] = words else {
        return Ok(None);
    };
    let Ok(device) = device(number) else {
        return Ok(None);
    };
    let Some(descriptor) = bytes(alloc, descriptor)? else {
        return Ok(None);
    };
    Ok(Some(DescribedDevice {
        line,
        device,
        descriptor: cut(descriptor),
    }))
}

/// The device of a line; None where it has no such words.
pub(crate) fn described(
    alloc: Global,
    line: u64,
    text: &[u8],
) -> Result<Option<DescribedDevice>, AllocError>
    ensures { IfOk result (λ found. found ≡ described line text.now) }
{
    let Some(text) = ascii(text) else {
        return Ok(None);
    };
    let words: Vec<&str> = text.split(' ').collect(alloc)?;
    described_by(alloc, line, words.as_slice())
}
