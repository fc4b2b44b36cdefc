//! The bytes of an input: as they are, or as hexadecimal text.

ghost use Rattle.std.specs.Prelude.{◌≡◌, ◌++◌, IfErr, IfOk, Ok};
ghost use Rattle.hex.specs.Hex.{is_hex_digit};
ghost use Rattle.trace_faults.specs.DescriptorFaults.{IsDescriptorFault};
ghost use Rattle.trace_descriptor.specs.Input.{begins_with_prefix, bytes_of, bytes_of_text, digits, is_between, is_of_text, is_text, is_x, kept};

use crate::piece::{byte_at, past};
use std::alloc::{AllocError, Global};
use trace_faults::DescriptorFault;

/// Whether a byte may stand between the numbers of a text.
fn is_between(byte: u8) -> bool
    ensures { result ≡ is_between byte }
{
    byte == b' ' || byte == b'\n' || byte == b'\r' || byte == b'\t' || byte == b':'
}

/// Whether it is the letter of `0x`.
fn is_x(byte: u8) -> bool
    ensures { result ≡ is_x byte }
{
    byte == b'x' || byte == b'X'
}

/// Whether it is a hexadecimal digit.
fn is_hex_digit(byte: u8) -> bool
    ensures { result ≡ is_hex_digit byte }
{
    (65 <= byte && byte <= 70) || (97 <= byte && byte <= 102) || (48 <= byte && byte <= 57)
}

/// Whether it may stand in a text.
fn is_of_text(byte: u8) -> bool
    ensures { result ≡ is_of_text byte }
{
    is_hex_digit(byte) || is_between(byte) || is_x(byte)
}

/// Whether an input is text. A descriptor's second byte is its type, which no text has.
fn is_text(input: &[u8]) -> bool
    ensures { result ≡ is_text input.now }
{
    is_of_text(byte_at(input, 0)) && is_of_text(byte_at(input, 1))
}

/// Whether bytes begin with `0x`.
fn begins_with_prefix(text: &[u8]) -> bool
    ensures { result ≡ begins_with_prefix text.now }
{
    byte_at(text, 0) == b'0' && is_x(byte_at(text, 1))
}

/// Puts a byte behind the others, unless it may stand between numbers.
fn keep(found: &mut Vec<u8>, byte: u8) -> Result<(), AllocError>
    ensures { IfOk result (λ _. found.new.items ≡ found.old.items ++ kept byte) }
{
    if is_between(byte) {
        return Ok(());
    }
    Ok(found.push(byte)?)
}

/// A text without what stands between its numbers, and in front of them.
fn digits(alloc: Global, text: &[u8]) -> Result<Vec<u8>, AllocError>
    ensures { IfOk result (λ found. found.items ≡ digits text.now) }
{
    let mut found = Vec::new(alloc);
    let mut rest = text;
    'numbers: while !rest.is_empty() {
        if begins_with_prefix(rest) {
            rest = past(rest, 2);
        } else {
            keep(&mut found, byte_at(rest, 0))?;
            rest = past(rest, 1);
        }
    }
    Ok(found)
}

/// The bytes of a text.
#[tactic(auto, unfolding(crate::specs::Input::bytes_of_text))]
fn bytes_of_text(alloc: Global, text: &[u8]) -> Result<Vec<u8>, DescriptorFault>
    ensures bytes { IfOk result (λ bytes. bytes_of_text text.now ≡ Ok bytes.items) }
    ensures fault { IfErr result (λ fault. IsDescriptorFault fault (bytes_of_text text.now)) }
{
    let digits = digits(alloc, text)?;
    Ok(hex::decode(alloc, digits.as_slice())?)
}

/// The bytes of an input.
pub(crate) fn bytes_of(alloc: Global, input: &[u8]) -> Result<Vec<u8>, DescriptorFault>
    ensures bytes { IfOk result (λ bytes. bytes_of input.now ≡ Ok bytes.items) }
    ensures fault { IfErr result (λ fault. IsDescriptorFault fault (bytes_of input.now)) }
{
    if is_text(input) {
        return bytes_of_text(alloc, input);
    }
    Ok(Vec::from_slice(alloc, input)?)
}
