//! The line of an entry, put together part by part: what a run writes most. A formatter would give the same text, and take several times as long.

ghost use Rattle.std.specs.Prelude.{◌≡◌, ◌++◌, ◌<◌, IfOk, codes, false};
ghost use Rattle.std.specs.Fmt.{decimal, digit_glyph};
ghost use Rattle.std.specs.List.{flat_map};
ghost use Rattle.usb_model.specs.Text.{called_text, hex_byte, hex_text, owner_text, reply_text, status_text};
ghost use Rattle.trace_io.specs.Output.{line_text};

use itoa::Buffer;
use std::alloc::{AllocError, Global};
use usb_model::{Entry, Name, Reply, Returned, Status};

/// Puts the line of an entry behind a text.
pub fn add_line(alloc: Global, text: &mut Vec<u8>, entry: &Entry) -> Result<(), AllocError>
    ensures { IfOk result (λ _. text.new.items ≡ text.old.items ++ line_text entry.now) }
{
    add_owner(text, entry.owner)?;
    add_reply(alloc, text, &entry.reply)?;
    text.push(b'\n')?;
    Ok(())
}

/// Puts whose an entry is behind a text, and a space.
fn add_owner(text: &mut Vec<u8>, owner: Option<Name>) -> Result<(), AllocError>
    ensures { IfOk result (λ _. text.new.items ≡ text.old.items ++ (owner_text owner ++ codes " ")) }
{
    match owner {
        None => text.extend_from_slice(b"- "),
        Some(name) => {
            text.push(b'h')?;
            add_decimal(text, u64::from(name.number()))?;
            text.push(b' ')?;
            Ok(())
        }
    }
}

/// Puts a reply behind a text.
fn add_reply(alloc: Global, text: &mut Vec<u8>, reply: &Reply) -> Result<(), AllocError>
    ensures { IfOk result (λ _. text.new.items ≡ text.old.items ++ reply_text reply.now) }
{
    match reply {
        Reply::Done => text.extend_from_slice(b"done"),
        Reply::Idle => text.extend_from_slice(b"idle"),
        Reply::Number(n) => add_number(text, b"number ", *n),
        Reply::Refused(refused) => add_number(text, b"refused ", u64::from(refused.number())),
        Reply::Nak { n } => add_number(text, b"nak ", *n),
        Reply::Moved { n, bytes } => add_numbers(text, b"moved ", *n, b" ", u64::from(*bytes)),
        Reply::Ended { n, code } => add_numbers(text, b"ended ", *n, b" code ", u64::from(*code)),
        Reply::Finished { n } => add_number(text, b"finished ", *n),
        Reply::Paused { n } => add_number(text, b"paused ", *n),
        Reply::Called(returned) => add_called(text, returned),
        Reply::Ran { .. } | Reply::Settled { .. } => add_formatted(alloc, text, reply),
    }
}

/// Puts a reply behind a text as the formatter gives it.
fn add_formatted(alloc: Global, text: &mut Vec<u8>, reply: &Reply) -> Result<(), AllocError>
    ensures { IfOk result (λ _. text.new.items ≡ text.old.items ++ reply_text reply.now) }
{
    let formatted = format!(in alloc; "{reply}")?;
    text.extend_from_slice(formatted.as_bytes())
}

/// Puts a word and a decimal number behind a text.
fn add_number(text: &mut Vec<u8>, word: &[u8], number: u64) -> Result<(), AllocError>
    ensures { IfOk result (λ _. text.new.items ≡ text.old.items ++ (word.now ++ decimal number)) }
{
    text.extend_from_slice(word)?;
    add_decimal(text, number)
}

/// Puts a decimal number behind a text. Most have one digit, which is pushed as it is.
pub fn add_decimal(text: &mut Vec<u8>, number: u64) -> Result<(), AllocError>
    ensures { IfOk result (λ _. text.new.items ≡ text.old.items ++ decimal number) }
{
    if number < 10 {
        text.push(b'0' + number as u8)?;
        return Ok(());
    }
    let mut buffer = Buffer::new();
    text.extend_from_slice(buffer.format(number).as_bytes())
}

/// Puts two words behind a text, and a decimal number behind each.
fn add_numbers(
    text: &mut Vec<u8>,
    word: &[u8],
    number: u64,
    other_word: &[u8],
    other: u64,
) -> Result<(), AllocError>
    ensures { IfOk result (λ _. text.new.items ≡ text.old.items ++ (word.now ++ (decimal number ++ (other_word.now ++ decimal other)))) }
{
    add_number(text, word, number)?;
    add_number(text, other_word, other)
}

/// Puts behind a text what a callback is given.
fn add_called(text: &mut Vec<u8>, returned: &Returned) -> Result<(), AllocError>
    ensures { IfOk result (λ _. text.new.items ≡ text.old.items ++ called_text returned.now) }
{
    add_transfer(text, returned)?;
    add_outcome(text, returned)?;
    add_data(text, returned.bytes.as_slice())
}

/// Puts behind a text which transfer a callback is given, and its endpoint.
fn add_transfer(text: &mut Vec<u8>, returned: &Returned) -> Result<(), AllocError>
    ensures { IfOk result (λ _. text.new.items ≡ text.old.items ++ (codes "called " ++ (decimal returned.now.n ++ (codes " ep " ++ hex_byte returned.now.ep)))) }
{
    add_number(text, b"called ", returned.n)?;
    text.extend_from_slice(b" ep ")?;
    add_byte(text, returned.ep.address())
}

/// Puts behind a text the round of a transfer, its status, and how many bytes moved.
fn add_outcome(text: &mut Vec<u8>, returned: &Returned) -> Result<(), AllocError>
    ensures { IfOk result (λ _. text.new.items ≡ text.old.items ++ (codes " round " ++ (decimal returned.now.round ++ (codes " " ++ (status_text returned.now.status ++ (codes " " ++ decimal returned.now.actual)))))) }
{
    add_number(text, b" round ", returned.round)?;
    text.push(b' ')?;
    text.extend_from_slice(status_text(returned.status))?;
    text.push(b' ')?;
    add_decimal(text, u64::from(returned.actual))
}

/// The bytes of a status in a line.
fn status_text(status: Status) -> &'static [u8]
    ensures { result.now ≡ status_text status }
{
    match status {
        Status::Completed => b"COMPLETED",
        Status::Error => b"ERROR",
        Status::TimedOut => b"TIMED_OUT",
        Status::Cancelled => b"CANCELLED",
        Status::Stall => b"STALL",
        Status::NoDevice => b"NO_DEVICE",
        Status::Overflow => b"OVERFLOW",
    }
}

/// Puts bytes behind a text and the word for them, as two hexadecimal digits each, or a dash where there are none.
pub fn add_data(text: &mut Vec<u8>, bytes: &[u8]) -> Result<(), AllocError>
    ensures { IfOk result (λ _. text.new.items ≡ text.old.items ++ (codes " data " ++ hex_text bytes.now)) }
{
    text.extend_from_slice(b" data ")?;
    if bytes.is_empty() {
        text.push(b'-')?;
        return Ok(());
    }
    add_bytes(text, bytes)
}

/// Puts bytes behind a text, as two hexadecimal digits each.
fn add_bytes(text: &mut Vec<u8>, bytes: &[u8]) -> Result<(), AllocError>
    ensures { IfOk result (λ _. text.new.items ≡ text.old.items ++ flat_map hex_byte bytes.now) }
{
    for byte in bytes {
        add_byte(text, *byte)?;
    }
    Ok(())
}

/// Puts a byte behind a text, as two hexadecimal digits.
pub fn add_byte(text: &mut Vec<u8>, byte: u8) -> Result<(), AllocError>
    ensures { IfOk result (λ _. text.new.items ≡ text.old.items ++ hex_byte byte) }
{
    text.push(digit(byte / 16))?;
    text.push(digit(byte % 16))?;
    Ok(())
}

/// The hexadecimal digit of a number below 16.
fn digit(number: u8) -> u8
    requires { number < 16 }
    ensures { result ≡ digit_glyph false number }
{
    if number < 10 {
        b'0' + number
    } else {
        b'a' + (number - 10)
    }
}
