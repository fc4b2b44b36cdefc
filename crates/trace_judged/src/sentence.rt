//! Parts of sentences: bytes, lengths, places.

ghost use Rattle.std.specs.Prelude.{◌≡◌, ◌++◌, IfOk, drop, string_bytes, take};
ghost use Rattle.hex.specs.Hex.{encode_lower};
ghost use Rattle.trace_scenario.specs.Counts.{plural_end};
ghost use Rattle.trace_judged.specs.Report.{bytes_around, bytes_begun, came_text, dots_where, head_text, length_text, never_text, place_text};

use crate::difference::Difference;
use crate::expected::bytes_expected;
use crate::missing::MissingPackets;
use std::alloc::{AllocError, Global};
use usb_model::{DeviceNo, EpAddr};
use usb_scripttext::ExpectedPacket;

/// How many bytes are shown before one that differs, and how many behind it.
const AROUND: usize = 16;

/// The first so many bytes, or all.
fn first(bytes: &[u8], count: usize) -> &[u8]
    ensures { result.now ≡ take count bytes.now }
{
    bytes.get(..count).unwrap_or(bytes)
}

/// The bytes from a place on; none past the end.
fn from(bytes: &[u8], place: usize) -> &[u8]
    ensures { result.now ≡ drop place bytes.now }
{
    bytes.get(place..).unwrap_or(&[])
}

/// What stands where bytes are left out.
fn dots_where(left_out: bool) -> &'static str
    ensures { result.now ≡ dots_where left_out }
{
    if left_out { ".." } else { "" }
}

/// What stands at the end of a noun for so many.
pub(crate) fn plural_end(count: usize) -> &'static str
    ensures { result.now ≡ plural_end count }
{
    if count == 1 { "" } else { "s" }
}

/// The bytes around a place, of which that there stands in brackets.
pub(crate) fn bytes_around(alloc: Global, bytes: &[u8], at: usize) -> Result<String, AllocError>
    ensures { IfOk result (λ text. string_bytes text ≡ bytes_around bytes.now at) }
{
    let behind = at.checked_add(1).ok_or(AllocError)?;
    let end = behind.checked_add(AROUND).ok_or(AllocError)?;
    let before = hex::encode(alloc, from(first(bytes, at), at.saturating_sub(AROUND)))?;
    let marked = hex::encode(alloc, first(from(bytes, at), 1))?;
    let more = hex::encode(alloc, first(from(bytes, behind), AROUND))?;
    let (head, foot) = (dots_where(AROUND < at), dots_where(end < bytes.len()));
    format!(in alloc; "{head}{before}[{marked}]{more}{foot}")
}

/// The first bytes.
pub(crate) fn bytes_begun(alloc: Global, bytes: &[u8]) -> Result<String, AllocError>
    ensures { IfOk result (λ text. string_bytes text ≡ bytes_begun bytes.now) }
{
    if bytes.is_empty() {
        return String::from_str(alloc, "nothing");
    }
    let text = hex::encode(alloc, first(bytes, AROUND))?;
    let foot = dots_where(AROUND < bytes.len());
    format!(in alloc; "{text}{foot}")
}

/// How many bytes a packet has to have.
pub(crate) fn length_text(alloc: Global, expected: &ExpectedPacket) -> Result<String, AllocError>
    ensures { IfOk result (λ text. string_bytes text ≡ length_text expected.now) }
{
    let length = bytes_expected(expected).len();
    match expected {
        ExpectedPacket::Beginning(_) => format!(in alloc; "* (length {length} or more)"),
        _ => format!(in alloc; " (length {length})"),
    }
}

/// An endpoint.
fn place_text(alloc: Global, dev: DeviceNo, ep: EpAddr) -> Result<String, AllocError>
    ensures { IfOk result (λ text. string_bytes text ≡ place_text dev ep) }
{
    let number = dev.number();
    format!(in alloc; "device {number}, endpoint {ep}: ")
}

/// Where a packet stands that differs.
pub(crate) fn head_text(alloc: Global, d: &Difference) -> Result<String, AllocError>
    ensures { IfOk result (λ text. string_bytes text ≡ head_text d.now) }
{
    let (line, offset) = (d.line, d.offset);
    let place = place_text(alloc, d.dev, d.ep)?;
    let packet = d.index.checked_add(1).ok_or(AllocError)?;
    format!(in alloc; "# line {line}: {place}packet {packet} differs at offset {offset}: came ")
}

/// What came there.
pub(crate) fn came_text(alloc: Global, d: &Difference) -> Result<String, AllocError>
    ensures { IfOk result (λ text. string_bytes text ≡ came_text d.now) }
{
    let bytes = bytes_around(alloc, d.came.as_slice(), d.offset)?;
    let length = d.came.len();
    format!(in alloc; "{bytes} (length {length}), expected ")
}

/// How many packets never came at an endpoint, and which is the first.
pub(crate) fn never_text(alloc: Global, m: &MissingPackets) -> Result<String, AllocError>
    ensures { IfOk result (λ text. string_bytes text ≡ never_text m.now) }
{
    let place = place_text(alloc, m.dev, m.ep)?;
    let (count, s) = (m.count, plural_end(m.count));
    let packet = m.index.checked_add(1).ok_or(AllocError)?;
    format!(in alloc;
        "# {place}{count} expected packet{s} never came; the first is packet {packet}: expected "
    )
}
