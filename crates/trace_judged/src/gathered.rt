//! Lines joined by endpoint. A packet is then looked for among as many entries as there are endpoints with lines, of a
//! scenario at most 30 at each of 4 devices, and not among all lines.

ghost use Rattle.std.specs.Prelude.{◌≡◌, ◌++◌, ℕ, IfOk, position};
ghost use Rattle.trace_judged.specs.Expected.{expected_at, expected_by};
ghost use Rattle.trace_judged.specs.Gathered.{HasEndpointsOnce, is_of};

use std::alloc::{AllocError, Global};
use trace_scenario::ExpectedPackets;
use usb_model::{DeviceNo, EpAddr, Sequence};
use usb_scripttext::ExpectedPacket;

/// Whether a line is of this endpoint.
fn is_of(line: &ExpectedPackets, dev: DeviceNo, ep: EpAddr) -> bool
    ensures { result ≡ is_of dev ep line.now }
{
    line.dev == dev && line.ep == ep
}

/// The place of the first line of this endpoint, from 0 on; None where there is none.
fn place_of(lines: &[ExpectedPackets], dev: DeviceNo, ep: EpAddr) -> Option<usize>
    ensures { result ≡ position (is_of dev ep) lines.now }
{
    lines.iter().position(|line| is_of(line, dev, ep))
}

/// Puts packets behind those of an entry.
fn put_behind(
    entry: &mut ExpectedPackets,
    packets: Sequence<ExpectedPacket>,
) -> Result<(), AllocError>
    ensures { IfOk result (λ _. entry.new ≡ record entry.old { packets = entry.old.packets ++ packets }) }
{
    for packet in packets.into_vec() {
        entry.packets.push(packet)?;
    }
    Ok(())
}

/// Puts what a line expects behind what the entry of its endpoint does. Where there is none, the line is the last entry.
fn put_line(entries: &mut Vec<ExpectedPackets>, line: ExpectedPackets) -> Result<(), AllocError>
    requires { HasEndpointsOnce entries.old.items }
    ensures once { IfOk result (λ _. HasEndpointsOnce entries.new.items) }
    ensures expected { IfOk result (λ _. (dev ep : ℕ) → expected_at entries.new.items dev ep ≡ expected_at entries.old.items dev ep ++ expected_by dev ep line) }
{
    match place_of(entries.as_slice(), line.dev, line.ep) {
        Some(place) => put_behind(&mut entries[place], line.packets),
        None => {
            entries.push(line)?;
            Ok(())
        }
    }
}

/// Lines joined by endpoint: an entry for each endpoint that has a line, with the packets of all its lines, in order.
/// Each packet moves once, and a line is compared with the entries alone. An error where memory is refused.
pub(crate) fn gathered(
    alloc: Global,
    lines: Vec<ExpectedPackets>,
) -> Result<Vec<ExpectedPackets>, AllocError>
    ensures once { IfOk result (λ entries. HasEndpointsOnce entries.items) }
    ensures expected { IfOk result (λ entries. (dev ep : ℕ) → expected_at entries.items dev ep ≡ expected_at lines.items dev ep) }
{
    let mut entries = Vec::new(alloc);
    for line in lines {
        put_line(&mut entries, line)?;
    }
    Ok(entries)
}
