//! What is expected of the packets that an endpoint takes, and where one differs.

ghost use Rattle.std.specs.Prelude.{◌≡◌, ◌++◌, ◌≤◌, IfOk, length, slice_get};
ghost use Rattle.std.specs.Option.{option_copied};
ghost use Rattle.trace_judged.specs.Expected.{bytes_expected, differs_at, expected_at, expected_by, in_common, is_expected, packets_of};

use std::alloc::{AllocError, Global};
use trace_scenario::ExpectedPackets;
use usb_model::{Bytes, DeviceNo, EpAddr};
use usb_scripttext::ExpectedPacket;

/// What a line expects at an endpoint: nothing, where it is another's.
fn expected_by<'a>(line: &'a ExpectedPackets, dev: DeviceNo, ep: EpAddr) -> &'a [ExpectedPacket]
    ensures { result.now ≡ expected_by dev ep line.now }
{
    if line.dev == dev && line.ep == ep {
        line.packets.as_slice()
    } else {
        &[]
    }
}

/// Puts packets behind others.
fn put_packets<'a>(
    packets: &mut Vec<&'a ExpectedPacket>,
    more: &'a [ExpectedPacket],
) -> Result<(), AllocError>
    ensures { IfOk result (λ _. packets_of packets.new.items ≡ packets_of packets.old.items ++ more.now) }
{
    for packet in more {
        packets.push(packet)?;
    }
    Ok(())
}

/// What lines expect at an endpoint, in order.
pub(crate) fn expected_at<'a>(
    alloc: Global,
    lines: &'a [ExpectedPackets],
    dev: DeviceNo,
    ep: EpAddr,
) -> Result<Vec<&'a ExpectedPacket>, AllocError>
    ensures { IfOk result (λ packets. packets_of packets.items ≡ expected_at lines.now dev ep) }
{
    let mut packets = Vec::new(alloc);
    for line in lines {
        put_packets(&mut packets, expected_by(line, dev, ep))?;
    }
    Ok(packets)
}

/// The packet of this index, from 0 on; None past the last.
fn packet_of(packets: &[ExpectedPacket], index: usize) -> Option<&ExpectedPacket>
    ensures { option_copied result ≡ slice_get packets.now index }
{
    packets.get(index)
}

/// The packet of this index among those that lines expect at an endpoint, from 0 on; None past the last.
pub(crate) fn packet_at<'a>(
    lines: &'a [ExpectedPackets],
    dev: DeviceNo,
    ep: EpAddr,
    index: usize,
) -> Option<&'a ExpectedPacket>
    ensures { option_copied result ≡ slice_get (expected_at lines.now dev ep) index }
{
    let mut left = index;
    for line in lines {
        let packets = expected_by(line, dev, ep);
        if left < packets.len() {
            return packet_of(packets, left);
        }
        left -= packets.len();
    }
    None
}

/// Whether a packet with these bytes is as expected.
pub(crate) fn is_expected(expected: &ExpectedPacket, bytes: &[u8]) -> bool
    ensures { result ≡ is_expected expected.now bytes.now }
{
    match expected {
        ExpectedPacket::Anything => true,
        ExpectedPacket::Exactly(expected) => expected.as_slice() == bytes,
        ExpectedPacket::Beginning(expected) => bytes.starts_with(expected.as_slice()),
    }
}

/// The bytes that are expected of it.
pub(crate) fn bytes_expected(expected: &ExpectedPacket) -> &[u8]
    ensures { result.now ≡ bytes_expected expected.now }
{
    match expected {
        ExpectedPacket::Anything => &[],
        ExpectedPacket::Exactly(expected) | ExpectedPacket::Beginning(expected) => {
            expected.as_slice()
        }
    }
}

/// How many bytes two have in common from the front on.
fn in_common(expected: &[u8], bytes: &[u8]) -> usize
    ensures common { result ≡ in_common expected.now bytes.now }
    ensures within { result ≤ length bytes.now }
{
    let [first, expected @ ..] = expected else {
        return 0;
    };
    let [came, bytes @ ..] = bytes else {
        return 0;
    };
    if first != came {
        return 0;
    }
    1 + in_common(expected, bytes)
}

/// Where a packet with these bytes differs, if it does.
pub(crate) fn differs_at(expected: &ExpectedPacket, bytes: &[u8]) -> Option<usize>
    ensures { result ≡ differs_at expected.now bytes.now }
{
    if is_expected(expected, bytes) {
        return None;
    }
    Some(in_common(bytes_expected(expected), bytes))
}

/// A copy of some bytes.
pub(crate) fn copy_of(alloc: Global, bytes: &[u8]) -> Result<Bytes, AllocError>
    ensures { IfOk result (λ copy. copy ≡ bytes.now) }
{
    Ok(Bytes::from_vec(Vec::from_slice(alloc, bytes)?))
}

/// A copy of what is expected of a packet.
pub(crate) fn copy_expected(
    alloc: Global,
    expected: &ExpectedPacket,
) -> Result<ExpectedPacket, AllocError>
    ensures { IfOk result (λ copy. copy ≡ expected.now) }
{
    match expected {
        ExpectedPacket::Anything => Ok(ExpectedPacket::Anything),
        ExpectedPacket::Exactly(bytes) => {
            Ok(ExpectedPacket::Exactly(copy_of(alloc, bytes.as_slice())?))
        }
        ExpectedPacket::Beginning(bytes) => {
            Ok(ExpectedPacket::Beginning(copy_of(alloc, bytes.as_slice())?))
        }
    }
}
