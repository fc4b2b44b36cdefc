//! The packets that a step moves, as lines.

ghost use Rattle.std.specs.Prelude.{◌≡◌, ◌++◌, IfOk};
ghost use Rattle.std.specs.List.{flat_map};
ghost use Rattle.reference.specs.System.{world_of};
ghost use Rattle.trace_explain.specs.Packets.{packet_line, packet_lines, packets_at, way_text};
ghost use Rattle.usb_model.specs.World.{holder};

use reference::System;
use reference::moved::packets_moved;
use std::alloc::{AllocError, Global};
use trace_io::{add_byte, add_data, add_decimal};
use usb_model::{Bytes, DeviceNo, EpAddr, Setup, Step};

/// For how many bytes of a line there is room from the beginning: for that of a packet of eight bytes.
const LINE: usize = 64;

/// Which way an endpoint's packets go.
fn way(is_in: bool) -> &'static [u8]
    ensures { result.now ≡ way_text is_in }
{
    if is_in { b" IN " } else { b" OUT " }
}

/// Puts the line of a packet behind a text.
fn put_packet(text: &mut Vec<u8>, ep: EpAddr, packet: &Bytes) -> Result<(), AllocError>
    ensures { IfOk result (λ _. text.new.items ≡ text.old.items ++ packet_line ep packet.now) }
{
    let bytes = packet.as_slice();
    text.extend_from_slice(b"    packet ep ")?;
    add_byte(text, ep.address())?;
    text.extend_from_slice(way(ep.is_in()))?;
    add_decimal(text, bytes.len() as u64)?;
    add_data(text, bytes)?;
    text.push(b'\n')?;
    Ok(())
}

/// The packets that move at an endpoint where its device answers, if a handle holds it.
fn packets_at(
    alloc: Global,
    setup: &Setup,
    system: &System,
    dev: DeviceNo,
    ep: EpAddr,
) -> Result<Vec<Bytes>, AllocError>
    ensures { let w = world_of setup.now system.now in IfOk result (λ packets. packets.items ≡ packets_at setup.now w dev ep (holder setup.now w.claims dev ep)) }
{
    if system.holder(setup, dev, ep).is_none() {
        return Ok(Vec::new(alloc));
    }
    let endpoint = system.endpoints.get(dev, ep.address());
    let size = setup.packet_size_of(dev, ep);
    packets_moved(alloc, endpoint, size, system.is_gone(dev))
}

/// Puts the lines of some packets behind a text.
fn put_packets(text: &mut Vec<u8>, ep: EpAddr, packets: &[Bytes]) -> Result<(), AllocError>
    ensures { IfOk result (λ _. text.new.items ≡ text.old.items ++ flat_map (packet_line ep) packets.now) }
{
    for packet in packets {
        put_packet(text, ep, packet)?;
    }
    Ok(())
}

/// The lines of the packets that a step in this system moves. It is asked before the step is made.
pub(crate) fn packet_lines(
    alloc: Global,
    setup: &Setup,
    system: &System,
    step: &Step,
) -> Result<Vec<u8>, AllocError>
    ensures { IfOk result (λ lines. lines.items ≡ packet_lines setup.now (world_of setup.now system.now) step.now) }
{
    let Step::Serve { dev, ep } = step else {
        return Ok(Vec::new(alloc));
    };
    let packets = packets_at(alloc, setup, system, *dev, *ep)?;
    let mut lines = Vec::with_capacity(alloc, LINE)?;
    put_packets(&mut lines, *ep, packets.as_slice())?;
    Ok(lines)
}
