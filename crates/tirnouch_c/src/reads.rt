//! What can be asked without a step.

ghost use Rattle.std.specs.Prelude.{◌≡◌, ℕ, None, Some, slice_get};
ghost use Rattle.std.specs.Option.{option_copied};
ghost use Rattle.usb_core.specs.Public.{ShowsWorld};
ghost use Rattle.usb_model.specs.Setup.{Setup, interface_of};
ghost use Rattle.usb_model.specs.World.{World};
ghost use Rattle.tirnouch_c.specs.Reads.{TellsLook, TellsPending, TellsTaken, next_numbers, view_numbers, waiting_bits};

use crate::results::{answer_of, fill};
use crate::session::Session;
use usb_core::Pending;
use usb_model::{DeviceNo, EpAddr};

/// What is to be done next.
#[repr(C)]
#[derive(Clone, Copy, Drop)]
pub struct NextWork {
    /// 1 where a packet does something, else 0.
    pub has_packet: u8,
    /// The device of that packet, 0 to 3; TIRNOUCH_NOBODY where there is none.
    pub device: u8,
    /// The address of its endpoint; 0 where there is none.
    pub endpoint: u8,
    /// What else waits: bits of `enum tirnouch_waiting`.
    pub waiting: u8,
}

/// What is to be done at an endpoint.
#[repr(C)]
#[derive(Clone, Copy, Drop)]
pub struct EndpointView {
    /// 1 where a packet does something there, else 0.
    pub has_packet: u8,
    /// What else waits, wherever it is: bits of `enum tirnouch_waiting`.
    pub waiting: u8,
    /// 1 where the endpoint is halted, which tirnouch_call's clear halt ends (USB 2.0, 9.4.5), else 0. It means nothing where no
    /// handle holds the endpoint.
    pub is_halted: u8,
    /// How many answers its device has left. It means nothing where no handle holds the endpoint.
    pub answers_left: u64,
}

/// What waits, in bits: 1 for an order, 2 for an event, 4 for a result.
fn waiting(order: bool, event: bool, outcome: bool) -> u8
    ensures { result ≡ waiting_bits order event outcome }
{
    u8::from(order) + 2 * u8::from(event) + 4 * u8::from(outcome)
}

impl NextWork {
    /// The same in numbers.
    pub fn of(pending: &Pending) -> NextWork
        ensures { result ≡ next_numbers pending.now }
    {
        let waiting = waiting(pending.command, pending.deliver, pending.take);
        match pending.serve {
            None => NextWork {
                has_packet: 0,
                device: 255,
                endpoint: 0,
                waiting,
            },
            Some((dev, ep)) => NextWork {
                has_packet: 1,
                device: dev.number(),
                endpoint: ep.address(),
                waiting,
            },
        }
    }
}

impl EndpointView {
    /// A packet there; an order, an event and a result; whether it is halted, and how many answers are left.
    pub fn new(
        packet: bool,
        order: bool,
        event: bool,
        outcome: bool,
        is_halted: bool,
        left: u64,
    ) -> EndpointView
        ensures { result ≡ view_numbers packet order event outcome is_halted left }
    {
        EndpointView {
            has_packet: u8::from(packet),
            waiting: waiting(order, event, outcome),
            is_halted: u8::from(is_halted),
            answers_left: left,
        }
    }
}

/// What is to be done next; endpoints are looked at from behind this one on.
pub fn pending(session: &Session, after: Option<(DeviceNo, EpAddr)>, next: &mut NextWork)
    ensures { TellsPending after session.now next.new }
{
    *next = NextWork::of(&session.core.pending(after));
}

/// The interface of a device's endpoint; None where there is no such device, or it has no such endpoint.
fn interface_of(session: &Session, dev: DeviceNo, ep: EpAddr) -> Option<u8>
    ensures { (setup : Setup) (w : World) → ShowsWorld setup session.now.core w → result ≡ interface_of setup dev ep }
{
    match session.core.config(dev) {
        None => None,
        Some(config) => config.interface_of(ep),
    }
}

/// The packet of this index that a device took at an endpoint; None past the last, and where there is no such endpoint.
fn packet_at(session: &Session, dev: DeviceNo, ep: EpAddr, i: usize) -> Option<&[u8]>
    ensures there { (setup : Setup) (w : World) (k : ℕ) → ShowsWorld setup session.now.core w → interface_of setup dev ep ≡ Some k → option_copied result ≡ slice_get (w.endpoints dev ep).packets_received i }
    ensures nowhere { (setup : Setup) (w : World) → ShowsWorld setup session.now.core w → interface_of setup dev ep ≡ None → option_copied result ≡ None }
{
    match interface_of(session, dev, ep) {
        None => None,
        Some(_) => session.core.taken(dev, ep, i),
    }
}

/// The packet of this index that a device took at an endpoint: its length, and its bytes, as far as there is room; -1 past the last, and
/// where there is no such endpoint.
pub fn taken(session: &Session, dev: DeviceNo, ep: EpAddr, i: usize, buffer: &mut [u8]) -> i32
    ensures { TellsTaken dev ep i result buffer.old buffer.new session.now }
{
    match packet_at(session, dev, ep, i) {
        None => -1,
        Some(packet) => {
            let _ = fill(buffer, packet);
            answer_of(packet.len())
        }
    }
}

/// What is to be done at an endpoint, without a look at others.
pub fn look(session: &Session, dev: DeviceNo, ep: EpAddr, view: &mut EndpointView)
    ensures { TellsLook dev ep session.now view.new }
{
    let core = &session.core;
    let packet = core.has_packet(dev, ep);
    let order = core.has_order();
    let event = core.has_event();
    let outcome = core.has_result();
    let is_halted = core.is_halted(dev, ep);
    let left = core.answers_left(dev, ep);
    *view = EndpointView::new(packet, order, event, outcome, is_halted, left as u64);
}
