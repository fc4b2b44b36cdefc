//! The parts.

use std::alloc::Global;
use std::marker::Model;
use usb_device::Device;
use usb_tables::{Claims, HandleStates, Outstanding, TransfersInFlight};
use usb_xhc::Controller;

/// Who holds what; the controller with its devices and rings; the transfers in flight; what is kept of each handle; the
/// errands that are outstanding; and where memory is taken from. Contracts see a record of all but that, and say of it
/// which world it shows.
#[derive(Drop)]
pub struct Parts<P, D: Device> {
    pub(crate) claims: Claims,
    pub(crate) controller: Controller<D>,
    pub(crate) flights: TransfersInFlight<P>,
    pub(crate) callers: HandleStates,
    pub(crate) outstanding: Outstanding,
    pub(crate) alloc: Global,
}

impl<P, D: Device> Model for Parts<P, D> {
    ghost use Rattle.refine_core.specs.State.{State};

    ghost Value = { State P };

    ghost view = { λ p. record { claims = p.claims; controller = p.controller; flights = p.flights; callers = p.callers; outstanding = p.outstanding } };
}
