//! An order at an endpoint (xHCI 1.2, 4.6.8 to 4.6.10).

ghost use Rattle.std.specs.Prelude.{◌≡◌, ◌+◌, ◌≤◌, ◌<◌, length, []};
ghost use Rattle.usb_xhc.specs.Commands.{carried, move_in, reset_in, stop_in, pause_by};
ghost use Rattle.usb_xhc.specs.Posts.{posted_all};
ghost use Rattle.usb_xhc.specs.Transaction.{trb_at};

use crate::context::EndpointContext;
use crate::transaction::post;
use usb_model::EndpointState;
use usb_model::completion::{STOPPED, SUCCESS};
use usb_rings::EventRing;
use usb_trb::{Pointer, TrbKind};

/// A TRB's field is out of its range, or what stands in the command ring is no order (xHCI 1.2, 6.4.5).
pub const TRB_ERROR: u8 = 5;

/// The slot has no such endpoint (xHCI 1.2, 6.4.5).
pub const ENDPOINT_NOT_ENABLED_ERROR: u8 = 12;

/// The endpoint was in another state than the order needs (xHCI 1.2, 6.4.5).
pub const CONTEXT_STATE_ERROR: u8 = 19;

impl EndpointContext {
    /// Carries an order out, and gives the code of its completion. Stop Endpoint tells first, by an event, where the
    /// transfer stands that has moved anything (xHCI 1.2, 4.6.9).
    #[tactic(auto, unfolding(crate::specs::Commands::carried))]
    pub fn carry_out(&mut self, order: TrbKind, events: &mut EventRing) -> u8
        requires { length events.old.waits < 4095 }
        ensures code { result ≡ (carried order self.old).code }
        ensures context { self.new ≡ (carried order self.old).context }
        ensures events { events.new ≡ posted_all 4096 events.old (carried order self.old).events }
        ensures more { length events.new.waits ≤ length events.old.waits + 1 }
    {
        match order {
            TrbKind::StopEndpoint { .. } => self.stop(events),
            TrbKind::ResetEndpoint { .. } => self.reset(),
            TrbKind::SetDequeue { pointer, .. } => self.go_to(pointer),
            _ => TRB_ERROR,
        }
    }

    /// Stop Endpoint (xHCI 1.2, 4.6.9).
    fn stop(&mut self, events: &mut EventRing) -> u8
        requires { length events.old.waits < 4095 }
        ensures code { result ≡ (stop_in self.old self.old.state).code }
        ensures context { self.new ≡ (stop_in self.old self.old.state).context }
        ensures events { events.new ≡ posted_all 4096 events.old (stop_in self.old self.old.state).events }
        ensures more { length events.new.waits ≤ length events.old.waits + 1 }
    {
        if self.state() != EndpointState::Running {
            return CONTEXT_STATE_ERROR;
        }
        self.pause(events);
        self.be_stopped();
        SUCCESS
    }

    /// The event of the transfer at dequeue, where it has moved anything.
    fn pause(&self, events: &mut EventRing)
        requires { length events.old.waits < 4095 }
        ensures pause { events.new ≡ posted_all 4096 events.old (pause_by self.now (trb_at self.now 0)) }
        ensures more { length events.new.waits ≤ length events.old.waits + 1 }
    {
        let Some(first) = self.first() else {
            return;
        };
        if self.is_begun() {
            let standing = self.standing(&first, 0);
            post(events, self.event(&standing, STOPPED));
        }
    }

    /// Reset Endpoint (xHCI 1.2, 4.6.8).
    fn reset(&mut self) -> u8
        ensures code { result ≡ (reset_in self.old self.old.state).code }
        ensures context { self.new ≡ (reset_in self.old self.old.state).context }
        ensures events { [] ≡ (reset_in self.old self.old.state).events }
    {
        if self.state() != EndpointState::Halted {
            return CONTEXT_STATE_ERROR;
        }
        self.be_stopped();
        SUCCESS
    }

    /// Set TR Dequeue Pointer (xHCI 1.2, 4.6.10).
    fn go_to(&mut self, pointer: Pointer) -> u8
        ensures code { result ≡ (move_in self.old pointer self.old.state).code }
        ensures context { self.new ≡ (move_in self.old pointer self.old.state).context }
        ensures events { [] ≡ (move_in self.old pointer self.old.state).events }
    {
        if self.state() != EndpointState::Stopped {
            return CONTEXT_STATE_ERROR;
        }
        if self.set_dequeue(pointer) {
            SUCCESS
        } else {
            TRB_ERROR
        }
    }
}
