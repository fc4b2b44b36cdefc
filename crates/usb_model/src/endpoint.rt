//! One endpoint of a device.

ghost use Rattle.std.specs.Prelude.{◌≡◌, ◌==◌, length, IfOk};
ghost use Rattle.usb_model.specs.Endpoint.{fresh};

use crate::errand::Errand;
use crate::item::Item;
use crate::name::{DeviceNo, EpAddr};
use crate::script_left::ScriptLeft;
use crate::sequence::{Bytes, Sequence};
use crate::setup::Setup;
use std::alloc::{AllocError, Global};

/// The state of an endpoint at the controller (xHCI 1.2, 4.8.3).
#[derive(Clone, Copy, PartialEq, Eq, Debug)]
pub enum EndpointState {
    /// Its transfers are given to the device.
    Running,
    /// None is, until its doorbell is rung.
    Stopped,
    /// None is, until it is reset.
    Halted,
}

/// One endpoint: its transfers at the controller, and its device's part.
#[derive(Debug, Drop)]
pub struct Endpoint {
    /// The transfers, in order of submission.
    pub line: Sequence<Item>,
    /// What is left of the device's script.
    pub script_left: ScriptLeft,
    /// Whether the device's endpoint is halted.
    pub device_halted: bool,
    /// The packets that the device took.
    pub packets_received: Sequence<Bytes>,
    /// Its state at the controller.
    pub state: EndpointState,
    /// What is under way about it.
    pub errand: Option<Errand>,
}

impl Endpoint {
    /// An endpoint made new: the device's script begins anew.
    #[tactic(auto, unfolding(crate::specs::Endpoint::fresh))]
    pub fn fresh(
        alloc: Global,
        setup: &Setup,
        dev: DeviceNo,
        ep: EpAddr,
    ) -> Result<Endpoint, AllocError>
        ensures { IfOk result (λ e. e ≡ fresh setup.now dev ep) }
    {
        Ok(Endpoint {
            line: Sequence::new(alloc),
            script_left: ScriptLeft::all_of(setup.script_of(alloc, dev, ep)?),
            device_halted: false,
            packets_received: Sequence::new(alloc),
            state: EndpointState::Running,
            errand: None,
        })
    }

    /// Whether no transfer is in its line.
    pub fn is_empty(&self) -> bool
        ensures { result ≡ (length self.now.line == 0) }
    {
        self.line.is_empty()
    }
}
