//! The oldest event is handled (xHCI 1.2, 4.11.3; libusb 1.0, `libusb_handle_events`).

ghost use Rattle.std.specs.Prelude.{◌≡◌, option_map, slice_get};
ghost use Rattle.usb_model.specs.Completion.{stopped};
ghost use Rattle.usb_tables.specs.declared.target.Reading.TheVariants.{Ended, Paused};
ghost use Rattle.usb_trb.specs.declared.kind.TrbKind.TheVariants.{CommandCompletion, TransferEvent};
ghost use Rattle.usb_model.specs.declared.step.Step.TheVariants.{Deliver};
ghost use Rattle.usb_model.specs.Setup.{Setup};
ghost use Rattle.usb_model.specs.World.{World};
ghost use Rattle.refine_world.specs.Shows.{Core, Shows};
ghost use Rattle.refine_core.specs.Payloads.{StillCarries};
ghost use Rattle.refine_core.specs.State.{IsState, Keeps};
ghost use Rattle.refine_core.specs.Steps.{DoesCoreStep};
ghost use Rattle.refine_core.specs.Deliveries.{Delivers, IsEvent, IsTaken};
ghost use Rattle.usb_core.specs.Reports.{Handles, SomeTold};

use crate::parts::Parts;
use crate::reports::Report;
use usb_device::Device;
use usb_model::{Entry, EpAddr, Reply};
use usb_tables::{Ending, HeldEndpoint, Reading, next_order};
use usb_trb::{EndpointId, Pointer, Residual, Slot, TrbKind};

/// What was handled.
#[derive(Debug, Drop)]
pub struct Delivered {
    /// The entry of the step.
    pub entry: Entry,
    /// The endpoint that the event was of; None where none waited.
    pub ep: Option<EpAddr>,
}

impl<P, D: Device> Parts<P, D> {
    /// The oldest event is handled. Nobody's and Idle where none waits.
    pub fn deliver(&mut self) -> Entry
        requires { IsState self.old }
        ensures done { DoesCoreStep self.old Deliver result self.new }
        ensures carries { StillCarries self.old self.new }
    {
        match self.controller.take_event() {
            Some(event) => self.event(event),
            None => Entry {
                owner: None,
                reply: Reply::Idle,
            },
        }
    }

    /// The same, and the endpoint that the event was of. None where none waits.
    pub fn deliver_at(&mut self) -> Delivered
        requires { IsState self.old }
        ensures done { DoesCoreStep self.old Deliver result.entry self.new }
        ensures carries { StillCarries self.old self.new }
        ensures at { (setup : Setup) (w : World) (c : Core) → Keeps setup self.old c → Shows setup w c → result.ep ≡ option_map (λ x. x.piece.ep) (slice_get w.news 0) }
    {
        match self.controller.take_event() {
            Some(event) => {
                let ep = self.endpoint_of(&event);
                let entry = self.event(event);
                Delivered { entry, ep }
            }
            None => Delivered {
                entry: Entry {
                    owner: None,
                    reply: Reply::Idle,
                },
                ep: None,
            },
        }
    }

    /// The endpoint that an event which was taken is of.
    fn endpoint_of(&self, event: &TrbKind) -> Option<EpAddr>
        ensures { (setup : Setup) (w : World) (c : Core) → IsTaken setup self.now c event.now → Shows setup w c → result ≡ option_map (λ x. x.piece.ep) (slice_get w.news 0) }
    {
        match *event {
            TrbKind::TransferEvent { slot, id, .. } => {
                let at = self.claims.held_at(slot.number(), id.number())?;
                Some(at.ep)
            }
            TrbKind::CommandCompletion { pointer, slot, .. } => {
                let (at, _) = self.sender(pointer, slot)?;
                Some(at.ep)
            }
            _ => None,
        }
    }

    /// An event that was taken is handled.
    fn event(&mut self, event: TrbKind) -> Entry
        requires { IsEvent self.old event }
        ensures done { Delivers self.old event result self.new }
        ensures carries { StillCarries self.old self.new }
    {
        match event {
            TrbKind::TransferEvent {
                pointer,
                residual,
                code,
                slot,
                id,
            } => self.transfer_event(pointer, residual, code, slot, id),
            TrbKind::CommandCompletion {
                pointer,
                code,
                slot,
            } => self.completion(pointer, code, slot),
            _ => unreachable!(),
        }
    }

    /// A Command Completion Event TRB that was taken is handled: the errand of its order ended.
    fn completion(&mut self, pointer: Pointer, code: u8, slot: Slot) -> Entry
        requires { IsEvent self.old (CommandCompletion pointer code slot) }
        ensures done { Delivers self.old (CommandCompletion pointer code slot) result self.new }
        ensures carries { StillCarries self.old self.new }
    {
        let Some((at, errand)) = self.sender(pointer, slot) else {
            unreachable!()
        };
        let owner = Some(at.name);
        let reply = self.settle(at, errand, code);
        Entry { owner, reply }
    }

    /// A Transfer Event TRB that was taken is handled: its transfer stands, or it ended.
    fn transfer_event(
        &mut self,
        pointer: Pointer,
        residual: Residual,
        code: u8,
        slot: Slot,
        id: EndpointId,
    ) -> Entry
        requires { IsEvent self.old (TransferEvent pointer residual code slot id) }
        ensures done { Delivers self.old (TransferEvent pointer residual code slot id) result self.new }
        ensures carries { StillCarries self.old self.new }
    {
        let Some(told) = self.told(pointer, residual, code, slot, id) else {
            unreachable!()
        };
        let Report { at, reading, .. } = told;
        let owner = Some(at.name);
        let reply = match reading {
            Reading::Paused { item, actual } => self.transfer_stands(told, item, actual),
            Reading::Ended {
                item,
                status,
                actual,
            } => self.transfer_ended(told, item, Ending { status, actual }, code),
            Reading::Stray => unreachable!(),
        };
        Entry { owner, reply }
    }

    /// A transfer stands: how much of it moved is kept.
    fn transfer_stands(&mut self, told: Report, item: usize, actual: u32) -> Reply
        requires told { SomeTold self.old stopped told }
        requires stands { told.reading ≡ Paused item actual }
        ensures done { Handles self.old stopped told result self.new }
        ensures carries { StillCarries self.old self.new }
    {
        let Report { at, n, .. } = told;
        self.flights.pause(at.dev, at.ep, item, actual);
        Reply::Paused { n }
    }

    /// A transfer ended. Where its code halted the endpoint, and no errand is outstanding there, Reset is ordered (xHCI
    /// 1.2, 4.8.3).
    fn transfer_ended(&mut self, told: Report, item: usize, ending: Ending, code: u8) -> Reply
        requires told { SomeTold self.old code told }
        requires ended { told.reading ≡ Ended item ending.status ending.actual }
        ensures done { Handles self.old code told result self.new }
        ensures carries { StillCarries self.old self.new }
    {
        let Report { at, n, .. } = told;
        let HeldEndpoint { dev, ep, .. } = at;
        self.finish(at, item, ending, code);
        if let Some(errand) = next_order(self.errand(dev, ep), code) {
            self.post(dev, ep, errand);
        }
        Reply::Finished { n }
    }
}
