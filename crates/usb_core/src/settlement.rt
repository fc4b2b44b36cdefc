//! The end of an errand is told: transfers that were asked to end are withdrawn, and the endpoint goes on or the next errand
//! is ordered (xHCI 1.2, 4.6.8 to 4.6.10).

ghost use Rattle.std.specs.Prelude.{◌≡◌, ℕ, Some, None, true, false};
ghost use Rattle.usb_model.specs.declared.errand.Errand.{Errand};
ghost use Rattle.usb_tables.specs.TransfersInFlight.{item_at};
ghost use Rattle.refine_core.specs.Payloads.{StillCarries};
ghost use Rattle.refine_core.specs.Deliveries.{CanLeave, CanSettle, IsCompletion, Settled, WithdrawsAll, asked_ending};
ghost use Rattle.refine_core.specs.Steps.{CanPost};
ghost use Rattle.refine_core.specs.Works.{Leaves, Posts, Resumes, Withdraws};

use crate::parts::Parts;
use usb_device::Device;
use usb_model::completion::{STOPPED, SUCCESS};
use usb_model::{DeviceNo, EpAddr, Errand, Name, Reply};
use usb_tables::{Ending, HeldEndpoint, result, settle};

impl<P, D: Device> Parts<P, D> {
    /// The errand that was outstanding at an endpoint ended with this code.
    pub(crate) fn settle(&mut self, at: HeldEndpoint, errand: Errand, code: u8) -> Reply
        requires { IsCompletion self.old at.name at.dev at.ep errand code }
        ensures done { Settled self.old at.name at.dev at.ep errand code result self.new }
        ensures carries { StillCarries self.old self.new }
    {
        let HeldEndpoint { dev, ep, name } = at;
        let ok = code == SUCCESS;
        let marks = self.flights.marks(dev, ep);
        let settlement = settle(errand, ok, marks.as_slice());
        self.leave(dev, ep, settlement.leave);
        self.withdraw_if(settlement.withdraw, name, dev, ep);
        self.go_on(dev, ep, settlement.next);
        Reply::Settled { ep, errand, ok }
    }

    /// Blanks leave the front of an endpoint's line.
    fn leave(&mut self, dev: DeviceNo, ep: EpAddr, count: usize)
        requires { CanLeave self.old dev ep count }
        ensures done { (h : ℕ) → Leaves self.old self.new h dev ep count }
        ensures carries { StillCarries self.old self.new }
    {
        self.flights.leave(dev, ep, count);
        self.controller.drop_front(dev, ep, count);
    }

    /// The transfers of an endpoint that were asked to end are withdrawn, if they are to be.
    fn withdraw_if(&mut self, withdraw: bool, name: Name, dev: DeviceNo, ep: EpAddr)
        requires { CanSettle self.old name dev ep }
        ensures all { withdraw ≡ true → WithdrawsAll self.old self.new name dev ep }
        ensures none { withdraw ≡ false → self.new ≡ self.old }
        ensures settle { CanSettle self.new name dev ep }
        ensures carries { StillCarries self.old self.new }
    {
        if withdraw {
            self.withdraw_asked(name, dev, ep);
        }
    }

    /// The transfers of an endpoint that were asked to end are withdrawn, in their order.
    fn withdraw_asked(&mut self, name: Name, dev: DeviceNo, ep: EpAddr)
        requires { CanSettle self.old name dev ep }
        ensures all { WithdrawsAll self.old self.new name dev ep }
        ensures settle { CanSettle self.new name dev ep }
        ensures carries { StillCarries self.old self.new }
    {
        let len = self.flights.len(dev, ep);
        for item in 0..len {
            if let Some(ending) = self.withdrawal(dev, ep, item) {
                self.withdraw(name, dev, ep, item, ending);
            }
        }
    }

    /// What comes of the transfer of an item that is withdrawn; None where it wasn't asked to end.
    #[tactic(auto, unfolding(usb_model::specs::Endpoint::Status::told_status))]
    fn withdrawal(&self, dev: DeviceNo, ep: EpAddr, item: usize) -> Option<Ending>
        ensures { result ≡ asked_ending (item_at self.now.flights dev ep item) }
    {
        let transfer = self.flights.get(dev, ep, item)?;
        if transfer.ask.is_none() {
            return None;
        }
        let request = &transfer.request;
        let actual = transfer.moved;
        let status = result(
            STOPPED,
            transfer.ask,
            request.flags,
            request.body.length(),
            actual,
        );
        Some(Ending { status, actual })
    }

    /// A transfer is withdrawn: its result is made, and it is a blank.
    fn withdraw(&mut self, name: Name, dev: DeviceNo, ep: EpAddr, item: usize, ending: Ending)
        requires settle { CanSettle self.old name dev ep }
        requires asked { Some ending ≡ asked_ending (item_at self.old.flights dev ep item) }
        ensures withdrawn { Withdraws self.old self.new name dev ep item ending }
        ensures settle { CanSettle self.new name dev ep }
        ensures carries { StillCarries self.old self.new }
    {
        self.flights.end(dev, ep, item, ending);
        self.callers.result_made(name, ep);
        self.controller.blank(dev, ep, item);
    }

    /// This errand is ordered at an endpoint; or where there is none, the endpoint goes on.
    fn go_on(&mut self, dev: DeviceNo, ep: EpAddr, next: Option<Errand>)
        requires { CanPost self.old dev ep }
        ensures ordered { (h : ℕ) (errand : Errand) → next ≡ Some errand → Posts self.old self.new h dev ep errand }
        ensures resumed { (h : ℕ) → next ≡ None → Resumes self.old self.new h dev ep }
        ensures carries { StillCarries self.old self.new }
    {
        match next {
            Some(errand) => self.post(dev, ep, errand),
            None => self.resume(dev, ep),
        }
    }

    /// No errand is outstanding at an endpoint, and its doorbell is rung.
    fn resume(&mut self, dev: DeviceNo, ep: EpAddr)
        requires { CanPost self.old dev ep }
        ensures done { (h : ℕ) → Resumes self.old self.new h dev ep }
        ensures carries { StillCarries self.old self.new }
    {
        if let Some(context) = self.context(dev, ep) {
            let (slot, id) = (context.slot(), context.id());
            self.controller.ring_doorbell(slot, id);
            self.outstanding.set(dev, ep, None);
        }
    }
}
