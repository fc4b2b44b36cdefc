//! A transfer in progress is asked to end: `libusb_cancel_transfer`, and its time that is over.

ghost use Rattle.std.specs.Prelude.{◌≡◌, ℕ, Some};
ghost use Rattle.usb_model.specs.declared.step.Step.TheVariants.{Cancel, Expire};
ghost use Rattle.refine_world.specs.Shows.{Core};
ghost use Rattle.usb_model.specs.Setup.{Setup};
ghost use Rattle.refine_core.specs.Payloads.{StillCarries};
ghost use Rattle.refine_core.specs.State.{IsState, Keeps};
ghost use Rattle.refine_core.specs.Steps.{AskedAt, AsksToEnd, CanAsk, DoesCoreStep, InLine};
ghost use Rattle.usb_core.specs.Homes.{HomeIs, is_askable};

use crate::parts::Parts;
use usb_device::Device;
use usb_model::{Ask, DeviceNo, EpAddr, Name, Refused, Reply};
use usb_tables::ask;

/// Where a transfer in progress stands.
#[derive(Clone, Copy, PartialEq, Eq, Debug)]
pub(crate) struct Home {
    /// Its device.
    pub(crate) dev: DeviceNo,
    /// Its endpoint.
    pub(crate) ep: EpAddr,
    /// Its place in the endpoint's line.
    pub(crate) item: usize,
}

impl<P, D: Device> Parts<P, D> {
    /// Asks a transfer to end (libusb 1.0, `libusb_cancel_transfer`). NotFound where the name has no such transfer in
    /// progress, or it was asked before.
    pub fn cancel(&mut self, h: Name, n: u64) -> Reply
        requires { IsState self.old }
        ensures done { DoesCoreStep self.old (Cancel h n) (record { owner = Some h; reply = result }) self.new }
        ensures carries { StillCarries self.old self.new }
    {
        self.ask_to_end(h, n, Ask::Cancel, false)
    }

    /// Asks a transfer to end whose time is over (libusb 1.0, `libusb_transfer`, `timeout`). NotFound as for `cancel`,
    /// and where it has no timeout.
    pub fn expire(&mut self, h: Name, n: u64) -> Reply
        requires { IsState self.old }
        ensures done { DoesCoreStep self.old (Expire h n) (record { owner = Some h; reply = result }) self.new }
        ensures carries { StillCarries self.old self.new }
    {
        self.ask_to_end(h, n, Ask::Time, true)
    }

    /// Either of them; `timed`: only one that has a timeout.
    fn ask_to_end(&mut self, h: Name, n: u64, why: Ask, timed: bool) -> Reply
        requires { IsState self.old }
        ensures done { AsksToEnd self.old self.new h n why timed result }
        ensures carries { StillCarries self.old self.new }
    {
        let Some(home) = self.home(h, n) else {
            return Reply::Refused(Refused::NotFound);
        };
        let (dev, ep, item) = (home.dev, home.ep, home.item);
        if !self.is_askable(dev, ep, item, timed) {
            return Reply::Refused(Refused::NotFound);
        }
        self.ask_at(dev, ep, item, why);
        Reply::Done
    }

    /// The transfer at a place of an endpoint's line is asked to end; Stop is ordered where no errand is outstanding.
    fn ask_at(&mut self, dev: DeviceNo, ep: EpAddr, item: usize, why: Ask)
        requires { CanAsk self.old dev ep item }
        ensures done { AskedAt self.old self.new dev ep item why }
        ensures carries { StillCarries self.old self.new }
    {
        self.flights.ask(dev, ep, item, why);
        if let Some(errand) = ask(self.errand(dev, ep)) {
            self.post(dev, ep, errand);
        }
    }

    /// Whether a transfer wasn't asked to end before; `timed`: and has a timeout.
    pub(crate) fn is_askable(&self, dev: DeviceNo, ep: EpAddr, item: usize, timed: bool) -> bool
        ensures { result ≡ is_askable self.now dev ep item timed }
    {
        match self.flights.get(dev, ep, item) {
            Some(transfer) => {
                transfer.ask.is_none() && !(timed && transfer.request.timeout == 0)
            }
            None => false,
        }
    }

    /// Where the transfer of this number is in progress, at one of the name's endpoints.
    pub(crate) fn home(&self, h: Name, n: u64) -> Option<Home>
        ensures { (setup : Setup) (c : Core) → Keeps setup self.now c → HomeIs setup c h n result }
    {
        let dev = self.claims.device_of(h)?;
        let config = self.claims.config(dev)?;
        for info in config.endpoints() {
            let ep = info.address;
            if let Some(item) = self.item_of(h, n, dev, ep) {
                return Some(Home { dev, ep, item });
            }
        }
        None
    }

    /// Where it stands in an endpoint's line, if the name holds the endpoint.
    fn item_of(&self, h: Name, n: u64, dev: DeviceNo, ep: EpAddr) -> Option<usize>
        ensures { (setup : Setup) (c : Core) → Keeps setup self.now c → InLine setup c h n dev ep result }
    {
        if h.is_its(self.claims.holder(dev, ep)) {
            self.flights.find(dev, ep, n)
        } else {
            None
        }
    }
}
