//! Why a transfer can't be asked to end.

ghost use Rattle.std.specs.Prelude.{◌≡◌, Some};
ghost use Rattle.std.specs.Option.{option_and_then, option_copied, option_map};
ghost use Rattle.trace_explain.specs.Caller.{machine_of, setup_in};
ghost use Rattle.trace_explain.specs.Refusals.{ask_refusal};
ghost use Rattle.usb_model.specs.Machine.Calls.{home_of};
ghost use Rattle.usb_model.specs.Endpoint.{in_progress};
ghost use Rattle.usb_model.specs.Machine.{device_of};
ghost use Rattle.usb_model.specs.Setup.{endpoints_of};

use crate::caller::Caller;
use reference::calls::in_progress;
use usb_model::{DeviceNo, EndpointInfo, EpAddr, Item, Missing, Refusal};

impl<'a> Caller<'a> {
    /// The transfer of this number, where it is in progress at one of its endpoints.
    fn item_at(&self, dev: DeviceNo, ep: EpAddr, n: u64) -> Option<&Item>
        ensures { let m = machine_of self.now in option_copied result ≡ option_and_then (λ e. in_progress n e.line) (m.endpoints dev ep) }
    {
        let endpoint = self.system.endpoint_of(self.setup, self.name, dev, ep)?;
        in_progress(endpoint, n)
    }

    /// The same among these endpoints: the first is told.
    #[tactic(auto, unfolding(usb_model::specs::Machine::Calls::home_of))]
    fn item_among(&self, dev: DeviceNo, n: u64, infos: &[EndpointInfo]) -> Option<&Item>
        requires { self.now.handle.now.device ≡ Some dev }
        ensures { option_copied result ≡ option_map (λ x. x.item) (home_of (machine_of self.now) n infos.now) }
    {
        match infos {
            [] => None,
            [first, rest @ ..] => match self.item_at(dev, first.address, n) {
                Some(item) => Some(item),
                None => self.item_among(dev, n, rest),
            },
        }
    }

    /// The transfer of this number, where it is in progress.
    fn item(&self, n: u64) -> Option<&Item>
        ensures { let m = machine_of self.now in option_copied result ≡ option_map (λ x. x.item) (home_of m n (endpoints_of (setup_in self.now) (device_of m))) }
    {
        match self.handle.device {
            None => None,
            Some(dev) => self.item_among(dev, n, self.setup.endpoints_of(dev)),
        }
    }

    /// Why a transfer can't be asked to end. `timed`: its time is over.
    #[tactic(auto, unfolding(crate::specs::Refusals::ask_refusal))]
    pub fn ask_refusal(&self, n: u64, timed: bool) -> Option<Refusal>
        ensures { result ≡ ask_refusal (setup_in self.now) (machine_of self.now) n timed }
    {
        let Some(item) = self.item(n) else {
            return Some(Refusal::NotFound(if n < self.handle.next_number {
                Missing::Progress { n }
            } else {
                Missing::Number { n }
            }));
        };
        if item.ask.is_some() {
            Some(Refusal::NotFound(Missing::Ask { n }))
        } else if timed && item.request.timeout == 0 {
            Some(Refusal::NotFound(Missing::Timeout { n }))
        } else {
            None
        }
    }
}
