//! What is under way at the endpoints of a handle.

ghost use Rattle.std.specs.Prelude.{◌≡◌, ◌==◌, ◌&&◌, true, false, not, MatchOption, Some};
ghost use Rattle.std.specs.List.{count_by, find};
ghost use Rattle.std.specs.Option.{option_copied, option_map};
ghost use Rattle.reference.specs.System.{is_chosen};
ghost use Rattle.trace_explain.specs.Caller.{machine_of, setup_in};
ghost use Rattle.usb_model.specs.Machine.Calls.{busy_at, first_in_progress, quiet_facts};
ghost use Rattle.usb_model.specs.Refusals.{in_way};
ghost use Rattle.usb_model.specs.Setup.{endpoints_of};
ghost use Rattle.usb_model.specs.Machine.{is_callback_at, is_quiet, is_result_at};
ghost use Rattle.usb_model.specs.World.Shared.{pieces_of};

use crate::caller::Caller;
use reference::Call;
use usb_model::{
    DeviceNo, EndpointInfo, EpAddr, InCallback, Item, Name, Obstacle, Tagged, TransferResult,
};

/// The first transfer in progress in a line.
#[tactic(auto, unfolding(usb_model::specs::Machine::Calls::first_in_progress))]
pub(crate) fn first_in_progress(line: &[Item]) -> Option<u64>
    ensures { result ≡ first_in_progress line.now }
{
    match line {
        [] => None,
        [first, rest @ ..] if first.is_blank() => first_in_progress(rest),
        [first, ..] => Some(first.n),
    }
}

/// What is in the way in a line that isn't empty.
pub(crate) fn in_way(ep: EpAddr, first: Option<u64>, errand: bool) -> Obstacle
    ensures { result ≡ in_way ep first errand }
{
    match first {
        Some(n) => Obstacle::Waits { n, ep },
        None if errand => Obstacle::Order { ep },
        None => Obstacle::Blank { ep },
    }
}

/// The first of these results that is the name's, of this endpoint.
fn result_at(
    results: &[Tagged<TransferResult>],
    h: Name,
    ep: EpAddr,
) -> Option<&Tagged<TransferResult>>
    ensures { option_copied result ≡ find (λ x. (x.name == h) && is_result_at ep x.piece) results.now }
{
    results.iter().find(|x| x.is_at(h, ep))
}

/// How many of these results are the name's, of this endpoint.
pub(crate) fn results_at(results: &[Tagged<TransferResult>], h: Name, ep: EpAddr) -> usize
    ensures { result ≡ count_by (is_result_at ep) (pieces_of h results.now) }
{
    results.iter().filter(|x| x.is_at(h, ep)).count()
}

/// The number of the first of the name's results of this endpoint.
#[tactic(auto, using(crate::proofs::Named::first_of_name))]
fn untaken(results: &[Tagged<TransferResult>], h: Name, ep: EpAddr) -> Option<u64>
    ensures { result ≡ option_map (λ x. x.n) (find (is_result_at ep) (pieces_of h results.now)) }
{
    Some(result_at(results, h, ep)?.piece.n)
}

/// The number of the first transfer of this endpoint in its callback.
fn called(ep: EpAddr, callbacks: &[InCallback]) -> Option<u64>
    ensures { result ≡ option_map (λ x. x.n) (find (is_callback_at ep) callbacks.now) }
{
    Some(callbacks.iter().find(|x| x.request.ep == ep)?.n)
}

/// Whether an endpoint belongs to this interface, or to any.
fn is_chosen(only: Option<u8>, info: &EndpointInfo) -> bool
    ensures { result ≡ is_chosen only info.now }
{
    match only {
        None => true,
        Some(i) => info.interface == i,
    }
}

impl<'a> Caller<'a> {
    /// What isn't quiet at an endpoint.
    fn busy_at(&self, dev: DeviceNo, ep: EpAddr) -> Obstacle
        ensures { let m = machine_of self.now in result ≡ busy_at m ep (m.endpoints dev ep) }
    {
        let (h, system) = (self.name, self.system);
        let Some(endpoint) = system.endpoint_of(self.setup, h, dev, ep) else {
            return Obstacle::Numbers;
        };
        let line = endpoint.line.as_slice();
        if !line.is_empty() {
            return in_way(ep, first_in_progress(line), endpoint.errand.is_some());
        }
        if endpoint.errand.is_some() {
            return Obstacle::Order { ep };
        }
        if let Some(n) = untaken(system.results.as_slice(), h, ep) {
            return Obstacle::Result { n, ep };
        }
        match called(ep, self.handle.in_callbacks.as_slice()) {
            Some(n) => Obstacle::Callback { n, ep },
            None => Obstacle::Numbers,
        }
    }

    /// Whether an endpoint is meant, and isn't quiet.
    fn is_unquiet(&self, dev: DeviceNo, only: Option<u8>, info: &EndpointInfo) -> bool
        ensures { let m = machine_of self.now in result ≡ (is_chosen only info.now && not (is_quiet m info.now.address (m.endpoints dev info.now.address))) }
    {
        let call = Call {
            setup: self.setup,
            system: self.system,
            name: self.name,
        };
        is_chosen(only, info) && !call.is_quiet(self.handle, dev, info.address)
    }

    /// The first of its endpoints, or of those of one interface, that isn't quiet.
    fn first_unquiet(&self, dev: DeviceNo, only: Option<u8>) -> Option<&EndpointInfo>
        ensures { let m = machine_of self.now in option_copied result ≡ find (λ x. is_chosen only x && not (is_quiet m x.address (m.endpoints dev x.address))) (endpoints_of (setup_in self.now) dev) }
    {
        let mut infos = self.setup.endpoints_of(dev).iter();
        infos.find(|info| self.is_unquiet(dev, only, info))
    }

    /// What isn't quiet there; None where all is.
    pub fn unquiet(&self, dev: DeviceNo, only: Option<u8>) -> Option<Obstacle>
        requires { self.now.handle.now.device ≡ Some dev }
        ensures { let q = quiet_facts (setup_in self.now) (machine_of self.now) (is_chosen only) in MatchOption result (q.quiet ≡ true) (λ o. (q.quiet ≡ false) × (o ≡ q.obstacle)) }
    {
        match self.first_unquiet(dev, only) {
            None => None,
            Some(info) => Some(self.busy_at(dev, info.address)),
        }
    }
}
