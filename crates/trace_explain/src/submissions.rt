//! Why the end of a halt, or a submission, is refused at an endpoint.

ghost use Rattle.std.specs.Prelude.{◌≡◌, not, MatchOption, None, Some};
ghost use Rattle.std.specs.List.{count_by};
ghost use Rattle.trace_explain.specs.Caller.{machine_of, setup_in};
ghost use Rattle.trace_explain.specs.Refusals.{answer_refusal, clear_refusal, submit_refusal};
ghost use Rattle.usb_model.specs.Machine.{device_of, endpoint_at};
ghost use Rattle.usb_model.specs.Machine.Calls.{caller_facts, endpoint_facts, in_progress_count};
ghost use Rattle.usb_model.specs.Refusals.{absence};
ghost use Rattle.usb_model.specs.Setup.{interface_of, kind_of};

use crate::caller::Caller;
use crate::quiet::{first_in_progress, results_at};
use crate::tests_of_calls::{clear_refusal, facts_with, request_facts, submit_refusal};
use reference::callback::callback_of;
use usb_model::{
    DeviceNo, Endpoint, EndpointFacts, EpAddr, Item, Missing, Refusal, RequestFacts, Verdict,
};

/// How many transfers of a line are in progress.
fn in_progress_count(line: &[Item]) -> usize
    ensures { result ≡ in_progress_count line.now }
{
    line.iter().filter(|item| !item.is_blank()).count()
}

impl<'a> Caller<'a> {
    /// Why it has no endpoint of this address.
    fn absence(&self, ep: EpAddr) -> Refusal
        ensures { let m = machine_of self.now in result ≡ absence (caller_facts m) ep (interface_of (setup_in self.now) (device_of m) ep) }
    {
        let Some(dev) = self.handle.device else {
            return Refusal::NotFound(Missing::Open);
        };
        Refusal::NotFound(match self.setup.interface_of(dev, ep) {
            None => Missing::Endpoint { dev, ep },
            Some(i) => Missing::ClaimFor { i, ep },
        })
    }

    /// Its endpoint of this address, with its device.
    pub fn own(&self, ep: EpAddr) -> Option<(DeviceNo, &Endpoint)>
        ensures { let m = machine_of self.now in MatchOption result (endpoint_at m ep ≡ None) (λ x. (m.handle.device ≡ Some x.0) × (endpoint_at m ep ≡ Some x.1.now)) }
    {
        let dev = self.handle.device?;
        let endpoint = self.system.endpoint_of(self.setup, self.name, dev, ep)?;
        Some((dev, endpoint))
    }

    /// What the tests look at of an endpoint of its own.
    fn facts_at(&self, dev: DeviceNo, ep: EpAddr, endpoint: &Endpoint) -> EndpointFacts
        ensures { result ≡ endpoint_facts ep (kind_of (setup_in self.now) dev ep) (machine_of self.now) endpoint.now }
    {
        let line = endpoint.line.as_slice();
        EndpointFacts {
            ep,
            kind: self.setup.kind_of(dev, ep),
            line: line.len(),
            first: first_in_progress(line),
            waiting: in_progress_count(line),
            errand: endpoint.errand.is_some(),
            untaken: results_at(self.system.results.as_slice(), self.name, ep),
        }
    }

    /// Why it can't end a halt.
    #[tactic(auto, unfolding(crate::specs::Refusals::clear_refusal))]
    pub fn clear_refusal(&self, ep: EpAddr) -> Option<Refusal>
        ensures { result ≡ clear_refusal (setup_in self.now) (machine_of self.now) ep }
    {
        let Some((dev, endpoint)) = self.own(ep) else {
            return Some(self.absence(ep));
        };
        let gone = self.system.is_gone(dev);
        clear_refusal(dev, gone, self.facts_at(dev, ep, endpoint))
    }

    /// Why it can't submit a request like this at an endpoint.
    #[tactic(auto, unfolding(crate::specs::Refusals::submit_refusal))]
    pub fn submit_refusal(&self, ep: EpAddr, request: RequestFacts) -> Option<Refusal>
        ensures { result ≡ submit_refusal (setup_in self.now) (machine_of self.now) ep request }
    {
        let Some((dev, endpoint)) = self.own(ep) else {
            return Some(self.absence(ep));
        };
        let gone = self.system.is_gone(dev);
        let next = self.handle.next_number;
        submit_refusal(dev, gone, self.facts_at(dev, ep, endpoint), request, next)
    }

    /// Why the verdict of a callback is refused.
    #[tactic(auto, unfolding(crate::specs::Refusals::answer_refusal))]
    pub fn answer_refusal(&self, n: u64, verdict: &Verdict) -> Option<Refusal>
        ensures { result ≡ answer_refusal (setup_in self.now) (machine_of self.now) n verdict.now }
    {
        let Some(x) = callback_of(self.handle, n) else {
            return Some(Refusal::NotFound(Missing::Callback { n }));
        };
        let ep = x.request.ep;
        match verdict {
            Verdict::Stop => None,
            Verdict::Again => self.submit_refusal(ep, request_facts(&x.request)),
            Verdict::AgainWith(bytes) => self.submit_refusal(ep, facts_with(&x.request, bytes)),
        }
    }
}
