//! What the endpoints of a device answered, over its events in order.

ghost use Rattle.std.specs.Prelude.{◌≡◌, ◌++◌, [], IfOk, map};
ghost use Rattle.std.specs.List.{flat_map};
ghost use Rattle.trace_recorded.specs.Endpoints.{with_event};
ghost use Rattle.trace_recorded.specs.Folds.{after};
ghost use Rattle.trace_recorded.specs.Sessions.{asked, count_at, is_special, last_taken, no_session, session_of, special_request, taken_of, takes, with_endpoint, with_request, with_session_event};

use crate::endpoint::{RecordedEndpoint, is_scripted};
use crate::event::{RecordedEvent, RecordedType};
use crate::key::key_of;
use crate::table::ByNumber;
use crate::waits::{Source, TakenCount};
use std::alloc::{AllocError, Global};
use std::mem;
use trace_capture::ControlSetup;
use usb_model::limits::LONGEST_SCRIPT;
use usb_model::{EndpointInfo, Sequence};

/// What the endpoints of a device answered, as far as its events were read.
#[derive(Drop)]
pub(crate) struct RecordedSession {
    /// Its bulk and interrupt endpoints, in the order of the configuration.
    pub(crate) endpoints: Sequence<RecordedEndpoint>,
    /// How many control requests were submitted that aren't standard ones, by the number of a request; a count stays at the largest number
    /// of 64 bits.
    requests: ByNumber<u64>,
    /// The last one of these.
    last: Option<ControlSetup>,
}

/// Whether a request isn't a standard one.
fn is_special(setup: ControlSetup) -> bool
    ensures { result ≡ is_special setup }
{
    setup.request_type / 32 % 4 != 0
}

/// Such a request, where an event is its submission.
fn special_request(event: &RecordedEvent) -> Option<ControlSetup>
    ensures { result ≡ special_request event.now.event_type event.now.setup }
{
    match (event.event_type, event.setup) {
        (RecordedType::Submission, Some(setup)) if is_special(setup) => Some(setup),
        _ => None,
    }
}

/// How many packets an endpoint took, if it is one for OUT; else how many answers of its script it gave.
fn count_at(endpoint: &RecordedEndpoint) -> u64
    ensures { result ≡ count_at endpoint.now }
{
    if endpoint.info.address.is_in() {
        endpoint.count.min(LONGEST_SCRIPT as u64)
    } else {
        endpoint.acknowledged
    }
}

/// Puts behind others what an endpoint took, or gave.
fn push_taken(
    taken: &mut Sequence<TakenCount>,
    endpoint: &RecordedEndpoint,
) -> Result<(), AllocError>
    ensures { IfOk result (λ _. taken.new ≡ taken.old ++ takes endpoint.now) }
{
    let source = Source::Endpoint(endpoint.info.address);
    let count = count_at(endpoint);
    let frame = endpoint.answered;
    taken.push(TakenCount {
        source,
        count,
        frame,
    })
}

/// What endpoints took, or gave.
fn taken_by(
    alloc: Global,
    endpoints: &[RecordedEndpoint],
) -> Result<Sequence<TakenCount>, AllocError>
    ensures { IfOk result (λ taken. taken ≡ flat_map takes endpoints.now) }
{
    let mut taken = Sequence::new(alloc);
    for endpoint in endpoints {
        push_taken(&mut taken, endpoint)?;
    }
    Ok(taken)
}

/// Each endpoint sees an event, before which so much was taken.
fn read_all(
    alloc: Global,
    endpoints: &mut [RecordedEndpoint],
    taken: &[TakenCount],
    event: &RecordedEvent,
) -> Result<(), AllocError>
    ensures { IfOk result (λ _. endpoints.new ≡ map (with_event taken.now event.now) endpoints.old) }
{
    for endpoint in endpoints.iter_mut() {
        endpoint.read(alloc, taken, event)?;
    }
    Ok(())
}

/// Puts an endpoint behind others, if it has a script.
#[tactic(auto, unfolding(crate::specs::Sessions::with_endpoint))]
fn push_endpoint(
    alloc: Global,
    endpoints: &mut Sequence<RecordedEndpoint>,
    info: &EndpointInfo,
) -> Result<(), AllocError>
    ensures { IfOk result (λ _. endpoints.new ≡ with_endpoint info.now endpoints.old) }
{
    if is_scripted(info) {
        endpoints.push(RecordedEndpoint::new(alloc, *info))?;
    }
    Ok(())
}

/// The endpoints that have a script.
fn endpoints_of(
    alloc: Global,
    infos: &[EndpointInfo],
) -> Result<Sequence<RecordedEndpoint>, AllocError>
    ensures { IfOk result (λ endpoints. endpoints ≡ after with_endpoint [] infos.now) }
{
    let mut endpoints = Sequence::new(alloc);
    for info in infos {
        push_endpoint(alloc, &mut endpoints, info)?;
    }
    Ok(endpoints)
}

impl RecordedSession {
    /// Nothing happened yet.
    fn new(alloc: Global, infos: &[EndpointInfo]) -> Result<RecordedSession, AllocError>
        ensures { IfOk result (λ s. s ≡ no_session infos.now) }
    {
        Ok(RecordedSession {
            endpoints: endpoints_of(alloc, infos)?,
            requests: ByNumber::new(alloc),
            last: None,
        })
    }

    /// Puts behind others the last request, by how many like it there were, if there was one.
    fn push_last(&self, taken: &mut Sequence<TakenCount>) -> Result<(), AllocError>
        ensures { IfOk result (λ _. taken.new ≡ taken.old ++ last_taken self.now) }
    {
        match self.last {
            Some(setup) => taken.push(TakenCount {
                source: Source::Requests(setup),
                count: self.asked(setup),
                frame: 0,
            }),
            None => Ok(()),
        }
    }

    /// What was taken so far.
    fn taken(&self, alloc: Global) -> Result<Sequence<TakenCount>, AllocError>
        ensures { IfOk result (λ taken. taken ≡ taken_of self.now) }
    {
        let mut taken = taken_by(alloc, self.endpoints.as_slice())?;
        self.push_last(&mut taken)?;
        Ok(taken)
    }

    /// How many requests like this were submitted.
    fn asked(&self, setup: ControlSetup) -> u64
        ensures { result ≡ asked setup self.now }
    {
        match self.requests.get(key_of(setup)) {
            Some(count) => *count,
            None => 0,
        }
    }

    /// A request was submitted that isn't a standard one.
    fn count_request(&mut self, setup: ControlSetup) -> Result<(), AllocError>
        ensures { IfOk result (λ _. self.new ≡ with_request setup self.old) }
    {
        let key = key_of(setup);
        let count = self.asked(setup).saturating_add(1);
        let _ = self.requests.take(key);
        self.requests.put(key, count)?;
        self.last = Some(setup);
        Ok(())
    }

    /// An event more.
    #[tactic(auto, unfolding(crate::specs::Sessions::with_session_event))]
    fn read(&mut self, alloc: Global, event: &RecordedEvent) -> Result<(), AllocError>
        ensures { IfOk result (λ _. self.new ≡ with_session_event event.now self.old) }
    {
        let taken = self.taken(alloc)?;
        let mut endpoints = mem::replace(&mut self.endpoints, Sequence::new(alloc)).into_vec();
        read_all(alloc, &mut endpoints, taken.as_slice(), event)?;
        self.endpoints = Sequence::from_vec(endpoints);
        match special_request(event) {
            Some(setup) => self.count_request(setup),
            None => Ok(()),
        }
    }
}

/// What the endpoints of a configuration answered, by their device's events.
pub(crate) fn session_of(
    alloc: Global,
    infos: &[EndpointInfo],
    events: &[RecordedEvent],
) -> Result<RecordedSession, AllocError>
    ensures { IfOk result (λ s. s ≡ session_of infos.now events.now) }
{
    let mut session = RecordedSession::new(alloc, infos)?;
    for event in events {
        session.read(alloc, event)?;
    }
    Ok(session)
}
