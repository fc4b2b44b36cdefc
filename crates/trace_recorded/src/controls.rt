//! What the control transfers of a recorded device say.

ghost use Rattle.std.specs.Prelude.{◌≡◌, IfOk};
ghost use Rattle.trace_recorded.specs.Controls.{controls_of, no_controls, with_callback, with_control, with_end, with_read, with_submission, with_success};

use crate::configuration::Configurations;
use crate::event::{RecordedEvent, RecordedType};
use crate::identity::DeviceIdentity;
use crate::request::{AnsweredRequests, RecordedRequest};
use crate::submission::copied;
use crate::table::ByNumber;
use std::alloc::{AllocError, Global};
use trace_capture::ControlSetup;
use usb_model::Kind;

/// What a device's control transfers say.
#[derive(Drop)]
pub(crate) struct Controls {
    /// The requests in flight, by their ids.
    waiting: ByNumber<RecordedRequest>,
    /// Its configurations.
    pub(crate) configurations: Configurations,
    /// Who it says that it is.
    pub(crate) identity: DeviceIdentity,
    /// The requests that its driver made.
    pub(crate) requests: AnsweredRequests,
}

impl Controls {
    /// Nothing happened yet.
    fn new(alloc: Global) -> Controls
        ensures { result ≡ no_controls }
    {
        Controls {
            waiting: ByNumber::new(alloc),
            configurations: Configurations::new(alloc),
            identity: DeviceIdentity::new(alloc),
            requests: AnsweredRequests::new(alloc),
        }
    }

    /// A request succeeded, with these bytes.
    fn succeed(
        &mut self,
        alloc: Global,
        setup: ControlSetup,
        bytes: &[u8],
    ) -> Result<(), AllocError>
        ensures { IfOk result (λ _. self.new ≡ with_success setup bytes.now self.old) }
    {
        self.configurations.answer(alloc, setup, bytes)?;
        self.identity.answer(alloc, setup, bytes)
    }

    /// What a request read counts where its status is 0.
    fn take_read(
        &mut self,
        alloc: Global,
        setup: ControlSetup,
        event: &RecordedEvent,
    ) -> Result<(), AllocError>
        ensures { IfOk result (λ _. self.new ≡ with_read setup event.now self.old) }
    {
        if event.status != 0 {
            return Ok(());
        }
        self.succeed(alloc, setup, event.bytes.as_slice())
    }

    /// A request was called back.
    fn call_back(
        &mut self,
        alloc: Global,
        request: RecordedRequest,
        event: &RecordedEvent,
    ) -> Result<(), AllocError>
        ensures { IfOk result (λ _. self.new ≡ with_callback request event.now self.old) }
    {
        let setup = request.setup;
        self.requests.end(alloc, request, event)?;
        self.take_read(alloc, setup, event)
    }

    /// The same, where its submission was recorded.
    fn end(
        &mut self,
        alloc: Global,
        request: Option<RecordedRequest>,
        event: &RecordedEvent,
    ) -> Result<(), AllocError>
        ensures { IfOk result (λ _. self.new ≡ with_end request event.now self.old) }
    {
        match request {
            Some(request) => self.call_back(alloc, request, event),
            None => Ok(()),
        }
    }

    /// A request was submitted.
    fn submit(&mut self, alloc: Global, event: &RecordedEvent) -> Result<(), AllocError>
        ensures { IfOk result (λ _. self.new ≡ with_submission event.now.setup event.now self.old) }
    {
        match event.setup {
            Some(setup) => {
                let bytes = copied(alloc, event.bytes.as_slice())?;
                self.waiting.put(event.id, RecordedRequest { setup, bytes })
            }
            None => {
                let _ = self.waiting.take(event.id);
                Ok(())
            }
        }
    }

    /// One event more.
    #[tactic(auto, unfolding(crate::specs::Controls::with_control))]
    fn read(&mut self, alloc: Global, event: &RecordedEvent) -> Result<(), AllocError>
        ensures { IfOk result (λ _. self.new ≡ with_control event.now self.old) }
    {
        if !event.kind.is_same(Kind::Control) {
            return Ok(());
        }
        match event.event_type {
            RecordedType::Submission => self.submit(alloc, event),
            RecordedType::Callback => {
                let request = self.waiting.take(event.id);
                self.end(alloc, request, event)
            }
            RecordedType::SubmissionError => {
                let _ = self.waiting.take(event.id);
                Ok(())
            }
        }
    }
}

/// What the control transfers among events say.
pub(crate) fn read_controls(alloc: Global, events: &[RecordedEvent]) -> Result<Controls, AllocError>
    ensures { IfOk result (λ controls. controls ≡ controls_of events.now) }
{
    let mut controls = Controls::new(alloc);
    for event in events {
        controls.read(alloc, event)?;
    }
    Ok(controls)
}
