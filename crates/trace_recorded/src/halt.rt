//! Requests that end the halt of an endpoint (USB 2.0, 9.4.5).

ghost use Rattle.std.specs.Prelude.{◌≡◌};
ghost use Rattle.trace_recorded.specs.Endpoints.{clears_halt, configures, ends_halt, ends_halt_by, sets_interface};

use crate::event::{RecordedEvent, RecordedType};
use trace_capture::ControlSetup;
use usb_model::EndpointInfo;

/// CLEAR_FEATURE of ENDPOINT_HALT at this endpoint (USB 2.0, 9.4.1).
fn clears_halt(info: &EndpointInfo, setup: ControlSetup) -> bool
    ensures { result ≡ clears_halt info.now setup }
{
    setup.request_type == 2
        && setup.request == 1
        && setup.value == 0
        && setup.index % 256 == u16::from(info.address.address())
}

/// SET_INTERFACE of its interface (USB 2.0, 9.4.10).
fn sets_interface(info: &EndpointInfo, setup: ControlSetup) -> bool
    ensures { result ≡ sets_interface info.now setup }
{
    setup.request_type == 1 && setup.request == 11 && setup.index % 256 == u16::from(info.interface)
}

/// SET_CONFIGURATION (USB 2.0, 9.4.7).
fn configures(setup: ControlSetup) -> bool
    ensures { result ≡ configures setup }
{
    setup.request_type == 0 && setup.request == 9
}

/// Whether a request ends the halt of this endpoint.
fn ends_halt(info: &EndpointInfo, setup: ControlSetup) -> bool
    ensures { result ≡ ends_halt info.now setup }
{
    clears_halt(info, setup) || sets_interface(info, setup) || configures(setup)
}

/// Whether an event is the submission of such a request.
pub(crate) fn submits_end(info: &EndpointInfo, event: &RecordedEvent) -> bool
    ensures { result ≡ ends_halt_by event.now.event_type info.now event.now.setup }
{
    match (event.event_type, event.setup) {
        (RecordedType::Submission, Some(setup)) => ends_halt(info, setup),
        _ => false,
    }
}
