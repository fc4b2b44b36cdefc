//! The devices of a recording.

ghost use Rattle.std.specs.Prelude.{◌≡◌, IfOk};
ghost use Rattle.trace_recorded.specs.Devices.{by_device, device_key, device_of, device_with, has_answers, has_script, is_callback, is_other, is_told, others_of, with_answers_only, with_device_event, with_other};

use crate::control_lines::{ControlLines, control_lines};
use crate::controls::{Controls, read_controls};
use crate::endpoint::{RecordedEndpoint, is_own, is_scripted};
use crate::event::{RecordedEvent, RecordedType};
use crate::hub::is_hub;
use crate::identity::DeviceIdentity;
use crate::left_out::LeftOut;
use crate::note::Noted;
use crate::request::AnsweredRequests;
use crate::session::session_of;
use crate::table::ByNumber;
use std::alloc::{AllocError, Global};
use trace_faults::TextReader;
use usb_descriptors::read_config;
use usb_model::{Bytes, EndpointInfo, EpAddr, Kind, Sequence};

/// What a device answered.
#[derive(Drop)]
pub(crate) struct RecordedDevice {
    /// Its configuration descriptor, with those behind it.
    pub(crate) descriptor: Bytes,
    /// Who it says that it is.
    pub(crate) identity: DeviceIdentity,
    /// Its answers to control requests.
    pub(crate) controls: ControlLines,
    /// How many bytes of these weren't recorded.
    pub(crate) lost: Noted,
    /// How many control requests were too large for an answer.
    pub(crate) left_out: Noted,
    /// Its bulk and interrupt endpoints, in the order of the configuration.
    pub(crate) endpoints: Sequence<RecordedEndpoint>,
    /// The transfers that aren't of these, nor for control, in the order of their callbacks.
    pub(crate) others: Sequence<OtherTransfer>,
}

/// A transfer of an endpoint without a script.
#[derive(Clone, Copy)]
pub(crate) struct OtherTransfer {
    /// The endpoint.
    pub(crate) ep: EpAddr,
    /// The packet of the capture that has its callback.
    pub(crate) frame: u64,
}

impl RecordedEvent {
    /// Its device's number in a table.
    fn device_key(&self) -> u64
        ensures { result ≡ device_key self.now }
    {
        let (bus, device) = (self.bus, self.device);
        256 * u64::from(bus) + u64::from(device)
    }
}

/// Puts an event behind those of its device.
#[tactic(auto, unfolding(crate::specs::Devices::with_device_event))]
fn put_event(
    alloc: Global,
    devices: &mut ByNumber<Sequence<RecordedEvent>>,
    event: RecordedEvent,
) -> Result<(), AllocError>
    ensures { IfOk result (λ _. devices.new ≡ with_device_event event devices.old) }
{
    let key = event.device_key();
    let mut events = match devices.take(key) {
        Some(events) => events,
        None => Sequence::new(alloc),
    };
    events.push(event)?;
    devices.put(key, events)
}

/// The events of each device, by rising bus and address.
pub(crate) fn by_device(
    alloc: Global,
    events: Sequence<RecordedEvent>,
) -> Result<ByNumber<Sequence<RecordedEvent>>, AllocError>
    ensures { IfOk result (λ devices. devices ≡ by_device events) }
{
    let mut devices = ByNumber::new(alloc);
    for event in events.into_vec() {
        put_event(alloc, &mut devices, event)?;
    }
    Ok(devices)
}

/// Whether an event is of a transfer of an endpoint with a script.
fn has_script(infos: &[EndpointInfo], event: &RecordedEvent) -> bool
    ensures { result ≡ has_script infos.now event.now }
{
    infos
        .iter()
        .any(|info| is_scripted(info) && is_own(info, event))
}

/// Whether an event is the callback of a transfer of no such endpoint, and of none for control.
fn is_other(infos: &[EndpointInfo], event: &RecordedEvent) -> bool
    ensures { result ≡ is_other infos.now event.now }
{
    let is_callback = matches!(event.event_type, RecordedType::Callback);
    is_callback && !event.kind.is_same(Kind::Control) && !has_script(infos, event)
}

/// Those among events.
fn others_of(
    alloc: Global,
    infos: &[EndpointInfo],
    events: &[RecordedEvent],
) -> Result<Sequence<OtherTransfer>, AllocError>
    ensures { IfOk result (λ others. others ≡ others_of infos.now events.now) }
{
    let mut others = Sequence::new(alloc);
    for event in events {
        push_other(&mut others, infos, event)?;
    }
    Ok(others)
}

/// One, behind the others.
fn push_other(
    others: &mut Sequence<OtherTransfer>,
    infos: &[EndpointInfo],
    event: &RecordedEvent,
) -> Result<(), AllocError>
    ensures { IfOk result (λ _. others.new ≡ with_other infos.now event.now others.old) }
{
    if is_other(infos, event) {
        others.push(OtherTransfer {
            ep: event.ep,
            frame: event.frame,
        })?;
    }
    Ok(())
}

impl RecordedDevice {
    /// Whether a bulk or interrupt endpoint answered.
    fn has_answers(&self) -> bool
        ensures { result ≡ has_answers self.now.endpoints }
    {
        self.endpoints
            .as_slice()
            .iter()
            .any(|endpoint| !endpoint.answers.is_empty())
    }

    /// Whether something is said of what it answered.
    fn is_told(&self, reader: TextReader) -> bool
        ensures { result ≡ is_told reader self.now }
    {
        match reader {
            TextReader::Library => self.has_answers() || !self.controls.firsts.is_empty(),
            TextReader::Scenario => self.has_answers(),
        }
    }

    /// The device, where something answered.
    fn with_answers(self, reader: TextReader) -> Result<RecordedDevice, LeftOut>
        ensures { result ≡ with_answers_only reader self }
    {
        if self.is_told(reader) {
            Ok(self)
        } else {
            Err(LeftOut::NoAnswers)
        }
    }
}

/// What a device with this configuration answered.
fn device_with(
    alloc: Global,
    descriptor: Bytes,
    infos: &[EndpointInfo],
    controls: Controls,
    events: &[RecordedEvent],
) -> Result<RecordedDevice, AllocError>
    ensures { IfOk result (λ device. device ≡ device_with descriptor infos.now controls events.now) }
{
    let Controls {
        identity,
        requests,
        ..
    } = controls;
    let AnsweredRequests {
        answered,
        lost,
        left_out,
    } = requests;
    Ok(RecordedDevice {
        descriptor,
        identity,
        controls: control_lines(alloc, answered)?,
        lost,
        left_out,
        endpoints: session_of(alloc, infos, events)?.endpoints,
        others: others_of(alloc, infos, events)?,
    })
}

/// What a device with these events answered, or why it is left out.
#[tactic(auto, unfolding(crate::specs::Devices::device_of))]
pub(crate) fn device_of(
    alloc: Global,
    reader: TextReader,
    events: &[RecordedEvent],
) -> Result<Result<RecordedDevice, LeftOut>, AllocError>
    ensures { IfOk result (λ device. device ≡ device_of reader events.now) }
{
    let controls = read_controls(alloc, events)?;
    let Some(descriptor) = controls.configurations.configuration(alloc)? else {
        return Ok(Err(LeftOut::NoConfiguration));
    };
    let Ok(config) = read_config(descriptor.as_slice()) else {
        return Ok(Err(LeftOut::Refused));
    };
    if is_hub(descriptor.as_slice()) {
        return Ok(Err(LeftOut::Hub));
    }
    let device = device_with(alloc, descriptor, config.endpoints(), controls, events)?;
    Ok(device.with_answers(reader))
}
