//! The events of a device, with what a file says of it and they don't: as if a host had asked for that before the first of them.

ghost use Rattle.std.specs.Prelude.{◌≡◌, ◌≤◌, ◌++◌, IfOk, length, min};
ghost use Rattle.std.specs.List.{flat_map};
ghost use Rattle.trace_recorded.specs.Described.{callback_for, completed, configuration_known, language_of, missing_by, missing_configurations, missing_device, missing_of, missing_string, missing_strings, number_of, place_of, read_of, request_for, string_bytes_of, submission_for};

use crate::configuration::Configurations;
use crate::controls::{Controls, read_controls};
use crate::described::DescribedDevice;
use crate::event::{RecordedEvent, RecordedType};
use crate::identity::{DeviceIdentity, RecordedString};
use crate::submission::copied;
use std::alloc::{AllocError, Global};
use trace_capture::ControlSetup;
use usb_model::{Bytes, EpAddr, Kind, Sequence};

/// The id of the requests that are put in: the highest, which no recorded one has.
const ID: u64 = u64::MAX;

/// How a transfer stands that was submitted: EINPROGRESS.
const IN_PROGRESS: u32 = 0xffff_ff8d;

/// The flag of a transfer for IN (Linux, include/linux/usb.h, `URB_DIR_IN`).
const FLAGS: u32 = 0x200;

/// The default control endpoint, for IN.
const CONTROL_IN: u8 = 0x80;

/// A kind of descriptor.
#[derive(Clone, Copy, PartialEq, Eq, Debug)]
pub(crate) enum DescriptorKind {
    /// Of a device.
    Device,
    /// Of a configuration, with those behind it.
    Configuration,
    /// Of a string.
    Text,
}

/// A descriptor that a file has.
#[derive(Drop)]
pub(crate) struct KnownDescriptor {
    /// Its kind.
    pub(crate) kind: DescriptorKind,
    /// The index of a string; 0 of others.
    pub(crate) index: u8,
    /// Its bytes.
    pub(crate) bytes: Bytes,
}

/// Where an event stands in a capture.
#[derive(Clone, Copy)]
pub(crate) struct EventPlace {
    /// Its packet.
    frame: u64,
    /// Its bus.
    bus: u16,
    /// Its device.
    device: u8,
}

impl DescriptorKind {
    /// The number of its type (USB 2.0, table 9-5).
    fn number(self) -> u8
        ensures number { result ≡ number_of self }
        ensures small { result ≤ 3 }
    {
        match self {
            DescriptorKind::Device => 1,
            DescriptorKind::Configuration => 2,
            DescriptorKind::Text => 3,
        }
    }

    /// The language in which it is asked for: of a string, English of the United States.
    fn language(self) -> u16
        ensures { result ≡ language_of self }
    {
        match self {
            DescriptorKind::Text => 0x409,
            DescriptorKind::Device | DescriptorKind::Configuration => 0,
        }
    }
}

impl RecordedEvent {
    /// Where it stands.
    fn place(&self) -> EventPlace
        ensures { result ≡ place_of self.now }
    {
        let (frame, bus, device) = (self.frame, self.bus, self.device);
        EventPlace { frame, bus, device }
    }
}

impl KnownDescriptor {
    /// How many bytes are asked for.
    fn length(&self) -> u16
        ensures { result ≡ min (length self.now.bytes) 65535 }
    {
        self.bytes.len().min(65535) as u16
    }

    /// The request for it.
    fn request(&self) -> ControlSetup
        ensures { result ≡ request_for self.now }
    {
        let index = self.index;
        ControlSetup {
            request_type: 0x80,
            request: 6,
            value: 256 * u16::from(self.kind.number()) + u16::from(index),
            index: self.kind.language(),
            length: self.length(),
        }
    }

    /// Its submission.
    fn submission(&self, alloc: Global, place: EventPlace) -> RecordedEvent
        ensures { result ≡ submission_for place self.now }
    {
        RecordedEvent {
            frame: place.frame,
            id: ID,
            event_type: RecordedType::Submission,
            kind: Kind::Control,
            ep: EpAddr::new(CONTROL_IN),
            device: place.device,
            bus: place.bus,
            status: IN_PROGRESS,
            length: u32::from(self.length()),
            is_counted: true,
            setup: Some(self.request()),
            flags: FLAGS,
            bytes: Sequence::new(alloc),
        }
    }

    /// Its callback.
    fn callback(self, place: EventPlace) -> RecordedEvent
        ensures { result ≡ callback_for place self }
    {
        let length = u32::from(self.length());
        RecordedEvent {
            frame: place.frame,
            id: ID,
            event_type: RecordedType::Callback,
            kind: Kind::Control,
            ep: EpAddr::new(CONTROL_IN),
            device: place.device,
            bus: place.bus,
            status: 0,
            length,
            is_counted: true,
            setup: None,
            flags: FLAGS,
            bytes: self.bytes,
        }
    }
}

/// The bytes of a string descriptor.
fn string_bytes(alloc: Global, units: &[u8]) -> Result<Bytes, AllocError>
    ensures { IfOk result (λ bytes. bytes ≡ string_bytes_of units.now) }
{
    let size = units.len().saturating_add(2).min(255) as u8;
    let mut bytes = Vec::from_array(alloc, [size, DescriptorKind::Text.number()])?;
    bytes.extend_from_slice(units)?;
    Ok(Sequence::from_vec(bytes))
}

/// Puts the device descriptor behind others, where none was read.
fn push_device(
    alloc: Global,
    missing: &mut Sequence<KnownDescriptor>,
    described: &DescribedDevice,
    identity: &DeviceIdentity,
) -> Result<(), AllocError>
    ensures { IfOk result (λ _. missing.new ≡ missing.old ++ missing_device described.now identity.now) }
{
    if identity.descriptor.is_some() {
        return Ok(());
    }
    let bytes = copied(alloc, described.descriptor.as_slice())?;
    missing.push(KnownDescriptor {
        kind: DescriptorKind::Device,
        index: 0,
        bytes,
    })
}

/// Puts a configuration behind others.
fn push_configuration(
    alloc: Global,
    missing: &mut Sequence<KnownDescriptor>,
    configuration: &Bytes,
) -> Result<(), AllocError>
    ensures { IfOk result (λ _. missing.new ≡ missing.old ++ configuration_known configuration.now) }
{
    let bytes = copied(alloc, configuration.as_slice())?;
    missing.push(KnownDescriptor {
        kind: DescriptorKind::Configuration,
        index: 0,
        bytes,
    })
}

/// Puts each configuration behind others.
fn push_each(
    alloc: Global,
    missing: &mut Sequence<KnownDescriptor>,
    configurations: &[Bytes],
) -> Result<(), AllocError>
    ensures { IfOk result (λ _. missing.new ≡ missing.old ++ flat_map configuration_known configurations.now) }
{
    for configuration in configurations {
        push_configuration(alloc, missing, configuration)?;
    }
    Ok(())
}

/// The same, where none was read.
fn push_configurations(
    alloc: Global,
    missing: &mut Sequence<KnownDescriptor>,
    described: &DescribedDevice,
    configurations: &Configurations,
) -> Result<(), AllocError>
    ensures { IfOk result (λ _. missing.new ≡ missing.old ++ missing_configurations described.now configurations.now) }
{
    if configurations.has_none() {
        push_each(alloc, missing, described.configurations.as_slice())
    } else {
        Ok(())
    }
}

/// Puts a string behind others, where none of its index was read.
fn push_string(
    alloc: Global,
    missing: &mut Sequence<KnownDescriptor>,
    identity: &DeviceIdentity,
    string: &RecordedString,
) -> Result<(), AllocError>
    ensures { IfOk result (λ _. missing.new ≡ missing.old ++ missing_string identity.now string.now) }
{
    if identity.has_string(string.index) {
        return Ok(());
    }
    let bytes = string_bytes(alloc, string.units.as_slice())?;
    missing.push(KnownDescriptor {
        kind: DescriptorKind::Text,
        index: string.index,
        bytes,
    })
}

/// Puts each such string behind others.
fn push_strings(
    alloc: Global,
    missing: &mut Sequence<KnownDescriptor>,
    strings: &[RecordedString],
    identity: &DeviceIdentity,
) -> Result<(), AllocError>
    ensures { IfOk result (λ _. missing.new ≡ missing.old ++ flat_map (missing_string identity.now) strings.now) }
{
    for string in strings {
        push_string(alloc, missing, identity, string)?;
    }
    Ok(())
}

/// What a file says of a device and its control transfers don't.
fn missing_by(
    alloc: Global,
    described: &DescribedDevice,
    controls: &Controls,
) -> Result<Sequence<KnownDescriptor>, AllocError>
    ensures { IfOk result (λ missing. missing ≡ missing_by described.now controls.now) }
{
    let mut missing = Sequence::new(alloc);
    push_device(alloc, &mut missing, described, &controls.identity)?;
    push_configurations(alloc, &mut missing, described, &controls.configurations)?;
    push_strings(
        alloc,
        &mut missing,
        described.strings.as_slice(),
        &controls.identity,
    )?;
    Ok(missing)
}

/// The same, by its events.
pub(crate) fn missing_of(
    alloc: Global,
    described: &DescribedDevice,
    events: &[RecordedEvent],
) -> Result<Sequence<KnownDescriptor>, AllocError>
    ensures { IfOk result (λ missing. missing ≡ missing_of described.now events.now) }
{
    let controls = read_controls(alloc, events)?;
    missing_by(alloc, described, &controls)
}

/// Puts a read of a descriptor behind other events.
fn push_read(
    alloc: Global,
    events: &mut Sequence<RecordedEvent>,
    place: EventPlace,
    known: KnownDescriptor,
) -> Result<(), AllocError>
    ensures { IfOk result (λ _. events.new ≡ events.old ++ read_of place known) }
{
    events.push(known.submission(alloc, place))?;
    events.push(known.callback(place))
}

/// Reads of descriptors.
fn reads_of(
    alloc: Global,
    place: EventPlace,
    missing: Sequence<KnownDescriptor>,
) -> Result<Sequence<RecordedEvent>, AllocError>
    ensures { IfOk result (λ events. events ≡ flat_map (read_of place) missing) }
{
    let mut events = Sequence::new(alloc);
    for known in missing.into_vec() {
        push_read(alloc, &mut events, place, known)?;
    }
    Ok(events)
}

/// The events of a device, with reads of what is missing in front.
pub(crate) fn completed(
    alloc: Global,
    described: &DescribedDevice,
    events: Sequence<RecordedEvent>,
) -> Result<Sequence<RecordedEvent>, AllocError>
    ensures { IfOk result (λ all. all ≡ completed described.now events) }
{
    let Some(event) = events.as_slice().first() else {
        return Ok(events);
    };
    let place = event.place();
    let missing = missing_of(alloc, described, events.as_slice())?;
    reads_of(alloc, place, missing)?.append(events)
}
