//! The events of control transfers, each of which ends at once.

ghost use Rattle.std.specs.Prelude.{◌≡◌, ◌++◌, ◌∷◌, [], false, IfOk, take, slice_index};
ghost use Rattle.trace_capture.specs.Control.{configuration_value, control_alone, control_callback, control_events, control_submission, device_events, total_length};

use crate::control_setup::ControlSetup;
use crate::errno::Errno;
use crate::event::{CaptureEvent, EventType, UrbFlags};
use crate::identity::UrbId;
use std::alloc::{AllocError, Global};
use usb_model::{Bytes, DeviceNo, Kind, Sequence};

/// A control transfer of a scenario's line.
#[derive(Clone, Copy)]
pub(crate) struct ControlTransfer {
    /// The line's number.
    pub line: u64,
    /// Whether it is the second of its line.
    pub second: bool,
    /// The device.
    pub device: DeviceNo,
    /// What it asks for.
    pub setup: ControlSetup,
}

impl ControlTransfer {
    /// Its submission.
    fn submission(&self, alloc: Global) -> CaptureEvent
        ensures { result ≡ control_submission self.now.line self.now.second self.now.device self.now.setup }
    {
        CaptureEvent {
            id: UrbId::Control {
                line: self.line,
                second: self.second,
            },
            event_type: EventType::Submission,
            kind: Kind::Control,
            ep: self.setup.endpoint(),
            device: self.device,
            line: self.line,
            errno: Errno::InProgress,
            length: usize::from(self.setup.length),
            setup: Some(self.setup),
            flags: UrbFlags::NONE,
            bytes: Sequence::new(alloc),
        }
    }

    /// Its callback, with these bytes.
    fn callback(&self, bytes: Bytes) -> CaptureEvent
        ensures { result ≡ control_callback self.now.line self.now.second self.now.device self.now.setup bytes }
    {
        CaptureEvent {
            id: UrbId::Control {
                line: self.line,
                second: self.second,
            },
            event_type: EventType::Callback,
            kind: Kind::Control,
            ep: self.setup.endpoint(),
            device: self.device,
            line: self.line,
            errno: Errno::Success,
            length: bytes.len(),
            setup: None,
            flags: UrbFlags::NONE,
            bytes,
        }
    }

    /// Both, with these bytes.
    pub(crate) fn events(
        &self,
        alloc: Global,
        bytes: Bytes,
    ) -> Result<Sequence<CaptureEvent>, AllocError>
        ensures { IfOk result (λ events. events ≡ control_events self.now.line self.now.second self.now.device self.now.setup bytes) }
    {
        let mut events = Sequence::new(alloc);
        events.push(self.submission(alloc))?;
        events.push(self.callback(bytes))?;
        Ok(events)
    }
}

/// The events of a control transfer that moves no bytes.
pub(crate) fn alone(
    alloc: Global,
    line: u64,
    device: DeviceNo,
    setup: ControlSetup,
) -> Result<Sequence<CaptureEvent>, AllocError>
    ensures { IfOk result (λ events. events ≡ control_alone line device setup) }
{
    let control = ControlTransfer {
        line,
        second: false,
        device,
        setup,
    };
    control.events(alloc, Sequence::new(alloc))
}

/// A byte; 0 past the end.
fn byte_at(bytes: &[u8], place: usize) -> u8
    ensures { result ≡ slice_index bytes.now place }
{
    match bytes.get(place) {
        Some(byte) => *byte,
        None => 0,
    }
}

/// How many bytes a configuration has with all its descriptors, as it says itself (USB 2.0, 9.6.3).
fn total_length(descriptor: &[u8]) -> u16
    ensures { result ≡ total_length descriptor.now }
{
    u16::from(byte_at(descriptor, 2)) + 256 * u16::from(byte_at(descriptor, 3))
}

/// The value by which a configuration is set (USB 2.0, 9.6.3).
pub(crate) fn configuration_value(descriptor: &[u8]) -> u8
    ensures { result ≡ configuration_value descriptor.now }
{
    byte_at(descriptor, 5)
}

/// A copy of the first bytes, as many as there are.
fn front(alloc: Global, bytes: &[u8], count: usize) -> Result<Bytes, AllocError>
    ensures { IfOk result (λ front. front ≡ take count bytes.now) }
{
    let count = count.min(bytes.len());
    Ok(Sequence::from_vec(Vec::from_slice(alloc, &bytes[..count])?))
}

/// The events of a device's line: its configuration is read, and then set.
#[tactic(auto, unfolding(crate::specs::Control::device_events))]
pub(crate) fn device_events(
    alloc: Global,
    line: u64,
    device: DeviceNo,
    descriptor: &[u8],
) -> Result<Sequence<CaptureEvent>, AllocError>
    ensures { IfOk result (λ events. events ≡ device_events line device descriptor.now) }
{
    let total = total_length(descriptor);
    let reads = ControlTransfer {
        line,
        second: false,
        device,
        setup: ControlSetup::get_configuration(total),
    };
    let sets = ControlTransfer {
        line,
        second: true,
        device,
        setup: ControlSetup::set_configuration(configuration_value(descriptor)),
    };
    let read = reads.events(alloc, front(alloc, descriptor, usize::from(total))?)?;
    read.append(sets.events(alloc, Sequence::new(alloc))?)
}
