//! Which device of a capture is meant.

ghost use Rattle.std.specs.Prelude.{◌≡◌, IfOk, None, Some};
ghost use Rattle.trace_recorded.specs.Choices.{chosen, found_in, has_ids, is_at_place, is_placed, is_unknown, later, no_search, only, seen_of, stood_at, wants_file, with_seen};
ghost use Rattle.std.specs.Option.{unwrap_or};
ghost use Rattle.trace_recorded.specs.Described.{ids_of};
ghost use Rattle.trace_recorded.specs.Devices.{by_device};

use crate::controls::{Controls, read_controls};
use crate::described::{DescribedDevice, DevicePlace, ids_of, is_same};
use crate::device::by_device;
use crate::event::RecordedEvent;
use crate::scenario::first_frame;
use std::alloc::{AllocError, Global};
use trace_faults::DeviceIds;
use usb_model::{Bytes, Sequence};

/// Which device of a capture is meant, and what a file says of it.
#[derive(Drop)]
pub struct DeviceChoice {
    /// Its vendor and its product.
    pub(crate) ids: DeviceIds,
    /// What a file says of a device.
    pub(crate) described: Option<DescribedDevice>,
}

/// A device of a capture.
#[derive(Drop)]
pub(crate) struct SeenDevice {
    /// Its number in a table.
    pub(crate) key: u64,
    /// The packet of the capture that has its first event.
    pub(crate) frame: u64,
    /// Its device descriptor, where it was read.
    pub(crate) descriptor: Option<Bytes>,
    /// Its events.
    pub(crate) events: Sequence<RecordedEvent>,
}

/// Those that may be meant, among the devices so far.
#[derive(Drop)]
pub(crate) struct DeviceSearch {
    /// The last one that says that it has the ids.
    of_ids: Option<SeenDevice>,
    /// The one where the file says.
    at_place: Option<SeenDevice>,
    /// One whose ids nobody says.
    unknown: Option<SeenDevice>,
    /// Whether there are more of these.
    has_more: bool,
}

impl DeviceChoice {
    /// The device of this vendor and product.
    pub fn of_ids(ids: DeviceIds) -> DeviceChoice
        ensures ids { result.ids ≡ ids }
        ensures described { result.described ≡ None }
    {
        DeviceChoice {
            ids,
            described: None,
        }
    }

    /// The device that a file describes; or another of these ids, of which the file says what the capture lacks.
    pub fn of_file(described: DescribedDevice, asked: Option<DeviceIds>) -> DeviceChoice
        ensures ids { result.ids ≡ unwrap_or asked (ids_of described.descriptor) }
        ensures described { result.described ≡ Some described }
    {
        let ids = match asked {
            Some(ids) => ids,
            None => ids_of(described.descriptor.as_slice()),
        };
        DeviceChoice {
            ids,
            described: Some(described),
        }
    }

    /// Whether the ids of the file are wanted.
    fn wants_file(&self) -> bool
        ensures { result ≡ wants_file self.now }
    {
        match &self.described {
            Some(described) => is_same(ids_of(described.descriptor.as_slice()), self.ids),
            None => false,
        }
    }

    /// Whether a device is where the file says, and its ids are wanted.
    fn is_at_place(&self, seen: &SeenDevice) -> bool
        ensures { result ≡ is_at_place self.now seen.now }
    {
        let is_there = match &self.described {
            Some(described) => seen.is_placed(described),
            None => false,
        };
        self.wants_file() && is_there
    }

    /// Whether nobody says its ids, and those of the file are wanted.
    fn is_unknown(&self, seen: &SeenDevice) -> bool
        ensures { result ≡ is_unknown self.now seen.now }
    {
        self.wants_file() && seen.descriptor.is_none()
    }
}

impl SeenDevice {
    /// A device with these events.
    fn read(
        alloc: Global,
        key: u64,
        events: Sequence<RecordedEvent>,
    ) -> Result<SeenDevice, AllocError>
        ensures { IfOk result (λ seen. seen ≡ seen_of (key, events)) }
    {
        let Controls { identity, .. } = read_controls(alloc, events.as_slice())?;
        Ok(SeenDevice {
            key,
            frame: first_frame(events.as_slice()),
            descriptor: identity.descriptor,
            events,
        })
    }

    /// Whether it says that it has these ids.
    fn has_ids(&self, ids: DeviceIds) -> bool
        ensures { result ≡ has_ids ids self.now }
    {
        match &self.descriptor {
            Some(descriptor) => is_same(ids_of(descriptor.as_slice()), ids),
            None => false,
        }
    }

    /// Whether it stood at a place.
    fn stood_at(&self, place: DevicePlace) -> bool
        ensures { result ≡ stood_at self.now place }
    {
        self.key == 256 * u64::from(place.bus) + u64::from(place.device)
    }

    /// Whether it stood where a file says.
    fn is_placed(&self, described: &DescribedDevice) -> bool
        ensures { result ≡ is_placed self.now described.now }
    {
        match described.place {
            Some(place) => self.stood_at(place),
            None => false,
        }
    }

    /// Of two devices the one that came later in the capture.
    fn later(self, other: Option<SeenDevice>) -> SeenDevice
        ensures { result ≡ later self other }
    {
        match other {
            Some(other) if self.frame < other.frame => other,
            _ => self,
        }
    }
}

impl DeviceSearch {
    /// No device yet.
    fn new() -> DeviceSearch
        ensures { result ≡ no_search }
    {
        DeviceSearch {
            of_ids: None,
            at_place: None,
            unknown: None,
            has_more: false,
        }
    }

    /// A device more.
    #[tactic(auto, unfolding(crate::specs::Choices::with_seen))]
    fn put(&mut self, choice: &DeviceChoice, seen: SeenDevice)
        ensures { self.new ≡ with_seen choice.now seen self.old }
    {
        if seen.has_ids(choice.ids) {
            let other = self.of_ids.take();
            self.of_ids = Some(seen.later(other));
        } else if choice.is_at_place(&seen) {
            self.at_place = Some(seen);
        } else if choice.is_unknown(&seen) {
            self.has_more = self.unknown.is_some();
            self.unknown = Some(seen);
        }
    }

    /// The one that is meant.
    fn found(self) -> Option<SeenDevice>
        ensures { result ≡ found_in self }
    {
        if self.of_ids.is_some() {
            return self.of_ids;
        }
        if self.at_place.is_some() {
            return self.at_place;
        }
        if self.has_more { None } else { self.unknown }
    }
}

/// The device that is meant, among events.
pub(crate) fn chosen(
    alloc: Global,
    choice: &DeviceChoice,
    events: Sequence<RecordedEvent>,
) -> Result<Option<SeenDevice>, AllocError>
    ensures { IfOk result (λ seen. seen ≡ chosen choice.now (by_device events)) }
{
    let mut search = DeviceSearch::new();
    for (key, events) in by_device(alloc, events)?.into_map() {
        search.put(choice, SeenDevice::read(alloc, key, events)?);
    }
    Ok(search.found())
}
