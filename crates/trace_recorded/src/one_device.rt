//! The scenario of one device of a capture, and of what a file says of it where the capture says nothing.

ghost use Rattle.std.specs.Prelude.{◌≡◌, IfErr, IfOk, Ok, Some};
ghost use Rattle.trace_recorded.specs.DescribedText.{described_by, described_scenario, listing_by, with_sources};
ghost use Rattle.trace_recorded.specs.Described.{completed};
ghost use Rattle.trace_faults.specs.CaptureFaults.{IsCaptureFault};
ghost use Rattle.trace_recorded.specs.Scenario.{no_device, with_found};

use crate::choice::{DeviceChoice, SeenDevice, chosen};
use crate::completed::{KnownDescriptor, completed, missing_of};
use crate::described::DescribedDevice;
use crate::recording::read_recording;
use crate::scenario::{Listing, RecordedScenario};
use crate::text::ScenarioText;
use std::alloc::{AllocError, Global};
use std::mem;
use trace_faults::{CaptureFault, TextReader};

impl Listing {
    /// The lines of a device that is kept stand between what is from the file and its speed.
    #[tactic(auto, unfolding(crate::specs::DescribedText::with_sources))]
    fn put_sources(
        &mut self,
        alloc: Global,
        described: &DescribedDevice,
        missing: &[KnownDescriptor],
    ) -> Result<(), AllocError>
        ensures { IfOk result (λ _. self.new ≡ with_sources described.now missing.now self.old) }
    {
        if self.count == 0 {
            return Ok(());
        }
        let reader = self.reader;
        let kept = mem::replace(&mut self.kept, ScenarioText::new(alloc));
        let file = described.file.as_str();
        self.kept.put_sources(reader, file, missing)?;
        self.kept.append(&kept)?;
        self.kept.put_speed(reader, file, described.speed)
    }
}

/// The lines of a device, with what a file says of it.
fn described_listing(
    alloc: Global,
    reader: TextReader,
    described: &DescribedDevice,
    seen: SeenDevice,
) -> Result<Listing, AllocError>
    ensures { IfOk result (λ listing. listing ≡ listing_by reader (Some described.now) seen) }
{
    let SeenDevice { key, events, .. } = seen;
    let missing = missing_of(alloc, described, events.as_slice())?;
    let events = completed(alloc, described, events)?;
    let mut listing = Listing::new(alloc, reader);
    listing.read(alloc, key, events.as_slice())?;
    listing.put_sources(alloc, described, missing.as_slice())?;
    Ok(listing)
}

/// The lines of a device, with what a file says of it where there is one.
fn listing_by(
    alloc: Global,
    reader: TextReader,
    described: &Option<DescribedDevice>,
    seen: SeenDevice,
) -> Result<Listing, AllocError>
    ensures { IfOk result (λ listing. listing ≡ listing_by reader described.now seen) }
{
    if let Some(described) = described {
        return described_listing(alloc, reader, described, seen);
    }
    let SeenDevice { key, events, .. } = seen;
    let mut listing = Listing::new(alloc, reader);
    listing.read(alloc, key, events.as_slice())?;
    Ok(listing)
}

/// Makes a scenario of one device of a capture, as `recorded_scenario` does of all. What the capture lacks of it and the choice's file has
/// is put in as if a host had asked for it before the device's first event, and comments say so: the device descriptor, the
/// configurations, each string. A speed is told where the file has one below the highest.
///
/// Refuses what `recorded_scenario` refuses, and a capture without such a device.
#[tactic(auto, unfolding(crate::specs::DescribedText::described_scenario))]
pub fn described_scenario(
    alloc: Global,
    reader: TextReader,
    choice: &DeviceChoice,
    capture: &[u8],
) -> Result<RecordedScenario, CaptureFault>
    ensures scenario { IfOk result (λ s. described_scenario reader choice.now capture.now ≡ Ok s) }
    ensures fault { IfErr result (λ fault. IsCaptureFault fault (described_scenario reader choice.now capture.now)) }
{
    let recording = read_recording(alloc, capture)?;
    let is_cut = recording.is_cut;
    let Some(seen) = chosen(alloc, choice, recording.events)? else {
        return Err(CaptureFault::NoDevice(choice.ids));
    };
    let listing = listing_by(alloc, reader, &choice.described, seen)?;
    Ok(listing.into_scenario(alloc, is_cut)?)
}
