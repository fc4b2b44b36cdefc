//! The scenario that is made of a capture.

ghost use Rattle.std.specs.Prelude.{◌≡◌, ◌<◌, IfErr, IfOk, Ok};
ghost use Rattle.trace_faults.specs.CaptureFaults.{IsCaptureFault};
ghost use Rattle.trace_recorded.specs.Scenario.{cut_line, first_frame, known_ids, listing_of, no_device, recorded_scenario, scenario_by, with_device, with_found, with_kept};

use crate::controls::{Controls, read_controls};
use crate::described::ids_of;
use crate::device::{RecordedDevice, by_device, device_of};
use crate::event::RecordedEvent;
use crate::left_out::LeftOut;
use crate::recording::read_recording;
use crate::text::ScenarioText;
use std::alloc::{AllocError, Global};
use trace_faults::{CaptureFault, DeviceIds, TextReader};
use usb_model::{Bytes, Sequence};

/// How many devices a scenario may have.
const MOST_DEVICES: u8 = 4;

/// The scenario that is made of a capture: what its devices answered, as lines of text.
#[derive(Debug, Drop)]
pub struct RecordedScenario {
    /// Its lines: what is left out, and then each device and its scripts.
    pub text: Bytes,
    /// Whether a device is kept.
    pub has_devices: bool,
}

/// The lines of the devices so far.
#[derive(Drop)]
pub(crate) struct Listing {
    /// Who reads them.
    pub(crate) reader: TextReader,
    /// Those of the devices that are left out.
    pub(crate) left_out: ScenarioText,
    /// Those of the devices that are kept.
    pub(crate) kept: ScenarioText,
    /// How many are kept.
    pub(crate) count: u8,
}

/// The number of the first packet of events.
pub(crate) fn first_frame(events: &[RecordedEvent]) -> u64
    ensures { result ≡ first_frame events.now }
{
    match events.first() {
        Some(event) => event.frame,
        None => 0,
    }
}

/// The ids that a device with these events says itself, where its descriptor was read.
fn known_ids(alloc: Global, events: &[RecordedEvent]) -> Result<Option<DeviceIds>, AllocError>
    ensures { IfOk result (λ ids. ids ≡ known_ids events.now) }
{
    let Controls { identity, .. } = read_controls(alloc, events)?;
    match &identity.descriptor {
        Some(descriptor) => Ok(Some(ids_of(descriptor.as_slice()))),
        None => Ok(None),
    }
}

impl Listing {
    /// No device yet.
    pub(crate) fn new(alloc: Global, reader: TextReader) -> Listing
        ensures { result ≡ no_device reader }
    {
        Listing {
            reader,
            left_out: ScenarioText::new(alloc),
            kept: ScenarioText::new(alloc),
            count: 0,
        }
    }

    /// A device is kept, under the next number.
    fn keep(&mut self, key: u64, device: &RecordedDevice) -> Result<(), AllocError>
        requires { self.old.count < 4 }
        ensures { IfOk result (λ _. self.new ≡ with_kept key device.now self.old) }
    {
        let reader = self.reader;
        self.kept.put_device(reader, self.count, key, device)?;
        self.count += 1;
        Ok(())
    }

    /// A device more, where it answered.
    fn put(
        &mut self,
        key: u64,
        ids: Option<DeviceIds>,
        frame: u64,
        device: Result<RecordedDevice, LeftOut>,
    ) -> Result<(), AllocError>
        ensures { IfOk result (λ _. self.new ≡ with_device key ids frame device self.old) }
    {
        match device {
            Err(why) => self.left_out.put_left_out(key, ids, frame, why),
            Ok(device) if self.count < MOST_DEVICES => self.keep(key, &device),
            Ok(_) => {
                let why = LeftOut::FifthDevice;
                self.left_out.put_left_out(key, ids, frame, why)
            }
        }
    }

    /// A device more, by its events.
    #[tactic(auto, unfolding(crate::specs::Scenario::with_found))]
    pub(crate) fn read(
        &mut self,
        alloc: Global,
        key: u64,
        events: &[RecordedEvent],
    ) -> Result<(), AllocError>
        ensures { IfOk result (λ _. self.new ≡ with_found (key, events.now) self.old) }
    {
        let device = device_of(alloc, self.reader, events)?;
        let ids = known_ids(alloc, events)?;
        self.put(key, ids, first_frame(events), device)
    }

    /// The scenario.
    pub(crate) fn into_scenario(
        self,
        alloc: Global,
        is_cut: bool,
    ) -> Result<RecordedScenario, AllocError>
        ensures { IfOk result (λ scenario. scenario ≡ scenario_by is_cut self) }
    {
        let Listing {
            left_out,
            kept,
            count,
            ..
        } = self;
        let mut text = ScenarioText::new(alloc);
        if is_cut {
            text.put("# the capture ends amid a record\n")?;
        }
        text.append(&left_out)?;
        text.append(&kept)?;
        Ok(RecordedScenario {
            text: text.into_bytes(),
            has_devices: count > 0,
        })
    }
}

/// The lines of all devices.
fn read_listing(
    alloc: Global,
    reader: TextReader,
    events: Sequence<RecordedEvent>,
) -> Result<Listing, AllocError>
    ensures { IfOk result (λ listing. listing ≡ listing_of reader events) }
{
    let mut listing = Listing::new(alloc, reader);
    for (key, events) in by_device(alloc, events)?.into_map() {
        listing.read(alloc, key, events.as_slice())?;
    }
    Ok(listing)
}

/// Makes a scenario of a capture of usbmon, a file of pcap or of pcapng: by rising bus and address the devices of which a
/// configuration and answers were recorded, four at most, and what their bulk and interrupt endpoints answered. A file that ends
/// amid a record counts as far as it goes.
///
/// Refuses a file of another form, a pcap file with another link type, and a pcapng file without an interface of usbmon's. Takes
/// memory for some times as many bytes as the capture has.
#[tactic(auto, unfolding(crate::specs::Scenario::recorded_scenario))]
pub fn recorded_scenario(
    alloc: Global,
    reader: TextReader,
    capture: &[u8],
) -> Result<RecordedScenario, CaptureFault>
    ensures scenario { IfOk result (λ s. recorded_scenario reader capture.now ≡ Ok s) }
    ensures fault { IfErr result (λ fault. IsCaptureFault fault (recorded_scenario reader capture.now)) }
{
    let recording = read_recording(alloc, capture)?;
    let is_cut = recording.is_cut;
    let listing = read_listing(alloc, reader, recording.events)?;
    Ok(listing.into_scenario(alloc, is_cut)?)
}
