//! A text of devices, whole.

ghost use Rattle.std.specs.Prelude.{◌≡◌, ◌≤◌, IfOk, Ok, length};
ghost use Rattle.std.specs.List.{AllByRecursion};
ghost use Rattle.usb_device.specs.Scripts.{CanBeMade};
ghost use Rattle.usb_scripttext.specs.Results.{AnswersAs};
ghost use Rattle.usb_devicetext.specs.DeviceText.{desk_of, judged, spelled_of};
ghost use Rattle.usb_devicetext.specs.Sense.{sayings_of};

use crate::device::DeskDevice;
use crate::draft::Draft;
use crate::sense::Sayings;
use std::alloc::Global;
use usb_device::ScriptedDevice;
use usb_model::Sequence;
use usb_scripttext::TextFault;

/// The devices of a text.
#[derive(Drop)]
pub struct DeviceText {
    /// What each answers to transfers.
    pub scripted: Sequence<ScriptedDevice>,
    /// What else is said of each.
    pub devices: Sequence<DeskDevice>,
}

/// The devices of a text, or the fault in it: its first line that isn't taken behind those before it, or want of memory. Each can be
/// made.
pub(crate) fn read_spelled(alloc: Global, text: &[u8]) -> Result<DeviceText, TextFault>
    ensures desk { AnswersAs result (spelled_of text.now) }
    ensures few { IfOk result (λ desk. length desk.scripted ≤ 4) }
    ensures each { IfOk result (λ desk. AllByRecursion CanBeMade desk.scripted) }
{
    let mut draft = Draft::new(alloc);
    let mut number: u64 = 0;
    for line in text.split(|byte| *byte == b'\n') {
        number = number.saturating_add(1);
        if let Err(fault) = draft.read(alloc, line) {
            return Err(TextFault::at(number, fault));
        }
    }
    Ok(draft.into_desk())
}

/// What the lines of a text say once of its devices, or the fault in it: the first line that can't mean anything, or want of memory.
fn read_sayings(
    alloc: Global,
    devices: &[ScriptedDevice],
    text: &[u8],
) -> Result<Sayings, TextFault>
    ensures { AnswersAs result (sayings_of devices.now text.now) }
{
    let mut sayings = Sayings::new(alloc);
    let mut place: u64 = 0;
    for line in text.split(|byte| *byte == b'\n') {
        place = place.saturating_add(1);
        if let Err(fault) = sayings.read(alloc, devices, line) {
            return Err(TextFault::at(place, fault));
        }
    }
    Ok(sayings)
}

/// The devices of a text, where each of its lines can mean something of them.
fn judge(alloc: Global, text: &[u8], desk: DeviceText) -> Result<DeviceText, TextFault>
    ensures judged { AnswersAs result (judged text.now (Ok desk)) }
    ensures same { IfOk result (λ same. same ≡ desk) }
{
    match read_sayings(alloc, desk.scripted.as_slice(), text) {
        Ok(_) => Ok(desk),
        Err(fault) => Err(fault),
    }
}

/// The devices of a text, or the fault in it: its first line that isn't taken, else the first that can't mean anything, or want of
/// memory. Each can be made.
pub fn read_desk(alloc: Global, text: &[u8]) -> Result<DeviceText, TextFault>
    ensures desk { AnswersAs result (desk_of text.now) }
    ensures few { IfOk result (λ desk. length desk.scripted ≤ 4) }
    ensures each { IfOk result (λ desk. AllByRecursion CanBeMade desk.scripted) }
{
    let desk = read_spelled(alloc, text)?;
    judge(alloc, text, desk)
}
