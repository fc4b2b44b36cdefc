//! Answers on the default control endpoint.

ghost use Rattle.std.specs.Prelude.{◌≡◌, ◌==◌, ◌<◌, IfSome, length};
ghost use Rattle.std.specs.List.{find, position};
ghost use Rattle.std.specs.Option.{option_copied};
ghost use Rattle.usb_devicetext.specs.Control.{answer_at, asked_once_more, control_for, descriptor_read, device_read, device_write, fits, has_answer, has_interface, interface_read, interface_write, is_met, languages_of, reply_of, shown_answer, standard_of, status_of, string_at, value_of_configuration};

use crate::answer::ControlAnswer;
use crate::device::DeskDevice;
use crate::packet::SetupPacket;
use crate::statement::{Control, Pattern, Text};
use std::alloc::Global;
use std::mem;
use usb_model::Sequence;

/// The string descriptor of index 0: US English alone (USB 2.0, 9.6.7).
const LANGUAGES: &[u8] = &[4, 3, 9, 4];

/// The status of a device or interface of which nothing is set, and of a device that is self-powered (USB 2.0, 9.4.5).
const NOTHING: &[u8] = &[0, 0];

const SELF_POWERED: &[u8] = &[1, 0];

/// The alternate setting of an interface that has one.
const FIRST_SETTING: &[u8] = &[0];

/// What a device answers to a request.
#[derive(Clone, Copy)]
pub enum ControlReply<'a> {
    /// These bytes, of which at most as many are read as were asked for.
    Data(&'a [u8]),
    /// The bytes are taken.
    Ack,
    /// Not ready.
    Nak,
    /// The request isn't supported, or fails.
    Stall,
    /// A transaction that failed all its retries.
    Broken,
}

/// Whether a field of a pattern is met by a byte.
fn is_met_by_byte(wanted: Option<u8>, byte: u8) -> bool
    ensures { result ≡ is_met wanted byte }
{
    match wanted {
        None => true,
        Some(wanted) => wanted == byte,
    }
}

/// Whether a field of a pattern is met by a number.
fn is_met_by_word(wanted: Option<u16>, word: u16) -> bool
    ensures { result ≡ is_met wanted word }
{
    match wanted {
        None => true,
        Some(wanted) => wanted == word,
    }
}

impl Pattern {
    /// Whether a setup packet is meant.
    pub fn fits(&self, packet: &SetupPacket) -> bool
        ensures { result ≡ fits self.now packet.now }
    {
        is_met_by_byte(self.kind, packet.kind)
            && is_met_by_byte(self.request, packet.request)
            && is_met_by_word(self.value, packet.value)
            && is_met_by_word(self.index, packet.index)
    }
}

impl ControlAnswer {
    /// The answer as it is told.
    fn reply(&self) -> ControlReply<'_>
        ensures { shown_answer result ≡ self.now }
    {
        match self {
            ControlAnswer::Data(bytes) => ControlReply::Data(bytes.as_slice()),
            ControlAnswer::Ack => ControlReply::Ack,
            ControlAnswer::Nak => ControlReply::Nak,
            ControlAnswer::Stall => ControlReply::Stall,
            ControlAnswer::Broken => ControlReply::Broken,
        }
    }
}

impl Control {
    /// The next answer, or the last one.
    fn next(&self) -> ControlReply<'_>
        ensures { shown_answer result ≡ answer_at self.now.answers self.now.asked }
    {
        let answers = self.answers.as_slice();
        match answers.get(self.asked as usize) {
            Some(answer) => answer.reply(),
            None => last_of(answers),
        }
    }
}

/// The last answer; a stall where there is none.
fn last_of(answers: &[ControlAnswer]) -> ControlReply<'_>
    ensures { shown_answer result ≡ answer_at answers.now (length answers.now) }
{
    match answers.last() {
        Some(answer) => answer.reply(),
        None => ControlReply::Stall,
    }
}

impl DeskDevice {
    /// What the device answers to a request: by the first of its answers that it fits, or else by its descriptors (USB 2.0, 9.4); a
    /// stall where they don't say.
    pub fn reply(&self, packet: &SetupPacket) -> ControlReply<'_>
        ensures { shown_answer result ≡ reply_of self.now packet.now }
    {
        match self.control_for(packet) {
            Some(control) => control.next(),
            None => self.standard(packet),
        }
    }

    /// Whether answers of the text's own answer a request, of whatever kind they are, and not its descriptors.
    pub fn has_answer(&self, packet: &SetupPacket) -> bool
        ensures { result ≡ has_answer self.now packet.now }
    {
        self.controls
            .as_slice()
            .iter()
            .any(|control| control.pattern.fits(packet))
    }

    /// A request was answered: the next that the same answers fit gets the one behind.
    pub fn count(&mut self, alloc: Global, packet: &SetupPacket)
        ensures { self.new ≡ record self.old { controls = asked_once_more packet.now self.old.controls } }
    {
        let Some(at) = self.place_for(packet) else {
            return;
        };
        let mut controls = mem::replace(&mut self.controls, Sequence::new(alloc)).into_vec();
        controls[at].asked = controls[at].asked.saturating_add(1);
        self.controls = Sequence::from_vec(controls);
    }

    /// Where the first of its answers stand that a request fits.
    fn place_for(&self, packet: &SetupPacket) -> Option<usize>
        ensures value { result ≡ position (λ c. fits c.pattern packet.now) self.now.controls }
        ensures within { IfSome result (λ at. at < length self.now.controls) }
    {
        self.controls
            .as_slice()
            .iter()
            .position(|control| control.pattern.fits(packet))
    }

    /// The first of its answers that a request fits.
    fn control_for(&self, packet: &SetupPacket) -> Option<&Control>
        ensures { option_copied result ≡ control_for packet.now self.now.controls }
    {
        self.controls
            .as_slice()
            .iter()
            .find(|control| control.pattern.fits(packet))
    }

    /// What its descriptors answer to a request.
    fn standard(&self, packet: &SetupPacket) -> ControlReply<'_>
        ensures { shown_answer result ≡ standard_of self.now packet.now }
    {
        match packet.kind {
            0x80 => self.read_device(packet),
            0x81 => self.read_interface(packet),
            0x00 => self.write_device(packet),
            0x01 => self.write_interface(packet),
            _ => ControlReply::Stall,
        }
    }

    /// GET_DESCRIPTOR, GET_CONFIGURATION and GET_STATUS of the device.
    fn read_device(&self, packet: &SetupPacket) -> ControlReply<'_>
        ensures { shown_answer result ≡ device_read self.now packet.now }
    {
        match (packet.request, packet.value, packet.index) {
            (6, _, _) => self.read_descriptor(packet),
            (8, 0, 0) => self.configuration_value(),
            (0, 0, 0) => self.status(),
            _ => ControlReply::Stall,
        }
    }

    /// GET_DESCRIPTOR: of the device, of its configuration, or a string.
    fn read_descriptor(&self, packet: &SetupPacket) -> ControlReply<'_>
        ensures { shown_answer result ≡ descriptor_read self.now packet.now }
    {
        match (packet.value, packet.index) {
            (0x0100, 0) => ControlReply::Data(&self.descriptor),
            (0x0200, 0) => ControlReply::Data(self.configuration.as_slice()),
            (value, _) if value / 256 == 3 => self.string((value % 256) as u8),
            _ => ControlReply::Stall,
        }
    }

    /// A string descriptor; that of index 0 says the languages of the others.
    pub fn string(&self, index: u8) -> ControlReply<'_>
        ensures { shown_answer result ≡ string_at self.now index }
    {
        if index == 0 {
            return self.languages();
        }
        match self.text(index) {
            Some(text) => ControlReply::Data(text.descriptor.as_slice()),
            None => ControlReply::Stall,
        }
    }

    /// The string descriptor of index 0; a device without strings has no languages (USB 2.0, 9.6.7).
    fn languages(&self) -> ControlReply<'_>
        ensures { shown_answer result ≡ languages_of self.now }
    {
        if self.strings.is_empty() {
            ControlReply::Stall
        } else {
            ControlReply::Data(LANGUAGES)
        }
    }

    /// The string of an index.
    fn text(&self, index: u8) -> Option<&Text>
        ensures { option_copied result ≡ find (λ t. t.index == index) self.now.strings }
    {
        self.strings
            .as_slice()
            .iter()
            .find(|text| text.index == index)
    }

    /// bConfigurationValue.
    fn configuration_value(&self) -> ControlReply<'_>
        ensures { shown_answer result ≡ value_of_configuration self.now }
    {
        let bytes = self.configuration.as_slice();
        if bytes.len() < 6 {
            return ControlReply::Stall;
        }
        ControlReply::Data(&bytes[5..6])
    }

    /// Whether the device is self-powered (USB 2.0, 9.6.3, bmAttributes).
    fn status(&self) -> ControlReply<'_>
        ensures { shown_answer result ≡ status_of self.now }
    {
        match self.configuration.as_slice().get(7) {
            Some(attributes) if attributes / 64 % 2 == 1 => ControlReply::Data(SELF_POWERED),
            _ => ControlReply::Data(NOTHING),
        }
    }

    /// Whether the device has an interface of this number.
    fn has_interface(&self, number: u16) -> bool
        ensures { result ≡ has_interface self.now number }
    {
        match u8::try_from(number) {
            Ok(number) => self.interfaces.as_slice().contains(&number),
            Err(_) => false,
        }
    }

    /// GET_INTERFACE and GET_STATUS of an interface, which has no alternate setting here.
    fn read_interface(&self, packet: &SetupPacket) -> ControlReply<'_>
        ensures { shown_answer result ≡ interface_read self.now packet.now }
    {
        if !self.has_interface(packet.index) {
            return ControlReply::Stall;
        }
        match (packet.request, packet.value) {
            (10, 0) => ControlReply::Data(FIRST_SETTING),
            (0, 0) => ControlReply::Data(NOTHING),
            _ => ControlReply::Stall,
        }
    }

    /// SET_CONFIGURATION of the one that there is.
    fn write_device(&self, packet: &SetupPacket) -> ControlReply<'_>
        ensures { shown_answer result ≡ device_write self.now packet.now }
    {
        if packet.request != 9 || packet.index != 0 {
            return ControlReply::Stall;
        }
        match self.configuration.as_slice().get(5) {
            Some(value) if u16::from(*value) == packet.value => ControlReply::Ack,
            _ => ControlReply::Stall,
        }
    }

    /// SET_INTERFACE of the setting that there is.
    fn write_interface(&self, packet: &SetupPacket) -> ControlReply<'_>
        ensures { shown_answer result ≡ interface_write self.now packet.now }
    {
        if packet.request == 11 && packet.value == 0 && self.has_interface(packet.index) {
            ControlReply::Ack
        } else {
            ControlReply::Stall
        }
    }
}
