//! The text of a recorded device.

ghost use Rattle.std.specs.Prelude.{◌≡◌, ◌++◌, IfOk};
ghost use Rattle.std.specs.List.{flat_map};
ghost use Rattle.trace_recorded.specs.DeviceText.{descriptor_head, descriptor_line, device_head, device_line, device_text, hex_line, identity_text, lasts_line, lines_text, notes_text, origin_line, request_notes, string_head, string_line, told_text};

use crate::device::RecordedDevice;
use crate::identity::{DeviceIdentity, RecordedString};
use crate::note::EndpointNote;
use crate::text::ScenarioText;
use std::alloc::AllocError;
use trace_faults::TextReader;
use usb_model::{Bytes, EpAddr};

/// The default control endpoint.
const CONTROL: u8 = 0;

impl ScenarioText {
    /// Puts the line behind it that says which recorded device it was.
    fn put_origin(&mut self, number: u8, key: u64) -> Result<(), AllocError>
        ensures { IfOk result (λ _. self.new ≡ self.old ++ origin_line number key) }
    {
        let (bus, device) = (key / 256, key % 256);
        let line = format!(in self.alloc(); "# device {number} was bus {bus} device {device}\n")?;
        self.put(line.as_str())
    }

    /// Puts bytes and the end of a line behind it.
    fn put_hex_line(&mut self, bytes: &[u8]) -> Result<(), AllocError>
        ensures { IfOk result (λ _. self.new ≡ self.old ++ hex_line bytes.now) }
    {
        self.put_hex(bytes)?;
        self.put("\n")
    }

    /// Puts the beginning of a device's own line behind it.
    fn put_device_head(&mut self, number: u8) -> Result<(), AllocError>
        ensures { IfOk result (λ _. self.new ≡ self.old ++ device_head number) }
    {
        let head = format!(in self.alloc(); "device {number} ")?;
        self.put(head.as_str())
    }

    /// Puts a device's own line behind it.
    fn put_configuration(&mut self, number: u8, descriptor: &[u8]) -> Result<(), AllocError>
        ensures { IfOk result (λ _. self.new ≡ self.old ++ device_line number descriptor.now) }
    {
        self.put_device_head(number)?;
        self.put_hex_line(descriptor)
    }

    /// Puts the beginning of the line of its device descriptor behind it.
    fn put_descriptor_head(&mut self, number: u8) -> Result<(), AllocError>
        ensures { IfOk result (λ _. self.new ≡ self.old ++ descriptor_head number) }
    {
        let head = format!(in self.alloc(); "descriptor {number} ")?;
        self.put(head.as_str())
    }

    /// Puts the line of its device descriptor behind it, where that was read.
    fn put_descriptor(&mut self, number: u8, descriptor: &Option<Bytes>) -> Result<(), AllocError>
        ensures { IfOk result (λ _. self.new ≡ self.old ++ descriptor_line number descriptor.now) }
    {
        let Some(bytes) = descriptor else {
            return Ok(());
        };
        self.put_descriptor_head(number)?;
        self.put_hex_line(bytes.as_slice())
    }

    /// Puts the beginning of the line of a string behind it.
    fn put_string_head(&mut self, number: u8, index: u8) -> Result<(), AllocError>
        ensures { IfOk result (λ _. self.new ≡ self.old ++ string_head number index) }
    {
        let head = format!(in self.alloc(); "string {number} {index} u:")?;
        self.put(head.as_str())
    }

    /// Puts the line of a string behind it.
    fn put_string(&mut self, number: u8, string: &RecordedString) -> Result<(), AllocError>
        ensures { IfOk result (λ _. self.new ≡ self.old ++ string_line number string.now) }
    {
        self.put_string_head(number, string.index)?;
        self.put_hex_line(string.units.as_slice())
    }

    /// Puts the lines of strings behind it.
    fn put_strings(&mut self, number: u8, strings: &[RecordedString]) -> Result<(), AllocError>
        ensures { IfOk result (λ _. self.new ≡ self.old ++ flat_map (string_line number) strings.now) }
    {
        for string in strings {
            self.put_string(number, string)?;
        }
        Ok(())
    }

    /// Puts the line behind it that says that a reset doesn't begin a device's scripts anew.
    fn put_lasts(&mut self, number: u8) -> Result<(), AllocError>
        ensures { IfOk result (λ _. self.new ≡ self.old ++ lasts_line number) }
    {
        let line = format!(in self.alloc(); "lasts {number}\n")?;
        self.put(line.as_str())
    }

    /// Puts behind it who a device says that it is.
    fn put_identity(&mut self, number: u8, identity: &DeviceIdentity) -> Result<(), AllocError>
        ensures { IfOk result (λ _. self.new ≡ self.old ++ identity_text number identity.now) }
    {
        self.put_descriptor(number, &identity.descriptor)?;
        self.put_strings(number, identity.strings.as_slice())
    }

    /// Puts the notes of control requests behind it.
    fn put_request_notes(
        &mut self,
        reader: TextReader,
        device: &RecordedDevice,
    ) -> Result<(), AllocError>
        ensures { IfOk result (λ _. self.new ≡ self.old ++ request_notes reader device.now) }
    {
        match reader {
            TextReader::Library => {
                let ep = EpAddr::new(CONTROL);
                self.put_note(ep, EndpointNote::Lost(device.lost))?;
                self.put_note(ep, EndpointNote::Requests(device.left_out))
            }
            TextReader::Scenario => Ok(()),
        }
    }

    /// Puts behind it what the lines leave unsaid.
    fn put_unsaid(&mut self, reader: TextReader, device: &RecordedDevice) -> Result<(), AllocError>
        ensures { IfOk result (λ _. self.new ≡ self.old ++ notes_text reader device.now) }
    {
        self.put_all_notes(device.endpoints.as_slice())?;
        self.put_request_notes(reader, device)?;
        self.put_others(device.others.as_slice())
    }

    /// Puts behind it what a device answered, and which answers wait.
    fn put_told(&mut self, number: u8, device: &RecordedDevice) -> Result<(), AllocError>
        ensures { IfOk result (λ _. self.new ≡ self.old ++ told_text number device.now) }
    {
        self.put_scripts(number, device.endpoints.as_slice())?;
        self.put_controls(number, &device.controls)?;
        self.put_waits(number, device.endpoints.as_slice())
    }

    /// Puts the lines of a device behind it.
    fn put_lines(
        &mut self,
        reader: TextReader,
        number: u8,
        device: &RecordedDevice,
    ) -> Result<(), AllocError>
        ensures { IfOk result (λ _. self.new ≡ self.old ++ lines_text reader number device.now) }
    {
        self.put_configuration(number, device.descriptor.as_slice())?;
        match reader {
            TextReader::Library => {
                self.put_lasts(number)?;
                self.put_identity(number, &device.identity)?;
                self.put_told(number, device)
            }
            TextReader::Scenario => self.put_scripts(number, device.endpoints.as_slice()),
        }
    }

    /// Puts a device that is kept behind it, under this number.
    #[tactic(auto, unfolding(crate::specs::DeviceText::device_text))]
    pub(crate) fn put_device(
        &mut self,
        reader: TextReader,
        number: u8,
        key: u64,
        device: &RecordedDevice,
    ) -> Result<(), AllocError>
        ensures { IfOk result (λ _. self.new ≡ self.old ++ device_text reader number key device.now) }
    {
        self.put_origin(number, key)?;
        self.put_unsaid(reader, device)?;
        self.put_lines(reader, number, device)
    }
}
