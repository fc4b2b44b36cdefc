//! What a text of devices says of a file that completed one.

ghost use Rattle.std.specs.Prelude.{◌≡◌, ◌++◌, IfOk, Some, string_bytes};
ghost use Rattle.trace_recorded.specs.DescribedText.{is_printed, known_text, source_line, source_lines, source_text, speed_line, speed_lines, speed_word};

use crate::completed::{DescriptorKind, KnownDescriptor};
use crate::described::DeviceSpeed;
use crate::text::ScenarioText;
use std::alloc::AllocError;
use std::fmt;
use trace_faults::TextReader;

impl DescriptorKind {
    /// Whether a text has a line of it.
    fn is_printed(self, reader: TextReader) -> bool
        ensures { result ≡ is_printed reader self }
    {
        match reader {
            TextReader::Library => true,
            TextReader::Scenario => matches!(self, DescriptorKind::Configuration),
        }
    }
}

/// What it is, in words.
impl fmt::Display for KnownDescriptor {
    ghost output = { λ known. Some (known_text known.kind known.index) };

    fn fmt<W: fmt::Write>(&self, f: &mut fmt::Formatter<W>) -> fmt::Result {
        match self.kind {
            DescriptorKind::Device => f.write_str("the device descriptor"),
            DescriptorKind::Configuration => f.write_str("the configuration"),
            DescriptorKind::Text => {
                let index = self.index;
                write!(f, "string {index}")
            }
        }
    }
}

/// The word of a line.
impl fmt::Display for DeviceSpeed {
    ghost output = { λ speed. Some (speed_word speed) };

    fn fmt<W: fmt::Write>(&self, f: &mut fmt::Formatter<W>) -> fmt::Result {
        f.write_str(match self {
            DeviceSpeed::Low => "low",
            DeviceSpeed::Full => "full",
            DeviceSpeed::High => "high",
        })
    }
}

impl ScenarioText {
    /// Puts the comment behind it that says where a descriptor is from.
    fn put_source_text(&mut self, file: &str, known: &KnownDescriptor) -> Result<(), AllocError>
        ensures { IfOk result (λ _. self.new ≡ self.old ++ source_text file.now known.now) }
    {
        let line = format!(in self.alloc(); "# {known} is from {file}: the capture has none\n")?;
        self.put(line.as_str())
    }

    /// Puts it there, where the text has a line of that.
    fn put_source(
        &mut self,
        reader: TextReader,
        file: &str,
        known: &KnownDescriptor,
    ) -> Result<(), AllocError>
        ensures { IfOk result (λ _. self.new ≡ self.old ++ source_line reader file.now known.now) }
    {
        if !known.kind.is_printed(reader) {
            return Ok(());
        }
        self.put_source_text(file, known)
    }

    /// Puts the comments of all behind it.
    pub(crate) fn put_sources(
        &mut self,
        reader: TextReader,
        file: &str,
        missing: &[KnownDescriptor],
    ) -> Result<(), AllocError>
        ensures { IfOk result (λ _. self.new ≡ self.old ++ source_lines reader file.now missing.now) }
    {
        for known in missing {
            self.put_source(reader, file, known)?;
        }
        Ok(())
    }

    /// Puts the end of the line of a speed behind it.
    fn put_speed_line(&mut self, file: &str, speed: DeviceSpeed) -> Result<(), AllocError>
        ensures { IfOk result (λ _. self.new ≡ self.old ++ speed_line file.now speed) }
    {
        let line = format!(in self.alloc(); "# the speed is from {file}\nspeed 0 {speed}\n")?;
        self.put(line.as_str())
    }

    /// Puts the line of a speed behind it, where it is needed.
    pub(crate) fn put_speed(
        &mut self,
        reader: TextReader,
        file: &str,
        speed: Option<DeviceSpeed>,
    ) -> Result<(), AllocError>
        ensures { IfOk result (λ _. self.new ≡ self.old ++ speed_lines reader file.now speed) }
    {
        match (reader, speed) {
            (TextReader::Library, Some(DeviceSpeed::Low)) => {
                self.put_speed_line(file, DeviceSpeed::Low)
            }
            (TextReader::Library, Some(DeviceSpeed::Full)) => {
                self.put_speed_line(file, DeviceSpeed::Full)
            }
            _ => Ok(()),
        }
    }
}
