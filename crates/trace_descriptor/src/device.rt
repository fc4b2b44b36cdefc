//! The beginning of a scenario that is made of a file of descriptors.

ghost use Rattle.std.specs.Prelude.{◌≡◌, ◌++◌, IfErr, IfOk, Ok};
ghost use Rattle.trace_descriptor.specs.Device.{device_text};
ghost use Rattle.trace_faults.specs.DescriptorFaults.{IsDescriptorFault};
ghost use Rattle.trace_descriptor.specs.Identity.{identity_lines};
ghost use Rattle.trace_descriptor.specs.Lines.{comments, device_line};

use crate::file::DescriptorFile;
use crate::input::bytes_of;
use crate::text::DescriptorText;
use std::alloc::{AllocError, Global};
use trace_faults::DescriptorFault;
use usb_descriptors::{Config, read_config};

/// The comments on a file, the line of its device, and what the device descriptor says.
fn text_of(alloc: Global, file: &DescriptorFile<'_>, config: &Config) -> Result<Vec<u8>, AllocError>
    ensures { IfOk result (λ text. text.items ≡ comments file.now config.now ++ (device_line file.now.configuration ++ identity_lines file.now.device)) }
{
    let mut text = DescriptorText::new(alloc);
    text.put_comments(file, config)?;
    text.put_line(file.configuration)?;
    text.put_identity(file.device)?;
    Ok(text.into_bytes())
}

/// The beginning of a scenario: device 0 has the first configuration of the input, and comments in front name its interfaces and
/// endpoints. Behind its line stand the `ids` and `class` lines of a device descriptor, the latter unless all its numbers are 0.
///
/// The input is a device descriptor and one or more configurations, as Linux's file `descriptors` has them, or a configuration
/// alone; or the same as hexadecimal text, of which spaces, line feeds, carriage returns, tabs, colons and each `0x` are passed over.
///
/// Refuses, by the first rule that applies: a text with other characters or an odd number of digits; an input that begins with no
/// device descriptor and no configuration; a device descriptor of other than 18 bytes, or with nothing behind it; and a
/// configuration that `read_config` refuses, as far as its wTotalLength goes.
pub fn device_lines(alloc: Global, input: &[u8]) -> Result<Vec<u8>, DescriptorFault>
    ensures text { IfOk result (λ text. device_text input.now ≡ Ok text.items) }
    ensures fault { IfErr result (λ fault. IsDescriptorFault fault (device_text input.now)) }
{
    let bytes = bytes_of(alloc, input)?;
    let file = DescriptorFile::read(bytes.as_slice())?;
    let config = read_config(file.configuration)?;
    Ok(text_of(alloc, &file, &config)?)
}
