//! The configuration that a recorded device was used in.

ghost use Rattle.std.specs.Prelude.{◌≡◌, ◌==◌, ◌++◌, ◌∷◌, [], IfOk, length, slice_index, take};
ghost use Rattle.std.specs.List.{find};
ghost use Rattle.std.specs.Option.{option_copied};
ghost use Rattle.trace_capture.specs.Control.{configuration_value, total_length};
ghost use Rattle.trace_recorded.specs.Configurations.{configuration_by, is_complete, is_of, no_configurations, reads_configuration, sets_configuration, with_answer};

use std::alloc::{AllocError, Global};
use trace_capture::ControlSetup;
use usb_model::{Bytes, Sequence};

/// The configurations of a device, as far as its requests say.
#[derive(Drop)]
pub(crate) struct Configurations {
    /// The configuration descriptors that were read, in order.
    found: Sequence<Bytes>,
    /// The value of the configuration that was set last.
    configured: Option<u8>,
}

/// A byte; 0 past the end.
pub(crate) fn byte_or_zero(bytes: &[u8], place: usize) -> u8
    ensures { result ≡ slice_index bytes.now place }
{
    match bytes.get(place) {
        Some(byte) => *byte,
        None => 0,
    }
}

/// How many bytes a configuration has with all its descriptors, as it says itself (USB 2.0, 9.6.3).
pub(crate) fn total_length(bytes: &[u8]) -> usize
    ensures { result ≡ total_length bytes.now }
{
    usize::from(byte_or_zero(bytes, 2)) + 256 * usize::from(byte_or_zero(bytes, 3))
}

/// Whether bytes are a whole configuration.
pub(crate) fn is_complete(bytes: &[u8]) -> bool
    ensures { result ≡ is_complete bytes.now }
{
    bytes.len() >= 9 && total_length(bytes) >= 9 && total_length(bytes) <= bytes.len()
}

/// Whether a request reads a configuration descriptor.
fn reads_configuration(setup: ControlSetup) -> bool
    ensures { result ≡ reads_configuration setup }
{
    setup.request_type == 0x80 && setup.request == 6 && setup.value / 256 == 2
}

/// Whether it sets a configuration.
fn sets_configuration(setup: ControlSetup) -> bool
    ensures { result ≡ sets_configuration setup }
{
    setup.request_type == 0 && setup.request == 9 && setup.value % 256 != 0
}

/// Whether a descriptor is that of the configuration of this value.
fn is_of(configured: Option<u8>, descriptor: &Bytes) -> bool
    ensures { result ≡ is_of configured descriptor.now }
{
    match configured {
        Some(value) => byte_or_zero(descriptor.as_slice(), 5) == value,
        None => false,
    }
}

/// A copy of the first bytes, as many as there are.
pub(crate) fn front(alloc: Global, bytes: &[u8], count: usize) -> Result<Bytes, AllocError>
    ensures { IfOk result (λ front. front ≡ take count bytes.now) }
{
    let front = bytes.get(..count).unwrap_or(bytes);
    Ok(Sequence::from_vec(Vec::from_slice(alloc, front)?))
}

impl Configurations {
    /// Nothing is read yet.
    pub(crate) fn new(alloc: Global) -> Configurations
        ensures { result ≡ no_configurations }
    {
        Configurations {
            found: Sequence::new(alloc),
            configured: None,
        }
    }

    /// Whether no configuration descriptor was read.
    pub(crate) fn has_none(&self) -> bool
        ensures { result ≡ (length self.now.found == 0) }
    {
        self.found.is_empty()
    }

    /// A request succeeded, with these bytes.
    pub(crate) fn answer(
        &mut self,
        alloc: Global,
        setup: ControlSetup,
        bytes: &[u8],
    ) -> Result<(), AllocError>
        ensures { IfOk result (λ _. self.new ≡ with_answer setup bytes.now self.old) }
    {
        if reads_configuration(setup) && is_complete(bytes) {
            self.found.push(front(alloc, bytes, total_length(bytes))?)?;
        } else if sets_configuration(setup) {
            self.configured = Some((setup.value % 256) as u8);
        }
        Ok(())
    }

    /// The first descriptor of the configuration that was set last.
    fn of_configured(&self) -> Option<&Bytes>
        ensures { option_copied result ≡ find (is_of self.now.configured) self.now.found }
    {
        let configured = self.configured;
        self.found
            .as_slice()
            .iter()
            .find(|descriptor| is_of(configured, descriptor))
    }

    /// The same, or else the first that was read.
    fn chosen(&self) -> Option<&Bytes>
        ensures { option_copied result ≡ configuration_by self.now }
    {
        match self.of_configured() {
            Some(descriptor) => Some(descriptor),
            None => self.found.as_slice().first(),
        }
    }

    /// The descriptor of the configuration in which the device was used, where it was recorded.
    pub(crate) fn configuration(&self, alloc: Global) -> Result<Option<Bytes>, AllocError>
        ensures { IfOk result (λ configuration. configuration ≡ configuration_by self.now) }
    {
        match self.chosen() {
            Some(descriptor) => Ok(Some(front(alloc, descriptor.as_slice(), descriptor.len())?)),
            None => Ok(None),
        }
    }
}
