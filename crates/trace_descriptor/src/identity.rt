//! The lines of a device's text that say what its device descriptor has (USB 2.0, 9.6.1).

ghost use Rattle.std.specs.Prelude.{◌≡◌, ◌++◌, IfOk};
ghost use Rattle.trace_descriptor.specs.Identity.{class_line, class_lines, identity_lines, ids_line};

use crate::piece::byte_at;
use crate::text::DescriptorText;
use std::alloc::AllocError;

impl DescriptorText {
    /// Puts the line of its vendor, product and release behind it.
    #[tactic(auto, unfolding(crate::specs::Identity::ids_line))]
    fn put_ids_line(&mut self, device: &[u8]) -> Result<(), AllocError>
        ensures { IfOk result (λ _. self.new ≡ self.old ++ ids_line device.now) }
    {
        self.put("ids 0 ")?;
        self.put_hex(&[byte_at(device, 9), byte_at(device, 8)])?;
        self.put(" ")?;
        self.put_hex(&[byte_at(device, 11), byte_at(device, 10)])?;
        self.put(" ")?;
        self.put_hex(&[byte_at(device, 13), byte_at(device, 12)])?;
        self.put("\n")
    }

    /// Puts the line of its class behind it.
    #[tactic(auto, unfolding(crate::specs::Identity::class_line))]
    fn put_class_line(&mut self, device: &[u8]) -> Result<(), AllocError>
        ensures { IfOk result (λ _. self.new ≡ self.old ++ class_line device.now) }
    {
        self.put("class 0 ")?;
        self.put_hex(&[byte_at(device, 4)])?;
        self.put(" ")?;
        self.put_hex(&[byte_at(device, 5)])?;
        self.put(" ")?;
        self.put_hex(&[byte_at(device, 6)])?;
        self.put("\n")
    }

    /// The same, where one of the three isn't 0.
    fn put_class_lines(&mut self, device: &[u8]) -> Result<(), AllocError>
        ensures { IfOk result (λ _. self.new ≡ self.old ++ class_lines device.now) }
    {
        if byte_at(device, 4) == 0 && byte_at(device, 5) == 0 && byte_at(device, 6) == 0 {
            return Ok(());
        }
        self.put_class_line(device)
    }

    /// Puts what a device descriptor has behind it, where there is one.
    pub(crate) fn put_identity(&mut self, device: &[u8]) -> Result<(), AllocError>
        ensures { IfOk result (λ _. self.new ≡ self.old ++ identity_lines device.now) }
    {
        if device.is_empty() {
            return Ok(());
        }
        self.put_ids_line(device)?;
        self.put_class_lines(device)
    }
}
