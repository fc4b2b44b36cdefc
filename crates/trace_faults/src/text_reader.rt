//! Who reads a text of devices.

/// Who reads a text of recorded devices, and so which lines it has.
#[derive(Clone, Copy, PartialEq, Eq, Debug)]
pub enum TextReader {
    /// libusb's interface over simulated devices: all that is known of a device.
    Library,
    /// `usbtrace`: a device's configuration and its scripts.
    Scenario,
}
