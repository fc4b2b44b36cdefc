//! An endpoint that a name holds.

use usb_model::{DeviceNo, EpAddr, Name};

/// An endpoint with the name that holds its interface.
#[derive(Clone, Copy, PartialEq, Eq, Debug)]
pub struct HeldEndpoint {
    /// The device.
    pub dev: DeviceNo,
    /// The endpoint's address.
    pub ep: EpAddr,
    /// The name that holds the endpoint's interface.
    pub name: Name,
}
