//! A device as a file beside a capture describes it.

ghost use Rattle.std.specs.Prelude.{◌≡◌, Some};
ghost use Rattle.trace_recorded.specs.Lines.{said_ids};
ghost use Rattle.trace_recorded.specs.Described.{ids_of, is_same};

use crate::configuration::byte_or_zero;
use crate::identity::RecordedString;
use std::fmt;
use trace_faults::DeviceIds;
use usb_model::{Bytes, Sequence};

/// Where a device stood.
#[derive(Clone, Copy, PartialEq, Eq, Debug)]
pub struct DevicePlace {
    /// The number of its bus.
    pub bus: u16,
    /// Its address there.
    pub device: u8,
}

/// How fast a device is (USB 2.0, 7.1).
#[derive(Clone, Copy, PartialEq, Eq, Debug)]
pub enum DeviceSpeed {
    /// 1.5 Mb/s.
    Low,
    /// 12 Mb/s.
    Full,
    /// 480 Mb/s.
    High,
}

/// A device as a file describes it.
#[derive(Drop)]
pub struct DescribedDevice {
    /// The file, as comments name it.
    pub(crate) file: String,
    /// Its device descriptor, 18 bytes.
    pub(crate) descriptor: Bytes,
    /// Its configurations.
    pub(crate) configurations: Sequence<Bytes>,
    /// Its strings.
    pub(crate) strings: Sequence<RecordedString>,
    /// Its speed, where it is known.
    pub(crate) speed: Option<DeviceSpeed>,
    /// Where it stood, where that is known.
    pub(crate) place: Option<DevicePlace>,
}

/// The ids of a device descriptor.
pub(crate) fn ids_of(descriptor: &[u8]) -> DeviceIds
    ensures { result ≡ ids_of descriptor.now }
{
    let (low, high) = (byte_or_zero(descriptor, 8), byte_or_zero(descriptor, 9));
    let (lower, upper) = (byte_or_zero(descriptor, 10), byte_or_zero(descriptor, 11));
    DeviceIds {
        vendor: u16::from(low) + 256 * u16::from(high),
        product: u16::from(lower) + 256 * u16::from(upper),
    }
}

/// Whether two devices have the same ids.
pub(crate) fn is_same(ids: DeviceIds, others: DeviceIds) -> bool
    ensures { result ≡ is_same ids others }
{
    ids.vendor == others.vendor && ids.product == others.product
}

/// The ids that a device says itself, behind a blank and in brackets; nothing where they weren't read.
#[derive(Clone, Copy)]
pub(crate) struct SaidIds(pub(crate) Option<DeviceIds>);

impl fmt::Display for SaidIds {
    ghost output = { λ said. Some (said_ids said.0) };

    fn fmt<W: fmt::Write>(&self, f: &mut fmt::Formatter<W>) -> fmt::Result {
        match self.0 {
            Some(ids) => write!(f, " ({ids})"),
            None => Ok(()),
        }
    }
}
