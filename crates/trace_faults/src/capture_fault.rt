//! Why no scenario is read from a capture.

ghost use Rattle.std.specs.Prelude.{◌≡◌, Some};
ghost use Rattle.trace_faults.specs.CaptureFaults.{capture_fault_text};
ghost use Rattle.trace_faults.specs.declared.capture_fault.CaptureFault.TheVariants as CaptureFault;

use crate::device_ids::DeviceIds;
use std::alloc::AllocError;
use std::fmt;
use thiserror::Error;

/// Why no scenario is read from a capture.
#[derive(Clone, Copy, PartialEq, Eq, Debug, Error)]
pub enum CaptureFault {
    /// The bytes begin no file of pcap or pcapng, or a section of pcapng says no byte order.
    NotACapture,
    /// A pcap file ends before its records begin.
    HeaderCutShort,
    /// A pcap file has this link type, which is no recorder's of buses.
    LinkType(u32),
    /// No interface of a pcapng file is of a recorder of buses.
    NoInterface,
    /// No device of the capture is the one that is meant: it has these ids.
    NoDevice(DeviceIds),
    /// No memory was to be had.
    Memory,
}

/// The fault in words. They are written here, and not by the derive, whose text no contract knows.
impl fmt::Display for CaptureFault {
    ghost output = { λ fault. Some (capture_fault_text fault) };

    fn fmt<W: fmt::Write>(&self, f: &mut fmt::Formatter<W>) -> fmt::Result {
        match self {
            CaptureFault::NotACapture => f.write_str("not a capture"),
            CaptureFault::HeaderCutShort => f.write_str("a file header cut short"),
            CaptureFault::LinkType(link) => write!(f, "link type {link}"),
            CaptureFault::NoInterface => f.write_str("no interface of usbmon or USBPcap"),
            CaptureFault::NoDevice(ids) => write!(f, "no device {ids}"),
            CaptureFault::Memory => f.write_str("out of memory"),
        }
    }
}

impl From<AllocError> for CaptureFault {
    ghost from_gives = { λ _ fault. fault ≡ CaptureFault.Memory };

    fn from(_error: AllocError) -> CaptureFault {
        CaptureFault::Memory
    }
}
